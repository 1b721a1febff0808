//! The module texts of a row, separated by `====`; the modules that they are read as; and values without names.
ghost use Rattle.std.specs.Prelude.{All, IfOk, IsTrue};
ghost use Rattle.std.specs.Arc.{arc_value};
ghost use Rattle.guard_der.specs.Fits.{fits};
ghost use Rattle.guard_der.specs.Sound.{is_sound};
ghost use Rattle.guard_model.specs.TypeView.{type_view};
ghost use Rattle.guard_model.specs.ValueView.{value_view};
ghost use Rattle.guard_syntax.specs.ModuleViews.{module_view};
ghost use Rattle.guard_tagging.specs.Spelled.{IsSpelledModule};

use crate::known::are_fitting;
use conformance_rows::texts_of;
use guard_lexer::tokens;
use guard_model::{Ty, Value};
use guard_names::{Names, resolve};
use guard_syntax::{Module, parse};
use guard_tagging::laws::law_spelled;
use guard_values::{Known, shared_value};
use std::alloc::{AllocError, AllocFailed, Global};
use std::sync::Arc;

/// Why texts are no modules, or a text no value.
#[derive(Drop)]
pub enum TextsFault {
    /// The text of their first fault.
    Told(String),
    OutOfMemory,
}

impl TextsFault {
    /// The answer to a row: the text of the fault.
    pub fn answer(self) -> Result<String, AllocError> {
        match self {
            TextsFault::Told(text) => Ok(text),
            TextsFault::OutOfMemory => Err(AllocError),
        }
    }
}

impl From<AllocError> for TextsFault {
    fn from(_e: AllocError) -> TextsFault {
        TextsFault::OutOfMemory
    }
}

impl From<AllocFailed<Module<'_>>> for TextsFault {
    fn from(_e: AllocFailed<Module<'_>>) -> TextsFault {
        TextsFault::OutOfMemory
    }
}

/// The fault with this text, if there was memory for that.
fn told(text: Result<String, AllocError>) -> TextsFault {
    match text {
        Ok(text) => TextsFault::Told(text),
        Err(_) => TextsFault::OutOfMemory,
    }
}

fn no_value(alloc: Global) -> TextsFault {
    told(String::from_str(alloc, "no value"))
}

/// The modules of the texts that are in one.
pub fn modules<'a>(alloc: Global, texts: &'a str) -> Result<Vec<Module<'a>>, TextsFault>
    ensures { IfOk result (λ v. All (λ m. IsSpelledModule (module_view m)) v.items) }
{
    let texts = texts_of(alloc, texts.as_bytes())?;
    let mut modules = Vec::new(alloc);
    let mut place = 1_u32;
    for text in &texts {
        modules.push(module(alloc, place, text)?)?;
        place = place.saturating_add(1);
    }
    Ok(modules)
}

fn module<'a>(alloc: Global, place: u32, text: &'a [u8]) -> Result<Module<'a>, TextsFault>
    ensures { IfOk result (λ m. IsSpelledModule (module_view m)) }
{
    let found = match tokens(alloc, place, text) {
        Ok(found) => found,
        Err(fault) => return Err(told(format!(in alloc; "{fault}"))),
    };
    law_spelled(text, &found);
    match parse(alloc, place, text, &found) {
        Ok(module) => Ok(module),
        Err(fault) => Err(told(format!(in alloc; "{fault}"))),
    }
}

/// The value that a text denotes under a type, where no name is visible.
pub fn value_of(alloc: Global, ty: &Ty, text: &str) -> Result<Arc<Value>, TextsFault>
    requires sound { IsTrue (is_sound (type_view ty.now)) }
    ensures fits { IfOk result (λ v. IsTrue (fits (type_view ty.now) (value_view (arc_value v)))) }
{
    let whole = format!(in alloc; "M DEFINITIONS ::= BEGIN\nrow-value NULL ::=\n{text}\nEND")?;
    let modules = modules(alloc, &whole)?;
    match resolve(alloc, &modules) {
        Ok(names) => assigned(alloc, &names, ty),
        Err(fault) => Err(told(format!(in alloc; "{fault}"))),
    }
}

/// The value that is assigned to `row-value` in the module `M`, read under a type.
fn assigned(alloc: Global, names: &Names, ty: &Ty) -> Result<Arc<Value>, TextsFault>
    requires sound { IsTrue (is_sound (type_view ty.now)) }
    ensures fits { IfOk result (λ v. IsTrue (fits (type_view ty.now) (value_view (arc_value v)))) }
{
    let Some(id) = names.find("M", "row-value") else {
        return Err(no_value(alloc));
    };
    let Some((_, assignment)) = names.home(id) else {
        return Err(no_value(alloc));
    };
    let known = Known::with_room(alloc, 0)?;
    match &assignment.value {
        Some(tree) if are_fitting(alloc, &known) => {
            match shared_value(alloc, names, &known, id, ty, tree) {
                Ok(found) => Ok(found.value),
                Err(fault) => Err(told(format!(in alloc; "{fault}"))),
            }
        }
        _ => Err(no_value(alloc)),
    }
}
