//! `guard_values`: the value that a text denotes under the type that is set, by the octets of its encoding; or the
//! fault.
ghost use Rattle.std.specs.Prelude.{◌≡◌, true, IsTrue, IfOk, IfSome};
ghost use Rattle.std.specs.Arc.{arc_value};
ghost use Rattle.guard_model.specs.TypeView.{type_view};
ghost use Rattle.guard_model.specs.ValueView.{value_view};
ghost use Rattle.guard_der.specs.Fits.{fits};
ghost use Rattle.guard_der.specs.Sound.{is_sound};
ghost use Rattle.guard_values.specs.KeptLengths.{contents_length};
ghost use Rattle.guard_values.specs.Views.{known_value_view, AreKnownFitting};

use crate::encoding::decodes_to;
use conformance_rows::{Layer, in_hexadecimal, not_read, text_of, unknown};
use conformance_texts::{AsksNames, are_fitting, ask_names};
use guard_der::{encode, sound};
use guard_model::{Ty, Value};
use guard_names::{Id, Names};
use guard_schema::Schema;
use guard_syntax::{Assignment, Module, ValueTree};
use guard_values::{Known, KnownValue, ValueFault, shared_value, value};
use std::alloc::{AllocError, Global};
use std::sync::Arc;

/// A value assignment that is visible: its name, its type and its value as they are written.
#[derive(Drop)]
struct Visible {
    name: String,
    ty: String,
    value: String,
}

#[derive(Drop)]
pub struct ValuesRows {
    ty: String,
    visible: Vec<Visible>,
    /// Those of another module, and which of them are imported.
    others: Vec<Visible>,
    imported: String,
    /// Whether of the octets only their number is answered.
    counted: bool,
    /// Whether the row asks `value`; else it asks `shared_value`, as schemas do.
    unshared: bool,
}

/// What comes of a definition.
enum Next {
    /// The row goes on: what is known now.
    Known(Known),
    /// The answer to the row.
    Answer(String),
}

impl ValuesRows {
    /// A module with the value in its third line, and the visible ones below it; and the other module. The types in
    /// them say nothing here.
    fn module_text(&self, alloc: Global, text: &str) -> Result<String, AllocError> {
        let mut whole = String::from_str(alloc, "M DEFINITIONS ::= BEGIN")?;
        if !self.imported.is_empty() {
            whole.push_str(" IMPORTS ")?;
            whole.push_str(&self.imported)?;
            whole.push_str(" FROM N;")?;
        }
        whole.push_str("\nv NULL ::=\n")?;
        whole.push_str(text)?;
        push_assignments(&mut whole, &self.visible)?;
        whole.push_str("\nEND\n==== N DEFINITIONS ::= BEGIN")?;
        push_assignments(&mut whole, &self.others)?;
        whole.push_str("\nEND\n")?;
        Ok(whole)
    }

    /// A module with the types: `T`, of `m` its type `T-m`, and of `m` in the other module `O-m`.
    fn types_text(&self, alloc: Global) -> Result<String, AllocError> {
        let ty = &self.ty;
        let mut text = format!(in alloc; "M DEFINITIONS ::= BEGIN\nT ::= {ty}\n")?;
        push_types(&mut text, "T-", &self.visible)?;
        push_types(&mut text, "O-", &self.others)?;
        text.push_str("END\n")?;
        Ok(text)
    }

    /// Values in their order, up to the one that is asked for.
    fn built(&self, alloc: Global, names: &Names, types: &Schema) -> Result<String, AllocError> {
        let mut known = Known::with_room(alloc, 0)?;
        for id in names.order() {
            known = match self.next(alloc, names, types, known, *id)? {
                Next::Known(known) => known,
                Next::Answer(answer) => return Ok(answer),
            };
        }
        String::from_str(alloc, "no value")
    }

    /// The answer to the row where this is the definition that it asks for, or where there is none; else the value that
    /// the definition gives, if it gives one, is known from now on.
    fn next(
        &self,
        alloc: Global,
        names: &Names,
        types: &Schema,
        known: Known,
        id: Id,
    ) -> Result<Next, AllocError> {
        let Some((module, assignment)) = names.home(id) else {
            return Ok(Next::Known(known));
        };
        let Some(tree) = &assignment.value else {
            return Ok(Next::Known(known));
        };
        let name = type_name(alloc, module, assignment)?;
        let Some(ty) = types.ty("M", &name) else {
            return answered(alloc, "no type");
        };
        if assignment.name == "v".as_bytes() {
            let found = self.asked(alloc, names, &known, id, ty, tree);
            return Ok(Next::Answer(self.shown(alloc, ty, found)?));
        }
        match denoted(alloc, names, &known, id, ty, tree) {
            Some(Ok(value)) => Ok(Next::Known(kept(alloc, known, ty, value)?)),
            _ => answered(alloc, "a visible name has no value"),
        }
    }

    /// What `shared_value` answers, or `value` if the row asks that, where their premises hold.
    fn asked(
        &self,
        alloc: Global,
        names: &Names,
        known: &Known,
        id: Id,
        ty: &Ty,
        tree: &ValueTree,
    ) -> Option<Result<Arc<Value>, ValueFault>>
        ensures sound { IfSome result (λ r. IsTrue (is_sound (type_view ty.now))) }
        ensures fits { IfSome result (λ r. IfOk r (λ v. IsTrue (fits (type_view ty.now) (value_view (arc_value v))))) }
    {
        if !self.unshared {
            return match denoted(alloc, names, known, id, ty, tree)? {
                Ok(found) => Some(Ok(found.value)),
                Err(fault) => Some(Err(fault)),
            };
        }
        if !is_lawful(alloc, ty) || !are_fitting(alloc, known) {
            return None;
        }
        Some(own_value(alloc, names, known, id, ty, tree))
    }

    /// The octets of the value, or why there is none.
    fn shown(
        &self,
        alloc: Global,
        ty: &Ty,
        found: Option<Result<Arc<Value>, ValueFault>>,
    ) -> Result<String, AllocError>
        requires sound { IfSome found (λ r. IsTrue (is_sound (type_view ty.now))) }
        requires fits { IfSome found (λ r. IfOk r (λ v. IsTrue (fits (type_view ty.now) (value_view (arc_value v))))) }
    {
        let Some(found) = found else {
            return String::from_str(alloc, "not sound");
        };
        match found {
            Ok(value) => self.encoded(alloc, ty, &value),
            Err(fault) => format!(in alloc; "{fault}"),
        }
    }

    fn encoded(&self, alloc: Global, ty: &Ty, value: &Value) -> Result<String, AllocError>
        requires sound { IsTrue (is_sound (type_view ty.now)) }
        requires fits { IsTrue (fits (type_view ty.now) (value_view value.now)) }
    {
        let Ok(octets) = encode(alloc, ty, value) else {
            return String::from_str(alloc, "no encoding");
        };
        if !decodes_to(alloc, ty, &octets, value)? {
            return String::from_str(alloc, "decode takes the octets for another value");
        }
        if self.counted {
            let count = octets.len();
            return format!(in alloc; "{count} octets");
        }
        in_hexadecimal(alloc, &octets)
    }
}

/// What is known, with one more value and its type.
fn kept(alloc: Global, known: Known, ty: &Ty, value: KnownValue) -> Result<Known, AllocError>
    requires counted { value.length ≡ contents_length (type_view ty.now) (known_value_view value) }
{
    let Ok(ty) = ty.copy(alloc) else {
        return Err(AllocError);
    };
    known.with(Arc::new(alloc, ty)?, Some(value.value), value.length, None)
}

fn answered(alloc: Global, text: &str) -> Result<Next, AllocError> {
    Ok(Next::Answer(String::from_str(alloc, text)?))
}

impl AsksNames for ValuesRows {
    fn answer_on(&self, alloc: Global, names: &Names) -> Result<String, AllocError> {
        let types = self.types_text(alloc)?;
        match Schema::build(alloc, &[types.as_bytes()]) {
            Ok(types) => self.built(alloc, names, &types),
            Err(fault) => format!(in alloc; "{fault}"),
        }
    }
}

fn push_assignments(whole: &mut String, assignments: &[Visible]) -> Result<(), AllocError> {
    for visible in assignments {
        whole.push('\n')?;
        whole.push_str(&visible.name)?;
        whole.push_str(" NULL ::= ")?;
        whole.push_str(&visible.value)?;
    }
    Ok(())
}

fn push_types(text: &mut String, prefix: &str, assignments: &[Visible]) -> Result<(), AllocError> {
    for visible in assignments {
        let Visible { name, ty, .. } = visible;
        write!(text, "{prefix}{name} ::= {ty}\n")?;
    }
    Ok(())
}

/// The name that the type of a value has.
fn type_name(
    alloc: Global,
    module: &Module,
    assignment: &Assignment,
) -> Result<String, AllocError> {
    let name = text_of(assignment.name);
    match (text_of(module.name), name) {
        ("M", "v") => String::from_str(alloc, "T"),
        ("M", _) => format!(in alloc; "T-{name}"),
        _ => format!(in alloc; "O-{name}"),
    }
}

/// What `shared_value` answers, where its premises hold.
fn denoted(
    alloc: Global,
    names: &Names,
    known: &Known,
    id: Id,
    ty: &Ty,
    tree: &ValueTree,
) -> Option<Result<KnownValue, ValueFault>>
    ensures sound { IfSome result (λ r. IsTrue (is_sound (type_view ty.now))) }
    ensures fits { IfSome result (λ r. IfOk r (λ v. IsTrue (fits (type_view ty.now) (known_value_view v)))) }
    ensures counted { IfSome result (λ r. IfOk r (λ v.
        v.length ≡ contents_length (type_view ty.now) (known_value_view v))) }
{
    if !is_lawful(alloc, ty) || !are_fitting(alloc, known) {
        return None;
    }
    Some(shared_value(alloc, names, known, id, ty, tree))
}

/// What `value` answers.
fn own_value(
    alloc: Global,
    names: &Names,
    known: &Known,
    id: Id,
    ty: &Ty,
    tree: &ValueTree,
) -> Result<Arc<Value>, ValueFault>
    requires sound { IsTrue (is_sound (type_view ty.now)) }
    requires fitting { AreKnownFitting known.now }
    ensures { IfOk result (λ v. IsTrue (fits (type_view ty.now) (value_view (arc_value v)))) }
{
    let found = value(alloc, names, known, id, ty, tree)?;
    Ok(Arc::new(alloc, found)?)
}

pub fn is_lawful(alloc: Global, ty: &Ty) -> bool
    ensures { result ≡ true → IsTrue (is_sound (type_view ty.now)) }
{
    match sound(alloc, ty) {
        Ok(answer) => answer,
        Err(_) => false,
    }
}

impl Layer for ValuesRows {
    fn new(alloc: Global) -> ValuesRows {
        ValuesRows {
            ty: String::new(alloc),
            visible: Vec::new(alloc),
            others: Vec::new(alloc),
            imported: String::new(alloc),
            counted: false,
            unshared: false,
        }
    }

    fn answer(&mut self, alloc: Global, input: &[u8]) -> Result<String, AllocError> {
        let text = self.module_text(alloc, text_of(input))?;
        ask_names(alloc, &text, self)
    }

    /// `@type TYPE`; `@visible NAME TYPE ::= VALUE`, and `@visible none`; `@other NAME TYPE ::= VALUE` in another
    /// module, and `@imports NAMES` from it; `@show octets` and `@show count`; `@ask value` and `@ask shared_value`.
    fn set(&mut self, alloc: Global, name: &str, text: &[u8]) -> Result<String, AllocError> {
        match (name, text_of(text)) {
            ("type", text) => self.ty = String::from_str(alloc, text)?,
            ("visible", "none") => self.visible = Vec::new(alloc),
            ("visible", text) => return add_to(alloc, &mut self.visible, text),
            ("other", text) => return add_to(alloc, &mut self.others, text),
            ("imports", text) => self.imported = String::from_str(alloc, text)?,
            ("show", "octets") => self.counted = false,
            ("show", "count") => self.counted = true,
            ("ask", "value") => self.unshared = true,
            ("ask", "shared_value") => self.unshared = false,
            _ => return unknown(alloc),
        }
        String::from_str(alloc, "ok")
    }
}

fn add_to(alloc: Global, list: &mut Vec<Visible>, text: &str) -> Result<String, AllocError> {
    let Some((name, rest)) = text.split_once(' ') else {
        return not_read(alloc);
    };
    let Some((ty, value)) = rest.split_once(" ::= ") else {
        return not_read(alloc);
    };
    list.push(Visible {
        name: String::from_str(alloc, name)?,
        ty: String::from_str(alloc, ty)?,
        value: String::from_str(alloc, value)?,
    })?;
    String::from_str(alloc, "ok")
}
