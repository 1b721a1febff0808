//! The modules that texts are.
ghost use Rattle.std.specs.Prelude.{◌≤◌, [], All, IfOk, IsUtf8, map, length};
ghost use Rattle.guard_tagging.specs.Spelled.{IsSpelledModule};
ghost use Rattle.guard_schema.specs.Faults.{named};
ghost use Rattle.guard_schema.specs.Outcomes.{Answers};
ghost use Rattle.guard_schema.specs.Accepts.{ReadsModules};
ghost use Rattle.guard_schema.specs.Texts.{AreOfTexts, ReadsText, ReadsTexts, CountsTexts};
ghost use Rattle.guard_syntax.specs.ModuleViews.{module_view};

use crate::fault::SchemaFault;
use guard_model::MOST_MODULES;
use guard_names::NameFault;
use guard_syntax::Module;
use guard_tagging::laws::law_spelled;
use std::alloc::Global;

/// The modules that texts are (X.680 13.1), in the order of the texts, each the text of one. More than 64 texts are
/// refused before any is read (N7); then each is read whole before the next one, its tokens (L1 to L7) and how they
/// follow one another (P1 to P3). OutOfMemory may come in place of any answer.
pub fn read_modules<'a>(alloc: Global, texts: &[&'a [u8]]) -> Result<Vec<Module<'a>>, SchemaFault>
    // What is answered is what the texts are, or a refusal names their first fault.
    ensures read { Answers (λ v. map module_view v.items) named result (ReadsModules (map (λ t. t.now) texts.now)) }
    ensures kept { IfOk result (λ v. AreOfTexts (map module_view v.items)) }
{
    check_count(texts)?;
    modules(alloc, texts)
}

/// More than 64 texts are refused before any is read.
fn check_count(texts: &[&[u8]]) -> Result<(), SchemaFault>
    ensures { Answers (λ u. u) named result (CountsTexts (map (λ t. t.now) texts.now)) }
{
    if texts.len() > MOST_MODULES {
        return Err(SchemaFault::Name(NameFault::TooManyModules));
    }
    Ok(())
}

/// The modules of texts, each read whole before the next one.
fn modules<'a>(alloc: Global, texts: &[&'a [u8]]) -> Result<Vec<Module<'a>>, SchemaFault>
    requires { length texts.now ≤ 64 }
    ensures read { Answers (λ v. map module_view v.items) named result (ReadsTexts [] (map (λ t. t.now) texts.now)) }
    ensures spelled { IfOk result (λ v. All IsSpelledModule (map module_view v.items)) }
    ensures named { IfOk result (λ v. All (λ m. IsUtf8 m.name) (map module_view v.items)) }
{
    let mut modules = Vec::with_capacity(alloc, texts.len())?;
    for text in texts {
        let place = modules.len() as u32 + 1;
        modules.push(module(alloc, place, text)?)?;
    }
    Ok(modules)
}

/// The module of the text at this place, from 1. Its tokens are dropped before the next text is read: what stays is the
/// tree, which borrows the text.
fn module<'a>(alloc: Global, place: u32, text: &'a [u8]) -> Result<Module<'a>, SchemaFault>
    ensures read { Answers module_view named result (ReadsText place text.now) }
    ensures spelled { IfOk result (λ m. IsSpelledModule (module_view m)) }
    ensures named { IfOk result (λ m. IsUtf8 (module_view m).name) }
{
    let tokens = guard_lexer::tokens(alloc, place, text)?;
    law_spelled(text, &tokens);
    Ok(guard_syntax::parse(alloc, place, text, &tokens)?)
}
