//! What is asked of the names of modules that texts write. Modules, and what their names mean, are made and dropped
//! here alone: to drop a tree is proved once more in each crate that does it.
ghost use Rattle.std.specs.Prelude.{All};
ghost use Rattle.guard_names.specs.NamesView.{modules_of};
ghost use Rattle.guard_syntax.specs.ModuleViews.{module_view};
ghost use Rattle.guard_tagging.specs.Spelled.{IsSpelledModule};

use crate::texts::modules;
use conformance_rows::text_of;
use guard_names::{Names, resolve};
use guard_syntax::Module;
use std::alloc::{AllocError, Global};

/// A question about the names of modules.
pub trait AsksNames {
    /// The answer to a row.
    fn answer_on(&self, alloc: Global, names: &Names) -> Result<String, AllocError>
        requires { All IsSpelledModule (modules_of names.now) };
}

/// The answer on the names of the modules that texts write, or their first fault.
pub fn ask_names<A: AsksNames>(alloc: Global, texts: &str, asks: &A) -> Result<String, AllocError> {
    match modules(alloc, texts) {
        Ok(modules) => resolved(alloc, &modules, asks),
        Err(fault) => fault.answer(),
    }
}

fn resolved<A: AsksNames>(alloc: Global, modules: &[Module], asks: &A) -> Result<String, AllocError>
    requires { All (λ m. IsSpelledModule (module_view m)) modules.now }
{
    match resolve(alloc, modules) {
        Ok(names) => asks.answer_on(alloc, &names),
        Err(fault) => format!(in alloc; "{fault}"),
    }
}

/// The names of a definition and of its module.
#[derive(Drop)]
pub struct DefinedName {
    pub module: String,
    pub name: String,
}

/// The names that are assigned in modules; none where a text is no module.
pub fn defined_names(alloc: Global, texts: &str) -> Result<Vec<DefinedName>, AllocError> {
    let mut names = Vec::new(alloc);
    let Ok(modules) = modules(alloc, texts) else {
        return Ok(names);
    };
    for module in &modules {
        for assignment in &module.assignments {
            names.push(DefinedName {
                module: String::from_str(alloc, text_of(module.name))?,
                name: String::from_str(alloc, text_of(assignment.name))?,
            })?;
        }
    }
    Ok(names)
}
