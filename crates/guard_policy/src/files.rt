//! The files of modules that a policy lists.
ghost use Rattle.std.specs.Prelude.{◌≡◌, map, string_bytes, IfOk, IfErr, IfSome};
ghost use Rattle.guard_policy.specs.Loads.{ListsFiles, ListsNoFiles};
ghost use Rattle.guard_policy.specs.PolicyFaults.{named};
ghost use Rattle.guard_policy.specs.inside.Answers.{texts_view};

use super::document::{document, top_of};
use super::fault::PolicyFault;
use std::alloc::{AllocError, Global};

/// The files of modules that the text of a policy lists, in order. Only the top of the document is looked at, so the
/// errors are Toml, and UnknownKey and MissingKey of the top; OutOfMemory may come in place of any answer.
pub fn module_files(alloc: Global, text: &[u8]) -> Result<Vec<String>, PolicyFault>
    ensures files { IfOk result (λ files. ListsFiles text.now (map string_bytes files.items)) }
    ensures refused { IfErr result (λ f. IfSome (named f) (ListsNoFiles text.now)) }
{
    let top = document(alloc, text)?;
    let listed = top_of(alloc, &top)?;
    Ok(copy_of_texts(alloc, &listed.files)?)
}

fn copy_of_texts(alloc: Global, texts: &[&str]) -> Result<Vec<String>, AllocError>
    ensures { IfOk result (λ copy. map string_bytes copy.items ≡ texts_view texts.now) }
{
    let mut copy = Vec::with_capacity(alloc, texts.len())?;
    for text in texts {
        copy.push(String::from_str(alloc, text)?)?;
    }
    Ok(copy)
}
