//! What a policy is built on: the types of a schema and the names of its modules.
ghost use Rattle.std.specs.Prelude.{◌≡◌, None, Some, map, option_map, string_bytes, IfOk, IfErr, IfSome, IsTrue};
ghost use Rattle.guard_der.specs.Sound.{is_sound};
ghost use Rattle.guard_model.specs.TypeView.{type_view};
ghost use Rattle.toml.specs.View.{table_view};
ghost use Rattle.guard_der.specs.NamedTypes.{AbstractTypes, module_at};
ghost use Rattle.guard_policy.specs.Entries.{type_in};
ghost use Rattle.guard_policy.specs.PolicyFaults.{named, no_such_type};

use super::document::text_of;
use super::entry::{Entry, Key};
use super::fault::PolicyFault;
use guard_der::named_types::Types;
use guard_model::{MOST_MODULES, Ty};
use std::alloc::{AllocError, Global};
use toml::Table;

/// The type that the entry names, which is sound; NoSuchType where the schema has none of this name.
pub(crate) fn type_named<'a, S: Types>(
    schema: &'a S,
    entry: Entry,
    table: &Table,
) -> Result<&'a Ty, PolicyFault>
    ensures found { IfOk result (λ ty. type_in (S.types schema.now) (table_view table.now) ≡ Some (type_view ty.now)) }
    ensures sound { IfOk result (λ ty. IsTrue (is_sound (type_view ty.now))) }
    ensures missing { IfErr result (λ f. IfSome (named f)
        (λ fault. (type_in (S.types schema.now) (table_view table.now) ≡ None) × (fault ≡ no_such_type entry))) }
{
    match schema.ty(text_of(table, Key::Module), text_of(table, Key::TypeName)) {
        Some(ty) => Ok(ty),
        None => Err(PolicyFault::NoSuchType(entry)),
    }
}

/// The names of the modules, in order.
pub(crate) fn module_names<S: Types>(alloc: Global, schema: &S) -> Result<Vec<String>, AllocError>
    ensures { IfOk result (λ names. map string_bytes names.items ≡ (S.types schema.now).modules) }
{
    let mut names = Vec::new(alloc);
    for place in 0..MOST_MODULES as u32 {
        if let Some(name) = module_name(alloc, schema, place + 1)? {
            names.push(name)?;
        }
    }
    Ok(names)
}

/// A copy of the name of the module at this place, from 1; None where there is no such place.
fn module_name<S: Types>(alloc: Global, schema: &S, text: u32) -> Result<Option<String>, AllocError>
    ensures { IfOk result (λ name. option_map string_bytes name ≡ module_at (S.types schema.now).modules text) }
{
    match schema.module(text) {
        Some(name) => Ok(Some(String::from_str(alloc, name)?)),
        None => Ok(None),
    }
}
