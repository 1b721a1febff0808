//! The messages of a policy's text.
ghost use Rattle.std.specs.Prelude.{◌≡◌, [], Some, All, map, IfOk, IsTrue};
ghost use Rattle.guard_der.specs.Sound.{is_sound};
ghost use Rattle.guard_model.specs.TypeView.{type_view};
ghost use Rattle.toml.specs.View.{table_view};
ghost use Rattle.guard_policy.specs.inside.Answers.{Meets, tables_view};
ghost use Rattle.guard_policy.specs.Entries.{message_in, those_there};
ghost use Rattle.guard_policy.specs.EntryFaults.{message_fault, entries_fault};
ghost use Rattle.guard_policy.specs.SaidView.{said_message_view};
ghost use Rattle.guard_policy.specs.inside.Said.{names_in};

use super::document::{check_entry, text_of};
use super::entry::{Entry, Key};
use super::fault::PolicyFault;
use super::route::is_name;
use super::said::SaidMessage;
use super::seen::has_name;
use super::types::type_named;
use guard_der::named_types::Types;
use indexmap::IndexSet;
use std::alloc::Global;
use toml::Table;

const MESSAGE_KEYS: [Key; 3] = [Key::Name, Key::Module, Key::TypeName];

/// Each message, or the fault of the first that has one.
pub(crate) fn messages_of<'a, S: Types>(
    alloc: Global,
    schema: &'a S,
    tables: &[&'a Table],
) -> Result<Vec<SaidMessage<'a>>, PolicyFault>
    ensures met { Meets (entries_fault (message_fault (S.types schema.now)) [] 1 (tables_view tables.now)) result }
    ensures made { IfOk result (λ ms. map said_message_view ms.items
        ≡ those_there (map (message_in (S.types schema.now)) (tables_view tables.now))) }
    ensures sound { IfOk result (λ ms. All (λ m. IsTrue (is_sound m.ty)) (map said_message_view ms.items)) }
{
    let mut names = IndexSet::new(alloc);
    let mut messages = Vec::with_capacity(alloc, tables.len())?;
    for (index, table) in tables.iter().enumerate() {
        let message = message_of(alloc, schema, &names, index + 1, *table)?;
        names.insert(message.name)?;
        messages.push(message)?;
    }
    Ok(messages)
}

/// The message of this number, after those with these names.
fn message_of<'a, S: Types>(
    alloc: Global,
    schema: &'a S,
    before: &IndexSet<&str>,
    number: usize,
    table: &'a Table,
) -> Result<SaidMessage<'a>, PolicyFault>
    ensures met { Meets (message_fault (S.types schema.now) (names_in before.now) number
        (table_view table.now)) result }
    ensures made { IfOk result (λ m. message_in (S.types schema.now) (table_view table.now)
        ≡ Some (said_message_view m)) }
    ensures sound { IfOk result (λ m. IsTrue (is_sound (type_view m.ty.now))) }
{
    let entry = Entry::Message(number);
    check_entry(alloc, entry, &MESSAGE_KEYS, table)?;
    let name = text_of(table, Key::Name);
    if !is_name(name.as_bytes()) {
        return Err(PolicyFault::BadName(entry));
    }
    if has_name(before, name) {
        return Err(PolicyFault::DuplicateName(entry));
    }
    let home = text_of(table, Key::Module);
    let type_name = text_of(table, Key::TypeName);
    let ty = type_named(schema, entry, table)?;
    Ok(SaidMessage {
        name,
        home,
        type_name,
        ty,
    })
}
