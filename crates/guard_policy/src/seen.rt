//! Names that were seen so far.
ghost use Rattle.std.specs.Prelude.{◌≡◌, map, bytes_eq, IfOk};
ghost use Rattle.std.specs.List.{list_any};
ghost use Rattle.guard_policy.specs.Policies.{message_names};
ghost use Rattle.guard_policy.specs.SaidView.{said_message_view};
ghost use Rattle.guard_policy.specs.inside.Said.{HaveSame, names_in};

use super::said::SaidMessage;
use indexmap::IndexSet;
use std::alloc::{AllocError, Global};

/// Whether the name is among these.
pub(crate) fn has_name(names: &IndexSet<&str>, name: &str) -> bool
    ensures { result ≡ list_any (bytes_eq name.now) (names_in names.now) }
{
    names.contains(name)
}

/// The names of the messages.
pub(crate) fn names_of<'a>(
    alloc: Global,
    messages: &[SaidMessage<'a>],
) -> Result<IndexSet<&'a str>, AllocError>
    ensures { IfOk result (λ names. HaveSame (names_in names) (message_names (map said_message_view messages.now))) }
{
    let mut names = IndexSet::new(alloc);
    for message in messages {
        names.insert(message.name)?;
    }
    Ok(names)
}
