//! Why a text is no policy.
ghost use Rattle.std.specs.Prelude.{◌≡◌};
ghost use Rattle.guard_policy.specs.declared.fault.PolicyFault.TheVariants.{OutOfMemory as NoMemory};

use super::entry::{Entry, Key};
use guard_model::OutOfMemory;
use guard_tables::TableFault;
use std::alloc::{AllocError, AllocFailed};
use thiserror::Error;

/// Why a text is no policy: its first fault; or memory ran out, whatever the answer would have been. Faults are looked
/// for at the top, then in each message, in each rule, and in each message's table. In one entry an unknown key comes
/// first, then a missing one, then a bad name, a name that another has, an effect, a message and a type that aren't
/// there.
#[derive(Debug, Drop, Error)]
pub enum PolicyFault {
    /// The text is no document of TOML.
    #[error("Q1 Toml")]
    Toml,
    /// The entry has this key, which says nothing; of such keys this one is the first in the order of their octets.
    #[error("Q2 UnknownKey {0} {1}")]
    UnknownKey(Entry, String),
    /// The entry lacks this key, or something of another kind is there.
    #[error("Q3 MissingKey {0} {1}")]
    MissingKey(Entry, Key),
    /// A name in the entry hasn't 1 to 63 letters, digits, hyphens, low lines and full stops. The sender and the
    /// receiver of a rule may each be `*` too.
    #[error("Q4 BadName {0}")]
    BadName(Entry),
    /// A message, or a rule, before it has the same name.
    #[error("Q5 DuplicateName {0}")]
    DuplicateName(Entry),
    /// The schema has no type of this name in a module of this name.
    #[error("Q6 NoSuchType {0}")]
    NoSuchType(Entry),
    /// The rule speaks of a message that isn't declared.
    #[error("Q7 NoSuchMessage {0}")]
    NoSuchMessage(Entry),
    /// The effect is neither `allow` nor `deny`.
    #[error("Q8 BadEffect {0}")]
    BadEffect(Entry),
    /// The types of the message of this number, from 1, and of its rules make no table.
    #[error("Q9 Table {0} {1}")]
    Table(usize, TableFault),
    #[error("OutOfMemory")]
    OutOfMemory,
}

impl From<OutOfMemory> for PolicyFault {
    ghost from_gives = { λ _ e. e ≡ NoMemory };

    fn from(_e: OutOfMemory) -> PolicyFault {
        PolicyFault::OutOfMemory
    }
}

impl From<AllocError> for PolicyFault {
    ghost from_gives = { λ _ e. e ≡ NoMemory };

    fn from(_e: AllocError) -> PolicyFault {
        PolicyFault::OutOfMemory
    }
}

impl<T: Drop> From<AllocFailed<T>> for PolicyFault {
    ghost from_gives = { λ _ e. e ≡ NoMemory };

    fn from(_e: AllocFailed<T>) -> PolicyFault {
        PolicyFault::OutOfMemory
    }
}
