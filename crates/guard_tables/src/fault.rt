//! Why types make no table.
ghost use Rattle.std.specs.Prelude.{◌≡◌};
ghost use Rattle.guard_tables.specs.declared.fault.TableFault.TheVariants.{OutOfMemory as NoMemory};

use guard_model::OutOfMemory;
use std::alloc::{AllocError, AllocFailed};
use thiserror::Error;

/// Why the types of a message and its rules make no table. Too many rules come first, then the first rule with another
/// type, then too many conditions.
#[derive(Clone, Copy, Debug, PartialEq, Eq, Error)]
pub enum TableFault {
    /// The type of the rule at this place, from 0, hasn't the declared type's tags and base.
    #[error("B1 RuleTypeMismatch {0}")]
    RuleTypeMismatch(usize),
    /// At some node all types together ask more than 256 things of a value.
    #[error("B2 TooManyConditions")]
    TooManyConditions,
    /// There are more than 255 rules.
    #[error("B3 TooManyRules")]
    TooManyRules,
    /// Memory ran out, whatever the answer would have been.
    #[error("OutOfMemory")]
    OutOfMemory,
}

impl From<OutOfMemory> for TableFault {
    ghost from_gives = { λ _ e. e ≡ NoMemory };

    fn from(_e: OutOfMemory) -> TableFault {
        TableFault::OutOfMemory
    }
}

impl From<AllocError> for TableFault {
    ghost from_gives = { λ _ e. e ≡ NoMemory };

    fn from(_e: AllocError) -> TableFault {
        TableFault::OutOfMemory
    }
}

impl<T: Drop> From<AllocFailed<T>> for TableFault {
    ghost from_gives = { λ _ e. e ≡ NoMemory };

    fn from(_e: AllocFailed<T>) -> TableFault {
        TableFault::OutOfMemory
    }
}
