//! Why a written value denotes nothing.
ghost use Rattle.std.specs.Prelude.{◌≡◌};
ghost use Rattle.guard_values.specs.declared.fault.ValueFault.TheVariants.{OutOfMemory as WantOfMemory};

use guard_model::Site;
use std::alloc::{AllocError, AllocFailed};
use thiserror::Error;

/// Why a written value is none of its type, and where. It prints as its number, its name and its site, as in
/// `V3 MissingComponent 1:2:24`; without memory as `OutOfMemory`. Clauses are those of X.680.
#[derive(Clone, Copy, Debug, PartialEq, Eq, Error)]
pub enum ValueFault {
    /// At the value: its form is none of its type's, or it is the name of a value whose type has another base (16.2).
    /// At an entry of a list: an entry for a component has no name (25, 27), an element of an OF type has one (26, 28),
    /// or an entry for a bit isn't a name alone (22.5).
    #[error("V1 WrongNotation {0}")]
    WrongNotation(Site),
    /// At the name: it is neither in the list of its INTEGER or ENUMERATED type (19, 20) nor visible, or it is that of
    /// no component (25, 27), alternative (29) or bit (22.5).
    #[error("V2 UnknownName {0}")]
    UnknownName(Site),
    /// At the brace of a SEQUENCE or SET: a component that is neither OPTIONAL nor has a DEFAULT has no entry (25, 27).
    #[error("V3 MissingComponent {0}")]
    MissingComponent(Site),
    /// At the name: an entry that is written before is for the same component (25, 27).
    #[error("V4 RepeatedComponent {0}")]
    RepeatedComponent(Site),
    /// At the name: an entry that is written before is for a component that stands after this one in the SEQUENCE (25).
    #[error("V5 OutOfOrder {0}")]
    OutOfOrder(Site),
    /// At the string: one of its characters isn't of its type's alphabet (41).
    #[error("V6 BadCharacter {0}")]
    BadCharacter(Site),
    /// At the brace of an OBJECT IDENTIFIER: there are fewer than two arcs, or two that none begins with (32).
    #[error("V7 BadObjectId {0}")]
    BadObjectId(Site),
    /// Outside this profile's limits: at a number, one that 128 bits with a sign don't hold; at an arc, one that 128
    /// bits don't hold; at the brace of an OF type, more than 4,294,967,295 elements; at the value, that it or a value
    /// inside it has an encoding of more than 1,048,576 octets, or none.
    #[error("V8 TooLarge {0}")]
    TooLarge(Site),
    /// A growth was refused. There may be faults besides, or none.
    #[error("OutOfMemory")]
    OutOfMemory,
}

impl From<guard_model::OutOfMemory> for ValueFault {
    ghost from_gives = { λ _ e. e ≡ WantOfMemory };

    fn from(_e: guard_model::OutOfMemory) -> ValueFault {
        ValueFault::OutOfMemory
    }
}

impl From<AllocError> for ValueFault {
    ghost from_gives = { λ _ e. e ≡ WantOfMemory };

    fn from(_e: AllocError) -> ValueFault {
        ValueFault::OutOfMemory
    }
}

impl<T: Drop> From<AllocFailed<T>> for ValueFault {
    ghost from_gives = { λ _ e. e ≡ WantOfMemory };

    fn from(_e: AllocFailed<T>) -> ValueFault {
        ValueFault::OutOfMemory
    }
}
