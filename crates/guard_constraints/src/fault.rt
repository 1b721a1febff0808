//! Why a constraint tree denotes nothing.
ghost use Rattle.std.specs.Prelude.{◌≡◌};
ghost use Rattle.guard_constraints.specs.declared.fault.ConsFault.TheVariants.{OutOfMemory as WantOfMemory};

use guard_model::Site;
use guard_values::ValueFault;
use std::alloc::{AllocError, AllocFailed};
use thiserror::Error;

/// Why a written constraint is none of its type, and where. It prints as its number, its name and its site, as in
/// `C1 NotApplicable 1:2:24`; without memory as `OutOfMemory`. Clauses are those of X.680.
#[derive(Clone, Copy, Debug, PartialEq, Eq, Error)]
pub enum ConsFault {
    /// At the element: it doesn't apply to a type of this kind (51).
    #[error("C1 NotApplicable {0}")]
    NotApplicable(Site),
    /// At the range's first token: `<` is at MIN or MAX, which this profile hasn't (51.4).
    #[error("C2 ExclusiveLimit {0}")]
    ExclusiveLimit(Site),
    /// At the word FROM: what is inside isn't a union of strings and of ranges between two characters, which are all
    /// that this profile has there (51.7).
    #[error("C3 AlphabetForm {0}")]
    AlphabetForm(Site),
    /// At the part's name: a presence word at a component that isn't OPTIONAL, or OPTIONAL at an alternative (51.8.9).
    #[error("C4 PresenceWord {0}")]
    PresenceWord(Site),
    /// At the part's name: no component or alternative has it (51.8.5).
    #[error("C5 UnknownComponent {0}")]
    UnknownComponent(Site),
    /// At the part's name: a part that is written before has it too.
    #[error("C6 RepeatedComponent {0}")]
    RepeatedComponent(Site),
    /// At the part's name: over a CHOICE it is PRESENT, and so is a part that is written before.
    #[error("C7 TwoPresent {0}")]
    TwoPresent(Site),
    /// At the element: the contained type has another base than the type that is constrained (51.3).
    #[error("C8 ContainedMismatch {0}")]
    ContainedMismatch(Site),
    /// At the value's own fault: a value that is written in the constraint has it under the type that is constrained;
    /// or a string inside FROM has V6, a character outside that type's alphabet (41).
    #[error("C9 Value {0}")]
    Value(ValueFault),
    /// At the word SIZE, after all faults inside it: SIZE of a BIT STRING with named bits, which this profile hasn't.
    #[error("C10 SizeOnNamedBits {0}")]
    SizeOnNamedBits(Site),
    /// A growth was refused. There may be faults besides, or none.
    #[error("OutOfMemory")]
    OutOfMemory,
}

impl From<ValueFault> for ConsFault {
    ghost use Rattle.std.specs.Prelude.{◌≡◌};
    ghost use Rattle.guard_constraints.specs.Views.{fault_with};

    ghost from_gives = { λ f e. e ≡ fault_with f };

    fn from(fault: ValueFault) -> ConsFault {
        match fault {
            ValueFault::OutOfMemory => ConsFault::OutOfMemory,
            fault => ConsFault::Value(fault),
        }
    }
}

impl From<guard_model::OutOfMemory> for ConsFault {
    ghost from_gives = { λ _ e. e ≡ WantOfMemory };

    fn from(_e: guard_model::OutOfMemory) -> ConsFault {
        ConsFault::OutOfMemory
    }
}

impl From<AllocError> for ConsFault {
    ghost from_gives = { λ _ e. e ≡ WantOfMemory };

    fn from(_e: AllocError) -> ConsFault {
        ConsFault::OutOfMemory
    }
}

impl<T: Drop> From<AllocFailed<T>> for ConsFault {
    ghost from_gives = { λ _ e. e ≡ WantOfMemory };

    fn from(_e: AllocFailed<T>) -> ConsFault {
        ConsFault::OutOfMemory
    }
}
