//! Why names mean nothing.
ghost use Rattle.std.specs.Prelude.{◌≡◌};
ghost use Rattle.guard_names.specs.declared.fault.NameFault.TheVariants.{OutOfMemory};

use guard_model::Site;
use std::alloc::{AllocError, AllocFailed};
use thiserror::Error;

/// Why the names in modules don't all mean something: the first fault. In place of any other answer it may say that
/// memory ran out.
#[derive(Clone, Copy, Debug, PartialEq, Eq, Error)]
pub enum NameFault {
    /// The name here is declared before: in this module, or as the name of another one.
    #[error("N1 Duplicate {0}")]
    Duplicate(Site),
    /// The name of a type here is neither assigned nor imported in its module, or the name here is exported and isn't
    /// assigned.
    #[error("N2 Undefined {0}")]
    Undefined(Site),
    /// There is no module of the name here, which is after FROM.
    #[error("N3 NoModule {0}")]
    NoModule(Site),
    /// The name here is imported from a module that doesn't export it.
    #[error("N4 NotExported {0}")]
    NotExported(Site),
    /// The name here is imported from a module that doesn't assign it.
    #[error("N5 ImportNotDefined {0}")]
    ImportNotDefined(Site),
    /// The definition of the name here uses itself, directly or through others.
    #[error("N6 Recursive {0}")]
    Recursive(Site),
    /// There are more than 64 modules.
    #[error("N7 TooManyModules")]
    TooManyModules,
    /// A growth was refused: this may be answered instead of anything else.
    #[error("OutOfMemory")]
    OutOfMemory,
}

impl From<AllocError> for NameFault {
    ghost from_gives = { λ _ e. e ≡ OutOfMemory };

    fn from(_e: AllocError) -> NameFault {
        NameFault::OutOfMemory
    }
}

impl<T: Drop> From<AllocFailed<T>> for NameFault {
    ghost from_gives = { λ _ e. e ≡ OutOfMemory };

    fn from(_e: AllocFailed<T>) -> NameFault {
        NameFault::OutOfMemory
    }
}
