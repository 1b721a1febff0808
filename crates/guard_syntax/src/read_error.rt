//! Why reading failed.
ghost use Rattle.std.specs.Prelude.{◌≡◌};

use std::alloc::{AllocError, AllocFailed};

/// Where reading failed: how many tokens were left there.
#[derive(Clone, Copy, Debug, PartialEq, Eq)]
pub enum Failure {
    /// At a token with which no module goes on, or at the end.
    Unexpected(usize),
    /// At the first token of a type, value or set that is too deep.
    TooDeep(usize),
}

/// Why nothing was read.
#[derive(Clone, Copy, Debug, PartialEq, Eq)]
pub enum ReadError {
    At(Failure),
    OutOfMemory,
}

impl From<AllocError> for ReadError {
    ghost use Rattle.guard_syntax.specs.declared.read_error.ReadError.TheVariants.{OutOfMemory};

    ghost from_gives = { λ _ e. e ≡ OutOfMemory };

    fn from(_e: AllocError) -> ReadError {
        ReadError::OutOfMemory
    }
}

impl<T: Drop> From<AllocFailed<T>> for ReadError {
    ghost use Rattle.guard_syntax.specs.declared.read_error.ReadError.TheVariants.{OutOfMemory};

    ghost from_gives = { λ _ e. e ≡ OutOfMemory };

    fn from(_e: AllocFailed<T>) -> ReadError {
        ReadError::OutOfMemory
    }
}
