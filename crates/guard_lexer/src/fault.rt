//! Why a text has no tokens.
ghost use Rattle.std.specs.Prelude.{◌≡◌};
ghost use Rattle.guard_lexer.specs.declared.fault.LexFault.TheVariants.{OutOfMemory};

use guard_model::Site;
use std::alloc::{AllocError, AllocFailed};
use thiserror::Error;

/// Why a text has no tokens: the first fault of the text. In place of any other answer it may say that memory ran out.
/// That a text is too long comes before that it isn't UTF-8, and this before all others, of which the leftmost is
/// named.
#[derive(Clone, Copy, Debug, PartialEq, Eq, Error)]
pub enum LexFault {
    /// Here no token, comment or white space begins, or a digit comes directly after the number 0.
    #[error("L1 BadCharacter {0}")]
    BadCharacter(Site),
    /// What begins here is no string: it isn't closed, it can't have one of its characters, or a line ends in it.
    #[error("L2 BadString {0}")]
    BadString(Site),
    /// The comment that `/*` opens here isn't closed.
    #[error("L3 OpenComment {0}")]
    OpenComment(Site),
    /// The word here is followed by a hyphen that neither continues it nor begins a comment.
    #[error("L4 BadHyphen {0}")]
    BadHyphen(Site),
    /// The number here is above 2^128-1.
    #[error("L5 NumberTooLarge {0}")]
    NumberTooLarge(Site),
    /// The text at this place of the list isn't UTF-8.
    #[error("L6 NotUtf8 {0}")]
    NotUtf8(u32),
    /// The text at this place of the list has more than 1,048,576 octets.
    #[error("L7 TextTooLong {0}")]
    TextTooLong(u32),
    #[error("OutOfMemory")]
    OutOfMemory,
}

impl From<AllocError> for LexFault {
    ghost from_gives = { λ _ e. e ≡ OutOfMemory };

    fn from(_e: AllocError) -> LexFault {
        LexFault::OutOfMemory
    }
}

impl<T: Drop> From<AllocFailed<T>> for LexFault {
    ghost from_gives = { λ _ e. e ≡ OutOfMemory };

    fn from(_e: AllocFailed<T>) -> LexFault {
        LexFault::OutOfMemory
    }
}
