//! Why a notation isn't read.
use std::alloc::{AllocError, AllocFailed};
use std::num::{ParseIntError, TryFromIntError};
use std::str::Utf8Error;

/// Why a notation isn't read.
#[derive(Clone, Copy)]
pub enum Unread {
    /// The text isn't written so.
    Malformed,
    OutOfMemory,
}

impl From<AllocError> for Unread {
    fn from(_e: AllocError) -> Unread {
        Unread::OutOfMemory
    }
}

impl<T: Drop> From<AllocFailed<T>> for Unread {
    fn from(_e: AllocFailed<T>) -> Unread {
        Unread::OutOfMemory
    }
}

impl From<guard_model::OutOfMemory> for Unread {
    fn from(_e: guard_model::OutOfMemory) -> Unread {
        Unread::OutOfMemory
    }
}

impl From<ParseIntError> for Unread {
    fn from(_e: ParseIntError) -> Unread {
        Unread::Malformed
    }
}

impl From<TryFromIntError> for Unread {
    fn from(_e: TryFromIntError) -> Unread {
        Unread::Malformed
    }
}

impl From<Utf8Error> for Unread {
    fn from(_e: Utf8Error) -> Unread {
        Unread::Malformed
    }
}

/// What was read, and none where the text is malformed.
pub fn read<T: Drop>(reading: Result<T, Unread>) -> Result<Option<T>, AllocError> {
    match reading {
        Ok(read) => Ok(Some(read)),
        Err(Unread::Malformed) => Ok(None),
        Err(Unread::OutOfMemory) => Err(AllocError),
    }
}
