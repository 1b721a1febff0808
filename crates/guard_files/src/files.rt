//! Where the texts of policies and modules come from.
ghost use Rattle.std.specs.Prelude.{◌≡◌, IfOk, IfErr};
ghost use Rattle.guard_files.specs.Files.{Told, HasFirst, FindsNone, after_read};
ghost use Rattle.guard_files.specs.declared.files.FilesFault.TheVariants.{OutOfMemory as NoMemory};

use std::alloc::{AllocError, Global};
use thiserror::Error;

/// What stands in the way of reading a file, where that is known.
#[derive(Clone, Copy, Debug, PartialEq, Eq)]
pub enum Obstacle {
    Untold,
    /// Nothing is at the path.
    NoFile,
    /// A link is there, and nothing where it leads.
    LostLink,
    /// A folder is there.
    Folder,
    /// The user may not read the file, or not go through a folder on the way to it.
    NotAllowed,
}

/// Why there is no text at a path.
#[derive(Clone, Copy, Debug, PartialEq, Eq, Error)]
pub enum FilesFault {
    #[error("CannotRead")]
    CannotRead(Obstacle),
    #[error("OutOfMemory")]
    OutOfMemory,
}

impl From<AllocError> for FilesFault {
    ghost from_gives = { λ _ e. e ≡ NoMemory };

    fn from(_e: AllocError) -> FilesFault {
        FilesFault::OutOfMemory
    }
}

/// Files by their paths.
pub trait Files {
    // what each read to come finds at a path, where that is known: of a disk it isn't
    ghost told: { Self → Told };

    /// The first octets of the text that is at this path now, at most so many; no more are read. Another text may be
    /// there at the next read. OutOfMemory may come in place of any answer.
    fn read(&mut self, alloc: Global, path: &str, most: usize) -> Result<Vec<u8>, FilesFault>
        ensures text { IfOk result (λ text. HasFirst most (told self.old) path.now text.items) }
        ensures nothing { IfErr result (FindsNone (told self.old) path.now) }
        ensures next { told self.new ≡ after_read (told self.old) };
}
