//! The files of the machine.
ghost use Rattle.std.specs.Prelude.{◌≤◌, None, length, IfOk};

use crate::noting::Last;
use guard_files::{Files, FilesFault, Obstacle};
use std::alloc::Global;
use std::fs::{self, File};
use std::io::{self, ErrorKind, Read};

/// What the machine's disks hold, of which nothing is known before it is read.
#[derive(Clone, Copy)]
pub struct RealFiles<'r, 'l> {
    pub rt: &'r HostRuntime,
    /// Why one couldn't be read last.
    pub last: &'l Last,
}

impl Files for RealFiles<'_, '_> {
    ghost told = { λ files n path. None };

    fn read(&mut self, alloc: Global, path: &str, most: usize) -> Result<Vec<u8>, FilesFault> {
        match first_octets(self.rt, alloc, path, most) {
            Ok(text) => Ok(text),
            Err(e) if e.kind() == ErrorKind::OutOfMemory => Err(FilesFault::OutOfMemory),
            Err(e) => {
                self.last.set(Some(e));
                Err(FilesFault::CannotRead(obstacle(self.rt, path, e.kind())))
            }
        }
    }
}

/// The first octets of the file, at most so many, and no more are read. (`truncate` cuts nothing: it tells the checker
/// how many they are.)
fn first_octets(rt: &HostRuntime, alloc: Global, path: &str, most: usize) -> io::Result<Vec<u8>>
    ensures { IfOk result (λ text. length text.items ≤ most) }
{
    let mut text = Vec::new(alloc);
    File::open(rt, path)?
        .take(most as u64)
        .read_to_end(&mut text)?;
    text.truncate(most);
    Ok(text)
}

/// What stands in the way at the path, by what the system says of the file.
fn obstacle(rt: &HostRuntime, path: &str, kind: ErrorKind) -> Obstacle {
    match kind {
        ErrorKind::NotFound if fs::symlink_metadata(rt, path).is_ok() => Obstacle::LostLink,
        ErrorKind::NotFound => Obstacle::NoFile,
        ErrorKind::IsADirectory => Obstacle::Folder,
        ErrorKind::PermissionDenied => Obstacle::NotAllowed,
        _ => Obstacle::Untold,
    }
}
