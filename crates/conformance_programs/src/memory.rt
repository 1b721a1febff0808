//! Files in memory, which tell what each read finds.
ghost use Rattle.std.specs.Prelude.{◌≡◌, ◌≤◌, Some, length, option_map, take};
ghost use Rattle.conformance_programs.specs.Memory.{found, text_at};

use guard_files::{Files, FilesFault, Obstacle};
use std::alloc::{AllocError, Global};

/// A text at a path.
#[derive(Clone, Copy)]
pub struct Placed<'a> {
    path: &'a str,
    text: &'a [u8],
}

/// For each of the reads to come the texts that it finds, of which the first at a path counts. Reads after these find
/// nothing.
#[derive(Clone, Copy)]
pub struct Reads<'r, 't> {
    coming: &'r [Vec<Placed<'t>>],
}

impl<'r, 't> Reads<'r, 't> {
    pub fn new(coming: &'r [Vec<Placed<'t>>]) -> Reads<'r, 't> {
        Reads { coming }
    }
}

impl Files for Reads<'_, '_> {
    ghost told = { λ files n path. Some (found files.coming.now n path) };

    fn read(&mut self, alloc: Global, path: &str, most: usize) -> Result<Vec<u8>, FilesFault> {
        let [now, later @ ..] = self.coming else {
            return Err(FilesFault::CannotRead(Obstacle::Untold));
        };
        self.coming = later;
        match text_at(now, path) {
            Some(text) => Ok(Vec::from_slice(alloc, front(text, most))?),
            None => Err(FilesFault::CannotRead(Obstacle::Untold)),
        }
    }
}

/// The first octets of a text, at most so many.
fn front(text: &[u8], most: usize) -> &[u8]
    ensures same { result.now ≡ take most text.now }
    ensures few { length result.now ≤ most }
{
    if text.len() > most {
        &text[..most]
    } else {
        text
    }
}

fn text_at<'a>(texts: &[Placed<'a>], path: &str) -> Option<&'a [u8]>
    ensures { option_map (λ text. text.now) result ≡ text_at texts.now path.now }
{
    for placed in texts {
        if placed.path == path {
            return Some(placed.text);
        }
    }
    None
}

/// What rows say of files.
#[derive(Drop)]
pub struct Entries {
    entries: Vec<Entry>,
    /// The number of the read from which on the next entry is there, from 0.
    since: usize,
    /// The number of the read that finds nothing.
    refused: usize,
}

#[derive(Drop)]
struct Entry {
    path: String,
    text: Vec<u8>,
    since: usize,
}

/// So many reads may come.
const READS: usize = 8;

impl Entries {
    pub fn new(alloc: Global) -> Entries {
        Entries {
            entries: Vec::new(alloc),
            since: 0,
            refused: usize::MAX,
        }
    }

    /// From the read on that was set last, this text is at the path.
    pub fn add(&mut self, alloc: Global, path: &str, text: &[u8]) -> Result<(), AllocError> {
        let entry = Entry {
            path: String::from_str(alloc, path)?,
            text: Vec::from_slice(alloc, text)?,
            since: self.since,
        };
        Ok(self.entries.push(entry)?)
    }

    /// Sets from which read on the next entries are there.
    pub fn begin(&mut self, since: usize) {
        self.since = since;
    }

    /// Sets which read finds nothing.
    pub fn refuse(&mut self, read: usize) {
        self.refused = read;
    }

    /// What each read finds.
    pub fn coming(&self, alloc: Global) -> Result<Vec<Vec<Placed<'_>>>, AllocError> {
        let mut coming = Vec::new(alloc);
        for read in 0..READS {
            coming.push(self.found_by(alloc, read)?)?;
        }
        Ok(coming)
    }

    /// What the read of this number finds: what was set last comes first.
    fn found_by(&self, alloc: Global, read: usize) -> Result<Vec<Placed<'_>>, AllocError> {
        let mut found = Vec::new(alloc);
        for entry in self.entries.iter().rev() {
            if entry.since <= read && read != self.refused {
                found.push(Placed {
                    path: entry.path.as_str(),
                    text: entry.text.as_slice(),
                })?;
            }
        }
        Ok(found)
    }
}
