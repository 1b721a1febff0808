//! A sink in memory.

use crate::devices::{Failed, Sink};
use std::alloc::Global;

/// A sink in memory, for what is looked at later. It fails where memory runs out, and never else.
#[derive(Drop)]
pub struct Kept {
    kept: Vec<u8>,
    is_broken: bool,
}

impl Kept {
    ghost use Rattle.std.specs.Prelude.{◌≡◌, [], false};
    ghost use Rattle.guard_frames.specs.KeptView.{kept_octets, kept_failed};

    /// A sink that has taken nothing. No memory is taken for it.
    pub fn new(alloc: Global) -> Kept
        ensures empty { kept_octets result ≡ [] }
        ensures sound { kept_failed result ≡ false }
    {
        Kept {
            kept: Vec::new(alloc),
            is_broken: false,
        }
    }

    /// All octets that the sink has taken since it was made or last emptied.
    pub fn octets(&self) -> &[u8]
        ensures { result.now ≡ kept_octets self.now }
    {
        self.kept.as_slice()
    }

    /// Drops the octets that the sink took. A sink that has failed stays so.
    pub fn empty(&mut self)
        ensures empty { kept_octets self.new ≡ [] }
        ensures same { kept_failed self.new ≡ kept_failed self.old }
    {
        self.kept.clear();
    }
}

impl Sink for Kept {
    ghost use Rattle.std.specs.Prelude.{Some};
    ghost use Rattle.guard_frames.specs.KeptView.{kept_octets, kept_failed};

    ghost taken = { λ sink. Some (kept_octets sink) };

    ghost has_failed = { λ sink. kept_failed sink };

    fn put(&mut self, octets: &[u8]) -> Result<usize, Failed> {
        if self.is_broken {
            return Err(Failed);
        }
        match self.kept.extend_from_slice(octets) {
            Ok(()) => Ok(octets.len()),
            Err(_) => {
                self.is_broken = true;
                Err(Failed)
            }
        }
    }

    fn failed(&self) -> bool {
        self.is_broken
    }
}
