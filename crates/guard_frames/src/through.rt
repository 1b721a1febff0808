//! Readers as sources, and writers as sinks.

ghost use Rattle.std.specs.Prelude.{◌≡◌, ◌≤◌, false, length, take};
ghost use Rattle.std.specs.Io.KnownBytes.{Appends};

use crate::devices::{Failed, Sink, Source};
use std::io::{Read, Write};

/// A source made of a reader, or a sink made of a writer. An error of any kind is a failure, and so is a write that
/// takes nothing of something.
#[derive(Drop)]
pub struct Through<T> {
    pub inner: T,
    is_broken: bool,
    /// How often the reader was read from.
    takes: u64,
}

impl<T> Through<T> {
    ghost use Rattle.std.specs.Prelude.{◌≡◌, false};
    ghost use Rattle.guard_frames.specs.ThroughView.{through_failed};

    /// A source or a sink that hasn't failed yet.
    pub fn new(inner: T) -> Through<T>
        ensures inner { result.inner ≡ inner }
        ensures sound { through_failed result ≡ false }
    {
        Through {
            inner,
            is_broken: false,
            takes: 0,
        }
    }
}

impl<W: Write> Sink for Through<W> {
    ghost use Rattle.guard_frames.specs.ThroughView.{through_failed};

    ghost taken = { λ sink. W.contents sink.inner };

    ghost has_failed = { λ sink. through_failed sink };

    fn put(&mut self, octets: &[u8]) -> Result<usize, Failed> {
        if self.is_broken {
            return Err(Failed);
        }
        let count = write_some(&mut self.inner, octets);
        if count == 0 {
            self.is_broken = true;
            return Err(Failed);
        }
        Ok(count)
    }

    fn failed(&self) -> bool {
        self.is_broken
    }
}

/// Writes the first octets, and answers how many: none where that failed.
#[tactic(auto, using(crate::proofs::Appending::kept_takes_none))]
fn write_some<W: Write>(writer: &mut W, octets: &[u8]) -> usize
    ensures within { result ≤ length octets.now }
    ensures taken { Appends (W.contents writer.old) (W.contents writer.new) (take result octets.now) }
{
    match writer.write(octets) {
        Ok(count) => count,
        Err(_) => 0,
    }
}

impl<R: Read> Source for Through<R> {
    ghost use Rattle.guard_frames.specs.ThroughView.{through_failed};

    ghost tells = { λ source. R.remaining source.inner };

    ghost takes = { λ source. source.takes };

    ghost has_failed = { λ source. through_failed source };

    #[tactic(auto, using(crate::proofs::Reading::kept_gives_none))]
    fn take(&mut self, buffer: &mut [u8]) -> Result<usize, Failed> {
        self.takes = self.takes.saturating_add(1);
        if self.is_broken {
            return Err(Failed);
        }
        match self.inner.read(buffer) {
            Ok(count) => Ok(count),
            Err(_) => {
                self.is_broken = true;
                Err(Failed)
            }
        }
    }

    fn failed(&self) -> bool {
        self.is_broken
    }
}
