//! Report lines that wait to be put, so that those that come one after another go in one call.

ghost use Rattle.std.specs.Prelude.{◌≡◌, ◌≤◌, ◌++◌, [], true, false, List, ℕ, length, OnOk, OnErr};
ghost use Rattle.std.specs.Io.KnownBytes.{Appends};
ghost use Rattle.guard_frames.specs.Calls.{EndsLine, AsksLines};
ghost use Rattle.guard_frames.specs.Prefix.{IsProperPrefix};
ghost use Rattle.guard_frames.specs.inside.Waiting.{AreLines};

use crate::devices::{Failed, Sink, put_all};
use std::alloc::Global;

/// The most octets that wait. A pipe, and a file opened for appending, takes so many at once.
const MOST: usize = 4096;

/// Lines that wait. Memory is taken for the first one, and kept when they are put.
#[derive(Drop)]
pub(crate) struct Waiting {
    lines: Vec<u8>,
    ghost few: { length lines.items ≤ 4096 },
}

impl Waiting {
    /// No line waits yet.
    pub(crate) fn none(alloc: Global) -> Waiting
        ensures { result.lines.items ≡ [] }
    {
        Waiting {
            lines: Vec::new(alloc),
        }
    }

    /// Puts the lines that wait, in one call. Failed where the sink has failed, which took a proper part of them at
    /// most.
    pub(crate) fn put<S: Sink>(&mut self, sink: &mut S) -> Result<(), Failed>
        requires { AreLines self.old.lines.items }
        ensures all { OnOk result (Appends (S.taken sink.old) (S.taken sink.new) self.old.lines.items) }
        ensures none { OnOk result (self.new.lines.items ≡ []) }
        ensures part { OnErr result ((part : List ℕ) × IsProperPrefix part self.old.lines.items
            × Appends (S.taken sink.old) (S.taken sink.new) part) }
        ensures failed { OnErr result (S.has_failed sink.new ≡ true) }
        ensures lines { AsksLines (S.asked sink.old) (S.asked sink.new) }
    {
        if self.lines.is_empty() {
            return Ok(());
        }
        put_all(sink, self.lines.as_slice())?;
        self.lines.clear();
        Ok(())
    }

    /// Lets one more line wait. Where that would be too many octets with the lines before it, those are put first. A
    /// line that is too long by itself, or for which there is no memory to wait, is put after them. Condition: the line
    /// ends with a line feed.
    pub(crate) fn add<S: Sink>(&mut self, sink: &mut S, line: &[u8]) -> Result<(), Failed>
        requires waiting { AreLines self.old.lines.items }
        requires line { EndsLine line.now }
        ensures all { OnOk result ((put : List ℕ) × (put ++ self.new.lines.items ≡ self.old.lines.items ++ line.now)
            × Appends (S.taken sink.old) (S.taken sink.new) put) }
        ensures waiting { OnOk result (AreLines self.new.lines.items) }
        ensures part { OnErr result ((part : List ℕ) × IsProperPrefix part (self.old.lines.items ++ line.now)
            × Appends (S.taken sink.old) (S.taken sink.new) part) }
        ensures failed { OnErr result (S.has_failed sink.new ≡ true) }
        ensures lines { AsksLines (S.asked sink.old) (S.asked sink.new) }
    {
        if self.try_add(line) {
            return Ok(());
        }
        self.put(sink)?;
        if self.try_add(line) {
            return Ok(());
        }
        put_all(sink, line)?;
        Ok(())
    }

    /// Lets one more line wait, where there is room and memory for it, and answers whether it waits.
    fn try_add(&mut self, line: &[u8]) -> bool
        ensures added { result ≡ true → self.new.lines.items ≡ self.old.lines.items ++ line.now }
        ensures same { result ≡ false → self.new.lines.items ≡ self.old.lines.items }
    {
        if line.len() > MOST - self.lines.len() {
            return false;
        }
        self.lines.extend_from_slice(line).is_ok()
    }
}
