//! A sink that takes plain lines and writes them as JSON.
ghost use Rattle.std.specs.Prelude.{IfErr, IfOk};
ghost use Rattle.guard_json.specs.inside.Putting.{PutsObject, PutsTorn};

use crate::cutting::place_of;
use crate::object::json_line;
use guard_frames::{Failed, Sink, put_or_count};
use std::alloc::Global;

/// A sink of plain lines, which writes each of them into another sink once it has ended: as one object of JSON and a line
/// feed. It fails where that one fails or memory runs out, and where it would have written more than 2^64-1 octets. The
/// front of a line that hasn't ended is kept, and never written if the end doesn't come.
#[derive(Drop)]
pub struct JsonLines<'a, S: Sink> {
    alloc: Global,
    sink: &'a mut S,
    begun: Vec<u8>,
    /// How many octets of JSON came to the sink.
    written: u64,
    is_broken: bool,
}

impl<'a, S: Sink> JsonLines<'a, S> {
    ghost use Rattle.std.specs.Prelude.{◌≡◌, false};
    ghost use Rattle.guard_json.specs.Taken.{lines_sink, lines_taken, lines_begin, lines_failed};

    /// A sink of plain lines that has taken none. No memory is taken for it.
    pub fn new(alloc: Global, sink: &'a mut S) -> JsonLines<'a, S>
        ensures same_sink { (lines_sink result).ghost_name ≡ sink.entry.ghost_name }
        ensures untouched { (lines_sink result).now ≡ sink.old }
        ensures taken { lines_taken S.taken result ≡ lines_begin sink.entry.ghost_name (S.taken sink.old) }
        ensures sound { lines_failed result ≡ false }
    {
        JsonLines {
            alloc,
            sink,
            begun: Vec::new(alloc),
            written: 0,
            is_broken: false,
        }
    }

    /// The sink behind. The front of a line that hasn't ended is given up.
    pub fn into_sink(self) -> &'a mut S
        ensures same_sink { result.ghost_name ≡ (lines_sink self.entry).ghost_name }
        ensures untouched { result.now ≡ (lines_sink self.entry).now }
    {
        let JsonLines { sink, .. } = self;
        sink
    }
}

impl<S: Sink> Sink for JsonLines<'_, S> {
    ghost use Rattle.guard_json.specs.Taken.{lines_taken, lines_failed};

    ghost taken = { λ lines. lines_taken S.taken lines };

    ghost has_failed = { λ lines. lines_failed lines };

    /// Takes what comes up to the first line feed and with it, or all where there is none.
    fn put(&mut self, octets: &[u8]) -> Result<usize, Failed> {
        if self.is_broken {
            return Err(Failed);
        }
        let end = place_of(b'\n', octets);
        let begun = self.begun.as_slice().len();
        let Ok(()) = self.begun.extend_from_slice(&octets[..end]) else {
            self.is_broken = true;
            return Err(Failed);
        };
        if end == octets.len() {
            return Ok(end);
        }
        match put_line(self.alloc, self.sink, &self.begun, self.written) {
            Ok(written) => {
                self.written = written;
                self.begun.clear();
                Ok(end + 1)
            }
            Err(written) => {
                self.written = written;
                self.begun.truncate(begun);
                self.is_broken = true;
                Err(Failed)
            }
        }
    }

    fn failed(&self) -> bool {
        self.is_broken
    }
}

/// Puts a line as JSON, with a line feed, and answers how many octets were written so far; that is the error too, where
/// the sink has failed or memory ran out.
fn put_line<S: Sink>(alloc: Global, sink: &mut S, line: &[u8], written: u64) -> Result<u64, u64>
    ensures whole { IfOk result (λ n. PutsObject (S.taken sink.old) (S.taken sink.new) line.now written n) }
    ensures part { IfErr result (λ n. PutsTorn (S.taken sink.old) (S.taken sink.new) written n) }
{
    let Ok(mut text) = json_line(alloc, line) else {
        return Err(written);
    };
    let Ok(()) = text.push(b'\n') else {
        return Err(written);
    };
    let octets = text.as_slice();
    let Some(after) = written.checked_add(octets.len() as u64) else {
        return Err(written);
    };
    match put_or_count(sink, octets) {
        Ok(()) => Ok(after),
        Err(sent) => Err(written + sent as u64),
    }
}
