//! A source and sinks in memory that tell their octets, and fail where they are made to; and a reader and writer of std
//! that fail.
ghost use Rattle.std.specs.Prelude.{◌≡◌, ◌++◌, ◌^◌, ◌-◌, Some, length, min, take, drop};

use guard_frames::{Failed, Sink, Source};
use std::alloc::Global;
use std::io::{Error, ErrorKind, Read, Result as IoResult, Write};

/// Gives octets in pieces, and fails after so many reads.
#[derive(Clone, Copy)]
pub struct Pieces<'a> {
    rest: &'a [u8],
    /// The length of the next piece at most,
    first: usize,
    /// and of those that follow.
    others: usize,
    /// How many reads it answers before it fails.
    reads: usize,
    is_broken: bool,
}

impl<'a> Pieces<'a> {
    /// All octets in one piece, as far as there is room for it.
    pub fn whole(octets: &'a [u8]) -> Pieces<'a> {
        Pieces::cut(octets, usize::MAX, usize::MAX)
    }

    /// A first piece of so many octets, and others of so many.
    pub fn cut(octets: &'a [u8], first: usize, others: usize) -> Pieces<'a> {
        Pieces {
            rest: octets,
            first,
            others,
            reads: usize::MAX,
            is_broken: false,
        }
    }

    /// Pieces of so many octets, and failure after so many reads.
    pub fn failing(octets: &'a [u8], size: usize, reads: usize) -> Pieces<'a> {
        Pieces {
            rest: octets,
            first: size,
            others: size,
            reads,
            is_broken: false,
        }
    }

    /// The octets that it hasn't given.
    pub fn left(&self) -> &'a [u8] {
        self.rest
    }
}

impl Source for Pieces<'_> {
    ghost tells = { λ source. Some source.rest.now };

    ghost takes = { λ _. 2 ^ 64 - 1 };

    ghost has_failed = { λ source. source.is_broken };

    fn take(&mut self, buffer: &mut [u8]) -> Result<usize, Failed> {
        if self.is_broken || self.reads == 0 {
            self.is_broken = true;
            return Err(Failed);
        }
        self.reads -= 1;
        let size = self.first.max(1).min(buffer.len());
        let count = copy_prefix(self.rest, &mut buffer[..size]);
        self.rest = &self.rest[count..];
        self.first = self.others;
        Ok(count)
    }

    fn failed(&self) -> bool {
        self.is_broken
    }
}

/// Copies as many octets as there are in both, and answers how many.
fn copy_prefix(from: &[u8], to: &mut [u8]) -> usize
    ensures count { result ≡ min (length from.now) (length to.old) }
    ensures copied { to.new ≡ take result from.now ++ drop result to.old }
{
    let count = from.len().min(to.len());
    to[..count].copy_from_slice(&from[..count]);
    count
}

/// Takes octets, so many in one call at most, as long as there is room, and fails then.
#[derive(Drop)]
pub struct Room {
    kept: Vec<u8>,
    most: usize,
    room: usize,
    is_broken: bool,
    /// How often it was asked to take some.
    calls: u64,
}

impl Room {
    /// Takes so many octets in one call at most, and so many in all.
    pub fn new(alloc: Global, most: usize, room: usize) -> Room {
        Room {
            kept: Vec::new(alloc),
            most,
            room,
            is_broken: false,
            calls: 0,
        }
    }

    /// How often it was asked to take octets.
    pub fn calls(&self) -> u64 {
        self.calls
    }

    /// Room for all that comes.
    pub fn ample(alloc: Global) -> Room {
        Room::new(alloc, usize::MAX, usize::MAX)
    }

    /// What it took.
    pub fn octets(&self) -> &[u8] {
        &self.kept
    }

    /// What it took, of a sink that isn't needed any more.
    pub fn into_octets(self) -> Vec<u8> {
        self.kept
    }
}

impl Sink for Room {
    ghost taken = { λ sink. Some sink.kept.items };

    ghost has_failed = { λ sink. sink.is_broken };

    fn put(&mut self, octets: &[u8]) -> Result<usize, Failed> {
        self.calls = self.calls.saturating_add(1);
        let count = self.most.max(1).min(self.room).min(octets.len());
        if self.is_broken || count == 0 || self.kept.extend_from_slice(&octets[..count]).is_err() {
            self.is_broken = true;
            return Err(Failed);
        }
        self.room -= count;
        Ok(count)
    }

    fn failed(&self) -> bool {
        self.is_broken
    }
}

/// A reader of std that gives octets and then an error where their end would be, and a writer that takes none.
#[derive(Drop)]
pub struct Breaking<'a>(pub &'a [u8]);

impl Read for Breaking<'_> {
    fn read(&mut self, buffer: &mut [u8]) -> IoResult<usize> {
        if self.0.is_empty() {
            return Err(Error::from(ErrorKind::Interrupted));
        }
        let count = buffer.len().min(self.0.len());
        buffer[..count].copy_from_slice(&self.0[..count]);
        self.0 = &self.0[count..];
        Ok(count)
    }
}

impl Write for Breaking<'_> {
    fn write(&mut self, _octets: &[u8]) -> IoResult<usize> {
        Err(Error::from(ErrorKind::Interrupted))
    }

    fn flush(&mut self) -> IoResult<()> {
        Ok(())
    }
}
