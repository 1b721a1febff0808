//! A link and a gateway whose sinks take no memory.
ghost use Rattle.std.specs.Prelude.{Some};

use crate::streams::shown;
use arrayvec::ArrayVec;
use guard_frames::{Failed, Kept, Link, Sink, Unwatched};
use guard_policy::Policy;
use std::alloc::{AllocError, Global};

/// Takes octets into an array, as long as there is room, and fails then.
#[derive(Drop)]
pub struct Array {
    kept: ArrayVec<u8, 512>,
    is_broken: bool,
}

impl Array {
    pub fn new() -> Array {
        Array {
            kept: ArrayVec::new(),
            is_broken: false,
        }
    }
}

impl Sink for Array {
    ghost taken = { λ sink. Some sink.kept.items };

    ghost has_failed = { λ sink. sink.is_broken };

    fn put(&mut self, octets: &[u8]) -> Result<usize, Failed> {
        let count = self.kept.remaining_capacity().min(octets.len());
        if self.is_broken
            || count == 0
            || self.kept.try_extend_from_slice(&octets[..count]).is_err()
        {
            self.is_broken = true;
            return Err(Failed);
        }
        Ok(count)
    }

    fn failed(&self) -> bool {
        self.is_broken
    }
}

/// A sink that shows what it took.
pub trait Holds: Sink + Drop {
    fn held(&self) -> &[u8];
}

impl Holds for Array {
    fn held(&self) -> &[u8] {
        self.kept.as_slice()
    }
}

impl Holds for Kept {
    fn held(&self) -> &[u8] {
        self.octets()
    }
}

/// What a link answers to a stream where its sinks are arrays, and what these took.
pub fn fed(alloc: Global, policy: &Policy, stream: &[u8]) -> Result<String, AllocError> {
    let Ok(mut link) = Link::new(alloc) else {
        return String::from_str(alloc, "no link");
    };
    let mut out = Array::new();
    let mut reports = Array::new();
    let fed = link.feed(
        alloc,
        policy,
        stream,
        &mut out,
        &mut reports,
        &mut Unwatched,
    );
    let out = shown(alloc, out.held())?;
    let reports = shown(alloc, reports.held())?;
    match fed {
        Ok(()) => format!(in alloc; "ok <{out}> <{reports}>"),
        Err(fault) => format!(in alloc; "{fault} <{out}> <{reports}>"),
    }
}
