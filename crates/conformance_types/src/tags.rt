//! `Tag::order`: how many of the tags above a row are less than its own, equal to it and greater.
use crate::notation::{read, tag_of};
use conformance_rows::{Layer, not_read, text_of, unknown};
use guard_model::Tag;
use std::alloc::{AllocError, Global};
use std::cmp::Ordering;

/// The tags of the rows above.
#[derive(Drop)]
pub struct Tags {
    above: Vec<Tag>,
}

/// How many tags compare to one as they are listed here.
#[derive(Clone, Copy)]
struct Counts {
    below: u32,
    equal: u32,
    above: u32,
    /// Those that compare to it otherwise than it to them.
    confused: u32,
}

impl Counts {
    fn add(&mut self, other: &Tag, tag: &Tag) {
        match (other.order(tag), tag.order(other)) {
            (Ordering::Less, Ordering::Greater) => self.below = self.below.saturating_add(1),
            (Ordering::Equal, Ordering::Equal) => self.equal = self.equal.saturating_add(1),
            (Ordering::Greater, Ordering::Less) => self.above = self.above.saturating_add(1),
            _ => self.confused = self.confused.saturating_add(1),
        }
    }
}

impl Tags {
    fn counts(&self, tag: &Tag) -> Counts {
        let mut counts = Counts {
            below: 0,
            equal: 0,
            above: 0,
            confused: 0,
        };
        for other in &self.above {
            counts.add(other, tag);
        }
        counts
    }
}

impl Layer for Tags {
    fn new(alloc: Global) -> Tags {
        Tags {
            above: Vec::new(alloc),
        }
    }

    fn answer(&mut self, alloc: Global, input: &[u8]) -> Result<String, AllocError> {
        let Some(tag) = read(tag_of(text_of(input)))? else {
            return not_read(alloc);
        };
        let Counts {
            below,
            equal,
            above,
            confused,
        } = self.counts(&tag);
        self.above.push(tag)?;
        if confused > 0 {
            return format!(in alloc; "{confused} both ways");
        }
        format!(in alloc; "{below} below, {equal} equal, {above} above")
    }

    fn set(&mut self, alloc: Global, _name: &str, _text: &[u8]) -> Result<String, AllocError> {
        unknown(alloc)
    }
}
