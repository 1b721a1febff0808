//! `IntSet`: whether the set that the directives above made holds an integer, `in` or `out`.
use conformance_rows::{Layer, not_read, text_of, unknown};
use guard_constraints::IntSet;
use guard_model::OutOfMemory;
use std::alloc::{AllocError, Global};

/// The set that the directives above made.
#[derive(Drop)]
pub struct IntSets {
    set: Option<IntSet>,
}

/// The range that is written as `LOW..HIGH`.
fn range_of(text: &str) -> Option<(i128, i128)> {
    let (low, high) = text.split_once("..")?;
    let (Ok(low), Ok(high)) = (low.parse::<i128>(), high.parse::<i128>()) else {
        return None;
    };
    Some((low, high))
}

/// What the directive makes of a set and a range; none where there is no such directive.
fn made(
    alloc: Global,
    name: &str,
    set: &IntSet,
    range: &IntSet,
) -> Result<Option<IntSet>, OutOfMemory> {
    match name {
        "union" => Ok(Some(set.union(alloc, range)?)),
        "intersection" => Ok(Some(set.intersection(alloc, range)?)),
        "minus" => Ok(Some(set.minus(alloc, range)?)),
        _ => Ok(None),
    }
}

impl IntSets {
    /// The set after this directive.
    fn next(
        &self,
        alloc: Global,
        name: &str,
        low: i128,
        high: i128,
    ) -> Result<Option<IntSet>, OutOfMemory> {
        let range = IntSet::range(alloc, low, high)?;
        if name == "range" {
            return Ok(Some(range));
        }
        let Some(set) = &self.set else {
            return Ok(None);
        };
        made(alloc, name, set, &range)
    }

    /// The complement of the set.
    fn complement(&self, alloc: Global) -> Result<Option<IntSet>, OutOfMemory> {
        match &self.set {
            Some(set) => Ok(Some(set.complement(alloc)?)),
            None => Ok(None),
        }
    }

    /// Keeps the set that a directive made.
    fn keep(
        &mut self,
        alloc: Global,
        made: Result<Option<IntSet>, OutOfMemory>,
    ) -> Result<String, AllocError> {
        let Ok(made) = made else {
            return Err(AllocError);
        };
        if made.is_none() {
            return unknown(alloc);
        }
        self.set = made;
        String::from_str(alloc, "ok")
    }
}

impl Layer for IntSets {
    fn new(_alloc: Global) -> IntSets {
        IntSets { set: None }
    }

    fn answer(&mut self, alloc: Global, input: &[u8]) -> Result<String, AllocError> {
        let (Some(set), Ok(number)) = (&self.set, text_of(input).parse::<i128>()) else {
            return not_read(alloc);
        };
        String::from_str(alloc, if set.has(number) { "in" } else { "out" })
    }

    fn set(&mut self, alloc: Global, name: &str, text: &[u8]) -> Result<String, AllocError> {
        if name == "complement" {
            let complement = self.complement(alloc);
            return self.keep(alloc, complement);
        }
        let Some((low, high)) = range_of(text_of(text)) else {
            return not_read(alloc);
        };
        let made = self.next(alloc, name, low, high);
        self.keep(alloc, made)
    }
}
