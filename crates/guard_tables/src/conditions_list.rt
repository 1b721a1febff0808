//! What is asked of the value at a node: its conditions, and where many are on one number also what fails in which
//! segment of the numbers, so that one search takes the place of a test of each.
ghost use Rattle.std.specs.Prelude.{◌≡◌, ℕ, Some, map, slice_get};
ghost use Rattle.guard_tables.specs.NodeViews.{condition_view};
ghost use Rattle.guard_tables.specs.Segments.{IsSegment};
ghost use Rattle.guard_tables.specs.declared.segments.Segment.{Segment};

use crate::node::Condition;
use crate::segments::{Segment, failed_by, segment_at, segments_of};
use crate::slots::Slots;
use guard_model::OutOfMemory;
use std::alloc::Global;

/// What is asked of the value at a node: conditions, and what they come to for a number, which `failed_at` looks up.
#[derive(Drop)]
pub struct Conditions {
    pub list: Vec<Condition>,
    segments: Vec<Segment>,
    pub ghost exact: { (k : ℕ) (s : Segment) → slice_get segments.items k ≡ Some s →
        IsSegment (map condition_view list.items) s },
}

impl Conditions {
    ghost use Rattle.std.specs.Prelude.{◌≡◌, ℤ, Some, [], map, IfOk, IfSome};
    ghost use Rattle.std.specs.Option.{is_some};
    ghost use Rattle.guard_tables.specs.Marking.{Facts, conditions_marked, are_on_numbers};
    ghost use Rattle.guard_tables.specs.NodeViews.{condition_view};
    ghost use Rattle.guard_tables.specs.Slots.{added};

    /// No conditions. No memory is taken for them.
    pub fn none(alloc: Global) -> Conditions
        ensures { result.list.items ≡ [] }
    {
        Conditions {
            list: Vec::new(alloc),
            segments: Vec::new(alloc),
        }
    }

    /// These conditions. OutOfMemory is the only error.
    pub fn new(alloc: Global, list: Vec<Condition>) -> Result<Conditions, OutOfMemory>
        ensures { IfOk result (λ c. c.list ≡ list) }
    {
        let segments = segments_of(alloc, &list)?;
        Ok(Conditions { list, segments })
    }

    /// The slots of the conditions that this number doesn't pass; None where one of the conditions isn't on a number.
    pub fn failed_at(&self, number: i128) -> Option<Slots>
        ensures numbers { is_some result ≡ are_on_numbers (map condition_view self.now.list.items) }
        ensures failed { IfSome result (λ slots. (f : Facts) (m : Slots) → f.number ≡ Some number
            → conditions_marked (map condition_view self.now.list.items) f m ≡ added m slots) }
    {
        match segment_at(&self.segments, number) {
            Some(segment) => Some(segment.failed),
            None => failed_by(&self.list, number),
        }
    }
}
