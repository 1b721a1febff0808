//! Tags (X.680 clause 8).
ghost use Rattle.std.specs.Cmp.Lexicographic.{pointwise};
ghost use Rattle.std.specs.Prelude.{◌≡◌};
ghost use Rattle.guard_model.specs.Tags.{same_tag, tag_order};

use std::cmp::Ordering;

/// The class of a tag, in ascending order (X.680 8.6).
#[derive(Clone, Copy, Debug, PartialEq, Eq, PartialOrd, Ord)]
pub enum Class {
    Universal,
    Application,
    /// Context-specific: a tag that is written without a class.
    Context,
    Private,
}

/// A tag: its class, and its number within the class.
#[derive(Clone, Copy, Debug, PartialEq, Eq, PartialOrd, Ord)]
pub struct Tag {
    pub class: Class,
    /// At most 268,435,455 in a sound type.
    pub number: u32,
}

impl Tag {
    /// The order of tags: by class, universal first, then by number (X.680 8.6).
    pub fn order(&self, other: &Tag) -> Ordering
        ensures { result ≡ tag_order self.now other.now }
    {
        self.cmp(other)
    }
}

/// Whether both lists have the same tags in the same order.
pub fn are_same_tags(tags: &[Tag], others: &[Tag]) -> bool
    ensures { result ≡ pointwise same_tag tags.now others.now }
{
    tags == others
}
