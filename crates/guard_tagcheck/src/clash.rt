//! Components that share a tag.
use guard_model::{Path, PathText, Step};
use thiserror::Error;

/// Two components of a SEQUENCE or SET, or alternatives of a CHOICE, that must differ in their tags and share one. A
/// clash prints as its name, the path and both positions: `Clash $.0[0].2 0 1`.
#[derive(Debug, Drop, Error)]
#[error("Clash {way} {first} {second}", way = PathText(.path))]
pub struct Clash {
    /// The way from the type to the SEQUENCE, SET or CHOICE. A component or alternative is `Step::Component`, the type
    /// of an OF type's elements `Step::Element(0)`.
    pub path: Path,
    /// The position of the earlier component or alternative in the written list, from 0.
    pub first: u8,
    /// The position of the later component or alternative.
    pub second: u8,
}

impl Clash {
    ghost use Rattle.std.specs.Prelude.{◌≡◌, ◌<◌, length};
    ghost use Rattle.guard_model.specs.Limits.{deepest_nesting};
    ghost use Rattle.guard_tagcheck.specs.Search.{below};
    ghost use Rattle.guard_tagcheck.specs.Views.{clash_view};

    /// The clash of a part, with the path from the type that has the part. Condition: the path has room for a step.
    pub(crate) fn below(mut self, step: Step) -> Clash
        requires { length self.path.items < deepest_nesting }
        ensures { clash_view result ≡ below step (clash_view self) }
    {
        self.path.insert(0, step);
        self
    }
}
