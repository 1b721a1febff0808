//! To which component or alternative a tag belongs, and which tag comes after another.
ghost use Rattle.std.specs.Prelude.{◌≡◌, ◌≤◌, ◌<◌, length, map, IfSome};
ghost use Rattle.guard_model.specs.AbstractType.{type_of, no_constraints};
ghost use Rattle.guard_model.specs.TypeView.{kind_view, component_view, components_of};
ghost use Rattle.guard_tagcheck.specs.FirstTags.{begins_with as may_begin_with};
ghost use Rattle.guard_der.specs.Breach.{one_with as place_with};
ghost use Rattle.guard_der.specs.Reading.{follows as comes_after};
ghost use Rattle.guard_model.specs.Tags.{same_tag};

use guard_model::{Comp, Kind, Tag};
use guard_tagcheck::{begins_with, one_begins_with};
use std::cmp::Ordering;

/// Whether an encoding of a kind with these tags may begin with this tag. An untagged CHOICE has the tags of all its
/// alternatives.
pub fn begins_in(tags: &[Tag], kind: &Kind, tag: Tag) -> bool
    ensures { result ≡ may_begin_with (type_of tags.now (kind_view kind.now) no_constraints) tag }
{
    if let [first, ..] = tags {
        return is_same_tag(*first, tag);
    }
    match kind {
        Kind::Choice(alternatives) => one_begins_with(alternatives, tag),
        _ => false,
    }
}

/// The place, from 0, of the first component of whose type an encoding may begin with this tag; None where there is
/// none. Condition: there are at most 64 components.
pub fn one_with(comps: &[Comp], tag: Tag) -> Option<usize>
    requires { length comps.now ≤ 64 }
    ensures place { result ≡ place_with 0 (components_of (map component_view comps.now)) tag }
    ensures within { IfSome result (λ i. i < length comps.now) }
{
    for (index, comp) in comps.iter().enumerate() {
        if begins_with(&comp.ty, tag) {
            return Some(index);
        }
    }
    None
}

/// Whether the tag comes after that of the element before it; true where there is none before (X.690 10.3).
pub fn follows(before: Option<Tag>, tag: Tag) -> bool
    ensures { result ≡ comes_after before tag }
{
    match before {
        None => true,
        Some(before) => before.order(&tag) == Ordering::Less,
    }
}

fn is_same_tag(a: Tag, b: Tag) -> bool
    ensures { result ≡ same_tag a b }
{
    a == b
}
