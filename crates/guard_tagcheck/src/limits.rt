//! Whether a type keeps the limits of this profile.
ghost use Rattle.std.specs.Prelude.{◌≡◌, ◌&&◌, nat_le, map};
ghost use Rattle.guard_model.specs.TypeView.{type_view, kind_view, component_view, components_of};
ghost use Rattle.guard_model.specs.Counts.{component_count};
ghost use Rattle.guard_model.specs.Limits.{most_components};
ghost use Rattle.guard_tagcheck.specs.Limits.{is_within_limits, is_tagged, kind_within, all_within, type_within};

use guard_model::{Comp, DEEPEST_NESTING, Kind, MOST_COMPONENTS, Tag, Ty};

/// Whether the type and each type inside has a tag unless it is a CHOICE, no list of components or alternatives has
/// more than 64, and the type is nested 32 deep at most: a type takes a level for each of its tags, a CHOICE one more.
pub fn is_within_limits(ty: &Ty) -> bool
    ensures { result ≡ is_within_limits (type_view ty.now) }
{
    is_within(ty, DEEPEST_NESTING)
}

#[cycle(limits)]
fn is_within(ty: &Ty, depth: usize) -> bool
    ensures { result ≡ type_within (type_view ty.now) depth }
{
    let levels = ty.tags.len();
    if !is_tagged(&ty.tags, &ty.kind) || levels > depth {
        return false;
    }
    is_kind_within(&ty.kind, depth - levels)
}

/// Whether there is a tag, or the kind is a CHOICE, which alone may have none.
fn is_tagged(tags: &[Tag], kind: &Kind) -> bool
    ensures { result ≡ is_tagged tags.now (kind_view kind.now) }
{
    !tags.is_empty() || kind.is_choice()
}

#[cycle(limits)]
fn is_kind_within(kind: &Kind, depth: usize) -> bool
    ensures { result ≡ kind_within (kind_view kind.now) depth }
{
    match kind {
        Kind::Sequence(comps) | Kind::Set(comps) => are_within(comps, depth),
        Kind::Choice(comps) => depth > 0 && are_within(comps, depth - 1),
        Kind::SequenceOf(element) | Kind::SetOf(element) => is_within(element, depth),
        _ => true,
    }
}

#[cycle(limits)]
fn are_within(comps: &[Comp], depth: usize) -> bool
    ensures { result ≡ (nat_le (component_count (components_of (map component_view comps.now))) most_components
        && all_within (components_of (map component_view comps.now)) depth) }
{
    if comps.len() > MOST_COMPONENTS {
        return false;
    }
    for comp in comps {
        if !is_within(&comp.ty, depth) {
            return false;
        }
    }
    true
}
