//! The least pair of components that share a tag, by a map from each tag to the first component that may begin with it.
ghost use Rattle.std.specs.Prelude.{◌≡◌, ◌≤◌, map, length, IfOk, OnOk};
ghost use Rattle.guard_model.specs.Limits.{most_components};
ghost use Rattle.guard_model.specs.Tags.{same_tag};
ghost use Rattle.guard_model.specs.TypeView.{type_view, component_view, components_of};
ghost use Rattle.guard_tagcheck.specs.FirstTags.{begins_with, one_begins_with};
ghost use Rattle.guard_tagcheck.specs.inside.Noting.{noted, IsEarliest, Notes, IsNoted, earlier, lesser};
ghost use Rattle.guard_tagcheck.specs.Search.{first_pair};

use crate::search::is_passed;
use guard_model::{Comp, Kind, OutOfMemory, Tag, Ty};
use std::alloc::Global;
use std::collections::BTreeMap;

/// The least pair of positions whose components must differ in their tags and share one; None where there is none. Each
/// first tag is looked up once, in a map of those before it. After a mandatory component of a SEQUENCE none of those
/// before it counts. Condition: there are at most 64 components. OutOfMemory is the only error.
pub(crate) fn least_pair(
    alloc: Global,
    comps: &[Comp],
    in_sequence: bool,
) -> Result<Option<(u8, u8)>, OutOfMemory>
    requires { length comps.now ≤ most_components }
    ensures { IfOk result (λ pair. pair ≡ first_pair in_sequence 0 (components_of (map component_view comps.now))) }
{
    let mut notes = BTreeMap::new(alloc);
    let mut least = None;
    for (index, comp) in comps.iter().enumerate() {
        let first = note(&mut notes, &comp.ty, index as u8)?;
        least = lesser(least, first, index as u8);
        if !is_passed(&comp.presence, in_sequence) {
            notes.clear();
        }
    }
    Ok(least)
}

/// Notes the position at each first tag of the component's type that has none yet. The result is the earliest position
/// before it that one of them has.
#[cycle(noting)]
pub(crate) fn note(
    notes: &mut BTreeMap<Tag, u8>,
    ty: &Ty,
    position: u8,
) -> Result<Option<u8>, OutOfMemory>
    ensures noted { OnOk result
        (Notes (noted notes.old.entries) (begins_with (type_view ty.now)) position (noted notes.new.entries)) }
    ensures first { IfOk result
        (IsEarliest (IsNoted (noted notes.old.entries) (begins_with (type_view ty.now)) position)) }
{
    if let Some(tag) = ty.tags.first() {
        return note_tag(notes, *tag, position);
    }
    match &ty.kind {
        Kind::Choice(alternatives) => note_all(notes, alternatives, position),
        _ => Ok(None),
    }
}

#[cycle(noting)]
fn note_all(
    notes: &mut BTreeMap<Tag, u8>,
    alternatives: &[Comp],
    position: u8,
) -> Result<Option<u8>, OutOfMemory>
    ensures noted { OnOk result (Notes (noted notes.old.entries)
        (one_begins_with (components_of (map component_view alternatives.now))) position (noted notes.new.entries)) }
    ensures first { IfOk result (IsEarliest (IsNoted (noted notes.old.entries)
        (one_begins_with (components_of (map component_view alternatives.now))) position)) }
{
    let mut first = None;
    for alternative in alternatives {
        let other = note(notes, &alternative.ty, position)?;
        first = earlier(first, other);
    }
    Ok(first)
}

fn note_tag(
    notes: &mut BTreeMap<Tag, u8>,
    tag: Tag,
    position: u8,
) -> Result<Option<u8>, OutOfMemory>
    ensures noted { OnOk result (Notes (noted notes.old.entries) (same_tag tag) position (noted notes.new.entries)) }
    ensures first { IfOk result (IsEarliest (IsNoted (noted notes.old.entries) (same_tag tag) position)) }
{
    match notes.get(&tag).copied() {
        Some(first) if first < position => Ok(Some(first)),
        // The component itself may begin with it in two ways.
        Some(_) => Ok(None),
        None => {
            notes.insert(tag, position)?;
            Ok(None)
        }
    }
}

fn earlier(a: Option<u8>, b: Option<u8>) -> Option<u8>
    ensures { result ≡ earlier a b }
{
    match (a, b) {
        (Some(i), Some(j)) => Some(i.min(j)),
        (Some(i), None) => Some(i),
        (None, other) => other,
    }
}

/// The least pair so far, or one whose second component comes after all of those.
fn lesser(least: Option<(u8, u8)>, first: Option<u8>, second: u8) -> Option<(u8, u8)>
    ensures { result ≡ lesser least first second }
{
    let Some(first) = first else {
        return least;
    };
    match least {
        Some(pair) if pair.0 <= first => Some(pair),
        _ => Some((first, second)),
    }
}
