//! What two components that clash have in common.
ghost use Rattle.std.specs.Prelude.{◌≡◌, map, option_map, IfOk};
ghost use Rattle.guard_model.specs.AbstractType.{AbstractType};
ghost use Rattle.guard_model.specs.TypeView.{type_view, kind_view, component_view, components_of};
ghost use Rattle.guard_tagcheck.specs.Distinct.{part_at, type_at};
ghost use Rattle.guard_tagcheck.specs.InCommon.{in_common, common_in, shared_tag, tag_of_one};
ghost use Rattle.guard_tagcheck.specs.inside.Noting.{noted, AreNoted};
ghost use Rattle.guard_tagcheck.specs.Views.{clash_view, common_view};

use crate::clash::Clash;
use crate::noting::note;
use guard_model::{Comp, Kind, OutOfMemory, Step, Tag, Ty};
use std::alloc::Global;
use std::collections::BTreeMap;
use std::sync::ArcStr;

/// The names of two components or alternatives that clash, and a tag that they share.
#[derive(Debug, Drop)]
pub struct InCommon {
    pub first: ArcStr,
    pub second: ArcStr,
    pub tag: Tag,
}

/// What the components at the places of a clash share: their names, and the first tag with which an encoding of the
/// earlier one may begin and one of the later one as well. None where the clash's path or places lead to nothing in
/// this type, and where the two share no tag. OutOfMemory is the only error.
pub fn common_to(alloc: Global, ty: &Ty, clash: &Clash) -> Result<Option<InCommon>, OutOfMemory>
    ensures { IfOk result (λ found. option_map common_view found
        ≡ in_common (type_view ty.now) (clash_view clash.now)) }
{
    match type_at(ty, clash.path.as_slice()) {
        Some(whole) => common_in(alloc, whole, clash.first, clash.second),
        None => Ok(None),
    }
}

fn common_in(
    alloc: Global,
    whole: &Ty,
    first: u8,
    second: u8,
) -> Result<Option<InCommon>, OutOfMemory>
    ensures { IfOk result (λ found. option_map common_view found ≡ common_in (type_view whole.now) first second) }
{
    let Some(one) = whole.kind.component(first) else {
        return Ok(None);
    };
    let Some(other) = whole.kind.component(second) else {
        return Ok(None);
    };
    let Some(tag) = shared_tag(alloc, &one.ty, &other.ty)? else {
        return Ok(None);
    };
    Ok(Some(InCommon {
        first: one.name.clone()?,
        second: other.name.clone()?,
        tag,
    }))
}

/// The type inside to which the path leads; None where it leads to nothing.
fn type_at<'t>(ty: &'t Ty, path: &[Step]) -> Option<&'t Ty>
    ensures { option_map (λ t. type_view t.now) result ≡ type_at path.now (type_view ty.now) }
{
    let mut at = ty;
    for step in path {
        at = part_at(&at.kind, *step)?;
    }
    Some(at)
}

fn part_at(kind: &Kind, step: Step) -> Option<&Ty>
    ensures { option_map (λ t. type_view t.now) result ≡ part_at (kind_view kind.now) step }
{
    match step {
        Step::Component(place) => kind.part(place),
        Step::Element(0) => kind.element(),
        Step::Element(_) => None,
    }
}

/// The first tag with which an encoding of the one type may begin and one of the other as well; None where they share
/// none. Those of the other are noted first, so each tag of either is looked up once. OutOfMemory is the only error.
fn shared_tag(alloc: Global, a: &Ty, b: &Ty) -> Result<Option<Tag>, OutOfMemory>
    ensures { IfOk result (λ tag. tag ≡ shared_tag (type_view a.now) (type_view b.now)) }
{
    let mut notes = BTreeMap::new(alloc);
    note(&mut notes, b, 0)?;
    Ok(first_noted(a, &notes))
}

/// The first tag with which an encoding of the type may begin and that is noted; None where there is none.
#[cycle(first_of_noted)]
fn first_noted(ty: &Ty, notes: &BTreeMap<Tag, u8>) -> Option<Tag>
    ensures { (b : AbstractType) → AreNoted (noted notes.now.entries) b → result ≡ shared_tag (type_view ty.now) b }
{
    if let Some(tag) = ty.tags.first() {
        return if notes.contains_key(tag) {
            Some(*tag)
        } else {
            None
        };
    }
    match &ty.kind {
        Kind::Choice(alternatives) => first_noted_of(alternatives, notes),
        _ => None,
    }
}

#[cycle(first_of_noted)]
fn first_noted_of(alternatives: &[Comp], notes: &BTreeMap<Tag, u8>) -> Option<Tag>
    ensures { (b : AbstractType) → AreNoted (noted notes.now.entries) b →
        result ≡ tag_of_one (components_of (map component_view alternatives.now)) b }
{
    for alternative in alternatives {
        if let Some(tag) = first_noted(&alternative.ty, notes) {
            return Some(tag);
        }
    }
    None
}
