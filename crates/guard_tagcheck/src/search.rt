//! The first clash of a type.
ghost use Rattle.std.specs.Prelude.{◌≡◌, suc, ◌≤◌, ◌<◌, length, map, drop, option_map};
ghost use Rattle.std.specs.Prelude.{IfOk, IfErr, IsTrue, IsOk, Err, Some};
ghost use Rattle.std.specs.Option.{option_or};
ghost use Rattle.guard_model.specs.TypeView.{type_view, component_view, components_of, presence_view};
ghost use Rattle.guard_model.specs.Answer.{Gives};
ghost use Rattle.guard_model.specs.Limits.{most_components, deepest_nesting};
ghost use Rattle.guard_model.specs.declared.site.Step.TheVariants.{Element};
ghost use Rattle.guard_tagcheck.specs.Limits.{is_within_limits, keeps_limits, components_keep_limits, nesting, deepest};
ghost use Rattle.guard_tagcheck.specs.Distinct.{Distinct, IsClash, AbstractClash};
ghost use Rattle.guard_tagcheck.specs.Search.{first_clash, inside, clash_inside, first_pair, partner, is_passed, here};
ghost use Rattle.guard_tagcheck.specs.Views.{clash_view};

use crate::clash::Clash;
use crate::first_tags::share_tag;
use guard_model::{Comp, Kind, Path, Presence, Step, Ty};

/// Whether the tags distinguish components and alternatives, in the type and in each type inside it. All components of
/// a SET (X.680 27.3) and all alternatives of a CHOICE (29.3) must differ in their tags. In a SEQUENCE (25.6) a
/// component that may be left out must differ from those that may then come next, of which the first mandatory one is
/// the last. A CHOICE without a tag counts with the tags of its alternatives. Types inside constraints and defaults
/// don't count.
///
/// The error is the first pair that must differ and shares a tag: a type comes before its parts, parts come as they are
/// written, and in one type the least pair of positions counts. Condition: the type keeps the limits of
/// `is_within_limits`, so each type but a CHOICE has a tag, lists have at most 64 entries, and nesting is at most 32.
pub fn check(ty: &Ty) -> Result<(), Clash>
    requires { IsTrue (is_within_limits (type_view ty.now)) }
    // Ok says that all tags differ that must.
    ensures distinct { IfOk result (λ x. Distinct (type_view ty.now)) }
    // Where all tags differ that must, the answer is Ok.
    ensures accepted { Distinct (type_view ty.now) → IsOk result }
    // A clash that is answered is the type's.
    ensures clash { IfErr result (λ c. IsClash (type_view ty.now) (clash_view c)) }
    // Where the type has a clash, it is answered.
    ensures only { (c : AbstractClash) → IsClash (type_view ty.now) c →
        Gives (λ x. x) (λ e. Some (clash_view e)) result (Err c) }
{
    match first_clash(ty) {
        Some(clash) => Err(clash),
        None => Ok(()),
    }
}

#[cycle(search)]
fn first_clash(ty: &Ty) -> Option<Clash>
    requires limits { IsTrue (keeps_limits (type_view ty.now)) }
    requires depth { nesting (type_view ty.now) ≤ deepest_nesting }
    ensures { option_map clash_view result ≡ first_clash (type_view ty.now) }
{
    match &ty.kind {
        Kind::Sequence(comps) => clash_among(comps, true),
        Kind::Set(comps) | Kind::Choice(comps) => clash_among(comps, false),
        Kind::SequenceOf(element) | Kind::SetOf(element) => clash_of_elements(element),
        _ => None,
    }
}

#[cycle(search)]
fn clash_of_elements(element: &Ty) -> Option<Clash>
    requires limits { IsTrue (keeps_limits (type_view element.now)) }
    requires depth { nesting (type_view element.now) < deepest_nesting }
    ensures { option_map clash_view result ≡ inside (Element 0) (first_clash (type_view element.now)) }
{
    let clash = first_clash(element)?;
    Some(clash.below(Step::Element(0)))
}

/// The clash of a SEQUENCE, SET or CHOICE: between its components, or in the first of them that has one.
#[cycle(search)]
fn clash_among(comps: &[Comp], in_sequence: bool) -> Option<Clash>
    requires limits { IsTrue (components_keep_limits (components_of (map component_view comps.now))) }
    requires few { length comps.now ≤ most_components }
    requires depth { deepest (components_of (map component_view comps.now)) < deepest_nesting }
    ensures { option_map clash_view result ≡ option_or (here (first_pair in_sequence 0 (components_of
        (map component_view comps.now)))) (clash_inside 0 (components_of (map component_view comps.now))) }
{
    match first_pair(comps, in_sequence) {
        Some((first, second)) => Some(Clash {
            path: Path::new(),
            first,
            second,
        }),
        None => clash_inside(comps),
    }
}

#[cycle(search)]
fn clash_inside(comps: &[Comp]) -> Option<Clash>
    requires limits { IsTrue (components_keep_limits (components_of (map component_view comps.now))) }
    requires few { length comps.now ≤ most_components }
    requires depth { deepest (components_of (map component_view comps.now)) < deepest_nesting }
    ensures { option_map clash_view result ≡ clash_inside 0 (components_of (map component_view comps.now)) }
{
    for (index, comp) in comps.iter().enumerate() {
        if let Some(clash) = first_clash(&comp.ty) {
            return Some(clash.below(Step::Component(index as u8)));
        }
    }
    None
}

/// The least pair of positions whose components must differ in their tags and share one; None where there is none.
fn first_pair(comps: &[Comp], in_sequence: bool) -> Option<(u8, u8)>
    requires { length comps.now ≤ most_components }
    ensures { result ≡ first_pair in_sequence 0 (components_of (map component_view comps.now)) }
{
    for (index, comp) in comps.iter().enumerate() {
        if is_passed(&comp.presence, in_sequence) {
            if let Some(second) = partner(comps, index, &comp.ty, in_sequence) {
                return Some((index as u8, second));
            }
        }
    }
    None
}

/// The position of the first component after this one that shares a tag with its type. In a SEQUENCE the next mandatory
/// component is the last that counts.
fn partner(comps: &[Comp], index: usize, ty: &Ty, in_sequence: bool) -> Option<u8>
    requires there { index < length comps.now }
    requires few { length comps.now ≤ most_components }
    ensures { result ≡ partner in_sequence (type_view ty.now) (suc index)
        (components_of (map component_view (drop (suc index) comps.now))) }
{
    for later in index + 1..comps.len() {
        let comp = &comps[later];
        if share_tag(ty, &comp.ty) {
            return Some(later as u8);
        }
        if !is_passed(&comp.presence, in_sequence) {
            return None;
        }
    }
    None
}

/// Whether a later component may come next, past one with this presence: in a SEQUENCE only where it may be left out.
pub(crate) fn is_passed(presence: &Presence, in_sequence: bool) -> bool
    ensures { result ≡ is_passed in_sequence (presence_view presence.now) }
{
    !in_sequence || !matches!(presence, Presence::Mandatory)
}
