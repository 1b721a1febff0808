//! The first clash of a type, with the memory of a map of its tags.
ghost use Rattle.std.specs.Prelude.{◌≡◌, ◌≤◌, ◌<◌, length, map, option_map, IfOk, IfSome, IsTrue, Some, None};
ghost use Rattle.std.specs.Option.{option_or};
ghost use Rattle.guard_model.specs.TypeView.{type_view, component_view, components_of};
ghost use Rattle.guard_model.specs.Limits.{most_components, deepest_nesting};
ghost use Rattle.guard_model.specs.declared.site.Step.TheVariants.{Element};
ghost use Rattle.guard_tagcheck.specs.Limits.{is_within_limits, keeps_limits, components_keep_limits, nesting, deepest};
ghost use Rattle.guard_tagcheck.specs.Distinct.{Distinct, IsClash, AbstractClash};
ghost use Rattle.guard_tagcheck.specs.Search.{first_clash, inside, clash_inside, first_pair, here};
ghost use Rattle.guard_tagcheck.specs.Views.{clash_view};

use crate::clash::Clash;
use crate::noting::least_pair;
use guard_model::{Comp, Kind, OutOfMemory, Path, Step, Ty};
use std::alloc::Global;

/// The first clash of the type (X.680 25.6, 27.3, 29.3), or None where all tags differ that must: the clash that
/// `check` names, found with memory. For n first tags of the components of a SEQUENCE, SET or CHOICE this takes n log n
/// steps, since each is looked up once in a map, where `check` compares each two of them.
///
/// Condition: the type keeps the limits of `is_within_limits`. OutOfMemory is the only error.
pub fn find_clash(alloc: Global, ty: &Ty) -> Result<Option<Clash>, OutOfMemory>
    requires { IsTrue (is_within_limits (type_view ty.now)) }
    // Where it finds none, all differ.
    ensures distinct { IfOk result (λ found. found ≡ None → Distinct (type_view ty.now)) }
    // Where they all differ it finds none.
    ensures accepted { Distinct (type_view ty.now) → IfOk result (λ found. found ≡ None) }
    // A clash that is found is the type's.
    ensures clash { IfOk result (λ found. IfSome found (λ c. IsClash (type_view ty.now) (clash_view c))) }
    // The type's clash is found.
    ensures only { (c : AbstractClash) → IsClash (type_view ty.now) c →
        IfOk result (λ found. option_map clash_view found ≡ Some c) }
{
    first_clash(alloc, ty)
}

#[cycle(finding)]
fn first_clash(alloc: Global, ty: &Ty) -> Result<Option<Clash>, OutOfMemory>
    requires limits { IsTrue (keeps_limits (type_view ty.now)) }
    requires depth { nesting (type_view ty.now) ≤ deepest_nesting }
    ensures { IfOk result (λ found. option_map clash_view found ≡ first_clash (type_view ty.now)) }
{
    match &ty.kind {
        Kind::Sequence(comps) => clash_among(alloc, comps, true),
        Kind::Set(comps) | Kind::Choice(comps) => clash_among(alloc, comps, false),
        Kind::SequenceOf(element) | Kind::SetOf(element) => clash_of_elements(alloc, element),
        _ => Ok(None),
    }
}

#[cycle(finding)]
fn clash_of_elements(alloc: Global, element: &Ty) -> Result<Option<Clash>, OutOfMemory>
    requires limits { IsTrue (keeps_limits (type_view element.now)) }
    requires depth { nesting (type_view element.now) < deepest_nesting }
    ensures { IfOk result (λ found. option_map clash_view found
        ≡ inside (Element 0) (first_clash (type_view element.now))) }
{
    let found = first_clash(alloc, element)?;
    match found {
        Some(clash) => Ok(Some(clash.below(Step::Element(0)))),
        None => Ok(None),
    }
}

/// The clash of a SEQUENCE, SET or CHOICE: between its components, or in the first of them that has one.
#[cycle(finding)]
fn clash_among(
    alloc: Global,
    comps: &[Comp],
    in_sequence: bool,
) -> Result<Option<Clash>, OutOfMemory>
    requires limits { IsTrue (components_keep_limits (components_of (map component_view comps.now))) }
    requires few { length comps.now ≤ most_components }
    requires depth { deepest (components_of (map component_view comps.now)) < deepest_nesting }
    ensures { IfOk result (λ found. option_map clash_view found
        ≡ option_or (here (first_pair in_sequence 0 (components_of (map component_view comps.now))))
        (clash_inside 0 (components_of (map component_view comps.now)))) }
{
    let pair = least_pair(alloc, comps, in_sequence)?;
    match pair {
        Some((first, second)) => Ok(Some(Clash {
            path: Path::new(),
            first,
            second,
        })),
        None => clash_inside(alloc, comps),
    }
}

#[cycle(finding)]
fn clash_inside(alloc: Global, comps: &[Comp]) -> Result<Option<Clash>, OutOfMemory>
    requires limits { IsTrue (components_keep_limits (components_of (map component_view comps.now))) }
    requires few { length comps.now ≤ most_components }
    requires depth { deepest (components_of (map component_view comps.now)) < deepest_nesting }
    ensures { IfOk result (λ found. option_map clash_view found
        ≡ clash_inside 0 (components_of (map component_view comps.now))) }
{
    for (index, comp) in comps.iter().enumerate() {
        let found = first_clash(alloc, &comp.ty)?;
        if let Some(clash) = found {
            return Ok(Some(clash.below(Step::Component(index as u8))));
        }
    }
    Ok(None)
}
