//! The first constraint that a value fails: one walk over the type, its constraints and the value. Whether a constraint
//! has the value and where the value fails it are both found by this one walk. The path says what it is where a site
//! is answered; else what is in it means nothing.
ghost use Rattle.std.specs.Prelude.{◌≡◌, None, map, option_map};
ghost use Rattle.std.specs.Option.{is_none, is_some, option_or};
ghost use Rattle.guard_model.specs.declared.site.Step.TheVariants.{Component};
ghost use Rattle.guard_model.specs.TypeView.{type_view, kind_view, component_view, constraint_view};
ghost use Rattle.guard_model.specs.TypeView.{part_view, components_of, constraints_of, parts_of};
ghost use Rattle.guard_model.specs.ValueView.{value_view, fields_view, items_view};
ghost use Rattle.guard_eval.specs.Elements.{has_size as is_sized};
ghost use Rattle.guard_eval.specs.Presence.{element_kind, has_parts, first_intruder, part_at};
ghost use Rattle.guard_eval.specs.Violations.{unless as blamed_unless};
ghost use Rattle.guard_eval.specs.inside.Failures.{found_by, under, failure, failure_inside, failure_from};
ghost use Rattle.guard_eval.specs.inside.Failures.{failure_of_chosen, failure_among, first_failure, some_allows};
ghost use Rattle.guard_eval.specs.inside.Failures.{failure_by, failure_in_items, first_part_failure, part_failure};
ghost use Rattle.guard_eval.specs.inside.Failures.{failure_within, placing_failure, intruder_failure};

use super::elements::{is_between, is_spelled_in, size_of};
use super::found::{here, under_component, under_element, unless};
use super::presence::{
    element_kind, first_intruder, has_parts, is_as_said, is_there, kind_at, part_at,
};
use guard_model::{Comp, Cons, Kind, Part, Path, Rule, Site, Ty, Value};
use std::sync::Arc;

// ---- types

/// The first constraint that the value fails: of the type's own, then of those of its parts. None where it fails none.
#[cycle(search)]
pub fn failure(path: &mut Path, ty: &Ty, value: &Value) -> Option<Site>
    ensures { found_by path.new.items result ≡ failure (type_view ty.now) (value_view value.now) }
{
    match first_failure(path, &ty.cons, &ty.kind, value) {
        Some(site) => Some(site),
        None => failure_inside(path, &ty.kind, value),
    }
}

#[cycle(search)]
fn failure_inside(path: &mut Path, kind: &Kind, value: &Value) -> Option<Site>
    ensures { found_by path.new.items result ≡ failure_inside (kind_view kind.now) (value_view value.now) }
{
    match (kind, value) {
        (Kind::Sequence(comps), Value::Fields(fields)) => failure_from(path, comps, fields),
        (Kind::Set(comps), Value::Fields(fields)) => failure_from(path, comps, fields),
        (Kind::Choice(comps), Value::Chosen(at, value)) => failure_of_chosen(
            path, comps, *at, value,
        ),
        (Kind::SequenceOf(ty), Value::Items(items)) => failure_of_items(path, ty, items),
        (Kind::SetOf(ty), Value::Items(items)) => failure_of_items(path, ty, items),
        _ => None,
    }
}

#[cycle(search)]
fn failure_from(path: &mut Path, comps: &[Comp], fields: &[Arc<Option<Value>>]) -> Option<Site>
    ensures { found_by path.new.items result
        ≡ failure_from 0 (components_of (map component_view comps.now)) (fields_view fields.now) }
{
    for (index, (comp, field)) in comps.iter().zip(fields).enumerate() {
        if let Some(value) = field.as_ref()
            && let Some(site) = failure(path, &comp.ty, value)
        {
            return Some(under_component(path, site, index));
        }
    }
    None
}

#[cycle(search)]
fn failure_of_chosen(path: &mut Path, comps: &[Comp], at: u8, value: &Value) -> Option<Site>
    ensures { found_by path.new.items result ≡ under (Component at)
        (failure_of_chosen (components_of (map component_view comps.now)) at (value_view value.now)) }
{
    let comp = comps.get(usize::from(at))?;
    let site = failure(path, &comp.ty, value)?;
    Some(under_component(path, site, usize::from(at)))
}

/// The first constraint that an element of an OF type fails.
#[cycle(search)]
pub fn failure_of_items(path: &mut Path, ty: &Ty, items: &[Value]) -> Option<Site>
    ensures { found_by path.new.items result ≡ failure_among (failure (type_view ty.now)) 0 (items_view items.now) }
{
    for (index, item) in items.iter().enumerate() {
        if let Some(site) = failure(path, ty, item) {
            return Some(under_element(path, site, index));
        }
    }
    None
}

// ---- constraints, on a type of this kind

/// What the first of the constraints that doesn't have the value blames; None where all have it.
#[cycle(search)]
pub fn first_failure(path: &mut Path, cons: &[Cons], kind: &Kind, value: &Value) -> Option<Site>
    ensures { found_by path.new.items result
        ≡ first_failure (constraints_of (map constraint_view cons.now)) (kind_view kind.now) (value_view value.now) }
{
    for one in cons {
        if let Some(site) = failure_by(path, one, kind, value) {
            return Some(site);
        }
    }
    None
}

/// Whether one of the constraints has the value.
#[cycle(search)]
fn some_allows(path: &mut Path, cons: &[Cons], kind: &Kind, value: &Value) -> bool
    ensures { result
        ≡ some_allows (constraints_of (map constraint_view cons.now)) (kind_view kind.now) (value_view value.now) }
{
    for one in cons {
        if failure_by(path, one, kind, value).is_none() {
            return true;
        }
    }
    false
}

/// The constraint that is blamed where this one doesn't have the value, else None: of an intersection, the first one in
/// it that fails; of `A EXCEPT B`, what `A` blames if it fails, and else the whole; of WITH COMPONENT and WITH
/// COMPONENTS, what fails within the value's parts; of any other one, itself.
#[cycle(search)]
pub fn failure_by(path: &mut Path, cons: &Cons, kind: &Kind, value: &Value) -> Option<Site>
    ensures { found_by path.new.items result
        ≡ failure_by (constraint_view cons.now) (kind_view kind.now) (value_view value.now) }
{
    let site = cons.site;
    match &cons.rule {
        Rule::One(one) => unless(path, one.same(value), site),
        Rule::Inside(ty) => {
            let is_member = failure(path, ty, value).is_none();
            unless(path, is_member, site)
        }
        Rule::Range(low, high) => unless(path, is_between(low, high, value), site),
        Rule::Size(size) => {
            let is_sized = has_size(path, size, kind, value);
            unless(path, is_sized, site)
        }
        Rule::Alphabet(ranges) => unless(path, is_spelled_in(ranges, value), site),
        Rule::Each(each) => failure_in_items(path, each, site, kind, value),
        Rule::Parts(partial, parts) => failure_in_parts(path, *partial, parts, site, kind, value),
        Rule::Any(any) => {
            let is_allowed = some_allows(path, any, kind, value);
            unless(path, is_allowed, site)
        }
        Rule::Both(both) => first_failure(path, both, kind, value),
        Rule::Minus(left, right) => match failure_by(path, left, kind, value) {
            Some(site) => Some(site),
            None => failure_of_other(path, right, site, kind, value),
        },
        Rule::Other(other) => failure_of_other(path, other, site, kind, value),
    }
}

/// The site of an ALL EXCEPT whose constraint has the value.
#[cycle(search)]
fn failure_of_other(
    path: &mut Path,
    other: &Cons,
    site: Site,
    kind: &Kind,
    value: &Value,
) -> Option<Site>
    ensures { found_by path.new.items result ≡ blamed_unless
        (is_some (failure_by (constraint_view other.now) (kind_view kind.now) (value_view value.now))) site }
{
    let fails = failure_by(path, other, kind, value).is_some();
    unless(path, fails, site)
}

/// Whether the constraint has the size of the value, as a number.
#[cycle(search)]
fn has_size(path: &mut Path, size: &Cons, kind: &Kind, value: &Value) -> bool
    ensures { result ≡ is_sized (λ n. is_none (failure_by (constraint_view size.now) (kind_view kind.now) n))
        (value_view value.now) }
{
    match size_of(value) {
        Some(number) => failure_by(path, size, kind, &Value::Int(number)).is_none(),
        None => false,
    }
}

#[cycle(search)]
fn failure_in_items(
    path: &mut Path,
    each: &Cons,
    site: Site,
    kind: &Kind,
    value: &Value,
) -> Option<Site>
    ensures { found_by path.new.items result ≡ failure_in_items
        (failure_by (constraint_view each.now) (element_kind (kind_view kind.now))) site (value_view value.now) }
{
    match value {
        Value::Items(items) => failure_among(path, each, element_kind(kind), items),
        _ => Some(here(path, site)),
    }
}

#[cycle(search)]
fn failure_among(path: &mut Path, each: &Cons, kind: &Kind, items: &[Value]) -> Option<Site>
    ensures { found_by path.new.items result
        ≡ failure_among (failure_by (constraint_view each.now) (kind_view kind.now)) 0 (items_view items.now) }
{
    for (index, item) in items.iter().enumerate() {
        if let Some(site) = failure_by(path, each, kind, item) {
            return Some(under_element(path, site, index));
        }
    }
    None
}

// ---- WITH COMPONENTS

/// Where WITH COMPONENTS fails: at the first listed part that isn't as its name says; where all are, at the first other
/// part that is there under a full list.
#[cycle(search)]
fn failure_in_parts(
    path: &mut Path,
    partial: bool,
    parts: &[Part],
    site: Site,
    kind: &Kind,
    value: &Value,
) -> Option<Site>
    ensures { found_by path.new.items result
        ≡ option_or (blamed_unless (has_parts (value_view value.now)) site) (option_or (first_part_failure
        (parts_of (map part_view parts.now)) partial (kind_view kind.now) (value_view value.now)) (intruder_failure site
        (first_intruder partial (kind_view kind.now) (parts_of (map part_view parts.now)) (value_view value.now)))) }
{
    if !has_parts(value) {
        return Some(here(path, site));
    }
    match first_part_failure(path, parts, partial, kind, value) {
        Some(site) => Some(site),
        None => intruder_failure(path, site, first_intruder(partial, parts, kind, value)),
    }
}

fn intruder_failure(path: &mut Path, site: Site, intruder: Option<usize>) -> Option<Site>
    ensures { found_by path.new.items result ≡ intruder_failure site intruder }
{
    let at = intruder?;
    let site = here(path, site);
    Some(under_component(path, site, at))
}

#[cycle(search)]
fn first_part_failure(
    path: &mut Path,
    parts: &[Part],
    partial: bool,
    kind: &Kind,
    value: &Value,
) -> Option<Site>
    ensures { found_by path.new.items result
        ≡ first_part_failure (parts_of (map part_view parts.now)) partial (kind_view kind.now) (value_view value.now) }
{
    for part in parts {
        if let Some(site) = part_failure(path, part, partial, kind, value) {
            return Some(site);
        }
    }
    None
}

/// What one part of WITH COMPONENTS blames: its component's presence, then what its value fails.
#[cycle(search)]
fn part_failure(
    path: &mut Path,
    part: &Part,
    partial: bool,
    kind: &Kind,
    value: &Value,
) -> Option<Site>
    ensures { found_by path.new.items result
        ≡ part_failure (part_view part.now) partial (kind_view kind.now) (value_view value.now) }
{
    let comp = kind.component(part.at);
    let there = is_there(value, usize::from(part.at));
    match placing_failure(path, part, partial, comp, there) {
        Some(site) => Some(site),
        None => failure_within(path, part, kind, value),
    }
}

/// The site of a part whose component doesn't exist, or isn't there or absent as the part says.
fn placing_failure(
    path: &mut Path,
    part: &Part,
    partial: bool,
    comp: Option<&Comp>,
    there: bool,
) -> Option<Site>
    ensures { found_by path.new.items result ≡ placing_failure partial (part_view part.now).site
        (part_view part.now).place (option_map (λ c. component_view c.now) comp.entry) (part_view part.now).word there }
{
    match comp {
        Some(comp) => {
            let site = unless(path, is_as_said(partial, comp, part.word, there), part.site)?;
            Some(under_component(path, site, usize::from(part.at)))
        }
        None => Some(here(path, part.site)),
    }
}

/// What the value of a part fails, if it is there and constrained.
#[cycle(search)]
fn failure_within(path: &mut Path, part: &Part, kind: &Kind, value: &Value) -> Option<Site>
    ensures { found_by path.new.items result
        ≡ failure_within (part_view part.now) (kind_view kind.now) (value_view value.now) }
{
    match (&part.cons, part_at(value, usize::from(part.at))) {
        (Some(cons), Some(inner)) => {
            let site = failure_by(path, cons, kind_at(kind, part.at), inner)?;
            Some(under_component(path, site, usize::from(part.at)))
        }
        _ => None,
    }
}
