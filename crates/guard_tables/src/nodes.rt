//! The first node of the declared type that has too many conditions. The nodes are looked at one after another.
ghost use Rattle.std.specs.Prelude.{◌≡◌, ◌∷◌, map, option_map, IfOk};
ghost use Rattle.guard_model.specs.TypeView.{type_view, kind_view, component_view, components_of};
ghost use Rattle.guard_tables.specs.Tables.{types_view};
ghost use Rattle.guard_tables.specs.Conditions.{has_crowded_node, crowded_node};
ghost use Rattle.guard_tables.specs.inside.Search.{crowded_from, crowded_inside, crowded_among, crowded_at};

use crate::conditions::is_crowded;
use guard_model::{Comp, Kind, OutOfMemory, Ty};
use std::alloc::Global;

/// The way to the first node of the declared type on which all types together lay more than 256 conditions; None where
/// there is none. A way has the places, from 0, of the components and alternatives that it goes to, and 0 for an
/// element. OutOfMemory is the only error.
pub fn crowded_node(
    alloc: Global,
    declared: &Ty,
    rules: &[&Ty],
) -> Result<Option<Vec<usize>>, OutOfMemory>
    ensures { IfOk result (λ found. option_map (λ way. way.items) found
        ≡ crowded_node (type_view declared.now ∷ types_view rules.now) (type_view declared.now)) }
{
    crowded_from(alloc, declared, declared, rules, &[])
}

/// Whether all types together lay more than 256 conditions on some node of the declared one.
pub(crate) fn has_crowded_node(
    alloc: Global,
    declared: &Ty,
    rules: &[&Ty],
) -> Result<bool, OutOfMemory>
    ensures { IfOk result (λ found. found
        ≡ has_crowded_node (type_view declared.now ∷ types_view rules.now) (type_view declared.now)) }
{
    let found = crowded_node(alloc, declared, rules)?;
    Ok(found.is_some())
}

/// The way to the first node that has too many conditions, of this type, to which the way leads, and of those inside
/// it.
#[cycle(nodes)]
fn crowded_from(
    alloc: Global,
    ty: &Ty,
    declared: &Ty,
    rules: &[&Ty],
    way: &[usize],
) -> Result<Option<Vec<usize>>, OutOfMemory>
    ensures { IfOk result (λ found. option_map (λ way. way.items) found
        ≡ crowded_from (type_view declared.now ∷ types_view rules.now) way.now (type_view ty.now)) }
{
    if is_crowded(declared, rules, way) {
        return Ok(Some(Vec::from_slice(alloc, way)?));
    }
    crowded_inside(alloc, &ty.kind, declared, rules, way)
}

#[cycle(nodes)]
fn crowded_inside(
    alloc: Global,
    kind: &Kind,
    declared: &Ty,
    rules: &[&Ty],
    way: &[usize],
) -> Result<Option<Vec<usize>>, OutOfMemory>
    ensures { IfOk result (λ found. option_map (λ way. way.items) found
        ≡ crowded_inside (type_view declared.now ∷ types_view rules.now) way.now (kind_view kind.now)) }
{
    match kind {
        Kind::Sequence(comps) | Kind::Set(comps) | Kind::Choice(comps) => {
            crowded_among(alloc, comps, declared, rules, way)
        }
        Kind::SequenceOf(element) | Kind::SetOf(element) => {
            crowded_at(alloc, element, declared, rules, 0, way)
        }
        _ => Ok(None),
    }
}

#[cycle(nodes)]
fn crowded_among(
    alloc: Global,
    comps: &[Comp],
    declared: &Ty,
    rules: &[&Ty],
    way: &[usize],
) -> Result<Option<Vec<usize>>, OutOfMemory>
    ensures { IfOk result (λ found. option_map (λ way. way.items) found
        ≡ crowded_among (type_view declared.now ∷ types_view rules.now) way.now 0
        (components_of (map component_view comps.now))) }
{
    for (place, comp) in comps.iter().enumerate() {
        let found = crowded_at(alloc, &comp.ty, declared, rules, place, way)?;
        if found.is_some() {
            return Ok(found);
        }
    }
    Ok(None)
}

/// The way to the first such node of a part, whose place goes to the end of the way, and of those inside it.
#[cycle(nodes)]
fn crowded_at(
    alloc: Global,
    ty: &Ty,
    declared: &Ty,
    rules: &[&Ty],
    place: usize,
    way: &[usize],
) -> Result<Option<Vec<usize>>, OutOfMemory>
    ensures { IfOk result (λ found. option_map (λ way. way.items) found
        ≡ crowded_at (type_view declared.now ∷ types_view rules.now) way.now place (type_view ty.now)) }
{
    let mut inner = Vec::from_slice(alloc, way)?;
    inner.push(place)?;
    crowded_from(alloc, ty, declared, rules, &inner)
}
