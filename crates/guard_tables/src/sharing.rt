//! The types of a table, each once, however many rules have it.
ghost use Rattle.std.specs.Prelude.{◌≡◌, ◌≤◌, ◌∷◌, [], length, IfOk};
ghost use Rattle.guard_model.specs.TypeView.{type_view};
ghost use Rattle.guard_tables.specs.Demands.{by_type};
ghost use Rattle.guard_tables.specs.OfParts.{slot_demand};
ghost use Rattle.guard_tables.specs.Tables.{types_view, most_rules};
ghost use Rattle.guard_tables.specs.inside.DemandViews.{slot_demands_view};
ghost use Rattle.guard_tables.specs.inside.Sharing.{place_of, shared, places_of, slots_for, demands_by, Takes};

use crate::demands::{Demand, SlotDemand};
use crate::slots::Slots;
use guard_model::{OutOfMemory, Ty};
use std::alloc::Global;

/// The types beside the declared one, each once, and the place of each rule's type: 0 is the declared one's.
#[derive(Drop)]
pub(crate) struct Sharing<'a> {
    pub others: Vec<&'a Ty>,
    pub places: Vec<usize>,
}

/// The types of the rules beside the declared one, each once, and which of them each rule has.
pub(crate) fn share<'a>(
    alloc: Global,
    declared: &Ty,
    rules: &[&'a Ty],
) -> Result<Sharing<'a>, OutOfMemory>
    ensures others { IfOk result (λ s. type_view declared.now ∷ types_view s.others.items
        ≡ shared (type_view declared.now ∷ []) (types_view rules.now)) }
    ensures places { IfOk result (λ s. s.places.items
        ≡ places_of (type_view declared.now ∷ []) (types_view rules.now)) }
{
    let mut sharing = Sharing {
        others: Vec::new(alloc),
        places: Vec::new(alloc),
    };
    for rule in rules {
        sharing = with_rule(sharing, declared, rule)?;
    }
    Ok(sharing)
}

/// The types with those of one rule more.
fn with_rule<'a>(
    sharing: Sharing<'a>,
    declared: &Ty,
    rule: &'a Ty,
) -> Result<Sharing<'a>, OutOfMemory>
    ensures { IfOk result (λ s. Takes (type_view declared.now) (type_view rule.now)
        (types_view sharing.entry.others.items) (types_view s.others.items) sharing.entry.places.items s.places.items) }
{
    let mut others = sharing.others;
    let mut places = sharing.places;
    let place = place_of(declared, &others, rule);
    if place > others.len() {
        others.push(rule)?;
    }
    places.push(place)?;
    Ok(Sharing { others, places })
}

/// The place of the first that is this type; where there is none, the place after the last.
fn place_of(declared: &Ty, others: &[&Ty], ty: &Ty) -> usize
    ensures { result ≡ place_of (type_view declared.now ∷ types_view others.now) (type_view ty.now) }
{
    if declared.same(ty) {
        return 0;
    }
    1 + place_among(others, ty)
}

fn place_among(types: &[&Ty], ty: &Ty) -> usize
    ensures result { result ≡ place_of (types_view types.now) (type_view ty.now) }
    ensures within { result ≤ length types.now }
{
    for (place, other) in types.iter().enumerate() {
        if other.same(ty) {
            return place;
        }
    }
    types.len()
}

// ---- what they ask

/// The demands of a table: membership in each of its types, with the slots of all rules that have the type. Condition:
/// there are at most 255 rules.
pub(crate) fn demands_of<'a>(
    alloc: Global,
    declared: &'a Ty,
    others: &[&'a Ty],
    places: &[usize],
) -> Result<Vec<SlotDemand<'a>>, OutOfMemory>
    requires { length places.now ≤ most_rules }
    ensures { IfOk result (λ demands. slot_demands_view demands.items
        ≡ demands_by 0 (type_view declared.now ∷ types_view others.now) (0 ∷ places.now)) }
{
    let mut demands = Vec::new(alloc);
    demands.push(membership(declared_slots(places), declared))?;
    for (place, other) in others.iter().enumerate() {
        demands.push(membership(slots_of(place + 1, places), other))?;
    }
    Ok(demands)
}

fn membership(slots: Slots, ty: &Ty) -> SlotDemand<'_>
    ensures { slot_demands_view (result ∷ []) ≡ slot_demand slots (by_type (type_view ty.now)) ∷ [] }
{
    SlotDemand {
        slots,
        demand: Demand::Type(ty),
    }
}

/// The slots of the declared type: its own, and those of the rules that have it too.
fn declared_slots(places: &[usize]) -> Slots
    requires { length places.now ≤ most_rules }
    ensures { result ≡ slots_for 0 0 (0 ∷ places.now) }
{
    let mut slots = slots_of(0, places);
    slots.add(&Slots::only(0));
    slots
}

/// The slots of the rules that have the type at this place.
fn slots_of(at: usize, places: &[usize]) -> Slots
    requires { length places.now ≤ most_rules }
    ensures { result ≡ slots_for at 1 places.now }
{
    let mut slots = Slots::none();
    let mut left = places.len();
    while left > 0 {
        left -= 1;
        if places[left] == at {
            slots.add(&Slots::only(left as u8 + 1));
        }
    }
    slots
}
