//! What several WITH COMPONENTS that must all be passed say of a value's parts, gathered by places (X.680 51.8): each
//! value is then looked at once for each place, however many constraints there are.
ghost use Rattle.std.specs.Prelude.{◌≡◌, ◌<◌, true, false, IfOk, OnOk, length, map, if◌then◌else◌};
ghost use Rattle.std.specs.List.{list_all};
ghost use Rattle.guard_model.specs.AbstractValue.{AbstractValue};
ghost use Rattle.guard_model.specs.AbstractType.{AbstractKind};
ghost use Rattle.guard_model.specs.Components.{components_in};
ghost use Rattle.guard_model.specs.Counts.{component_count};
ghost use Rattle.guard_model.specs.TypeView.{kind_view, constraint_view, part_view, parts_of};
ghost use Rattle.guard_model.specs.ValueView.{value_view};
ghost use Rattle.guard_eval.specs.Presence.{kind_at, part_at, is_there as is_part_there, if_there, first_intruder};
ghost use Rattle.guard_eval.specs.inside.Together.{passes, values_view};
ghost use Rattle.guard_eval.specs.inside.PartsTogether.{Adds, meets, passes_part, passes_listed, passes_parts};
ghost use Rattle.guard_eval.specs.inside.PartsTogether.{each_place, is_placed_at, are_placed};
ghost use Rattle.std.specs.Option.{is_none};

use crate::presence::{is_as_said, is_ruled_out, is_there};
use guard_model::{Cons, Kind, OutOfMemory, Part, Value};
use std::alloc::Global;

/// What several WITH COMPONENTS demand together of the parts of a value.
#[derive(Drop)]
pub struct PartDemands<'c> {
    /// False where one of them names a component that the type doesn't have: then no value passes.
    pub possible: bool,
    /// For each component or alternative, in written order.
    pub places: Vec<PlaceDemand<'c>>,
}

/// What they demand of the component or alternative at one place.
#[derive(Drop)]
pub struct PlaceDemand<'c> {
    /// Whether a part may be there.
    pub there: bool,
    /// Whether it may be missing.
    pub absent: bool,
    /// What the part must pass where it is there.
    pub within: Vec<&'c Cons>,
}

/// What no constraint demands: all values meet it. It has a place for each component or alternative of the kind.
/// OutOfMemory is the only error.
pub fn no_demands<'c>(alloc: Global, kind: &Kind) -> Result<PartDemands<'c>, OutOfMemory>
    ensures met { IfOk result (λ demands. (any : AbstractKind) (v : AbstractValue) → meets demands any v ≡ true) }
    ensures places { IfOk result (λ demands.
        length demands.places.items ≡ component_count (components_in (kind_view kind.now))) }
{
    let mut places = Vec::new(alloc);
    for _ in kind.components() {
        places.push(PlaceDemand {
            there: true,
            absent: true,
            within: Vec::new(alloc),
        })?;
    }
    Ok(PartDemands {
        possible: true,
        places,
    })
}

/// Adds what one more WITH COMPONENTS demands, partial or not, on a type of this kind. Condition: there is a place for
/// each component or alternative of the kind. OutOfMemory is the only error.
pub fn add_parts<'c>(
    demands: &mut PartDemands<'c>,
    partial: bool,
    parts: &'c [Part],
    kind: &Kind,
) -> Result<(), OutOfMemory>
    requires places { length demands.old.places.items ≡ component_count (components_in (kind_view kind.now)) }
    ensures added { OnOk result (Adds demands.old demands.new (kind_view kind.now)
        (passes_parts (parts_of (map part_view parts.now)) partial (kind_view kind.now))) }
    ensures places { OnOk result (length demands.new.places.items ≡ length demands.old.places.items) }
{
    add_listed(demands, partial, parts, kind)?;
    if !partial {
        rule_out(demands, parts, kind);
    }
    Ok(())
}

/// Adds what is said of the listed parts.
fn add_listed<'c>(
    demands: &mut PartDemands<'c>,
    partial: bool,
    parts: &'c [Part],
    kind: &Kind,
) -> Result<(), OutOfMemory>
    requires places { length demands.old.places.items ≡ component_count (components_in (kind_view kind.now)) }
    ensures added { OnOk result (Adds demands.old demands.new (kind_view kind.now)
        (passes_listed (parts_of (map part_view parts.now)) partial (kind_view kind.now))) }
    ensures places { OnOk result (length demands.new.places.items ≡ length demands.old.places.items) }
{
    for part in parts {
        add_part(demands, partial, part, kind)?;
    }
    Ok(())
}

/// Adds what is said of one part: its presence, and its constraint if it has one.
fn add_part<'c>(
    demands: &mut PartDemands<'c>,
    partial: bool,
    part: &'c Part,
    kind: &Kind,
) -> Result<(), OutOfMemory>
    requires places { length demands.old.places.items ≡ component_count (components_in (kind_view kind.now)) }
    ensures added { OnOk result (Adds demands.old demands.new (kind_view kind.now)
        (passes_part (part_view part.now) partial (kind_view kind.now))) }
    ensures places { OnOk result (length demands.new.places.items ≡ length demands.old.places.items) }
{
    match kind.component(part.at) {
        None => {
            demands.possible = false;
            Ok(())
        }
        Some(comp) => {
            let may_be_there = is_as_said(partial, comp, part.word, true);
            let may_be_absent = is_as_said(partial, comp, part.word, false);
            let at = usize::from(part.at);
            narrow(demands, at, may_be_there, may_be_absent);
            match &part.cons {
                Some(cons) => add_within(demands, at, cons),
                None => Ok(()),
            }
        }
    }
}

/// Lets a part be there, or be missing, at this place only where this is also said so. Condition: the place exists.
fn narrow(demands: &mut PartDemands, at: usize, there: bool, absent: bool)
    requires place { at < length demands.old.places.items }
    ensures added { (kind : AbstractKind) → Adds demands.old demands.new kind
        (λ v. if is_part_there at v then there else absent) }
    ensures places { length demands.new.places.items ≡ length demands.old.places.items }
{
    let place = &mut demands.places[at];
    place.there = place.there && there;
    place.absent = place.absent && absent;
}

/// Has the part at this place pass this constraint too where it is there. Condition: the place exists.
fn add_within<'c>(
    demands: &mut PartDemands<'c>,
    at: usize,
    cons: &'c Cons,
) -> Result<(), OutOfMemory>
    requires place { at < length demands.old.places.items }
    ensures added { OnOk result ((kind : AbstractKind) → Adds demands.old demands.new kind
        (λ v. if_there (λ w. passes (kind_at at kind) w (constraint_view cons.now)) (part_at at v))) }
    ensures places { OnOk result (length demands.new.places.items ≡ length demands.old.places.items) }
{
    demands.places[at].within.push(cons)?;
    Ok(())
}

/// Lets no part be there at the places that a full list makes absent.
fn rule_out(demands: &mut PartDemands, parts: &[Part], kind: &Kind)
    requires places { length demands.old.places.items ≡ component_count (components_in (kind_view kind.now)) }
    ensures added { Adds demands.old demands.new (kind_view kind.now) (λ v. is_none
        (first_intruder false (kind_view kind.now) (parts_of (map part_view parts.now)) v)) }
    ensures places { length demands.new.places.items ≡ length demands.old.places.items }
{
    let comps = kind.components();
    for (place, comp) in comps.iter().enumerate() {
        if is_ruled_out(parts, kind, place, &comp.presence) {
            narrow(demands, place, false, true);
        }
    }
}

/// Whether the parts of each of the values are there, or missing, as is demanded.
pub fn all_are_placed(demands: &PartDemands, values: &[&Value]) -> bool
    ensures { result ≡ list_all (are_placed demands.now) (values_view values.now) }
{
    for value in values {
        if !are_placed(demands, value) {
            return false;
        }
    }
    true
}

fn are_placed(demands: &PartDemands, value: &Value) -> bool
    ensures { result ≡ are_placed demands.now (value_view value.now) }
{
    demands.possible && are_placed_at(&demands.places, value)
}

fn are_placed_at(places: &[PlaceDemand], value: &Value) -> bool
    ensures { result ≡ each_place (is_placed_at (value_view value.now)) 0 places.now }
{
    for (place, demand) in places.iter().enumerate() {
        if !is_placed_at(demand, value, place) {
            return false;
        }
    }
    true
}

fn is_placed_at(demand: &PlaceDemand, value: &Value, place: usize) -> bool
    ensures { result ≡ is_placed_at (value_view value.now) place demand.now }
{
    if is_there(value, place) {
        demand.there
    } else {
        demand.absent
    }
}
