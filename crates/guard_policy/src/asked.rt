//! What types and constraints ask of values, and of the components of values, as far as no union and no exception says
//! so. `guard_tables` takes types and constraints apart as well, but into terms with slots of their own, for which a
//! node has to have room. What is asked for here needs no slots.
ghost use Rattle.std.specs.Prelude.{◌≡◌, ◌++◌, map, option_map, OnOk, IfOk};
ghost use Rattle.guard_model.specs.Components.{components_in, component_at};
ghost use Rattle.guard_model.specs.TypeView.{type_view, kind_view, component_view, constraint_view, element_view};
ghost use Rattle.guard_model.specs.TypeView.{constraints_of, part_view, parts_of};
ghost use Rattle.guard_policy.specs.Barren.{own_part, type_within, within, element_within, all_within, parts_within};
ghost use Rattle.guard_policy.specs.Barren.{part_within, demand_within, demands_within};
ghost use Rattle.guard_policy.specs.inside.Asked.{demands_view};
ghost use Rattle.guard_tables.specs.inside.DemandViews.{demand_view};

use guard_eval::kind_at;
use guard_model::{Comp, Cons, Kind, OutOfMemory, Part, Rule, Ty};
use guard_tables::Demand;
use std::alloc::Global;

/// What is asked of the component at this place, from 0, of a value of which all this is asked. OutOfMemory is the only
/// error.
pub(crate) fn demands_within<'a>(
    alloc: Global,
    place: usize,
    demands: &[Demand<'a>],
) -> Result<Vec<Demand<'a>>, OutOfMemory>
    ensures { IfOk result (λ inner. demands_view inner.items ≡ demands_within place (demands_view demands.now)) }
{
    let mut inner = Vec::new(alloc);
    for demand in demands {
        push_within_demand(place, *demand, &mut inner)?;
    }
    Ok(inner)
}

fn push_within_demand<'a>(
    place: usize,
    demand: Demand<'a>,
    inner: &mut Vec<Demand<'a>>,
) -> Result<(), OutOfMemory>
    ensures { OnOk result (demands_view inner.new.items
        ≡ demands_view inner.old.items ++ demand_within place (demand_view demand.entry)) }
{
    match demand {
        Demand::Type(ty) => push_within_type(ty, place, inner),
        Demand::Constraint(kind, constraint) => push_within(constraint, place, kind, inner),
    }
}

#[cycle(within)]
fn push_within_type<'a>(
    ty: &'a Ty,
    place: usize,
    inner: &mut Vec<Demand<'a>>,
) -> Result<(), OutOfMemory>
    ensures { OnOk result (demands_view inner.new.items
        ≡ demands_view inner.old.items ++ type_within place (type_view ty.now)) }
{
    push_part(place, &ty.kind, inner)?;
    push_within_all(&ty.cons, place, &ty.kind, inner)
}

/// Adds what the type of the component itself asks.
fn push_part<'a>(
    place: usize,
    kind: &'a Kind,
    inner: &mut Vec<Demand<'a>>,
) -> Result<(), OutOfMemory>
    ensures { OnOk result (demands_view inner.new.items
        ≡ demands_view inner.old.items ++ own_part (component_at place (components_in (kind_view kind.now)))) }
{
    if let Some(component) = component(kind, place) {
        inner.push(Demand::Type(&component.ty))?;
    }
    Ok(())
}

#[cycle(within)]
fn push_within_all<'a>(
    constraints: &'a [Cons],
    place: usize,
    kind: &'a Kind,
    inner: &mut Vec<Demand<'a>>,
) -> Result<(), OutOfMemory>
    ensures { OnOk result (demands_view inner.new.items
        ≡ demands_view inner.old.items
        ++ all_within place (kind_view kind.now) (constraints_of (map constraint_view constraints.now))) }
{
    for constraint in constraints {
        push_within(constraint, place, kind, inner)?;
    }
    Ok(())
}

#[cycle(within)]
fn push_within<'a>(
    constraint: &'a Cons,
    place: usize,
    kind: &'a Kind,
    inner: &mut Vec<Demand<'a>>,
) -> Result<(), OutOfMemory>
    ensures { OnOk result (demands_view inner.new.items
        ≡ demands_view inner.old.items ++ within place (kind_view kind.now) (constraint_view constraint.now)) }
{
    push_within_rule(&constraint.rule, place, kind, inner)
}

#[cycle(within)]
fn push_within_rule<'a>(
    rule: &'a Rule,
    place: usize,
    kind: &'a Kind,
    inner: &mut Vec<Demand<'a>>,
) -> Result<(), OutOfMemory>
    ensures { OnOk result (demands_view inner.new.items
        ≡ demands_view inner.old.items ++ element_within place (kind_view kind.now) (element_view rule.now)) }
{
    match rule {
        Rule::Inside(ty) => push_within_type(ty, place, inner),
        Rule::Parts(_, parts) => push_within_parts(place, kind, parts, inner),
        Rule::Both(constraints) => push_within_all(constraints, place, kind, inner),
        Rule::Minus(kept, _) => push_within(kept, place, kind, inner),
        Rule::One(_) => Ok(()),
        Rule::Range(_, _) => Ok(()),
        Rule::Size(_) => Ok(()),
        Rule::Alphabet(_) => Ok(()),
        Rule::Each(_) => Ok(()),
        Rule::Any(_) => Ok(()),
        Rule::Other(_) => Ok(()),
    }
}

/// Adds what the listed parts of WITH COMPONENTS say of the component.
fn push_within_parts<'a>(
    place: usize,
    kind: &'a Kind,
    parts: &'a [Part],
    inner: &mut Vec<Demand<'a>>,
) -> Result<(), OutOfMemory>
    ensures { OnOk result (demands_view inner.new.items
        ≡ demands_view inner.old.items
        ++ parts_within place (kind_view kind.now) (parts_of (map part_view parts.now))) }
{
    for part in parts {
        push_within_part(place, kind, part, inner)?;
    }
    Ok(())
}

fn push_within_part<'a>(
    place: usize,
    kind: &'a Kind,
    part: &'a Part,
    inner: &mut Vec<Demand<'a>>,
) -> Result<(), OutOfMemory>
    ensures { OnOk result (demands_view inner.new.items
        ≡ demands_view inner.old.items
        ++ part_within place (kind_view kind.now) (part_view part.now).place (part_view part.now).within) }
{
    match &part.cons {
        Some(constraint) if usize::from(part.at) == place => {
            inner.push(Demand::Constraint(kind_at(kind, part.at), constraint))?;
            Ok(())
        }
        _ => Ok(()),
    }
}

/// The component or alternative at this place, from 0; None where there is none.
fn component(kind: &Kind, place: usize) -> Option<&Comp>
    ensures { option_map (λ c. component_view c.now) result ≡ component_at place (components_in (kind_view kind.now)) }
{
    kind.components().get(place)
}
