//! The conditions that types and constraints lay on the node at the end of a way. They are counted up to the greatest
//! number of a usize, which is far more than a node may have.
ghost use Rattle.std.specs.Prelude.{◌≡◌, ◌∷◌, map};
ghost use Rattle.guard_model.specs.TypeView.{type_view, kind_view, component_view, constraint_view, element_view};
ghost use Rattle.guard_model.specs.TypeView.{part_view, components_of, constraints_of, parts_of};
ghost use Rattle.guard_tables.specs.Conditions.{conditions, counted, is_crowded, of_type, of_kind, of_component};
ghost use Rattle.guard_tables.specs.Conditions.{of_constraints, of_constraint, of_element, of_parts};
ghost use Rattle.guard_tables.specs.Tables.{types_view};
ghost use Rattle.guard_tables.specs.inside.Counting.{of_part, of_each, of_listed};

use guard_model::{Comp, Cons, Kind, Part, Rule, Ty};

/// How many conditions a node may have.
const MOST_CONDITIONS: usize = 256;

/// Whether all types together lay more than 256 conditions on the node.
#[tactic(auto, using(crate::proofs::Counts::is_above))]
pub(crate) fn is_crowded(declared: &Ty, rules: &[&Ty], way: &[usize]) -> bool
    ensures { result ≡ is_crowded (type_view declared.now ∷ types_view rules.now) way.now }
{
    conditions_at(declared, rules, way) > MOST_CONDITIONS
}

/// How many conditions all types together lay on the node at the end of this way, a way of `crowded_node`; never more
/// than the greatest number of a usize. On a node that no type has there are none.
pub fn conditions_at(declared: &Ty, rules: &[&Ty], way: &[usize]) -> usize
    ensures { result ≡ counted (conditions (type_view declared.now ∷ types_view rules.now) way.now) }
{
    of_type(declared, way).saturating_add(of_types(rules, way))
}

fn of_types(types: &[&Ty], way: &[usize]) -> usize
    ensures { result ≡ counted (conditions (types_view types.now) way.now) }
{
    let mut count: usize = 0;
    for ty in types {
        count = count.saturating_add(of_type(ty, way));
    }
    count
}

#[cycle(conditions)]
fn of_type(ty: &Ty, way: &[usize]) -> usize
    ensures { result ≡ counted (of_type (type_view ty.now) way.now) }
{
    of_kind(&ty.kind, way).saturating_add(of_constraints(&ty.cons, way))
}

/// How many conditions a type of this kind lays at the end of the way: one where the way is empty, else those of the
/// part's type to which it goes on.
#[cycle(conditions)]
fn of_kind(kind: &Kind, way: &[usize]) -> usize
    ensures { result ≡ counted (of_kind (kind_view kind.now) way.now) }
{
    let [place, rest @ ..] = way else {
        return 1;
    };
    match kind {
        Kind::Sequence(comps) | Kind::Set(comps) | Kind::Choice(comps) => {
            of_component(comps, *place, rest)
        }
        Kind::SequenceOf(element) | Kind::SetOf(element) => of_type(element, rest),
        _ => 0,
    }
}

/// How many conditions the component or alternative at this place lays at the end of the way.
#[cycle(conditions)]
fn of_component(comps: &[Comp], place: usize, way: &[usize]) -> usize
    ensures { result ≡ counted (of_component (components_of (map component_view comps.now)) place way.now) }
{
    match comps.get(place) {
        Some(comp) => of_type(&comp.ty, way),
        None => 0,
    }
}

#[cycle(conditions)]
fn of_constraints(constraints: &[Cons], way: &[usize]) -> usize
    ensures { result ≡ counted (of_constraints (constraints_of (map constraint_view constraints.now)) way.now) }
{
    let mut count: usize = 0;
    for constraint in constraints {
        count = count.saturating_add(of_constraint(constraint, way));
    }
    count
}

/// How many conditions a constraint lays at the end of the way: one of the constraint itself, and those of what is in
/// it.
#[cycle(conditions)]
fn of_constraint(constraint: &Cons, way: &[usize]) -> usize
    ensures { result ≡ counted (of_constraint (constraint_view constraint.now) way.now) }
{
    let own = usize::from(way.is_empty());
    own.saturating_add(of_rule(&constraint.rule, way))
}

/// How many conditions a rule lays at the end of the way. Inside SIZE are conditions on a number, which don't count.
#[cycle(conditions)]
fn of_rule(rule: &Rule, way: &[usize]) -> usize
    ensures { result ≡ counted (of_element (element_view rule.now) way.now) }
{
    match rule {
        Rule::Inside(ty) => of_type(ty, way),
        Rule::Each(each) => of_each(each, way),
        Rule::Parts(_, parts) => of_listed(parts, way),
        Rule::Any(constraints) | Rule::Both(constraints) => of_constraints(constraints, way),
        Rule::Minus(kept, taken) => {
            of_constraint(kept, way).saturating_add(of_constraint(taken, way))
        }
        Rule::Other(other) => of_constraint(other, way),
        _ => 0,
    }
}

#[cycle(conditions)]
fn of_each(each: &Cons, way: &[usize]) -> usize
    ensures { result ≡ counted (of_each (constraint_view each.now) way.now) }
{
    match way {
        [_, rest @ ..] => of_constraint(each, rest),
        [] => 0,
    }
}

#[cycle(conditions)]
fn of_listed(parts: &[Part], way: &[usize]) -> usize
    ensures { result ≡ counted (of_listed (parts_of (map part_view parts.now)) way.now) }
{
    match way {
        [place, rest @ ..] => of_parts(parts, *place, rest),
        [] => 0,
    }
}

#[cycle(conditions)]
fn of_parts(parts: &[Part], place: usize, way: &[usize]) -> usize
    ensures { result ≡ counted (of_parts (parts_of (map part_view parts.now)) place way.now) }
{
    let mut count: usize = 0;
    for part in parts {
        count = count.saturating_add(of_part(part, place, way));
    }
    count
}

/// How many conditions a part of WITH COMPONENTS lays at the end of the way, where it is the one at this place; else
/// none.
#[cycle(conditions)]
fn of_part(part: &Part, place: usize, way: &[usize]) -> usize
    ensures { result ≡ counted (of_part (part_view part.now) place way.now) }
{
    match &part.cons {
        Some(constraint) if usize::from(part.at) == place => of_constraint(constraint, way),
        _ => 0,
    }
}
