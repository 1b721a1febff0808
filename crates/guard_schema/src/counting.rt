//! How many constraints, values and contained types a type and a value hold, counted no further than one above the
//! limit.
ghost use Rattle.std.specs.Prelude.{◌≡◌, ◌+◌, ◌∷◌, [], min, map, option_map};
ghost use Rattle.guard_model.specs.TypeView as model;
ghost use Rattle.guard_model.specs.ValueView.{value_view, fields_view, items_view};
ghost use Rattle.guard_schema.specs.Counting as counting;
ghost use Rattle.guard_schema.specs.Pairs.{built_view};

use guard_model::{Comp, Cons, Kind, Part, Presence, Rule, Ty, Value};
use guard_tagging::nodes;
use std::sync::Arc;

/// One more than may be held.
const TOO_MUCH: usize = 100_001;

/// What is held with a definition of this type and value, after what is held before it.
pub fn held_by(before: usize, ty: &Ty, value: &Option<Arc<Value>>) -> usize
    ensures { result ≡ min (before + counting.held_by (built_view ty.now value.now)) 100001 }
{
    let so_far = held(before, ty);
    match value {
        None => so_far,
        Some(value) => value_nodes(so_far, value),
    }
}

/// One node more.
fn one_more(so_far: usize) -> usize
    ensures { result ≡ min (so_far + 1) 100001 }
{
    so_far.min(TOO_MUCH - 1) + 1
}

// ---- types and their constraints

#[cycle(held)]
fn held(so_far: usize, ty: &Ty) -> usize
    ensures { result ≡ min (so_far + counting.held (model.type_view ty.now)) 100001 }
{
    if so_far >= TOO_MUCH {
        return TOO_MUCH;
    }
    let so_far = held_in_kind(so_far, &ty.kind);
    constraint_nodes(so_far, &ty.cons)
}

#[cycle(held)]
fn held_in_kind(so_far: usize, kind: &Kind) -> usize
    ensures { result ≡ min (so_far + counting.held_in_kind (model.kind_view kind.now)) 100001 }
{
    match kind {
        Kind::Sequence(comps) | Kind::Set(comps) | Kind::Choice(comps) => {
            held_in_components(so_far, comps)
        }
        Kind::SequenceOf(element) | Kind::SetOf(element) => held(so_far, element),
        _ => so_far.min(TOO_MUCH),
    }
}

#[cycle(held)]
fn held_in_components(before: usize, comps: &[Comp]) -> usize
    ensures { result
        ≡ min (before + counting.held_in_components (model.components_of (map model.component_view comps.now))) 100001 }
{
    let mut so_far = before.min(TOO_MUCH);
    for comp in comps {
        so_far = held(so_far, &comp.ty);
        so_far = nodes_of_presence(so_far, &comp.presence);
    }
    so_far
}

fn nodes_of_presence(so_far: usize, presence: &Presence) -> usize
    ensures { result ≡ min (so_far + counting.nodes_of_presence (model.presence_view presence.now)) 100001 }
{
    match presence {
        Presence::Default(value) => value_nodes(so_far, value),
        _ => so_far.min(TOO_MUCH),
    }
}

#[cycle(held)]
fn constraint_nodes(before: usize, all: &[Cons]) -> usize
    ensures { result
        ≡ min (before + counting.constraint_nodes (model.constraints_of (map model.constraint_view all.now))) 100001 }
{
    let mut so_far = before.min(TOO_MUCH);
    for cons in all {
        so_far = nodes_of_constraint(so_far, cons);
    }
    so_far
}

#[cycle(held)]
fn nodes_of_constraint(so_far: usize, cons: &Cons) -> usize
    ensures { result ≡ min (so_far + counting.nodes_of_constraint (model.constraint_view cons.now)) 100001 }
{
    if so_far >= TOO_MUCH {
        return TOO_MUCH;
    }
    nodes_of_rule(one_more(so_far), &cons.rule)
}

#[cycle(held)]
fn nodes_of_rule(so_far: usize, rule: &Rule) -> usize
    ensures { result ≡ min (so_far + counting.nodes_of_element (model.element_view rule.now)) 100001 }
{
    match rule {
        Rule::One(value) => value_nodes(so_far, value),
        Rule::Inside(ty) => held(nodes(ty, so_far), ty),
        Rule::Range(_, _) => so_far.min(TOO_MUCH),
        Rule::Size(inner) => nodes_of_constraint(so_far, inner),
        Rule::Alphabet(_) => so_far.min(TOO_MUCH),
        Rule::Each(inner) => nodes_of_constraint(so_far, inner),
        Rule::Parts(_, parts) => nodes_of_parts(so_far, parts),
        Rule::Any(all) => constraint_nodes(so_far, all),
        Rule::Both(all) => constraint_nodes(so_far, all),
        Rule::Minus(first, second) => {
            let so_far = nodes_of_constraint(so_far, first);
            nodes_of_constraint(so_far, second)
        }
        Rule::Other(inner) => nodes_of_constraint(so_far, inner),
    }
}

#[cycle(held)]
fn nodes_of_parts(before: usize, parts: &[Part]) -> usize
    ensures { result ≡ min (before + counting.nodes_of_parts (model.parts_of (map model.part_view parts.now))) 100001 }
{
    let mut so_far = before.min(TOO_MUCH);
    for part in parts {
        so_far = nodes_of_part(so_far, part);
    }
    so_far
}

#[cycle(held)]
fn nodes_of_part(so_far: usize, part: &Part) -> usize
    ensures { result ≡ min (so_far + counting.nodes_of_parts (model.parts_of (model.part_view part.now ∷ []))) 100001 }
{
    match &part.cons {
        Some(cons) => nodes_of_constraint(so_far, cons),
        None => so_far.min(TOO_MUCH),
    }
}

// ---- values

#[cycle(values)]
fn value_nodes(so_far: usize, value: &Value) -> usize
    ensures { result ≡ min (so_far + counting.value_nodes (value_view value.now)) 100001 }
{
    if so_far >= TOO_MUCH {
        return TOO_MUCH;
    }
    let so_far = one_more(so_far);
    match value {
        Value::Fields(fields) => nodes_of_fields(so_far, fields),
        Value::Items(items) => nodes_of_items(so_far, items),
        Value::Chosen(_, chosen) => value_nodes(so_far, chosen),
        _ => so_far,
    }
}

#[cycle(values)]
fn nodes_of_fields(before: usize, fields: &[Arc<Option<Value>>]) -> usize
    ensures { result ≡ min (before + counting.nodes_of_fields (fields_view fields.now)) 100001 }
{
    let mut so_far = before.min(TOO_MUCH);
    for field in fields {
        if let Some(value) = field.as_ref() {
            so_far = value_nodes(so_far, value);
        }
    }
    so_far
}

#[cycle(values)]
fn nodes_of_items(before: usize, items: &[Value]) -> usize
    ensures { result ≡ min (before + counting.nodes_of_items (items_view items.now)) 100001 }
{
    let mut so_far = before.min(TOO_MUCH);
    for item in items {
        so_far = value_nodes(so_far, item);
    }
    so_far
}
