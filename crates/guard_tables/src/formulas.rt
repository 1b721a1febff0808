//! What a demand comes to at a node: terms with its slots, and where they aren't all that it asks, formulas over what
//! fails in slots of the node's own.
ghost use Rattle.std.specs.Prelude.{◌≡◌, ◌<◌, ◌≤◌, ◌++◌, ◌∷◌, [], map, OnOk};
ghost use Rattle.guard_model.specs.TypeView.{type_view, kind_view, constraint_view, element_view, constraints_of};
ghost use Rattle.guard_tables.specs.Forms.{form, form_one, form_element, form_all, form_each};
ghost use Rattle.guard_tables.specs.Forms.{form_own, form_type, turned};
ghost use Rattle.guard_tables.specs.NodeViews.{form_view};
ghost use Rattle.guard_tables.specs.inside.DemandViews.{demand_view};
ghost use Rattle.guard_tables.specs.inside.FormViews.{formula_of};

use crate::demands::{Atom, Demand, Term, push};
use crate::form_trees::{all_of, own_form, unless};
use crate::node::Form;
use crate::parts::{is_scalar, push_kind, push_parts};
use crate::slots::Slots;
use guard_eval::element_kind;
use guard_model::{Cons, Kind, OutOfMemory, Rule, Ty};
use std::alloc::Global;

/// Terms at a node, and its next slot that is free.
#[derive(Drop)]
pub(crate) struct Tests<'a> {
    pub terms: Vec<Term<'a>>,
    pub next: usize,
}

/// Adds the terms of a demand that has these slots, and the formulas where it is no conjunction. Condition: the node
/// has room for the slots that this takes, of which there are 256.
pub(crate) fn form<'a>(
    alloc: Global,
    demand: Demand<'a>,
    slots: Slots,
    tests: &mut Tests<'a>,
    forms: &mut Vec<Form>,
) -> Result<(), OutOfMemory>
    requires { (form slots (demand_view demand) (formula_of tests.now forms.now.items)).next ≤ 256 }
    ensures { OnOk result (formula_of tests.new forms.new.items
        ≡ form slots (demand_view demand.entry) (formula_of tests.old forms.old.items)) }
{
    match demand {
        Demand::Type(ty) => form_type(alloc, ty, slots, tests, forms),
        Demand::Constraint(kind, constraint) => {
            form_one(alloc, constraint, kind, slots, tests, forms)
        }
    }
}

#[cycle(formulas)]
fn form_type<'a>(
    alloc: Global,
    ty: &'a Ty,
    slots: Slots,
    tests: &mut Tests<'a>,
    forms: &mut Vec<Form>,
) -> Result<(), OutOfMemory>
    requires { (form_type slots (type_view ty.now) (formula_of tests.now forms.now.items)).next ≤ 256 }
    ensures { OnOk result (formula_of tests.new forms.new.items
        ≡ form_type slots (type_view ty.now) (formula_of tests.old forms.old.items)) }
{
    form_all(alloc, &ty.cons, &ty.kind, slots, tests, forms)?;
    push_kind(&ty.kind, slots, &mut tests.terms)
}

/// Adds the terms and formulas of all these constraints, with the same slots.
#[cycle(formulas)]
fn form_all<'a>(
    alloc: Global,
    constraints: &'a [Cons],
    kind: &'a Kind,
    slots: Slots,
    tests: &mut Tests<'a>,
    forms: &mut Vec<Form>,
) -> Result<(), OutOfMemory>
    requires { (form_all slots (kind_view kind.now) (constraints_of (map constraint_view constraints.now))
        (formula_of tests.now forms.now.items)).next ≤ 256 }
    ensures { OnOk result (formula_of tests.new forms.new.items
        ≡ form_all slots (kind_view kind.now) (constraints_of (map constraint_view constraints.now))
        (formula_of tests.old forms.old.items)) }
{
    for constraint in constraints {
        form_one(alloc, constraint, kind, slots, tests, forms)?;
    }
    Ok(())
}

/// Adds the terms of each of these constraints with a slot of its own, as members of a union.
#[cycle(formulas)]
fn form_each<'a>(
    alloc: Global,
    constraints: &'a [Cons],
    kind: &'a Kind,
    tests: &mut Tests<'a>,
    forms: &mut Vec<Form>,
) -> Result<(), OutOfMemory>
    requires { (form_each (kind_view kind.now) (constraints_of (map constraint_view constraints.now))
        (formula_of tests.now forms.now.items)).next ≤ 256 }
    ensures { OnOk result (formula_of tests.new forms.new.items
        ≡ form_each (kind_view kind.now) (constraints_of (map constraint_view constraints.now))
        (formula_of tests.old forms.old.items)) }
{
    for constraint in constraints {
        form_own(alloc, constraint, kind, false, tests, forms)?;
    }
    Ok(())
}

/// Adds the terms of one constraint with a slot of its own, the first that is free. The constraint fails where that
/// slot has failed or the formulas say so; where the set is taken away, where it doesn't.
#[cycle(formulas)]
fn form_own<'a>(
    alloc: Global,
    constraint: &'a Cons,
    kind: &'a Kind,
    taken: bool,
    tests: &mut Tests<'a>,
    forms: &mut Vec<Form>,
) -> Result<(), OutOfMemory>
    requires { (form_own taken (kind_view kind.now) (constraint_view constraint.now)
        (formula_of tests.now forms.now.items)).next ≤ 256 }
    ensures { OnOk result (formula_of tests.new forms.new.items
        ≡ form_own taken (kind_view kind.now) (constraint_view constraint.now) (formula_of tests.old forms.old.items)) }
{
    let slot = slot_at(tests.next);
    tests.next += 1;
    let mut inner = Vec::new(alloc);
    form_one(
        alloc,
        constraint,
        kind,
        Slots::only(slot),
        tests,
        &mut inner,
    )?;
    let form = own_form(alloc, slot, inner)?;
    push_form(alloc, form, taken, forms)
}

#[cycle(formulas)]
fn form_one<'a>(
    alloc: Global,
    constraint: &'a Cons,
    kind: &'a Kind,
    slots: Slots,
    tests: &mut Tests<'a>,
    forms: &mut Vec<Form>,
) -> Result<(), OutOfMemory>
    requires { (form_one slots (kind_view kind.now) (constraint_view constraint.now)
        (formula_of tests.now forms.now.items)).next ≤ 256 }
    ensures { OnOk result (formula_of tests.new forms.new.items
        ≡ form_one slots (kind_view kind.now) (constraint_view constraint.now) (formula_of tests.old forms.old.items)) }
{
    if is_scalar(kind) {
        return push(&mut tests.terms, slots, Atom::Scalar(kind, constraint));
    }
    form_rule(alloc, &constraint.rule, kind, slots, tests, forms)
}

/// Adds the terms of a rule on a kind that isn't scalar. A range, which is on INTEGER alone, adds none.
#[cycle(formulas)]
fn form_rule<'a>(
    alloc: Global,
    rule: &'a Rule,
    kind: &'a Kind,
    slots: Slots,
    tests: &mut Tests<'a>,
    forms: &mut Vec<Form>,
) -> Result<(), OutOfMemory>
    requires { (form_element slots (kind_view kind.now) (element_view rule.now)
        (formula_of tests.now forms.now.items)).next ≤ 256 }
    ensures { OnOk result (formula_of tests.new forms.new.items
        ≡ form_element slots (kind_view kind.now) (element_view rule.now) (formula_of tests.old forms.old.items)) }
{
    match rule {
        Rule::One(value) => push(&mut tests.terms, slots, Atom::Equals(value)),
        Rule::Inside(ty) => form_type(alloc, ty, slots, tests, forms),
        Rule::Range(_, _) => Ok(()),
        Rule::Size(size) => push(&mut tests.terms, slots, Atom::Sized(size)),
        Rule::Alphabet(ranges) => push(&mut tests.terms, slots, Atom::Spelled(ranges)),
        Rule::Each(each) => {
            let demand = Demand::Constraint(element_kind(kind), each);
            push(&mut tests.terms, slots, Atom::Each(demand))
        }
        Rule::Parts(partial, parts) => {
            push_parts(parts, kind, *partial, slots, &mut tests.terms)
        }
        Rule::Any(constraints) => {
            let mut members = Vec::new(alloc);
            form_each(alloc, constraints, kind, tests, &mut members)?;
            let form = all_of(alloc, members)?;
            push_form(alloc, form, false, forms)
        }
        Rule::Both(constraints) => form_all(alloc, constraints, kind, slots, tests, forms),
        Rule::Minus(kept, taken) => {
            form_one(alloc, kept, kind, slots, tests, forms)?;
            form_own(alloc, taken, kind, true, tests, forms)
        }
        Rule::Other(other) => form_own(alloc, other, kind, true, tests, forms),
    }
}

fn push_form(
    alloc: Global,
    form: Form,
    taken: bool,
    forms: &mut Vec<Form>,
) -> Result<(), OutOfMemory>
    ensures { OnOk result (map form_view forms.new.items ≡ map form_view forms.old.items
        ++ turned taken (form_view form) ∷ []) }
{
    if taken {
        forms.push(unless(alloc, form)?)?;
    } else {
        forms.push(form)?;
    }
    Ok(())
}

/// The slot at this place.
pub(crate) fn slot_at(place: usize) -> u8
    requires { place < 256 }
    ensures { result ≡ place }
{
    place as u8
}
