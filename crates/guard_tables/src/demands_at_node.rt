//! All that is asked at a node: its terms, and where not all demands are conjunctions, formulas over its slots.
ghost use Rattle.std.specs.Prelude.{◌≡◌, ◌≤◌, [], length, map, IfOk};
ghost use Rattle.guard_tables.specs.Forms.{aside, conjoined, form, forms_from, forms_of, nothing_yet, own_form};
ghost use Rattle.guard_tables.specs.Slots.{only};
ghost use Rattle.guard_tables.specs.NodeViews.{form_view, implication_view};
ghost use Rattle.guard_tables.specs.inside.DemandViews.{slot_demands_view, demand_view, terms_view};
ghost use Rattle.guard_tables.specs.inside.FormViews.{formula_of, RoomFor};

use crate::demands::{Demand, SlotDemand, Term};
use crate::form_trees::own_form;
use crate::formulas::{Tests, form, slot_at};
use crate::node::{Form, Implication};
use crate::slots::Slots;
use guard_model::OutOfMemory;
use std::alloc::Global;

/// The terms of a node, and what its formulas imply; with these the slots of the terms are the node's own.
#[derive(Drop)]
pub(crate) struct Formulas<'a> {
    pub terms: Vec<Term<'a>>,
    pub implications: Vec<Implication>,
}

/// The terms and the formulas of a node of which all this is asked. Condition: 256 slots suffice for the terms of the
/// demands.
pub(crate) fn forms_of<'a>(
    alloc: Global,
    demands: &[SlotDemand<'a>],
) -> Result<Formulas<'a>, OutOfMemory>
    requires { RoomFor (slot_demands_view demands.now) }
    ensures terms { IfOk result (λ f. terms_view f.terms.items ≡ (forms_of (slot_demands_view demands.now)).terms) }
    ensures implications { IfOk result (λ f. map implication_view f.implications.items
        ≡ (forms_of (slot_demands_view demands.now)).implications) }
{
    let mut tests = nothing_yet(alloc, demands.len());
    let forms = conjoined(alloc, demands, &mut tests)?;
    if !forms.is_empty() {
        return forms_from(alloc, demands);
    }
    Ok(Formulas {
        terms: tests.terms,
        implications: Vec::new(alloc),
    })
}

/// No terms yet, and so many slots taken.
fn nothing_yet<'a>(alloc: Global, taken: usize) -> Tests<'a>
    ensures { formula_of result [] ≡ nothing_yet taken }
{
    Tests {
        terms: Vec::new(alloc),
        next: taken,
    }
}

/// The terms of all demands with their own slots, and the formulas of those that aren't conjunctions.
fn conjoined<'a>(
    alloc: Global,
    demands: &[SlotDemand<'a>],
    tests: &mut Tests<'a>,
) -> Result<Vec<Form>, OutOfMemory>
    requires { (conjoined (slot_demands_view demands.now) (formula_of tests.now [])).next ≤ 256 }
    ensures { IfOk result (λ ws. formula_of tests.new ws.items
        ≡ conjoined (slot_demands_view demands.now) (formula_of tests.old [])) }
{
    let mut forms = Vec::new(alloc);
    for slot_demand in demands {
        form(
            alloc,
            slot_demand.demand,
            slot_demand.slots,
            tests,
            &mut forms,
        )?;
    }
    Ok(forms)
}

/// The terms and formulas of the demands, each with a slot of the node's own.
fn forms_from<'a>(alloc: Global, demands: &[SlotDemand<'a>]) -> Result<Formulas<'a>, OutOfMemory>
    requires { (forms_from 0 (slot_demands_view demands.now) (nothing_yet (length demands.now))).next ≤ 256 }
    ensures terms { IfOk result (λ f. terms_view f.terms.items
        ≡ (forms_from 0 (slot_demands_view demands.now) (nothing_yet (length demands.now))).terms) }
    ensures implications { IfOk result (λ f. map implication_view f.implications.items
        ≡ (forms_from 0 (slot_demands_view demands.now) (nothing_yet (length demands.now))).implications) }
{
    let mut implications = Vec::new(alloc);
    let mut tests = nothing_yet(alloc, demands.len());
    for (place, slot_demand) in demands.iter().enumerate() {
        let where_failed = form_with(alloc, slot_demand.demand, slot_at(place), &mut tests)?;
        implications.push(Implication {
            slots: slot_demand.slots,
            where_failed,
        })?;
    }
    Ok(Formulas {
        terms: tests.terms,
        implications,
    })
}

/// Adds the terms of a demand that has this slot, and answers where it fails, by the slots of the node.
fn form_with<'a>(
    alloc: Global,
    demand: Demand<'a>,
    own: u8,
    tests: &mut Tests<'a>,
) -> Result<Form, OutOfMemory>
    requires { (form (only own) (demand_view demand) (formula_of tests.now [])).next ≤ 256 }
    ensures tests { IfOk result (λ w. formula_of tests.new []
        ≡ aside (form (only own) (demand_view demand.entry) (formula_of tests.old []))) }
    ensures form { IfOk result (λ w. form_view w
        ≡ own_form own (form (only own) (demand_view demand.entry) (formula_of tests.old [])).forms) }
{
    let mut forms = Vec::new(alloc);
    form(alloc, demand, Slots::only(own), tests, &mut forms)?;
    own_form(alloc, own, forms)
}
