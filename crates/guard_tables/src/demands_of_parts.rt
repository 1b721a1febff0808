//! What the terms of a node ask of its parts, of all of them in one pass, and of its elements.
ghost use Rattle.std.specs.Prelude.{◌≡◌, ◌++◌, replicate, OnOk, IfOk};
ghost use Rattle.guard_tables.specs.OfParts.{each_in, each_of, within_in};
ghost use Rattle.guard_tables.specs.Lay.{added_if, is_sent, is_unsent};
ghost use Rattle.guard_tables.specs.inside.DemandViews.{slot_demands_view, atom_view, term_view, terms_view};
ghost use Rattle.guard_tables.specs.inside.DemandsOfParts.{part_asked, parts_asked, nothing_asked, with_term};
ghost use Rattle.guard_tables.specs.inside.DemandsOfParts.{changed_at, added_to_all, add_term, add_terms};

use crate::demands::{Atom, SlotDemand, Term};
use crate::slots::Slots;
use guard_model::OutOfMemory;
use std::alloc::Global;

/// What is asked of one part.
#[derive(Drop)]
pub(crate) struct PartDemands<'a> {
    /// What is asked of the part's value.
    pub demands: Vec<SlotDemand<'a>>,
    /// The slots that fail where the part isn't there.
    pub absent: Slots,
    /// The slots that fail where the part is there.
    pub present: Slots,
}

impl<'a> PartDemands<'a> {
    fn nothing(alloc: Global) -> PartDemands<'a>
        ensures { part_asked result ≡ nothing_asked }
    {
        PartDemands {
            demands: Vec::new(alloc),
            absent: Slots::none(),
            present: Slots::none(),
        }
    }

    /// Adds what one term more asks of the part at this place.
    fn receive(&mut self, exclusive: bool, place: usize, term: Term<'a>) -> Result<(), OutOfMemory>
        ensures demands { OnOk result (slot_demands_view self.new.demands.items
            ≡ slot_demands_view self.old.demands.items
            ++ within_in place term.entry.slots (atom_view term.entry.atom)) }
        ensures absent { OnOk result (self.new.absent
            ≡ added_if (is_sent place (atom_view term.entry.atom)) term.entry.slots self.old.absent) }
        ensures present { OnOk result (self.new.present
            ≡ added_if (is_unsent exclusive place (atom_view term.entry.atom)) term.entry.slots self.old.present) }
    {
        let slots = term.slots;
        match term.atom {
            Atom::Within(at, demand) => {
                if at == place {
                    self.demands.push(SlotDemand { slots, demand })?;
                }
                Ok(())
            }
            Atom::Sent(at) => {
                if at == place {
                    self.absent.add(&slots);
                } else if exclusive {
                    self.present.add(&slots);
                }
                Ok(())
            }
            Atom::Unsent(at) => {
                if at == place {
                    self.present.add(&slots);
                }
                Ok(())
            }
            _ => Ok(()),
        }
    }
}

/// What the terms ask of each of so many parts. `exclusive` says that only one of the parts is there, as of a CHOICE: a
/// term that asks for one of them then speaks of all others too.
pub(crate) fn demands_of_parts<'a>(
    alloc: Global,
    exclusive: bool,
    terms: &[Term<'a>],
    count: usize,
) -> Result<Vec<PartDemands<'a>>, OutOfMemory>
    ensures { IfOk result (λ parts. parts_asked parts.items
        ≡ add_terms exclusive (terms_view terms.now) (replicate count nothing_asked)) }
{
    let mut parts = nothing_asked(alloc, count)?;
    for term in terms {
        add_term(exclusive, *term, &mut parts)?;
    }
    Ok(parts)
}

fn nothing_asked<'a>(alloc: Global, count: usize) -> Result<Vec<PartDemands<'a>>, OutOfMemory>
    ensures { IfOk result (λ parts. parts_asked parts.items ≡ replicate count nothing_asked) }
{
    let mut parts = Vec::with_capacity(alloc, count)?;
    for _ in 0..count {
        parts.push(PartDemands::nothing(alloc))?;
    }
    Ok(parts)
}

fn add_term<'a>(
    exclusive: bool,
    term: Term<'a>,
    parts: &mut Vec<PartDemands<'a>>,
) -> Result<(), OutOfMemory>
    ensures { OnOk result (parts_asked parts.new.items
        ≡ add_term exclusive (term_view term.entry) (parts_asked parts.old.items)) }
{
    match term.atom {
        Atom::Within(place, _) => add_at(exclusive, place, term, parts),
        Atom::Unsent(place) => add_at(exclusive, place, term, parts),
        Atom::Sent(_) if exclusive => add_to_all(term, parts),
        Atom::Sent(place) => add_at(exclusive, place, term, parts),
        _ => Ok(()),
    }
}

/// Adds what a term asks to the part at this place, if there is one.
fn add_at<'a>(
    exclusive: bool,
    place: usize,
    term: Term<'a>,
    parts: &mut Vec<PartDemands<'a>>,
) -> Result<(), OutOfMemory>
    ensures { OnOk result (parts_asked parts.new.items
        ≡ changed_at place (with_term exclusive place (term_view term.entry)) (parts_asked parts.old.items)) }
{
    if place < parts.len() {
        parts[place].receive(exclusive, place, term)?;
    }
    Ok(())
}

fn add_to_all<'a>(term: Term<'a>, parts: &mut Vec<PartDemands<'a>>) -> Result<(), OutOfMemory>
    ensures { OnOk result (parts_asked parts.new.items
        ≡ added_to_all (term_view term.entry) (parts_asked parts.old.items)) }
{
    let mut left = parts.len();
    while left > 0 {
        left -= 1;
        add_at(true, left, term, parts)?;
    }
    Ok(())
}

/// What is asked of each element.
pub(crate) fn each_of<'a>(
    alloc: Global,
    terms: &[Term<'a>],
) -> Result<Vec<SlotDemand<'a>>, OutOfMemory>
    ensures { IfOk result (λ demands. slot_demands_view demands.items ≡ each_of (terms_view terms.now)) }
{
    let mut demands = Vec::new(alloc);
    for term in terms {
        push_each(&term.atom, term.slots, &mut demands)?;
    }
    Ok(demands)
}

fn push_each<'a>(
    atom: &Atom<'a>,
    slots: Slots,
    demands: &mut Vec<SlotDemand<'a>>,
) -> Result<(), OutOfMemory>
    ensures { OnOk result (slot_demands_view demands.new.items ≡ slot_demands_view demands.old.items
        ++ each_in slots (atom_view atom.now)) }
{
    match atom {
        Atom::Each(demand) => {
            let demand = *demand;
            demands.push(SlotDemand { slots, demand })?;
            Ok(())
        }
        _ => Ok(()),
    }
}
