//! Conditions, defaults and formulas: what few elements need.
ghost use Rattle.std.specs.Prelude.{◌≡◌, map, option_map};
ghost use Rattle.guard_integers.specs.Integers.{holds};
ghost use Rattle.guard_model.specs.Same.{same_numbers};
ghost use Rattle.guard_tables.specs.Formulas.{implied, fails_where};
ghost use Rattle.guard_tables.specs.NodeViews.{form_view, implication_view};
ghost use Rattle.guard_tables.specs.Marking.{some_passes};
ghost use Rattle.guard_tables.specs.Slots.{has};
ghost use Rattle.guard_tables.specs.TableNodes.{is_default};

use guard_integers::IntSet;
use guard_tables::{Form, Implication, Slots};

/// Whether contents are those of the default, where there is one.
pub fn is_default(default: &Option<Vec<u8>>, inside: &[u8]) -> bool
    ensures { result ≡ is_default (option_map (λ v. v.items) default.now) inside.now }
{
    match default {
        Some(default) => are_same(default, inside),
        None => false,
    }
}

pub fn are_same(octets: &[u8], others: &[u8]) -> bool
    ensures { result ≡ same_numbers octets.now others.now }
{
    octets == others
}

/// Whether there is a number, and it is one of the set.
pub fn has_one(set: &IntSet, number: Option<i128>) -> bool
    ensures { result ≡ some_passes (holds set.now) number }
{
    match number {
        Some(number) => set.has(number),
        None => false,
    }
}

/// Adds the slots that fail outside by formulas over the slots that have failed inside.
pub fn add_implied(implications: &[Implication], inner: &Slots, failed: &mut Slots)
    ensures { failed.new ≡ implied (map implication_view implications.now) inner.now failed.old }
{
    for implication in implications {
        if fails(&implication.where_failed, inner) {
            failed.add(&implication.slots);
        }
    }
}

fn fails(form: &Form, inner: &Slots) -> bool
    ensures { result ≡ fails_where (form_view form.now) (has inner.now) }
{
    match form {
        Form::Never => false,
        Form::Always => true,
        Form::Slot(slot) => inner.has(*slot),
        Form::Both(a, b) => fails(a, inner) && fails(b, inner),
        Form::Either(a, b) => fails(a, inner) || fails(b, inner),
        Form::Unless(a) => !fails(a, inner),
    }
}
