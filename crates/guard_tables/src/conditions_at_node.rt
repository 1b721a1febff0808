//! The conditions of a node: what is asked there of the value itself.
ghost use Rattle.std.specs.Prelude.{◌≡◌, ◌++◌, ℤ, true, false, ◌&&◌, ◌||◌, map, option_map};
ghost use Rattle.std.specs.Prelude.{option_to_list, IsTrue, IfOk, OnOk};
ghost use Rattle.std.specs.Ordering.{int_eq};
ghost use Rattle.guard_integers.specs.Integers.{some_holds};
ghost use Rattle.guard_model.specs.AbstractType as type;
ghost use Rattle.guard_model.specs.AbstractValue as abstract;
ghost use Rattle.guard_model.specs.Limits.{fits_128_bits};
ghost use Rattle.guard_model.specs.TypeView.{kind_view, named_view, constraint_view};
ghost use Rattle.guard_model.specs.ValueView.{value_view};
ghost use Rattle.guard_der.specs.Der.{contents_octets};
ghost use Rattle.guard_der.specs.Fits.{fits_kind};
ghost use Rattle.guard_model.specs.NamedLists.{is_item};
ghost use Rattle.guard_eval.specs.Member.{holds};
ghost use Rattle.guard_tables.specs.Apt.{IsApt, Speaks, AllSpeak};
ghost use Rattle.guard_tables.specs.Demands.{by_constraint};
ghost use Rattle.guard_tables.specs.Lay.{truth_tests, scalar_tests, stored_test, tests_of};
ghost use Rattle.guard_tables.specs.Lay.{conditions_in, conditions_of};
ghost use Rattle.guard_tables.specs.NodeViews.{test_view, condition_view};
ghost use Rattle.guard_tables.specs.Plan.{numbers};
ghost use Rattle.guard_tables.specs.inside.DemandViews.{atom_view, terms_view};

use crate::conditions_list::Conditions;
use crate::demands::{Atom, Demand, Term};
use crate::encoded::if_short;
use crate::node::{Condition, Test};
use crate::sides::is_met;
use crate::simple_tests::{no_value, number_test, size_test, spelling_test};
use crate::slots::Slots;
use guard_der::encode_contents;
use guard_integers::IntSet;
use guard_model::{Cons, Kind, Named, OutOfMemory, Value};
use std::alloc::Global;

/// The contents octets of FALSE and TRUE (X.690 8.2.2 and 11.1).
const FALSE: u8 = 0;

const TRUE: u8 = 255;

/// The conditions that the terms of a node lay on values of this kind. Condition: each term is one that may be said of
/// such values. OutOfMemory is the only error.
pub(crate) fn conditions_of(
    alloc: Global,
    kind: &Kind,
    terms: &[Term<'_>],
) -> Result<Conditions, OutOfMemory>
    requires { AllSpeak (kind_view kind.now) (terms_view terms.now) }
    ensures { IfOk result (λ cs. map condition_view cs.list.items
        ≡ conditions_of (kind_view kind.now) (terms_view terms.now)) }
{
    let list = list_of(alloc, kind, terms)?;
    Conditions::new(alloc, list)
}

fn list_of(alloc: Global, kind: &Kind, terms: &[Term<'_>]) -> Result<Vec<Condition>, OutOfMemory>
    requires { AllSpeak (kind_view kind.now) (terms_view terms.now) }
    ensures { IfOk result (λ cs. map condition_view cs.items
        ≡ conditions_of (kind_view kind.now) (terms_view terms.now)) }
{
    let mut conditions = Vec::new(alloc);
    for term in terms {
        push_condition(alloc, kind, &term.atom, term.slots, &mut conditions)?;
    }
    Ok(conditions)
}

/// Adds the condition of a term: none where it asks something of parts, or each value passes it.
fn push_condition(
    alloc: Global,
    kind: &Kind,
    atom: &Atom<'_>,
    slots: Slots,
    conditions: &mut Vec<Condition>,
) -> Result<(), OutOfMemory>
    requires { Speaks (kind_view kind.now) (atom_view atom.now) }
    ensures { OnOk result (map condition_view conditions.new.items
        ≡ map condition_view conditions.old.items
        ++ conditions_in slots (tests_of (kind_view kind.now) (atom_view atom.now))) }
{
    if let Some(test) = test_of(alloc, kind, atom)? {
        conditions.push(Condition { slots, test })?;
    }
    Ok(())
}

fn test_of(alloc: Global, kind: &Kind, atom: &Atom<'_>) -> Result<Option<Test>, OutOfMemory>
    requires { Speaks (kind_view kind.now) (atom_view atom.now) }
    ensures { IfOk result (λ t. option_to_list (option_map test_view t)
        ≡ tests_of (kind_view kind.now) (atom_view atom.now)) }
{
    match atom {
        Atom::Scalar(own, constraint) => scalar_test(alloc, kind, own, constraint),
        Atom::Equals(value) => Ok(Some(stored_test(alloc, kind, value)?)),
        Atom::Sized(constraint) => Ok(Some(size_test(alloc, constraint)?)),
        Atom::Spelled(ranges) => Ok(Some(spelling_test(alloc, ranges)?)),
        Atom::Each(_) => Ok(None),
        Atom::Within(_, _) => Ok(None),
        Atom::Sent(_) => Ok(None),
        Atom::Unsent(_) => Ok(None),
    }
}

/// The test that a value has the contents octets of this one.
fn stored_test(alloc: Global, kind: &Kind, value: &Value) -> Result<Test, OutOfMemory>
    requires { IsTrue (fits_kind (kind_view kind.now) (value_view value.now)) }
    ensures { IfOk result
        (λ t. test_view t ≡ stored_test (contents_octets (kind_view kind.now) (value_view value.now))) }
{
    match if_short(encode_contents(alloc, kind, value))? {
        Some(octets) => Ok(Test::Stored(octets)),
        None => Ok(no_value(alloc)),
    }
}

/// The test that a value is one that a constraint on a type of the kind `own` has.
fn scalar_test(
    alloc: Global,
    kind: &Kind,
    own: &Kind,
    constraint: &Cons,
) -> Result<Option<Test>, OutOfMemory>
    requires { IsApt (kind_view kind.now) (by_constraint (kind_view own.now) (constraint_view constraint.now)) }
    ensures { IfOk result (λ t. option_to_list (option_map test_view t)
        ≡ scalar_tests (kind_view kind.now) (holds (constraint_view constraint.now) (kind_view own.now))) }
{
    match kind {
        Kind::Bool => truth_test(alloc, kind, own, constraint),
        Kind::Int(_) => Ok(Some(number_test(alloc, constraint)?)),
        Kind::Enumerated(items) => {
            let items = items.as_slice();
            Ok(Some(item_test(alloc, kind, items, own, constraint)?))
        }
        Kind::Null if is_met(Demand::Constraint(own, constraint), kind, &Value::Null) => Ok(None),
        Kind::Null => Ok(Some(no_value(alloc))),
        _ => Ok(None),
    }
}

/// The test that a BOOLEAN is one that a constraint has; None where both truth values pass.
fn truth_test(
    alloc: Global,
    kind: &Kind,
    own: &Kind,
    constraint: &Cons,
) -> Result<Option<Test>, OutOfMemory>
    requires apt { IsApt (kind_view kind.now) (by_constraint (kind_view own.now) (constraint_view constraint.now)) }
    requires kind { kind_view kind.now ≡ type.boolean }
    ensures { IfOk result (λ t. option_to_list (option_map test_view t)
        ≡ truth_tests (holds (constraint_view constraint.now) (kind_view own.now) (abstract.boolean true))
        (holds (constraint_view constraint.now) (kind_view own.now) (abstract.boolean false))) }
{
    let demand = Demand::Constraint(own, constraint);
    let has_true = is_met(demand, kind, &Value::Bool(true));
    let has_false = is_met(demand, kind, &Value::Bool(false));
    match (has_true, has_false) {
        (true, true) => Ok(None),
        (true, false) => Ok(Some(Test::Stored(Vec::from_slice(alloc, &[TRUE])?))),
        (false, true) => Ok(Some(Test::Stored(Vec::from_slice(alloc, &[FALSE])?))),
        (false, false) => Ok(Some(no_value(alloc))),
    }
}

/// The test that a number is that of an item which the constraint has.
fn item_test(
    alloc: Global,
    kind: &Kind,
    items: &[Named],
    own: &Kind,
    constraint: &Cons,
) -> Result<Test, OutOfMemory>
    requires apt { IsApt (kind_view kind.now) (by_constraint (kind_view own.now) (constraint_view constraint.now)) }
    requires kind { kind_view kind.now ≡ type.enumerated (map named_view items.now) }
    ensures { IfOk result (λ t. test_view t ≡ numbers (λ z. (fits_128_bits z && is_item z (map named_view items.now))
        && holds (constraint_view constraint.now) (kind_view own.now) (abstract.enumerated z))) }
{
    let mut sets = Vec::new(alloc);
    for item in items {
        push_item(alloc, kind, item.number, own, constraint, &mut sets)?;
    }
    Ok(Test::Numbers(IntSet::union_of(alloc, &sets)?))
}

/// Adds the number of an item, where the constraint has the item.
fn push_item(
    alloc: Global,
    kind: &Kind,
    number: i128,
    own: &Kind,
    constraint: &Cons,
    sets: &mut Vec<IntSet>,
) -> Result<(), OutOfMemory>
    requires apt { IsApt (kind_view kind.now) (by_constraint (kind_view own.now) (constraint_view constraint.now)) }
    requires item { IsTrue (fits_kind (kind_view kind.now) (abstract.enumerated number)) }
    ensures { OnOk result ((z : ℤ) → some_holds sets.new.items z ≡ (some_holds sets.old.items z
        || ((fits_128_bits z && int_eq z number)
        && holds (constraint_view constraint.now) (kind_view own.now) (abstract.enumerated z)))) }
{
    if is_met(
        Demand::Constraint(own, constraint),
        kind,
        &Value::Enumerated(number),
    ) {
        sets.push(IntSet::range(alloc, number, number)?)?;
    }
    Ok(())
}
