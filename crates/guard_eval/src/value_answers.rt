//! Constraints that must all be passed, on values that aren't numbers: the sizes that all SIZE among them allow are found
//! out once as a set, the codes that all FROM allow as another, and a union's single values are looked up.
ghost use Rattle.std.specs.Prelude.{◌≡◌, IfOk};
ghost use Rattle.guard_model.specs.TypeView.{kind_view, constraint_view};
ghost use Rattle.guard_model.specs.ValueView.{value_view};
ghost use Rattle.guard_eval.specs.inside.ValueAnswers.{IsKnownOfValues, IsSize, IsAlphabet, is_sized_in};
ghost use Rattle.guard_eval.specs.inside.ValueAnswers.{is_coded_in, passes_at, passes_all_at};
ghost use Rattle.guard_eval.specs.inside.Together.{gathered_view, passes_all};

use crate::elements::size_of;
use crate::held_codes::{HeldCodes, are_held};
use crate::number_sets::{codes_of_all, sizes_of_all};
use crate::singles::{Alternatives, allows, alternatives_of};
use guard_integers::IntSet;
use guard_model::{Cons, Kind, OutOfMemory, Rule, Value};
use std::alloc::Global;

/// What is known of the values that pass gathered constraints.
#[derive(Drop)]
pub struct ValueAnswers {
    /// The sizes that all SIZE among them allow; None where there is none.
    sizes: Option<IntSet>,
    /// The codes of characters that all FROM among them allow; None where fewer than two are among them.
    codes: Option<HeldCodes>,
    /// The places of the others, and where the alternatives of each of them are that may have a value.
    others: Vec<usize>,
    each: Vec<Alternatives>,
}

/// What is found out beforehand of these constraints. The values are those that will be asked: what is found of their
/// sizes helps no others. OutOfMemory is the only error.
pub fn known_of_values(
    alloc: Global,
    cons: &[&Cons],
    kind: &Kind,
    values: &[&Value],
) -> Result<ValueAnswers, OutOfMemory>
    ensures { IfOk result (λ answers. IsKnownOfValues answers (gathered_view cons.now) (kind_view kind.now)) }
{
    let apart = have_many_alphabets(cons);
    let mut sizes = Vec::new(alloc);
    let mut alphabets = Vec::new(alloc);
    let mut others = Vec::new(alloc);
    let mut each = Vec::new(alloc);
    for (place, one) in cons.iter().enumerate() {
        match (size_in(one), alphabet_in(apart, one)) {
            (Some(size), _) => sizes.push(size)?,
            (None, Some(ranges)) => alphabets.push(ranges)?,
            (None, None) => {
                others.push(place)?;
                each.push(alternatives_of(alloc, one, kind, values)?)?;
            }
        }
    }
    Ok(ValueAnswers {
        sizes: sizes_of_all(alloc, &sizes)?,
        codes: codes_of_all(alloc, &alphabets)?,
        others,
        each,
    })
}

/// The constraint on sizes, if this one is SIZE.
fn size_in(cons: &Cons) -> Option<&Cons>
    ensures { IsSize result (constraint_view cons.now) }
{
    match &cons.rule {
        Rule::Size(size) => Some(size),
        _ => None,
    }
}

/// Whether more than one of these is FROM: an only one is asked as the others are, which takes no set of codes.
fn have_many_alphabets(cons: &[&Cons]) -> bool {
    let mut count: usize = 0;
    for one in cons {
        if let Rule::Alphabet(_) = &one.rule {
            count = count.saturating_add(1);
        }
    }
    count > 1
}

/// The ranges of the alphabet, if this constraint is FROM and these are gathered apart.
fn alphabet_in(apart: bool, cons: &Cons) -> Option<&[(u32, u32)]>
    ensures { IsAlphabet result (constraint_view cons.now) }
{
    match &cons.rule {
        Rule::Alphabet(ranges) if apart => Some(ranges),
        _ => None,
    }
}

/// Whether the value passes all of the constraints.
pub fn passes_all_known(answers: &ValueAnswers, cons: &[&Cons], kind: &Kind, value: &Value) -> bool
    requires { IsKnownOfValues answers.now (gathered_view cons.now) (kind_view kind.now) }
    ensures { result ≡ passes_all (gathered_view cons.now) (kind_view kind.now) (value_view value.now) }
{
    is_sized_in(&answers.sizes, value)
        && is_coded_in(&answers.codes, value)
        && all_pass_at(&answers.others, &answers.each, cons, kind, value)
}

/// Whether the value has a size that the set holds; without a set this isn't asked.
fn is_sized_in(sizes: &Option<IntSet>, value: &Value) -> bool
    ensures { result ≡ is_sized_in sizes.now (value_view value.now) }
{
    let Some(sizes) = sizes else {
        return true;
    };
    match size_of(value) {
        Some(size) => sizes.has(size),
        None => false,
    }
}

/// Whether the value is a character string of codes that are held; without these this isn't asked.
fn is_coded_in(codes: &Option<HeldCodes>, value: &Value) -> bool
    ensures { result ≡ is_coded_in codes.now (value_view value.now) }
{
    let Some(codes) = codes else {
        return true;
    };
    match value {
        Value::Chars(text) => are_held(codes, text),
        _ => false,
    }
}

/// Whether the value passes the constraints at these places.
fn all_pass_at(
    places: &[usize],
    each: &[Alternatives],
    cons: &[&Cons],
    kind: &Kind,
    value: &Value,
) -> bool
    ensures { result ≡ passes_all_at places.now (gathered_view cons.now) (kind_view kind.now) (value_view value.now) }
{
    for (index, place) in places.iter().enumerate() {
        if !passes_at(each.get(index), cons, *place, kind, value) {
            return false;
        }
    }
    true
}

fn passes_at(
    alternatives: Option<&Alternatives>,
    cons: &[&Cons],
    place: usize,
    kind: &Kind,
    value: &Value,
) -> bool
    ensures { result ≡ passes_at (gathered_view cons.now) (kind_view kind.now) (value_view value.now) place }
{
    match cons.get(place) {
        Some(one) => allows(alternatives, one, kind, value),
        None => true,
    }
}
