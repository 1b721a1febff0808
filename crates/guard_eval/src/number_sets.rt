//! The integers that a constraint allows, of any form and at any depth, as one set (X.680 51.4 and 51.5); and the items
//! of an ENUMERATED type that it allows, as the set of their numbers.
ghost use Rattle.std.specs.Prelude.{◌≡◌, ◌&&◌, ◌||◌, ℕ, ℤ, pos, not, map, IfOk, OnOk};
ghost use Rattle.std.specs.List.{list_all};
ghost use Rattle.guard_integers.specs.Integers as integers;
ghost use Rattle.guard_integers.specs.Integers.{some_holds};
ghost use Rattle.guard_model.specs.AbstractType.{AbstractKind};
ghost use Rattle.guard_model.specs.AbstractValue as abstract;
ghost use Rattle.guard_model.specs.AbstractValue.{AbstractValue};
ghost use Rattle.guard_model.specs.TypeView.{type_view, kind_view, constraint_view, constraints_of};
ghost use Rattle.guard_model.specs.Limits.{fits_128_bits};
ghost use Rattle.guard_model.specs.Same.{same};
ghost use Rattle.guard_model.specs.ValueView.{value_view};
ghost use Rattle.guard_eval.specs.Elements.{is_above, is_under, is_between, is_in_some};
ghost use Rattle.guard_eval.specs.Member.{holds, is_member};
ghost use Rattle.guard_eval.specs.NumberSets.{HasNumbers};
ghost use Rattle.guard_eval.specs.inside.NumberSets.{begins, ends, value_of, is_of, allows, all_allow, some_allow, has};
ghost use Rattle.guard_eval.specs.inside.NumberSets.{HoldsThose};
ghost use Rattle.guard_eval.specs.inside.ValueAnswers.{is_sized_in, is_sized_by_all};
ghost use Rattle.guard_eval.specs.inside.ValueAnswers.{is_coded_in, is_in_each, is_spelled_in_each};
ghost use Rattle.guard_eval.specs.inside.Together.{gathered_view, passes_all};

use crate::held_codes::{HeldCodes, held_codes};
use guard_integers::IntSet;
use guard_model::{Cons, Kind, Limit, OutOfMemory, Rule, Ty, Value};
use std::alloc::Global;

/// The values that are known by their numbers.
#[derive(Clone, Copy)]
enum Numbered {
    /// Those of any INTEGER, as the constraints of a sound type allow them.
    Integers,
    /// Integers, as the walk over the constraints lets them by.
    Walked,
    /// The items of an ENUMERATED type, as the walk over the constraints lets them by.
    Items,
}

/// The integers from -2^127 to 2^127-1 that the constraint allows. An element that doesn't apply to INTEGER, such as
/// SIZE, allows none. OutOfMemory is the only error.
pub fn numbers_of(alloc: Global, constraint: &Cons) -> Result<IntSet, OutOfMemory>
    ensures { IfOk result
        (λ set. HasNumbers set (λ kind z. holds (constraint_view constraint.now) kind (abstract.integer z))) }
{
    set_of(alloc, Numbered::Integers, constraint)
}

/// The integers from -2^127 to 2^127-1 that are members of the type: none where it is no INTEGER. OutOfMemory is the
/// only error.
pub fn numbers_of_type(alloc: Global, ty: &Ty) -> Result<IntSet, OutOfMemory>
    ensures { IfOk result (λ set. HasNumbers set (λ kind z. is_member (type_view ty.now) (abstract.integer z))) }
{
    set_of_type(alloc, Numbered::Integers, ty)
}

/// The integers that pass all of the constraints, on whatever kind. OutOfMemory is the only error.
pub fn own_integers(alloc: Global, cons: &[&Cons]) -> Result<IntSet, OutOfMemory>
    ensures { IfOk result (λ set. (kind : AbstractKind) → (z : ℤ) → integers.holds set z
        ≡ (fits_128_bits z && passes_all (gathered_view cons.now) kind (abstract.integer z))) }
{
    set_of_gathered(alloc, Numbered::Walked, cons)
}

/// The numbers of the items that pass all of the constraints, on whatever kind. OutOfMemory is the only error.
pub fn own_items(alloc: Global, cons: &[&Cons]) -> Result<IntSet, OutOfMemory>
    ensures { IfOk result (λ set. (kind : AbstractKind) → (z : ℤ) → integers.holds set z
        ≡ (fits_128_bits z && passes_all (gathered_view cons.now) kind (abstract.enumerated z))) }
{
    set_of_gathered(alloc, Numbered::Items, cons)
}

/// What all of these allow, found as `set_of_all` finds it.
fn set_of_gathered(
    alloc: Global,
    of: Numbered,
    constraints: &[&Cons],
) -> Result<IntSet, OutOfMemory>
    ensures { IfOk result (λ set. HoldsThose of set
        (λ kind z. list_all (λ c. allows of c kind z) (gathered_view constraints.now))) }
{
    let mut left_out = Vec::new(alloc);
    for (count, constraint) in constraints.iter().enumerate() {
        let numbers = set_of(alloc, of, constraint)?;
        keep(alloc, &mut left_out, numbers.complement(alloc)?, count)?;
    }
    IntSet::union_of(alloc, &left_out)?.complement(alloc)
}

#[cycle(number_sets)]
fn set_of(alloc: Global, of: Numbered, constraint: &Cons) -> Result<IntSet, OutOfMemory>
    ensures { IfOk result (λ set. HoldsThose of set (allows of (constraint_view constraint.now))) }
{
    match &constraint.rule {
        Rule::One(value) => number_alone(alloc, of, value),
        Rule::Inside(ty) => set_of_type(alloc, of, ty),
        Rule::Range(low, high) => numbers_between(alloc, of, *low, *high),
        Rule::Any(constraints) => set_of_some(alloc, of, constraints),
        Rule::Both(constraints) => set_of_all(alloc, of, constraints),
        Rule::Minus(kept, taken) => {
            let numbers = set_of(alloc, of, kept)?;
            numbers.minus(alloc, &set_of(alloc, of, taken)?)
        }
        Rule::Other(other) => set_of(alloc, of, other)?.complement(alloc),
        _ => Ok(IntSet::none(alloc)),
    }
}

/// What all of these allow: of many, what none of them leaves out. A set that is common to many isn't made anew for each.
#[cycle(number_sets)]
fn set_of_all(alloc: Global, of: Numbered, constraints: &[Cons]) -> Result<IntSet, OutOfMemory>
    ensures { IfOk result
        (λ set. HoldsThose of set (all_allow of (constraints_of (map constraint_view constraints.now)))) }
{
    if let [only] = constraints {
        return set_of(alloc, of, only);
    }
    let mut left_out = Vec::new(alloc);
    for (count, constraint) in constraints.iter().enumerate() {
        let numbers = set_of(alloc, of, constraint)?;
        keep(alloc, &mut left_out, numbers.complement(alloc)?, count)?;
    }
    IntSet::union_of(alloc, &left_out)?.complement(alloc)
}

/// What one of these allows.
#[cycle(number_sets)]
fn set_of_some(alloc: Global, of: Numbered, constraints: &[Cons]) -> Result<IntSet, OutOfMemory>
    ensures { IfOk result
        (λ set. HoldsThose of set (some_allow of (constraints_of (map constraint_view constraints.now)))) }
{
    let mut sets = Vec::new(alloc);
    for (count, constraint) in constraints.iter().enumerate() {
        keep(alloc, &mut sets, set_of(alloc, of, constraint)?, count)?;
    }
    IntSet::union_of(alloc, &sets)
}

/// What the type allows. No kind but INTEGER has integers; of items its constraints alone are asked.
#[cycle(number_sets)]
fn set_of_type(alloc: Global, of: Numbered, ty: &Ty) -> Result<IntSet, OutOfMemory>
    ensures { IfOk result (λ set. HoldsThose of set (λ kind z. has of (type_view ty.now) z)) }
{
    if is_of(of, &ty.kind) {
        return set_of_all(alloc, of, &ty.cons);
    }
    Ok(IntSet::none(alloc))
}

fn is_of(of: Numbered, kind: &Kind) -> bool
    ensures { result ≡ is_of of (kind_view kind.now) }
{
    match of {
        Numbered::Integers => kind.is_integer(),
        Numbered::Walked => true,
        Numbered::Items => true,
    }
}

/// Puts a set behind the others, where so many came before it. It is joined with as many of the last ones as this count
/// has ones at its end, as a counter in binary carries: so the two that are joined were made of as many each, and of M
/// sets no more than log M are kept.
fn keep(alloc: Global, sets: &mut Vec<IntSet>, set: IntSet, count: usize) -> Result<(), OutOfMemory>
    ensures { OnOk result ((z : ℤ) →
        some_holds sets.new.items z ≡ (some_holds sets.old.items z || integers.holds set z)) }
{
    let mut joined = set;
    for _ in 0..count.trailing_ones() {
        joined = match sets.pop() {
            Some(last) => last.union(alloc, &joined)?,
            None => joined,
        };
    }
    sets.push(joined)?;
    Ok(())
}

/// The set of one number, where the single value is one of these; else none.
fn number_alone(alloc: Global, of: Numbered, value: &Value) -> Result<IntSet, OutOfMemory>
    ensures { IfOk result (λ set. HoldsThose of set (λ kind z. same (value_view value.now) (value_of of z))) }
{
    match (of, value) {
        (Numbered::Integers, Value::Int(number)) => IntSet::range(alloc, *number, *number),
        (Numbered::Walked, Value::Int(number)) => IntSet::range(alloc, *number, *number),
        (Numbered::Items, Value::Enumerated(number)) => IntSet::range(alloc, *number, *number),
        _ => Ok(IntSet::none(alloc)),
    }
}

/// The integers of a range: none where the low end is above the high one. No item is in a range.
fn numbers_between(
    alloc: Global,
    of: Numbered,
    low: Limit,
    high: Limit,
) -> Result<IntSet, OutOfMemory>
    ensures { IfOk result (λ set. HoldsThose of set (λ kind z. is_between low high (value_of of z))) }
{
    match (of, lowest(low), highest(high)) {
        (Numbered::Integers, Some(low), Some(high)) => IntSet::range(alloc, low, high),
        (Numbered::Walked, Some(low), Some(high)) => IntSet::range(alloc, low, high),
        _ => Ok(IntSet::none(alloc)),
    }
}

/// The least number that a low end allows; None where there is none.
fn lowest(limit: Limit) -> Option<i128>
    ensures { (z : ℤ) → (fits_128_bits z && is_above limit z) ≡ (fits_128_bits z && begins result z) }
{
    match limit {
        Limit::Free => Some(i128::MIN),
        Limit::At(number) => Some(number),
        Limit::Past(number) if number == i128::MAX => None,
        Limit::Past(number) => Some(number + 1),
    }
}

/// The greatest number that a high end allows; None where there is none.
fn highest(limit: Limit) -> Option<i128>
    ensures { (z : ℤ) → (fits_128_bits z && is_under limit z) ≡ (fits_128_bits z && ends result z) }
{
    match limit {
        Limit::Free => Some(i128::MAX),
        Limit::At(number) => Some(number),
        Limit::Past(number) if number == i128::MIN => None,
        Limit::Past(number) => Some(number - 1),
    }
}

// ---- sizes

/// The sizes that all of these allow, of the constraints of SIZE; None where there is none. OutOfMemory is the only
/// error.
pub fn sizes_of_all(alloc: Global, sizes: &[&Cons]) -> Result<Option<IntSet>, OutOfMemory>
    ensures { IfOk result (λ set. (kind : AbstractKind) (v : AbstractValue) →
        is_sized_in set v ≡ is_sized_by_all (gathered_view sizes.now) kind v) }
{
    if sizes.is_empty() {
        return Ok(None);
    }
    Ok(Some(own_integers(alloc, sizes)?))
}

// ---- codes of characters

/// The codes that all of these alphabets allow; None where there is none. OutOfMemory is the only error.
pub fn codes_of_all(
    alloc: Global,
    alphabets: &[&[(u32, u32)]],
) -> Result<Option<HeldCodes>, OutOfMemory>
    ensures { IfOk result (λ codes. (v : AbstractValue) → is_coded_in codes v ≡ is_spelled_in_each alphabets.now v) }
{
    if alphabets.is_empty() {
        return Ok(None);
    }
    let codes = codes_in(alloc, alphabets[0])?;
    let left_out = codes_left_out(alloc, alphabets)?;
    Ok(Some(held_codes(codes.minus(alloc, &left_out)?)))
}

/// The codes that one of these alphabets doesn't allow.
fn codes_left_out(alloc: Global, alphabets: &[&[(u32, u32)]]) -> Result<IntSet, OutOfMemory>
    ensures { IfOk result (λ set. (c : ℕ) → integers.holds set (pos c)
        ≡ (fits_128_bits (pos c) && not (is_in_each alphabets.now c))) }
{
    let mut left_out = Vec::new(alloc);
    for (count, ranges) in alphabets.iter().enumerate() {
        let codes = codes_in(alloc, ranges)?;
        keep(alloc, &mut left_out, codes.complement(alloc)?, count)?;
    }
    IntSet::union_of(alloc, &left_out)
}

/// The codes that one of the ranges has, both ends in.
fn codes_in(alloc: Global, ranges: &[(u32, u32)]) -> Result<IntSet, OutOfMemory>
    ensures { IfOk result (λ set. (c : ℕ) → integers.holds set (pos c) ≡ is_in_some ranges.now c) }
{
    let mut sets = Vec::new(alloc);
    for (first, last) in ranges {
        sets.push(IntSet::range(alloc, i128::from(*first), i128::from(*last))?)?;
    }
    IntSet::union_of(alloc, &sets)
}
