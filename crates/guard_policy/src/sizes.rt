//! The sizes that values under a constraint may have, as far as SIZE tells (X.680 51.5).
ghost use Rattle.std.specs.Prelude.{◌≡◌, ◌&&◌, ℤ, map, IfOk};
ghost use Rattle.guard_integers.specs.Integers.{holds};
ghost use Rattle.guard_model.specs.Limits.{fits_128_bits};
ghost use Rattle.guard_model.specs.TypeView.{constraint_view, element_view, constraints_of};
ghost use Rattle.guard_policy.specs.Barren.{may_have_size, element_may_have_size, all_may_have_size};
ghost use Rattle.guard_policy.specs.Barren.{some_may_have_size};

use guard_eval::numbers_of;
use guard_integers::IntSet;
use guard_model::{Cons, OutOfMemory, Rule};
use std::alloc::Global;

/// The sizes that values under the constraint may have, as far as SIZE tells. OutOfMemory is the only error.
#[cycle(sizes)]
pub(crate) fn sizes_of(alloc: Global, constraint: &Cons) -> Result<IntSet, OutOfMemory>
    ensures { IfOk result (λ set. (z : ℤ)
        → holds set z ≡ (fits_128_bits z && may_have_size (constraint_view constraint.now) z)) }
{
    sizes_of_rule(alloc, &constraint.rule)
}

#[cycle(sizes)]
fn sizes_of_rule(alloc: Global, rule: &Rule) -> Result<IntSet, OutOfMemory>
    ensures { IfOk result (λ set. (z : ℤ)
        → holds set z ≡ (fits_128_bits z && element_may_have_size (element_view rule.now) z)) }
{
    match rule {
        Rule::Inside(ty) => sizes_of_all(alloc, &ty.cons),
        Rule::Size(sizes) => numbers_of(alloc, sizes),
        Rule::Any(constraints) => sizes_of_some(alloc, constraints),
        Rule::Both(constraints) => sizes_of_all(alloc, constraints),
        Rule::Minus(kept, _) => sizes_of(alloc, kept),
        Rule::One(_) => IntSet::all(alloc),
        Rule::Range(_, _) => IntSet::all(alloc),
        Rule::Alphabet(_) => IntSet::all(alloc),
        Rule::Each(_) => IntSet::all(alloc),
        Rule::Parts(_, _) => IntSet::all(alloc),
        Rule::Other(_) => IntSet::all(alloc),
    }
}

/// The sizes that values under all of these may have.
#[cycle(sizes)]
pub(crate) fn sizes_of_all(alloc: Global, constraints: &[Cons]) -> Result<IntSet, OutOfMemory>
    ensures { IfOk result (λ set. (z : ℤ)
        → holds set z ≡ (fits_128_bits z && all_may_have_size
        (constraints_of (map constraint_view constraints.now)) z)) }
{
    let mut left = IntSet::all(alloc)?;
    for constraint in constraints {
        left = left.intersection(alloc, &sizes_of(alloc, constraint)?)?;
    }
    Ok(left)
}

/// The sizes that values under one of these may have.
#[cycle(sizes)]
fn sizes_of_some(alloc: Global, constraints: &[Cons]) -> Result<IntSet, OutOfMemory>
    ensures { IfOk result (λ set. (z : ℤ)
        → holds set z ≡ (fits_128_bits z && some_may_have_size
        (constraints_of (map constraint_view constraints.now)) z)) }
{
    let mut sets = Vec::new(alloc);
    for constraint in constraints {
        sets.push(sizes_of(alloc, constraint)?)?;
    }
    IntSet::union_of(alloc, &sets)
}
