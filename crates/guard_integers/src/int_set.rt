//! Sets of integers of signed 128 bits.
use crate::lists::{common, gaps};
use crate::ranges::{Range, alike_to, one_holds};
use guard_model::OutOfMemory;
use std::alloc::Global;
use std::marker::Model;

/// A set of integers, each of them of signed 128 bits: at least -2^127, at most 2^127-1.
///
/// A set is kept as ranges in ascending order of which no two touch or overlap, so that it has one form.
#[derive(Drop)]
pub struct IntSet {
    ranges: Vec<Range>,
}

impl Model for IntSet {
    ghost use Rattle.std.specs.Prelude.{IsTrue};
    ghost use Rattle.guard_integers.specs.Integers.{Integers, integers_code, kept_as};
    ghost use Rattle.guard_integers.specs.Ranges.{are_apart};

    ghost Value = { Integers };

    ghost coded = { integers_code };

    ghost view = { λ set. kept_as set.ranges.items };

    ghost invariant = { λ set. IsTrue (are_apart set.ranges.items) };
}

impl IntSet {
    ghost use Rattle.std.specs.Prelude.{◌≡◌, ◌≤ℤ◌, ◌+ℤ◌, pos, ℤ, false, IfOk, IsTrue, int_le, ◌&&◌, ◌||◌, not};
    ghost use Rattle.guard_model.specs.Limits.{fits_128_bits};
    ghost use Rattle.guard_integers.specs.Integers.{holds, some_holds};

    /// The set that holds no integer. No memory is taken for it.
    pub fn none(alloc: Global) -> IntSet
        ensures { (x : ℤ) → holds result x ≡ false }
    {
        IntSet {
            ranges: Vec::new(alloc),
        }
    }

    /// All integers from -2^127 to 2^127-1. OutOfMemory is the only error.
    pub fn all(alloc: Global) -> Result<IntSet, OutOfMemory>
        ensures { IfOk result (λ set. (x : ℤ) → holds set x ≡ fits_128_bits x) }
    {
        IntSet::none(alloc).complement(alloc)
    }

    /// The integers from `low` to `high`, both in: none where `low` is the greater one. OutOfMemory is the only error.
    pub fn range(alloc: Global, low: i128, high: i128) -> Result<IntSet, OutOfMemory>
        ensures { IfOk result (λ set. (x : ℤ) → holds set x ≡ (fits_128_bits x && (int_le low x && int_le x high))) }
    {
        let mut ranges = Vec::new(alloc);
        if low <= high {
            ranges.push(Range { low, high })?;
        }
        Ok(IntSet { ranges })
    }

    /// The integers that at least one of the two sets holds. OutOfMemory is the only error.
    pub fn union(&self, alloc: Global, other: &IntSet) -> Result<IntSet, OutOfMemory>
        ensures { IfOk result (λ set. (x : ℤ) → holds set x ≡ (holds self.now x || holds other.now x)) }
    {
        let neither = self
            .complement(alloc)?
            .intersection(alloc, &other.complement(alloc)?)?;
        neither.complement(alloc)
    }

    /// The integers that at least one of these sets holds: none where there is no set. OutOfMemory is the only error.
    pub fn union_of(alloc: Global, sets: &[IntSet]) -> Result<IntSet, OutOfMemory>
        ensures { IfOk result (λ set. (x : ℤ) → holds set x ≡ some_holds sets.now x) }
    {
        match sets {
            [] => Ok(IntSet::none(alloc)),
            [only] => only.intersection(alloc, only),
            _ => {
                let (first, second) = sets.split_at(sets.len() / 2);
                let united = IntSet::union_of(alloc, first)?;
                united.union(alloc, &IntSet::union_of(alloc, second)?)
            }
        }
    }

    /// The integers that both sets hold. OutOfMemory is the only error.
    pub fn intersection(&self, alloc: Global, other: &IntSet) -> Result<IntSet, OutOfMemory>
        ensures { IfOk result (λ set. (x : ℤ) → holds set x ≡ (holds self.now x && holds other.now x)) }
    {
        let ranges = common(alloc, &self.ranges, &other.ranges)?;
        Ok(IntSet { ranges })
    }

    /// The integers of this set that the other one doesn't hold. OutOfMemory is the only error.
    pub fn minus(&self, alloc: Global, other: &IntSet) -> Result<IntSet, OutOfMemory>
        ensures { IfOk result (λ set. (x : ℤ) → holds set x ≡ (holds self.now x && not (holds other.now x))) }
    {
        self.intersection(alloc, &other.complement(alloc)?)
    }

    /// The integers from -2^127 to 2^127-1 that this set doesn't hold. OutOfMemory is the only error.
    pub fn complement(&self, alloc: Global) -> Result<IntSet, OutOfMemory>
        ensures { IfOk result (λ set. (x : ℤ) → holds set x ≡ (fits_128_bits x && not (holds self.now x))) }
    {
        let ranges = gaps(alloc, &self.ranges)?;
        Ok(IntSet { ranges })
    }

    /// Whether the set holds this integer, by a binary search.
    pub fn has(&self, number: i128) -> bool
        ensures { result ≡ holds self.now number }
    {
        one_holds(&self.ranges, number)
    }

    /// The greatest integer such that the set holds all integers from `first` to it, or none of them, by a binary
    /// search. The answer is `first` or more, and 2^127-1 where nothing changes up to there.
    pub fn alike_to(&self, first: i128) -> i128
        ensures from { first ≤ℤ result }
        ensures alike { (x : ℤ) → first ≤ℤ x → x ≤ℤ result → holds self.now x ≡ holds self.now first }
        ensures last { IsTrue (fits_128_bits (result +ℤ pos 1)) →
            holds self.now (result +ℤ pos 1) ≡ not (holds self.now first) }
    {
        alike_to(&self.ranges, first)
    }
}
