//! Permitted alphabets, as the nodes of a table keep them (X.680 51.7).
use guard_model::OutOfMemory;
use std::alloc::Global;
use std::marker::Model;

/// The codes of the permitted characters (X.680 51.7), as ranges with both ends in, in ascending order, of which no two
/// touch or overlap.
#[derive(Drop)]
pub struct Alphabet {
    ranges: Vec<(u32, u32)>,
}

impl Model for Alphabet {
    ghost use Rattle.std.specs.Prelude.{ℕ, List, IsTrue};
    ghost use Rattle.guard_tables.specs.Alphabets.{are_apart};

    ghost Value = { List (ℕ × ℕ) };

    ghost view = { λ alphabet. alphabet.ranges.items };

    ghost invariant = { λ alphabet. IsTrue (are_apart alphabet.ranges.items) };
}

impl Alphabet {
    ghost use Rattle.std.specs.Prelude.{◌≡◌, ℕ, IsTrue, IfOk};
    ghost use Rattle.guard_eval.specs.Elements.{is_in_some};
    ghost use Rattle.guard_tables.specs.Alphabets.{are_apart};

    /// The characters of these ranges, which may be in any order, touch and overlap.
    pub(crate) fn of(alloc: Global, ranges: &[(u32, u32)]) -> Result<Alphabet, OutOfMemory>
        ensures { IfOk result (λ alphabet. (c : ℕ) → is_in_some alphabet c ≡ is_in_some ranges.now c) }
    {
        let mut ordered = Vec::from_slice(alloc, ranges)?;
        ordered.sort_unstable_by_key(|range| range.0);
        let ranges = joined(alloc, &ordered)?;
        Ok(Alphabet { ranges })
    }

    /// The ranges, both ends in, in ascending order; no two of them touch or overlap.
    pub fn ranges(&self) -> &[(u32, u32)]
        ensures same { result.now ≡ self.now }
        ensures apart { IsTrue (are_apart result.now) }
    {
        &self.ranges
    }
}

ghost use Rattle.std.specs.Prelude.{◌≡◌, ◌||◌, ℕ, IsTrue, IfOk, OnOk};
ghost use Rattle.std.specs.Int.{is_in_range};
ghost use Rattle.std.specs.List.Sorted.{IsNonDecreasingBy};
ghost use Rattle.guard_eval.specs.Elements.{is_in_some};
ghost use Rattle.guard_tables.specs.Alphabets.{are_apart};
ghost use Rattle.guard_tables.specs.inside.JoinedRanges.{begin_by};

/// Ranges that touch or overlap as one; those without a character are left out.
fn joined(alloc: Global, ordered: &[(u32, u32)]) -> Result<Vec<(u32, u32)>, OutOfMemory>
    requires { IsNonDecreasingBy (λ range. range.0) ordered.now }
    ensures apart { IfOk result (λ ranges. IsTrue (are_apart ranges.items)) }
    ensures same { IfOk result (λ ranges. (c : ℕ) → is_in_some ranges.items c ≡ is_in_some ordered.now c) }
{
    let mut ranges = Vec::new(alloc);
    for (low, high) in ordered {
        add(&mut ranges, *low, *high)?;
    }
    Ok(ranges)
}

/// Adds the characters of one range more, which begins where the others do or after them.
fn add(ranges: &mut Vec<(u32, u32)>, low: u32, high: u32) -> Result<(), OutOfMemory>
    requires apart { IsTrue (are_apart ranges.old.items) }
    requires order { IsTrue (begin_by low ranges.old.items) }
    ensures apart { OnOk result (IsTrue (are_apart ranges.new.items)) }
    ensures order { OnOk result (IsTrue (begin_by low ranges.new.items)) }
    ensures same { OnOk result ((c : ℕ) →
        is_in_some ranges.new.items c ≡ (is_in_some ranges.old.items c || is_in_range low high c)) }
{
    if low > high {
        return Ok(());
    }
    let Some((first, last)) = ranges.pop() else {
        ranges.push((low, high))?;
        return Ok(());
    };
    if low <= last.saturating_add(1) {
        ranges.push((first, last.max(high)))?;
    } else {
        ranges.push((first, last))?;
        ranges.push((low, high))?;
    }
    Ok(())
}
