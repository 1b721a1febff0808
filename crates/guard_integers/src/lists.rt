//! What lists of ranges have in common, and what they leave.
ghost use Rattle.std.specs.Prelude.{◌≡◌, ◌+ℤ◌, ◌<ℤ◌, pos, ◌++◌, IfOk, not};
ghost use Rattle.std.specs.Int.Signed.{lt_z};
ghost use Rattle.guard_integers.specs.inside.Computing.{least, greatest, gaps_from, before};
ghost use Rattle.guard_integers.specs.inside.Computing.{common_of, overlap, ends_first};

use crate::ranges::Range;
use guard_model::OutOfMemory;
use std::alloc::Global;

/// The range of all integers, -2^127 to 2^127-1.
fn all_numbers() -> Range
    ensures low { result.low ≡ least }
    ensures high { result.high ≡ greatest }
{
    Range {
        low: i128::MIN,
        high: i128::MAX,
    }
}

/// The ranges of all integers that no range of the list holds.
pub fn gaps(alloc: Global, ranges: &[Range]) -> Result<Vec<Range>, OutOfMemory>
    ensures { IfOk result (λ g. g.items ≡ gaps_from least ranges.now) }
{
    let mut left = all_numbers();
    let mut gaps = Vec::new(alloc);
    for range in ranges {
        push_before(&mut gaps, &left, range)?;
        if ends_all(range) {
            return Ok(gaps);
        }
        left = above(range);
    }
    gaps.push(left)?;
    Ok(gaps)
}

/// Adds the integers of `left` that lie before `range`.
fn push_before(gaps: &mut Vec<Range>, left: &Range, range: &Range) -> Result<(), OutOfMemory>
    ensures { IfOk result (λ u. gaps.new.items ≡ gaps.old.items ++ before left.now.low range.now) }
{
    if left.low < range.low {
        gaps.push(Range {
            low: left.low,
            high: range.low - 1,
        })?;
    }
    Ok(())
}

/// Whether no integer lies above a range.
fn ends_all(range: &Range) -> bool
    ensures { result ≡ not (lt_z range.now.high greatest) }
{
    range.high == i128::MAX
}

/// All integers above a range.
fn above(range: &Range) -> Range
    requires { range.now.high <ℤ greatest }
    ensures low { result.low ≡ range.now.high +ℤ pos 1 }
    ensures high { result.high ≡ greatest }
{
    Range {
        low: range.high + 1,
        high: i128::MAX,
    }
}

/// The ranges of the integers that both lists hold.
pub fn common(alloc: Global, first: &[Range], second: &[Range]) -> Result<Vec<Range>, OutOfMemory>
    ensures { IfOk result (λ c. c.items ≡ common_of first.now second.now) }
{
    let mut common = Vec::new(alloc);
    let mut at_first = 0;
    let mut at_second = 0;
    while at_first < first.len() && at_second < second.len() {
        push_overlap(&mut common, &first[at_first], &second[at_second])?;
        if ends_first(&first[at_first], &second[at_second]) {
            at_first += 1;
        } else {
            at_second += 1;
        }
    }
    Ok(common)
}

/// Adds the integers that both ranges hold.
fn push_overlap(common: &mut Vec<Range>, first: &Range, second: &Range) -> Result<(), OutOfMemory>
    ensures { IfOk result (λ u. common.new.items ≡ common.old.items ++ overlap first.now second.now) }
{
    let both = Range {
        low: first.low.max(second.low),
        high: first.high.min(second.high),
    };
    if both.low <= both.high {
        common.push(both)?;
    }
    Ok(())
}

/// Whether the first range ends before the second one.
fn ends_first(first: &Range, second: &Range) -> bool
    ensures { result ≡ ends_first first.now second.now }
{
    first.high < second.high
}
