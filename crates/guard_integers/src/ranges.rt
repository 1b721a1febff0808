//! Ranges of integers in ascending order, with at least one integer between each two of them.
ghost use Rattle.std.specs.Prelude.{◌≡◌, ◌≤◌, ℤ, pos, ◌+ℤ◌, ◌≤ℤ◌, ◌<ℤ◌, IsTrue, true, false, not, length};
ghost use Rattle.std.specs.Int.Signed.{le_z};
ghost use Rattle.std.specs.List.{AllWithin};
ghost use Rattle.guard_integers.specs.Ranges.{one_holds, are_apart};
ghost use Rattle.guard_integers.specs.inside.Computing.{greatest};

/// The integers from `low` to `high`, both in.
#[derive(Clone, Copy)]
pub struct Range {
    pub low: i128,
    pub high: i128,
}

/// Whether one of the ranges holds this integer. Condition: the ranges ascend, each holds an integer, and at least one
/// integer lies between each two of them.
pub fn one_holds(ranges: &[Range], number: i128) -> bool
    requires { IsTrue (are_apart ranges.now) }
    ensures { result ≡ one_holds ranges.now number }
{
    let begun = begun_by(ranges, number);
    begun > 0 && reaches(&ranges[begun - 1], number)
}

/// The greatest integer such that the ranges hold all integers from `first` to it, or none of them. Condition: the
/// ranges ascend, each holds an integer, and at least one integer lies between each two of them.
pub fn alike_to(ranges: &[Range], first: i128) -> i128
    requires { IsTrue (are_apart ranges.now) }
    ensures from { first ≤ℤ result }
    ensures alike { (x : ℤ) → first ≤ℤ x → x ≤ℤ result → one_holds ranges.now x ≡ one_holds ranges.now first }
    ensures last { result <ℤ greatest → one_holds ranges.now (result +ℤ pos 1) ≡ not (one_holds ranges.now first) }
{
    let begun = begun_by(ranges, first);
    if begun > 0 && reaches(&ranges[begun - 1], first) {
        return ranges[begun - 1].high;
    }
    match ranges.get(begun) {
        Some(next) => next.low - 1,
        None => i128::MAX,
    }
}

/// How many ranges begin at this integer or before it.
fn begun_by(ranges: &[Range], number: i128) -> usize
    requires { IsTrue (are_apart ranges.now) }
    ensures within { result ≤ length ranges.now }
    ensures begun { AllWithin (λ r. le_z r.low number ≡ true) ranges.now 0 result }
    ensures later { AllWithin (λ r. le_z r.low number ≡ false) ranges.now result (length ranges.now) }
{
    ranges.partition_point(|range| begins_by(range, number))
}

fn begins_by(range: &Range, number: i128) -> bool
    ensures { result ≡ le_z range.now.low number }
{
    range.low <= number
}

fn reaches(range: &Range, number: i128) -> bool
    ensures { result ≡ le_z number range.now.high }
{
    number <= range.high
}
