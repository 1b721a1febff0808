//! Segments of the numbers, in each of which the same conditions fail. That they are in order, and one for each number,
//! makes the search quick and nothing more: each is tested when it is made, and again when it is found.
ghost use Rattle.std.specs.Prelude.{◌≡◌, ◌≤ℤ◌, ℤ, Some, true, map, IfOk, IfSome, OnOk};
ghost use Rattle.std.specs.Option.{is_some};
ghost use Rattle.guard_tables.specs.Marking.{Facts, test_passes, is_on_number, are_on_numbers};
ghost use Rattle.guard_tables.specs.Formulas.{failed_unless};
ghost use Rattle.guard_tables.specs.NodeViews.{test_view, condition_view};
ghost use Rattle.guard_tables.specs.Segments.{Fails, IsSegment, AreSegments, IsFound, FailsAlike};

use crate::node::{Condition, Test};
use crate::slots::Slots;
use guard_model::OutOfMemory;
use std::alloc::Global;

/// Where there are fewer conditions they are tested one by one.
const FEWEST_CONDITIONS: usize = 4;

/// Where there would be more segments there are none, since each is tested with each condition.
const MOST_SEGMENTS: usize = 1024;

/// The numbers from the first to the last, both in, and the slots that fail for each of them.
#[derive(Clone, Copy, Debug)]
pub(crate) struct Segment {
    pub first: i128,
    pub last: i128,
    pub failed: Slots,
}

// ---- one by one

/// The slots of the conditions that fail for a number, tested one by one; None where one of them isn't on a number.
pub(crate) fn failed_by(conditions: &[Condition], number: i128) -> Option<Slots>
    ensures numbers { is_some result ≡ are_on_numbers (map condition_view conditions.now) }
    ensures failed { IfSome result (λ slots. Fails (map condition_view conditions.now) number slots) }
{
    let mut failed = Slots::none();
    for condition in conditions {
        let Some(passed) = passes(&condition.test, number) else {
            return None;
        };
        add_unless(passed, &condition.slots, &mut failed);
    }
    Some(failed)
}

/// Whether the number passes; None where the test isn't on a number.
fn passes(test: &Test, number: i128) -> Option<bool>
    ensures numbers { is_some result ≡ is_on_number (test_view test.now) }
    ensures passed { IfSome result (λ passed. (f : Facts) → f.number ≡ Some number →
        test_passes (test_view test.now) f ≡ passed) }
{
    match test {
        Test::Numbers(set) => Some(set.has(number)),
        Test::Sizes(_) => None,
        Test::Stored(_) => None,
        Test::Spelled(_) => None,
    }
}

fn add_unless(passed: bool, slots: &Slots, failed: &mut Slots)
    ensures { failed.new ≡ failed_unless passed slots.now failed.old }
{
    if !passed {
        failed.add(slots);
    }
}

// ---- by segments

/// The segment that has this number, by a binary search; None where none is found.
pub(crate) fn segment_at(segments: &[Segment], number: i128) -> Option<&Segment>
    ensures { IfSome result (λ s. IsFound s.now segments.now number) }
{
    let at = segments.partition_point(|segment| segment.last < number);
    match segments.get(at) {
        Some(segment) if has_number(segment, number) => Some(segment),
        _ => None,
    }
}

fn has_number(segment: &Segment, number: i128) -> bool
    ensures { result ≡ true → (segment.now.first ≤ℤ number) × (number ≤ℤ segment.now.last) }
{
    segment.first <= number && number <= segment.last
}

/// The segments for these conditions; none where they are few, or would be too many.
pub(crate) fn segments_of(
    alloc: Global,
    conditions: &[Condition],
) -> Result<Vec<Segment>, OutOfMemory>
    ensures { IfOk result (λ segments. AreSegments (map condition_view conditions.now) segments.items) }
{
    let starts = starts_of(alloc, conditions)?;
    let mut segments = Vec::new(alloc);
    for (place, first) in starts.iter().enumerate() {
        push_segment(conditions, *first, last_of(&starts, place), &mut segments)?;
    }
    Ok(segments)
}

/// The number before the next start.
fn last_of(starts: &[i128], place: usize) -> i128 {
    match starts.get(place.saturating_add(1)) {
        Some(next) => next.saturating_sub(1),
        None => i128::MAX,
    }
}

/// Adds the segment of the numbers from the first to the last, if the same conditions fail for all of them.
fn push_segment(
    conditions: &[Condition],
    first: i128,
    last: i128,
    segments: &mut Vec<Segment>,
) -> Result<(), OutOfMemory>
    ensures { OnOk result (AreSegments (map condition_view conditions.now) segments.old.items
        → AreSegments (map condition_view conditions.now) segments.new.items) }
{
    if let Some(segment) = segment_of(conditions, first, last) {
        segments.push(segment)?;
    }
    Ok(())
}

fn segment_of(conditions: &[Condition], first: i128, last: i128) -> Option<Segment>
    ensures { IfSome result (λ s. IsSegment (map condition_view conditions.now) s) }
{
    if first > last || !are_steady(conditions, first, last) {
        return None;
    }
    match failed_by(conditions, first) {
        Some(failed) => Some(Segment {
            first,
            last,
            failed,
        }),
        None => None,
    }
}

/// Whether the same of these fail for all numbers from the first to the last.
fn are_steady(conditions: &[Condition], first: i128, last: i128) -> bool
    ensures { result ≡ true → (z : ℤ) → first ≤ℤ z → z ≤ℤ last →
        FailsAlike (map condition_view conditions.now) z first }
{
    for condition in conditions {
        if !is_steady(&condition.test, first, last) {
            return false;
        }
    }
    true
}

fn is_steady(test: &Test, first: i128, last: i128) -> bool
    ensures { result ≡ true → (z : ℤ) → first ≤ℤ z → z ≤ℤ last → (f g : Facts) → f.number ≡ Some z →
        g.number ≡ Some first
        → test_passes (test_view test.now) f ≡ test_passes (test_view test.now) g }
{
    match test {
        Test::Numbers(set) => last <= set.alike_to(first),
        _ => false,
    }
}

// ---- where they start

/// The numbers where something begins or ends to fail, in order.
fn starts_of(alloc: Global, conditions: &[Condition]) -> Result<Vec<i128>, OutOfMemory> {
    let mut starts = Vec::new(alloc);
    if conditions.len() < FEWEST_CONDITIONS {
        return Ok(starts);
    }
    starts.push(i128::MIN)?;
    for condition in conditions {
        add_starts(&condition.test, &mut starts)?;
    }
    if starts.len() > MOST_SEGMENTS {
        starts.clear();
    }
    starts.as_mut_slice().sort_unstable();
    Ok(starts)
}

/// Adds each number at which the set of a test begins or ends, as long as there is room.
fn add_starts(test: &Test, starts: &mut Vec<i128>) -> Result<(), OutOfMemory> {
    let Test::Numbers(set) = test else {
        return Ok(());
    };
    let mut last = set.alike_to(i128::MIN);
    while last < i128::MAX && starts.len() <= MOST_SEGMENTS {
        starts.push(last + 1)?;
        last = set.alike_to(last + 1);
    }
    Ok(())
}
