//! Numbers whose contents octets fail nothing at a node.
ghost use Rattle.std.specs.Prelude.{◌≡◌, ◌≤ℤ◌, ◌⊎◌, ℕ, ℤ, List, None, true, map, int_lt, IsTrue};
ghost use Rattle.guard_integers.specs.Integers.{holds};
ghost use Rattle.guard_model.specs.NamedLists.{named_view};
ghost use Rattle.guard_der.specs.Octets.{twos_complement};
ghost use Rattle.guard_der.specs.Simple.{integer_fault};
ghost use Rattle.guard_tables.specs.NodeViews.{test_view, condition_view};
ghost use Rattle.guard_tables.specs.Slots.{none};
ghost use Rattle.guard_tables.specs.TableNodes.{Spot, spot_of, IsFree};
ghost use Rattle.guard_tables.specs.inside.Intervals.{IsWithin, PassesTest, PassesAll, IsItemPassed, IsPassed};

use crate::node::{Cold, Condition, Hot, Kind, SimpleKind, Test};
use crate::slots::Slots;
use guard_integers::IntSet;
use guard_model::Named;

/// So many runs of a set's numbers are looked at, from the first on.
const MOST_RUNS: usize = 1024;

/// Numbers from the first to the second, both in; none where the second is below the first.
#[derive(Clone, Copy)]
pub(crate) struct Interval {
    pub low: i32,
    pub high: i32,
}

/// Numbers such that contents octets that spell one of them are lawful at this node, fail nothing there, and aren't a
/// default's. There are none for a node that has a default, or where presence fails something.
pub(crate) fn plain_interval(hot: &Hot, cold: &Cold) -> Interval
    ensures { (spots : List Spot) (os : List ℕ) → integer_fault os ≡ None → result.low ≤ℤ twos_complement os
        → twos_complement os ≤ℤ result.high → IsFree (spot_of hot.now cold.now spots) os }
{
    match hot.kind {
        Kind::Simple(kind) if is_unwatched(cold) => numbers_passed(kind, cold),
        _ => Interval::empty(),
    }
}

impl Interval {
    fn empty() -> Interval
        ensures { (z : ℤ) → IsWithin result z → ⊥ }
    {
        Interval { low: 1, high: 0 }
    }

    fn is_empty(self) -> bool
        ensures { result ≡ int_lt self.high self.low }
    {
        self.high < self.low
    }

    fn width(self) -> i64 {
        i64::from(self.high) - i64::from(self.low)
    }
}

fn is_unwatched(cold: &Cold) -> bool
    ensures { IsTrue result → (cold.now.present ≡ none) × (cold.now.default ≡ None) }
{
    cold.present == Slots::none() && cold.default.is_none()
}

/// Numbers that are lawful for the kind and pass all conditions; none where its contents octets spell no numbers.
fn numbers_passed(kind: SimpleKind, cold: &Cold) -> Interval
    ensures { (os : List ℕ) → integer_fault os ≡ None → IsWithin result (twos_complement os) →
        IsPassed kind cold.now os }
{
    match kind {
        SimpleKind::Integer => passed_by_all(&cold.conditions.list),
        SimpleKind::Enumerated => longest_run(cold.items.as_slice(), &cold.conditions.list),
        _ => Interval::empty(),
    }
}

// ---- of INTEGER

/// Numbers that pass all of these.
fn passed_by_all(conditions: &[Condition]) -> Interval
    ensures { (z : ℤ) → IsWithin result z → PassesAll z (map condition_view conditions.now) }
{
    let mut passed = Interval {
        low: i32::MIN,
        high: i32::MAX,
    };
    for condition in conditions {
        passed = passed_of(passed, &condition.test);
    }
    passed
}

/// Numbers of those so far that pass this test too: some run of them.
fn passed_of(passed: Interval, test: &Test) -> Interval
    ensures { (z : ℤ) → IsWithin result z → IsWithin passed z × PassesTest z (test_view test.now) }
{
    match test {
        Test::Numbers(set) => widest(passed, set),
        _ => Interval::empty(),
    }
}

/// The longest run of these numbers that the set holds, among the first 1024 runs.
fn widest(passed: Interval, set: &IntSet) -> Interval
    ensures { (z : ℤ) → IsWithin result z → IsWithin passed z × (holds set.now z ≡ true) }
{
    let mut best = Interval::empty();
    let mut left = passed;
    for _ in 0..MOST_RUNS {
        if left.is_empty() {
            return best;
        }
        let run = first_run(left, set);
        best = wider(best, if_held(run, set));
        left = rest_after(left, run);
    }
    best
}

/// The first of these numbers, as long as the set holds all of them, or none.
fn first_run(numbers: Interval, set: &IntSet) -> Interval
    requires { numbers.low ≤ℤ numbers.high }
    ensures { (z : ℤ) → IsWithin result z → IsWithin numbers z × (holds set.now z ≡ holds set.now result.low) }
{
    let last = set.alike_to(i128::from(numbers.low));
    Interval {
        low: numbers.low,
        high: last.min(i128::from(numbers.high)) as i32,
    }
}

/// The run, or no number where the set doesn't hold the first one.
fn if_held(run: Interval, set: &IntSet) -> Interval
    ensures { (z : ℤ) → IsWithin result z → IsWithin run z × (holds set.now run.low ≡ true) }
{
    if set.has(i128::from(run.low)) {
        run
    } else {
        Interval::empty()
    }
}

fn wider(first: Interval, second: Interval) -> Interval
    ensures { (z : ℤ) → IsWithin result z → IsWithin first z ⊎ IsWithin second z }
{
    if second.width() > first.width() {
        second
    } else {
        first
    }
}

/// The numbers that come after a run of them.
fn rest_after(numbers: Interval, run: Interval) -> Interval
    ensures { (z : ℤ) → IsWithin result z → IsWithin numbers z }
{
    match run.high.checked_add(1) {
        Some(next) => Interval {
            low: next.max(numbers.low),
            high: numbers.high,
        },
        None => Interval::empty(),
    }
}

// ---- of ENUMERATED

/// The longest run of items with consecutive numbers, in the order in which they are written, all of which pass.
fn longest_run(items: &[Named], conditions: &[Condition]) -> Interval
    ensures { (z : ℤ) → IsWithin result z → IsItemPassed z (map (λ n. n.number) (map named_view items.now))
        (map condition_view conditions.now) }
{
    let mut longest = Interval::empty();
    let mut run = Interval::empty();
    for item in items {
        run = run_with(run, item.number, conditions);
        if run.width() > longest.width() {
            longest = run;
        }
    }
    longest
}

/// The run that ends with this number; none where it doesn't pass.
fn run_with(run: Interval, number: i128, conditions: &[Condition]) -> Interval
    ensures { (z : ℤ) → IsWithin result z
        → IsWithin run z ⊎ ((z ≡ number) × PassesAll number (map condition_view conditions.now)) }
{
    if !passes_all(conditions, number) {
        return Interval::empty();
    }
    match i32::try_from(number) {
        Ok(number) => extended(run, number),
        Err(_) => Interval::empty(),
    }
}

/// The run with this number, where it follows the last one; else the run of this number alone.
fn extended(run: Interval, number: i32) -> Interval
    ensures { (z : ℤ) → IsWithin result z → IsWithin run z ⊎ (z ≡ number) }
{
    let follows = i64::from(number) == i64::from(run.high) + 1;
    Interval {
        low: if follows { run.low } else { number },
        high: number,
    }
}

fn passes_all(conditions: &[Condition], number: i128) -> bool
    ensures { result ≡ true → PassesAll number (map condition_view conditions.now) }
{
    for condition in conditions {
        if !passes(&condition.test, number) {
            return false;
        }
    }
    true
}

fn passes(test: &Test, number: i128) -> bool
    ensures { result ≡ true → PassesTest number (test_view test.now) }
{
    match test {
        Test::Numbers(set) => set.has(number),
        _ => false,
    }
}
