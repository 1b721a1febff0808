//! How many frames each rule of two policies let through or stopped.
ghost use Rattle.std.specs.Prelude.{◌≡◌, ◌++◌, ℕ, List, Option, [], ◌∷◌, Some, codes, decimal, map, true, IfOk, OnOk};
ghost use Rattle.guard_frames.specs.Bodies.{body_in, body_view};
ghost use Rattle.guard_frames.specs.Totals.{later};
ghost use Rattle.guard_policy.specs.PolicyView.{policy_view};
ghost use Rattle.guard_authors.specs.Differing.{comparison_view};
ghost use Rattle.guard_authors.specs.Summary.{lines_of, place_of, policy_lines, reason_line};
ghost use Rattle.guard_authors.specs.Summary.{rule_line, rule_of, IsRow};
ghost use Rattle.guard_authors.specs.inside.Counting.{count_at, summed, AreCounts, BeginsCounting};
ghost use Rattle.guard_authors.specs.inside.Counting.{CountsFrame, IsCount};
ghost use Rattle.guard_authors.specs.declared.summary.Row.{Row};

use crate::differing::{Comparison, Tally};
use guard_files::{add, add_said};
use guard_frames::{Body, Reason, Why, read_body, reason_of, route_of};
use guard_model::OutOfMemory;
use guard_policy::{Passing, Policy};
use itoa::Buffer;
use std::alloc::{AllocError, Global};

/// The reasons why no rule has a frame, in the order of their places in the table.
const REASONS: [&str; 6] = [
    "bad-header",
    "unknown-message",
    "undecodable",
    "outside-type",
    "not-allowed",
    "no-rule",
];

/// In which row of a policy's table a frame is counted.
#[derive(Clone, Copy, Debug, PartialEq, Eq)]
pub enum Row {
    /// It goes, by the rule of this number.
    Goes(usize),
    /// It stays, for this reason.
    Stays(Why),
}

impl Row {
    /// The number of the rule that has it: the one by which it goes, or which denies it.
    fn rule(self) -> Option<usize>
        ensures { result ≡ rule_of self }
    {
        match self {
            Row::Goes(rule) | Row::Stays(Why::Decided(Reason::DeniedBy(rule))) => Some(rule),
            Row::Stays(_) => None,
        }
    }

    /// The place in the table, from 0, of the reason why no rule has it.
    fn place(self) -> Option<usize>
        ensures { result ≡ place_of self }
    {
        let Row::Stays(why) = self else {
            return None;
        };
        match why {
            Why::BadHeader => Some(0),
            Why::Decided(Reason::UnknownMessage) => Some(1),
            Why::Decided(Reason::Undecodable) => Some(2),
            Why::Decided(Reason::OutsideType) => Some(3),
            Why::Decided(Reason::NotAllowed) => Some(4),
            Why::Decided(Reason::NoRule) => Some(5),
            Why::NoMemory | Why::Decided(Reason::DeniedBy(_)) => None,
        }
    }
}

/// How many frames were counted in each row. Each number stays at the greatest of 64 bits.
#[derive(Drop)]
pub struct Counts {
    pub rules: Vec<u64>,
    pub reasons: Vec<u64>,
}

/// What is counted of the frames under both policies.
#[derive(Drop)]
pub struct Sums {
    pub tally: Tally,
    pub under_old: Counts,
    pub under_new: Counts,
}

impl Counts {
    /// Before the first frame, where there are so many rules.
    fn none(alloc: Global, rules: usize) -> Result<Counts, AllocError>
        ensures { IfOk result (λ counts. AreCounts rules [] counts) }
    {
        Ok(Counts {
            rules: vec![in alloc; 0u64; rules]?,
            reasons: vec![in alloc; 0u64; REASONS.len()]?,
        })
    }

    /// Counts a frame in this row.
    fn add(&mut self, row: Row)
        ensures { (many : ℕ) (rows : List Row) → AreCounts many rows self.old
            → AreCounts many (rows ++ row ∷ []) self.new }
    {
        count_one(&mut self.rules, row.rule());
        count_one(&mut self.reasons, row.place());
    }
}

/// Counts one more at this place, if there is one.
fn count_one(counts: &mut Vec<u64>, place: Option<usize>)
    ensures { (place_in : Row → Option ℕ) (many : ℕ) (rows : List Row) (row : Row) → place ≡ place_in row
        → IsCount place_in many rows counts.old.items → IsCount place_in many (rows ++ row ∷ []) counts.new.items }
{
    let Some(number) = place else {
        return;
    };
    if number < counts.len() {
        let more = one_more(counts[number]);
        counts[number] = more;
    }
}

fn one_more(count: u64) -> u64
    ensures { result ≡ later count 1 }
{
    count.saturating_add(1)
}

impl Sums {
    /// Before the first frame.
    pub fn none(alloc: Global, comparison: &Comparison) -> Result<Sums, OutOfMemory>
        ensures { IfOk result (λ sums. BeginsCounting (comparison_view comparison.now) sums) }
    {
        let under_old = Counts::none(alloc, comparison.old.rules())?;
        let under_new = Counts::none(alloc, comparison.new.rules())?;
        Ok(Sums {
            tally: Tally::none(),
            under_old,
            under_new,
        })
    }

    /// Counts the frame with this body under both policies.
    pub fn count(
        &mut self,
        alloc: Global,
        comparison: &Comparison,
        body: &[u8],
    ) -> Result<(), OutOfMemory>
        ensures counted { OnOk result (CountsFrame (comparison_view comparison.now) (body_in body.now)
            self.old self.new) }
        ensures kept { self.new.tally ≡ self.old.tally }
    {
        let before = row_of(alloc, comparison.old, body)?;
        let after = row_of(alloc, comparison.new, body)?;
        self.under_old.add(before);
        self.under_new.add(after);
        Ok(())
    }
}

// ---- the row of a frame

fn row_of(alloc: Global, policy: &Policy, body: &[u8]) -> Result<Row, OutOfMemory>
    ensures { IfOk result (IsRow (policy_view policy.now) (body_in body.now)) }
{
    match read_body(body) {
        Some(body) => decided_row(alloc, policy, &body),
        None => Ok(Row::Stays(Why::BadHeader)),
    }
}

fn decided_row(alloc: Global, policy: &Policy, body: &Body) -> Result<Row, OutOfMemory>
    ensures { IfOk result (IsRow (policy_view policy.now) (Some (body_view body.now))) }
{
    let route = route_of(body);
    match policy.look_at(&route, body.message_octets) {
        Passing::Goes(rule) => Ok(Row::Goes(rule)),
        Passing::Stopped(told) => {
            let verdict = policy.reason_as_told(alloc, &route, body.message_octets, told)?;
            Ok(Row::Stays(Why::Decided(reason_of(&verdict))))
        }
    }
}

// ---- the table

/// The table of both policies, where it is asked for, and nothing else. It fails only where memory runs out.
pub fn summary_text(
    alloc: Global,
    comparison: &Comparison,
    sums: &Sums,
) -> Result<Vec<u8>, OutOfMemory>
    ensures { IfOk result (λ text. text.items
        ≡ summed comparison.now.summary (comparison_view comparison.now) sums.now) }
{
    if comparison.summary {
        both_text(alloc, comparison, sums)
    } else {
        Ok(Vec::new(alloc))
    }
}

fn both_text(alloc: Global, comparison: &Comparison, sums: &Sums) -> Result<Vec<u8>, OutOfMemory>
    ensures { IfOk result (λ text. text.items ≡ summed true (comparison_view comparison.now) sums.now) }
{
    let mut text = Vec::new(alloc);
    add(&mut text, b"old policy:\n")?;
    add_policy(&mut text, comparison.old, &sums.under_old)?;
    add(&mut text, b"new policy:\n")?;
    add_policy(&mut text, comparison.new, &sums.under_new)?;
    Ok(text)
}

fn add_policy(text: &mut Vec<u8>, policy: &Policy, counts: &Counts) -> Result<(), OutOfMemory>
    ensures { OnOk result (text.new.items ≡ text.old.items ++ policy_lines (policy_view policy.now)
        (count_at counts.now.rules.items) (count_at counts.now.reasons.items)) }
{
    add_rules(text, policy, &counts.rules)?;
    add_reasons(text, &REASONS, &counts.reasons)
}

/// Adds the line of each rule, in the order of the file.
fn add_rules(text: &mut Vec<u8>, policy: &Policy, counts: &[u64]) -> Result<(), OutOfMemory>
    ensures { OnOk result (text.new.items
        ≡ text.old.items ++ lines_of rule_line (count_at counts.now) 0 (policy_view policy.now).rules) }
{
    for number in 0..policy.rules() {
        let Some(rule) = policy.rule(number) else {
            unreachable!();
        };
        add_said(text, &rule)?;
        add_count(text, count_at(counts, number))?;
    }
    Ok(())
}

/// Adds the line of each reason, in the order of their places.
fn add_reasons(text: &mut Vec<u8>, reasons: &[&str], counts: &[u64]) -> Result<(), OutOfMemory>
    ensures { OnOk result (text.new.items
        ≡ text.old.items ++ lines_of reason_line (count_at counts.now) 0 (map (λ reason. reason.now) reasons.now)) }
{
    for (place, reason) in reasons.iter().enumerate() {
        add_reason(text, reason, count_at(counts, place))?;
    }
    Ok(())
}

/// Adds the line of a reason that is there.
fn add_reason(text: &mut Vec<u8>, reason: &str, count: u64) -> Result<(), OutOfMemory>
    ensures { OnOk result (text.new.items ≡ text.old.items ++ reason_line count reason.now) }
{
    if count == 0 {
        return Ok(());
    }
    add(text, b"  ")?;
    add(text, reason.as_bytes())?;
    add_count(text, count)
}

/// Adds a number to its line, and ends the line.
fn add_count(text: &mut Vec<u8>, count: u64) -> Result<(), OutOfMemory>
    ensures { OnOk result (text.new.items ≡ text.old.items ++ (codes " " ++ decimal count ++ codes "\n")) }
{
    let mut buffer = Buffer::new();
    add(text, b" ")?;
    add(text, buffer.format(count).as_bytes())?;
    add(text, b"\n")
}

fn count_at(counts: &[u64], number: usize) -> u64
    ensures { result ≡ count_at counts.now number }
{
    match counts.get(number) {
        Some(count) => *count,
        None => 0,
    }
}
