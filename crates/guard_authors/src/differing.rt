//! The line of a frame that has another verdict under a new policy than under an old one.
ghost use Rattle.std.specs.Prelude.{◌≡◌, ◌++◌, ℕ, List, Some, map, string_bytes, true, IfOk, OnOk};
ghost use Rattle.guard_eval.specs.Violations.{shortfall_view};
ghost use Rattle.guard_frames.specs.Bodies.{body_in, body_view};
ghost use Rattle.guard_frames.specs.Totals.{later};
ghost use Rattle.guard_policy.specs.PolicyView.{policy_view, route_view};
ghost use Rattle.guard_policy.specs.Verdicts.{verdict_view};
ghost use Rattle.guard_authors.specs.Differing.{after, are_alike, comparison_view, compared_line, compared_status};
ghost use Rattle.guard_authors.specs.Differing.{differing_line, displaced_shortfall, no_frames, texts_view, total_line};
ghost use Rattle.guard_authors.specs.Differing.{without_places, written, AreVerdictTexts, IsLine};
ghost use Rattle.guard_authors.specs.inside.Counting.{CountsFrame};

use crate::summary::Sums;
use guard_eval::Violation;
use guard_files::add;
use guard_frames::{Body, read_body, route_of};
use guard_model::{OutOfMemory, Site};
use guard_policy::{Policy, Route, Verdict};
use guard_report::{add_route, verdict_text};
use itoa::Buffer;
use std::alloc::{AllocError, Global};

/// Two policies, whether the places of constraints count, and whether a summary stands for the lines of frames.
#[derive(Clone, Copy)]
pub struct Comparison<'p> {
    pub old: &'p Policy,
    pub new: &'p Policy,
    pub by_place: bool,
    pub summary: bool,
}

/// How many frames there were, and how many of them differ.
#[derive(Clone, Copy, Debug, PartialEq, Eq)]
pub struct Tally {
    pub frames: u64,
    pub differ: u64,
}

impl Tally {
    /// Before the first frame.
    pub fn none() -> Tally
        ensures { result ≡ no_frames }
    {
        Tally {
            frames: 0,
            differ: 0,
        }
    }

    /// The number of the frame that comes next, from 1.
    fn next_number(self) -> u64
        ensures { result ≡ later self.frames 1 }
    {
        self.frames.saturating_add(1)
    }

    /// After one more frame, with this line.
    fn after(self, line: &[u8]) -> Tally
        ensures { result ≡ after self line.now }
    {
        let frames = self.next_number();
        if line.is_empty() {
            Tally {
                frames,
                differ: self.differ,
            }
        } else {
            Tally {
                frames,
                differ: self.differ.saturating_add(1),
            }
        }
    }

    /// How many there were, as a line.
    pub fn text(self, alloc: Global) -> Result<String, AllocError>
        ensures { IfOk result (λ text. string_bytes text ≡ total_line self) }
    {
        let (frames, differ) = (self.frames, self.differ);
        format!(in alloc; "compared {frames} frames, {differ} differ\n")
    }

    /// The status where all were compared.
    pub fn status(self) -> u8
        ensures { result ≡ compared_status self }
    {
        if self.differ == 0 { 0 } else { 1 }
    }
}

/// Adds the line of the frame with this body, if there is one, and counts it; with a summary no line is added.
pub fn add_frame(
    alloc: Global,
    comparison: &Comparison,
    body: &[u8],
    sums: &mut Sums,
    lines: &mut Vec<u8>,
) -> Result<(), OutOfMemory>
    ensures line { OnOk result ((line : List ℕ)
        × IsLine (comparison_view comparison.now) (later sums.old.tally.frames 1) (body_in body.now) line
        × (sums.new.tally ≡ after sums.old.tally line)
        × (lines.new.items ≡ lines.old.items ++ written comparison.now.summary line)) }
    ensures counted { OnOk result (comparison.now.summary ≡ true
        → CountsFrame (comparison_view comparison.now) (body_in body.now) sums.old sums.new) }
{
    let line = frame_line(alloc, comparison, sums.tally.next_number(), body)?;
    note_frame(alloc, comparison, body, &line, sums, lines)?;
    sums.tally = sums.tally.after(&line);
    Ok(())
}

/// Adds the line of the frame with this body, or with a summary counts it in its rows.
fn note_frame(
    alloc: Global,
    comparison: &Comparison,
    body: &[u8],
    line: &[u8],
    sums: &mut Sums,
    lines: &mut Vec<u8>,
) -> Result<(), OutOfMemory>
    ensures line { OnOk result (lines.new.items ≡ lines.old.items ++ written comparison.now.summary line.now) }
    ensures counted { OnOk result (comparison.now.summary ≡ true
        → CountsFrame (comparison_view comparison.now) (body_in body.now) sums.old sums.new) }
    ensures kept { sums.new.tally ≡ sums.old.tally }
{
    if comparison.summary {
        sums.count(alloc, comparison, body)
    } else {
        add(lines, line)
    }
}

/// The line of the frame with this body; empty where its verdicts are alike.
fn frame_line(
    alloc: Global,
    comparison: &Comparison,
    number: u64,
    body: &[u8],
) -> Result<Vec<u8>, OutOfMemory>
    ensures { IfOk result (λ line. IsLine (comparison_view comparison.now) number (body_in body.now) line.items) }
{
    match read_body(body) {
        Some(body) => body_line(alloc, comparison, number, &body),
        None => Ok(Vec::new(alloc)),
    }
}

fn body_line(
    alloc: Global,
    comparison: &Comparison,
    number: u64,
    body: &Body,
) -> Result<Vec<u8>, OutOfMemory>
    ensures { IfOk result (λ line. IsLine (comparison_view comparison.now) number (Some (body_view body.now))
        line.items) }
{
    let route = route_of(body);
    let old = texts_of(alloc, comparison.old, &route, body.message_octets)?;
    let new = texts_of(alloc, comparison.new, &route, body.message_octets)?;
    compared_line(alloc, comparison.by_place, number, &route, &old, &new)
}

// ---- what is said of a message

/// The text of the verdict on a message, and the same without the places of constraints.
#[derive(Drop)]
struct VerdictTexts {
    whole: Vec<u8>,
    bare: Vec<u8>,
}

fn texts_of(
    alloc: Global,
    policy: &Policy,
    route: &Route,
    octets: &[u8],
) -> Result<VerdictTexts, OutOfMemory>
    ensures { IfOk result (λ said. AreVerdictTexts (policy_view policy.now) (route_view route.now) octets.now
        (texts_view said)) }
{
    let mut verdict = policy.verdict(alloc, route, octets)?;
    let whole = verdict_text(alloc, &verdict, route, policy)?;
    take_places(&mut verdict);
    let bare = verdict_text(alloc, &verdict, route, policy)?;
    Ok(VerdictTexts { whole, bare })
}

/// No token is here, since texts, lines and columns count from 1.
const NOWHERE: Site = Site {
    text: 0,
    line: 0,
    column: 0,
};

/// Takes the places of its constraints from the verdict.
fn take_places(verdict: &mut Verdict)
    ensures { verdict_view verdict.new ≡ without_places (verdict_view verdict.old) }
{
    match verdict {
        Verdict::OutsideType(violation) => violation.site = NOWHERE,
        Verdict::NotAllowed(shortfalls) => take_all_places(shortfalls),
        Verdict::Pass
        | Verdict::UnknownMessage
        | Verdict::Undecodable(_)
        | Verdict::DeniedBy(_)
        | Verdict::NoRule => {}
    }
}

fn take_all_places(shortfalls: &mut Vec<(usize, Violation)>)
    ensures { map shortfall_view shortfalls.new.items
        ≡ map displaced_shortfall (map shortfall_view shortfalls.old.items) }
{
    for shortfall in shortfalls.iter_mut() {
        shortfall.1.site = NOWHERE;
    }
}

/// The line of a message on which this is said; empty where that is alike.
fn compared_line(
    alloc: Global,
    by_place: bool,
    number: u64,
    route: &Route,
    old: &VerdictTexts,
    new: &VerdictTexts,
) -> Result<Vec<u8>, OutOfMemory>
    ensures { IfOk result (λ line. line.items
        ≡ compared_line by_place number (route_view route.now) (texts_view old.now) (texts_view new.now)) }
{
    if are_alike(by_place, old, new) {
        return Ok(Vec::new(alloc));
    }
    differing_line(alloc, number, route, &old.whole, &new.whole)
}

fn are_alike(by_place: bool, old: &VerdictTexts, new: &VerdictTexts) -> bool
    ensures { result ≡ are_alike by_place (texts_view old.now) (texts_view new.now) }
{
    old.whole.as_slice() == new.whole.as_slice()
        || (!by_place && old.bare.as_slice() == new.bare.as_slice())
}

fn differing_line(
    alloc: Global,
    number: u64,
    route: &Route,
    old: &[u8],
    new: &[u8],
) -> Result<Vec<u8>, OutOfMemory>
    ensures { IfOk result (λ line. line.items ≡ differing_line number (route_view route.now) old.now new.now) }
{
    let mut buffer = Buffer::new();
    let mut line = Vec::from_slice(alloc, buffer.format(number).as_bytes())?;
    add(&mut line, b" ")?;
    add_route(&mut line, route)?;
    add(&mut line, b" ")?;
    add(&mut line, old)?;
    add(&mut line, b" -> ")?;
    add(&mut line, new)?;
    add(&mut line, b"\n")?;
    Ok(line)
}
