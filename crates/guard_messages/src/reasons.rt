//! What comes below the text of a verdict where it is to be explained.
ghost use Rattle.std.specs.Prelude.{◌≡◌, ◌++◌, [], Some, codes, map, option_map, slice_get, IfOk, OnOk};
ghost use Rattle.guard_model.specs.TypeView.{type_view, constraint_view, constraints_of};
ghost use Rattle.guard_model.specs.ValueView.{value_view};
ghost use Rattle.guard_eval.specs.Violations.{violation_view, shortfall_view};
ghost use Rattle.guard_policy.specs.Decisions.{IsReason};
ghost use Rattle.guard_policy.specs.PolicyView.{policy_view, route_view, said_view};
ghost use Rattle.guard_policy.specs.Verdicts.{verdict_view};
ghost use Rattle.guard_notes.specs.Sources.{place_lines, sources_view};
ghost use Rattle.guard_files.specs.Places.{places_in, places_of};
ghost use Rattle.guard_files.specs.Allowed.{OfValue, HasValue};
ghost use Rattle.guard_messages.specs.RuleTypes.{grounds_view};
ghost use Rattle.guard_messages.specs.Reasons.{message_rules, step_name, name_at, name_before, part_shown, part_line};
ghost use Rattle.guard_messages.specs.Reasons.{violation_lines, shortfall_lines, lines_of_places};
ghost use Rattle.guard_messages.specs.Reasons.{denied_lines, NotesVerdict};
ghost use Rattle.guard_notes.specs.declared.notes.Place.TheVariants.{At};

use crate::message_rules::message_rules;
use crate::rule_types::{Grounds, rule_type_lines};
use guard_eval::Violation;
use guard_files::{add, allowing_octets, value_of};
use guard_model::{Cons, OutOfMemory, Site, Step, Ty, Value};
use guard_notes::{Place, Sources, columns, place_lines};
use guard_policy::{Policy, Route, SaidRule, Verdict};
use guard_report::{part_text, type_at};
use std::alloc::Global;

/// What comes below the text of the verdict, which is the policy's on these octets, to explain it. It fails only where
/// memory runs out.
pub fn verdict_note(
    alloc: Global,
    explain: bool,
    grounds: &Grounds,
    policy: &Policy,
    route: &Route,
    octets: &[u8],
    verdict: &Verdict,
) -> Result<Vec<u8>, OutOfMemory>
    requires { IsReason (policy_view policy.now) (route_view route.now) octets.now (verdict_view verdict.now) }
    ensures { IfOk result (λ note. NotesVerdict explain (grounds_view grounds.now) (policy_view policy.now)
        (route_view route.now) octets.now (verdict_view verdict.now) note.items) }
{
    if !explain {
        return Ok(Vec::new(alloc));
    }
    match verdict {
        Verdict::Pass => Ok(allowing_octets(alloc, policy, route, octets)?.lines),
        Verdict::UnknownMessage => sentence(
            alloc,
            "  The policy declares no message of this name.\n",
        ),
        Verdict::Undecodable(_) => sentence(
            alloc,
            "  The octets are no DER encoding of a value of the declared type. docs/FAULTS.md has the breaches.\n",
        ),
        Verdict::OutsideType(violation) => {
            outside_note(alloc, &grounds.sources, policy, route, octets, violation)
        }
        Verdict::DeniedBy(number) => {
            denied_by_note(alloc, grounds, policy, route, octets, *number)
        }
        Verdict::NotAllowed(shortfalls) => {
            not_allowed_note(alloc, &grounds.sources, policy, route, octets, shortfalls)
        }
        Verdict::NoRule => no_rule_note(alloc, policy, route.message),
    }
}

/// That no rule allows anything, and each rule of the message.
fn no_rule_note(alloc: Global, policy: &Policy, message: &[u8]) -> Result<Vec<u8>, OutOfMemory>
    ensures { IfOk result (λ note. note.items ≡ codes "  No rule of the policy allows anything on this route.\n"
        ++ message_rules message.now (policy_view policy.now).rules) }
{
    let rules = message_rules(alloc, policy, message)?;
    let mut note = sentence(
        alloc,
        "  No rule of the policy allows anything on this route.\n",
    )?;
    add(&mut note, &rules)?;
    Ok(note)
}

fn sentence(alloc: Global, text: &str) -> Result<Vec<u8>, OutOfMemory>
    ensures { IfOk result (λ note. note.items ≡ text.now) }
{
    Ok(Vec::from_slice(alloc, text.as_bytes())?)
}

/// What is shown of the constraint of the declared type that fails.
fn outside_note(
    alloc: Global,
    sources: &Sources,
    policy: &Policy,
    route: &Route,
    octets: &[u8],
    violation: &Violation,
) -> Result<Vec<u8>, OutOfMemory>
    requires { HasValue (policy_view policy.now) (route_view route.now).message octets.now }
    ensures { IfOk result (λ note. OfValue (policy_view policy.now) (route_view route.now).message octets.now
        (λ t v. note.items ≡ violation_lines (sources_view sources.now) t v (violation_view violation.now))) }
{
    let (ty, value) = value_of(alloc, policy, route.message, octets)?;
    let mut note = Vec::new(alloc);
    add_violation(alloc, &mut note, sources, ty, &value, violation)?;
    Ok(note)
}

/// What is shown of the constraints of allowing rules that fail.
fn not_allowed_note(
    alloc: Global,
    sources: &Sources,
    policy: &Policy,
    route: &Route,
    octets: &[u8],
    shortfalls: &[(usize, Violation)],
) -> Result<Vec<u8>, OutOfMemory>
    requires { HasValue (policy_view policy.now) (route_view route.now).message octets.now }
    ensures { IfOk result (λ note. OfValue (policy_view policy.now) (route_view route.now).message octets.now
        (λ t v. note.items ≡ shortfall_lines (sources_view sources.now) t v (map shortfall_view shortfalls.now))) }
{
    let (ty, value) = value_of(alloc, policy, route.message, octets)?;
    let mut note = Vec::new(alloc);
    add_shortfalls(alloc, &mut note, sources, ty, &value, shortfalls)?;
    Ok(note)
}

/// What is shown of the denying rule of this number, and the value that it has.
fn denied_by_note(
    alloc: Global,
    grounds: &Grounds,
    policy: &Policy,
    route: &Route,
    octets: &[u8],
    number: usize,
) -> Result<Vec<u8>, OutOfMemory>
    requires { HasValue (policy_view policy.now) (route_view route.now).message octets.now }
    ensures { IfOk result (λ note. OfValue (policy_view policy.now) (route_view route.now).message octets.now
        (λ t v. note.items ≡ denied_lines (grounds_view grounds.now)
        (slice_get (policy_view policy.now).rules number) ++ part_line t v [])) }
{
    let (ty, value) = value_of(alloc, policy, route.message, octets)?;
    let mut note = denied_note(alloc, grounds, policy.rule(number))?;
    add_part(alloc, &mut note, ty, &value, &[])?;
    Ok(note)
}

/// What is shown of a denying rule.
fn denied_note(
    alloc: Global,
    grounds: &Grounds,
    rule: Option<SaidRule>,
) -> Result<Vec<u8>, OutOfMemory>
    ensures { IfOk result (λ note. note.items
        ≡ denied_lines (grounds_view grounds.now) (option_map said_view rule.entry)) }
{
    match rule {
        Some(rule) => denying_note(alloc, grounds, &rule),
        None => Ok(Vec::new(alloc)),
    }
}

/// The type of a denying rule, where that is assigned and constrained, and what follows for the value.
fn denying_note(alloc: Global, grounds: &Grounds, rule: &SaidRule) -> Result<Vec<u8>, OutOfMemory>
    ensures { IfOk result (λ note. note.items
        ≡ denied_lines (grounds_view grounds.now) (Some (said_view rule.now))) }
{
    let lines = rule_type_lines(alloc, grounds, rule)?;
    let constraints = type_lines(alloc, &grounds.sources, rule.ty)?;
    let mut note = sentence(alloc, &lines)?;
    add(&mut note, &constraints)?;
    add(
        &mut note,
        b"  This denying rule has the value, so no allowing rule can let it pass.\n",
    )?;
    Ok(note)
}

/// The line of each of the constraints on a whole value of the type.
fn type_lines(alloc: Global, sources: &Sources, ty: &Ty) -> Result<Vec<u8>, OutOfMemory>
    ensures { IfOk result (λ lines. lines.items
        ≡ lines_of_places (sources_view sources.now) (places_of (type_view ty.now))) }
{
    constraint_lines(alloc, sources, &ty.cons)
}

/// The line of each of the constraints, with a mark.
fn constraint_lines(
    alloc: Global,
    sources: &Sources,
    constraints: &[Cons],
) -> Result<Vec<u8>, OutOfMemory>
    ensures { IfOk result (λ lines. lines.items ≡ lines_of_places (sources_view sources.now)
        (places_in (constraints_of (map constraint_view constraints.now)))) }
{
    let mut lines = Vec::new(alloc);
    for constraint in constraints {
        add_place(alloc, &mut lines, sources, &constraint.site)?;
    }
    Ok(lines)
}

fn add_place(
    alloc: Global,
    lines: &mut Vec<u8>,
    sources: &Sources,
    site: &Site,
) -> Result<(), OutOfMemory>
    ensures { OnOk result (lines.new.items ≡ lines.old.items ++ place_lines (sources_view sources.now) (At site.now)) }
{
    let place = place_lines(alloc, sources, Place::At(*site))?;
    add(lines, place.as_bytes())
}

fn add_shortfalls(
    alloc: Global,
    note: &mut Vec<u8>,
    sources: &Sources,
    ty: &Ty,
    value: &Value,
    shortfalls: &[(usize, Violation)],
) -> Result<(), OutOfMemory>
    ensures { OnOk result (note.new.items
        ≡ note.old.items ++ shortfall_lines (sources_view sources.now) (type_view ty.now) (value_view value.now)
        (map shortfall_view shortfalls.now)) }
{
    for shortfall in shortfalls {
        add_shortfall(alloc, note, sources, ty, value, shortfall)?;
    }
    Ok(())
}

fn add_shortfall(
    alloc: Global,
    note: &mut Vec<u8>,
    sources: &Sources,
    ty: &Ty,
    value: &Value,
    shortfall: &(usize, Violation),
) -> Result<(), OutOfMemory>
    ensures { OnOk result (note.new.items
        ≡ note.old.items ++ violation_lines (sources_view sources.now) (type_view ty.now) (value_view value.now)
        (shortfall_view shortfall.now).1) }
{
    let (_, violation) = shortfall;
    add_violation(alloc, note, sources, ty, value, violation)
}

/// Appends the line of the constraint and the part of the value that fails it.
fn add_violation(
    alloc: Global,
    note: &mut Vec<u8>,
    sources: &Sources,
    ty: &Ty,
    value: &Value,
    violation: &Violation,
) -> Result<(), OutOfMemory>
    ensures { OnOk result (note.new.items
        ≡ note.old.items ++ violation_lines (sources_view sources.now) (type_view ty.now) (value_view value.now)
        (violation_view violation.now)) }
{
    let place = place_lines(alloc, sources, Place::At(violation.site))?;
    add(note, place.as_bytes())?;
    add_part(alloc, note, ty, value, &violation.path)
}

fn add_part(
    alloc: Global,
    note: &mut Vec<u8>,
    ty: &Ty,
    value: &Value,
    path: &[Step],
) -> Result<(), OutOfMemory>
    ensures { OnOk result (note.new.items
        ≡ note.old.items ++ part_line (type_view ty.now) (value_view value.now) path.now) }
{
    let text = part_text(alloc, ty, value, path)?;
    add(note, b"  ")?;
    add_name(note, name_at(ty, path))?;
    add_shown(alloc, note, text)?;
    add(note, b"\n")
}

fn add_name(note: &mut Vec<u8>, name: Option<&str>) -> Result<(), OutOfMemory>
    ensures { OnOk result (note.new.items ≡ note.old.items ++ name_before (option_map (λ name. name.now) name.entry)) }
{
    match name {
        Some(name) => {
            add(note, name.as_bytes())?;
            add(note, b" ")
        }
        None => Ok(()),
    }
}

fn add_shown(alloc: Global, note: &mut Vec<u8>, text: Option<Vec<u8>>) -> Result<(), OutOfMemory>
    ensures { OnOk result (note.new.items ≡ note.old.items ++ part_shown (option_map (λ text. text.items) text)) }
{
    match text {
        Some(text) => add(note, columns(alloc, &text)?.as_bytes()),
        None => add(note, b"absent"),
    }
}

/// What the type calls the component or alternative to which the last step of the path leads.
fn name_at<'a>(ty: &'a Ty, path: &[Step]) -> Option<&'a str>
    ensures { option_map (λ name. name.now) result ≡ name_at (Some (type_view ty.now)) path.now }
{
    let (last, before) = path.split_last()?;
    step_name(type_at(ty, before)?, *last)
}

fn step_name(ty: &Ty, step: Step) -> Option<&str>
    ensures { option_map (λ name. name.now) result ≡ step_name (Some (type_view ty.now)) step }
{
    match step {
        Step::Component(place) => Some(ty.kind.component(place)?.name.as_str()),
        Step::Element(_) => None,
    }
}
