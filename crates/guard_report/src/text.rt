//! The text of a verdict, as a report has it.
ghost use Rattle.std.specs.Prelude.{◌≡◌, ◌++◌, IfOk, IfSome, None, OnOk, codes, map, option_map};
ghost use Rattle.guard_policy.specs.Policies.{AbstractRoute};
ghost use Rattle.guard_policy.specs.PolicyView.{policy_view, route_view};
ghost use Rattle.guard_eval.specs.Violations.{violation_view, shortfall_view};
ghost use Rattle.guard_policy.specs.Verdicts.{reason_view, verdict_view};
ghost use Rattle.guard_der.specs.Views.{breach_view};
ghost use Rattle.guard_report.specs.Text.{verdict_octets, breach_text, violation_text, site_text, rule_text};
ghost use Rattle.guard_report.specs.Text.{shortfall_text, shortfalls_text};

use super::path::add_path;
use super::words::{add, add_name, add_number};
use guard_der::Breach;
use guard_eval::Violation;
use guard_model::{OutOfMemory, Site};
use guard_policy::{PlainReason, Policy, Route, Verdict};
use std::alloc::Global;

/// The text of a verdict on a message of the route, without a line feed: `pass`, or why the message stays, with the
/// names that the policy has for rules, modules and components. Where the policy has no such name, the number stands in
/// its place. OutOfMemory is the only error.
pub fn verdict_text(
    alloc: Global,
    verdict: &Verdict,
    route: &Route,
    policy: &Policy,
) -> Result<Vec<u8>, OutOfMemory>
    ensures { IfOk result (λ text. text.items
        ≡ verdict_octets (policy_view policy.now) (route_view route.now) (verdict_view verdict.now)) }
{
    let mut text = Vec::new(alloc);
    add_verdict(&mut text, verdict, route, policy)?;
    Ok(text)
}

/// Appends the text of a verdict.
pub fn add_verdict(
    text: &mut Vec<u8>,
    verdict: &Verdict,
    route: &Route,
    policy: &Policy,
) -> Result<(), OutOfMemory>
    ensures { OnOk result (text.new.items
        ≡ text.old.items ++ verdict_octets (policy_view policy.now) (route_view route.now) (verdict_view verdict.now)) }
{
    match verdict {
        Verdict::Pass => add(text, b"pass"),
        Verdict::UnknownMessage => add(text, b"unknown-message"),
        Verdict::Undecodable(breach) => {
            add(text, b"undecodable ")?;
            add_breach(text, breach, route, policy)
        }
        Verdict::OutsideType(violation) => {
            add(text, b"outside-type ")?;
            add_violation(text, violation, route, policy)
        }
        Verdict::DeniedBy(rule) => {
            add(text, b"denied-by ")?;
            add_rule(text, *rule, policy)
        }
        Verdict::NotAllowed(shortfalls) => {
            add(text, b"not-allowed ")?;
            add_shortfalls(text, shortfalls, route, policy)
        }
        Verdict::NoRule => add(text, b"no-rule"),
    }
}

/// Appends a space, the text of the verdict with this reason, which no route changes, and a line feed. Condition: the
/// reason has a verdict.
pub fn add_reason(
    text: &mut Vec<u8>,
    reason: PlainReason,
    policy: &Policy,
) -> Result<(), OutOfMemory>
    requires { reason_view reason ≡ None → ⊥ }
    ensures { OnOk result (IfSome (reason_view reason) (λ w. (route : AbstractRoute) → text.new.items
        ≡ text.old.items ++ (codes " " ++ verdict_octets (policy_view policy.now) route w ++ codes "\n"))) }
{
    match reason {
        PlainReason::UnknownMessage => add(text, b" unknown-message\n"),
        PlainReason::DeniedBy(rule) => {
            add(text, b" denied-by ")?;
            add_rule(text, rule, policy)?;
            add(text, b"\n")
        }
        PlainReason::NotAllowed => unreachable!(),
        PlainReason::NoRule => add(text, b" no-rule\n"),
    }
}

fn add_breach(
    text: &mut Vec<u8>,
    breach: &Breach,
    route: &Route,
    policy: &Policy,
) -> Result<(), OutOfMemory>
    ensures { OnOk result (text.new.items
        ≡ text.old.items ++ breach_text (policy_view policy.now) (route_view route.now) (breach_view breach.now)) }
{
    add(text, breach.code.name().as_bytes())?;
    add(text, b" at ")?;
    add_number(text, breach.at as u64)?;
    add(text, b" ")?;
    add_path(text, policy.declared(route.message), &breach.path)
}

/// Appends each rule with its first violation, separated by commas.
fn add_shortfalls(
    text: &mut Vec<u8>,
    shortfalls: &[(usize, Violation)],
    route: &Route,
    policy: &Policy,
) -> Result<(), OutOfMemory>
    ensures { OnOk result (text.new.items
        ≡ text.old.items ++ shortfalls_text (policy_view policy.now) (route_view route.now)
        (map shortfall_view shortfalls.now)) }
{
    let [first, rest @ ..] = shortfalls else {
        return Ok(());
    };
    add_shortfall(text, first, route, policy)?;
    for shortfall in rest {
        add(text, b", ")?;
        add_shortfall(text, shortfall, route, policy)?;
    }
    Ok(())
}

fn add_shortfall(
    text: &mut Vec<u8>,
    shortfall: &(usize, Violation),
    route: &Route,
    policy: &Policy,
) -> Result<(), OutOfMemory>
    ensures { OnOk result (text.new.items
        ≡ text.old.items ++ shortfall_text (policy_view policy.now) (route_view route.now)
        (shortfall_view shortfall.now)) }
{
    let (rule, violation) = shortfall;
    add_rule(text, *rule, policy)?;
    add(text, b" ")?;
    add_violation(text, violation, route, policy)
}

fn add_rule(text: &mut Vec<u8>, rule: usize, policy: &Policy) -> Result<(), OutOfMemory>
    ensures { OnOk result (text.new.items ≡ text.old.items ++ rule_text (policy_view policy.now) rule) }
{
    add_name(text, policy.rule_name(rule), rule as u64)
}

fn add_violation(
    text: &mut Vec<u8>,
    violation: &Violation,
    route: &Route,
    policy: &Policy,
) -> Result<(), OutOfMemory>
    ensures { OnOk result (text.new.items
        ≡ text.old.items ++ violation_text (policy_view policy.now) (route_view route.now)
        (violation_view violation.now)) }
{
    add_site(text, violation.site, policy)?;
    add(text, b" ")?;
    add_path(text, policy.declared(route.message), &violation.path)
}

fn add_site(text: &mut Vec<u8>, site: Site, policy: &Policy) -> Result<(), OutOfMemory>
    ensures { OnOk result (text.new.items ≡ text.old.items ++ site_text (policy_view policy.now) site) }
{
    add_name(text, policy.module(site.text), u64::from(site.text))?;
    add(text, b":")?;
    add_number(text, u64::from(site.line))?;
    add(text, b":")?;
    add_number(text, u64::from(site.column))
}
