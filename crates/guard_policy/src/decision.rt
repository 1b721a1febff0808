//! What becomes of a message.
ghost use Rattle.std.specs.Prelude.{◌≡◌, ◌&&◌, true, map, option_map, IsTrue, IfOk};
ghost use Rattle.guard_model.specs.TypeView.{type_view};
ghost use Rattle.guard_model.specs.ValueView.{value_view};
ghost use Rattle.guard_der.specs.Fits.{fits};
ghost use Rattle.guard_der.specs.Sound.{is_sound};
ghost use Rattle.guard_policy.specs.PolicyView.{route_view};
ghost use Rattle.guard_policy.specs.Verdicts.{verdict_view};
ghost use Rattle.guard_policy.specs.inside.Applicable.{AreApplicable};
ghost use Rattle.guard_policy.specs.inside.KeptRules.{rules_kept};
ghost use Rattle.guard_policy.specs.Decisions.{is_allowing, speaks_of, denies, first_denying, by_allowing, judged};
ghost use Rattle.guard_policy.specs.SaidView.{said_view};
ghost use Rattle.guard_policy.specs.inside.Listings.{rules_at, heard, denies_at, allowing_at};

use super::kept::Kept;
use super::policy::{Effect, SaidRule};
use super::route::Route;
use super::verdict::Verdict;
use guard_eval::{first_violation, member};
use guard_model::{OutOfMemory, Ty, Value};
use std::alloc::Global;

/// The verdict on a value of the declared type, by the rules of these numbers. Where it is known that no allowing rule
/// has the value, and this is why, neither the declared type nor a denying rule is asked of it. Conditions: the type is
/// sound, the value fits it, and it fits the type of each rule that speaks of the route.
pub fn judge(
    alloc: Global,
    kept: &Kept,
    numbers: &[usize],
    route: &Route,
    ty: &Ty,
    value: &Value,
    is_unallowed: bool,
) -> Result<Verdict, OutOfMemory>
    requires type_sound { IsTrue (is_sound (type_view ty.now)) }
    requires value_fits { IsTrue (fits (type_view ty.now) (value_view value.now)) }
    requires rules_applicable { AreApplicable (route_view route.now) (value_view value.now) (rules_kept kept.now) }
    requires unallowed { is_unallowed ≡ true
        → judged (type_view ty.now) (heard (route_view route.now) (rules_at (rules_kept kept.now) numbers.now))
        (value_view value.now)
        ≡ by_allowing (heard (route_view route.now) (rules_at (rules_kept kept.now) numbers.now))
        (value_view value.now) }
    ensures { IfOk result (λ w. verdict_view w
        ≡ judged (type_view ty.now) (heard (route_view route.now) (rules_at (rules_kept kept.now) numbers.now))
        (value_view value.now)) }
{
    if is_unallowed {
        return judge_by_allowing(alloc, kept, numbers, route, value);
    }
    if let Some(violation) = first_violation(ty, value) {
        return Ok(Verdict::OutsideType(violation));
    }
    if let Some(rule) = first_denying_rule(kept, numbers, route, value) {
        return Ok(Verdict::DeniedBy(rule));
    }
    judge_by_allowing(alloc, kept, numbers, route, value)
}

/// The number of the first of these rules that speaks of the route and denies the value; None where none does.
fn first_denying_rule(kept: &Kept, numbers: &[usize], route: &Route, value: &Value) -> Option<usize>
    requires { AreApplicable (route_view route.now) (value_view value.now) (rules_kept kept.now) }
    ensures { result ≡ first_denying (heard (route_view route.now) (rules_at (rules_kept kept.now) numbers.now))
        (value_view value.now) }
{
    for number in numbers {
        if denies_at(kept, *number, route, value) {
            return Some(*number);
        }
    }
    None
}

/// The verdict of those of these rules that speak of the route and allow something, where none denies the value.
fn judge_by_allowing(
    alloc: Global,
    kept: &Kept,
    numbers: &[usize],
    route: &Route,
    value: &Value,
) -> Result<Verdict, OutOfMemory>
    requires { AreApplicable (route_view route.now) (value_view value.now) (rules_kept kept.now) }
    ensures { IfOk result (λ w. verdict_view w
        ≡ by_allowing (heard (route_view route.now) (rules_at (rules_kept kept.now) numbers.now))
        (value_view value.now)) }
{
    let mut shortfalls = Vec::new(alloc);
    for number in numbers {
        if let Some(rule) = allowing_at(kept, *number, route) {
            match first_violation(rule.ty, value) {
                None => return Ok(Verdict::Pass),
                Some(violation) => shortfalls.push((*number, violation))?,
            }
        }
    }
    if shortfalls.is_empty() {
        Ok(Verdict::NoRule)
    } else {
        Ok(Verdict::NotAllowed(shortfalls))
    }
}

/// Whether the rule of this number speaks of the route and denies the value.
fn denies_at(kept: &Kept, number: usize, route: &Route, value: &Value) -> bool
    requires { AreApplicable (route_view route.now) (value_view value.now) (rules_kept kept.now) }
    ensures { result ≡ denies_at (rules_kept kept.now) number (route_view route.now) (value_view value.now) }
{
    match kept.rule(number) {
        Some(rule) => rule.speaks_of(route) && rule_denies(&rule, value),
        None => false,
    }
}

/// The rule of this number, if it speaks of the route and is an allowing one; else None.
fn allowing_at<'a>(kept: &'a Kept, number: usize, route: &Route) -> Option<SaidRule<'a>>
    ensures { option_map said_view result ≡ allowing_at (rules_kept kept.now) number (route_view route.now) }
{
    match kept.rule(number) {
        Some(rule) if may_allow(route, &rule) => Some(rule),
        _ => None,
    }
}

fn rule_denies(rule: &SaidRule, value: &Value) -> bool
    requires sound { IsTrue (is_sound (type_view rule.now.ty.now)) }
    requires fits { IsTrue (fits (type_view rule.now.ty.now) (value_view value.now)) }
    ensures { result ≡ denies (said_view rule.now) (value_view value.now) }
{
    rule.effect == Effect::Deny && member(rule.ty, value)
}

/// Whether the rule is an allowing one and speaks of the route.
fn may_allow(route: &Route, rule: &SaidRule) -> bool
    ensures { result ≡ speaks_of (route_view route.now) (said_view rule.now) && is_allowing (said_view rule.now) }
{
    rule.speaks_of(route) && rule.effect == Effect::Allow
}
