//! Which rules a case reaches, and which none does.
ghost use Rattle.std.specs.Prelude.{◌≡◌, ◌++◌, OnOk, IfOk};
ghost use Rattle.guard_policy.specs.Decisions.{IsReason};
ghost use Rattle.guard_policy.specs.PolicyView.{policy_view, route_view};
ghost use Rattle.guard_policy.specs.Verdicts.{verdict_view};
ghost use Rattle.guard_authors.specs.Reached.{Reaches, cover_lines, unreached_line, unreached_lines};

use guard_files::{add_line, allowing_octets};
use guard_model::OutOfMemory;
use guard_policy::{Policy, Route, Verdict};
use std::alloc::Global;

/// The numbers of the rules that a case with these octets reaches, on which this is the policy's verdict.
pub fn reached(
    alloc: Global,
    policy: &Policy,
    route: &Route,
    octets: &[u8],
    verdict: &Verdict,
) -> Result<Vec<usize>, OutOfMemory>
    requires { IsReason (policy_view policy.now) (route_view route.now) octets.now (verdict_view verdict.now) }
    ensures { IfOk result (λ numbers. Reaches (policy_view policy.now) (route_view route.now) octets.now
        (verdict_view verdict.now) numbers.items) }
{
    match verdict {
        Verdict::Pass => Ok(allowing_octets(alloc, policy, route, octets)?.numbers),
        Verdict::DeniedBy(number) => Ok(Vec::from_slice(alloc, &[*number])?),
        _ => Ok(Vec::new(alloc)),
    }
}

/// The lines of the rules that no case reaches, where they are asked for.
pub fn cover_lines(
    alloc: Global,
    cover: bool,
    policy: &Policy,
    reached: &[usize],
) -> Result<Vec<u8>, OutOfMemory>
    ensures { IfOk result (λ lines. lines.items ≡ cover_lines cover (policy_view policy.now) reached.now) }
{
    if cover {
        unreached_lines(alloc, policy, reached)
    } else {
        Ok(Vec::new(alloc))
    }
}

fn unreached_lines(
    alloc: Global,
    policy: &Policy,
    reached: &[usize],
) -> Result<Vec<u8>, OutOfMemory>
    ensures { IfOk result (λ lines. lines.items ≡ unreached_lines reached.now 0 (policy_view policy.now).rules) }
{
    let mut lines = Vec::new(alloc);
    for number in 0..policy.rules() {
        let Some(rule) = policy.rule(number) else {
            unreachable!();
        };
        add_unreached(&mut lines, reached, number, rule.name)?;
    }
    Ok(lines)
}

fn add_unreached(
    lines: &mut Vec<u8>,
    reached: &[usize],
    number: usize,
    name: &str,
) -> Result<(), OutOfMemory>
    ensures { OnOk result (lines.new.items ≡ lines.old.items ++ unreached_line reached.now number name.now) }
{
    if reached.contains(&number) {
        Ok(())
    } else {
        add_line(lines, b"  no case reaches ", name)
    }
}
