//! The line of a report.
ghost use Rattle.std.specs.Prelude.{◌≡◌, ◌++◌, IfOk, IfSome, None, OnOk, codes, decimal};
ghost use Rattle.guard_policy.specs.NamedRoutes.{route_octets};
ghost use Rattle.guard_policy.specs.PolicyView.{policy_view, route_view};
ghost use Rattle.guard_policy.specs.Verdicts.{reason_view, verdict_view};
ghost use Rattle.guard_report.specs.Lines.{line_octets, route_text};

use super::text::{add_reason, add_verdict};
use super::words::{add, add_number};
use guard_model::OutOfMemory;
use guard_policy::{PlainReason, Policy, Route, Verdict};
use std::alloc::Global;

/// The octets for which a line has room from the start. Few lines have more, so that a buffer grows once.
const USUAL_LENGTH: usize = 128;

/// The report line of the verdict on the message of a frame: the frame's number, sender and receiver as `FROM>TO`, the
/// message's name, the text of the verdict as `verdict_text` has it, and a line feed. OutOfMemory is the only error.
pub fn line(
    alloc: Global,
    number: u64,
    route: &Route,
    verdict: &Verdict,
    policy: &Policy,
) -> Result<Vec<u8>, OutOfMemory>
    ensures { IfOk result (λ line. line.items
        ≡ line_octets (policy_view policy.now) (route_view route.now) number (verdict_view verdict.now)) }
{
    let mut line: Vec<u8> = Vec::new(alloc);
    add_line(&mut line, number, route, verdict, policy)?;
    Ok(line)
}

/// Appends the line that `line` answers, so that one buffer can serve for many lines. OutOfMemory is the only error; a
/// part of the line may have come to the buffer then.
pub fn add_line(
    line: &mut Vec<u8>,
    number: u64,
    route: &Route,
    verdict: &Verdict,
    policy: &Policy,
) -> Result<(), OutOfMemory>
    ensures { OnOk result (line.new.items
        ≡ line.old.items
        ++ line_octets (policy_view policy.now) (route_view route.now) number (verdict_view verdict.now)) }
{
    add_number_first(line, number)?;
    add(line, b" ")?;
    add_route(line, route)?;
    add(line, b" ")?;
    add_verdict(line, verdict, route, policy)?;
    add(line, b"\n")
}

/// Appends the line that `add_line` appends for the verdict with this reason, which needn't be made, where the route's
/// names lie one after another, each after its length. OutOfMemory is the only error; a part of the line may have come to
/// the buffer then. Condition: the reason has a verdict, so it isn't NotAllowed.
pub fn add_line_told(
    line: &mut Vec<u8>,
    number: u64,
    names: &[u8],
    route: &Route,
    reason: PlainReason,
    policy: &Policy,
) -> Result<(), OutOfMemory>
    requires names { names.now ≡ route_octets (route_view route.now) }
    requires told { reason_view reason ≡ None → ⊥ }
    ensures { OnOk result (IfSome (reason_view reason) (λ w. line.new.items
        ≡ line.old.items ++ line_octets (policy_view policy.now) (route_view route.now) number w)) }
{
    add_number_first(line, number)?;
    add_names(line, names, route)?;
    add_reason(line, reason, policy)
}

/// Appends the number of a frame, with room for its line.
fn add_number_first(line: &mut Vec<u8>, number: u64) -> Result<(), OutOfMemory>
    ensures { OnOk result (line.new.items ≡ line.old.items ++ decimal number) }
{
    // Where there is no room for so many octets, there may be for fewer.
    let _ = line.reserve(USUAL_LENGTH);
    add_number(line, number)
}

/// Appends a space and the route, from where its names lie, each after its length: they are copied at once, and the
/// lengths are then replaced by what stands before each name.
fn add_names(line: &mut Vec<u8>, names: &[u8], route: &Route) -> Result<(), OutOfMemory>
    requires { names.now ≡ route_octets (route_view route.now) }
    ensures { OnOk result (line.new.items ≡ line.old.items ++ (codes " " ++ route_text (route_view route.now))) }
{
    let start = line.len();
    line.extend_from_slice(names)?;
    let middle = start + 1 + route.from.len();
    let end = middle + 1 + route.to.len();
    line[start] = b' ';
    line[middle] = b'>';
    line[end] = b' ';
    Ok(())
}

/// Appends who sends what to whom: `FROM>TO` and the message's name. OutOfMemory is the only error; a part of it may
/// have come to the buffer then.
pub fn add_route(line: &mut Vec<u8>, route: &Route) -> Result<(), OutOfMemory>
    ensures { OnOk result (line.new.items ≡ line.old.items ++ route_text (route_view route.now)) }
{
    add(line, route.from)?;
    add(line, b">")?;
    add(line, route.to)?;
    add(line, b" ")?;
    add(line, route.message)
}
