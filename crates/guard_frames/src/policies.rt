//! A policy decides which bodies go: those whose message goes.

ghost use Rattle.std.specs.Prelude.{◌≡◌, IfOk, IfSome, None, OnOk, Some};
ghost use Rattle.guard_policy.specs.NamedRoutes.{route_octets};
ghost use Rattle.guard_policy.specs.PolicyView.{policy_view, route_view};
ghost use Rattle.guard_policy.specs.Verdicts.{reason_view};
ghost use Rattle.guard_report.specs.Lines.{line_octets};
ghost use Rattle.guard_frames.specs.Bodies.{body_view, HasNames};
ghost use Rattle.guard_frames.specs.Calls.{EndsLine};
ghost use Rattle.guard_frames.specs.OfPolicy.{route_of, decision_of, lets_of, reasons_of, gives_of};
ghost use Rattle.guard_frames.specs.Outcomes.{IsDecided};
ghost use Rattle.guard_frames.specs.Reasons.{reason_of};
ghost use Rattle.guard_frames.specs.Recalling.{Recalls};
ghost use Rattle.guard_frames.specs.Deciding.{decided};

use crate::body::Body;
use crate::decision::{Decide, Decided, Known};
use crate::header::{cut_body, has_names};
use crate::last_route::LastRoute;
use crate::why::{Reason, reason_of, reason_told};
use guard_model::OutOfMemory;
use guard_policy::{Passing, PlainReason, Policy, Route};
use guard_report::{add_line, add_line_told};
use std::alloc::Global;

impl Decide for Policy {
    ghost decides = { λ policy. decision_of (policy_view policy) };

    ghost lets = { λ policy. lets_of (policy_view policy) };

    ghost reasons_of = { λ policy. reasons_of (policy_view policy) };

    ghost gives = { λ policy. gives_of (policy_view policy) };

    fn goes<'a>(&'a self, octets: &[u8], last: &mut LastRoute<'a>) -> Decided {
        if let Some(told) = self.passes_as_last(last.given, octets) {
            return decided(told);
        }
        match last.found(octets) {
            Some((found, message)) => decided(found.look_at(message)),
            None => goes_as_read(self, octets, last),
        }
    }

    fn line(
        &self,
        alloc: Global,
        line: &mut Vec<u8>,
        number: u64,
        header: &[u8],
        body: &Body,
        told: Option<PlainReason>,
    ) -> Result<Reason, OutOfMemory> {
        if let Some(reason) = told_whole(told) {
            return put_line_told(line, number, header, &route_of(body), reason, self);
        }
        put_line_found(alloc, line, number, body, told, self)
    }
}

/// The reason that is told, if it has a verdict; None where none is told, and where violations belong to it.
fn told_whole(told: Option<PlainReason>) -> Option<PlainReason>
    ensures { IfSome result (λ r. (told ≡ Some r) × (reason_view r ≡ None → ⊥)) }
{
    match told {
        Some(PlainReason::NotAllowed) => None,
        _ => told,
    }
}

/// Puts the line of the verdict with this reason in the place of what `line` has, and answers the reason that it gives.
/// Conditions: the header has the route's names, and the reason has a verdict.
fn put_line_told(
    line: &mut Vec<u8>,
    number: u64,
    header: &[u8],
    route: &Route,
    reason: PlainReason,
    policy: &Policy,
) -> Result<Reason, OutOfMemory>
    requires header { header.now ≡ route_octets (route_view route.now) }
    requires verdict { reason_view reason ≡ None → ⊥ }
    ensures { IfOk result (λ said. IfSome (reason_view reason) (λ w.
        (line.new.items ≡ line_octets (policy_view policy.now) (route_view route.now) number w)
        × (reason_of w ≡ Some said))) }
{
    line.clear();
    add_line_told(line, number, header, route, reason, policy)?;
    Ok(reason_told(reason))
}

/// What `line` does where the reason has to be found, or violations of it. A verdict is made, which is large: room for
/// it is cleared here alone.
#[inline(never)]
fn put_line_found(
    alloc: Global,
    line: &mut Vec<u8>,
    number: u64,
    body: &Body,
    told: Option<PlainReason>,
    policy: &Policy,
) -> Result<Reason, OutOfMemory>
    requires names { HasNames (body_view body.now) }
    requires stays { (decision_of (policy_view policy.now)).LetsGo (body_view body.now) → ⊥ }
    requires told { IfSome told (reasons_of (policy_view policy.now) (body_view body.now)) }
    ensures reports { OnOk result
        ((decision_of (policy_view policy.now)).Reports number (body_view body.now) line.new.items) }
    ensures ends { OnOk result (EndsLine line.new.items) }
    ensures gives { IfOk result (λ reason. gives_of (policy_view policy.now) reason line.new.items) }
{
    let route = route_of(body);
    let verdict = policy.reason_as_told(alloc, &route, body.message_octets, told)?;
    line.clear();
    add_line(line, number, &route, &verdict, policy)?;
    Ok(reason_of(&verdict))
}

/// What is decided of a frame that has three names, by what is told of its message.
fn decided(told: Passing) -> Decided
    ensures { result ≡ decided told }
{
    match told {
        Passing::Goes(rule) => Decided::Goes(rule),
        Passing::Stopped(reason) => Decided::Stays(Known::Named(reason)),
    }
}

/// What is decided of a frame, whose names are read and looked up. Whether they are names is asked only where no rule
/// gives them. It is no part of `goes`, which needs fewer registers for a frame with the names of the one before.
#[inline(never)]
fn goes_as_read<'a>(policy: &'a Policy, octets: &[u8], last: &mut LastRoute<'a>) -> Decided
    requires { Recalls (decision_of (policy_view policy.now)) (lets_of (policy_view policy.now))
        (reasons_of (policy_view policy.now)) last.old }
    ensures decided { IsDecided (decision_of (policy_view policy.now)) (lets_of (policy_view policy.now))
        (reasons_of (policy_view policy.now)) octets.now result }
    ensures recalls { Recalls (decision_of (policy_view policy.now)) (lets_of (policy_view policy.now))
        (reasons_of (policy_view policy.now)) last.new }
{
    let Some(body) = cut_body(octets) else {
        return Decided::Stays(Known::BadHeader);
    };
    let names = &octets[..octets.len() - body.message_octets.len()];
    if let Some(told) = policy.passes_and_found(names, body.message_octets, &mut last.given) {
        return decided(told);
    }
    if !has_names(&body) {
        return Decided::Stays(Known::BadHeader);
    }
    let found = policy.find_route(&route_of(&body));
    last.keep(names, found);
    decided(found.look_at(body.message_octets))
}

/// The route of a body: who sends what to whom, by the names in its header.
pub fn route_of<'a>(body: &Body<'a>) -> Route<'a>
    ensures { route_view result ≡ route_of (body_view body.now) }
{
    Route {
        from: body.sender,
        to: body.receiver,
        message: body.name,
    }
}
