//! The reason why a message stays. That a denying rule has its value, or that no rule allows it or may allow one, the
//! marks tell that the walk over its octets found; a value is made of them where a breach or violations have to be named.
ghost use Rattle.std.specs.Prelude.{◌≡◌, IfSome};
ghost use Rattle.guard_policy.specs.Passing.{IsToldBy, first_in};

use super::decision::judge;
use super::policy::Policy;
use super::route::Route;
use super::routing::{RouteRules, common, meets};
use super::verdict::{PlainReason, Verdict};
use guard_der::{DecodeFault, decode};
use guard_model::OutOfMemory;
use guard_tables::Slots;
use std::alloc::Global;

impl Policy {
    ghost use Rattle.std.specs.Prelude.{◌≡◌, None, true, IfOk, IfSome};
    ghost use Rattle.guard_policy.specs.PolicyView.{policy_view, route_view};
    ghost use Rattle.guard_policy.specs.Verdicts.{verdict_view, reason_view};
    ghost use Rattle.guard_policy.specs.Decisions.{IsReason};
    ghost use Rattle.guard_policy.specs.Told.{IsToldReason};

    /// What becomes of a message on its route, and why, as `verdict` says. No pass is made over the octets before a value
    /// is made of them. OutOfMemory is the only error.
    pub fn reason(
        &self,
        alloc: Global,
        route: &Route,
        octets: &[u8],
    ) -> Result<Verdict, OutOfMemory>
        ensures { IfOk result (λ w. IsReason (policy_view self.now) (route_view route.now) octets.now
            (verdict_view w)) }
    {
        self.reason_by_value(alloc, route, octets, false)
    }

    /// What `reason` says of a message that stays, where `look_at` told this of it. A reason that is told is this one,
    /// and nothing is looked up, nor is memory taken; only of NotAllowed the violations are found by the value that the
    /// octets encode, and of it no more is asked. Condition: a reason that is told is the one of this message on its
    /// route. OutOfMemory is the only error.
    pub fn reason_as_told(
        &self,
        alloc: Global,
        route: &Route,
        octets: &[u8],
        told: Option<PlainReason>,
    ) -> Result<Verdict, OutOfMemory>
        requires { IfSome told (λ r. IsToldReason (policy_view self.now) (route_view route.now) octets.now
            (reason_view r)) }
        ensures { IfOk result (λ w. IsReason (policy_view self.now) (route_view route.now) octets.now
            (verdict_view w)) }
    {
        match told {
            Some(reason) => match reason.verdict() {
                Some(verdict) => Ok(verdict),
                None => self.reason_by_value(alloc, route, octets, true),
            },
            None => self.reason_by_value(alloc, route, octets, false),
        }
    }

    /// The verdict by the value that the octets encode. Condition: where it is given that no allowing rule has the value,
    /// this is the reason.
    fn reason_by_value(
        &self,
        alloc: Global,
        route: &Route,
        octets: &[u8],
        is_unallowed: bool,
    ) -> Result<Verdict, OutOfMemory>
        requires { is_unallowed ≡ true → IsToldReason (policy_view self.now) (route_view route.now) octets.now None }
        ensures { IfOk result (λ w. IsReason (policy_view self.now) (route_view route.now) octets.now
            (verdict_view w)) }
    {
        let Some((message, numbers)) = self.found(route.message) else {
            return Ok(Verdict::UnknownMessage);
        };
        let ty = message.table.declared();
        match decode(alloc, ty, octets) {
            Ok(value) => judge(alloc, &self.kept, numbers, route, ty, &value, is_unallowed),
            Err(DecodeFault::Breach(breach)) => Ok(Verdict::Undecodable(breach)),
            Err(DecodeFault::OutOfMemory) => Err(OutOfMemory),
        }
    }
}

/// Why a value of the declared type stays, by the slots of the types that have it; None where these don't tell it. A part
/// of the look at a message, whose callers call nothing where a frame stays.
#[inline(always)]
pub(crate) fn told_by(rules: &RouteRules, numbers: &[usize], members: &Slots) -> Option<PlainReason>
    ensures { IfSome result (IsToldBy rules.now numbers.now members.now) }
{
    let denying = common(&rules.denying, members);
    if denying != Slots::none() {
        return Some(PlainReason::DeniedBy(first_in(&denying, numbers)?));
    }
    if rules.allow_nothing() {
        return Some(PlainReason::NoRule);
    }
    if meets(&rules.allowing, members) {
        None
    } else {
        Some(PlainReason::NotAllowed)
    }
}

/// The number of the first of these rules whose slot is in the set; None where there is none. The first rule has slot 1.
/// What it costs doesn't grow with the rules.
pub(crate) fn first_in(slots: &Slots, numbers: &[usize]) -> Option<usize>
    ensures { result ≡ first_in slots.now 1 numbers.now }
{
    let slot = slots.without(&Slots::only(0)).lowest()?;
    numbers.get(usize::from(slot) - 1).copied()
}
