//! Whether a message goes: one pass over its octets, without memory. What it costs grows neither with rules nor with
//! messages nor with names.
ghost use Rattle.std.specs.Prelude.{◌≡◌, None, IfSome};
ghost use Rattle.guard_policy.specs.Passing.{IsAnswer, IsLetBy, IsLetByNone};

use super::found_route::FoundRoute;
use super::kept::KeptMessage;
use super::last_route::LastRoute;
use super::policy::Policy;
use super::reason::{first_in, told_by};
use super::route::Route;
use super::routing::{RouteRules, common, meets};
use super::verdict::PlainReason;
use guard_reader::walk;
use guard_tables::Slots;

/// Whether a message goes, and what the pass over its octets told of it.
#[derive(Clone, Copy)]
pub enum Passing {
    /// The octets encode a value that some rule of the route allows and none denies; the first rule in file order that
    /// allows it has this number, from 0.
    Goes(usize),
    /// The message is stopped, for this reason; none is told where a value has to be made of the octets to find it.
    Stopped(Option<PlainReason>),
}

impl Passing {
    ghost use Rattle.std.specs.Prelude.{◌≡◌};
    ghost use Rattle.guard_policy.specs.Told.{is_going};

    /// Whether the message goes.
    pub fn goes(self) -> bool
        ensures { result ≡ is_going self }
    {
        match self {
            Passing::Goes(_) => true,
            Passing::Stopped(_) => false,
        }
    }
}

impl Policy {
    ghost use Rattle.std.specs.Prelude.{◌≡◌, ◌↔◌, ◌++◌, ℕ, List, IsTrue, IfSome, None};
    ghost use Rattle.guard_policy.specs.PolicyView.{policy_view, route_view};
    ghost use Rattle.guard_policy.specs.Policies.{AbstractRoute};
    ghost use Rattle.guard_policy.specs.Decisions.{Goes};
    ghost use Rattle.guard_policy.specs.NamedRoutes.{IsGiven};
    ghost use Rattle.guard_policy.specs.FoundRoutes.{Decides};
    ghost use Rattle.guard_policy.specs.Told.{Tells};

    /// Whether a message goes on its route: its octets are the encoding of a value of its declared type that some rule
    /// of the route allows and none denies. No memory is taken.
    pub fn passes(&self, route: &Route, octets: &[u8]) -> bool
        ensures { IsTrue result ↔ Goes (policy_view self.now) (route_view route.now) octets.now }
    {
        self.look_at(route, octets).goes()
    }

    /// Whether a message goes on its route, by which rule where it does, and what `reason` need not find out again where
    /// it stays. No memory is taken.
    pub fn look_at(&self, route: &Route, octets: &[u8]) -> Passing
        ensures { Tells (policy_view self.now) (route_view route.now) octets.now result }
    {
        self.find_route(route).look_at(octets)
    }

    /// What the route leads to, which decides all messages on it. No memory is taken.
    pub fn find_route(&self, route: &Route) -> FoundRoute<'_>
        ensures { Decides (policy_view self.now) (route_view route.now) result }
    {
        let Some((message, _)) = self.found(route.message) else {
            return FoundRoute { lead: None };
        };
        let rules = message.routing.rules(route);
        FoundRoute {
            lead: Some((message, rules)),
        }
    }

    /// Whether a message goes on the route that these octets are: three names, each after one octet with its length, as
    /// some rule gives them. None exactly where no rule gives such a route. No memory is taken, and the cost is one
    /// look-up and one pass over the octets at most.
    pub fn passes_as_given(&self, names: &[u8], octets: &[u8]) -> Option<bool>
        // Where some rule gives the route, whether the message goes on it;
        ensures given { IfSome result (λ goes. (route : AbstractRoute)
            × IsGiven (policy_view self.now).rules names.now route
            × (IsTrue goes ↔ Goes (policy_view self.now) route octets.now)) }
        // and none only where no rule gives it.
        ensures other { result ≡ None → (route : AbstractRoute) → IsGiven (policy_view self.now).rules names.now route
            → ⊥ }
    {
        let told = self.passes_and_found(names, octets, &mut LastRoute::none())?;
        Some(told.goes())
    }

    /// Whether a message goes on the route that these octets are, as `passes_as_given` says, and what `reason` need not
    /// find out again. None exactly where no rule gives such a route; else `last` is then where it was found.
    pub fn passes_and_found(
        &self,
        names: &[u8],
        octets: &[u8],
        last: &mut LastRoute,
    ) -> Option<Passing>
        ensures given { IfSome result (λ told. (route : AbstractRoute)
            × IsGiven (policy_view self.now).rules names.now route
            × Tells (policy_view self.now) route octets.now told) }
        ensures other { result ≡ None → (route : AbstractRoute) → IsGiven (policy_view self.now).rules names.now route
            → ⊥ }
    {
        let (place, lead) = self.kept.leads.find(names)?;
        last.place = place;
        let message = self.kept.messages.get(lead.place)?;
        Some(told_by_walk(message, &lead.rules, octets))
    }

    /// What `passes_and_found` says of the message of a frame, where the frame's body begins with the names of the
    /// route that was found last. None says nothing of the message: the body begins with other octets, or `last` is no
    /// route's place. No memory is taken, and nothing is looked up.
    pub fn passes_as_last(&self, last: LastRoute, body: &[u8]) -> Option<Passing>
        ensures { IfSome result (λ told. (route : AbstractRoute) × (names : List ℕ) × (message : List ℕ)
            × (body.now ≡ names ++ message) × IsGiven (policy_view self.now).rules names route
            × Tells (policy_view self.now) route message told) }
    {
        let (lead, octets) = self.kept.leads.find_at(last.place, body)?;
        let message = self.kept.messages.get(lead.place)?;
        Some(told_by_walk(message, &lead.rules, octets))
    }
}

/// By which of these rules the octets go: the first one that allows the value of the message's declared type that they
/// encode, where none denies it. Where they stay, the reason that marks tell. A part of each of its callers, so that for
/// a frame that goes no registers are kept and restored between the names and the walk.
#[inline(always)]
pub(crate) fn told_by_walk(message: &KeptMessage, rules: &RouteRules, octets: &[u8]) -> Passing
    ensures { IsAnswer message.now rules.now octets.now result }
{
    let Some(marks) = walk(&message.table, octets) else {
        return Passing::Stopped(None);
    };
    if !marks.of_type() {
        return Passing::Stopped(None);
    }
    if let Some(rule) = let_by(rules, &message.numbers, &marks.members) {
        return Passing::Goes(rule);
    }
    Passing::Stopped(told_by(rules, &message.numbers, &marks.members))
}

/// The number of the rule that lets a value of the declared type go, by the slots of the types that have it: of the first
/// allowing rule that has it. None where there is none, or where a denying one has it.
fn let_by(rules: &RouteRules, numbers: &[usize], members: &Slots) -> Option<usize>
    ensures some { IfSome result (IsLetBy rules.now numbers.now members.now) }
    ensures none { result ≡ None → IsLetByNone rules.now numbers.now members.now }
{
    if meets(&rules.denying, members) {
        return None;
    }
    first_in(&common(&rules.allowing, members), numbers)
}
