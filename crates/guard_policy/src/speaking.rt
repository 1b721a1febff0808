//! Which rules speak of a route.
ghost use Rattle.std.specs.Prelude.{◌≡◌};
ghost use Rattle.guard_policy.specs.Names.{is_meant};

use super::policy::SaidRule;
use super::route::{Route, is_anyone};

impl<'a> SaidRule<'a> {
    ghost use Rattle.std.specs.Prelude.{◌≡◌};
    ghost use Rattle.guard_policy.specs.Decisions.{speaks_of};
    ghost use Rattle.guard_policy.specs.Policies.{own_route};
    ghost use Rattle.guard_policy.specs.PolicyView.{route_view};
    ghost use Rattle.guard_policy.specs.SaidView.{said_view};

    /// The route of the rule's own sender, receiver and message, where `*` stands as it is.
    pub fn route(&self) -> Route<'a>
        ensures { route_view result ≡ own_route (said_view self.now) }
    {
        Route {
            from: self.from.as_bytes(),
            to: self.to.as_bytes(),
            message: self.message.as_bytes(),
        }
    }

    /// Whether the rule speaks of the route: its message is the route's, and its sender and its receiver each are the
    /// route's or `*`.
    pub fn speaks_of(&self, route: &Route) -> bool
        ensures { result ≡ speaks_of (route_view route.now) (said_view self.now) }
    {
        is_meant(self.from, route.from)
            && is_meant(self.to, route.to)
            && self.message.as_bytes() == route.message
    }
}

/// Whether what a rule gives for its sender or its receiver is this name, or `*`.
pub(crate) fn is_meant(given: &str, name: &[u8]) -> bool
    ensures { result ≡ is_meant given.now name.now }
{
    given.as_bytes() == name || is_anyone(given)
}
