//! What a route leads to in a policy, found once for all messages on it.
ghost use Rattle.guard_policy.specs.FoundRoutes.{Answers};

use super::kept::KeptMessage;
use super::passing::{Passing, told_by_walk};
use super::routing::RouteRules;
use super::verdict::PlainReason;

/// What a route leads to in a policy: its message and the rules that speak of it, or that the message isn't declared.
#[derive(Clone, Copy)]
pub struct FoundRoute<'a> {
    pub(crate) lead: Option<(&'a KeptMessage, RouteRules)>,
}

impl FoundRoute<'_> {
    /// What `Policy::look_at` tells of a message on the route, where the names are looked up anew. No memory is taken.
    pub fn look_at(&self, octets: &[u8]) -> Passing
        ensures { Answers self.now octets.now result }
    {
        match &self.lead {
            Some((message, rules)) => told_by_walk(message, rules, octets),
            None => Passing::Stopped(Some(PlainReason::UnknownMessage)),
        }
    }
}
