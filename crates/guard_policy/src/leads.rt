//! What the routes that rules give lead to, by one look-up of the octets of their names.
ghost use Rattle.std.specs.Prelude.{◌≡◌, ◌++◌, ℕ, List, IfOk, IfSome, None, Some, map, option_map, if◌then◌else◌};
ghost use Rattle.guard_policy.specs.Names.{is_plain};
ghost use Rattle.guard_policy.specs.PolicyView.{route_view};
ghost use Rattle.guard_policy.specs.SaidView.{said_view};
ghost use Rattle.guard_policy.specs.inside.Leads.{lead_of, found_lead, AreLeads};

use super::index::Index;
use super::kept::KeptMessage;
use super::policy::SaidRule;
use super::route::Route;
use super::route_octets::{NameOctets, OctetsOf};
use super::routing::RouteRules;
use indexmap::IndexMap;
use std::alloc::{AllocError, Global};

/// What a route leads to.
#[derive(Clone, Copy)]
pub(crate) struct Lead {
    /// The place of the route's message.
    pub place: usize,
    /// The rules that speak of the route.
    pub rules: RouteRules,
}

/// What each route leads to that some rule gives by three names and whose message is declared. A route is found by the
/// octets of its names, each after its length.
#[derive(Drop)]
pub(crate) struct Leads {
    routes: IndexMap<NameOctets, Lead>,
}

impl Leads {
    /// What the routes of these rules lead to.
    pub fn of(
        alloc: Global,
        index: &Index,
        messages: &[KeptMessage],
        rules: &[SaidRule],
    ) -> Result<Leads, AllocError>
        ensures { IfOk result (AreLeads index.now messages.now (map said_view rules.now)) }
    {
        let mut routes = IndexMap::new(alloc);
        for rule in rules {
            let route = rule.route();
            if let Some(lead) = lead_of(index, messages, &route) {
                routes.insert(NameOctets::of(alloc, &route)?, lead)?;
            }
        }
        Ok(Leads { routes })
    }

    /// The place of the route with these octets, and what it leads to; None where no rule gives such a route.
    pub fn find(&self, names: &[u8]) -> Option<(usize, &Lead)>
        ensures { option_map (λ found. found.1.now) result ≡ found_lead self.now names.now }
    {
        let (place, _, lead) = self.routes.get_full(OctetsOf { octets: names })?;
        Some((place, lead))
    }

    /// What the route at this place leads to, if the octets begin with the route's own, and what comes after these;
    /// else None.
    pub fn find_at<'a>(&'a self, place: usize, octets: &'a [u8]) -> Option<(&'a Lead, &'a [u8])>
        ensures { IfSome result (λ found. (names : List ℕ) × (octets.now ≡ names ++ found.1.now)
            × (found_lead self.now names ≡ Some found.0.now)) }
    {
        let (route, lead) = self.routes.get_index(place)?;
        let rest = route.after(octets)?;
        Some((lead, rest))
    }
}

/// What a route of three names leads to; None where its message isn't declared.
fn lead_of(index: &Index, messages: &[KeptMessage], route: &Route) -> Option<Lead>
    ensures { result ≡ (if is_plain (route_view route.now)
        then lead_of index.now messages.now (route_view route.now) else None) }
{
    if !route.is_plain() {
        return None;
    }
    let listed = index.find(route.message)?;
    let message = messages.get(listed.place)?;
    Some(Lead {
        place: listed.place,
        rules: message.routing.rules(route),
    })
}
