//! What a policy is asked of a message.
ghost use Rattle.guard_c.specs.Asking.{Passes, SaysOf};
ghost use Rattle.guard_c.specs.Telling.{said_view};
ghost use Rattle.guard_c.specs.inside.Asked.{GoesOn, IsRouteIn, Says, if_plain};
ghost use Rattle.guard_c.specs.inside.Taken.{policy_at};
ghost use Rattle.guard_policy.specs.PolicyView.{policy_view, route_view};
ghost use Rattle.std.specs.Prelude.{◌≡◌, ◌↔◌, IfOk, IsTrue, option_map};

use crate::status::Status;
use guard_frames::read_body;
use guard_model::OutOfMemory;
use guard_policy::{Policy, Route};
use guard_report::verdict_text;
use std::alloc::Global;

/// The route whose names these are, each after one octet with its length; None where they are no three names.
pub(crate) fn route_in(names: &[u8]) -> Option<Route>
    ensures { IsRouteIn names.now (option_map route_view result) }
{
    let body = read_body(names)?;
    if !body.message_octets.is_empty() {
        return None;
    }
    Some(guard_frames::route_of(&body))
}

/// The route of a message from a sender to a receiver under a name; None where one of the three is no name.
pub(crate) fn route_of<'a>(from: &'a [u8], to: &'a [u8], message: &'a [u8]) -> Option<Route<'a>>
    ensures { option_map route_view result
        ≡ if_plain (record { from = from.now; to = to.now; message = message.now }) }
{
    let route = Route { from, to, message };
    if route.is_plain() { Some(route) } else { None }
}

/// Whether a message passes on its route. No memory is taken.
pub(crate) fn passes(policy: Option<&Policy>, route: Option<Route>, message: &[u8]) -> bool
    ensures { IsTrue result ↔ GoesOn (policy_at policy.entry) (option_map route_view route.entry) message.now }
{
    match (policy, route) {
        (Some(policy), Some(route)) => policy.passes(&route, message),
        _ => false,
    }
}

/// Whether a message passes on the route of these names, which are read only where no rule gives the route.
pub(crate) fn passes_by(policy: Option<&Policy>, names: &[u8], message: &[u8]) -> bool
    ensures { IsTrue result ↔ Passes (policy_at policy.entry) names.now message.now }
{
    if let Some(policy) = policy {
        if let Some(goes) = policy.passes_as_given(names, message) {
            return goes;
        }
    }
    passes(policy, route_in(names), message)
}

/// The text of the verdict on a message of this route. NoPolicy where no policy is held, BadNames where there is no
/// route; OutOfMemory where memory runs out.
pub(crate) fn say(
    alloc: Global,
    policy: Option<&Policy>,
    route: Option<Route>,
    message: &[u8],
) -> Result<Vec<u8>, Status>
    ensures { Says (policy_at policy.entry) (option_map route_view route.entry) message.now (said_view result) }
{
    let Some(policy) = policy else {
        return Err(Status::NoPolicy);
    };
    let Some(route) = route else {
        return Err(Status::BadNames);
    };
    match text_of(alloc, policy, &route, message) {
        Ok(text) => Ok(text),
        Err(OutOfMemory) => Err(Status::OutOfMemory),
    }
}

fn text_of(
    alloc: Global,
    policy: &Policy,
    route: &Route,
    message: &[u8],
) -> Result<Vec<u8>, OutOfMemory>
    ensures { IfOk result (λ text. SaysOf (policy_view policy.now) (route_view route.now) message.now text.items) }
{
    let verdict = policy.verdict(alloc, route, message)?;
    verdict_text(alloc, &verdict, route, policy)
}
