//! Laws of verdicts and of barren rules, over the definitions alone. Each is carried by a function that does nothing
//! when it runs.
ghost use Rattle.std.specs.Prelude.{◌↔◌, ◌≡◌};
ghost use Rattle.guard_policy.specs.Barren.{BarrenShareNothing, IntegersAreTold};
ghost use Rattle.guard_policy.specs.Decisions.{Goes, IsReason};
ghost use Rattle.guard_policy.specs.PolicyView.{policy_view, route_view};
ghost use Rattle.guard_policy.specs.Verdicts.{AbstractVerdict, pass};

use super::policy::Policy;
use super::route::Route;
use guard_der::laws::law_one_answer;

/// Each message has one reason, whatever its octets, and the reason is to pass exactly where the message goes.
pub fn law_one_reason(policy: &Policy, route: &Route, octets: &[u8])
    ensures some { (w : AbstractVerdict) × IsReason (policy_view policy.now) (route_view route.now) octets.now w }
    ensures one { (v w : AbstractVerdict) → IsReason (policy_view policy.now) (route_view route.now) octets.now v
        → IsReason (policy_view policy.now) (route_view route.now) octets.now w → v ≡ w }
    ensures passes { IsReason (policy_view policy.now) (route_view route.now) octets.now pass
        ↔ Goes (policy_view policy.now) (route_view route.now) octets.now }
{
    let Some(ty) = policy.declared(route.message) else {
        return;
    };
    law_one_answer(ty, octets);
}

/// Where one of two types is barren under the other, no value is a member of both.
pub fn law_barren_share_nothing()
    ensures { BarrenShareNothing }
{}

/// An INTEGER is barren under another exactly where no integer is a member of both.
pub fn law_integers_are_told()
    ensures { IntegersAreTold }
{}
