//! What a handle holds.
ghost use Rattle.guard_c.specs.Holding.{policy_of};
ghost use Rattle.guard_c.specs.inside.Taken.{kept_of, policy_at, policy_under};
ghost use Rattle.std.specs.Prelude.{◌≡◌};

use guard_frames::{Kept, Link};
use guard_policy::Policy;
use std::sync::Arc;

/// What a handle holds: a policy, which other handles may hold too, or a link.
#[derive(Drop)]
pub enum Held {
    Policy(Arc<Policy>),
    Link(HeldLink),
}

/// A link, and the lines that were reported of its frames and aren't fetched yet.
#[derive(Drop)]
pub struct HeldLink {
    pub link: Link,
    pub reports: Kept,
}

/// The owner of the policy, where a handle held one.
pub(crate) fn owner_in(taken: &Option<Box<Held>>) -> Option<&Arc<Policy>>
    ensures { policy_under result ≡ policy_of (kept_of taken.now) }
{
    match taken.as_deref()? {
        Held::Policy(owner) => Some(owner),
        Held::Link(_) => None,
    }
}

/// The policy, where a handle held one.
pub(crate) fn policy_in(taken: &Option<Box<Held>>) -> Option<&Policy>
    ensures { policy_at result ≡ policy_of (kept_of taken.now) }
{
    let owner = owner_in(taken)?;
    Some(owner)
}
