//! Policies come into handles.
ghost use Rattle.guard_c.specs.Holding.{policy_in};
ghost use Rattle.guard_c.specs.Policies.{IsRefusal, IsUnshared};
ghost use Rattle.guard_c.specs.inside.Taken.{policy_under};
ghost use Rattle.guard_frames.specs.Texts.{SayPolicy, SayNone, named};
ghost use Rattle.guard_policy.specs.Policies.{AbstractPolicy};
ghost use Rattle.guard_policy.specs.PolicyView.{policy_view};
ghost use Rattle.std.specs.Prelude.{◌≡◌, ◌≢◌, IsTrue, None, Some, IfOk, IfErr, IfSome};
ghost use Rattle.std.specs.Prelude.{IsSomeAnd, MatchResult, is_some, map};
ghost use Rattle.std_alloc.specs.Arc.{arc_value};
ghost use Rattle.guard_c.specs.declared.status.Status.TheVariants as ended;

use crate::held::Held;
use crate::status::Status;
use crate::telling::put;
use guard_frames::{TextsFault, load_texts};
use guard_model::OutOfMemory;
use guard_policy::Policy;
use std::alloc::{AllocError, Global};
use std::sync::Arc;

/// The policy that a text says over the modules of other texts.
pub(crate) fn load(alloc: Global, modules: &[&[u8]], text: &[u8]) -> Result<Box<Held>, TextsFault>
    ensures said { IfOk result (λ b. IsSomeAnd (policy_in b.value)
        (SayPolicy (map (λ t. t.now) modules.now) text.now)) }
    ensures only { (p : AbstractPolicy) → SayPolicy (map (λ t. t.now) modules.now) text.now p →
        MatchResult result (λ b. policy_in b.value ≡ Some p) (λ fault. named fault ≡ None) }
    ensures refused { IfErr result (SayNone (map (λ t. t.now) modules.now) text.now) }
{
    let policy = load_texts(alloc, modules, text)?;
    match owned(alloc, policy) {
        Ok(held) => Ok(held),
        Err(OutOfMemory) => Err(TextsFault::OutOfMemory),
    }
}

/// The first owner of a policy.
fn owned(alloc: Global, policy: Policy) -> Result<Box<Held>, OutOfMemory>
    ensures { IfOk result (λ b. policy_in b.value ≡ Some (policy_view policy)) }
{
    let owner = Arc::new(alloc, policy)?;
    Ok(Box::new(alloc, Held::Policy(owner))?)
}

/// Tells why texts say no policy: the text of the fault, as the program prints it, unless memory ran out.
pub(crate) fn refuse(alloc: Global, why: &TextsFault, out: &mut [u8], needed: &mut usize) -> Status
    ensures refused { IsRefusal why.now out.old out.new needed.new result }
    ensures unnamed { named why.now ≡ None → result ≡ ended.OutOfMemory }
{
    match text_of(alloc, why) {
        Some(text) => {
            put(text.as_bytes(), out, needed);
            Status::Refused
        }
        None => {
            put(b"", out, needed);
            Status::OutOfMemory
        }
    }
}

/// The text of a fault, as it prints; None where memory ran out, before or now.
fn text_of(alloc: Global, why: &TextsFault) -> Option<String>
    ensures { IfSome result (λ _. IsTrue (is_some (named why.now))) }
{
    if is_named(why) {
        printed(alloc, why).ok()
    } else {
        None
    }
}

fn printed(alloc: Global, why: &TextsFault) -> Result<String, AllocError> {
    format!(in alloc; "{why}")
}

/// Whether the texts have a fault.
fn is_named(why: &TextsFault) -> bool
    ensures { result ≡ is_some (named why.now) }
{
    match why {
        TextsFault::Schema(_) => true,
        TextsFault::Policy(_) => true,
        TextsFault::Run(_) => true,
        TextsFault::OutOfMemory => false,
    }
}

/// One more owner of a policy; NoPolicy where there is none, OutOfMemory where memory runs out.
pub(crate) fn share(alloc: Global, owner: Option<&Arc<Policy>>) -> Result<Box<Held>, Status>
    ensures { MatchResult result
        (λ b. (policy_under owner.entry ≢ None) × (policy_in b.value ≡ policy_under owner.entry))
        (IsUnshared (policy_under owner.entry)) }
{
    let Some(owner) = owner else {
        return Err(Status::NoPolicy);
    };
    match another(alloc, owner) {
        Ok(held) => Ok(held),
        Err(OutOfMemory) => Err(Status::OutOfMemory),
    }
}

fn another(alloc: Global, owner: &Arc<Policy>) -> Result<Box<Held>, OutOfMemory>
    ensures { IfOk result (λ b. policy_in b.value ≡ Some (policy_view (arc_value owner.now))) }
{
    let Ok(owner) = owner.clone() else {
        return Err(OutOfMemory);
    };
    Ok(Box::new(alloc, Held::Policy(owner))?)
}
