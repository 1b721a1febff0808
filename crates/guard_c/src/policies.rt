//! What C calls with a handle that holds a policy.
ghost use Rattle.guard_c.specs.Asking.{Passes, PassesOn, SaidBy, SaidOn};
ghost use Rattle.guard_c.specs.Holding.{policy_of};
ghost use Rattle.guard_c.specs.Policies.{HasLoaded, HasShared};
ghost use Rattle.guard_c.specs.Statuses.{Answers, number};
ghost use Rattle.guard_c.specs.Telling.{Tells};
ghost use Rattle.guard_c.specs.declared.status.Status.TheVariants.{OutOfMemory};
ghost use Rattle.guard_c.specs.inside.Asked.{Says};
ghost use Rattle.guard_frames.specs.Texts.{SayPolicy};
ghost use Rattle.guard_policy.specs.Policies.{AbstractPolicy};
ghost use Rattle.guard_policy.specs.PolicyView.{route_view};
ghost use Rattle.std.specs.Prelude.{◌≡◌, ◌≢◌, ◌↔◌, IsTrue, List, ℕ, None, Result, Some, map, option_map};

use crate::asking::{passes, passes_by, route_in, route_of, say};
use crate::handle::Handle;
use crate::held::{owner_in, policy_in};
use crate::loading::{load, refuse, share};
use crate::status::Status;
use crate::telling::{put, tell};
use guard_policy::Route;
use std::alloc::Global;

/// Loads the policy that a text says over the modules of other texts, in place of what the handle held. The answer is
/// the number of a `Status`: Done; Refused, where the texts say no policy, and the text of the first fault comes into
/// the buffer `fault`, as much of it as fits, with its length in `needed`; OutOfMemory. Unless it is Done, the handle
/// holds what it held.
#[unsafe(no_mangle)]
pub extern "C" fn derguard_load(
    alloc: Global,
    policy: &mut Handle,
    modules: &[&[u8]],
    text: &[u8],
    fault: &mut [u8],
    needed: &mut usize,
) -> u32
    ensures answer { Answers result (HasLoaded (map (λ t. t.now) modules.now) text.now policy.old.kept policy.new.kept
        fault.old fault.new needed.new) }
    // What the texts say is loaded, unless memory runs out.
    ensures only { (p : AbstractPolicy) → SayPolicy (map (λ t. t.now) modules.now) text.now p →
        result ≢ number OutOfMemory → policy_of policy.new.kept ≡ Some p }
{
    match load(alloc, modules, text) {
        Ok(loaded) => {
            policy.fill(loaded);
            put(b"", fault, needed);
            Status::Done.number()
        }
        Err(why) => refuse(alloc, &why, fault, needed).number(),
    }
}

/// Whether a message passes on the route of these names, which are as they lie in a frame's header: the sender's, the
/// receiver's and the message's, each after one octet with its length. False where they are no three names, and where
/// the handle holds no policy. No memory is taken.
#[unsafe(no_mangle)]
pub extern "C" fn derguard_passes(
    alloc: Global,
    policy: &mut Handle,
    names: &[u8],
    message: &[u8],
) -> bool
    ensures answer { IsTrue result ↔ Passes (policy_of policy.old.kept) names.now message.now }
    ensures same { policy.new.kept ≡ policy.old.kept }
{
    let taken = policy.take(alloc);
    let answer = passes_by(policy_in(&taken), names, message);
    policy.give_back(taken);
    answer
}

/// Whether a message passes from a sender to a receiver under a name. False where one of the three is no name, and
/// where the handle holds no policy. No memory is taken.
#[unsafe(no_mangle)]
pub extern "C" fn derguard_passes_from(
    alloc: Global,
    policy: &mut Handle,
    sender: &[u8],
    receiver: &[u8],
    name: &[u8],
    message: &[u8],
) -> bool
    ensures answer { IsTrue result ↔ PassesOn (policy_of policy.old.kept)
        (record { from = sender.now; to = receiver.now; message = name.now }) message.now }
    ensures same { policy.new.kept ≡ policy.old.kept }
{
    let taken = policy.take(alloc);
    let answer = passes(policy_in(&taken), route_of(sender, receiver, name), message);
    policy.give_back(taken);
    answer
}

/// Puts the text of the verdict on a message into the buffer, as much of it as fits, and its length into `needed`. The
/// names are as they lie in a frame's header, each after one octet with its length. The answer is the number of a
/// `Status`: Done, TooSmall, NoPolicy, BadNames or OutOfMemory.
#[unsafe(no_mangle)]
pub extern "C" fn derguard_verdict(
    alloc: Global,
    policy: &mut Handle,
    names: &[u8],
    message: &[u8],
    out: &mut [u8],
    needed: &mut usize,
) -> u32
    ensures answer { Answers result (λ status. (said : Result (List ℕ) Status)
        × SaidBy (policy_of policy.old.kept) names.now message.now said
        × Tells said out.old out.new needed.new status) }
    ensures same { policy.new.kept ≡ policy.old.kept }
{
    verdict_on(alloc, policy, route_in(names), message, out, needed).number()
}

/// Puts the text of the verdict on a message from a sender to a receiver under a name into the buffer, and answers, as
/// `derguard_verdict` does.
#[unsafe(no_mangle)]
pub extern "C" fn derguard_verdict_from(
    alloc: Global,
    policy: &mut Handle,
    sender: &[u8],
    receiver: &[u8],
    name: &[u8],
    message: &[u8],
    out: &mut [u8],
    needed: &mut usize,
) -> u32
    ensures answer { Answers result (λ status. (said : Result (List ℕ) Status)
        × SaidOn (policy_of policy.old.kept)
        (record { from = sender.now; to = receiver.now; message = name.now }) message.now said
        × Tells said out.old out.new needed.new status) }
    ensures same { policy.new.kept ≡ policy.old.kept }
{
    let route = route_of(sender, receiver, name);
    verdict_on(alloc, policy, route, message, out, needed).number()
}

/// Puts the text of the verdict on a message of this route into the buffer, or says why there is none.
fn verdict_on(
    alloc: Global,
    policy: &mut Handle,
    route: Option<Route>,
    message: &[u8],
    out: &mut [u8],
    needed: &mut usize,
) -> Status
    ensures told { (said : Result (List ℕ) Status)
        × Says (policy_of policy.old.kept) (option_map route_view route.entry) message.now said
        × Tells said out.old out.new needed.new result }
    ensures same { policy.new.kept ≡ policy.old.kept }
{
    let taken = policy.take(alloc);
    let said = say(alloc, policy_in(&taken), route, message);
    policy.give_back(taken);
    tell(said, out, needed)
}

/// Has `other` hold the policy that `policy` holds, in place of what it held. The policy is freed with the last of its
/// handles. The answer is the number of a `Status`: Done, NoPolicy or OutOfMemory; unless it is Done, `other` holds
/// what it held.
#[unsafe(no_mangle)]
pub extern "C" fn derguard_share(alloc: Global, policy: &mut Handle, other: &mut Handle) -> u32
    ensures answer { Answers result (HasShared (policy_of policy.old.kept) other.old.kept other.new.kept) }
    ensures same { policy.new.kept ≡ policy.old.kept }
{
    let taken = policy.take(alloc);
    let shared = share(alloc, owner_in(&taken));
    policy.give_back(taken);
    match shared {
        Ok(more) => {
            other.fill(more);
            Status::Done.number()
        }
        Err(status) => status.number(),
    }
}

/// Empties a handle. The policy that it held is freed, unless other handles hold it.
#[unsafe(no_mangle)]
pub extern "C" fn derguard_free(alloc: Global, policy: &mut Handle)
    ensures { policy.new.kept ≡ None }
{
    *policy = Handle::empty(alloc);
}
