//! Guards one stream under a policy.

ghost use Rattle.std.specs.Prelude.{◌≡◌, ◌⊎◌, true, IsErrOf};
ghost use Rattle.guard_policy.specs.PolicyView.{policy_view};
ghost use Rattle.std.specs.Io.KnownBytes.{IsAtEnd};
ghost use Rattle.guard_frames.specs.Added.{Moves};
ghost use Rattle.guard_frames.specs.Calls.{AsksLines};
ghost use Rattle.guard_frames.specs.OfPolicy.{decision_of};
ghost use Rattle.guard_frames.specs.Runs.{Runs, ReadToLimit};
ghost use Rattle.guard_frames.specs.declared.running.RunFault.TheVariants.{WriteFailed, ReadFailed};
ghost use Rattle.guard_frames.specs.declared.running.RunFault.TheVariants.{OutOfMemory as NoMemory};

use crate::devices::{Sink, Source};
use crate::link::Link;
use crate::running::{RunFault, decide_link, new_buffer};
use crate::totals::Totals;
use crate::why::Unwatched;
use guard_policy::Policy;
use std::alloc::Global;

/// Reads all that the source gives. The frames whose message goes under the policy go out, in order and octet by octet
/// as they came, and of each other one a line is reported with the reason. The answer is how many there were.
///
/// # Errors
/// Why the run ended before the stream's end: F1 FrameTooLong, F2 WriteFailed, F4 TornFrame or F5 ReadFailed, with the
/// frames up to there decided; OutOfMemory only before anything is read.
pub fn run<S: Source, O: Sink, R: Sink>(
    alloc: Global,
    source: &mut S,
    out: &mut O,
    reports: &mut R,
    policy: &Policy,
) -> Result<Totals, RunFault>
    // What is read, goes out and is reported, by the answer;
    ensures runs { Moves (S.tells source.old, S.tells source.new) (O.taken out.old, O.taken out.new)
        (R.taken reports.old, R.taken reports.new)
        (λ read added. Runs (decision_of (policy_view policy.now)) read (IsAtEnd (S.tells source.new)) result added) }
    // a fault of a device is answered only where it has failed, or where the source was asked 2^40 times;
    ensures failed { IsErrOf result WriteFailed → (O.has_failed out.new ≡ true) ⊎ (R.has_failed reports.new ≡ true) }
    ensures unread { IsErrOf result ReadFailed → (S.has_failed source.new ≡ true)
        ⊎ ReadToLimit (S.takes source.old) (S.takes source.new) (S.tells source.old) (S.tells source.new) }
    // and where memory runs out before anything is done.
    ensures untouched { IsErrOf result NoMemory →
        (source.new ≡ source.old) × (out.new ≡ out.old) × (reports.new ≡ reports.old) }
    // Each report line goes in one call.
    ensures lines { AsksLines (R.asked reports.old) (R.asked reports.new) }
{
    let Ok(mut link) = Link::new(alloc) else {
        return Err(RunFault::OutOfMemory);
    };
    let Ok(mut buffer) = new_buffer(alloc) else {
        return Err(RunFault::OutOfMemory);
    };
    let ran = decide_link(
        alloc,
        &mut link,
        &mut buffer,
        source,
        out,
        reports,
        policy,
        &mut Unwatched,
    );
    match ran {
        Ok(()) => Ok(link.totals()),
        Err(fault) => Err(fault),
    }
}
