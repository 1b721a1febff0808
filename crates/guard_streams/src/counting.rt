//! What begins and ends a run: the policy and what is counted under it, and where that is shown.
ghost use Rattle.std.specs.Prelude.{◌≡◌, option_map, string_bytes, IfOk, IfErr};
ghost use Rattle.guard_policy.specs.PolicyView.{policy_view};
ghost use Rattle.guard_files.specs.Devices.{device_of};
ghost use Rattle.guard_files.specs.Files.{IsLater};
ghost use Rattle.guard_files.specs.Reading.{IsNoPolicyAt};
ghost use Rattle.guard_streams.specs.Counters.{force_view};
ghost use Rattle.guard_streams.specs.Stream.{IsNoted, TellsNone};
ghost use Rattle.guard_streams.specs.inside.Counting.{IsEnded, IsForceAt, IsOpened};

use crate::board::Board;
use crate::counters::Counters;
use crate::faults::Faults;
use crate::in_force::put_digest;
use crate::rule_counts::InForce;
use crate::saying::Says;
use crate::verbose::tell_unread;
use guard_files::{Fault, Files, load_numbered, tell};
use guard_frames::{Failed, LinkFault, RunFault, Sink, Totals, put_all};
use guard_policy::Policy;
use std::alloc::{AllocError, Global};

/// The policy at the path, and what is counted under it.
pub fn load_counted<F: Files>(
    alloc: Global,
    path: &str,
    files: &mut F,
) -> Result<(Policy, InForce), Fault>
    ensures there { IfOk result (λ both. IsForceAt (F.told files.old) path.now (policy_view both.0)
        (force_view both.1)) }
    ensures none { IfErr result (IsNoPolicyAt (F.told files.old) path.now) }
    ensures later { IsLater (F.told files.old) (F.told files.new) }
{
    let (policy, digest) = load_numbered(alloc, path, files)?;
    let force = InForce::of(alloc, &policy, digest)?;
    Ok((policy, force))
}

/// The place, where there is one, as counters keep it.
pub fn place_kept(alloc: Global, place: Option<&str>) -> Result<Option<String>, AllocError>
    ensures { IfOk result (λ kept. option_map string_bytes kept ≡ option_map (λ p. p.now) place.entry) }
{
    match place {
        Some(place) => Ok(Some(String::from_str(alloc, place)?)),
        None => Ok(None),
    }
}

/// Puts the number of the policy's texts, where notes are asked for.
pub fn open<E: Sink>(verbose: bool, digest: &[u8; 32], err: &mut E) -> Result<(), Failed>
    ensures { IsOpened verbose digest.now result (device_of E.taken E.has_failed err.old err.new) }
{
    if verbose {
        put_digest(err, digest)
    } else {
        Ok(())
    }
}

/// Says why there is no policy.
pub fn tell_none<E: Sink, T: Says>(
    alloc: Global,
    verbose: bool,
    fault: &Fault,
    err: &mut E,
    system: &T,
) -> u8
    ensures { TellsNone verbose fault.now (device_of E.taken E.has_failed err.old err.new) result }
{
    if verbose {
        tell_unread(alloc, fault, err, system)
    } else {
        tell(alloc, fault, err)
    }
}

/// Notes that nothing can be shown at the place, where there is one, unless it is shown there. Standard error needn't
/// take that.
pub fn note<E: Sink>(alloc: Global, place: Option<&str>, is_shown: bool, err: &mut E)
    ensures { IsNoted (option_map (λ p. p.now) place.entry) is_shown (E.taken err.old) (E.taken err.new) }
{
    let Some(place) = place else {
        return;
    };
    if is_shown {
        return;
    }
    if let Ok(line) = format!(in alloc; "derguard: cannot write {place}\n") {
        let _ = put_all(err, line.as_bytes());
    }
}

/// Shows what is counted at the end of a run, unless an output failed.
pub fn show_end<B: Board>(ran: Result<(), RunFault>, totals: Totals, counters: &mut Counters<B>)
    ensures { IsEnded B.shown ran totals counters.old counters.new }
{
    let mut faults = Faults::none();
    match ran {
        Ok(()) | Err(RunFault::ReadFailed) => {}
        Err(RunFault::FrameTooLong) => faults.answered(Err(LinkFault::FrameTooLong)),
        Err(RunFault::TornFrame) => faults.answered(Err(LinkFault::TornFrame)),
        Err(RunFault::WriteFailed) | Err(RunFault::OutOfMemory) => return,
    }
    counters.end(totals, faults);
}
