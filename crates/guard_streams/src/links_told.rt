//! What is seen and counted of many links at first, and what is shown and said of them at the end.
ghost use Rattle.std.specs.Prelude.{◌≡◌, Err, Some, option_map};
ghost use Rattle.guard_files.specs.Devices.{device_of};
ghost use Rattle.guard_files.specs.declared.stop.Stop.TheVariants as stop;
ghost use Rattle.guard_streams.specs.Counters.{force_view};
ghost use Rattle.guard_streams.specs.CountingLinks.{ShowsAtEnd};
ghost use Rattle.guard_streams.specs.LinksCounted.{maybe_counted};
ghost use Rattle.guard_streams.specs.Muxing.{TellsGuarded, TellsStop, TellsStopWith, counted_first, seen_first};

use crate::board::Board;
use crate::counted::Counted;
use crate::counters::Counters;
use crate::links::Links;
use crate::rule_counts::InForce;
use crate::saying::Says;
use crate::seen::Seen;
use crate::verbose::{tell_fault, tell_notes};
use guard_files::{FAILED, Stop, tell_bad_record, tell_failed_read, tell_failed_write};
use guard_frames::{RunFault, Sink};
use std::alloc::Global;

const BAD_RECORD: &str = "derguard: bad record\n";

/// What is seen before the first record, where notes are asked for.
pub fn seen_first(verbose: bool, digest: [u8; 32]) -> Option<Seen>
    ensures { result ≡ seen_first verbose digest }
{
    if verbose {
        Some(Seen::nothing(digest))
    } else {
        None
    }
}

/// What is counted before the first record, where there is a place at which it is shown.
pub fn counted_first(place: Option<&str>, force: InForce) -> Option<Counted>
    ensures { maybe_counted result ≡ counted_first (option_map (λ p. p.now) place.entry) (force_view force) }
{
    match place {
        Some(_) => Some(Counted::nothing(force)),
        None => None,
    }
}

/// Shows what is counted at the end, unless an output failed.
pub fn show_last<B: Board>(
    guarded: Result<(), Stop>,
    place: Option<&str>,
    links: &Links,
    counters: &mut Counters<B>,
)
    ensures { ShowsAtEnd guarded (option_map (λ p. p.now) place.entry) (maybe_counted links.now.followed.counted)
        counters.new.is_shown (B.shown counters.old.board) (B.shown counters.new.board) }
{
    match guarded {
        Ok(()) | Err(Stop::BadRecord) | Err(Stop::ReadFailed) => {
            counters.show_at(place, links.counted());
        }
        Err(Stop::WriteFailed) | Err(Stop::ErrorFailed) => {}
    }
}

/// Says what there is to say at the end, and answers the status.
pub fn tell_guarded<E: Sink, T: Says>(
    alloc: Global,
    guarded: Result<(), Stop>,
    links: &Links,
    err: &mut E,
    system: &T,
) -> u8
    ensures told { TellsGuarded guarded links.now.seen links.now.status
        (device_of E.taken E.has_failed err.old err.new) result }
    ensures silent { guarded ≡ Err stop.ErrorFailed → err.new ≡ err.old }
{
    match (guarded, links.seen()) {
        (Ok(()), Some(seen)) => tell_notes(alloc, "", &seen, links.status(), err),
        (Ok(()), None) => links.status(),
        (Err(reason), Some(seen)) => tell_stop_with(alloc, reason, &seen, err, system),
        (Err(reason), None) => tell_stop(reason, err),
    }
}

/// Tells why the links weren't guarded to their ends.
fn tell_stop<E: Sink>(reason: Stop, err: &mut E) -> u8
    ensures told { TellsStop reason (device_of E.taken E.has_failed err.old err.new) result }
    ensures silent { reason ≡ stop.ErrorFailed → err.new ≡ err.old }
{
    match reason {
        Stop::BadRecord => tell_bad_record(err),
        Stop::ReadFailed => tell_failed_read(err),
        Stop::WriteFailed => tell_failed_write(err),
        Stop::ErrorFailed => FAILED,
    }
}

/// Tells why the links weren't guarded to their ends, and what was seen of them.
fn tell_stop_with<E: Sink, T: Says>(
    alloc: Global,
    reason: Stop,
    seen: &Seen,
    err: &mut E,
    system: &T,
) -> u8
    ensures told { TellsStopWith (Some seen.now) reason (device_of E.taken E.has_failed err.old err.new) result }
    ensures silent { reason ≡ stop.ErrorFailed → err.new ≡ err.old }
{
    match reason {
        Stop::BadRecord => tell_notes(alloc, BAD_RECORD, seen, FAILED, err),
        Stop::ReadFailed => tell_fault(alloc, RunFault::ReadFailed, seen, err, system),
        Stop::WriteFailed => tell_fault(alloc, RunFault::WriteFailed, seen, err, system),
        Stop::ErrorFailed => FAILED,
    }
}
