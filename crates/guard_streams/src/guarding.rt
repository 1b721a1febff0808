//! Guards the stream that comes in.
ghost use Rattle.std.specs.Prelude.{◌≡◌, true, option_map, OnErr};
ghost use Rattle.guard_files.specs.Devices.{source_of, device_of};
ghost use Rattle.guard_streams.specs.Counting.{display_of};
ghost use Rattle.guard_streams.specs.Stream.{GuardsStream, IsSilent, TellsEnd, totals_status};

use crate::board::Board;
use crate::counters::Counters;
use crate::counting::{load_counted, note, open, place_kept, show_end, tell_none};
use crate::saying::Says;
use crate::seen::Seen;
use crate::verbose::{tell_fault, tell_notes};
use guard_files::{FAILED, Fault, Files, tell};
use guard_frames::{Link, RunFault, Sink, Source, Totals, decide_link, new_buffer};
use std::alloc::Global;

/// Guards the stream under the policy at the path, with its reports on standard error, and answers the status: 0 where
/// all frames passed, 1 where one didn't, 2 where there is no policy, 3 where the stream or a device failed. A fault is
/// said after the reports.
///
/// Where notes are asked for, it begins with the number of the policy's texts; where standard error fails in that,
/// nothing is read. Behind the reports, and behind the line of a fault, it says how many frames there were and how
/// often each reason was reported. Where there is no memory for that, it says so, and the status is 3.
///
/// Where there is a place, what is counted is shown there: at first, now and then, and at the end. Where it can't be
/// shown at first, this is noted on standard error, and nothing else changes.
pub fn run<F: Files, S: Source, O: Sink, E: Sink, T: Says, B: Board>(
    alloc: Global,
    path: &str,
    verbose: bool,
    place: Option<&str>,
    files: &mut F,
    input: &mut S,
    out: &mut O,
    err: &mut E,
    system: &T,
    counters: &mut Counters<B>,
) -> u8
    ensures { GuardsStream verbose (option_map (λ p. p.now) place.entry) (F.told files.old) path.now
        (display_of B.shown counters.old counters.new)
        (source_of S.tells S.takes S.has_failed input.old input.new)
        (device_of O.taken O.has_failed out.old out.new)
        (device_of E.taken E.has_failed err.old err.new) result }
{
    let (policy, force) = match load_counted(alloc, path, files) {
        Ok(both) => both,
        Err(fault) => return tell_none(alloc, verbose, &fault, err, system),
    };
    let digest = force.digest;
    let Ok(shown_at) = place_kept(alloc, place) else {
        return tell_none(alloc, verbose, &Fault::NoMemory, err, system);
    };
    let Ok(mut link) = Link::new(alloc) else {
        return tell_none(alloc, verbose, &Fault::NoMemory, err, system);
    };
    let Ok(mut buffer) = new_buffer(alloc) else {
        return tell_none(alloc, verbose, &Fault::NoMemory, err, system);
    };
    let Ok(()) = open(verbose, &digest, err) else {
        return FAILED;
    };
    counters.begin(shown_at, force);
    note(alloc, place, counters.is_shown(), err);
    let ran = decide_link(
        alloc,
        &mut link,
        &mut buffer,
        input,
        out,
        err,
        &policy,
        counters,
    );
    show_end(ran, link.totals(), counters);
    let seen = Seen::of(&link, counters.counts(), digest);
    tell_end(alloc, verbose, ran, &seen, err, system)
}

/// Says what there is to say at the end of a run, and answers the status.
fn tell_end<E: Sink, T: Says>(
    alloc: Global,
    verbose: bool,
    ran: Result<(), RunFault>,
    seen: &Seen,
    err: &mut E,
    system: &T,
) -> u8
    ensures told { TellsEnd verbose ran seen.now (device_of E.taken E.has_failed err.old err.new) result }
    ensures silent { OnErr ran (E.has_failed err.old ≡ true →
        IsSilent (device_of E.taken E.has_failed err.old err.new) result) }
{
    match ran {
        Ok(()) if verbose => tell_notes(alloc, "", seen, status_of(seen.totals), err),
        Ok(()) => status_of(seen.totals),
        // Standard error took its last line in part: there is no place to say anything.
        Err(_) if err.failed() => FAILED,
        Err(fault) if verbose => tell_fault(alloc, fault, seen, err, system),
        Err(fault) => tell(alloc, &Fault::Run(fault), err),
    }
}

/// 0 where all frames passed, and else 1.
pub fn status_of(totals: Totals) -> u8
    ensures { result ≡ totals_status totals }
{
    if totals.denied == 0 { 0 } else { 1 }
}
