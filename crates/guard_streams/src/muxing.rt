//! Guards the links of a stream of records.
ghost use Rattle.std.specs.Prelude.{◌≡◌, Err, length, option_map, OnOk, IfErr};
ghost use Rattle.guard_files.specs.Devices.{source_of, device_of};
ghost use Rattle.guard_files.specs.Headers.{IsGood, record_of};
ghost use Rattle.guard_files.specs.declared.stop.Stop.TheVariants.{WriteFailed};
ghost use Rattle.guard_streams.specs.Counting.{display_of};
ghost use Rattle.guard_streams.specs.CountingLinks.{ShowsBetween};
ghost use Rattle.guard_streams.specs.Muxing.{GuardsLinks};
ghost use Rattle.guard_streams.specs.inside.Doing.{IsReady, mux_of, IsTaken, IsCut, EndsWith};

use crate::board::Board;
use crate::counters::Counters;
use crate::counting::{load_counted, note, open, tell_none};
use crate::links::Links;
use crate::links_told::{counted_first, seen_first, show_last, tell_guarded};
use crate::saying::Says;
use guard_files::{FAILED, Fault, Files, Header, Stop, new_room, next_record};
use guard_frames::{MOST_READS, Sink, Source};
use std::alloc::Global;

/// Guards the links of the stream under the policy at the path, and answers the status: 0 where all frames passed, 1
/// where one didn't, 2 where there is no policy, or a new one couldn't be read, 3 where a link has a fault, a record is
/// bad, a device failed or memory ran out.
///
/// Where notes are asked for, it begins with the number of the policy's texts; where standard error fails in that,
/// nothing is read. New policies are noted as they come, with their numbers; behind all else, and behind the line that
/// says why the links aren't guarded to their ends, it is said how many frames there were and how often each reason was
/// reported. Where there is no memory for that, it says so, and the status is 3.
///
/// Where there is a place, what is counted is shown there: at first, now and then before a record, and at the end.
/// Where it can't be shown at first, this is noted on standard error, and nothing else changes.
pub fn mux<F: Files, S: Source, O: Sink, E: Sink, T: Says, B: Board>(
    alloc: Global,
    path: &str,
    verbose: bool,
    place: Option<&str>,
    files: &mut F,
    input: &mut S,
    out: &mut O,
    err: &mut E,
    system: &T,
    counters: &mut Counters<B>,
) -> u8
    ensures { GuardsLinks verbose (option_map (λ p. p.now) place.entry) (F.told files.old) path.now
        (display_of B.shown counters.old counters.new)
        (source_of S.tells S.takes S.has_failed input.old input.new)
        (device_of O.taken O.has_failed out.old out.new)
        (device_of E.taken E.has_failed err.old err.new) result }
{
    let (policy, force) = match load_counted(alloc, path, files) {
        Ok(both) => both,
        Err(fault) => return tell_none(alloc, verbose, &fault, err, system),
    };
    let digest = force.digest;
    let seen = seen_first(verbose, digest);
    let Ok(mut links) = Links::new(alloc, policy, seen, counted_first(place, force)) else {
        return tell_none(alloc, verbose, &Fault::NoMemory, err, system);
    };
    let Ok(mut room) = new_room(alloc) else {
        return tell_none(alloc, verbose, &Fault::NoMemory, err, system);
    };
    let Ok(()) = open(verbose, &digest, err) else {
        return FAILED;
    };
    counters.show_at(place, links.counted());
    note(alloc, place, counters.is_shown(), err);
    let guarded = guard(
        alloc,
        path,
        files,
        room.as_mut_slice(),
        &mut links,
        input,
        out,
        err,
        system,
        place,
        counters,
    );
    show_last(guarded, place, &links, counters);
    tell_guarded(alloc, guarded, &links, err, system)
}

/// Takes each record of the stream, and then the end of each link that wasn't ended. Before each record what is counted
/// may be shown at the place.
fn guard<F: Files, S: Source, O: Sink, E: Sink, T: Says, B: Board>(
    alloc: Global,
    path: &str,
    files: &mut F,
    room: &mut [u8],
    links: &mut Links,
    input: &mut S,
    out: &mut O,
    err: &mut E,
    system: &T,
    place: Option<&str>,
    counters: &mut Counters<B>,
) -> Result<(), Stop>
    requires room { length room.old ≡ 1048576 }
    requires ready { IsReady links.old.gateway }
    requires first { links.old.status ≡ 0 }
    ensures ends { EndsWith result path.now (mux_of (F.told files.old) links.old)
        (source_of S.tells S.takes S.has_failed input.old input.new)
        (device_of O.taken O.has_failed out.old out.new)
        (device_of E.taken E.has_failed err.old err.new) links.new }
    ensures shows { ShowsBetween path.now (mux_of (F.told files.old) links.old) (S.tells input.old) (S.tells input.new)
        (option_map (λ p. p.now) place.entry) (B.shown counters.old.board) (B.shown counters.new.board) }
{
    let mut reads = MOST_READS;
    for _ in 0..MOST_READS {
        counters.waits(place, links.counted());
        let Some(header) = next_record(input, room, &mut reads)? else {
            return links.end_all(alloc, err);
        };
        take_record(alloc, path, files, header, room, links, out, err, system)?;
    }
    Err(Stop::ReadFailed)
}

/// Takes one record, whose octets are the first ones in the room.
fn take_record<F: Files, O: Sink, E: Sink, T: Says>(
    alloc: Global,
    path: &str,
    files: &mut F,
    header: Header,
    room: &[u8],
    links: &mut Links,
    out: &mut O,
    err: &mut E,
    system: &T,
) -> Result<(), Stop>
    requires good { IsGood header }
    requires room { length room.now ≡ 1048576 }
    requires ready { IsReady links.old.gateway }
    ensures done { OnOk result (IsTaken path.now (F.told files.old) links.old (record_of header room.now)
        (F.told files.new) links.new
        (O.taken out.old, O.taken out.new) (E.taken err.old, E.taken err.new)) }
    ensures cut { IfErr result (λ s. IsCut s path.now (mux_of (F.told files.old) links.old) (record_of header room.now)
        (device_of O.taken O.has_failed out.old out.new)
        (device_of E.taken E.has_failed err.old err.new)) }
    ensures unseen { result ≡ Err WriteFailed → links.new.seen ≡ links.old.seen }
{
    match header {
        Header::Piece(link, size) => links.piece(alloc, link, &room[..size], out, err),
        Header::End(link) => links.end(alloc, link, err),
        Header::Reload => links.reload(alloc, path, files, err, system),
    }
}
