//! The frames that come in under two policies, an old one and a new one.
ghost use Rattle.std.specs.Prelude.{◌≡◌, ◌⊎◌, ◌<◌, ◌≤◌, ◌-◌, ◌++◌, ℕ, [], None};
ghost use Rattle.std.specs.Prelude.{drop, length, option_map, take, IfOk, IfErr, IfSome, OnOk};
ghost use Rattle.guard_frames.specs.Cutting.{IsRest};
ghost use Rattle.guard_frames.specs.Totals.{WentUpBy};
ghost use Rattle.guard_frames.specs.declared.running.RunFault.TheVariants as run;
ghost use Rattle.guard_files.specs.Devices.{source_of, device_of};
ghost use Rattle.guard_files.specs.Writing.{TellsNoMemory, TookAll, Writes};
ghost use Rattle.guard_authors.specs.Comparing.{comparing_view, Compares, ComparesFrames, ComparesUnder};
ghost use Rattle.guard_authors.specs.Comparing.{Ends, IsMeant, IsStopped, Progress, Reaches, TellsStopped};
ghost use Rattle.guard_authors.specs.Differing.{comparison_view, compared_status};
ghost use Rattle.guard_authors.specs.declared.comparing.Uncompared.TheVariants.{Run};
ghost use Rattle.guard_authors.specs.inside.Counting.{total_text, AreCounted};
ghost use Rattle.guard_authors.specs.inside.Pieces.{of_stop, AddsPiece, EndsBehind, HasPassed, HasTaken, StopsReading};
ghost use Rattle.guard_authors.specs.inside.Pieces.{StopsTaking};

use crate::differing::{Comparison, add_frame};
use crate::summary::{Sums, summary_text};
use guard_files::{
    Fault, Files, Stop, add, drop_front, link_in, load, new_room, next_record, size_of_link, tell,
    tell_bad_record, tell_failed_read, tell_failed_write, tell_no_memory, tell_text, write,
};
use guard_frames::{Cut, Failed, MOST_READS, Rest, RunFault, Sink, Source, first_cut, put_all};
use guard_model::OutOfMemory;
use std::alloc::Global;

/// What the words give: the paths of the policies, whether the places of constraints count, whether a summary stands
/// for the lines of frames, and the number of the link whose frames are compared, where records come in.
#[derive(Clone, Copy, Debug, PartialEq, Eq)]
pub struct Comparing<'a> {
    pub old: &'a str,
    pub new: &'a str,
    pub by_place: bool,
    pub summary: bool,
    pub link: Option<&'a str>,
}

/// Whose frames are compared.
#[derive(Clone, Copy, Debug, PartialEq, Eq)]
pub enum Origin {
    /// All that come in.
    Stream,
    /// Those of this link, of the records that come in.
    Link(u64),
}

/// What follows the whole frames of some octets.
#[derive(Clone, Copy)]
struct Left {
    /// Where it begins.
    at: usize,
    rest: Rest,
}

/// Why frames aren't compared to the end.
#[derive(Clone, Copy, Debug, PartialEq, Eq)]
pub enum Uncompared {
    /// As a stream isn't guarded to its end. Memory may run out behind its beginning too.
    Run(RunFault),
    /// What comes in is no record, or is cut short by the end.
    BadRecord,
}

impl From<OutOfMemory> for Uncompared {
    ghost from_gives = { λ _ e. e ≡ Run run.OutOfMemory };

    fn from(_e: OutOfMemory) -> Uncompared {
        Uncompared::Run(RunFault::OutOfMemory)
    }
}

impl From<Failed> for Uncompared {
    ghost from_gives = { λ _ e. e ≡ Run run.WriteFailed };

    fn from(_e: Failed) -> Uncompared {
        Uncompared::Run(RunFault::WriteFailed)
    }
}

impl From<Stop> for Uncompared {
    ghost from_gives = { λ s e. e ≡ of_stop s };

    fn from(stop: Stop) -> Uncompared {
        match stop {
            Stop::BadRecord => Uncompared::BadRecord,
            Stop::ReadFailed | Stop::WriteFailed | Stop::ErrorFailed => {
                Uncompared::Run(RunFault::ReadFailed)
            }
        }
    }
}

/// Writes a line for each frame that has another verdict under the new policy than under the old one, or with a summary
/// how many frames each rule of both has, and how many frames there were. It answers the status: 0 where none differs,
/// 1 where some do, 2 where the link or a policy isn't there, 3 where the stream or a device failed. A fault is
/// reported on standard error, behind the lines of the frames before it.
pub fn compare<F: Files, S: Source, O: Sink, E: Sink>(
    alloc: Global,
    asked: &Comparing,
    files: &mut F,
    input: &mut S,
    out: &mut O,
    err: &mut E,
) -> u8
    ensures { Compares (F.told files.old) (comparing_view asked.now)
        (source_of S.tells S.takes S.has_failed input.old input.new)
        (device_of O.taken O.has_failed out.old out.new)
        (device_of E.taken E.has_failed err.old err.new) result }
{
    match origin_of(asked.link) {
        Some(origin) => compare_under(alloc, asked, origin, files, input, out, err),
        None => tell_text(alloc, "no such link", 2, err),
    }
}

/// Whose frames are meant; none where the word is no number of a link.
fn origin_of(link: Option<&str>) -> Option<Origin>
    ensures some { IfSome result (IsMeant (option_map (λ number. number.now) link.entry)) }
    ensures none { result ≡ None → (origin : Origin) → IsMeant (option_map (λ number. number.now) link.entry) origin
        → ⊥ }
{
    match link {
        Some(word) => Some(Origin::Link(link_in(word)?)),
        None => Some(Origin::Stream),
    }
}

fn compare_under<F: Files, S: Source, O: Sink, E: Sink>(
    alloc: Global,
    asked: &Comparing,
    origin: Origin,
    files: &mut F,
    input: &mut S,
    out: &mut O,
    err: &mut E,
) -> u8
    ensures { ComparesUnder (F.told files.old) (comparing_view asked.now) origin
        (source_of S.tells S.takes S.has_failed input.old input.new)
        (device_of O.taken O.has_failed out.old out.new)
        (device_of E.taken E.has_failed err.old err.new) result }
{
    let old = match load(alloc, asked.old, files) {
        Ok(old) => old,
        Err(fault) => return tell(alloc, &fault, err),
    };
    let new = match load(alloc, asked.new, files) {
        Ok(new) => new,
        Err(fault) => return tell(alloc, &fault, err),
    };
    let comparison = Comparison {
        old: &old,
        new: &new,
        by_place: asked.by_place,
        summary: asked.summary,
    };
    compare_frames(alloc, &comparison, origin, input, out, err)
}

fn compare_frames<S: Source, O: Sink, E: Sink>(
    alloc: Global,
    comparison: &Comparison,
    origin: Origin,
    input: &mut S,
    out: &mut O,
    err: &mut E,
) -> u8
    ensures { ComparesFrames (comparison_view comparison.now) origin
        (source_of S.tells S.takes S.has_failed input.old input.new)
        (device_of O.taken O.has_failed out.old out.new)
        (device_of E.taken E.has_failed err.old err.new) result }
{
    let Ok(mut room) = new_room(alloc) else {
        return tell_no_memory(err);
    };
    match compare_all(alloc, comparison, origin, room.as_mut_slice(), input, out) {
        Ok(sums) => write_total(alloc, comparison, &sums, out, err),
        Err(reason) => tell_stopped(alloc, reason, err),
    }
}

fn write_total<O: Sink, E: Sink>(
    alloc: Global,
    comparison: &Comparison,
    sums: &Sums,
    out: &mut O,
    err: &mut E,
) -> u8
    ensures { Writes (total_text (comparison_view comparison.now) sums.now) (compared_status sums.now.tally)
        (device_of O.taken O.has_failed out.old out.new)
        (device_of E.taken E.has_failed err.old err.new) result
        ⊎ ((O.taken out.new ≡ O.taken out.old)
        × TellsNoMemory (device_of E.taken E.has_failed err.old err.new) result) }
{
    match total_text(alloc, comparison, sums) {
        Ok(text) => write(&text, sums.tally.status(), out, err),
        Err(_) => tell_no_memory(err),
    }
}

/// The summary where it is asked for, and how many frames there were.
fn total_text(alloc: Global, comparison: &Comparison, sums: &Sums) -> Result<Vec<u8>, OutOfMemory>
    ensures { IfOk result (λ text. text.items ≡ total_text (comparison_view comparison.now) sums.now) }
{
    let mut text = summary_text(alloc, comparison, sums)?;
    let total = sums.tally.text(alloc)?;
    add(&mut text, total.as_bytes())?;
    Ok(text)
}

/// Reports why frames aren't compared to the end.
fn tell_stopped<E: Sink>(alloc: Global, reason: Uncompared, err: &mut E) -> u8
    ensures { TellsStopped reason (device_of E.taken E.has_failed err.old err.new) result }
{
    match reason {
        Uncompared::Run(RunFault::TornFrame) => tell(alloc, &Fault::Run(RunFault::TornFrame), err),
        Uncompared::Run(RunFault::FrameTooLong) => {
            tell(alloc, &Fault::Run(RunFault::FrameTooLong), err)
        }
        Uncompared::Run(RunFault::ReadFailed) => tell_failed_read(err),
        Uncompared::Run(RunFault::WriteFailed) => tell_failed_write(err),
        Uncompared::Run(RunFault::OutOfMemory) => tell_no_memory(err),
        Uncompared::BadRecord => tell_bad_record(err),
    }
}

// ---- the frames

/// Compares each frame that comes, writes the lines of those that differ, and answers how many there were. Of the
/// octets no more is held than a frame and a piece, and of the frames a number for each rule.
fn compare_all<S: Source, O: Sink>(
    alloc: Global,
    comparison: &Comparison,
    origin: Origin,
    room: &mut [u8],
    input: &mut S,
    out: &mut O,
) -> Result<Sums, Uncompared>
    requires { length room.old ≡ 1048576 }
    ensures all { IfOk result (λ sums. (g : Progress)
        × (r : Reaches (comparison_view comparison.now) origin (S.tells input.old) (S.tells input.new) g)
        × Ends origin (S.tells input.new) g.rest × (g.left ≡ []) × (g.tally ≡ sums.tally)
        × AreCounted (comparison_view comparison.now) r.frames sums
        × TookAll g.lines (device_of O.taken O.has_failed out.old out.new)) }
    ensures stopped { IfErr result (λ reason. (g : Progress)
        × Reaches (comparison_view comparison.now) origin (S.tells input.old) (S.tells input.new) g
        × IsStopped reason origin (source_of S.tells S.takes S.has_failed input.old input.new) g
        (device_of O.taken O.has_failed out.old out.new)) }
{
    let mut held = Vec::new(alloc);
    let mut sums = Sums::none(alloc, comparison)?;
    let mut reads = MOST_READS;
    for _ in 0..MOST_READS {
        let Some(size) = next_piece(input, origin, room, &mut reads)? else {
            return ended(&held, sums);
        };
        take_piece(alloc, comparison, &room[..size], &mut held, &mut sums, out)?;
    }
    Err(Uncompared::Run(RunFault::ReadFailed))
}

/// What comes of the end: nothing may be left of a frame.
fn ended(held: &[u8], sums: Sums) -> Result<Sums, Uncompared>
    ensures whole { IfOk result (λ s. (s ≡ sums) × (held.now ≡ [])) }
    ensures torn { IfErr result (λ u. (u ≡ Run run.TornFrame) × (0 < length held.now)) }
{
    if held.is_empty() {
        Ok(sums)
    } else {
        Err(Uncompared::Run(RunFault::TornFrame))
    }
}

/// Takes a piece: compares each frame that is whole then, and writes the lines of those that differ in one call.
fn take_piece<O: Sink>(
    alloc: Global,
    comparison: &Comparison,
    piece: &[u8],
    held: &mut Vec<u8>,
    sums: &mut Sums,
    out: &mut O,
) -> Result<(), Uncompared>
    ensures taken { OnOk result (HasTaken (comparison_view comparison.now) (held.old.items ++ piece.now) sums.old
        held.new.items sums.new (device_of O.taken O.has_failed out.old out.new)) }
    ensures stopped { IfErr result (λ u. StopsTaking (comparison_view comparison.now) (held.old.items ++ piece.now)
        sums.old u (device_of O.taken O.has_failed out.old out.new)) }
{
    add(held, piece)?;
    let mut lines = Vec::new(alloc);
    let left = pass(alloc, comparison, held.as_slice(), sums, &mut lines)?;
    put_all(out, &lines)?;
    match left.rest {
        Rest::Unfinished => drop_front(alloc, held, left.at)?,
        Rest::TooLong => return Err(Uncompared::Run(RunFault::FrameTooLong)),
    }
    Ok(())
}

/// Compares each whole frame that the octets begin with, adds the lines, and answers what is left.
fn pass(
    alloc: Global,
    comparison: &Comparison,
    octets: &[u8],
    sums: &mut Sums,
    lines: &mut Vec<u8>,
) -> Result<Left, OutOfMemory>
    ensures { IfOk result (λ left. HasPassed (comparison_view comparison.now) octets.now sums.old lines.old.items
        left.at sums.new lines.new.items × IsRest (drop left.at octets.now) left.rest) }
{
    let mut at = 0;
    loop {
        let frame = match first_cut(&octets[at..]) {
            Cut::Frame(frame) => frame,
            Cut::Rest(rest) => return Ok(Left { at, rest }),
        };
        add_frame(alloc, comparison, frame.body, sums, lines)?;
        at += frame.octets.len();
    }
}

// ---- the octets

/// How many octets come next, which are the first ones in the room then; none at the end. Of a link they are those in
/// the next record, of which one of another link has none, and the end of the link is the end.
fn next_piece<S: Source>(
    input: &mut S,
    origin: Origin,
    room: &mut [u8],
    reads: &mut u64,
) -> Result<Option<usize>, Stop>
    requires { length room.old ≡ 1048576 }
    ensures piece { IfOk result (λ found. IfSome found (λ n. (n ≤ 1048576) × (reads.new < reads.old)
        × AddsPiece origin (S.tells input.old) (S.tells input.new) (take n room.new))) }
    ensures end { IfOk result (λ found. found ≡ None → EndsBehind origin (S.tells input.old) (S.tells input.new)) }
    ensures none { IfErr result (λ s. StopsReading origin s (S.tells input.old) (S.tells input.new)
        (S.has_failed input.new) reads.new) }
    ensures counted { WentUpBy (S.takes input.old) (reads.old - reads.new) (S.takes input.new) }
    ensures fewer { reads.new ≤ reads.old }
{
    let Origin::Link(link) = origin else {
        if *reads == 0 {
            return Err(Stop::ReadFailed);
        }
        *reads -= 1;
        return match input.take(room) {
            Ok(0) => Ok(None),
            Ok(size) => Ok(Some(size)),
            Err(_) => Err(Stop::ReadFailed),
        };
    };
    let Some(header) = next_record(input, room, reads)? else {
        return Ok(None);
    };
    Ok(size_of_link(header, link))
}
