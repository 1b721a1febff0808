//! The frame of a number, of those of one link in a stream of records.
ghost use Rattle.std.specs.Prelude.{◌≡◌, ◌<◌, ◌≤◌, ◌+◌, ◌⊎◌, ◌++◌, ℕ, List, [], None};
ghost use Rattle.std.specs.Prelude.{drop, length, take, IfOk, IfErr, IfSome};
ghost use Rattle.guard_frames.specs.Frames.{IsFrame, IsTooLong, IsUnfinished};
ghost use Rattle.guard_frames.specs.declared.running.RunFault.TheVariants.{FrameTooLong, TornFrame};
ghost use Rattle.guard_files.specs.Devices.{source_of};
ghost use Rattle.guard_files.specs.Headers.{record_of, IsGood};
ghost use Rattle.guard_files.specs.declared.fault.Fault.TheVariants.{Run, NoMemory};
ghost use Rattle.guard_messages.specs.Linked.{IsNthOfLink};
ghost use Rattle.guard_messages.specs.inside.Passed.{AreFrames, Completes, Holds, IsPassed};
ghost use Rattle.guard_messages.specs.inside.Passed.{IsUnlinked, Refuses};
ghost use Rattle.guard_messages.specs.declared.unfound.Unfound.TheVariants.{Faulty, NoSuchFrame};

use crate::unfound::Unfound;
use guard_files::{Fault, Header, add, drop_front, next_record, size_of_link};
use guard_frames::{Cut, MOST_READS, Rest, RunFault, Source, first_cut};
use guard_model::OutOfMemory;
use std::alloc::Global;

/// What follows the frames that are passed over.
#[derive(Clone, Copy)]
enum Passed {
    /// At this place the frame that is looked for, of this size.
    Frame(usize, usize),
    /// At this place less than a frame.
    Held(usize),
    /// A length that no frame may have.
    TooLong,
}

/// The frame of this number of the link. Of its stream no more is held than a frame and a piece, and nothing is read
/// behind the record that completes the frame.
pub fn linked_frame<S: Source>(
    alloc: Global,
    source: &mut S,
    room: &mut [u8],
    link: u64,
    number: u64,
) -> Result<Vec<u8>, Unfound>
    requires room { length room.old ≡ 1048576 }
    requires some { 0 < number }
    ensures frame { IfOk result (λ frame. IsNthOfLink link number
        (source_of S.tells S.takes S.has_failed source.old source.new) frame.items) }
    ensures none { IfErr result (IsUnlinked link number
        (source_of S.tells S.takes S.has_failed source.old source.new)) }
{
    let mut held = Vec::new(alloc);
    let mut before = number - 1;
    let mut reads = MOST_READS;
    for _ in 0..MOST_READS {
        let Some(header) = next_record(source, room, &mut reads)? else {
            return Err(ended(&held));
        };
        let found = take_record(alloc, header, room, link, &mut held, &mut before)?;
        if let Some(frame) = found {
            return Ok(frame);
        }
    }
    Err(Unfound::Faulty(Fault::Run(RunFault::ReadFailed)))
}

/// Why there is no further frame where a link's stream has ended.
fn ended(held: &[u8]) -> Unfound
    ensures { ((result ≡ NoSuchFrame) × (held.now ≡ []))
        ⊎ ((result ≡ Faulty (Run TornFrame)) × (0 < length held.now)) }
{
    if held.is_empty() {
        Unfound::NoSuchFrame
    } else {
        Unfound::Faulty(Fault::Run(RunFault::TornFrame))
    }
}

/// Takes one record, whose octets are the first ones in the room, and answers the frame if that is there.
fn take_record(
    alloc: Global,
    header: Header,
    room: &[u8],
    link: u64,
    held: &mut Vec<u8>,
    before: &mut u64,
) -> Result<Option<Vec<u8>>, Unfound>
    requires good { IsGood header }
    requires room { length room.now ≡ 1048576 }
    ensures frame { IfOk result (λ found. IfSome found (λ frame.
        Completes link (record_of header room.now) held.old.items before.old frame.items)) }
    ensures none { IfOk result (λ found. found ≡ None →
        Holds link (record_of header room.now) held.old.items held.new.items before.old before.new) }
    ensures refused { IfErr result (λ u. Refuses u link (record_of header room.now) held.old.items before.old) }
{
    match size_of_link(header, link) {
        Some(size) => take_piece(alloc, &room[..size], held, before),
        None => Err(ended(held.as_slice())),
    }
}

/// Takes a piece of the link's stream, and answers the frame if that is there.
fn take_piece(
    alloc: Global,
    piece: &[u8],
    held: &mut Vec<u8>,
    before: &mut u64,
) -> Result<Option<Vec<u8>>, Unfound>
    ensures frame { IfOk result (λ found. IfSome found (λ frame. (more : List ℕ)
        × AreFrames (held.old.items ++ piece.now) before.old (frame.items ++ more) × IsFrame frame.items)) }
    ensures none { IfOk result (λ found. found ≡ None → (count : ℕ) × (before.new + count ≡ before.old)
        × AreFrames (held.old.items ++ piece.now) count held.new.items × IsUnfinished held.new.items) }
    ensures refused { IfErr result (λ u. ((u ≡ Faulty (Run FrameTooLong)) × ((rest : List ℕ) × (count : ℕ)
        × (count ≤ before.old) × AreFrames (held.old.items ++ piece.now) count rest × IsTooLong rest))
        ⊎ (u ≡ Faulty NoMemory)) }
{
    add(held, piece)?;
    match pass(held.as_slice(), before) {
        Passed::Frame(at, size) => Ok(Some(copied(alloc, held.as_slice(), at, size)?)),
        Passed::Held(at) => {
            drop_front(alloc, held, at)?;
            Ok(None)
        }
        Passed::TooLong => Err(Unfound::Faulty(Fault::Run(RunFault::FrameTooLong))),
    }
}

/// Passes over as many frames as there are and as should be, and answers what follows them.
fn pass(octets: &[u8], before: &mut u64) -> Passed
    ensures { IsPassed octets.now before.old before.new result }
{
    let mut at = 0;
    loop {
        let frame = match first_cut(&octets[at..]) {
            Cut::Frame(frame) => frame,
            Cut::Rest(Rest::Unfinished) => return Passed::Held(at),
            Cut::Rest(Rest::TooLong) => return Passed::TooLong,
        };
        let size = frame.octets.len();
        if *before == 0 {
            return Passed::Frame(at, size);
        }
        *before -= 1;
        at += size;
    }
}

/// So many octets from this place on.
fn copied(alloc: Global, octets: &[u8], at: usize, size: usize) -> Result<Vec<u8>, OutOfMemory>
    requires { at + size ≤ length octets.now }
    ensures { IfOk result (λ part. part.items ≡ take size (drop at octets.now)) }
{
    Ok(Vec::from_slice(alloc, &octets[at..at + size])?)
}
