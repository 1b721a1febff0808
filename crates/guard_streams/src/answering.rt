//! Answers what becomes of frames, one after another.
ghost use Rattle.std.specs.Prelude.{◌≡◌, length, List, ℕ, IfOk, IfErr};
ghost use Rattle.guard_frames.specs.Calls.{AsksLines};
ghost use Rattle.guard_frames.specs.Totals.{counted_one};
ghost use Rattle.guard_files.specs.Devices.{source_of, device_of};
ghost use Rattle.guard_streams.specs.Answered.{AnswersAll, StopsAnswering};

use guard_files::next_frame;
use guard_frames::{Decide, MOST_READS, RunFault, Sink, Source, Totals, answer};
use std::alloc::Global;

/// Answers each frame of the stream, and then how many there were.
pub fn answer_all<S: Source, D: Decide, O: Sink>(
    alloc: Global,
    policy: &D,
    room: &mut [u8],
    input: &mut S,
    out: &mut O,
) -> Result<Totals, RunFault>
    requires room { length room.old ≡ 1048580 }
    ensures all { IfOk result (λ totals. AnswersAll (D.decides policy.now) totals
        (source_of S.tells S.takes S.has_failed input.old input.new)
        (device_of O.taken O.has_failed out.old out.new)) }
    ensures stops { IfErr result (λ f. StopsAnswering f (D.decides policy.now)
        (source_of S.tells S.takes S.has_failed input.old input.new)
        (device_of O.taken O.has_failed out.old out.new)) }
    ensures lines { AsksLines (O.asked out.old) (O.asked out.new) }
{
    let mut totals = Totals::none();
    let mut reads = MOST_READS;
    for _ in 0..MOST_READS {
        let Some(size) = next_frame(input, room, &mut reads)? else {
            return Ok(totals);
        };
        let Ok(goes) = answer(alloc, policy, totals.next_number(), &room[..size], out) else {
            return Err(RunFault::WriteFailed);
        };
        totals = counted_one(totals, goes);
    }
    Err(RunFault::ReadFailed)
}

/// The totals after one more frame.
fn counted_one(totals: Totals, goes: bool) -> Totals
    ensures { (frame : List ℕ) → result ≡ counted_one totals (record { frame = frame; goes = goes }) }
{
    if goes {
        totals.after_going()
    } else {
        totals.after_staying()
    }
}
