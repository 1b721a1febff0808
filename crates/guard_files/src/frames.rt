//! Reads the frames of a stream, one after another.
ghost use Rattle.std.specs.Prelude.{◌≡◌, ◌≤◌, ◌<◌, ◌-◌, List, ℕ, [], None, length, take, IfOk, IfErr, IfSome};
ghost use Rattle.std.specs.Io.KnownBytes.{Consumes, IsAtEnd};
ghost use Rattle.guard_frames.specs.Frames.{IsFrame};
ghost use Rattle.guard_frames.specs.Totals.{WentUpBy};
ghost use Rattle.guard_files.specs.NextFrame.{IsNoFrame};

use crate::octets::room;
use crate::records::fill;
use guard_frames::{LENGTH_OCTETS, LONGEST_FRAME, RunFault, Source, allowed_length};
use guard_model::OutOfMemory;
use std::alloc::Global;

/// Room for a frame.
pub fn new_frame_room(alloc: Global) -> Result<Vec<u8>, OutOfMemory>
    ensures { IfOk result (λ room. length room.items ≡ 1048580) }
{
    room(alloc, LONGEST_FRAME)
}

/// The size of the next frame, whose octets are the first ones in the room then; none where the source has ended.
/// Nothing is read of what follows the frame, and of one that is too long nothing but its length. It fails with F1, F4
/// or F5. Condition: the room has 1,048,580 octets.
pub fn next_frame<S: Source>(
    source: &mut S,
    room: &mut [u8],
    reads: &mut u64,
) -> Result<Option<usize>, RunFault>
    requires { length room.old ≡ 1048580 }
    ensures frame { IfOk result (λ found. IfSome found (λ n. (n ≤ 1048580) × IsFrame (take n room.new)
        × (reads.new < reads.old) × Consumes (S.tells source.old) (S.tells source.new) (take n room.new))) }
    ensures end { IfOk result (λ found. found ≡ None →
        Consumes (S.tells source.old) (S.tells source.new) [] × IsAtEnd (S.tells source.new)) }
    ensures none { IfErr result (λ f. (rest : List ℕ) × Consumes (S.tells source.old) (S.tells source.new) rest
        × IsNoFrame f rest (IsAtEnd (S.tells source.new)) (S.has_failed source.new) reads.new) }
    ensures counted { WentUpBy (S.takes source.old) (reads.old - reads.new) (S.takes source.new) }
    ensures fewer { reads.new ≤ reads.old }
{
    let count = match fill(source, room, 0, LENGTH_OCTETS, reads) {
        Ok(count) => count,
        Err(_) => return Err(RunFault::ReadFailed),
    };
    if count == 0 {
        return Ok(None);
    }
    if count < LENGTH_OCTETS {
        return Err(RunFault::TornFrame);
    }
    let Some(body) = allowed_length(&room[..LENGTH_OCTETS]) else {
        return Err(RunFault::FrameTooLong);
    };
    let behind = match fill(source, room, LENGTH_OCTETS, body, reads) {
        Ok(behind) => behind,
        Err(_) => return Err(RunFault::ReadFailed),
    };
    if behind < body {
        return Err(RunFault::TornFrame);
    }
    Ok(Some(body + LENGTH_OCTETS))
}
