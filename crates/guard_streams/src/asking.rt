//! Answers what becomes of each frame that comes in.
ghost use Rattle.guard_frames.specs.Calls.{AsksLines};
ghost use Rattle.guard_files.specs.Devices.{source_of, device_of};
ghost use Rattle.guard_streams.specs.Asking.{AsksStream};

use crate::answering::answer_all;
use crate::guarding::status_of;
use guard_files::{Fault, Files, load, new_frame_room, tell, tell_no_memory};
use guard_frames::{Sink, Source};
use std::alloc::Global;

/// Answers each frame that comes in by a line on standard output, under the policy at the path, and answers the status:
/// 0 where all frames go, 1 where one doesn't, 2 where there is no policy, 3 where the stream or a device failed. Each
/// line is out before the next frame is read. A fault is reported on standard error.
pub fn ask<F: Files, S: Source, O: Sink, E: Sink>(
    alloc: Global,
    path: &str,
    files: &mut F,
    input: &mut S,
    out: &mut O,
    err: &mut E,
) -> u8
    ensures asks { AsksStream (F.told files.old) path.now
        (source_of S.tells S.takes S.has_failed input.old input.new)
        (device_of O.taken O.has_failed out.old out.new)
        (device_of E.taken E.has_failed err.old err.new) result }
    // Each line goes in one call.
    ensures lines { AsksLines (O.asked out.old) (O.asked out.new) }
{
    let policy = match load(alloc, path, files) {
        Ok(policy) => policy,
        Err(fault) => return tell(alloc, &fault, err),
    };
    let Ok(mut room) = new_frame_room(alloc) else {
        return tell_no_memory(err);
    };
    match answer_all(alloc, &policy, room.as_mut_slice(), input, out) {
        Ok(totals) => status_of(totals),
        Err(fault) => tell(alloc, &Fault::Run(fault), err),
    }
}
