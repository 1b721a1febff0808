//! What is answered to a request that reads no stream, written or reported.
ghost use Rattle.std.specs.Prelude.{◌≡◌, string_bytes, IfOk, IfErr};
ghost use Rattle.guard_files.specs.Devices.{device_of};
ghost use Rattle.guard_files.specs.Writing.{TellsWith, Writes};

use crate::answer::Answer;
use crate::explaining::Refusal;
use crate::outputs::{tell_with, write};
use guard_frames::Sink;
use std::alloc::Global;

/// Writes the answer, or reports the fault with what explains it.
pub fn give<O: Sink, E: Sink>(
    alloc: Global,
    found: Result<Answer, Refusal>,
    out: &mut O,
    err: &mut E,
) -> u8
    ensures written { IfOk found (λ a. Writes a.out.items a.status (device_of O.taken O.has_failed out.old out.new)
        (device_of E.taken E.has_failed err.old err.new) result) }
    ensures told { IfErr found (λ r. (O.taken out.new ≡ O.taken out.old)
        × TellsWith r.fault (string_bytes r.note) (device_of E.taken E.has_failed err.old err.new)
        result) }
{
    match found {
        Ok(answer) => write(&answer.out, answer.status, out, err),
        Err(refusal) => tell_with(alloc, &refusal.fault, &refusal.note, err),
    }
}
