//! Says notes, and what the system says of a fault.
ghost use Rattle.std.specs.Prelude.{◌++◌};
ghost use Rattle.guard_files.specs.Devices.{device_of};
ghost use Rattle.guard_streams.specs.Saying.{TellsUnread};
ghost use Rattle.guard_streams.specs.Verbose.{last_lines, TellsFault, TellsNotes};

use crate::saying::{Says, said_of_fault, said_of_run};
use crate::seen::{Seen, fault_notes, notes};
use guard_files::{Fault, tell_line, tell_no_memory, tell_with};
use guard_frames::{RunFault, Sink};
use std::alloc::Global;

/// Says some lines, and then what was seen, with this status.
pub fn tell_notes<E: Sink>(alloc: Global, first: &str, seen: &Seen, status: u8, err: &mut E) -> u8
    ensures { TellsNotes (first.now ++ last_lines seen.now) status (device_of E.taken E.has_failed err.old err.new)
        result }
{
    match notes(alloc, first, seen) {
        Ok(text) => tell_line(text.as_bytes(), status, err),
        Err(_) => tell_no_memory(err),
    }
}

/// Says a fault with the notes behind its line.
pub fn tell_fault<E: Sink, T: Says>(
    alloc: Global,
    fault: RunFault,
    seen: &Seen,
    err: &mut E,
    system: &T,
) -> u8
    ensures { TellsFault fault seen.now (device_of E.taken E.has_failed err.old err.new) result }
{
    let Ok(said) = said_of_run(alloc, fault, system) else {
        return tell_no_memory(err);
    };
    match fault_notes(alloc, fault, &said, seen) {
        Ok(notes) => tell_with(alloc, &Fault::Run(fault), &notes, err),
        Err(_) => tell_no_memory(err),
    }
}

/// Says why there is no policy, with what the system says.
pub fn tell_unread<E: Sink, T: Says>(alloc: Global, fault: &Fault, err: &mut E, system: &T) -> u8
    ensures { TellsUnread fault.now (device_of E.taken E.has_failed err.old err.new) result }
{
    match said_of_fault(alloc, fault, system) {
        Ok(said) => tell_with(alloc, fault, &said, err),
        Err(_) => tell_no_memory(err),
    }
}
