//! Why the octets of a message can't be had.
ghost use Rattle.std.specs.Prelude.{◌≡◌};
ghost use Rattle.guard_files.specs.Devices.{device_of};
ghost use Rattle.guard_files.specs.declared.fault.Fault.TheVariants.{NoMemory};
ghost use Rattle.guard_messages.specs.Finding.{TellsUnfound, bad_hex, of_stop};
ghost use Rattle.guard_messages.specs.declared.unfound.Unfound.TheVariants as unfound;

use guard_files::{Fault, Stop, tell, tell_bad_record, tell_text};
use guard_frames::{RunFault, Sink};
use guard_model::OutOfMemory;
use std::alloc::Global;

/// Why the octets of a message can't be had.
#[derive(Debug, Drop)]
pub enum Unfound {
    /// The digits write no octets.
    BadHex,
    /// The file can't be read, standard input failed or isn't frames, or memory ran out.
    Faulty(Fault),
    /// There are more than 1,048,576 octets.
    TooLong,
    /// No link has the number.
    NoSuchLink,
    /// No frame that comes in has the number.
    NoSuchFrame,
    /// What comes in is no record, or is cut short by the end.
    BadRecord,
}

impl From<Fault> for Unfound {
    ghost from_gives = { λ f e. e ≡ unfound.Faulty f };

    fn from(fault: Fault) -> Unfound {
        Unfound::Faulty(fault)
    }
}

impl From<OutOfMemory> for Unfound {
    ghost from_gives = { λ _ e. e ≡ unfound.Faulty NoMemory };

    fn from(_e: OutOfMemory) -> Unfound {
        Unfound::Faulty(Fault::NoMemory)
    }
}

impl From<Stop> for Unfound {
    ghost from_gives = { λ s e. e ≡ of_stop s };

    fn from(stop: Stop) -> Unfound {
        match stop {
            Stop::BadRecord => Unfound::BadRecord,
            Stop::ReadFailed | Stop::WriteFailed | Stop::ErrorFailed => {
                Unfound::Faulty(Fault::Run(RunFault::ReadFailed))
            }
        }
    }
}

/// Reports why the octets can't be had, and answers the status. Digits that write none are explained where that is
/// asked for.
pub fn tell_unfound<E: Sink>(alloc: Global, explain: bool, reason: &Unfound, err: &mut E) -> u8
    ensures { TellsUnfound explain reason.now (device_of E.taken E.has_failed err.old err.new) result }
{
    match reason {
        Unfound::BadHex => tell_text(alloc, bad_hex(explain), 2, err),
        Unfound::Faulty(fault) => tell(alloc, fault, err),
        Unfound::TooLong => tell_text(alloc, "message too long", 2, err),
        Unfound::NoSuchLink => tell_text(alloc, "no such link", 2, err),
        Unfound::NoSuchFrame => tell_text(alloc, "no such frame", 2, err),
        Unfound::BadRecord => tell_bad_record(err),
    }
}

/// What is reported of digits that write no octets, with what is to be done where that is to be explained.
fn bad_hex(explain: bool) -> &'static str
    ensures { result.now ≡ bad_hex explain }
{
    if explain {
        "bad hex\n  A message is written by pairs of hexadecimal digits, 0 to 9 and a to f. Mend the digits."
    } else {
        "bad hex"
    }
}
