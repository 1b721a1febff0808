//! How many faults links had, by kind.

use guard_frames::LinkFault;

/// How often links had each fault. Each number stays at the greatest of 64 bits.
#[derive(Clone, Copy, Debug, PartialEq, Eq)]
pub struct Faults {
    pub frame_too_long: u64,
    pub write_failed: u64,
    pub closed: u64,
    pub torn_frame: u64,
}

impl Faults {
    ghost use Rattle.std.specs.Prelude.{◌≡◌};
    ghost use Rattle.guard_streams.specs.Faults.{no_faults, faulted};

    /// None yet.
    pub fn none() -> Faults
        ensures { result ≡ no_faults }
    {
        Faults {
            frame_too_long: 0,
            write_failed: 0,
            closed: 0,
            torn_frame: 0,
        }
    }

    /// These, and the one with which a link answered, where it did.
    pub fn answered(&mut self, answer: Result<(), LinkFault>)
        ensures { self.new ≡ faulted self.old answer }
    {
        match answer {
            Ok(()) => {}
            Err(LinkFault::FrameTooLong) => {
                self.frame_too_long = self.frame_too_long.saturating_add(1);
            }
            Err(LinkFault::WriteFailed) => self.write_failed = self.write_failed.saturating_add(1),
            Err(LinkFault::Closed) => self.closed = self.closed.saturating_add(1),
            Err(LinkFault::TornFrame) => self.torn_frame = self.torn_frame.saturating_add(1),
        }
    }
}
