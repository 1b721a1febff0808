//! How often each reason is reported.
ghost use Rattle.std.specs.Prelude.{◌≡◌};
ghost use Rattle.guard_streams.specs.Counted.{no_counts};

use guard_frames::{Reason, Totals, Watch, Why};

/// How many lines of a report give each reason. Each number stays at the greatest of 64 bits.
#[derive(Clone, Copy, Debug, PartialEq, Eq)]
pub struct Counts {
    pub bad_header: u64,
    pub unknown_message: u64,
    pub undecodable: u64,
    pub outside_type: u64,
    pub denied_by: u64,
    pub not_allowed: u64,
    pub no_rule: u64,
    pub no_memory: u64,
}

impl Counts {
    /// Before the first line.
    pub fn none() -> Counts
        ensures { result ≡ no_counts }
    {
        Counts {
            bad_header: 0,
            unknown_message: 0,
            undecodable: 0,
            outside_type: 0,
            denied_by: 0,
            not_allowed: 0,
            no_rule: 0,
            no_memory: 0,
        }
    }
}

impl Watch for Counts {
    ghost use Rattle.std.specs.Prelude.{◌≡◌};
    ghost use Rattle.guard_streams.specs.Counted.{count_told};

    ghost notes = { λ old told new. new ≡ count_told old told };

    fn pauses(&mut self, _totals: Totals) {}

    fn reads(&mut self, _octets: usize) {}

    fn goes(&mut self, _frames: usize, _octets: usize, _rule: usize) {}

    fn stays(&mut self, why: Why) {
        match why {
            Why::BadHeader => self.bad_header = self.bad_header.saturating_add(1),
            Why::NoMemory => self.no_memory = self.no_memory.saturating_add(1),
            Why::Decided(reason) => self.count_reason(reason),
        }
    }
}

impl Counts {
    ghost use Rattle.std.specs.Prelude.{◌≡◌};
    ghost use Rattle.guard_streams.specs.Counted.{count_reason};

    /// One more line that gives this reason.
    fn count_reason(&mut self, reason: Reason)
        ensures { self.new ≡ count_reason self.old reason }
    {
        match reason {
            Reason::UnknownMessage => self.unknown_message = self.unknown_message.saturating_add(1),
            Reason::Undecodable => self.undecodable = self.undecodable.saturating_add(1),
            Reason::OutsideType => self.outside_type = self.outside_type.saturating_add(1),
            Reason::DeniedBy(_) => self.denied_by = self.denied_by.saturating_add(1),
            Reason::NotAllowed => self.not_allowed = self.not_allowed.saturating_add(1),
            Reason::NoRule => self.no_rule = self.no_rule.saturating_add(1),
        }
    }
}
