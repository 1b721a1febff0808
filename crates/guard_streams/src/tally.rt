//! What is counted of a stream, or of many links, so far.
ghost use Rattle.std.specs.Prelude.{◌≡◌};
ghost use Rattle.guard_streams.specs.Counters.{nothing_tallied};

use crate::counts::Counts;
use crate::faults::Faults;
use guard_frames::Totals;

/// What is counted, without what is counted by rule. Each number stays at the greatest of 64 bits.
#[derive(Clone, Copy, Debug, PartialEq, Eq)]
pub struct Tally {
    pub totals: Totals,
    pub counts: Counts,
    /// How many octets came.
    pub came: u64,
    /// How many octets went out.
    pub went: u64,
    /// How often a new policy came into force.
    pub reloads: u64,
    pub faults: Faults,
}

impl Tally {
    /// Before anything came.
    pub fn nothing() -> Tally
        ensures { result ≡ nothing_tallied }
    {
        Tally {
            totals: Totals::none(),
            counts: Counts::none(),
            came: 0,
            went: 0,
            reloads: 0,
            faults: Faults::none(),
        }
    }
}
