//! How many frames there were.

/// How many whole frames there were, how many of them went out, and how many stayed. Each number stays at the greatest
/// of 64 bits.
#[derive(Clone, Copy, Debug, PartialEq, Eq)]
pub struct Totals {
    pub frames: u64,
    pub passed: u64,
    pub denied: u64,
}

impl Totals {
    ghost use Rattle.std.specs.Prelude.{◌≡◌};
    ghost use Rattle.guard_frames.specs.Totals.{no_frames, after_going, after_staying, next_number};

    /// The totals before the first frame.
    pub fn none() -> Totals
        ensures { result ≡ no_frames }
    {
        Totals {
            frames: 0,
            passed: 0,
            denied: 0,
        }
    }

    /// The totals after one more frame that goes.
    pub fn after_going(self) -> Totals
        ensures { result ≡ after_going self }
    {
        Totals {
            frames: self.frames.saturating_add(1),
            passed: self.passed.saturating_add(1),
            denied: self.denied,
        }
    }

    /// The totals after one more frame that stays.
    pub fn after_staying(self) -> Totals
        ensures { result ≡ after_staying self }
    {
        Totals {
            frames: self.frames.saturating_add(1),
            passed: self.passed,
            denied: self.denied.saturating_add(1),
        }
    }

    /// The number of the frame that comes next, from 1 on; 2^64-1 at most.
    pub fn next_number(self) -> u64
        ensures { result ≡ next_number self }
    {
        self.frames.saturating_add(1)
    }
}
