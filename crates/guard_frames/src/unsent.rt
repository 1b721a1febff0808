//! Frames that go, one after another, and wait to be put.

ghost use Rattle.std.specs.Prelude.{◌≡◌};
ghost use Rattle.guard_frames.specs.inside.Unsent.{none_after, totals_with};

use crate::totals::Totals;

/// Frames that lie side by side, go, and aren't put yet.
#[derive(Clone, Copy, Debug)]
pub(crate) struct Unsent {
    /// The totals before them.
    pub(crate) totals: Totals,
    /// How many frames there are.
    pub(crate) frames: usize,
    /// Where they begin, among the octets that they lie in.
    pub(crate) start: usize,
}

impl Unsent {
    /// No frames yet, after these totals. The next one begins here.
    pub(crate) fn none(totals: Totals, start: usize) -> Unsent
        ensures { result ≡ none_after totals start }
    {
        Unsent {
            totals,
            frames: 0,
            start,
        }
    }

    /// The totals with these frames. They are made only where they are asked for, so that a frame that goes takes one
    /// addition.
    pub(crate) fn totals_with(self) -> Totals
        ensures { result ≡ totals_with self }
    {
        Totals {
            frames: self.totals.frames.saturating_add(self.frames as u64),
            passed: self.totals.passed.saturating_add(self.frames as u64),
            denied: self.totals.denied,
        }
    }
}
