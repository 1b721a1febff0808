//! Where counters are shown.
ghost use Rattle.std.specs.Prelude.{◌≡◌, true, false};
ghost use Rattle.guard_streams.specs.Shown.{Shown, Shows};

use std::alloc::Global;

/// Where counters are shown, and when.
pub trait Board {
    /// What was shown so far, where the board tells that.
    ghost shown: { Self → Shown };

    /// Whether so much time has passed since it was asked last and said yes that counters are to be shown again. It
    /// says yes the first time.
    fn is_due(&mut self) -> bool
        ensures { shown self.new ≡ shown self.old };

    /// Shows the text at the path, in place of what was there; answers whether that worked. Where it didn't, what was
    /// there stays. Who reads at the path never finds a part of a text.
    fn show(&mut self, alloc: Global, path: &str, text: &[u8]) -> bool
        ensures shown { result ≡ true → Shows (shown self.old) path.now text.now (shown self.new) }
        ensures none { result ≡ false → shown self.new ≡ shown self.old };
}
