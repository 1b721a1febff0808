//! Frames that go, one after another, by one rule: a watch is told of them at once.

ghost use Rattle.std.specs.Prelude.{◌≡◌, ◌<◌, ◌≤◌};
ghost use Rattle.guard_frames.specs.inside.Untold.{none_from, IsToldOf, IsOneMore};

use crate::why::Watch;

/// The last of some frames that lie side by side: they go by one rule, and the watch isn't told of them yet.
#[derive(Clone, Copy, Debug)]
pub(crate) struct Untold {
    /// The number of the rule. It says nothing where there are no frames.
    rule: usize,
    /// How many frames come before them.
    before: usize,
    /// Where they begin, among the octets that they lie in.
    start: usize,
}

impl Untold {
    /// No frames yet, and none before. The next one begins here.
    pub(crate) fn none(start: usize) -> Untold
        ensures { result ≡ none_from start }
    {
        Untold {
            rule: 0,
            before: 0,
            start,
        }
    }

    /// Tells the watch of these, the last of so many frames, which end here, if there are any. Conditions: they don't
    /// begin behind their end, and no more frames come before them than there are.
    #[inline(always)]
    pub(crate) fn tell<W: Watch>(&self, watch: &mut W, frames: usize, end: usize)
        requires ordered { self.now.start ≤ end }
        requires among { self.now.before ≤ frames }
        ensures { IsToldOf W.notes self.now frames end watch.old watch.new }
    {
        if self.before < frames {
            self.tell_some(watch, frames, end);
        }
    }

    /// What `tell` does where there are some.
    #[cold]
    #[inline(never)]
    fn tell_some<W: Watch>(&self, watch: &mut W, frames: usize, end: usize)
        requires ordered { self.now.start ≤ end }
        requires some { self.now.before < frames }
        ensures { IsToldOf W.notes self.now frames end watch.old watch.new }
    {
        watch.goes(frames - self.before, end - self.start, self.rule);
    }

    /// One more frame follows so many, which end here, and goes by the rule of this number. Where that is the rule of
    /// these, it is one of them, and nothing changes: it is counted with all frames. Else the watch is told of these,
    /// and the new frame is the first of others. Conditions: those of `tell`. It is called for each frame that goes,
    /// and most have the rule of the frame before.
    #[inline(always)]
    pub(crate) fn add_one<W: Watch>(
        &mut self,
        watch: &mut W,
        rule: usize,
        frames: usize,
        end: usize,
    )
        requires ordered { self.old.start ≤ end }
        requires among { self.old.before ≤ frames }
        ensures { IsOneMore W.notes self.old rule frames end watch.old watch.new self.new }
    {
        if rule == self.rule {
            return;
        }
        self.tell(watch, frames, end);
        *self = Untold {
            rule,
            before: frames,
            start: end,
        };
    }
}
