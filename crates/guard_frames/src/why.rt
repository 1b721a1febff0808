//! Why frames stay, and who is told what becomes of each.

ghost use Rattle.std.specs.Prelude.{◌≡◌, ◌<◌, IfSome, Some};
ghost use Rattle.guard_policy.specs.Verdicts.{verdict_view, reason_view, pass};
ghost use Rattle.guard_frames.specs.Reasons.{reason_of, Told};
ghost use Rattle.guard_frames.specs.Reasons.Told.{pauses, reads, goes, stays};
ghost use Rattle.guard_frames.specs.declared.why.Why.{Why};

use crate::totals::Totals;
use guard_policy::{PlainReason, Verdict};

/// The reason of a verdict that isn't to pass.
#[derive(Clone, Copy, Debug, PartialEq, Eq)]
pub enum Reason {
    UnknownMessage,
    Undecodable,
    OutsideType,
    /// By the rule of this number.
    DeniedBy(usize),
    NotAllowed,
    NoRule,
}

/// Why a frame stays.
#[derive(Clone, Copy, Debug, PartialEq, Eq)]
pub enum Why {
    /// The frame's body isn't three names and a message.
    BadHeader,
    /// There was no memory for the frame's line.
    NoMemory,
    /// The body is decided to stay, for this reason.
    Decided(Reason),
}

/// The reason of a verdict. Condition: the verdict isn't to pass.
pub fn reason_of(verdict: &Verdict) -> Reason
    requires { verdict_view verdict.now ≡ pass → ⊥ }
    ensures { reason_of (verdict_view verdict.now) ≡ Some result }
{
    match verdict {
        Verdict::Pass => unreachable!(),
        Verdict::UnknownMessage => Reason::UnknownMessage,
        Verdict::Undecodable(_) => Reason::Undecodable,
        Verdict::OutsideType(_) => Reason::OutsideType,
        Verdict::DeniedBy(rule) => Reason::DeniedBy(*rule),
        Verdict::NotAllowed(_) => Reason::NotAllowed,
        Verdict::NoRule => Reason::NoRule,
    }
}

/// The reason of the verdict with this reason.
pub fn reason_told(reason: PlainReason) -> Reason
    ensures { IfSome (reason_view reason) (λ w. reason_of w ≡ Some result) }
{
    match reason {
        PlainReason::UnknownMessage => Reason::UnknownMessage,
        PlainReason::DeniedBy(rule) => Reason::DeniedBy(rule),
        PlainReason::NotAllowed => Reason::NotAllowed,
        PlainReason::NoRule => Reason::NoRule,
    }
}

/// Is told of each frame what becomes of it.
pub trait Watch {
    /// What each thing that is told changes.
    ghost notes: { Self → Told → Self → Type 0 };

    /// What comes next may have to be waited for. All frames so far, of which these are the totals, are out or
    /// reported.
    fn pauses(&mut self, totals: Totals)
        ensures { notes self.old (pauses totals) self.new };

    /// So many octets came.
    fn reads(&mut self, octets: usize)
        ensures { notes self.old (reads octets) self.new };

    /// The next so many frames go, at least one, with so many octets in all, and each by the rule of this number. They
    /// may not be out yet.
    fn goes(&mut self, frames: usize, octets: usize, rule: usize)
        requires { 0 < frames }
        ensures { notes self.old (goes frames octets rule) self.new };

    /// The next frame stays, for this reason.
    fn stays(&mut self, why: Why)
        ensures { notes self.old (stays why) self.new };
}

/// Nobody is told.
#[derive(Clone, Copy)]
pub struct Unwatched;

impl Watch for Unwatched {
    ghost notes = { λ old told new. Unit {0} };

    fn pauses(&mut self, _totals: Totals) {}

    fn reads(&mut self, _octets: usize) {}

    fn goes(&mut self, _frames: usize, _octets: usize, _rule: usize) {}

    fn stays(&mut self, _why: Why) {}
}
