//! What decides which messages go.

ghost use Rattle.std.specs.Prelude.{◌≡◌, ℕ, List, IfOk, IfSome, OnOk};
ghost use Rattle.guard_policy.specs.declared.verdict.PlainReason.{PlainReason};
ghost use Rattle.guard_frames.specs.Bodies.{AbstractBody, body_view, header_of, HasNames};
ghost use Rattle.guard_frames.specs.Calls.{EndsLine};
ghost use Rattle.guard_frames.specs.Outcomes.{Decision, IsDecided};
ghost use Rattle.guard_frames.specs.Recalling.{Recalls};
ghost use Rattle.guard_frames.specs.declared.why.Reason.{Reason};

use crate::body::Body;
use crate::last_route::LastRoute;
use crate::why::Reason;
use guard_model::OutOfMemory;
use guard_policy::PlainReason;
use std::alloc::Global;

/// What is decided of a frame.
#[derive(Clone, Copy)]
pub enum Decided {
    /// It goes, by the rule of this number.
    Goes(usize),
    /// It stays, and this is known of it.
    Stays(Known),
}

/// What is known of a frame that stays, before its report is made.
#[derive(Clone, Copy)]
pub enum Known {
    /// Its body isn't three names and a message.
    BadHeader,
    /// Its body is three names and a message, and is decided to stay, for this reason where one is told.
    Named(Option<PlainReason>),
}

/// Decides which bodies of frames go, and says of each other one why it stays.
pub trait Decide {
    /// Which bodies go, and the report line of each other one.
    ghost decides: { Self → Decision };

    /// By which rule, of this number, a body goes.
    ghost lets: { Self → AbstractBody → ℕ → Type 0 };

    /// For which reasons a body stays.
    ghost reasons_of: { Self → AbstractBody → PlainReason → Type 0 };

    /// Which report lines give this reason.
    ghost gives: { Self → Reason → List ℕ → Type 0 };

    /// Whether a frame goes, by the octets that follow its four octets of length: they are three names and a message,
    /// and this body is decided to go. The rule is told by which one goes. Of one that stays is told whether it has
    /// three names, so that nobody asks again, and the reason may be, for `line`. No memory is taken. What was found of
    /// the frame's route may be kept in `last`, so that the names of the next frame are compared with its names before
    /// they are looked up; no answer depends on it. Condition: what is kept there is right.
    fn goes<'a>(&'a self, body: &[u8], last: &mut LastRoute<'a>) -> Decided
        requires { Recalls (decides self.now) (lets self.now) (reasons_of self.now) last.old }
        ensures decided { IsDecided (decides self.now) (lets self.now) (reasons_of self.now) body.now result }
        ensures recalls { Recalls (decides self.now) (lets self.now) (reasons_of self.now) last.new };

    /// Puts the report line of the frame of this number and with this body, with its line feed, in the place of what
    /// `line` has, and answers the reason that it gives. One list serves many lines, and keeps its memory. Conditions:
    /// the header is that of the body, which has three names and is decided to stay, and a reason that is given is the
    /// one that `goes` told of it, so that no more is asked of its message than this reason leaves open. OutOfMemory is
    /// the only error, which leaves some octets in `line`.
    fn line(
        &self,
        alloc: Global,
        line: &mut Vec<u8>,
        number: u64,
        header: &[u8],
        body: &Body,
        told: Option<PlainReason>,
    ) -> Result<Reason, OutOfMemory>
        requires header { header.now ≡ header_of (body_view body.now) }
        requires names { HasNames (body_view body.now) }
        requires stays { (decides self.now).LetsGo (body_view body.now) → ⊥ }
        requires told { IfSome told (reasons_of self.now (body_view body.now)) }
        ensures reports { OnOk result ((decides self.now).Reports number (body_view body.now) line.new.items) }
        ensures ends { OnOk result (EndsLine line.new.items) }
        ensures gives { IfOk result (λ reason. gives self.now reason line.new.items) };
}
