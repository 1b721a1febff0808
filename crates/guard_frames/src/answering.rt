//! Answers what becomes of a frame.

ghost use Rattle.std.specs.Prelude.{◌≡◌, ◌≤◌, true, List, ℕ, length, IfOk, OnOk, OnErr};
ghost use Rattle.std.specs.Io.KnownBytes.{Appends};
ghost use Rattle.guard_frames.specs.Answering.{pass_line, Answers};
ghost use Rattle.guard_frames.specs.Bodies.{body_view};
ghost use Rattle.guard_frames.specs.Calls.{AsksLines};
ghost use Rattle.guard_frames.specs.Outcomes.{Outcome};
ghost use Rattle.guard_frames.specs.Prefix.{IsProperPrefix};

use crate::body::Body;
use crate::cut::frame_of;
use crate::decision::{Decide, Decided};
use crate::devices::{Failed, Sink, put_all};
use crate::header::cut_body;
use crate::last_route::LastRoute;
use crate::report::{put_report, report_on};
use crate::short_line::{ShortLine, append};
use itoa::Buffer;
use std::alloc::Global;

/// Puts the line that says what becomes of the frame of this number, in one call: as a report has it, and with `pass`
/// where the frame goes. The answer is whether it goes. Memory is taken only for a line that says why a message stays;
/// where there is none the line is `N no-memory`. Condition: the frame has its four octets of length; what follows them
/// is taken as its body.
///
/// # Errors
/// Failed where the sink has failed, which took a proper part of the line at most.
pub fn answer<D: Decide, S: Sink>(
    alloc: Global,
    policy: &D,
    number: u64,
    frame: &[u8],
    answers: &mut S,
) -> Result<bool, Failed>
    requires { 4 ≤ length frame.now }
    ensures all { IfOk result (λ goes. (line : List ℕ)
        × Answers (D.decides policy.now) number (record { frame = frame.now; goes = goes }) line
        × Appends (S.taken answers.old) (S.taken answers.new) line) }
    ensures part { OnErr result ((o : Outcome) × (line : List ℕ) × (part : List ℕ) × (o.frame ≡ frame.now)
        × Answers (D.decides policy.now) number o line
        × IsProperPrefix part line × Appends (S.taken answers.old) (S.taken answers.new) part) }
    ensures failed { OnErr result (S.has_failed answers.new ≡ true) }
    ensures lines { AsksLines (S.asked answers.old) (S.asked answers.new) }
{
    let frame = frame_of(frame);
    match policy.goes(frame.body, &mut LastRoute::none()) {
        Decided::Goes(_) => {
            let Some(body) = cut_body(frame.body) else {
                unreachable!()
            };
            put_pass(answers, number, &body)?;
            Ok(true)
        }
        Decided::Stays(known) => {
            let mut line = Vec::new(alloc);
            let why = report_on(alloc, policy, number, &frame, known, &mut line);
            put_report(answers, number, why, line.as_slice())?;
            Ok(false)
        }
    }
}

/// Puts the line that says that the frame of this number and with this body goes, in one call. No memory is taken.
fn put_pass<S: Sink>(answers: &mut S, number: u64, body: &Body) -> Result<(), Failed>
    requires sender { length body.now.sender.now ≤ 63 }
    requires receiver { length body.now.receiver.now ≤ 63 }
    requires name { length body.now.name.now ≤ 63 }
    ensures all { OnOk result
        (Appends (S.taken answers.old) (S.taken answers.new) (pass_line number (body_view body.now))) }
    ensures part { OnErr result ((part : List ℕ) × IsProperPrefix part (pass_line number (body_view body.now))
        × Appends (S.taken answers.old) (S.taken answers.new) part) }
    ensures failed { OnErr result (S.has_failed answers.new ≡ true) }
    ensures lines { AsksLines (S.asked answers.old) (S.asked answers.new) }
{
    let mut buffer = Buffer::new();
    let mut line = ShortLine::new();
    append(&mut line, buffer.format(number).as_bytes());
    append(&mut line, b" ");
    append(&mut line, body.sender);
    append(&mut line, b">");
    append(&mut line, body.receiver);
    append(&mut line, b" ");
    append(&mut line, body.name);
    append(&mut line, b" pass\n");
    put_all(answers, line.as_slice())
}
