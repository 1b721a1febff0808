//! The line that is reported of a frame that stays.

ghost use Rattle.std.specs.Prelude.{◌≡◌, ◌++◌, ◌≤◌, true, List, ℕ, drop, length, IfSome, OnOk, OnErr, decimal};
ghost use Rattle.std.specs.Io.KnownBytes.{Appends};
ghost use Rattle.guard_frames.specs.Calls.{EndsLine, AsksLines};
ghost use Rattle.guard_frames.specs.Prefix.{IsProperPrefix};
ghost use Rattle.guard_frames.specs.inside.Judged.{IsReportOf, ReportEnds, ReportGives, report_line};
ghost use Rattle.guard_frames.specs.Bodies.{HasNames, body_view, header_of};
ghost use Rattle.guard_frames.specs.Guarding.{Adds};
ghost use Rattle.guard_frames.specs.Outcomes.{IsKnown, staying};

use crate::body::Body;
use crate::cut::Frame;
use crate::decision::{Decide, Known};
use crate::devices::{Failed, Sink, put_all};
use crate::header::cut_body;
use crate::short_line::{ShortLine, append};
use crate::why::Why;
use guard_policy::PlainReason;
use itoa::Buffer;
use std::alloc::Global;

/// Why the frame of this number stays, of which this is known. Where its line takes memory, `line` has it then, in the
/// place of what it had. Conditions: the frame's body is what follows its first four octets, and what is known is so.
pub fn report_on<D: Decide>(
    alloc: Global,
    policy: &D,
    number: u64,
    frame: &Frame,
    known: Known,
    line: &mut Vec<u8>,
) -> Why
    requires body { frame.now.body.now ≡ drop 4 frame.now.octets.now }
    requires known { IsKnown (D.decides policy.now) (D.reasons_of policy.now) frame.now.body.now known }
    ensures adds { Adds (D.decides policy.now) number (staying frame.now.octets.now) (report_line number result line.new.items) }
    ensures ends { ReportEnds result line.new.items }
    ensures gives { ReportGives (D.gives policy.now) result line.new.items }
{
    match known {
        Known::BadHeader => Why::BadHeader,
        Known::Named(told) => {
            let Some(body) = cut_body(frame.body) else {
                unreachable!()
            };
            let header = &frame.body[..frame.body.len() - body.message_octets.len()];
            report_of(alloc, policy, number, header, &body, told, line)
        }
    }
}

/// Why the frame of this number, with this body and its header, stays, for this reason where one is told; its line as
/// `report_on` says.
fn report_of<D: Decide>(
    alloc: Global,
    policy: &D,
    number: u64,
    header: &[u8],
    body: &Body,
    told: Option<PlainReason>,
    line: &mut Vec<u8>,
) -> Why
    requires header { header.now ≡ header_of (body_view body.now) }
    requires names { HasNames (body_view body.now) }
    requires stays { (D.decides policy.now).LetsGo (body_view body.now) → ⊥ }
    requires told { IfSome told (D.reasons_of policy.now (body_view body.now)) }
    ensures reports { IsReportOf (D.decides policy.now) number (body_view body.now) result line.new.items }
    ensures ends { ReportEnds result line.new.items }
    ensures gives { ReportGives (D.gives policy.now) result line.new.items }
{
    match policy.line(alloc, line, number, header, body, told) {
        Ok(reason) => Why::Decided(reason),
        Err(_) => Why::NoMemory,
    }
}

/// Puts the line that says why the frame of this number stays, in one call. Failed where the sink has failed, which
/// took a proper part of the line at most. Condition: a line that is given ends with a line feed.
pub(crate) fn put_report<S: Sink>(
    sink: &mut S,
    number: u64,
    why: Why,
    line: &[u8],
) -> Result<(), Failed>
    requires { ReportEnds why line.now }
    ensures all { OnOk result (Appends (S.taken sink.old) (S.taken sink.new) (report_line number why line.now)) }
    ensures part { OnErr result ((part : List ℕ) × IsProperPrefix part (report_line number why line.now)
        × Appends (S.taken sink.old) (S.taken sink.new) part) }
    ensures failed { OnErr result (S.has_failed sink.new ≡ true) }
    ensures lines { AsksLines (S.asked sink.old) (S.asked sink.new) }
{
    let mut short = ShortLine::new();
    put_all(sink, line_of(number, why, line, &mut short))
}

/// The line that says why the frame of this number stays: the one that is given, where the body is decided to stay. Any
/// other takes no memory, and is put together in `short`, whose octets are dropped. Condition: the line that is given
/// ends with a line feed, where it is taken.
pub fn line_of<'a>(number: u64, why: Why, line: &'a [u8], short: &'a mut ShortLine) -> &'a [u8]
    requires { ReportEnds why line.now }
    ensures line { result.now ≡ report_line number why line.now }
    ensures ends { EndsLine result.now }
{
    match why {
        Why::BadHeader => numbered(number, b" bad-header\n", short),
        Why::NoMemory => numbered(number, b" no-memory\n", short),
        Why::Decided(_) => line,
    }
}

/// The number in decimal and then the octets, which end a line, in place of what was there.
fn numbered<'a>(number: u64, octets: &[u8], line: &'a mut ShortLine) -> &'a [u8]
    requires short { length octets.now ≤ 20 }
    requires ends { EndsLine octets.now }
    ensures line { result.now ≡ decimal number ++ octets.now }
    ensures ends { EndsLine result.now }
{
    let mut buffer = Buffer::new();
    line.clear();
    append(line, buffer.format(number).as_bytes());
    append(line, octets);
    line.as_slice()
}
