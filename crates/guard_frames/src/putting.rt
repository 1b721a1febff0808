//! Puts the whole frames of some octets where they go, from where they lie.

ghost use Rattle.std.specs.Prelude.{IfOk, IfErr};
ghost use Rattle.guard_frames.specs.Added.{Added, BothAppend};
ghost use Rattle.guard_frames.specs.Calls.{AsksLines};
ghost use Rattle.guard_frames.specs.Reasons.{Noted};
ghost use Rattle.guard_frames.specs.inside.Putting.{ArePut, IsBroken, SinkFailed};

use crate::cut::{Cut, Rest, first_cut};
use crate::decision::{Decide, Decided};
use crate::devices::Sink;
use crate::last_route::LastRoute;
use crate::report::{line_of, report_on};
use crate::sending::{Broken, put_going};
use crate::short_line::ShortLine;
use crate::totals::Totals;
use crate::unsent::Unsent;
use crate::untold::Untold;
use crate::waiting::Waiting;
use crate::why::Watch;
use std::alloc::Global;

/// How far the whole frames of some octets reach.
#[derive(Clone, Copy, Debug)]
pub struct Whole {
    /// How many octets the frames take.
    pub end: usize,
    /// The totals after the frames.
    pub totals: Totals,
    /// What comes next.
    pub rest: Rest,
}

/// Decides the whole frames at the front of the octets, counted on from `totals`, and puts each one that goes, or the
/// line of one that stays; the watch is told of each, of those that go side by side by one rule at once. Frames that go
/// side by side wait to be put in one call, and so do lines of frames that stay side by side, as many as `Waiting` lets
/// wait. What waits for one sink is put before anything goes to the other, and the watch is told of frames that go
/// before they are put; at the return nothing waits. Most frames have the route of the frame before, so each is
/// compared with it first. The totals and the number of a frame are made where they are needed, from how many frames
/// wait: most frames go, and what is done for each of those is kept short.
pub fn put_frames<D: Decide, O: Sink, R: Sink, W: Watch>(
    alloc: Global,
    policy: &D,
    octets: &[u8],
    totals: Totals,
    out: &mut O,
    reports: &mut R,
    watch: &mut W,
) -> Result<Whole, Broken>
    ensures whole { IfOk result (λ whole. (added : Added)
        × ArePut (D.decides policy.now) totals octets.now whole added
        × BothAppend (O.taken out.old, O.taken out.new) (R.taken reports.old, R.taken reports.new) added
        × Noted (D.gives policy.now) (D.lets policy.now) W.notes watch.old added watch.new) }
    ensures failure { IfErr result (λ b. (added : Added)
        × IsBroken (D.decides policy.now) totals octets.now b added
        (λ told. Noted (D.gives policy.now) (D.lets policy.now) W.notes watch.old told watch.new)
        × BothAppend (O.taken out.old, O.taken out.new) (R.taken reports.old, R.taken reports.new) added) }
    ensures failed { IfErr result (λ b. SinkFailed b (O.has_failed out.new) (R.has_failed reports.new)) }
    ensures lines { AsksLines (R.asked reports.old) (R.asked reports.new) }
{
    let mut unsent = Unsent::none(totals, 0);
    let mut untold = Untold::none(0);
    let mut end = 0;
    let mut last = LastRoute::none();
    let mut waiting = Waiting::none(alloc);
    let mut short = ShortLine::new();
    let mut line = Vec::new(alloc);
    loop {
        let frame = match first_cut(&octets[end..]) {
            Cut::Frame(frame) => frame,
            Cut::Rest(rest) => {
                untold.tell(watch, unsent.frames, end);
                put_going(out, &octets[unsent.start..end], unsent.totals)?;
                waiting.put(reports)?;
                let totals = unsent.totals_with();
                return Ok(Whole { end, totals, rest });
            }
        };
        match policy.goes(frame.body, &mut last) {
            Decided::Goes(rule) => {
                waiting.put(reports)?;
                untold.add_one(watch, rule, unsent.frames, end);
                unsent.frames += 1;
                end += frame.octets.len();
            }
            Decided::Stays(known) => {
                let number = unsent.totals_with().next_number();
                let why = report_on(alloc, policy, number, &frame, known, &mut line);
                untold.tell(watch, unsent.frames, end);
                put_going(out, &octets[unsent.start..end], unsent.totals)?;
                watch.stays(why);
                waiting.add(reports, line_of(number, why, line.as_slice(), &mut short))?;
                end += frame.octets.len();
                unsent = Unsent::none(unsent.totals_with().after_staying(), end);
                untold = Untold::none(end);
            }
        }
    }
}
