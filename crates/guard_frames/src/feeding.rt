//! Feeds pieces to a link.

ghost use Rattle.std.specs.Prelude.{◌≡◌, ◌≤◌, ◌++◌, [], vec_capacity, IfErr};
ghost use Rattle.guard_frames.specs.Frames.{IsUnfinished};
ghost use Rattle.guard_frames.specs.Added.{Added, BothAppend};
ghost use Rattle.guard_frames.specs.Calls.{AsksLines};
ghost use Rattle.guard_frames.specs.Reasons.{Noted};
ghost use Rattle.guard_frames.specs.inside.Closing.{Puts, HasFailed, NotedBy};
ghost use Rattle.guard_frames.specs.inside.Putting.{ClosedBy};

use crate::cut::{Rest, body_length};
use crate::decision::Decide;
use crate::devices::Sink;
use crate::filling::complete;
use crate::link::{Closing, Link, LinkFault, close};
use crate::putting::put_frames;
use crate::sending::Broken;
use crate::totals::Totals;
use crate::why::Watch;
use std::alloc::Global;

impl Link {
    ghost use Rattle.std.specs.Prelude.{◌≡◌, ◌⊎◌, true, false, ◌++◌, Err, IfErr, IsErrOf, OnOk, OnErr};
    ghost use Rattle.guard_frames.specs.LinkView.{link_view, IsShut};
    ghost use Rattle.guard_frames.specs.Added.{Added, BothAppend};
    ghost use Rattle.guard_frames.specs.Calls.{AsksLines};
    ghost use Rattle.guard_frames.specs.Feeding.{Takes};
    ghost use Rattle.guard_frames.specs.Reasons.{Noted};
    ghost use Rattle.guard_frames.specs.inside.Closing.{Puts, left_by, HasFailed, NotedBy};
    ghost use Rattle.guard_frames.specs.declared.link.LinkFault.TheVariants.{Closed, WriteFailed};

    /// Feeds one more piece of the link's stream: each frame that is whole then and goes is put to `out`, and the
    /// report line of each other one to `reports`; the watch is told of each. The octets of a frame that isn't
    /// whole yet are held. Memory is taken only for the text of reports.
    ///
    /// # Errors
    /// FrameTooLong where a length above 1,048,576 comes next, WriteFailed where one of the sinks has failed: the link
    /// is closed then. Closed where it was closed before: nothing changes then.
    pub fn feed<D: Decide, O: Sink, R: Sink, W: Watch>(
        &mut self,
        alloc: Global,
        policy: &D,
        piece: &[u8],
        out: &mut O,
        reports: &mut R,
        watch: &mut W,
    ) -> Result<(), LinkFault>
        ensures open { (link_view self.old).closed ≡ false → (added : Added)
            × Takes (D.decides policy.now) (link_view self.old).totals ((link_view self.old).held ++ piece.now)
            (link_view self.new) result added
            × BothAppend (O.taken out.old, O.taken out.new) (R.taken reports.old, R.taken reports.new) added
            × ((result ≡ Err WriteFailed → ⊥) →
            Noted (D.gives policy.now) (D.lets policy.now) W.notes watch.old added watch.new) }
        ensures shut { (link_view self.old).closed ≡ true → (result ≡ Err Closed) × (self.new ≡ self.old)
            × (out.new ≡ out.old) × (reports.new ≡ reports.old) × (watch.new ≡ watch.old) }
        ensures failed { IsErrOf result WriteFailed →
            (O.has_failed out.new ≡ true) ⊎ (R.has_failed reports.new ≡ true) }
        ensures lines { AsksLines (R.asked reports.old) (R.asked reports.new) }
    {
        if self.closed {
            return Err(LinkFault::Closed);
        }
        Ok(self.take(alloc, policy, piece, out, reports, watch)?)
    }

    /// Takes the next piece of the stream of a link, and tells the watch of its frames. What goes wrong closes it.
    /// Condition: the link is open.
    pub(crate) fn take<D: Decide, O: Sink, R: Sink, W: Watch>(
        &mut self,
        alloc: Global,
        policy: &D,
        piece: &[u8],
        out: &mut O,
        reports: &mut R,
        watch: &mut W,
    ) -> Result<(), Closing>
        requires open { self.old.closed ≡ false }
        ensures puts { (added : Added)
            × Puts (D.decides policy.now) self.old.totals (self.old.held.items ++ piece.now) self.new.held.items
            self.new.totals result added
            × BothAppend (O.taken out.old, O.taken out.new) (R.taken reports.old, R.taken reports.new) added
            × NotedBy result
            (λ told. Noted (D.gives policy.now) (D.lets policy.now) W.notes watch.old told watch.new) added }
        ensures open { OnOk result (self.new.closed ≡ false) }
        ensures closes { OnErr result (IsShut (link_view self.new)) }
        ensures left { IfErr result (λ c. self.new.left ≡ left_by c) }
        ensures failed { IfErr result (λ c. HasFailed c (O.has_failed out.new) (R.has_failed reports.new)) }
        ensures lines { AsksLines (R.asked reports.old) (R.asked reports.new) }
    {
        let (held, totals) = (&mut self.held, &mut self.totals);
        match put_piece(alloc, held, totals, policy, piece, out, reports, watch) {
            Ok(()) => Ok(()),
            Err(closing) => {
                close(&mut self.held, &mut self.closed);
                self.left = closing.left();
                Err(closing)
            }
        }
    }
}

/// Puts the frames that end in the piece, and holds what is left of it.
fn put_piece<D: Decide, O: Sink, R: Sink, W: Watch>(
    alloc: Global,
    held: &mut Vec<u8>,
    totals: &mut Totals,
    policy: &D,
    piece: &[u8],
    out: &mut O,
    reports: &mut R,
    watch: &mut W,
) -> Result<(), Closing>
    requires room { 1048580 ≤ vec_capacity held.old }
    requires unfinished { IsUnfinished held.old.items }
    ensures room { 1048580 ≤ vec_capacity held.new }
    ensures puts { (added : Added)
        × Puts (D.decides policy.now) totals.old (held.old.items ++ piece.now) held.new.items totals.new result added
        × BothAppend (O.taken out.old, O.taken out.new) (R.taken reports.old, R.taken reports.new) added
        × NotedBy result
        (λ told. Noted (D.gives policy.now) (D.lets policy.now) W.notes watch.old told watch.new) added }
    ensures failed { IfErr result (λ c. HasFailed c (O.has_failed out.new) (R.has_failed reports.new)) }
    ensures lines { AsksLines (R.asked reports.old) (R.asked reports.new) }
{
    if held.is_empty() {
        return put_rest(alloc, held, totals, policy, piece, out, reports, watch);
    }
    let used = complete(held, piece);
    let whole = match put_frames(alloc, policy, held.as_slice(), *totals, out, reports, watch) {
        Ok(whole) => whole,
        Err(broken) => return Err(broken_at(broken, totals)),
    };
    *totals = whole.totals;
    if let Rest::TooLong = whole.rest {
        return Err(Closing::FrameTooLong(body_length(&held[whole.end..])));
    }
    if whole.end == 0 {
        return Ok(());
    }
    held.clear();
    put_rest(
        alloc,
        held,
        totals,
        policy,
        &piece[used..],
        out,
        reports,
        watch,
    )
}

/// Puts the frames that end in the piece where nothing is held, and holds what is left of it.
fn put_rest<D: Decide, O: Sink, R: Sink, W: Watch>(
    alloc: Global,
    held: &mut Vec<u8>,
    totals: &mut Totals,
    policy: &D,
    piece: &[u8],
    out: &mut O,
    reports: &mut R,
    watch: &mut W,
) -> Result<(), Closing>
    requires room { 1048580 ≤ vec_capacity held.old }
    requires nothing { held.old.items ≡ [] }
    ensures room { 1048580 ≤ vec_capacity held.new }
    ensures puts { (added : Added)
        × Puts (D.decides policy.now) totals.old piece.now held.new.items totals.new result added
        × BothAppend (O.taken out.old, O.taken out.new) (R.taken reports.old, R.taken reports.new) added
        × NotedBy result
        (λ told. Noted (D.gives policy.now) (D.lets policy.now) W.notes watch.old told watch.new) added }
    ensures failed { IfErr result (λ c. HasFailed c (O.has_failed out.new) (R.has_failed reports.new)) }
    ensures lines { AsksLines (R.asked reports.old) (R.asked reports.new) }
{
    let whole = match put_frames(alloc, policy, piece, *totals, out, reports, watch) {
        Ok(whole) => whole,
        Err(broken) => return Err(broken_at(broken, totals)),
    };
    *totals = whole.totals;
    match whole.rest {
        Rest::TooLong => Err(Closing::FrameTooLong(body_length(&piece[whole.end..]))),
        Rest::Unfinished => {
            hold(held, &piece[whole.end..]);
            Ok(())
        }
    }
}

/// What closes a link where a sink has failed; the totals are told where they are known.
fn broken_at(broken: Broken, totals: &mut Totals) -> Closing
    ensures { ClosedBy broken result totals.new }
{
    match broken {
        Broken::Out(before) => {
            *totals = before;
            Closing::OutFailed
        }
        Broken::Reports => Closing::ReportsFailed,
    }
}

/// Holds the octets of an unfinished frame.
fn hold(held: &mut Vec<u8>, rest: &[u8])
    requires room { 1048580 ≤ vec_capacity held.old }
    requires nothing { held.old.items ≡ [] }
    requires unfinished { IsUnfinished rest.now }
    ensures held { held.new.items ≡ rest.now }
    ensures room { 1048580 ≤ vec_capacity held.new }
{
    match held.extend_from_slice(rest) {
        Ok(()) => {}
        Err(_) => unreachable!(),
    }
}
