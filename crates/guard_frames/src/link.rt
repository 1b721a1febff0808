//! A link: what comes of a stream of octets that arrives in pieces.

ghost use Rattle.guard_frames.specs.Frames.{IsUnfinished};
ghost use Rattle.std.proofs.Props.{props};
ghost use Rattle.std.specs.Prelude.{◌≡◌, ◌≤◌, [], true, false, vec_capacity};

use crate::filling::LONGEST_FRAME;
use crate::totals::Totals;
use guard_model::OutOfMemory;
use std::alloc::Global;
use thiserror::Error;

/// Why a link takes no more.
#[derive(Clone, Copy, Debug, PartialEq, Eq, Error)]
#[error("{}", self.text())]
pub enum LinkFault {
    /// F1: the stream states a length above 1,048,576.
    FrameTooLong,
    /// F2: one of the two sinks has failed.
    WriteFailed,
    /// F3: the link was closed before.
    Closed,
    /// F4: the stream ended within a frame.
    TornFrame,
}

impl LinkFault {
    ghost use Rattle.std.specs.Prelude.{◌≡◌};
    ghost use Rattle.guard_frames.specs.FaultTexts.{fault_text};

    /// The fault's number and its name, as it prints: `F1 FrameTooLong`.
    pub fn text(&self) -> &'static str
        ensures { result.now ≡ fault_text self.now }
    {
        match self {
            LinkFault::FrameTooLong => "F1 FrameTooLong",
            LinkFault::WriteFailed => "F2 WriteFailed",
            LinkFault::Closed => "F3 Closed",
            LinkFault::TornFrame => "F4 TornFrame",
        }
    }
}

/// What closes an open link.
#[derive(Clone, Copy, Debug, PartialEq, Eq)]
pub(crate) enum Closing {
    /// A length that no frame may have: this one.
    FrameTooLong(usize),
    /// The sink of the frames has failed.
    OutFailed,
    /// The sink of the reports has failed.
    ReportsFailed,
    /// The end, after so many octets of a frame.
    TornFrame(usize),
}

impl Closing {
    ghost use Rattle.std.specs.Prelude.{◌≡◌};
    ghost use Rattle.guard_frames.specs.inside.Closing.{left_by};

    /// What it leaves of the frame behind the last whole one.
    pub(crate) fn left(self) -> usize
        ensures { result ≡ left_by self }
    {
        match self {
            Closing::FrameTooLong(size) => size,
            Closing::OutFailed | Closing::ReportsFailed => 0,
            Closing::TornFrame(count) => count,
        }
    }
}

impl From<Closing> for LinkFault {
    ghost use Rattle.guard_frames.specs.inside.Closing.{link_fault};

    ghost from_gives = { λ c f. f ≡ link_fault c };

    fn from(closing: Closing) -> LinkFault {
        match closing {
            Closing::FrameTooLong(_) => LinkFault::FrameTooLong,
            Closing::OutFailed | Closing::ReportsFailed => LinkFault::WriteFailed,
            Closing::TornFrame(_) => LinkFault::TornFrame,
        }
    }
}

/// A link, which cuts one stream into frames. A link holds the octets of the frame that has begun and isn't whole yet,
/// and nothing once it is closed; room for the longest frame is reserved once. Of the frame at which a fault closed it
/// it keeps one number.
#[derive(Drop)]
pub struct Link {
    pub(crate) held: Vec<u8>,
    pub(crate) totals: Totals,
    pub(crate) closed: bool,
    /// What a fault left of the frame behind the last whole one.
    pub(crate) left: usize,
    pub(crate) ghost room: { 1048580 ≤ vec_capacity held },
    pub(crate) ghost unfinished: { IsUnfinished held.items },
    pub(crate) ghost shut: { closed ≡ true → held.items ≡ [] } by { Prim.hlevel props },
    pub(crate) ghost no_fault: { closed ≡ false → left ≡ 0 } by { Prim.hlevel props },
}

impl Link {
    ghost use Rattle.std.specs.Prelude.{◌≡◌, ◌<◌, [], true, false, length, IfOk, IfErr, OnOk, Ok, Err};
    ghost use Rattle.guard_frames.specs.Frames.{IsUnfinished};
    ghost use Rattle.guard_frames.specs.LinkView.{link_view, new_link, IsShut};
    ghost use Rattle.guard_frames.specs.declared.link.LinkFault.TheVariants.{Closed, TornFrame};
    ghost use Rattle.guard_frames.specs.declared.link.Closing.TheVariants as closing;

    /// An open link that holds nothing; its frames are numbered from 1. Room for 1,048,580 octets is reserved.
    /// OutOfMemory is the only error.
    pub fn new(alloc: Global) -> Result<Link, OutOfMemory>
        ensures { IfOk result (λ link. link_view link ≡ new_link) }
    {
        let held = Vec::with_capacity(alloc, LONGEST_FRAME)?;
        Ok(Link {
            held,
            totals: Totals::none(),
            closed: false,
            left: 0,
        })
    }

    /// How many octets the link holds of a frame that has begun and isn't whole yet: 0 between two frames and once the
    /// link is closed, 1,048,579 at most.
    pub fn pending(&self) -> usize
        ensures held { result ≡ length (link_view self.now).held }
        ensures unfinished { IsUnfinished (link_view self.now).held }
    {
        self.held.len()
    }

    /// How many frames there were, also once the link is closed: a frame that is too long or torn has the next number,
    /// and so has the one at which the sink of the frames failed. Where that of the reports has failed, some frames of
    /// the last piece may not be counted.
    pub fn totals(&self) -> Totals
        ensures { result ≡ (link_view self.now).totals }
    {
        self.totals
    }

    /// Whether the link takes no more: its stream has ended, was at fault, or one of its sinks has failed.
    pub fn is_closed(&self) -> bool
        ensures { result ≡ (link_view self.now).closed }
    {
        self.closed
    }

    /// What the fault that closed the link left of the frame behind the last whole one: where that is too long, the
    /// length that it states, above 1,048,576; where it is torn, how many octets of it there were, 1 to 1,048,579. It
    /// is 0 where the link is open, has ended between two frames, or was closed as a sink had failed.
    pub fn left(&self) -> usize
        ensures { result ≡ (link_view self.now).left }
    {
        self.left
    }

    /// The end of the link's stream. The link is closed then and holds nothing, whatever the answer.
    ///
    /// # Errors
    /// TornFrame where octets of an unfinished frame were held, Closed where the link was closed before.
    pub fn end(&mut self) -> Result<(), LinkFault>
        ensures torn { (link_view self.old).closed ≡ false → 0 < length (link_view self.old).held →
            result ≡ Err TornFrame }
        ensures whole { (link_view self.old).closed ≡ false → (link_view self.old).held ≡ [] → result ≡ Ok tt }
        ensures shut { (link_view self.old).closed ≡ true → (result ≡ Err Closed) × (self.new ≡ self.old) }
        ensures closes { IsShut (link_view self.new) }
        ensures totals { (link_view self.new).totals ≡ (link_view self.old).totals }
        ensures left { (link_view self.old).closed ≡ false →
            (link_view self.new).left ≡ length (link_view self.old).held }
    {
        if self.closed {
            return Err(LinkFault::Closed);
        }
        Ok(self.finish()?)
    }

    /// The end of the stream of a link: TornFrame where octets of an unfinished frame were held. Condition: the link is
    /// open.
    pub(crate) fn finish(&mut self) -> Result<(), Closing>
        requires { self.old.closed ≡ false }
        ensures torn { IfErr result (λ c. (c ≡ closing.TornFrame (length self.old.held.items))
            × (0 < length self.old.held.items)) }
        ensures whole { OnOk result (self.old.held.items ≡ []) }
        ensures closes { IsShut (link_view self.new) }
        ensures totals { self.new.totals ≡ self.old.totals }
        ensures left { self.new.left ≡ length self.old.held.items }
    {
        let count = self.held.len();
        close(&mut self.held, &mut self.closed);
        self.left = count;
        if count > 0 {
            Err(Closing::TornFrame(count))
        } else {
            Ok(())
        }
    }
}

/// Makes a link one that takes no more: what it held is dropped, and it is closed.
pub(crate) fn close(held: &mut Vec<u8>, closed: &mut bool)
    ensures empty { held.new.items ≡ [] }
    ensures room { vec_capacity held.new ≡ vec_capacity held.old }
    ensures closed { closed.new ≡ true }
{
    held.clear();
    *closed = true;
}
