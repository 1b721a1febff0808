//! A gateway: many links under one policy, which can be replaced while they run.

ghost use Rattle.std.specs.Prelude.{◌≡◌, ◌≤◌, length, replicate, slice_get, IfOk, IfErr};
ghost use Rattle.std.specs.Borrow.{sem};
ghost use Rattle.std.specs.Option.{option_copied_mut, option_map};
ghost use Rattle.guard_frames.specs.Lending.{lends_ends};
ghost use Rattle.guard_frames.specs.GatewayView.{gateway_view, gateway_ends, IsStepOf};
ghost use Rattle.guard_frames.specs.OfPolicy.{gives_of, lets_of};
ghost use Rattle.guard_frames.specs.Reasons.{Noted};
ghost use Rattle.guard_frames.specs.LinkView.{link_view, new_link};
ghost use Rattle.guard_policy.specs.PolicyView.{policy_view};

use crate::devices::Sink;
use crate::link::{Link, LinkFault};
use crate::seats::{Ends, Seat, end_at, feed_at, new_links, seated};
use crate::why::Watch;
use guard_policy::Policy;
use std::alloc::Global;
use std::fmt;
use thiserror::Error;

/// Why an event was refused, or ended a link.
#[derive(Clone, Copy, Debug, PartialEq, Eq, Error)]
pub enum StepFault {
    /// There is no link of the event's number. Nothing changes.
    #[error("F6 NoSuchLink")]
    NoSuchLink,
    /// The fault of the link, F1 to F4.
    #[error("{0}")]
    Link(LinkFault),
}

/// What happens to a gateway.
#[derive(Drop)]
pub enum Event<'a> {
    /// Octets of the link of this number.
    Piece(u16, &'a [u8]),
    /// The end of the stream of the link of this number.
    End(u16),
    /// A new policy, by which each frame is decided whose last octet comes later.
    Reload(Policy),
}

/// Links, numbered from 0, each with its two sinks, under the policy in force.
#[derive(Drop)]
pub struct Gateway<S> {
    policy: Policy,
    seats: Vec<Seat<S>>,
}

/// What was given for a gateway, where there was no memory for it.
#[derive(Drop, Error)]
#[error("OutOfMemory")]
pub struct NoRoom<S> {
    pub policy: Policy,
    pub ends: Vec<Ends<S>>,
}

impl<S> fmt::Debug for NoRoom<S> {
    fn fmt<W: fmt::Write>(&self, f: &mut fmt::Formatter<W>) -> fmt::Result {
        f.write_str("NoRoom")
    }
}

impl<S: Drop> Gateway<S> {
    /// A gateway of new links, one for each pair of sinks, in their order. Condition: there are at most 65,535 pairs,
    /// so that each link has a number.
    ///
    /// # Errors
    /// Where memory runs out, `NoRoom` with both arguments, which are as they were.
    pub fn new(alloc: Global, policy: Policy, ends: Vec<Ends<S>>) -> Result<Gateway<S>, NoRoom<S>>
        requires few { length ends.items ≤ 65535 }
        ensures links { IfOk result (λ g. gateway_view g ≡ record {
          policy = policy_view policy;
          links = replicate (length ends.items) new_link;
        }) }
        ensures ends { IfOk result (λ g. gateway_ends g ≡ ends.items) }
        ensures back { IfErr result (λ r. (r.policy ≡ policy) × (r.ends ≡ ends)) }
    {
        let Ok(links) = new_links(alloc, ends.len()) else {
            return Err(NoRoom { policy, ends });
        };
        let Ok(seats) = Vec::with_capacity(alloc, ends.len()) else {
            return Err(NoRoom { policy, ends });
        };
        let seats = seated(links, ends, seats);
        Ok(Gateway { policy, seats })
    }
}

impl<S: Sink> Gateway<S> {
    /// One event: a piece of a link's stream, its end, or a new policy. The link is fed or ended by the policy in
    /// force, as `Link::feed` and `Link::end` say, and the watch is told of each frame.
    ///
    /// # Errors
    /// NoSuchLink (F6) where there is no link of the event's number; nothing changes then. Link with the link's own
    /// fault, F1 to F4.
    pub fn step<W: Watch>(
        &mut self,
        alloc: Global,
        event: Event<'_>,
        watch: &mut W,
    ) -> Result<(), StepFault>
        ensures { IsStepOf S.taken S.has_failed
            (λ told. Noted (gives_of (gateway_view self.old).policy) (lets_of (gateway_view self.old).policy) W.notes
            watch.old told watch.new)
            self.old event.entry result self.new }
    {
        match event {
            Event::Piece(link, octets) => feed_at(
                alloc,
                &self.policy,
                &mut self.seats,
                link as usize,
                octets,
                watch,
            ),
            Event::End(link) => end_at(&mut self.seats, link as usize),
            Event::Reload(policy) => {
                self.policy = policy;
                Ok(())
            }
        }
    }

    /// The link of this number, from 0, which tells how many frames there were; None where there is no such link.
    pub fn link(&self, link: u16) -> Option<&Link>
        ensures { option_map (λ x. link_view x.now) result ≡ slice_get (gateway_view self.now).links link }
    {
        match self.seats.get(link as usize) {
            Some(seat) => Some(&seat.link),
            None => None,
        }
    }

    /// The sinks of the link of this number, from 0; None where there is no such link.
    pub fn ends_mut(&mut self, link: u16) -> Option<&mut Ends<S>>
        ensures* writes_back { sem 𝓛 (lends_ends S.row self.entry link result) }
        ensures there { option_copied_mut result ≡ slice_get (gateway_ends self.old) link }
    {
        match self.seats.get_mut(link as usize) {
            Some(seat) => Some(&mut seat.ends),
            None => None,
        }
    }
}
