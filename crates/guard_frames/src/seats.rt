//! Links with their sinks, by their numbers.

ghost use Rattle.std.specs.Prelude.{◌≡◌, ◌≤◌, [], length, map, replicate, vec_capacity, Ok, Err, IfOk};
ghost use Rattle.guard_frames.specs.GatewayView.{links_of, ends_of};
ghost use Rattle.guard_frames.specs.LinkView.{link_view, new_link};
ghost use Rattle.guard_frames.specs.Reasons.{Noted};
ghost use Rattle.guard_frames.specs.inside.Seats.{IsFed, IsFedAt, IsEndedAt};

use crate::decision::Decide;
use crate::devices::Sink;
use crate::gateway::StepFault;
use crate::link::{Link, LinkFault};
use crate::why::Watch;
use guard_model::OutOfMemory;
use std::alloc::Global;

/// The two sinks of a link: what its frames that go are written to, and what is reported of the others.
#[derive(Drop)]
pub struct Ends<S> {
    pub out: S,
    pub reports: S,
}

/// A link and its sinks.
#[derive(Drop)]
pub(crate) struct Seat<S> {
    pub(crate) link: Link,
    pub(crate) ends: Ends<S>,
}

/// Feeds a piece to a link, puts what comes of it to the link's sinks, and tells the watch of its frames.
fn feed_seat<D: Decide, S: Sink, W: Watch>(
    alloc: Global,
    policy: &D,
    seat: &mut Seat<S>,
    octets: &[u8],
    watch: &mut W,
) -> Result<(), LinkFault>
    ensures { IsFed (D.decides policy.now) S.taken S.has_failed
        (λ told. Noted (D.gives policy.now) (D.lets policy.now) W.notes watch.old told watch.new)
        seat.old octets.now result seat.new }
{
    seat.link.feed(
        alloc,
        policy,
        octets,
        &mut seat.ends.out,
        &mut seat.ends.reports,
        watch,
    )
}

/// Feeds a piece to the link of this number; NoSuchLink where there is none.
pub(crate) fn feed_at<D: Decide, S: Sink, W: Watch>(
    alloc: Global,
    policy: &D,
    seats: &mut Vec<Seat<S>>,
    at: usize,
    octets: &[u8],
    watch: &mut W,
) -> Result<(), StepFault>
    ensures { IsFedAt (D.decides policy.now) S.taken S.has_failed
        (λ told. Noted (D.gives policy.now) (D.lets policy.now) W.notes watch.old told watch.new)
        seats.old.items at octets.now result seats.new.items }
{
    if at >= seats.len() {
        return Err(StepFault::NoSuchLink);
    }
    let seat = &mut seats[at];
    match feed_seat(alloc, policy, seat, octets, watch) {
        Ok(()) => Ok(()),
        Err(fault) => Err(StepFault::Link(fault)),
    }
}

/// Ends the stream of the link of this number; NoSuchLink where there is none.
pub(crate) fn end_at<S: Sink>(seats: &mut Vec<Seat<S>>, at: usize) -> Result<(), StepFault>
    ensures { IsEndedAt seats.old.items at result seats.new.items }
{
    if at >= seats.len() {
        return Err(StepFault::NoSuchLink);
    }
    let seat = &mut seats[at];
    match seat.link.end() {
        Ok(()) => Ok(()),
        Err(fault) => Err(StepFault::Link(fault)),
    }
}

/// So many links, each of them open and holding nothing. OutOfMemory is the only error.
pub(crate) fn new_links(alloc: Global, count: usize) -> Result<Vec<Link>, OutOfMemory>
    ensures { IfOk result (λ links. map link_view links.items ≡ replicate count new_link) }
{
    let mut links = Vec::with_capacity(alloc, count)?;
    for _ in 0..count {
        links.push(Link::new(alloc)?)?;
    }
    Ok(links)
}

/// Puts a new link to each pair of sinks. No memory is taken. Conditions: there are as many links as pairs, and room
/// for as many seats.
pub(crate) fn seated<S: Drop>(
    mut links: Vec<Link>,
    ends: Vec<Ends<S>>,
    mut seats: Vec<Seat<S>>,
) -> Vec<Seat<S>>
    requires links { map link_view links.items ≡ replicate (length ends.items) new_link }
    requires room { length ends.items ≤ vec_capacity seats }
    requires empty { seats.items ≡ [] }
    ensures links { links_of result.items ≡ replicate (length ends.items) new_link }
    ensures ends { ends_of result.items ≡ ends.items }
{
    for ends in ends {
        let Some(link) = links.pop() else {
            unreachable!()
        };
        let Ok(()) = seats.push(Seat { link, ends }) else {
            unreachable!()
        };
    }
    seats
}
