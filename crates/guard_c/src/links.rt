//! What C calls with a handle that holds a link, and what that does to the link.
ghost use Rattle.guard_c.specs.Holding.{held_link_view, link_in, new_held_link, policy_of};
ghost use Rattle.guard_c.specs.Links.{EndsLink, FeedsLink, HasEnded, HasFed, HasOpened, HasReported, Reports, status_of};
ghost use Rattle.guard_c.specs.Statuses.{Answers};
ghost use Rattle.guard_c.specs.Telling.{IsPut};
ghost use Rattle.guard_c.specs.inside.Taken.{kept_of, policy_at};
ghost use Rattle.guard_frames.specs.KeptView.{kept_octets};
ghost use Rattle.guard_policy.specs.PolicyView.{policy_view};
ghost use Rattle.std.specs.Prelude.{◌≡◌, IfOk, List, ℕ, None, Some, length};

use crate::handle::Handle;
use crate::held::{Held, HeldLink, policy_in};
use crate::status::Status;
use crate::telling::{put, tell_text};
use guard_frames::{Kept, Link, LinkFault, Unwatched};
use guard_model::OutOfMemory;
use guard_policy::Policy;
use std::alloc::Global;

/// Has a handle hold a new link, in place of what it held. The link's frames are numbered from 1. The answer is the
/// number of a `Status`: Done, or OutOfMemory, where the handle keeps what it held.
#[unsafe(no_mangle)]
pub extern "C" fn derguard_link_open(alloc: Global, link: &mut Handle) -> u32
    ensures { Answers result (HasOpened link.old.kept link.new.kept) }
{
    match open(alloc) {
        Ok(held) => {
            link.fill(held);
            Status::Done.number()
        }
        Err(_) => Status::OutOfMemory.number(),
    }
}

/// Feeds a link one more piece of its stream. The frames that go come into the buffer, `written` octets, and the report
/// lines of the others stay with the link. The answer is the number of a `Status`: Done; TooSmall, where the buffer is
/// shorter than what the link holds and the piece together, NoPolicy, NoLink, and Closed, where the link was closed
/// before: in these nothing is done; FrameTooLong and WriteFailed, where the link is closed then.
#[unsafe(no_mangle)]
pub extern "C" fn derguard_link_feed(
    alloc: Global,
    policy: &mut Handle,
    link: &mut Handle,
    piece: &[u8],
    out: &mut [u8],
    written: &mut usize,
) -> u32
    ensures answer { Answers result (λ status. (sent : List ℕ)
        × HasFed (policy_of policy.old.kept) link.old.kept piece.now link.new.kept (length out.old) sent status
        × IsPut sent out.old out.new written.new) }
    ensures same { policy.new.kept ≡ policy.old.kept }
{
    let (taken, mut fed) = (policy.take(alloc), link.take(alloc));
    let (status, sent) = feed(alloc, policy_in(&taken), &mut fed, piece, out.len());
    policy.give_back(taken);
    link.give_back(fed);
    put(sent.octets(), out, written);
    status.number()
}

/// Fetches the report lines that weren't fetched: as much of them as fits comes into the buffer, and `needed` is how
/// many octets they have. They are dropped where all of them fit. The answer is the number of a `Status`: Done,
/// TooSmall or NoLink.
#[unsafe(no_mangle)]
pub extern "C" fn derguard_link_reports(
    alloc: Global,
    link: &mut Handle,
    out: &mut [u8],
    needed: &mut usize,
) -> u32
    ensures { Answers result (HasReported link.old.kept link.new.kept out.old out.new needed.new) }
{
    let mut taken = link.take(alloc);
    let status = report(&mut taken, out, needed);
    link.give_back(taken);
    status.number()
}

/// Says that the stream of a link has ended. The link is closed then, and its lines stay. The answer is the number of a
/// `Status`: Done, NoLink, TornFrame where octets of an unfinished frame were held, Closed where it was closed before.
#[unsafe(no_mangle)]
pub extern "C" fn derguard_link_end(alloc: Global, link: &mut Handle) -> u32
    ensures { Answers result (HasEnded link.old.kept link.new.kept) }
{
    let mut taken = link.take(alloc);
    let status = end(&mut taken);
    link.give_back(taken);
    status.number()
}

/// Empties a handle, and frees the link that it held.
#[unsafe(no_mangle)]
pub extern "C" fn derguard_link_free(alloc: Global, link: &mut Handle)
    ensures { link.new.kept ≡ None }
{
    *link = Handle::empty(alloc);
}

/// An open link before its first frame.
fn open(alloc: Global) -> Result<Box<Held>, OutOfMemory>
    ensures { IfOk result (λ b. link_in b.value ≡ Some new_held_link) }
{
    let link = Link::new(alloc)?;
    let reports = Kept::new(alloc);
    Ok(Box::new(alloc, Held::Link(HeldLink { link, reports }))?)
}

/// How a call ends whose link answered so.
fn status_of(answer: Result<(), LinkFault>) -> Status
    ensures { result ≡ status_of answer }
{
    match answer {
        Ok(()) => Status::Done,
        Err(LinkFault::FrameTooLong) => Status::FrameTooLong,
        Err(LinkFault::WriteFailed) => Status::WriteFailed,
        Err(LinkFault::Closed) => Status::Closed,
        Err(LinkFault::TornFrame) => Status::TornFrame,
    }
}

/// Feeds a piece to the link, where a handle held one, under the policy, where there is one.
fn feed(
    alloc: Global,
    policy: Option<&Policy>,
    taken: &mut Option<Box<Held>>,
    piece: &[u8],
    room: usize,
) -> (Status, Kept)
    ensures { HasFed (policy_at policy.entry) (kept_of taken.old) piece.now (kept_of taken.new) room
        (kept_octets result.1) result.0 }
{
    let Some(policy) = policy else {
        return (Status::NoPolicy, Kept::new(alloc));
    };
    if let Some(held) = taken {
        if let Held::Link(link) = held.as_mut() {
            return feed_link(alloc, policy, link, piece, room);
        }
    }
    (Status::NoLink, Kept::new(alloc))
}

/// Feeds a piece to a link. Nothing is done, and the answer is TooSmall, where the frames that go might not fit: they
/// are no longer than what is held and the piece.
fn feed_link(
    alloc: Global,
    policy: &Policy,
    link: &mut HeldLink,
    piece: &[u8],
    room: usize,
) -> (Status, Kept)
    ensures { FeedsLink (policy_view policy.now) (held_link_view link.old) piece.now (held_link_view link.new) room
        (kept_octets result.1) result.0 }
{
    let mut sent = Kept::new(alloc);
    if room < piece.len() || room - piece.len() < link.link.pending() {
        return (Status::TooSmall, sent);
    }
    let reports = &mut link.reports;
    let answer = link
        .link
        .feed(alloc, policy, piece, &mut sent, reports, &mut Unwatched);
    (status_of(answer), sent)
}

/// Tells the lines that weren't fetched, and drops them where all of them fit. NoLink where a handle held none.
fn report(taken: &mut Option<Box<Held>>, out: &mut [u8], needed: &mut usize) -> Status
    ensures { HasReported (kept_of taken.old) (kept_of taken.new) out.old out.new needed.new result }
{
    if let Some(held) = taken {
        if let Held::Link(link) = held.as_mut() {
            return report_link(link, out, needed);
        }
    }
    put(b"", out, needed);
    Status::NoLink
}

fn report_link(link: &mut HeldLink, out: &mut [u8], needed: &mut usize) -> Status
    ensures { Reports (held_link_view link.old) (held_link_view link.new) out.old out.new needed.new result }
{
    let status = tell_text(link.reports.octets(), out, needed);
    if let Status::Done = status {
        link.reports.empty();
    }
    status
}

/// Ends the stream of the link. NoLink where a handle held none.
fn end(taken: &mut Option<Box<Held>>) -> Status
    ensures { HasEnded (kept_of taken.old) (kept_of taken.new) result }
{
    if let Some(held) = taken {
        if let Held::Link(link) = held.as_mut() {
            return end_link(link);
        }
    }
    Status::NoLink
}

fn end_link(link: &mut HeldLink) -> Status
    ensures { EndsLink (held_link_view link.old) (held_link_view link.new) result }
{
    status_of(link.link.end())
}
