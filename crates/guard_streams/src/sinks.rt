//! A gateway over sinks in memory, which are emptied after each event.
ghost use Rattle.std.specs.Prelude.{◌≡◌, ◌≤◌, Some, Err, List, ℕ, not, nat_eq, true};
ghost use Rattle.std.specs.Prelude.{length, slice_get, OnOk, IfOk, IfErr};
ghost use Rattle.std.specs.List.{All};
ghost use Rattle.std.specs.Io.KnownBytes.{Appends};
ghost use Rattle.guard_frames.specs.declared.seats.Ends.{Ends};
ghost use Rattle.guard_frames.specs.declared.kept.Kept.{Kept};
ghost use Rattle.guard_frames.specs.Added.{nothing};
ghost use Rattle.guard_frames.specs.Gateways.{step_answer};
ghost use Rattle.guard_frames.specs.Gateways.AbstractEvent.{end};
ghost use Rattle.guard_frames.specs.GatewaySteps.{Step};
ghost use Rattle.guard_frames.specs.GatewayView.{gateway_view, gateway_ends};
ghost use Rattle.guard_frames.specs.declared.gateway.StepFault.TheVariants.{NoSuchLink};
ghost use Rattle.guard_frames.specs.declared.link.LinkFault.TheVariants.{WriteFailed};
ghost use Rattle.guard_frames.specs.Totals.{no_frames};
ghost use Rattle.guard_frames.specs.KeptView.{kept_octets};
ghost use Rattle.guard_files.specs.Devices.{device_of};
ghost use Rattle.guard_streams.specs.Passing.{InRecords, marked};
ghost use Rattle.guard_streams.specs.inside.Doing.{AreEmpty, IsReady, IsFed, ArePassed, AreCut};
ghost use Rattle.guard_streams.specs.inside.Following.{AreNoted};
ghost use Rattle.guard_streams.specs.Tallying.{both, with_links};

use crate::following::Following;
use crate::passing::{put_lines, put_pieces};
use guard_files::{LINKS, Stop};
use guard_frames::{Ends, Event, Gateway, Kept, LinkFault, Sink, StepFault, Totals, Unwatched};
use guard_model::OutOfMemory;
use std::alloc::Global;

/// So many pairs of sinks that have taken nothing.
pub fn new_sinks(alloc: Global, count: u16) -> Result<Vec<Ends<Kept>>, OutOfMemory>
    ensures many { IfOk result (λ ends. length ends.items ≡ count) }
    ensures empty { IfOk result (λ ends. All AreEmpty ends.items) }
{
    let mut ends = Vec::with_capacity(alloc, usize::from(count))?;
    for _ in 0..count {
        ends.push(Ends {
            out: Kept::new(alloc),
            reports: Kept::new(alloc),
        })?;
    }
    Ok(ends)
}

/// Feeds a piece to a link, whose sinks are empty, and answers as the link does. Its frames are followed.
pub fn feed_link(
    alloc: Global,
    gateway: &mut Gateway<Kept>,
    link: u16,
    octets: &[u8],
    followed: &mut Following,
) -> Result<(), LinkFault>
    requires link { link ≤ 15 }
    requires ready { IsReady gateway.old }
    ensures { (fed : IsFed link gateway.old octets.now result gateway.new) × ((result ≡ Err WriteFailed → ⊥) →
        AreNoted (gateway_view gateway.old).policy followed.old fed.added followed.new) }
{
    answer_of(gateway.step(alloc, Event::Piece(link, octets), followed))
}

/// Ends a link, and answers as it does.
pub fn end_link(alloc: Global, gateway: &mut Gateway<Kept>, link: u16) -> Result<(), LinkFault>
    requires link { link ≤ 15 }
    requires ready { IsReady gateway.old }
    ensures step { Step (gateway_view gateway.old) (end link) (step_answer result) nothing (gateway_view gateway.new) }
    ensures ready { IsReady gateway.new }
{
    answer_of(gateway.step(alloc, Event::End(link), &mut Unwatched))
}

/// The answer of a link that is there.
fn answer_of(answer: Result<(), StepFault>) -> Result<(), LinkFault>
    requires { answer ≡ Err NoSuchLink → ⊥ }
    ensures { answer ≡ step_answer result }
{
    match answer {
        Ok(()) => Ok(()),
        Err(StepFault::Link(fault)) => Err(fault),
        Err(StepFault::NoSuchLink) => unreachable!(),
    }
}

/// Writes what the sinks of a link took, and empties them; answers whether anything was reported.
pub fn pass_on<O: Sink, E: Sink>(
    gateway: &mut Gateway<Kept>,
    link: u16,
    out: &mut O,
    err: &mut E,
) -> Result<bool, Stop>
    ensures done { IfOk result (λ any. (ends : Ends Kept) → slice_get (gateway_ends gateway.old) link ≡ Some ends →
        ArePassed link ends gateway.old gateway.new (O.taken out.old, O.taken out.new)
        (E.taken err.old, E.taken err.new)
        × (any ≡ not (nat_eq (length (kept_octets ends.reports)) 0))) }
    ensures cut { IfErr result (λ s. (ends : Ends Kept) → slice_get (gateway_ends gateway.old) link ≡ Some ends
        → AreCut s link ends
        (device_of O.taken O.has_failed out.old out.new)
        (device_of E.taken E.has_failed err.old err.new)) }
{
    let Some(ends) = gateway.ends_mut(link) else {
        return Ok(false);
    };
    put_ends(link, ends, out, err)?;
    let is_reported = !ends.reports.octets().is_empty();
    empty(ends);
    Ok(is_reported)
}

/// Writes what the sinks of a link took.
fn put_ends<O: Sink, E: Sink>(
    link: u16,
    ends: &Ends<Kept>,
    out: &mut O,
    err: &mut E,
) -> Result<(), Stop>
    ensures done { OnOk result ((written : List ℕ) × InRecords link (kept_octets ends.now.out) written
        × Appends (O.taken out.old) (O.taken out.new) written
        × Appends (E.taken err.old) (E.taken err.new) (marked link (kept_octets ends.now.reports))) }
    ensures cut { IfErr result (λ s. AreCut s link ends.now (device_of O.taken O.has_failed out.old out.new)
        (device_of E.taken E.has_failed err.old err.new)) }
{
    let Ok(()) = put_pieces(out, link, ends.out.octets()) else {
        return Err(Stop::WriteFailed);
    };
    let Ok(()) = put_lines(err, link, ends.reports.octets()) else {
        return Err(Stop::ErrorFailed);
    };
    Ok(())
}

/// How many frames there were, as the links tell.
pub fn all_totals(gateway: &Gateway<Kept>) -> Totals
    requires { length (gateway_view gateway.now).links ≡ 16 }
    ensures { result ≡ with_links no_frames (gateway_view gateway.now).links }
{
    let mut totals = Totals::none();
    for link in 0..LINKS {
        let Some(one) = gateway.link(link) else {
            unreachable!()
        };
        totals = both(totals, one.totals());
    }
    totals
}

fn both(totals: Totals, more: Totals) -> Totals
    ensures { result ≡ both totals more }
{
    Totals {
        frames: totals.frames.saturating_add(more.frames),
        passed: totals.passed.saturating_add(more.passed),
        denied: totals.denied.saturating_add(more.denied),
    }
}

/// Empties both.
fn empty(ends: &mut Ends<Kept>)
    ensures { AreEmpty ends.new }
{
    ends.out.empty();
    ends.reports.empty();
}
