//! Puts frames out that lie side by side.

ghost use Rattle.std.specs.Prelude.{◌≡◌, true, List, ℕ, OnOk, OnErr, IfErr};
ghost use Rattle.std.specs.Io.KnownBytes.{Appends};
ghost use Rattle.guard_frames.specs.Prefix.{IsProperPrefix};
ghost use Rattle.guard_frames.specs.inside.Putting.{IsCountOf};
ghost use Rattle.guard_frames.specs.declared.sending.Broken.TheVariants.{Out, Reports};

use crate::cut::{Cut, first_cut};
use crate::devices::{Failed, Sink, put_or_count};
use crate::totals::Totals;

/// Which sink failed.
#[derive(Clone, Copy, Debug)]
pub enum Broken {
    /// That of the frames, after as many frames as these totals say, and perhaps a part of one more.
    Out(Totals),
    /// That of the reports.
    Reports,
}

impl From<Totals> for Broken {
    ghost from_gives = { λ t b. b ≡ Out t };

    fn from(totals: Totals) -> Broken {
        Broken::Out(totals)
    }
}

impl From<Failed> for Broken {
    ghost from_gives = { λ f b. b ≡ Reports };

    fn from(_: Failed) -> Broken {
        Broken::Reports
    }
}

/// Puts frames that all go, in one call. Where the sink has failed the error is the totals after those that it took
/// whole, counted on from `totals`.
pub(crate) fn put_going<O: Sink>(out: &mut O, frames: &[u8], totals: Totals) -> Result<(), Totals>
    ensures all { OnOk result (Appends (O.taken out.old) (O.taken out.new) frames.now) }
    ensures part { IfErr result (λ t. (part : List ℕ) × IsProperPrefix part frames.now
        × Appends (O.taken out.old) (O.taken out.new) part × IsCountOf totals part t) }
    ensures failed { OnErr result (O.has_failed out.new ≡ true) }
{
    match put_or_count(out, frames) {
        Ok(()) => Ok(()),
        Err(taken) => Err(counted_in(&frames[..taken], totals)),
    }
}

/// The totals after the whole frames at the front of these octets, which all went.
fn counted_in(octets: &[u8], totals: Totals) -> Totals
    ensures { IsCountOf totals octets.now result }
{
    let mut counted = totals;
    let mut end = 0;
    loop {
        match first_cut(&octets[end..]) {
            Cut::Frame(frame) => {
                end += frame.octets.len();
                counted = counted.after_going();
            }
            Cut::Rest(_) => return counted,
        }
    }
}
