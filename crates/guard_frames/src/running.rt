//! Runs one stream from its source to its sinks.

ghost use Rattle.std.specs.Prelude.{◌≡◌, ◌<◌, ◌≤◌, ◌⊎◌, true, [], length, take, IfOk, OnErr, IsErrOf};
ghost use Rattle.std.specs.Io.KnownBytes.{Consumes, IsAtEnd};
ghost use Rattle.guard_frames.specs.Added.{Moves};
ghost use Rattle.guard_frames.specs.Calls.{AsksLines};
ghost use Rattle.guard_frames.specs.Totals.{WentUpBy};
ghost use Rattle.guard_frames.specs.LinkView.{link_view, new_link};
ghost use Rattle.guard_frames.specs.Runs.{ReadToLimit};
ghost use Rattle.guard_frames.specs.Leaving.{Leaves, IsWatched, Watched, WatchedInPart};
ghost use Rattle.guard_frames.specs.inside.Closing.{run_fault};
ghost use Rattle.guard_frames.specs.declared.running.RunFault.TheVariants.{WriteFailed, ReadFailed};

use crate::decision::Decide;
use crate::devices::{Failed, Sink, Source};
use crate::link::{Closing, Link, LinkFault};
use crate::why::Watch;
use guard_model::OutOfMemory;
use std::alloc::Global;
use thiserror::Error;

/// Why a run ended before its stream's end.
#[derive(Clone, Copy, Debug, PartialEq, Eq, Error)]
pub enum RunFault {
    /// F1: the stream states a length above 1,048,576.
    #[error("{}", LinkFault::FrameTooLong.text())]
    FrameTooLong,
    /// F2: one of the two sinks has failed.
    #[error("{}", LinkFault::WriteFailed.text())]
    WriteFailed,
    /// F4: the stream ended within a frame.
    #[error("{}", LinkFault::TornFrame.text())]
    TornFrame,
    /// F5: the source has failed, or was asked 2^40 times.
    #[error("{}", RunFault::ReadFailed.text())]
    ReadFailed,
    /// There was no memory to begin. Nothing was read.
    #[error("{}", RunFault::OutOfMemory.text())]
    OutOfMemory,
}

impl RunFault {
    ghost use Rattle.std.specs.Prelude.{◌≡◌};
    ghost use Rattle.guard_frames.specs.FaultTexts.{run_text};

    /// The fault as it prints: its number and its name, or that there is no memory.
    pub fn text(&self) -> &'static str
        ensures { result.now ≡ run_text self.now }
    {
        match self {
            RunFault::FrameTooLong => LinkFault::FrameTooLong.text(),
            RunFault::WriteFailed => LinkFault::WriteFailed.text(),
            RunFault::TornFrame => LinkFault::TornFrame.text(),
            RunFault::ReadFailed => "F5 ReadFailed",
            RunFault::OutOfMemory => "OutOfMemory",
        }
    }
}

impl From<Closing> for RunFault {
    ghost from_gives = { λ c f. f ≡ run_fault c };

    fn from(closing: Closing) -> RunFault {
        match closing {
            Closing::FrameTooLong(_) => RunFault::FrameTooLong,
            Closing::OutFailed | Closing::ReportsFailed => RunFault::WriteFailed,
            Closing::TornFrame(_) => RunFault::TornFrame,
        }
    }
}

/// Room for a piece, 65,536 octets. (A caller that sees 65,536 zeros as a list runs the checker out of memory.)
pub fn new_buffer(alloc: Global) -> Result<Vec<u8>, OutOfMemory>
    ensures { IfOk result (λ buffer. length buffer.items ≡ 65536) }
{
    let size = PIECE;
    Ok(vec![in alloc; 0u8; size]?)
}

/// The longest piece that is read.
const PIECE: usize = 65536;

/// How many pieces are read at most: 2^40.
pub const MOST_READS: u64 = 1_099_511_627_776;

/// Reads the next octets into the front of the buffer.
fn read_piece<S: Source>(source: &mut S, buffer: &mut Vec<u8>) -> Result<usize, Failed>
    requires { 0 < length buffer.old.items }
    ensures room { length buffer.new.items ≡ length buffer.old.items }
    ensures within { IfOk result (λ n. n ≤ length buffer.new.items) }
    ensures given { IfOk result (λ n. Consumes (S.tells source.old) (S.tells source.new) (take n buffer.new.items)) }
    ensures end { IfOk result (λ n. n ≡ 0 → IsAtEnd (S.tells source.new)) }
    ensures counted { WentUpBy (S.takes source.old) 1 (S.takes source.new) }
    ensures none { OnErr result (Consumes (S.tells source.old) (S.tells source.new) []) }
    ensures failed { OnErr result (S.has_failed source.new ≡ true) }
{
    source.take(buffer.as_mut_slice())
}

/// Reads all that the source gives, and decides it as the stream of this link: the frames that go are put out, in order
/// and octet by octet as they came, and a line is reported for each one that stays. The watch is told of each frame,
/// how many octets came in each piece, and before each piece that it may have to be waited for. At the return the link
/// tells how many frames there were, and what a fault left of the one after them. Conditions: the link is new, and the
/// buffer is one of `new_buffer`.
///
/// # Errors
/// Why the run ended before the stream's end: F1 FrameTooLong, F2 WriteFailed, F4 TornFrame or F5 ReadFailed, with the
/// frames up to there decided.
pub fn decide_link<S: Source, D: Decide, O: Sink, R: Sink, W: Watch>(
    alloc: Global,
    link: &mut Link,
    buffer: &mut Vec<u8>,
    source: &mut S,
    out: &mut O,
    reports: &mut R,
    policy: &D,
    watch: &mut W,
) -> Result<(), RunFault>
    requires first { link_view link.old ≡ new_link }
    requires room { length buffer.old.items ≡ 65536 }
    ensures runs { Moves (S.tells source.old, S.tells source.new) (O.taken out.old, O.taken out.new)
        (R.taken reports.old, R.taken reports.new)
        (λ read added. Leaves (D.decides policy.now) read (IsAtEnd (S.tells source.new))
        (R.has_failed reports.new ≡ true) result (link_view link.new) added
        × IsWatched result
        (Watched (D.decides policy.now) (D.gives policy.now) (D.lets policy.now) W.notes watch.old read added watch.new)
        (WatchedInPart (R.has_failed reports.new ≡ true) (D.decides policy.now) (D.gives policy.now)
        (D.lets policy.now) W.notes watch.old read added watch.new)) }
    ensures failed { IsErrOf result WriteFailed → (O.has_failed out.new ≡ true) ⊎ (R.has_failed reports.new ≡ true) }
    ensures unread { IsErrOf result ReadFailed → (S.has_failed source.new ≡ true)
        ⊎ ReadToLimit (S.takes source.old) (S.takes source.new) (S.tells source.old) (S.tells source.new) }
    ensures lines { AsksLines (R.asked reports.old) (R.asked reports.new) }
{
    for _ in 0..MOST_READS {
        watch.pauses(link.totals);
        let Ok(count) = read_piece(source, buffer) else {
            return Err(RunFault::ReadFailed);
        };
        if count == 0 {
            link.finish()?;
            return Ok(());
        }
        watch.reads(count);
        link.take(alloc, policy, &buffer[..count], out, reports, watch)?;
    }
    Err(RunFault::ReadFailed)
}
