//! What is seen of a stream, and the notes that end it.
ghost use Rattle.std.specs.Prelude.{◌≡◌, ◌++◌, string_bytes, IfOk, OnOk};
ghost use Rattle.guard_frames.specs.LinkView.{link_view};
ghost use Rattle.guard_streams.specs.Verbose.{nothing_seen, seen_of, totals_line, count_line, count_lines};
ghost use Rattle.guard_streams.specs.Verbose.{last_lines, frame_line, fault_line, fault_lines};

use crate::counts::Counts;
use guard_frames::{Link, RunFault, Totals};
use std::alloc::{AllocError, Global};

/// Which policy is in force, by the number of its texts, how many frames there were, how often each reason was reported,
/// and what a fault leaves of the frame after them: the length that is too long, or how many octets of it there are.
#[derive(Clone, Copy, Debug, PartialEq, Eq)]
pub struct Seen {
    pub digest: [u8; 32],
    pub totals: Totals,
    pub counts: Counts,
    pub left: usize,
}

impl Seen {
    /// Before the first frame, under the policy of this number.
    pub fn nothing(digest: [u8; 32]) -> Seen
        ensures { result ≡ nothing_seen digest }
    {
        Seen {
            digest,
            totals: Totals::none(),
            counts: Counts::none(),
            left: 0,
        }
    }

    /// What a link tells of its frames under the policy of this number, and these counts.
    pub fn of(link: &Link, counts: Counts, digest: [u8; 32]) -> Seen
        ensures { result ≡ seen_of digest (link_view link.now) counts }
    {
        Seen {
            digest,
            totals: link.totals(),
            counts,
            left: link.left(),
        }
    }
}

/// Some lines, and then the notes that end a stream. They fail only where memory runs out.
pub fn notes(alloc: Global, first: &str, seen: &Seen) -> Result<String, AllocError>
    ensures { IfOk result (λ text. string_bytes text ≡ first.now ++ last_lines seen.now) }
{
    let mut text = String::from_str(alloc, first)?;
    add_last(&mut text, seen)?;
    Ok(text)
}

/// The notes behind the line of a fault, with what the system says of it. They fail only where memory runs out.
pub fn fault_notes(
    alloc: Global,
    fault: RunFault,
    said: &str,
    seen: &Seen,
) -> Result<String, AllocError>
    ensures { IfOk result (λ text. string_bytes text ≡ fault_lines fault said.now seen.now) }
{
    let mut text = String::new(alloc);
    add_fault(&mut text, fault, seen)?;
    text.push_str(said)?;
    add_last(&mut text, seen)?;
    Ok(text)
}

/// Appends the notes that end a stream.
fn add_last(text: &mut String, seen: &Seen) -> Result<(), AllocError>
    ensures { OnOk result (string_bytes text.new ≡ string_bytes text.old ++ last_lines seen.now) }
{
    add_totals(text, seen.totals)?;
    add_counts(text, &seen.counts)
}

fn add_totals(text: &mut String, totals: Totals) -> Result<(), AllocError>
    ensures { OnOk result (string_bytes text.new ≡ string_bytes text.old ++ totals_line totals) }
{
    let (frames, passed, denied) = (totals.frames, totals.passed, totals.denied);
    write!(
        text,
        "derguard: frames {frames}, passed {passed}, denied {denied}\n"
    )
}

fn add_counts(text: &mut String, counts: &Counts) -> Result<(), AllocError>
    ensures { OnOk result (string_bytes text.new ≡ string_bytes text.old ++ count_lines counts.now) }
{
    add_count(text, "bad-header", counts.bad_header)?;
    add_count(text, "unknown-message", counts.unknown_message)?;
    add_count(text, "undecodable", counts.undecodable)?;
    add_count(text, "outside-type", counts.outside_type)?;
    add_count(text, "denied-by", counts.denied_by)?;
    add_count(text, "not-allowed", counts.not_allowed)?;
    add_count(text, "no-rule", counts.no_rule)?;
    add_count(text, "no-memory", counts.no_memory)
}

fn add_count(text: &mut String, reason: &str, count: u64) -> Result<(), AllocError>
    ensures { OnOk result (string_bytes text.new ≡ string_bytes text.old ++ count_line reason.now count) }
{
    if count == 0 {
        return Ok(());
    }
    write!(text, "derguard: {reason} {count}\n")
}

fn add_fault(text: &mut String, fault: RunFault, seen: &Seen) -> Result<(), AllocError>
    ensures { OnOk result (string_bytes text.new ≡ string_bytes text.old ++ fault_line fault seen.now) }
{
    let number = seen.totals.next_number();
    match fault {
        RunFault::FrameTooLong => add_frame(text, number, "length", seen.left),
        RunFault::TornFrame => add_frame(text, number, "octets", seen.left),
        RunFault::WriteFailed => text.push_str("derguard: standard output failed\n"),
        RunFault::ReadFailed | RunFault::OutOfMemory => Ok(()),
    }
}

fn add_frame(text: &mut String, number: u64, word: &str, count: usize) -> Result<(), AllocError>
    ensures { OnOk result (string_bytes text.new ≡ string_bytes text.old ++ frame_line number word.now count) }
{
    write!(text, "derguard: frame {number}, {word} {count}\n")
}
