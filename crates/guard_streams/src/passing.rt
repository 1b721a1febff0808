//! What goes out of a link, and what is said of it.
ghost use Rattle.std.specs.Prelude.{◌≡◌, ◌++◌, ◌+◌, ◌<◌, ◌≤◌, ℕ, List};
ghost use Rattle.std.specs.Prelude.{length, Err};
ghost use Rattle.std.specs.Option.{option_map};
ghost use Rattle.std.specs.List.{All};
ghost use Rattle.guard_frames.specs.Calls.{AsksLines};
ghost use Rattle.guard_frames.specs.LinkView.{link_view};
ghost use Rattle.guard_files.specs.Devices.{device_of};
ghost use Rattle.guard_files.specs.Records.{header, record_octets};
ghost use Rattle.guard_files.specs.Records.Record.{piece};
ghost use Rattle.guard_streams.specs.InForce.{digest_note};
ghost use Rattle.guard_streams.specs.Turns.{renewed_line};
ghost use Rattle.guard_streams.specs.AtFault.{begun_line};
ghost use Rattle.guard_streams.specs.inside.Noting.{fault_note, answer_lines};
ghost use Rattle.guard_streams.specs.inside.Putting.{Puts};
ghost use Rattle.guard_streams.specs.Passing.{InRecords, IsShort, lines_of, marked, marked_line, link_mark};

use crate::in_force::append_digest;
use arrayvec::ArrayVec;
use guard_files::LONGEST_PIECE;
use guard_frames::{Failed, Link, LinkFault, Sink, append, put_all, put_both};
use guard_notes::first_line;
use itoa::Buffer;

/// The most octets of a line that goes in one call. A pipe and a file opened for appending take so many at once.
const SHORT: usize = 4096;

/// Room for such a line after the number of its link, with its line feed.
type MarkedLine = ArrayVec<u8, 4112>;

/// Puts the octets in records of this link, each but the last of the most octets that one may have.
pub fn put_pieces<O: Sink>(out: &mut O, link: u16, octets: &[u8]) -> Result<(), Failed>
    ensures { (written : List ℕ) × InRecords link octets.now written
        × Puts written result (device_of O.taken O.has_failed out.old out.new) }
{
    let mut rest = octets;
    while rest.len() > LONGEST_PIECE {
        let (first, others) = full_part(rest);
        put_piece(out, link, first)?;
        rest = others;
    }
    if rest.is_empty() {
        return Ok(());
    }
    put_piece(out, link, rest)
}

/// The octets of a full record, and those after them.
fn full_part(octets: &[u8]) -> (&[u8], &[u8])
    requires { 1048576 < length octets.now }
    ensures whole { result.0.now ++ result.1.now ≡ octets.now }
    ensures full { length result.0.now ≡ 1048576 }
    ensures some { 0 < length result.1.now }
    ensures shorter { length result.1.now < length octets.now }
{
    octets.split_at(LONGEST_PIECE)
}

/// Puts the octets in one record of this link.
fn put_piece<O: Sink>(out: &mut O, link: u16, octets: &[u8]) -> Result<(), Failed>
    requires { length octets.now ≤ 1048576 }
    ensures { Puts (record_octets (piece link octets.now)) result (device_of O.taken O.has_failed out.old out.new) }
{
    put_both(out, &piece_header(link, octets.len() as u32), octets)
}

fn piece_header(link: u16, size: u32) -> [u8; 7]
    ensures { result ≡ header 0 link size }
{
    let [above, link] = link.to_be_bytes();
    let [n0, n1, n2, n3] = size.to_be_bytes();
    [0, above, link, n0, n1, n2, n3]
}

/// Puts the lines of a text, each after the number of its link: in one call, where it has 4,096 octets at most. A last
/// line that was cut short is ended.
pub fn put_lines<E: Sink>(err: &mut E, link: u16, text: &[u8]) -> Result<(), Failed>
    ensures puts { Puts (marked link text.now) result (device_of E.taken E.has_failed err.old err.new) }
    ensures lines { All IsShort (lines_of text.now) → AsksLines (E.asked err.old) (E.asked err.new) }
{
    let mut rest = text;
    while !rest.is_empty() {
        let (line, others) = first_line(rest);
        put_line(err, link, line)?;
        rest = others;
    }
    Ok(())
}

/// Puts the line of a link's fault, and then the note of the frame at which it is, where that is asked for by the link.
pub fn put_fault<E: Sink>(
    err: &mut E,
    link: u16,
    fault: LinkFault,
    noted: Option<&Link>,
) -> Result<(), Failed>
    ensures { Puts (answer_lines (option_map (λ x. link_view x.now) noted.entry) link (Err fault)) result
        (device_of E.taken E.has_failed err.old err.new) }
{
    put_line(err, link, fault.text().as_bytes())?;
    put_note(err, link, fault, noted)
}

/// Puts the note of the frame that a link's fault is at.
fn put_note<E: Sink>(
    err: &mut E,
    link: u16,
    fault: LinkFault,
    noted: Option<&Link>,
) -> Result<(), Failed>
    ensures { Puts (fault_note (option_map (λ x. link_view x.now) noted.entry) link (Err fault)) result
        (device_of E.taken E.has_failed err.old err.new) }
{
    let Some(at) = noted else {
        return Ok(());
    };
    let number = at.totals().next_number();
    match fault {
        LinkFault::FrameTooLong => put_frame(err, link, number, b"length", at.left()),
        LinkFault::TornFrame => put_frame(err, link, number, b"octets", at.left()),
        LinkFault::WriteFailed | LinkFault::Closed => Ok(()),
    }
}

/// Puts the note of a frame of a link, with a number of its octets behind the word, in one call.
fn put_frame<E: Sink>(
    err: &mut E,
    link: u16,
    number: u64,
    word: &[u8],
    count: usize,
) -> Result<(), Failed>
    requires { length word.now ≤ 6 }
    ensures puts { Puts (begun_line link number word.now count) result (device_of E.taken E.has_failed err.old err.new) }
    ensures lines { AsksLines (E.asked err.old) (E.asked err.new) }
{
    let mut first = Buffer::new();
    let mut second = Buffer::new();
    let mut third = Buffer::new();
    let mut whole = MarkedLine::new();
    append(&mut whole, b"derguard: link ");
    append(&mut whole, first.format(link).as_bytes());
    append(&mut whole, b", frame ");
    append(&mut whole, second.format(number).as_bytes());
    append(&mut whole, b", ");
    append(&mut whole, word);
    append(&mut whole, b" ");
    append(&mut whole, third.format(count).as_bytes());
    append(&mut whole, b"\n");
    put_all(err, whole.as_slice())
}

/// Puts the note of a new policy of so many messages and rules, and of the number of its texts, in one call.
pub fn put_renewed<E: Sink>(
    err: &mut E,
    messages: usize,
    rules: usize,
    digest: &[u8; 32],
) -> Result<(), Failed>
    ensures puts { Puts (renewed_line messages rules ++ digest_note digest.now) result
        (device_of E.taken E.has_failed err.old err.new) }
    ensures lines { AsksLines (E.asked err.old) (E.asked err.new) }
{
    let mut first = Buffer::new();
    let mut second = Buffer::new();
    let mut whole = MarkedLine::new();
    append(&mut whole, b"derguard: policy read again, messages ");
    append(&mut whole, first.format(messages).as_bytes());
    append(&mut whole, b", rules ");
    append(&mut whole, second.format(rules).as_bytes());
    append(&mut whole, b"\n");
    append_digest(&mut whole, digest);
    put_all(err, whole.as_slice())
}

/// Puts a line, after the number of its link: in one call, where it has 4,096 octets at most.
fn put_line<E: Sink>(err: &mut E, link: u16, line: &[u8]) -> Result<(), Failed>
    ensures puts { Puts (marked_line link line.now) result (device_of E.taken E.has_failed err.old err.new) }
    ensures lines { IsShort line.now → AsksLines (E.asked err.old) (E.asked err.new) }
{
    let mut whole = marked(link);
    if line.len() > SHORT {
        put_all(err, whole.as_slice())?;
        return put_both(err, line, b"\n");
    }
    append(&mut whole, line);
    append(&mut whole, b"\n");
    put_all(err, whole.as_slice())
}

/// The number of a link, as its lines begin with it.
fn marked(link: u16) -> MarkedLine
    ensures mark { result.items ≡ link_mark link }
    ensures few { length result.items ≤ 15 }
{
    let mut buffer = Buffer::new();
    let mut mark = MarkedLine::new();
    append(&mut mark, b"link ");
    append(&mut mark, buffer.format(link).as_bytes());
    append(&mut mark, b" ");
    mark
}
