//! What is shown of the body of a frame: its names, or why they aren't there.
ghost use Rattle.std.specs.Prelude.{◌≡◌, ◌++◌, map, option_map, string_bytes, take, IfOk, OnOk};
ghost use Rattle.guard_frames.specs.Bodies.{body_view};
ghost use Rattle.guard_messages.specs.HeaderNotes.{behind_name, cut_text, first_other, frame_note};
ghost use Rattle.guard_messages.specs.HeaderNotes.{spot_note};
ghost use Rattle.guard_messages.specs.Questions.{spot_view};
ghost use Rattle.guard_messages.specs.HeaderNotes.{length_text, name_at, name_line, name_lines, octets_line};
ghost use Rattle.guard_messages.specs.HeaderNotes.{other_text, unnamed, unnamed_of, why_line};

use crate::question::Spot;
use guard_files::add;
use guard_frames::Body;
use guard_model::OutOfMemory;
use guard_policy::is_name;
use std::alloc::{AllocError, Global};

/// The most octets of a name.
const LONGEST: usize = 63;

/// How many octets of a body are shown.
const SHOWN: usize = 59;

/// What is shown of the octets at the spot, to explain them: of those in digits or a file nothing, since they are no
/// frame.
pub fn spot_note(
    alloc: Global,
    explain: bool,
    spot: &Spot,
    held: Option<Body>,
    octets: &[u8],
) -> Result<Vec<u8>, OutOfMemory>
    ensures { IfOk result (λ note. note.items
        ≡ spot_note explain (spot_view spot.now) (option_map body_view held.entry) octets.now) }
{
    if !explain {
        return Ok(Vec::new(alloc));
    }
    match spot {
        Spot::Written(_) | Spot::Kept(_) => Ok(Vec::new(alloc)),
        Spot::Framed(_, _) => frame_note(alloc, held, octets),
    }
}

/// Each name that stands in its place. Where the octets don't hold three names and a message, also why the next one is
/// none, and the first octets.
fn frame_note(alloc: Global, held: Option<Body>, octets: &[u8]) -> Result<Vec<u8>, OutOfMemory>
    ensures { IfOk result (λ note. note.items ≡ frame_note (option_map body_view held.entry) octets.now) }
{
    let mut note = Vec::new(alloc);
    add_names(alloc, &mut note, &["sender", "receiver", "message"], octets)?;
    if held.is_none() {
        add_octets(alloc, &mut note, octets)?;
    }
    Ok(note)
}

/// Adds a line for each of these names in turn, up to the first that isn't there.
fn add_names(
    alloc: Global,
    note: &mut Vec<u8>,
    words: &[&str],
    octets: &[u8],
) -> Result<(), OutOfMemory>
    ensures { OnOk result (note.new.items
        ≡ note.old.items ++ name_lines (map (λ word. word.now) words.now) octets.now) }
{
    let [word, words @ ..] = words else {
        return Ok(());
    };
    match unnamed(alloc, octets)? {
        Some(why) => add_why(note, word, &why),
        None => {
            add_name(note, word, name_at(octets))?;
            add_names(alloc, note, words, behind_name(octets))
        }
    }
}

fn add_name(note: &mut Vec<u8>, word: &str, name: &[u8]) -> Result<(), OutOfMemory>
    ensures { OnOk result (note.new.items ≡ note.old.items ++ name_line word.now name.now) }
{
    add(note, b"  ")?;
    add(note, word.as_bytes())?;
    add(note, b" ")?;
    add(note, name)?;
    add(note, b"\n")
}

fn add_why(note: &mut Vec<u8>, word: &str, why: &str) -> Result<(), OutOfMemory>
    ensures { OnOk result (note.new.items ≡ note.old.items ++ why_line word.now why.now) }
{
    add(note, b"  no ")?;
    add(note, word.as_bytes())?;
    add(note, b": ")?;
    add(note, why.as_bytes())?;
    add(note, b"\n")
}

/// Adds the first octets of the body.
fn add_octets(alloc: Global, note: &mut Vec<u8>, body: &[u8]) -> Result<(), OutOfMemory>
    ensures { OnOk result (note.new.items ≡ note.old.items ++ octets_line body.now) }
{
    if body.is_empty() {
        return Ok(());
    }
    let digits = hex::encode_upper(alloc, front(body, SHOWN))?;
    add(note, b"  ")?;
    add(note, digits.as_bytes())?;
    add(note, b"\n")
}

/// The first octets, at most so many.
fn front(octets: &[u8], most: usize) -> &[u8]
    ensures { result.now ≡ take most octets.now }
{
    &octets[..octets.len().min(most)]
}

/// Why no name stands at the beginning of these octets, after its length; None where one does.
fn unnamed(alloc: Global, octets: &[u8]) -> Result<Option<String>, AllocError>
    ensures { IfOk result (λ why. option_map string_bytes why ≡ unnamed octets.now) }
{
    match octets {
        [] => Ok(Some(String::from_str(alloc, "the frame ends before it")?)),
        [length, rest @ ..] => unnamed_of(alloc, usize::from(*length), rest),
    }
}

/// Why no name of so many octets begins here.
fn unnamed_of(alloc: Global, length: usize, octets: &[u8]) -> Result<Option<String>, AllocError>
    ensures { IfOk result (λ why. option_map string_bytes why ≡ unnamed_of length octets.now) }
{
    if length == 0 || length > LONGEST {
        Ok(Some(length_text(alloc, length)?))
    } else if octets.len() < length {
        Ok(Some(cut_text(alloc, length, octets.len())?))
    } else {
        match first_other(&octets[..length]) {
            Some(octet) => Ok(Some(other_text(alloc, octet)?)),
            None => Ok(None),
        }
    }
}

fn length_text(alloc: Global, length: usize) -> Result<String, AllocError>
    ensures { IfOk result (λ text. string_bytes text ≡ length_text length) }
{
    format!(in alloc; "its length is {length}, and a name has 1 to 63 octets")
}

fn cut_text(alloc: Global, length: usize, there: usize) -> Result<String, AllocError>
    ensures { IfOk result (λ text. string_bytes text ≡ cut_text length there) }
{
    format!(in alloc; "its length is {length}, and the frame ends after {there}")
}

fn other_text(alloc: Global, octet: u8) -> Result<String, AllocError>
    ensures { IfOk result (λ text. string_bytes text ≡ other_text octet) }
{
    let digits = hex::encode_upper(alloc, [octet])?;
    format!(in alloc; "the octet {digits} in it is no letter, digit, -, _ or .")
}

/// The first octet that no name has.
fn first_other(octets: &[u8]) -> Option<u8>
    ensures { result ≡ first_other octets.now }
{
    match octets {
        [] => None,
        [octet, rest @ ..] => {
            if is_name(&[*octet]) {
                first_other(rest)
            } else {
                Some(*octet)
            }
        }
    }
}

/// The name after its length.
fn name_at(octets: &[u8]) -> &[u8]
    ensures { result.now ≡ name_at octets.now }
{
    match octets {
        [] => octets,
        [length, rest @ ..] => front(rest, usize::from(*length)),
    }
}

/// What follows the name and its length.
fn behind_name(octets: &[u8]) -> &[u8]
    ensures { result.now ≡ behind_name octets.now }
{
    match octets {
        [] => octets,
        [length, rest @ ..] => &rest[rest.len().min(usize::from(*length))..],
    }
}
