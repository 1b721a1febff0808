//! The octets of a message that is written, is in a file or comes in.
ghost use Rattle.std.specs.Prelude.{◌≡◌, ◌≤◌, ◌⊎◌, None, Some, length, option_map, IfOk, IfErr};
ghost use Rattle.guard_files.specs.Devices.{Input, source_of};
ghost use Rattle.guard_files.specs.Files.{Told};
ghost use Rattle.guard_files.specs.declared.fault.Fault.TheVariants.{NoMemory};
ghost use Rattle.guard_messages.specs.Finding.{is_input, IsFrameAt, IsKeptBy, IsNotKeptBy, IsFound, IsUnfound};
ghost use Rattle.guard_messages.specs.Finding.{LeavesInput};
ghost use Rattle.guard_messages.specs.Questions.{spot_view, written, kept, framed};

use crate::linked::linked_frame;
use crate::numbered::{nth_frame, number_in};
use crate::question::Spot;
use crate::unfound::Unfound;
use guard_der::LONGEST_ENCODING;
use guard_files::{Fault, Files, link_in, new_frame_room, new_room, read_all, read_front};
use guard_frames::{LENGTH_OCTETS, Source};
use guard_model::OutOfMemory;
use hex::FromHexError;
use std::alloc::Global;

/// The octets at the spot; of a frame those behind its length.
pub fn find<F: Files, S: Source>(
    alloc: Global,
    spot: &Spot,
    files: &mut F,
    input: &mut S,
) -> Result<Vec<u8>, Unfound>
    ensures found { IfOk result (λ octets. IsFound (F.told files.old) (spot_view spot.now)
        (source_of S.tells S.takes S.has_failed input.old input.new) octets.items (F.told files.new)) }
    ensures unfound { IfErr result (IsUnfound (F.told files.old) (spot_view spot.now)
        (source_of S.tells S.takes S.has_failed input.old input.new)) }
    ensures unread { LeavesInput (spot_view spot.now)
        (source_of S.tells S.takes S.has_failed input.old input.new) }
{
    match spot {
        Spot::Written(digits) => written_octets(alloc, digits),
        Spot::Kept(path) => kept_octets(alloc, path, files, input),
        Spot::Framed(number, link) => framed_octets(alloc, number, *link, input),
    }
}

/// The octets that the digits write, in either case.
fn written_octets(alloc: Global, digits: &str) -> Result<Vec<u8>, Unfound>
    ensures found { (told : Told) (input : Input) → IfOk result (λ octets.
        IsFound told (written digits.now) input octets.items told) }
    ensures unfound { (told : Told) (input : Input) → IfErr result (IsUnfound told (written digits.now) input) }
{
    match hex::decode(alloc, digits) {
        Ok(octets) => Ok(octets),
        Err(FromHexError::OutOfMemory) => Err(Unfound::Faulty(Fault::NoMemory)),
        Err(_) => Err(Unfound::BadHex),
    }
}

/// All octets at the path, unless there are too many.
fn kept_octets<F: Files, S: Source>(
    alloc: Global,
    path: &str,
    files: &mut F,
    input: &mut S,
) -> Result<Vec<u8>, Unfound>
    ensures found { IfOk result (λ octets. IsFound (F.told files.old) (kept path.now)
        (source_of S.tells S.takes S.has_failed input.old input.new) octets.items (F.told files.new)) }
    ensures unfound { IfErr result (IsUnfound (F.told files.old) (kept path.now)
        (source_of S.tells S.takes S.has_failed input.old input.new)) }
{
    let octets = all_at(alloc, path, files, input)?;
    if octets.len() > LONGEST_ENCODING {
        return Err(Unfound::TooLong);
    }
    Ok(octets)
}

/// All octets at the path; where there are more than a message has, one more than that.
fn all_at<F: Files, S: Source>(
    alloc: Global,
    path: &str,
    files: &mut F,
    input: &mut S,
) -> Result<Vec<u8>, Fault>
    ensures there { IfOk result (λ octets. IsKeptBy (is_input path.now) (F.told files.old) path.now
        (source_of S.tells S.takes S.has_failed input.old input.new) octets.items (F.told files.new)) }
    ensures none { IfErr result (λ f. IsNotKeptBy (is_input path.now) (F.told files.old) path.now
        (source_of S.tells S.takes S.has_failed input.old input.new) f ⊎ (f ≡ NoMemory)) }
{
    if path == "-" {
        read_all(alloc, input)
    } else {
        read_front(alloc, path, files)
    }
}

/// What follows the length of the frame of this number, of the link if that is given.
fn framed_octets<S: Source>(
    alloc: Global,
    word: &str,
    link: Option<&str>,
    input: &mut S,
) -> Result<Vec<u8>, Unfound>
    ensures found { (told : Told) → IfOk result (λ octets.
        IsFound told (framed word.now (option_map (λ link. link.now) link.entry))
        (source_of S.tells S.takes S.has_failed input.old input.new) octets.items told) }
    ensures unfound { (told : Told) → IfErr result
        (IsUnfound told (framed word.now (option_map (λ link. link.now) link.entry))
        (source_of S.tells S.takes S.has_failed input.old input.new)) }
{
    let frame = frame_at(alloc, word, link, input)?;
    Ok(copied(alloc, &frame[LENGTH_OCTETS..])?)
}

/// The frame of this number, of the link if that is given, its length octets included.
pub fn frame_at<S: Source>(
    alloc: Global,
    word: &str,
    link: Option<&str>,
    input: &mut S,
) -> Result<Vec<u8>, Unfound>
    ensures frame { IfOk result (λ frame. IsFrameAt (framed word.now (option_map (λ link. link.now) link.entry))
        (source_of S.tells S.takes S.has_failed input.old input.new) frame.items) }
    ensures long { IfOk result (λ frame. 4 ≤ length frame.items) }
    ensures unfound { (told : Told) → IfErr result
        (IsUnfound told (framed word.now (option_map (λ link. link.now) link.entry))
        (source_of S.tells S.takes S.has_failed input.old input.new)) }
{
    match link {
        None => frame_of_number(alloc, word, input),
        Some(link) => frame_of_link(alloc, link, word, input),
    }
}

/// The frame of this number, its length octets included.
fn frame_of_number<S: Source>(alloc: Global, word: &str, input: &mut S) -> Result<Vec<u8>, Unfound>
    ensures frame { IfOk result (λ frame. IsFrameAt (framed word.now None)
        (source_of S.tells S.takes S.has_failed input.old input.new) frame.items) }
    ensures unfound { (told : Told) → IfErr result (IsUnfound told (framed word.now None)
        (source_of S.tells S.takes S.has_failed input.old input.new)) }
{
    let Some(number) = number_in(word) else {
        return Err(Unfound::NoSuchFrame);
    };
    let mut room = new_frame_room(alloc)?;
    match nth_frame(input, room.as_mut_slice(), number) {
        Ok(Some(size)) => Ok(copied(alloc, &room[..size])?),
        Ok(None) => Err(Unfound::NoSuchFrame),
        Err(fault) => Err(Unfound::Faulty(Fault::Run(fault))),
    }
}

/// The frame of this number of the link, its length octets included.
fn frame_of_link<S: Source>(
    alloc: Global,
    number: &str,
    word: &str,
    input: &mut S,
) -> Result<Vec<u8>, Unfound>
    ensures frame { IfOk result (λ frame. IsFrameAt (framed word.now (Some number.now))
        (source_of S.tells S.takes S.has_failed input.old input.new) frame.items) }
    ensures unfound { (told : Told) → IfErr result (IsUnfound told (framed word.now (Some number.now))
        (source_of S.tells S.takes S.has_failed input.old input.new)) }
{
    let Some(link) = link_in(number) else {
        return Err(Unfound::NoSuchLink);
    };
    let Some(number) = number_in(word) else {
        return Err(Unfound::NoSuchFrame);
    };
    let mut room = new_room(alloc)?;
    linked_frame(alloc, input, room.as_mut_slice(), link, number)
}

fn copied(alloc: Global, octets: &[u8]) -> Result<Vec<u8>, OutOfMemory>
    ensures { IfOk result (λ copy. copy.items ≡ octets.now) }
{
    Ok(Vec::from_slice(alloc, octets)?)
}
