//! What becomes of one message, and its value, wherever its octets are.
ghost use Rattle.guard_files.specs.Devices.{source_of, device_of};
ghost use Rattle.guard_files.specs.Files.{Told};
ghost use Rattle.guard_messages.specs.Deciding.{CapturesAt, Decides, ShowsAsked, ShowsAt};
ghost use Rattle.guard_messages.specs.Questions.{question_view, show_spot};

use crate::deciding::decide_held;
use crate::finding::{find, frame_at};
use crate::holding::{held_in, route_asked, show_held};
use crate::question::{Question, Spot};
use crate::unfound::tell_unfound;
use guard_files::{Files, give, tell_text, write};
use guard_frames::{Sink, Source};
use std::alloc::Global;

/// What is said where the words don't say where a message is.
const UNASKED: &str =
    "error: the message must be given in one of these ways:\n  <HEX> or --der <FILE>, not both, with each name that \
        the command takes; or --frame <N> without any, alone or with --link <K>\n\nFor more information, try '--help'.";

/// The status where the words are bad.
const BAD_WORDS: u8 = 2;

/// Says what becomes of the message that is asked of, and answers the status: 0 where it passes; 1 where it doesn't, or
/// the frame isn't three names and a message; 2 for bad words or digits, a bad policy, a file that can't be read, too
/// many octets, or a frame that isn't there; 3 where standard input failed or isn't frames, an output failed, or memory
/// ran out.
pub fn decide_asked<F: Files, S: Source, O: Sink, E: Sink>(
    alloc: Global,
    question: &Question,
    files: &mut F,
    input: &mut S,
    out: &mut O,
    err: &mut E,
) -> u8
    ensures { Decides (F.told files.old) (question_view question.now)
        (source_of S.tells S.takes S.has_failed input.old input.new)
        (device_of O.taken O.has_failed out.old out.new)
        (device_of E.taken E.has_failed err.old err.new) result }
{
    match question.decide_spot() {
        Some(spot) => match find(alloc, &spot, files, input) {
            Ok(octets) => {
                let held = held_in(route_asked(question), &spot, &octets);
                let decided = decide_held(alloc, question, &spot, held, &octets, files);
                give(alloc, decided, out, err)
            }
            Err(reason) => tell_unfound(alloc, question.explain, &reason, err),
        },
        None => tell_text(alloc, UNASKED, BAD_WORDS, err),
    }
}

/// Shows the value of the message that is asked of, as JSON where the question says so, or writes its frame, and
/// answers the status: 0 where there is one; 1 where the policy declares no such message, the octets encode no value of
/// its type, or the frame isn't three names and a message; 2 for bad words or digits, a bad policy, a file that can't
/// be read, too many octets, or a frame that isn't there; 3 where standard input failed or isn't frames, an output
/// failed, or memory ran out.
pub fn show_asked<F: Files, S: Source, O: Sink, E: Sink>(
    alloc: Global,
    question: &Question,
    files: &mut F,
    input: &mut S,
    out: &mut O,
    err: &mut E,
) -> u8
    ensures { ShowsAsked (F.told files.old) (question_view question.now)
        (source_of S.tells S.takes S.has_failed input.old input.new)
        (device_of O.taken O.has_failed out.old out.new)
        (device_of E.taken E.has_failed err.old err.new) result }
{
    if question.capture {
        write_frame(alloc, question, input, out, err)
    } else {
        show_value(alloc, question, files, input, out, err)
    }
}

/// Shows the value of the message.
fn show_value<F: Files, S: Source, O: Sink, E: Sink>(
    alloc: Global,
    question: &Question,
    files: &mut F,
    input: &mut S,
    out: &mut O,
    err: &mut E,
) -> u8
    ensures { ShowsAt (show_spot (question_view question.now)) (F.told files.old) (question_view question.now)
        (source_of S.tells S.takes S.has_failed input.old input.new)
        (device_of O.taken O.has_failed out.old out.new)
        (device_of E.taken E.has_failed err.old err.new) result }
{
    match question.show_spot() {
        Some(spot) => match find(alloc, &spot, files, input) {
            Ok(octets) => {
                let held = held_in(route_asked(question), &spot, &octets);
                give(alloc, show_held(alloc, question, held, files), out, err)
            }
            Err(reason) => tell_unfound(alloc, false, &reason, err),
        },
        None => tell_text(alloc, UNASKED, BAD_WORDS, err),
    }
}

/// Writes the frame that holds the message, octet by octet as it came: a capture of one frame.
fn write_frame<S: Source, O: Sink, E: Sink>(
    alloc: Global,
    question: &Question,
    input: &mut S,
    out: &mut O,
    err: &mut E,
) -> u8
    ensures { (told : Told) → CapturesAt (show_spot (question_view question.now)) told
        (source_of S.tells S.takes S.has_failed input.old input.new)
        (device_of O.taken O.has_failed out.old out.new)
        (device_of E.taken E.has_failed err.old err.new) result }
{
    match question.show_spot() {
        Some(Spot::Framed(number, link)) => match frame_at(alloc, number, link, input) {
            Ok(frame) => write(&frame, 0, out, err),
            Err(reason) => tell_unfound(alloc, false, &reason, err),
        },
        Some(Spot::Written(_)) | Some(Spot::Kept(_)) | None => {
            tell_text(alloc, UNASKED, BAD_WORDS, err)
        }
    }
}
