//! The DER encoding of a value that is written, or the frame that holds it.
ghost use Rattle.std.specs.Prelude.{◌≡◌, ◌⊎◌, ◌++◌, [], Some, None, codes, option_map};
ghost use Rattle.std.specs.Prelude.{IfOk, IfErr, IfSome, IsTrue, string_bytes};
ghost use Rattle.hex.specs.Hex.{encode_upper};
ghost use Rattle.guard_model.specs.TypeView.{type_view};
ghost use Rattle.guard_model.specs.ValueView.{value_view};
ghost use Rattle.guard_der.specs.Fits.{fits};
ghost use Rattle.guard_der.specs.Sound.{is_sound};
ghost use Rattle.guard_eval.specs.Violations.{violation, violation_view};
ghost use Rattle.guard_policy.specs.PolicyView.{policy_view};
ghost use Rattle.guard_policy.specs.SaidView.{said_message_view};
ghost use Rattle.guard_files.specs.Devices.{source_of, device_of, IsUntouched};
ghost use Rattle.guard_files.specs.Reading.{loaded_view};
ghost use Rattle.guard_files.specs.Remarked.{remarked_view};
ghost use Rattle.guard_authors.specs.Encodes.{encoding_view, in_form, line_of_violation, violation_status};
ghost use Rattle.guard_authors.specs.Encodes.{IsEncoded, IsUnframed, EncodesText, EncodesGiven, EncodesUnder, Encodes};
ghost use Rattle.guard_authors.specs.Framing.{IsPayload, HasNoPayload};
ghost use Rattle.guard_authors.specs.ValueTexts.{names_for, value_note, IsNoValue, TellsNoValue};

use crate::framing::frame;
use crate::written::encoded;
use guard_eval::{Violation, first_violation};
use guard_files::{
    Fault, Files, Loaded, Remarked, read_all, tell, tell_line, tell_no_memory, tell_text,
    tell_with, write_remarked,
};
use guard_frames::{Sink, Source};
use guard_model::{OutOfMemory, Ty, Value};
use guard_notes::{Sources, place_lines, schema_place};
use guard_policy::{Policy, Route, SaidMessage, Verdict};
use guard_report::verdict_text;
use guard_schema::SchemaFault;
use std::alloc::Global;

/// What `encode` is asked for: the octets of a value of this message, under the policy at a path.
#[derive(Clone, Copy, Debug, PartialEq, Eq)]
pub struct Encoding<'a> {
    pub policy: &'a str,
    pub message: &'a str,
    /// The value, or else it is read.
    pub value: Option<&'a str>,
    /// Where a sender or a receiver is given, a frame is written.
    pub from: Option<&'a str>,
    pub to: Option<&'a str>,
    /// Whether octets are written in place of hexadecimal digits.
    pub der: bool,
}

/// Writes the octets of the value, or a frame that holds them, and answers the status: 0; 1 where the value is none of
/// the declared type, whose line is on standard error, or no message of the name is declared; 2 where there is no
/// policy at the path, the text writes no value, or no frame holds it; 3 where a device failed or memory ran out. Names
/// in the text mean what they mean in the module of the declared type.
pub fn encode<F: Files, S: Source, O: Sink, E: Sink>(
    alloc: Global,
    asked: &Encoding,
    files: &mut F,
    input: &mut S,
    out: &mut O,
    err: &mut E,
) -> u8
    ensures { Encodes (F.told files.old) (encoding_view asked.now)
        (source_of S.tells S.takes S.has_failed input.old input.new)
        (device_of O.taken O.has_failed out.old out.new)
        (device_of E.taken E.has_failed err.old err.new) result }
{
    let (mut texts, mut trees) = (None, Vec::new(alloc));
    match Loaded::at(alloc, asked.policy, false, files, &mut texts, &mut trees) {
        Ok(loaded) => encode_under(alloc, asked, &loaded, input, out, err),
        Err(refusal) => tell(alloc, &refusal.fault, err),
    }
}

fn encode_under<S: Source, O: Sink, E: Sink>(
    alloc: Global,
    asked: &Encoding,
    loaded: &Loaded,
    input: &mut S,
    out: &mut O,
    err: &mut E,
) -> u8
    ensures { EncodesUnder (loaded_view loaded.now) (encoding_view asked.now)
        (source_of S.tells S.takes S.has_failed input.old input.new)
        (device_of O.taken O.has_failed out.old out.new)
        (device_of E.taken E.has_failed err.old err.new) result }
{
    match loaded.policy.message(asked.message.as_bytes()) {
        Some(message) => encode_given(alloc, asked, loaded, &message, input, out, err),
        None => tell_line(b"unknown-message\n", 1, err),
    }
}

/// Encodes the value that was given, or else the one that is read.
fn encode_given<S: Source, O: Sink, E: Sink>(
    alloc: Global,
    asked: &Encoding,
    loaded: &Loaded,
    message: &SaidMessage,
    input: &mut S,
    out: &mut O,
    err: &mut E,
) -> u8
    requires { IsTrue (is_sound (type_view message.now.ty.now)) }
    ensures { EncodesGiven (loaded_view loaded.now) (said_message_view message.now) (encoding_view asked.now)
        (encoding_view asked.now).value (source_of S.tells S.takes S.has_failed input.old input.new)
        (device_of O.taken O.has_failed out.old out.new)
        (device_of E.taken E.has_failed err.old err.new) result }
{
    match asked.value {
        Some(text) => encode_text(alloc, asked, loaded, message, text.as_bytes(), out, err),
        None => encode_read(alloc, asked, loaded, message, input, out, err),
    }
}

fn encode_read<S: Source, O: Sink, E: Sink>(
    alloc: Global,
    asked: &Encoding,
    loaded: &Loaded,
    message: &SaidMessage,
    input: &mut S,
    out: &mut O,
    err: &mut E,
) -> u8
    requires { IsTrue (is_sound (type_view message.now.ty.now)) }
    ensures { EncodesGiven (loaded_view loaded.now) (said_message_view message.now) (encoding_view asked.now) None
        (source_of S.tells S.takes S.has_failed input.old input.new)
        (device_of O.taken O.has_failed out.old out.new)
        (device_of E.taken E.has_failed err.old err.new) result }
{
    match read_all(alloc, input) {
        Ok(text) => encode_text(alloc, asked, loaded, message, &text, out, err),
        Err(fault) => tell(alloc, &fault, err),
    }
}

/// Encodes the value that the text writes.
fn encode_text<O: Sink, E: Sink>(
    alloc: Global,
    asked: &Encoding,
    loaded: &Loaded,
    message: &SaidMessage,
    text: &[u8],
    out: &mut O,
    err: &mut E,
) -> u8
    requires { IsTrue (is_sound (type_view message.now.ty.now)) }
    ensures { EncodesText (loaded_view loaded.now) (said_message_view message.now) (encoding_view asked.now) text.now
        (device_of O.taken O.has_failed out.old out.new)
        (device_of E.taken E.has_failed err.old err.new) result }
{
    match answer(alloc, asked, loaded, message, text) {
        Ok(Some(encoded)) => write_remarked(&encoded, out, err),
        Ok(None) => tell_text(alloc, "bad frame", 2, err),
        Err(fault) => tell_no_value(alloc, text, fault, err),
    }
}

/// Reports why the text writes no value, with the place.
fn tell_no_value<E: Sink>(alloc: Global, text: &[u8], fault: SchemaFault, err: &mut E) -> u8
    ensures { TellsNoValue text.now fault (device_of E.taken E.has_failed err.old err.new) result }
{
    let Ok(note) = value_note(alloc, text, &fault) else {
        return tell_no_memory(err);
    };
    match fault {
        SchemaFault::OutOfMemory => tell_no_memory(err),
        fault => tell_with(alloc, &Fault::Schema(fault), &note, err),
    }
}

/// The place of a fault of the text, and the line with a mark.
fn value_note(alloc: Global, text: &[u8], fault: &SchemaFault) -> Result<String, OutOfMemory>
    ensures { IfOk result (λ note. string_bytes note ≡ value_note text.now fault.now) }
{
    let Some(place) = schema_place(fault) else {
        return Ok(String::new(alloc));
    };
    let files = vec![in alloc; String::from_str(alloc, "value")?]?;
    let modules = vec![in alloc; Vec::from_slice(alloc, text)?]?;
    let sources = Sources {
        path: "",
        files: files.as_slice(),
        modules: modules.as_slice(),
    };
    Ok(place_lines(alloc, &sources, place)?)
}

// ---- what is written

/// What is written of the value that the text writes; none where no frame holds it.
fn answer(
    alloc: Global,
    asked: &Encoding,
    loaded: &Loaded,
    message: &SaidMessage,
    text: &[u8],
) -> Result<Option<Remarked>, SchemaFault>
    requires { IsTrue (is_sound (type_view message.now.ty.now)) }
    ensures encoded { IfOk result (λ found. IfSome found (λ e. IsEncoded (loaded_view loaded.now)
        (said_message_view message.now) (encoding_view asked.now) text.now (remarked_view e))) }
    ensures unframed { IfOk result (λ found. found ≡ None → IsUnframed (loaded_view loaded.now)
        (said_message_view message.now) (encoding_view asked.now) text.now) }
    ensures none { IfErr result (IsNoValue (names_for (loaded_view loaded.now) (said_message_view message.now))
        (type_view message.now.ty.now) text.now) }
{
    let (value, octets) = encoded(alloc, &loaded.modules, message, text)?;
    let held = payload(alloc, asked, octets)?;
    let Some(payload) = held else {
        return Ok(None);
    };
    let (remarks, status) = said(alloc, &loaded.policy, asked.message, message.ty, &value)?;
    let out = in_form(alloc, asked.der, payload)?;
    Ok(Some(Remarked {
        out,
        remarks,
        status,
    }))
}

/// The octets, or a frame that holds them where a sender or a receiver is asked for; none where no frame does.
fn payload(alloc: Global, asked: &Encoding, octets: Vec<u8>) -> Result<Option<Vec<u8>>, OutOfMemory>
    ensures held { IfOk result (λ found. IfSome found (λ payload. IsPayload (encoding_view asked.now).from
        (encoding_view asked.now).to (encoding_view asked.now).message octets.items payload.items)) }
    ensures none { IfOk result (λ found. found ≡ None → HasNoPayload (encoding_view asked.now).from
        (encoding_view asked.now).to (encoding_view asked.now).message octets.items) }
{
    if asked.from.is_none() && asked.to.is_none() {
        return Ok(Some(octets));
    }
    let route = Route {
        from: asked.from.unwrap_or("").as_bytes(),
        to: asked.to.unwrap_or("").as_bytes(),
        message: asked.message.as_bytes(),
    };
    frame(alloc, &route, &octets)
}

/// The octets, or hexadecimal digits and a line feed.
fn in_form(alloc: Global, der: bool, octets: Vec<u8>) -> Result<Vec<u8>, OutOfMemory>
    ensures { IfOk result (λ out. out.items ≡ in_form der octets.items) }
{
    if der {
        return Ok(octets);
    }
    let mut digits = hex::encode_upper(alloc, &octets)?.into_bytes();
    digits.push(b'\n')?;
    Ok(digits)
}

/// What is said of the value where it is none of the declared type, and the status.
fn said(
    alloc: Global,
    policy: &Policy,
    message: &str,
    ty: &Ty,
    value: &Value,
) -> Result<(Vec<u8>, u8), OutOfMemory>
    requires sound { IsTrue (is_sound (type_view ty.now)) }
    requires fits { IsTrue (fits (type_view ty.now) (value_view value.now)) }
    ensures line { IfOk result (λ p. p.0.items ≡ line_of_violation (policy_view policy.now) message.now
        (violation (type_view ty.now) (value_view value.now))) }
    ensures status { IfOk result (λ p. p.1
        ≡ violation_status (violation (type_view ty.now) (value_view value.now))) }
{
    match first_violation(ty, value) {
        Some(violation) => Ok((violation_line(alloc, policy, message, violation)?, 1)),
        None => Ok((Vec::new(alloc), 0)),
    }
}

fn violation_line(
    alloc: Global,
    policy: &Policy,
    message: &str,
    violation: Violation,
) -> Result<Vec<u8>, OutOfMemory>
    ensures { IfOk result (λ line. line.items
        ≡ line_of_violation (policy_view policy.now) message.now (Some (violation_view violation))) }
{
    let route = Route {
        from: b"",
        to: b"",
        message: message.as_bytes(),
    };
    let verdict = Verdict::OutsideType(violation);
    let mut line = verdict_text(alloc, &verdict, &route, policy)?;
    line.push(b'\n')?;
    Ok(line)
}
