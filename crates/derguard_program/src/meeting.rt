//! The program over any files, source and sinks.
ghost use Rattle.std.specs.Prelude.{◌≡◌, ◌≤◌, ◌∷◌, [], length, map, string_bytes, true, false, IfOk};
ghost use Rattle.guard_files.specs.Devices.{source_of, device_of, IsUntouched};
ghost use Rattle.guard_files.specs.Writing.{TellsNoMemory};
ghost use Rattle.guard_streams.specs.Counting.{display_of};
ghost use Rattle.guard_streams.specs.Shown.{Display};
ghost use Rattle.guard_messages.specs.Questions.{question_view};
ghost use Rattle.derguard_program.specs.Requests.{request_view, first, show};
ghost use Rattle.derguard_program.specs.Meeting.{Meets, MeetsBy, Programs, Shows, answers_lines, asks_more_than_json, is_help, version_line};
ghost use Rattle.clap.specs.Words.{kind_of};
ghost use Rattle.clap.specs.declared.error.kind.ErrorKind.TheVariants.{DisplayVersion, OutOfMemory};

use crate::joining::joined;
use crate::request::Request;
use crate::words::{VERSION, request_in};
use clap::Error;
use clap::error::ErrorKind;
use guard_authors::{check, compare, encode, test};
use guard_files::{Files, give, tell_no_memory, tell_text, write};
use guard_frames::{Sink, Source};
use guard_json::JsonLines;
use guard_messages::{Question, decide_asked, first_run, show_asked};
use guard_streams::{Board, Counters, Says, ask, mux, run};
use std::alloc::{AllocError, Global};

const JSON_NOT_ALONE: &str =
    "error: the argument '--json' cannot be used with '--explain' or '--capture'\n\nFor more information, try \
        '--help'.";

/// Does what the words ask for, the first of which is the program's name, and answers the status: 0 where all passed,
/// the policy is accepted or help was asked for; 1 where something was denied; 2 for bad words, hexadecimal digits, a
/// bad policy, bad modules or a file that can't be read; 3 where the stream or a device failed, or memory ran out. What
/// is at fault is reported on standard error, after `derguard: `. With `--json` lines are objects of JSON.
///
/// Faults are looked for in this order: the words, the hexadecimal digits, the policy's file and its top, the files of
/// the modules in listed order, the modules, the policy, the stream.
pub fn program<F: Files, S: Source, O: Sink, E: Sink, T: Says, B: Board>(
    alloc: Global,
    words: &[&str],
    files: &mut F,
    input: &mut S,
    out: &mut O,
    err: &mut E,
    system: &T,
    counters: &mut Counters<B>,
) -> u8
    ensures words { 2 ≤ length words.now
        → Programs (map (λ w. w.now) words.now) (F.told files.old) (display_of B.shown counters.old counters.new)
        (source_of S.tells S.takes S.has_failed input.old input.new)
        (device_of O.taken O.has_failed out.old out.new)
        (device_of E.taken E.has_failed err.old err.new) result }
    // Without words after the program's name it decides the messages that are built in.
    ensures alone { length words.now ≤ 1
        → Meets (F.told files.old) (display_of B.shown counters.old counters.new) first
        (source_of S.tells S.takes S.has_failed input.old input.new)
        (device_of O.taken O.has_failed out.old out.new)
        (device_of E.taken E.has_failed err.old err.new) result }
{
    if words.len() <= 1 {
        return meet(
            alloc,
            &Request::First,
            files,
            input,
            out,
            err,
            system,
            counters,
        );
    }
    let Ok(words) = joined(alloc, words) else {
        return tell_no_memory(err);
    };
    match request_in(alloc, &words) {
        Ok(asked) => meet_by(
            alloc, &asked.0, asked.1, files, input, out, err, system, counters,
        ),
        Err(e) => show(alloc, &e, out, err),
    }
}

/// Meets the request by lines as they are, or by lines as JSON, and answers the status.
fn meet_by<F: Files, S: Source, O: Sink, E: Sink, T: Says, B: Board>(
    alloc: Global,
    request: &Request,
    json: bool,
    files: &mut F,
    input: &mut S,
    out: &mut O,
    err: &mut E,
    system: &T,
    counters: &mut Counters<B>,
) -> u8
    ensures { MeetsBy json (F.told files.old) (display_of B.shown counters.old counters.new) (request_view request.now)
        (source_of S.tells S.takes S.has_failed input.old input.new)
        (device_of O.taken O.has_failed out.old out.new)
        (device_of E.taken E.has_failed err.old err.new) result }
{
    if json {
        meet_as_json(alloc, request, files, input, out, err, system, counters)
    } else {
        meet(alloc, request, files, input, out, err, system, counters)
    }
}

/// Meets the request, and answers the status. Each line is JSON, those of standard error and those of standard output,
/// where it is lines.
fn meet_as_json<F: Files, S: Source, O: Sink, E: Sink, T: Says, B: Board>(
    alloc: Global,
    request: &Request,
    files: &mut F,
    input: &mut S,
    out: &mut O,
    err: &mut E,
    system: &T,
    counters: &mut Counters<B>,
) -> u8
    ensures { MeetsBy true (F.told files.old) (display_of B.shown counters.old counters.new) (request_view request.now)
        (source_of S.tells S.takes S.has_failed input.old input.new)
        (device_of O.taken O.has_failed out.old out.new)
        (device_of E.taken E.has_failed err.old err.new) result }
{
    let mut lines = JsonLines::new(alloc, err);
    if answers_lines(request) {
        let mut answers = JsonLines::new(alloc, out);
        let status = meet(
            alloc,
            request,
            files,
            input,
            &mut answers,
            &mut lines,
            system,
            counters,
        );
        let _out = answers.into_sink();
        let _err = lines.into_sink();
        return status;
    }
    let status = meet(
        alloc, request, files, input, out, &mut lines, system, counters,
    );
    let _err = lines.into_sink();
    status
}

/// Whether its standard output is lines, and not frames, records or a value.
fn answers_lines(request: &Request) -> bool
    ensures { result ≡ answers_lines (request_view request.now) }
{
    !matches!(
        request,
        Request::Show(_) | Request::Encode(_) | Request::Run { .. } | Request::Mux { .. }
    )
}

/// Meets the request, and answers the status.
pub fn meet<F: Files, S: Source, O: Sink, E: Sink, T: Says, B: Board>(
    alloc: Global,
    request: &Request,
    files: &mut F,
    input: &mut S,
    out: &mut O,
    err: &mut E,
    system: &T,
    counters: &mut Counters<B>,
) -> u8
    ensures { Meets (F.told files.old) (display_of B.shown counters.old counters.new) (request_view request.now)
        (source_of S.tells S.takes S.has_failed input.old input.new)
        (device_of O.taken O.has_failed out.old out.new)
        (device_of E.taken E.has_failed err.old err.new) result }
{
    match request {
        Request::First => give(alloc, first_run(alloc), out, err),
        Request::Check(asked) => check(alloc, asked, files, out, err),
        Request::Decide(question) => decide_asked(alloc, question, files, input, out, err),
        Request::Show(question) => show_one(alloc, question, files, input, out, err),
        Request::Encode(asked) => encode(alloc, asked, files, input, out, err),
        Request::Test(asked) => test(alloc, asked, files, out, err),
        Request::Compare(asked) => compare(alloc, asked, files, input, out, err),
        Request::Run {
            policy,
            verbose,
            counts,
        } => run(
            alloc, policy, *verbose, *counts, files, input, out, err, system, counters,
        ),
        Request::Ask { policy } => ask(alloc, policy, files, input, out, err),
        Request::Mux {
            policy,
            verbose,
            counts,
        } => mux(
            alloc, policy, *verbose, *counts, files, input, out, err, system, counters,
        ),
    }
}

/// Shows the value of one message. As JSON it is shown alone, without the parts before a breach and without its frame.
fn show_one<F: Files, S: Source, O: Sink, E: Sink>(
    alloc: Global,
    question: &Question,
    files: &mut F,
    input: &mut S,
    out: &mut O,
    err: &mut E,
) -> u8
    ensures { (shows : Display) → Meets (F.told files.old) shows (show (question_view question.now))
        (source_of S.tells S.takes S.has_failed input.old input.new)
        (device_of O.taken O.has_failed out.old out.new)
        (device_of E.taken E.has_failed err.old err.new) result }
{
    if asks_more_than_json(question) {
        tell_text(alloc, JSON_NOT_ALONE, 2, err)
    } else {
        show_asked(alloc, question, files, input, out, err)
    }
}

/// Whether more is asked than the value as JSON.
fn asks_more_than_json(question: &Question) -> bool
    ensures { result ≡ asks_more_than_json (question_view question.now) }
{
    question.json && (question.explain || question.capture)
}

/// Shows what `clap` says of the words: help and the version on standard output, with status 0, and what is wrong with
/// them on standard error, with status 2.
fn show<O: Sink, E: Sink>(alloc: Global, said: &Error, out: &mut O, err: &mut E) -> u8
    ensures shown { Shows (kind_of said.now ∷ []) (device_of O.taken O.has_failed out.old out.new)
        (device_of E.taken E.has_failed err.old err.new) result }
    ensures memory { kind_of said.now ≡ OutOfMemory → IsUntouched (device_of O.taken O.has_failed out.old out.new)
        × TellsNoMemory (device_of E.taken E.has_failed err.old err.new) result }
{
    if is_no_memory(said.kind()) {
        return tell_no_memory(err);
    }
    let Ok(text) = text_of(alloc, said) else {
        return tell_no_memory(err);
    };
    if is_help(said.kind()) {
        write(text.as_bytes(), 0, out, err)
    } else {
        tell_text(alloc, text.trim_end(), 2, err)
    }
}

/// What is shown of the words. The version is the program's own text, all else is that of `clap`.
fn text_of(alloc: Global, said: &Error) -> Result<String, AllocError>
    ensures { IfOk result (λ text. kind_of said.now ≡ DisplayVersion → string_bytes text ≡ version_line) }
{
    if is_version(said.kind()) {
        return format!(in alloc; "derguard {VERSION}\n");
    }
    format!(in alloc; "{said}")
}

fn is_version(said: ErrorKind) -> bool
    ensures yes { result ≡ true → said ≡ DisplayVersion }
    ensures no { result ≡ false → said ≡ DisplayVersion → ⊥ }
{
    matches!(said, ErrorKind::DisplayVersion)
}

fn is_help(said: ErrorKind) -> bool
    ensures { result ≡ is_help said }
{
    matches!(said, ErrorKind::DisplayHelp | ErrorKind::DisplayVersion)
}

fn is_no_memory(said: ErrorKind) -> bool
    ensures yes { result ≡ true → said ≡ OutOfMemory }
    ensures no { result ≡ false → said ≡ OutOfMemory → ⊥ }
{
    matches!(said, ErrorKind::OutOfMemory)
}
