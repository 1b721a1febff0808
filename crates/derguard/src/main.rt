//! The guard as a process: the program over the machine's files, standard input, standard output and standard error.
//!
//! What it does is the library `derguard_program`; where its files come from is `real_files.rt`, where counters are
//! shown is `file_board.rt`, and how its devices wait is `waiting.rt`.
#![tactic(auto)]

mod file_board;
mod noting;
mod real_files;
mod waiting;

use derguard_program::program;
use file_board::FileBoard;
use guard_files::{tell_no_memory, tell_text};
use guard_frames::{Sink, Through};
use guard_streams::Counters;
use noting::{Noting, System};
use real_files::RealFiles;
use std::alloc::{AllocError, Global};
use std::io::ErrorKind;
use std::process::ExitCode;
use std::{env, io};
use waiting::Waiting;

/// The status where the words are bad.
const BAD_WORDS: u8 = 2;

/// Does what the words of the command line ask for.
fn main(rt: HostRuntime) -> ExitCode {
    let mut err = Through::new(Waiting {
        rt: &rt,
        inner: rt.stderr(),
    });
    let status = match words_of(&rt) {
        Ok(words) => started(&rt, &words, &System::new(), &mut err),
        Err(e) if e.kind() == ErrorKind::OutOfMemory => tell_no_memory(&mut err),
        Err(_) => tell_text(rt.alloc(), "bad words", BAD_WORDS, &mut err),
    };
    ExitCode::from(status)
}

/// The words of the command line. One that isn't UTF-8 is refused.
fn words_of(rt: &HostRuntime) -> io::Result<Vec<String>> {
    Ok(env::args(rt)?.collect(rt.alloc())?)
}

fn started<E: Sink>(rt: &HostRuntime, words: &[String], system: &System, err: &mut E) -> u8 {
    let Ok(words) = texts_of(rt.alloc(), words) else {
        return tell_no_memory(err);
    };
    let mut source = Through::new(Noting {
        inner: Waiting {
            rt,
            inner: rt.stdin(),
        },
        last: &system.input,
    });
    let mut out = Through::new(Noting {
        inner: Waiting {
            rt,
            inner: rt.stdout(),
        },
        last: &system.output,
    });
    program(
        rt.alloc(),
        &words,
        &mut RealFiles {
            rt,
            last: &system.file,
        },
        &mut source,
        &mut out,
        err,
        system,
        &mut Counters::over(rt.alloc(), FileBoard::new(rt)),
    )
}

fn texts_of(alloc: Global, words: &[String]) -> Result<Vec<&str>, AllocError> {
    let mut texts = Vec::with_capacity(alloc, words.len())?;
    for word in words {
        texts.push(word.as_str())?;
    }
    Ok(texts)
}
