//! Tries all layers on rows: inputs with the answers that are expected, in the files of `data/`, where each layer has a
//! folder. Types, values and policies are read from texts. `data/README.md` says how each layer's rows are written.
//!
//! | folder | what answers its rows |
//! |---|---|
//! | `rows`, `lexer`, `syntax`, `names` | the crate `conformance_texts` |
//! | `model`, but for alphabets; `tagging`, but for octets | the crate `conformance_texts` |
//! | sets of integers in `constraints`, headers in `der` | the crate `conformance_texts` |
//! | all else of those, `values`, `schema`, `eval`, `tables`, `reader` | the crate `conformance_schemas` |
//! | `policy`, `report`, `frames` | the crate `conformance_decisions` |
//! | `program` | the crate `conformance_programs`, which has the program from here |
//!
//! Each of these crates is built on no more layers than its rows ask, and the last one, which has all files in their
//! order, on those below the program, so that they are proved before the program that they try at last. On the octets of
//! the rows of `der`, `eval`, `tagging` and `schema`, and of `policy` and `frames`, two ways to judge them are compared.
//! Files of rows are read by the crate `conformance_rows`. With words behind its name the program tries no rows, but
//! times the walk over one message, which is standard input.
#![tactic(auto)]

use anyhow::ensure;
use conformance_decisions::{Pieces, Room};
use conformance_programs::{Program, Reads, Shelf, Told};
use conformance_rows::Tally;
use conformance_schemas::time_walk;
use derguard_program::program;
use guard_streams::Counters;
use std::alloc::Global;
use std::env;
use std::io::Read;

fn main(rt: HostRuntime) -> anyhow::Result<()> {
    let words: Vec<String> = env::args(&rt)?.collect(rt.alloc())?;
    match words.as_slice() {
        [] | [_] => try_rows(&rt),
        [_, ..] => {
            let mut input = Vec::new(rt.alloc());
            rt.stdin().read_to_end(&mut input)?;
            time_walk(&rt, &words, &mut input)
        }
    }
}

/// Tries all rows, and fails where one has another answer.
fn try_rows(rt: &HostRuntime) -> anyhow::Result<()> {
    let mut tally = Tally::new();
    conformance_schemas::try_rows(rt, &mut tally)?;
    conformance_decisions::try_rows(rt, &mut tally)?;
    conformance_programs::try_rows::<HostRuntime, Derguard>(rt, &mut tally)?;
    let walk_agrees = conformance_schemas::try_walks(rt)? & conformance_decisions::try_walks(rt)?;
    let as_expected = tally.close(rt)?;
    ensure!(as_expected && walk_agrees, "a row has another answer");
    Ok(())
}

/// The program that is proved.
#[derive(Clone, Copy)]
struct Derguard;

impl Program for Derguard {
    fn new() -> Derguard {
        Derguard
    }

    fn run(
        &self,
        alloc: Global,
        words: &[&str],
        files: &mut Reads<'_, '_>,
        input: &mut Pieces<'_>,
        out: &mut Room,
        err: &mut Room,
        system: &Told,
        counters: &mut Counters<Shelf>,
    ) -> u8 {
        program(alloc, words, files, input, out, err, system, counters)
    }
}
