//! Tries the calls on types and values that no text gives, on rows in the files of `data/`: tags, types that aren't
//! sound, tags that clash, values that don't fit or are longer than a text, members of types whose defaults are none,
//! and lists, texts and constraints on both sides of the number from which on members are found another way. How they
//! are written there is said in `notation.rt`. Whatever a text can say is tried in `conformance`.
//!
//! | rows | what answers them |
//! |---|---|
//! | `model/tags` | `tags.rt` |
//! | `model/types`, `model/values` | `alike.rt` |
//! | `tagcheck/clashes` | `clashes.rt` |
//! | `der/sound_types`, `der/fitting_values` | `sound_types.rt`, `fitting.rt` |
//! | `der/long_values` | `encoding.rt` |
//! | `eval/outside_defaults`, `eval/long_lists`, `eval/long_texts`, `eval/many_constraints` | `members.rt` |
#![tactic(auto)]

mod alike;
mod clashes;
mod encoding;
mod fitting;
mod members;
mod notation;
mod sound_types;
mod tags;
mod type_row;

use alike::Alike;
use anyhow::ensure;
use clashes::Clashes;
use conformance_rows::{Tally, check_files};
use encoding::Encoding;
use fitting::Fitting;
use guard_model::{Ty, Value};
use members::Members;
use sound_types::SoundTypes;
use std::io;
use std::rt::Files;
use tags::Tags;

fn main(rt: HostRuntime) -> anyhow::Result<()> {
    let mut tally = Tally::new();
    try_model(&rt, &mut tally)?;
    try_types(&rt, &mut tally)?;
    try_values(&rt, &mut tally)?;
    let as_expected = tally.close(&rt)?;
    ensure!(as_expected, "a row has another answer");
    Ok(())
}

/// The order of tags, and which types and values are alike.
fn try_model<R: Files + Print + AllocGlobal>(rt: &R, tally: &mut Tally) -> io::Result<()> {
    check_files::<R, Tags>(rt, tally, &["model/tags.rows"])?;
    check_files::<R, Alike<Ty>>(rt, tally, &["model/types.rows"])?;
    check_files::<R, Alike<Value>>(rt, tally, &["model/values.rows"])
}

/// Whether tags tell the parts of types apart, and whether types are sound.
fn try_types<R: Files + Print + AllocGlobal>(rt: &R, tally: &mut Tally) -> io::Result<()> {
    check_files::<R, Clashes>(rt, tally, &["tagcheck/clashes.rows"])?;
    check_files::<R, SoundTypes>(rt, tally, &["der/sound_types.rows"])
}

/// Which values fit a type, the encodings of long ones, and members.
fn try_values<R: Files + Print + AllocGlobal>(rt: &R, tally: &mut Tally) -> io::Result<()> {
    check_files::<R, Fitting>(rt, tally, &["der/fitting_values.rows"])?;
    check_files::<R, Encoding>(rt, tally, &["der/long_values.rows"])?;
    check_files::<R, Members>(
        rt,
        tally,
        &[
            "eval/outside_defaults.rows",
            "eval/long_lists.rows",
            "eval/long_texts.rows",
            "eval/many_constraints.rows",
        ],
    )
}
