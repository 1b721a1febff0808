//! The files of rows on policies and streams, in the order in which they are tried.
use crate::links::Links;
use crate::policies::Policies;
use crate::reports::Reports;
use crate::streams::Streams;
use crate::text_streams::TextStreams;
use crate::verdicts::Verdicts;
use conformance_rows::{Tally, check_files};
use std::io;
use std::rt::Files;

/// Tries the rows of all of them, and adds them to the tally.
pub fn try_rows<R: Files + Print + AllocGlobal>(rt: &R, tally: &mut Tally) -> io::Result<()> {
    try_policies(rt, tally)?;
    try_streams(rt, tally)
}

/// Policies, verdicts and their texts.
fn try_policies<R: Files + Print + AllocGlobal>(rt: &R, tally: &mut Tally) -> io::Result<()> {
    check_files::<R, Policies>(
        rt,
        tally,
        &[
            "policy/documents.rows",
            "policy/messages.rows",
            "policy/rules.rows",
            "policy/tables.rows",
            "policy/module_files.rows",
            "policy/plain_routes.rows",
        ],
    )?;
    check_files::<R, Verdicts>(
        rt,
        tally,
        &[
            "policy/verdicts/order_of_reasons.rows",
            "policy/verdicts/built_in.rows",
            "policy/verdicts/prefixes.rows",
            "policy/verdicts/orders.rows",
            "policy/verdicts/any_sender.rows",
            "policy/verdicts/named_bits.rows",
            "policy/verdicts/wider_rule.rows",
            "policy/verdicts/many_ranges.rows",
            "policy/verdicts/outside.rows",
            "policy/verdicts/outside_named_bits.rows",
        ],
    )?;
    check_files::<R, Reports>(rt, tally, &["report/texts_of_verdicts.rows"])
}

/// Streams of frames, and many links.
fn try_streams<R: Files + Print + AllocGlobal>(rt: &R, tally: &mut Tally) -> io::Result<()> {
    check_files::<R, Streams>(
        rt,
        tally,
        &[
            "frames/streams.rows",
            "frames/bodies.rows",
            "frames/long_bodies.rows",
            "frames/pieces.rows",
            "frames/failing_devices.rows",
            "frames/one_link.rows",
            "frames/under_a_policy.rows",
            "frames/arrays.rows",
        ],
    )?;
    check_files::<R, TextStreams>(rt, tally, &["frames/texts.rows"])?;
    check_files::<R, Links>(rt, tally, &["frames/many_links.rows"])
}
