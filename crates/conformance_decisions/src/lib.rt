//! Answers to rows on policies and streams: what the text of a policy says, which verdict a message gets, how that is
//! reported, and what comes of frames on one link and on many.
//!
//! | folder of rows | what answers them |
//! |---|---|
//! | `policy` | `policies.rt`, of verdicts `verdicts.rt` |
//! | `report` | `reports.rt`, `written_verdicts.rt` |
//! | `frames` | `streams.rt`, `text_streams.rt`, `links.rt`, `link_orders.rt`, `arrays.rt` |
//!
//! Sources and sinks are those of `devices.rt`, and sinks that take no memory those of `arrays.rt`. Whether a message
//! goes just where its verdict is to pass is tried on the rows of policies and frames by `passing.rt`. All files of rows
//! are in `files.rt`, and those that are tried in this second way in `walked.rt`.
#![tactic(auto)]

mod arrays;
mod devices;
mod files;
mod link_orders;
mod links;
mod passing;
mod policies;
mod reports;
mod streams;
mod text_streams;
mod verdicts;
mod walked;
mod written_verdicts;

pub use devices::{Pieces, Room};
pub use files::try_rows;
pub use walked::try_walks;
