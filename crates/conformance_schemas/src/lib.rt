//! Answers to rows on schemas and octets: what texts say of types, values and constraints, which octets are the
//! encoding of which value, who is a member, and which types of a table have the value of octets.
//!
//! | folder of rows | what answers them |
//! |---|---|
//! | `model` | of alphabets `alphabets.rt` |
//! | `tagging` | of octets `tagged_octets.rt` |
//! | `values`, `constraints` | `values.rt`, `constraints.rt` |
//! | `schema` | `schemas.rt`, `shown_types.rt`, `messages.rt` |
//! | `der` | `encoding.rt`, `decoding.rt`, `digits.rt` |
//! | `eval` | `members.rt` |
//! | `tables` | `tables.rt` |
//! | `reader` | `reader.rt` |
//!
//! The type of a group of rows is read by `typed.rt`. Whether the reader agrees with `decode` and `member` on the
//! octets of rows and on others near them is tried by `row_types.rt` and `walks.rt`. All files of these rows, and of those
//! of `conformance_texts`, are in `files.rt`, and those that are tried in the second way in `walked.rt`. How long the
//! reader takes is measured by `timing.rt`.
#![tactic(auto)]

mod alphabets;
mod constraints;
mod decoding;
mod digits;
mod encoding;
mod files;
mod members;
mod messages;
mod reader;
mod row_types;
mod schemas;
mod shown_types;
mod tables;
mod tagged_octets;
mod timing;
mod typed;
mod values;
mod walked;
mod walks;

pub use files::try_rows;
pub use timing::time_walk;
pub use walked::try_walks;
