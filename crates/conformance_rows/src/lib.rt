//! Rows: inputs with the answers that are expected of a layer, read from files and compared with what it answers.
//!
//! | question | file |
//! |---|---|
//! | which files are read, and how many rows they have in all | `tally.rt` |
//! | what the lines of a file are, and which row differs | `rows.rt` |
//! | how octets are written in a row | `escapes.rt`, in hexadecimal digits `digits.rt` |
//! | what a program says of its layer | `layer.rt` |
//! | what is before and after each text of a group of rows | `around.rt` |
//! | how several texts are written in one | `separated.rt` |
//! | whether two ways to judge octets agree, on those of rows and on others near them | `walk_files.rt`, `near.rt` |
#![tactic(auto)]

mod around;
mod digits;
mod escapes;
mod layer;
mod near;
mod rows;
mod separated;
mod tally;
mod walk_files;

pub use around::Around;
pub use digits::{in_hexadecimal, octets_in};
pub use escapes::octets_of;
pub use layer::{Layer, not_read, text_of, unknown};
pub use near::{Compared, Judges};
pub use separated::texts_of;
pub use tally::{Tally, check_files};
pub use walk_files::{Subject, walk_file};
