//! Answers to rows on texts: their tokens, their trees, what names mean, which tags types get and which integers sets
//! have. Nothing here needs a schema, so that this is proved beside it.
//!
//! | folder of rows | what answers them |
//! |---|---|
//! | `rows` | `echo.rt` |
//! | `model` | of sites, paths and faults `printed.rt` |
//! | `lexer`, `syntax` | `lexer.rt`, `syntax.rt` |
//! | `names` | `names.rt`, `answers.rt`; the large modules of `large.rt` |
//! | `tagging` | of texts `tagging.rt`, `skeletons.rt` |
//! | `constraints` | of sets of integers `int_sets.rt`, `set_trees.rt` |
//! | `der` | of headers `headers.rt` |
//!
//! Texts of modules, and values without names, are read by `texts.rt` and `asking.rt` for the crates above too, with
//! `known.rt`.
#![tactic(auto)]

mod answers;
mod asking;
mod echo;
mod headers;
mod int_sets;
mod known;
mod large;
mod lexer;
mod names;
mod printed;
mod set_trees;
mod skeletons;
mod syntax;
mod tagging;
mod texts;

pub use asking::{AsksNames, DefinedName, ask_names, defined_names};
pub use echo::Echo;
pub use headers::Headers;
pub use int_sets::IntSets;
pub use known::{are_fitting, is_value};
pub use lexer::Lexer;
pub use names::NamesRows;
pub use printed::Printed;
pub use set_trees::SetTrees;
pub use syntax::Parser;
pub use tagging::TaggingRows;
pub use texts::{TextsFault, value_of};
