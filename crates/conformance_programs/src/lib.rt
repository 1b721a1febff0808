//! Answers to the rows of the folder `program`: what a program does of its words, files and standard input. The program
//! is handed in, so that all this is proved before it.
//!
//! Its files are those of `memory.rt`, and its counters are shown on the board of `shelf.rt`.
#![tactic(auto)]

mod memory;
mod programs;
mod shelf;

pub use memory::Reads;
pub use programs::{Program, Told, try_rows};
pub use shelf::Shelf;
