//! Sets of integers of signed 128 bits.
//!
//! | question | file |
//! |---|---|
//! | which integers does a set hold | `int_set.rt`, `specs/Integers.antt` |
//! | how is a set kept, and found in | `ranges.rt`, `specs/Ranges.antt` |
//! | what are the gaps and the common parts of lists of ranges | `lists.rt`, `specs/inside/Computing.antt` |
#![tactic(auto)]

mod int_set;
mod lists;
mod ranges;

pub use int_set::IntSet;
