//! Constraints: which constraint a tree of the notation denotes on its type (X.680 49 to 51), or the first fault; and
//! sets of integers, by the name of `guard_integers`.
//!
//! | question | file |
//! |---|---|
//! | what does `constraint` promise | `written.rt`, `specs/Denotes.antt`, `specs/FirstFault.antt`; that a tree denotes one constraint at most, has one first fault at most, and never both: `laws.rt` |
//! | which element applies to which kind | `specs/Applies.antt`, `kinds.rt` |
//! | what stands at a fault's site | `specs/Conditions.antt` |
//! | what is a fault, and how does it print | `specs/Faults.antt`, in WITH COMPONENTS `specs/PartFaults.antt`; `fault.rt` |
//! | which fault comes first | `specs/FirstFault.antt` |
//! | how are values read | `written_values.rt` |
//! | how are ends of ranges read | `range_ends.rt`, `specs/RangeEnds.antt` |
//! | what may be written inside FROM | `alphabets.rt`, `specs/PermittedAlphabets.antt` |
//! | what may WITH COMPONENTS list | `listed_parts.rt`, `specs/ListedParts.antt` |
//! | what do names mean | `specs/Visible.antt`, by `Scope` of `guard_values`; contained types: `contained_types.rt` |
//! | what is noted for the constraints that follow, and for references | `noted.rt`, `specs/Noted.antt` |
//! | what does the code compute, step by step | `specs/inside/Reading.antt` |
//! | which integers does a set hold | `IntSet` of `guard_integers` |
#![tactic(auto)]

mod alphabets;
mod contained_types;
mod fault;
mod joining;
mod kinds;
pub mod laws;
mod listed_parts;
mod noted;
mod range_ends;
mod written;
mod written_values;

pub use fault::ConsFault;
pub use guard_integers::IntSet;
pub use noted::Noted;
pub use written::constraint;
