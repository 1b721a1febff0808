//! Written values: which value a tree of the notation denotes under its type (X.680 clause 17), or the first fault.
//!
//! | question | code | definition |
//! |---|---|---|
//! | Which value does a tree denote, and why none? | `values.rt` (`value`, `shared_value`, `shared_value_in`), `fault.rt` | `specs/Denotes.antt`, `specs/Conditions.antt` (what stands at a fault's site), `specs/Faults.antt`, `specs/FirstFault.antt` |
//! | What do visible names mean where something is written? | `scope.rt` (`Known`, `Scope`, `ModuleScope`) | `specs/Views.antt`, `specs/KeptLengths.antt` (what is kept beside known values), `specs/SingleValues.antt` (beside known types) |
//! | How are trees read by their types? | `written.rt` | `specs/inside/Reading.antt` |
//! | What do names in braces say for a BIT STRING, and where do its values end? | `named_bits.rt` | `specs/NamedBits.antt` |
//! | What do forms without a value inside say? | `simple.rt`, `strings.rt` (`quoted`), `object_identifiers.rt`, `names.rt` | `specs/Simple.antt` |
//! | For which component is an entry, and what are those without one? | `components.rt` (`located`) | `specs/Places.antt` |
//! | How many elements may there be, and in which order does a SET OF have them? | `elements.rt`, `arrangement.rt` | `specs/Arrangement.antt` |
//! | How many octets has the encoding of what is read? | `lengths.rt` | `specs/inside/Lengths.antt` |
//! | Is there one value, in whatever order a SET OF is written? | `laws.rt` | `specs/Denotes.antt` |
#![tactic(auto)]

mod arrangement;
mod components;
mod elements;
mod fault;
pub mod laws;
mod lengths;
mod named_bits;
mod names;
mod object_identifiers;
mod scope;
mod simple;
mod strings;
mod values;
mod written;

pub use components::located;
pub use fault::ValueFault;
pub use scope::{Known, KnownValue, Scope, VisibleValue};
pub use strings::quoted;
pub use values::{shared_value, shared_value_in, value};
