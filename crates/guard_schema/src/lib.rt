//! Schemas: from the texts of modules to sound types by their names, or to the first fault of the texts.
//!
//! | question | code | definition |
//! |---|---|---|
//! | Which texts denote which schema, and which types has it? | `schema.rt` (`Schema`) | `specs/Accepts.antt`, `specs/Schemas.antt` |
//! | Which faults are there, and which comes first? | `fault.rt` | `specs/Faults.antt`, `specs/Accepts.antt` (`Denotes`), `specs/Outcomes.antt` |
//! | Which module is a text? | `texts.rt` (`read_modules`) | `specs/Texts.antt`, `specs/Accepts.antt` (`ReadsModules`) |
//! | What is known of modules, and which value does a tree denote as if it were written in one of them? | `built_modules.rt` (`BuiltModules`) | `specs/Accepts.antt` (`KnowsModules`), `specs/Known.antt` (`values_in`) |
//! | What is known where a definition is built? | `progress.rt`; where something is written: `Scope` of `guard_values` | `specs/Known.antt`, `specs/Views.antt` |
//! | What does a definition denote, each in turn? | `definitions.rt` | `specs/Building.antt` |
//! | Which constraints and defaults are filled into a type? | `finishing.rt`, `constraints.rt` | `specs/Finishing.antt` |
//! | What are a written value and a written constraint? | `readings.rt` | `specs/Readings.antt` |
//! | Which value is too long under the tags of a reference, and is a finished type sound? | `long_values.rt`, `laws.rt` | `specs/LongValues.antt`, `specs/FinishedSound.antt` |
//! | How many octets have the single values in a type's constraints at most, and which tags leave room for them? | `constraints.rt` (`Bounded`); `Noted` of `guard_constraints` | `specs/SingleValues.antt` of `guard_values`, `specs/inside/Room.antt` (private) |
//! | By what are types found? | `index.rt` (`TypeIndex`), `build.rt` | `specs/Entries.antt`, `specs/Views.antt` |
//! | How much may a schema hold? | `counting.rt` | `specs/Counting.antt` |
//! | Is there one schema, one thing known, or one fault? | `laws.rt` | `specs/OneAnswer.antt` |
//! | Is each type of a schema what its tree says, with its constraints and defaults filled in? | `laws.rt` | `specs/EachType.antt`, `specs/Unfinished.antt` |
//! | How does the code fill a type, component by component, and what does it know of it before? | `finishing.rt` | `specs/inside/InTurn.antt`, `specs/inside/Ready.antt` (private) |
#![tactic(auto)]

mod build;
mod built_modules;
mod constraints;
mod counting;
mod definitions;
mod fault;
mod finishing;
mod index;
pub mod laws;
mod long_values;
mod progress;
mod readings;
mod schema;
mod texts;

pub use built_modules::BuiltModules;
pub use fault::SchemaFault;
pub use schema::Schema;
pub use texts::read_modules;
