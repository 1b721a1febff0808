//! From a written type to its tags, its parts and their numbering.
//!
//! | question | code | definition |
//! |---|---|---|
//! | Which type has a definition? | `definition.rt` | `specs/Skeletons.antt` |
//! | Which type does a written type denote? | `walk.rt` | `specs/Types.antt`, `specs/inside/ReadTypes.antt` |
//! | Which parts does a written list have? | `parts.rt` | `specs/Types.antt`, `specs/inside/ReadParts.antt` |
//! | What is a type of each kind made of? | `base.rt` | `specs/Types.antt`, `specs/inside/ReadBases.antt` |
//! | Which fault is the first, and how do faults print? | `fault.rt` | `specs/Faults.antt` |
//! | Which tags does a type get from written ones? | `tags.rt` | `specs/Tagging.antt`, `specs/inside/ReadTags.antt` |
//! | Which lists are tagged automatically? | `automatic.rt` | `specs/Types.antt`, `specs/Automatic.antt` |
//! | What may COMPONENTS OF take in? | `taken.rt` | `specs/Faults.antt`, `specs/inside/ReadParts.antt` |
//! | Which numbers have items? | `numbering.rt` | `specs/Enumerations.antt`, `specs/inside/ReadItems.antt` |
//! | Which names and numbers are there twice? | `names.rt` | `specs/Faults.antt`, `specs/inside/ReadNames.antt` |
//! | What is too deep or too large? | `node.rt`, `measure.rt` | `specs/Faults.antt`, `specs/inside/ReadNodes.antt` |
//! | What does a name mean where a type is written? | `scope.rt` | `specs/Surroundings.antt`, `specs/ScopeView.antt` |
//! | Which kind and universal tag has a type? | `kinds.rt` | `specs/Types.antt` |
#![tactic(auto)]

mod automatic;
mod base;
mod definition;
mod fault;
mod kinds;
pub mod laws;
mod made;
mod measure;
mod names;
mod node;
mod numbering;
mod parts;
mod scope;
mod tags;
mod taken;
mod walk;

pub use definition::{TaggedType, skeleton, skeleton_after};
pub use fault::TagFault;
pub use measure::nodes;
pub use scope::Done;
