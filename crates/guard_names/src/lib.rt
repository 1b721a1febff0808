//! What the names in modules mean (X.680 13.1): of a list of modules, which definition each name in them is the name
//! of, and in which order each definition comes after all that it uses; or the first of the faults by which a name
//! means nothing.
//!
//! | question | code | definition |
//! |---|---|---|
//! | What does a name mean in a module? | `names.rt` (`Names`) | `specs/Meanings.antt` |
//! | In which order do definitions come? | `names.rt` | `specs/Order.antt` |
//! | In which place of the order is a definition? | `names.rt` | `specs/Places.antt` |
//! | Have the names of modules a fault, and which is the first? | `resolution.rt`, `fault.rt` | `specs/Faults.antt` |
//! | Which names does a module declare and export? | `declarations.rt`, `exports.rt` | `specs/Declarations.antt` |
//! | Where does a name come from, and what does it mean? | `table.rt`, `meanings.rt` | `specs/Declarations.antt` |
//! | By which number are the names in a module looked up? | `declarations.rt` (`Home`), `meanings.rt` (`Within`) | `specs/TableViews.antt` |
//! | Is what is imported there, assigned and exported? | `checks.rt` | `specs/Faults.antt` |
//! | Which names does an assignment mention? | `mentions.rt` | `specs/Mentions.antt` |
//! | Which definitions does a definition use? | `uses.rt` | `specs/Meanings.antt` |
//! | Which name is undefined? | `uses.rt` | `specs/Faults.antt` |
//! | Which definition is the next whose uses are all listed? | `order.rt` | `specs/Order.antt` |
//! | Which definition is the first that uses itself? | `recursion.rt` | `specs/Order.antt` |
//! | Does a name mean the same when modules are added? | `laws.rt` | `specs/Meanings.antt` |
//! | Is there one order, one first fault? | `laws.rt` | `specs/Order.antt`, `specs/Faults.antt` |
#![tactic(auto)]

mod checks;
mod declarations;
mod exports;
mod fault;
pub mod laws;
mod meanings;
mod mentions;
mod names;
mod order;
mod recursion;
mod resolution;
mod table;
mod uses;

pub use declarations::Id;
pub use fault::NameFault;
pub use names::Names;
pub use resolution::resolve;
