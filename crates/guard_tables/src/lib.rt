//! Tables: the types by which messages of one name are judged.
//!
//! | question | code | definition |
//! |---|---|---|
//! | What is a table, and which types make one? | `table.rt` (`Table::compile`) | `TableView.antt`, `Tables.antt` |
//! | Why do types make none, and which reason comes first? | `fault.rt` | `Tables.antt` |
//! | Which types does a table keep? | `kept_types.rt`, each once `sharing.rt` | `SharedTypes.antt`, `Sharing.antt` |
//! | How many conditions has a node, and how many are too many? | `conditions.rt` | `Conditions.antt`, `Counting.antt` |
//! | At which nodes is that looked at, and which is the first with too many? | `nodes.rt` (`crowded_node`) | `Conditions.antt`, `Search.antt` |
//! | Which slots have failed? | `slots.rt` | `Slots.antt` |
//! | How are the nodes of a table put together? | `layout.rt` (`lay_nodes`) | `Lay.antt` |
//! | By which steps? | `assembly.rt` | `Assembled.antt`, `Bare.antt`, `Aside.antt` |
//! | What is a node before it is with the others? | `new_nodes.rt`, `kinds_of_nodes.rt`, `identifiers.rt` | `Lay.antt` |
//! | Do the components of a type ascend by their tags? | `ascending.rt` | `TableNodes.antt` (`ascend`), `Ascending.antt` |
//! | Which tests has a node? | `conditions_at_node.rt`, octets `encoded.rt` | `Lay.antt` |
//! | What is said of a component beside its type? | `sides.rt` | `Lay.antt`, `SideViews.antt` |
//! | What fails for a number? | `conditions_list.rt` (`Conditions::failed_at`) | `Marking.antt` |
//! | And of many conditions on one number? | `segments.rt` | `Segments.antt` |
//! | Which numbers fail nothing at a node? | `plain_interval.rt` | `TableNodes.antt` (`IsFree`), `Intervals.antt` |
//! | What do nodes stand for? | `laws.rt` | `Plan.antt`, `Formulas.antt` |
//! | What fails at a value? | `laws.rt` | `Marking.antt`, `Laws.antt` |
//! | For which types does a plan stand, for which a table's nodes? | `table.rt` | `Standing.antt`, `StandsFor.antt` |
//! | Which nodes are there? | `node.rt` | `NodeViews.antt` |
//! | What keeps them in order? | `node_list.rt` | `TableNodes.antt`, `NodesView.antt` |
//! | Which terms and formulas of one node ask what types and constraints ask? | `laws.rt` | `Demands.antt`, `Forms.antt` |
//! | Which plan asks all of it, how many slots does a node need? | `laws.rt` | `Lay.antt`, `OfParts.antt`, `Laws.antt` |
//! | What is asked at a node, in code? | `demands.rt` | `DemandViews.antt` |
//! | To which terms do the parts of a type and of WITH COMPONENTS come? | `parts.rt` | `Terms.antt`, `OnePart.antt` |
//! | To which terms and formulas does a demand come? | `formulas.rt`, `form_trees.rt` | `Forms.antt`, `FormViews.antt` |
//! | And all that is asked at a node? | `demands_at_node.rt` | `Forms.antt` |
//! | What do the terms of a node ask of each of its parts? | `demands_of_parts.rt` | `OfParts.antt`, `DemandsOfParts.antt` |
//! | And of a part's presence? | `demands_of_parts.rt` | `Lay.antt` |
//! | Which sizes and characters? | `simple_tests.rt` | `Lay.antt` |
//! | How are permitted characters kept? | `alphabet.rt` | `Alphabets.antt` |
//! | And the items of an ENUMERATED? | `items.rt` | `Items.antt` |
//!
//! The definitions are in `specs/`; what only private contracts cite is in `specs/inside/`.
#![tactic(auto)]

mod alphabet;
mod ascending;
mod assembly;
mod conditions;
mod conditions_at_node;
mod conditions_list;
mod demands;
mod demands_at_node;
mod demands_of_parts;
mod encoded;
mod fault;
mod form_trees;
mod formulas;
mod identifiers;
mod items;
mod kept_types;
mod kinds_of_nodes;
pub mod laws;
mod layout;
mod new_nodes;
mod node;
mod node_list;
mod nodes;
mod parts;
mod plain_interval;
mod segments;
mod sharing;
mod sides;
mod simple_tests;
mod slots;
mod table;

pub use alphabet::Alphabet;
pub use conditions::conditions_at;
pub use conditions_list::Conditions;
pub use demands::Demand;
pub use fault::TableFault;
pub use items::Items;
pub use node::{Cold, Condition, Form, Hot, Implication, Kind, Need, SimpleKind, Test};
pub use node_list::Nodes;
pub use nodes::crowded_node;
pub use slots::Slots;
pub use table::Table;
