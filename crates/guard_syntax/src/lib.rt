//! The parser of texts (X.680): from the tokens of a module, or of a value alone, to its tree, or the first token where
//! there is none.
//!
//! The calls are [`parse`] and, of a value alone, [`parse_value`]. Each reader below takes a [`Cursor`](cursor::Cursor)
//! and answers what it read, with the cursor after it. What digits write as an integer is [`NumberTree::integer`], where
//! a text ends [`end_of`].
//!
//! | question | file |
//! |---|---|
//! | What do `parse` and `parse_value` promise? | `parser.rt`, `specs/Parses.antt`, `specs/Faults.antt` |
//! | What is a tree? | `tree.rt`; for the definitions `specs/Trees.antt`; from one to the other `specs/*Views.antt` |
//! | Which trees does the grammar allow, and how are they written? | `specs/Grammar.antt`, `specs/TokensOf.antt` |
//! | Which token is the site of a node? | `specs/Sites.antt` |
//! | How is a module read, or a value alone? | `module.rt`, `imports.rt`, `module_identifiers.rt`; `specs/inside/ReadModule.antt` |
//! | How is a type read? | `types.rt`, `tags.rt`, `named_numbers.rt`; `specs/inside/ReadTypes.antt` |
//! | How are constraints and sets read? | `sets.rt`, `joined_sets.rt`, `join_marks.rt`, `ranges.rt`; `specs/inside/ReadSets.antt` |
//! | How is a value read? | `values.rt`, `entries.rt`, `numbers.rt`; `specs/inside/ReadValues.antt` |
//! | How is one token read? | `cursor.rt`; `specs/inside/ReadTokens.antt` |
//! | Which integer is written? | `number_values.rt`; `specs/Numbers.antt` |
//! | How deep may a tree be nested? | `MOST_OTHERS` in `module.rt`, `most_levels` in `specs/Grammar.antt` |
//! | Where does a new fault go? | its text: `fault.rt`; what it names: `specs/Faults.antt` |
//! | How does a reader fail, and with which fault? | `read_error.rt`, `fault_of_failure.rt` |
//! | Why is what is read the text's tree, and the only one? | `proofs/Lib.antt` lists the lemmas in order; `laws.rt` |
#![tactic(auto)]

mod cursor;
mod entries;
mod fault;
mod fault_of_failure;
mod imports;
mod join_marks;
mod joined_sets;
pub mod laws;
mod module;
mod module_identifiers;
mod named_numbers;
mod number_values;
mod numbers;
mod parser;
mod ranges;
mod read_error;
mod sets;
mod tags;
mod tree;
mod types;
mod values;

pub use fault::{Spelling, SyntaxFault};
pub use fault_of_failure::end_of;
pub use parser::{parse, parse_value};
pub use tree::{
    AlternativeTree, ArcTree, Assignment, BaseTree, Collection, CompForm, CompTree,
    ComponentConsTree, ConsTree, DifferenceTree, ElementForm, ElementTree, EndForm, EndTree,
    EntryTree, ExportsTree, ImportTree, IntersectionTree, ItemTree, JoinMark, JoinedDifference,
    JoinedIntersection, Module, NameTree, NamedTree, NumberTree, OfConsTree, PartTree, PlainType,
    PresenceTree, PresenceWord, RangeTree, SetTree, StringKind, SymbolKind, SymbolTree, TagClass,
    TagDefault, TagMode, TagTree, TypeTree, ValueForm, ValueTree,
};
