//! The text of a value, as reports have it, reads back as the value.
//!
//! | question | definition |
//! |---|---|
//! | What is a text read as? | `specs/ReadingBack.antt` |
//! | Which names must a type have, which characters may a value have? | `specs/Names.antt` |
//! | Which tree has the text of a value? | `specs/inside/TreeOf.antt` |
//! | What holds? | `laws.rt`, of the types of a schema in its last two |
#![tactic(auto)]

pub mod laws;
