//! What all layers of the guard use: tags, values and types, places in texts and in values, and the limits of this
//! profile. It reads and writes nothing.
//!
//! | question | file |
//! |---|---|
//! | what is a type, a constraint, a value | `ty.rt`, `value.rt` |
//! | what are they to the definitions | `specs/AbstractType.antt`, `specs/AbstractValue.antt` |
//! | which abstract type or value is one of the code | `specs/TypeView.antt`, `specs/ValueView.antt` |
//! | when are two values the same | `same.rt`, `specs/Same.antt` |
//! | when are two types the same | `same_base.rt`, `specs/SameType.antt` |
//! | when have they the same base | `same_base.rt`, `specs/SameBase.antt` |
//! | which number has a name in a list | `named_list.rt`, `specs/NamedLists.antt` |
//! | what is inside a kind | `kinds.rt`, `specs/Kinds.antt`, `specs/Components.antt` |
//! | which elements of constraints apply to a kind | `kinds.rt`, `specs/Kinds.antt` |
//! | how is a value or type copied | `copying.rt` |
//! | what has a slot for each component | `slots.rt`, `specs/Slots.antt` |
//! | which tag comes first | `tag.rt`, `specs/Tags.antt` |
//! | which characters may a string have | `alphabet.rt`, `specs/Alphabets.antt` |
//! | what is too many or too deep | `limits.rt`, `specs/Limits.antt` |
//! | where is something, and how is that printed | `site.rt` |
//! | what a call answers where memory runs out | `memory.rt`; in contracts `specs/Answer.antt` |
//! | a lemma of answers, tests, loops | `proofs/Results.antt`, `Options.antt`, `Tests.antt`, `Loops.antt` |
//! | a lemma of tags, types, values | `proofs/Tags.antt`, `TypeViews.antt`, `ValueViews.antt`, `Components.antt` |
#![tactic(auto)]

mod alphabet;
mod copying;
mod kinds;
mod limits;
mod memory;
mod named_list;
mod same;
mod same_base;
mod site;
mod slots;
mod tag;
mod ty;
mod value;

pub use limits::{DEEPEST_NESTING, GREATEST_TAG_NUMBER, MOST_COMPONENTS, MOST_ITEMS, MOST_MODULES};
pub use memory::OutOfMemory;
pub use named_list::NamedList;
pub use site::{Path, PathText, Site, Step};
pub use slots::{absent_fields, set_field};
pub use tag::{Class, Tag, are_same_tags};
pub use ty::{CharKind, Comp, Cons, Kind, Limit, Named, Part, Presence, Rule, Ty, Word};
pub use value::{Bits, Value};
