//! Reading octets by a table, in one pass and without memory.
//!
//! All kinds are read, with tags of any number, each but the last explicit, and CHOICE without one.
//!
//! | question | code | definition |
//! |---|---|---|
//! | What fails at an encoded value? | `walking.rt` (`failures`), by kind `walking/` | `specs/Judging.antt` |
//! | Which numbers fail nothing, so that they are passed over? | `plain.rt` | `specs/inside/Answers.antt` |
//! | Is an element of a node at the front of octets? | `element_fronts.rt`, lengths `header.rt` | `specs/Fronts.antt` |
//! | Which tag is the outermost, is it spelled there? | `layers.rt`, `high_tags.rt` | `specs/inside/FrontViews.antt` |
//! | Components of a SET that don't ascend: which is next? | `set_members.rt` | `specs/inside/Members.antt`, `specs/inside/Ranks.antt` |
//! | Does an element of a SET OF descend to the next? | `order.rt` | of `guard_der` `specs/Fits.antt` (`descends`) |
//! | Which contents octets are lawful? | `contents.rt`, `object_id.rt` | of `guard_der` `specs/Simple.antt` |
//! | What fails at their value? | `simple.rt` | `specs/Judging.antt` |
//! | What is asked of a value that has parts as a whole? | `whole.rt` | `specs/Judging.antt` |
//! | Is it a default, and what do formulas say? | `conditions.rt` | of `guard_tables` `specs/Formulas.antt` |
//! | Which types of a table have the value? | `table_walk.rt` (`walk`), `marks.rt` | `specs/Marking.antt` |
//! | Does each octet lie in one of some ranges? | `alphabet.rt` (`all_in`) | of `guard_eval` `specs/Elements.antt` |
//! | Are octets UTF-8, of how many characters? | `texts.rt` | of std `is_utf8`, `chars`; `specs/inside/Firsts.antt` |
//! | Are octets characters that FROM permits? | `kind_alphabets.rt` | of `guard_model` `specs/Alphabets.antt` |
//! | What does a pass tell? | `laws.rt` | `specs/Laws.antt` |
#![tactic(auto)]

mod alphabet;
mod conditions;
mod contents;
mod element_fronts;
mod header;
mod high_tags;
mod kind_alphabets;
pub mod laws;
mod layers;
mod marks;
mod object_id;
mod order;
mod plain;
mod set_members;
mod simple;
mod table_walk;
mod texts;
mod walking;
mod whole;

pub use alphabet::all_in;
pub use marks::Marks;
pub use table_walk::walk;
