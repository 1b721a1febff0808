//! What is said below the line of a fault where it is to be explained, by the fault and the text that it is in.
//!
//! | question | code | definition |
//! |---|---|---|
//! | What comes after the line of a fault? | `explaining.rt` (`explain_schema`, `explain_policy`) | `specs/Explaining.antt` |
//! | Where is each numbered fault? | `notes.rt` | `specs/Notes.antt` |
//! | Which words say what to do? | `advice.rt`, `policy_advice.rt`, of forms that are left out `left_out.rt` | none; rows show most of them |
//! | Of which part is too much asked? | `crowding.rt` | none, rows show it |
//! | How is a place shown? | `sources.rt` | `specs/Sources.antt` |
//! | How is a line shown with a mark under a column? | `marking.rt` | `specs/Marking.antt` |
//! | What are the lines of a text? | `lines.rt` | `specs/Lines.antt` |
//! | What more is said of a policy's fault? | `policy_notes.rt` | `specs/PolicyNotes.antt` |
//! | On which line does an entry of a policy begin? | `headers.rt` | `specs/PolicyNotes.antt` (`line_of`) |
//! | What is a character at which no token begins? | `text_notes.rt` | `specs/TextNotes.antt` |
//! | What may come where the grammar goes no further? | `syntax_notes.rt` | `specs/SyntaxNotes.antt` |
//! | What do components share that tags don't tell apart? | `clash_notes.rt` | `specs/ClashNotes.antt` |
//! | Which name is near to one that means nothing? | `token_notes.rt` | `specs/TokenNotes.antt` |
#![tactic(auto)]

mod advice;
mod clash_notes;
mod crowding;
mod explaining;
mod headers;
mod left_out;
mod lines;
mod marking;
mod notes;
mod policy_advice;
mod policy_notes;
mod sources;
mod syntax_notes;
mod text_notes;
mod token_notes;

pub use explaining::{explain_policy, explain_schema};
pub use lines::{first_line, line_end};
pub use marking::columns;
pub use notes::{Place, schema_place};
pub use sources::{Sources, beside, place_lines};
