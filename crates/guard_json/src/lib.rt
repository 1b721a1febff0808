//! The lines of the program as JSON, for machines: one object a line, with the line itself and its fields.
//!
//! | question | code | definition |
//! |---|---|---|
//! | What object does a line become? | `object.rt` (`json_line`) | `specs/Objects.antt` |
//! | Which members has it? | `members.rt`, `verdicts.rt`, `draft.rt` | `specs/Members.antt` |
//! | What forms of lines and verdicts are there? | `kinds.rt` | `specs/Kinds.antt` |
//! | How is a line cut, and what is a number in it? | `cutting.rt` | `specs/Cutting.antt` |
//! | What comes of plain lines, however they are put? | `lines.rt` (`JsonLines`) | `specs/Objects.antt` (`json_text`) |
//! | What is known of the sink behind? | `lines.rt`, `laws.rt` | `specs/Taken.antt` |
#![tactic(auto)]

mod cutting;
mod draft;
mod kinds;
pub mod laws;
mod lines;
mod members;
mod object;
mod verdicts;

pub use lines::JsonLines;
pub use object::json_line;
