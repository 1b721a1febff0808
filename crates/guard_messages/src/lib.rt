//! The commands on one message: `decide`, with what explains its verdict, and `show`. The message is written in digits,
//! kept in a file or held in a capture.
//!
//! | question | code | definition |
//! |---|---|---|
//! | What is answered to `decide`? | `deciding.rt` | `specs/Decided.antt` |
//! | Which message is `decide` or `show` asked of? | `question.rt` | `specs/Questions.antt` |
//! | How are the octets of a message found in digits, in a file or in a frame? | `finding.rt`, `numbered.rt`, `linked.rt` | `specs/Finding.antt`, `specs/Numbered.antt`, `specs/Linked.antt` |
//! | What is reported where the octets can't be had? | `unfound.rt` | `specs/Finding.antt` |
//! | What is answered to `decide` or `show`, wherever the octets are? | `looking.rt`, `holding.rt` | `specs/Deciding.antt` |
//! | What is shown of a message? | `values.rt` | `specs/Shown.antt` |
//! | How is a value written as JSON? | `value_json.rt` | `specs/ValueJson.antt` |
//! | Which parts of a message stand whole before its breach? | `parts_before.rt` | `specs/PartsBefore.antt` |
//! | What is shown below a verdict where it is to be explained? | `reasons.rt` | `specs/Reasons.antt` |
//! | Which names stand in a frame, and why not the next one? | `header_notes.rt` | `specs/HeaderNotes.antt` |
//! | Which rules has a message? | `message_rules.rt` | `specs/Reasons.antt` |
//! | Which type has a rule, and where is it assigned? | `rule_types.rt` | `specs/RuleTypes.antt` |
//! | Which policy is built in? | `built_in.rt` | `specs/FirstRun.antt` |
//! | What is printed for its messages? | `built_in.rt` | `specs/Printing.antt` |
#![tactic(auto)]

mod built_in;
mod deciding;
mod finding;
mod header_notes;
mod holding;
mod linked;
mod looking;
mod message_rules;
mod numbered;
mod parts_before;
mod question;
mod reasons;
mod rule_types;
mod unfound;
mod value_json;
mod values;

pub use built_in::first_run;
pub use looking::{decide_asked, show_asked};
pub use question::Question;
