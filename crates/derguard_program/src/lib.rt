//! The program over any files, source and sinks: what its words ask for, and that it is met.
//!
//! | question | code | definition |
//! |---|---|---|
//! | What is a request? | `request.rt` (`Request`) | `specs/Requests.antt` |
//! | Which words are which request? Is it one? | `joining.rt`, `words.rt`, `laws.rt` | `specs/Words.antt` |
//! | Is a stream of records read in one way? | `laws.rt` | `specs/Records.antt` of `guard_files` |
//! | What does help say? | `help.rt` | rows |
//! | What is it to meet a request? | `meeting.rt` (`program`, `meet`) | `specs/Meeting.antt` |
#![tactic(auto)]

mod help;
mod joining;
pub mod laws;
mod meeting;
mod request;
mod words;

pub use meeting::program;
