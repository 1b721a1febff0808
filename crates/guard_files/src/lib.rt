//! What the commands have in common: the texts of a policy and its modules from files, faults and answers and
//! how they go out, records and frames that are read from a source, and the rules that allow a message.
//!
//! | question | code | definition |
//! |---|---|---|
//! | Which policy is at a path? | `loading.rt` | `specs/Reading.antt` |
//! | What is an answer, and how is it given? | `answer.rt`, `giving.rt` | `specs/Answers.antt` |
//! | How is a frame read? | `frames.rt` | `specs/NextFrame.antt` |
//! | What is a record, and how is it read? | `records.rt` | `specs/Records.antt`, `specs/Headers.antt` |
//! | Why aren't records taken to their end? | `stop.rt` | `specs/Headers.antt` (`IsNone`) |
//! | Which link does a word mean? | `records.rt` (`link_in`) | `specs/Records.antt` (`IsLink`) |
//! | Which texts does a policy at a path need? | `texts.rt`, `files.rt` | `specs/Reading.antt`, `specs/Files.antt` |
//! | Which number have the texts of a policy? | `digest.rt` | `specs/Digest.antt` |
//! | What is a policy with its modules, in which values are written? | `loaded.rt` | `specs/Reading.antt` (`SayLoaded`) |
//! | What is shown of a fault where it is to be explained? | `explaining.rt`, `guard_notes` | `specs/Explaining.antt` |
//! | Which rules allow the value of a message? | `allowed.rt` | `specs/Allowed.antt` |
//! | How is a rule written? | `rule_text.rt` | `specs/RuleText.antt` |
//! | How are lines added to a text, and octets dropped? | `octets.rt` | none; its contracts say it |
//! | What is the first word of a text? | `word.rt` | `specs/Word.antt` |
//! | What is all that a source gives? | `intake.rt` | `specs/Intake.antt` |
//! | Which line and status has a fault? | `fault.rt`, `outputs.rt` | `specs/Faults.antt`, `specs/Writing.antt` |
//! | What is written of an answer with remarks? | `outputs.rt` | `specs/Remarked.antt` |
#![tactic(auto)]

mod allowed;
mod answer;
mod digest;
mod explaining;
mod fault;
mod files;
mod frames;
mod giving;
mod intake;
mod loaded;
mod loading;
mod octets;
mod outputs;
mod records;
mod rule_text;
mod stop;
mod texts;
mod word;

pub use allowed::{Allowed, allowing_octets, value_of};
pub use answer::{Answer, Remarked};
pub use explaining::{Refusal, sources_of};
pub use fault::Fault;
pub use files::{Files, FilesFault, Obstacle};
pub use frames::{new_frame_room, next_frame};
pub use giving::give;
pub use guard_report::add;
pub use intake::read_all;
pub use loaded::Loaded;
pub use loading::{load, load_noted, load_numbered};
pub use octets::{add_line, drop_front};
pub use outputs::{
    FAILED, report, tell, tell_bad_record, tell_failed_read, tell_failed_write, tell_line,
    tell_no_memory, tell_text, tell_with, write, write_remarked,
};
pub use records::{Header, LINKS, LONGEST_PIECE, link_in, new_room, next_record, size_of_link};
pub use rule_text::add_said;
pub use stop::Stop;
pub use texts::{Texts, read, read_front};
pub use word::first_word;
