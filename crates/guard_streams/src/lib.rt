//! The commands that guard streams: `run`, `mux` and `ask`, with notes and counters where they are asked for.
//!
//! | question | code | definition |
//! |---|---|---|
//! | What is answered to frames that ask what becomes of them? | `asking.rt`, `answering.rt` | `specs/Asking.antt`, `specs/Answered.antt` |
//! | What comes of many links in one stream of records? | `muxing.rt`, `links_told.rt` | `specs/Muxing.antt` (`GuardsLinks`) |
//! | What does one record do and write? | `links.rt`, `sinks.rt` | `specs/Turns.antt`, `specs/inside/Doing.antt` |
//! | What goes out of a link, and how are its lines marked? | `passing.rt` | `specs/Passing.antt` |
//! | What comes of a stream? | `guarding.rt`, `counting.rt` | `specs/Stream.antt` |
//! | What is said of which policy is in force? | `in_force.rt` | `specs/InForce.antt` |
//! | What is noted? | `verbose.rt`, `seen.rt`, `counts.rt` | `specs/Verbose.antt`, `specs/Counted.antt` |
//! | What is counted of a stream, and shown while it runs? | `counters.rt`, `tally.rt`, `faults.rt` | `specs/Counting.antt` |
//! | What is counted of many links? | `following.rt` | `specs/CountingLinks.antt`, `specs/LinksCounted.antt` |
//! | By which rules do frames go? | `rule_counts.rt` | `specs/Allowed.antt` |
//! | Where is it shown, and when? | `board.rt` (`Board`) | `specs/Shown.antt` |
//! | Which text shows it? | `counters_text.rt`, `counted.rt` | `specs/Counters.antt`, `specs/Faults.antt` |
//! | What is said of a device that failed? | `saying.rt` | `specs/Saying.antt` |
//! | What is seen of the frames of links? | `links.rt` (`see`), `sinks.rt` | `specs/Tallying.antt` |
//! | At which frame of its stream is a link's fault? | `passing.rt` (`put_note`) | `specs/AtFault.antt` |
#![tactic(auto)]

mod answering;
mod asking;
mod board;
mod counted;
mod counters;
mod counters_text;
mod counting;
mod counts;
mod faults;
mod following;
mod guarding;
mod in_force;
mod links;
mod links_told;
mod muxing;
mod passing;
mod rule_counts;
mod saying;
mod seen;
mod sinks;
mod tally;
mod verbose;

pub use asking::ask;
pub use board::Board;
pub use counters::Counters;
pub use guarding::run;
pub use muxing::mux;
pub use saying::{Failing, Says};
