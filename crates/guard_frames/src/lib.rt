//! Frames: a stream of octets in, those of its frames that go out, and a report line for each one that stays. Which
//! frames go is decided by what implements `Decide`, as a policy does.
//!
//! | question | code | definition |
//! |---|---|---|
//! | What is a frame, and how is a stream cut into frames? | `cut.rt` | `specs/Frames.antt`, `specs/Cutting.antt` |
//! | What is the header of a frame? | `body.rt`, `header.rt` | `specs/Bodies.antt` |
//! | What is a name in a header? | `header.rt` | `specs/Names.antt` of `guard_policy` |
//! | Which bodies go, and what is reported of the others? | `decision.rt` (`Decide`) | `specs/Outcomes.antt` |
//! | What is reported of a frame? | `report.rt` (`report_on`) | `specs/Guarding.antt` (`Adds`), `inside/Judged.antt` |
//! | Why does a frame stay, and who is told? | `why.rt` (`Why`, `Watch`) | `specs/Reasons.antt` |
//! | What is kept of the last route? | `last_route.rt` (`LastRoute`) | `specs/Recalling.antt`, `specs/Deciding.antt` |
//! | By which rule does a frame go? | `decision.rt` (`Decide`) | `specs/Outcomes.antt` (`GoesBy`) |
//! | Which frames wait to be put, and how are they counted? | `unsent.rt` (`Unsent`) | `specs/inside/Unsent.antt` |
//! | Of which frames is a watch told at once? | `untold.rt` (`Untold`) | `specs/inside/Untold.antt` |
//! | What goes out of octets in memory? | `putting.rt` (`put_frames`) | `specs/Guarding.antt` (`text_out`) |
//! | What is reported of them? | `putting.rt` | `specs/Guarding.antt` (`AllAdd`), `specs/inside/Putting.antt` |
//! | How many frames were there? | `totals.rt` (`Totals`) | `specs/Totals.antt`, `specs/Guarding.antt` (`Counts`) |
//! | What is answered of a frame that asks what becomes of it? | `answering.rt` (`answer`) | `specs/Answering.antt` |
//! | What is read from and written to? | `devices.rt` (`Sink`, `Source`) | the clauses of the traits |
//! | Which lines go in one call? | `waiting.rt`, `devices.rt` (`put_all`), `short_line.rt` | `specs/Calls.antt` |
//! | What does a failure leave? | `devices.rt`, `sending.rt` | `specs/Prefix.antt`, `specs/Guarding.antt` (`BreaksOff`) |
//! | How is a file or pipe a source or a sink? | `through.rt` (`Through`) | `specs/ThroughView.antt` |
//! | How is a list in memory a sink? | `kept.rt` (`Kept`) | `specs/KeptView.antt` |
//! | What does a link hold? | `link.rt` (`Link`) | `specs/LinkView.antt` |
//! | How does the next piece complete it? | `filling.rt` | `specs/Frames.antt` (`IsUnfinished`) |
//! | What does a piece do to a link? | `feeding.rt` (`Link::feed`) | `specs/Feeding.antt`, `inside/Closing.antt` |
//! | What does the end do to it? | `link.rt` (`Link::end`) | `specs/LinkView.antt` (`IsShut`) |
//! | What is told of the frame that a fault is at? | `link.rt` (`Link::left`) | `specs/Feeding.antt`, `specs/LinkSteps.antt` |
//! | How does a link's fault print? | `link.rt` (`LinkFault::text`) | `specs/FaultTexts.antt` |
//! | What does a whole run read and add? | `running.rt` (`decide_link`) | `specs/Runs.antt`, `specs/Added.antt` |
//! | What does it leave in its link? | `running.rt` | `specs/Leaving.antt` |
//! | How does a policy decide? | `policies.rt` | `specs/OfPolicy.antt` |
//! | What comes of a stream under it? | `guarding.rt` (`run`) | `specs/Runs.antt` |
//! | What are many links under one policy? | `gateway.rt` (`Gateway`) | `specs/GatewayView.antt` |
//! | What happens to them? | `gateway.rt` (`Event`), `seats.rt` | `specs/GatewaySteps.antt`, `specs/LinkSteps.antt` |
//! | What does one of many links give in the end? | `laws.rt` | `specs/OwnStream.antt`, `specs/OwnPieces.antt` |
//! | Which policy decides each of its frames? | `laws.rt` | `specs/InForce.antt` |
//! | What do texts say? | `texts.rt` (`load_texts`) | `specs/Texts.antt` |
//! | What comes of a stream under what they say? | `texts.rt` (`run_texts`) | `specs/RunsTexts.antt` |
//! | Does it matter how a stream was cut? Has each stream one reading? | `laws.rt` | `specs/Frames.antt` |
//! | Which frames go out? | `laws.rt` | `specs/Guarding.antt` |
#![tactic(auto)]

mod answering;
mod body;
mod cut;
mod decision;
mod devices;
mod feeding;
mod filling;
mod gateway;
mod guarding;
mod header;
mod kept;
mod last_route;
pub mod laws;
mod link;
mod policies;
mod putting;
mod report;
mod running;
mod seats;
mod sending;
mod short_line;
mod texts;
mod through;
mod totals;
mod unsent;
mod untold;
mod waiting;
mod why;

pub use answering::answer;
pub use body::Body;
pub use cut::{Cut, Frame, LENGTH_OCTETS, LONGEST_BODY, Rest, allowed_length, first_cut};
pub use decision::{Decide, Decided, Known};
pub use devices::{Failed, Sink, Source, put_all, put_both, put_or_count};
pub use filling::LONGEST_FRAME;
pub use gateway::{Event, Gateway, NoRoom, StepFault};
pub use guarding::run;
pub use header::read_body;
pub use kept::Kept;
pub use last_route::LastRoute;
pub use link::{Link, LinkFault};
pub use policies::route_of;
pub use running::{MOST_READS, RunFault, decide_link, new_buffer};
pub use seats::Ends;
pub use short_line::{ShortLine, append};
pub use texts::{TextsFault, load_texts, run_texts};
pub use through::Through;
pub use totals::Totals;
pub use why::{Reason, Unwatched, Watch, Why, reason_of};
