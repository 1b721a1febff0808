//! The commands for those who write a policy: `check`, `encode`, `test` and `compare`.
//!
//! | question | code | definition |
//! |---|---|---|
//! | What comes of `check`? | `checking.rt` | `specs/Checked.antt` |
//! | What is listed of a policy that is accepted, and what is remarked? | `listing.rt`, `parties.rt` | `specs/Listing.antt` |
//! | Which octets has a value that is written? | `encoding.rt`, `framing.rt` | `specs/Encodes.antt`, `specs/Framing.antt` |
//! | Which value does a text write, and why none? | `written.rt` | `specs/ValueTexts.antt` |
//! | Which cases does a text say, and which come out as they should? | `cases.rt`, `testing.rt` | `specs/Cases.antt`, `specs/Testing.antt` |
//! | What is said of a text that writes no value? | `no_value.rt` | `specs/NoValue.antt` |
//! | Which rules does no case reach? | `reached.rt` | `specs/Reached.antt` |
//! | Which frames have another verdict under a new policy? | `differing.rt`, `comparing.rt` | `specs/Differing.antt`, `specs/Comparing.antt` |
//! | How many frames has each rule before and after? | `summary.rt` | `specs/Summary.antt` |
#![tactic(auto)]

mod cases;
mod checking;
mod comparing;
mod differing;
mod encoding;
mod framing;
mod listing;
mod no_value;
mod parties;
mod reached;
mod summary;
mod testing;
mod written;

pub use checking::{Checking, check};
pub use comparing::{Comparing, compare};
pub use encoding::{Encoding, encode};
pub use testing::{Trial, test};
