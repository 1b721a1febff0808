//! Whether the tags of a type's components and alternatives distinguish them (X.680 25.6, 27.3, 29.3).
//!
//! | question | code | definition |
//! |---|---|---|
//! | Which components are the first that clash? | `search.rt` (`check`) | `specs/Distinct.antt`, `specs/Search.antt` |
//! | The same, with a map of the tags? | `find.rt` (`find_clash`), `noting.rt` | `specs/inside/Noting.antt` |
//! | What is a clash, and how does it print? | `clash.rt` | `specs/Distinct.antt`, `specs/Views.antt` |
//! | Which names and which tag are those of a clash? | `in_common.rt` (`common_to`) | `specs/InCommon.antt` |
//! | With which tags may an encoding of a type begin? | `first_tags.rt` (`begins_with`) | `specs/FirstTags.antt` |
//! | Which types can be looked at? | `limits.rt` (`is_within_limits`) | `specs/Limits.antt` |
//! | What holds of the definitions for every type? | `laws.rt` | `specs/Laws.antt` |
#![tactic(auto)]

mod clash;
mod find;
mod first_tags;
mod in_common;
pub mod laws;
mod limits;
mod noting;
mod search;

pub use clash::Clash;
pub use find::find_clash;
pub use first_tags::{begins_with, one_begins_with};
pub use in_common::{InCommon, common_to};
pub use limits::is_within_limits;
pub use search::check;
