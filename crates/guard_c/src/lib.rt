//! The guard as a library for C, which `derguard.h` declares. Each export takes the address of a handle that C keeps,
//! and says again what the guard's own crates say of what it does.
//!
//! | question | code | definition |
//! |---|---|---|
//! | What is exported, and what does each call do? | `policies.rt`, `links.rt`, `version.rt` | `specs/Policies.antt`, `specs/Links.antt` |
//! | Which numbers does a call answer? | `status.rt` | `specs/Statuses.antt` |
//! | How does a text come into a buffer of C? | `telling.rt` | `specs/Telling.antt` |
//! | What does a handle hold? | `held.rt` | `specs/Holding.antt` |
//! | What is a handle, and what does it own? | `handle.rt` | `specs/Owning.antt` |
//! | How is a box a pointer, and a box again? | `parted.rt` | `also_owns` of `Parted` |
//! | What is loaded from texts? | `loading.rt` | `specs/Policies.antt` (`HasLoaded`) |
//! | What is a policy asked? | `asking.rt` | `specs/Asking.antt` |
//! | What does a piece do to a link? | `links.rt` (`feed`) | `specs/Links.antt` (`HasFed`) |
#![tactic(auto)]

mod asking;
mod handle;
mod held;
mod links;
mod loading;
mod parted;
mod policies;
mod status;
mod telling;
mod version;

pub use handle::Handle;
pub use links::{
    derguard_link_end, derguard_link_feed, derguard_link_free, derguard_link_open,
    derguard_link_reports,
};
pub use policies::{
    derguard_free, derguard_load, derguard_passes, derguard_passes_from, derguard_share,
    derguard_verdict, derguard_verdict_from,
};
pub use version::derguard_version;
