//! Policies: which messages may go from whom to whom, and the verdict on each.
//!
//! | question | code | definition |
//! |---|---|---|
//! | Which messages and rules has a policy? | `policy.rt` | `specs/Policies.antt`, `specs/PolicyView.antt` |
//! | What is asked of them? | `policy.rt` | `specs/Consistency.antt` |
//! | What is kept of them? | `kept.rt`, `tables.rt`, `made_tables.rt` | `specs/KeptView.antt`, `specs/inside/Keeping.antt` |
//! | What does the name of a message lead to? | `index.rt` | `specs/inside/Listings.antt` |
//! | Which rules speak of each message? | `numbered.rt` | `specs/inside/Numbers.antt` |
//! | Who sends what to whom? | `route.rt` | `specs/Policies.antt`, `specs/PolicyView.antt` |
//! | Which rules speak of a route? | `speaking.rt` | `specs/Decisions.antt` |
//! | Which verdicts are there? | `verdict.rt` | `specs/Verdicts.antt` |
//! | When does a message go? | `passing.rt` (`passes`) | `specs/Decisions.antt` |
//! | By which rule does it go, what is told where it stays? | `passing.rt` (`look_at`) | `specs/Told.antt` |
//! | How does a route lead to its rules? | `routing.rt` | `specs/Routing.antt` |
//! | Which routes do rules give by names? | `leads.rt`, `route_octets.rt` | `specs/NamedRoutes.antt` |
//! | What was found of a route, for all messages on it? | `found_route.rt`, `passing.rt` (`find_route`) | `specs/FoundRoutes.antt`, `specs/Passing.antt` |
//! | Where is a route looked for first? | `last_route.rt`, `passing.rt` (`passes_as_last`) | `specs/NamedRoutes.antt` |
//! | Which verdict is it? | `policy.rt` (`verdict`), `reason.rt`, `decision.rt` | `specs/Decisions.antt` |
//! | Do a rule's type and the declared one share no value? | `barren.rt`, `asked.rt`, `sizes.rt` | `specs/Barren.antt` |
//! | What holds of every message? | `laws.rt` | `specs/Decisions.antt` |
//! | Which octets are names? | `route.rt` (`is_name`, `Route::is_plain`) | `specs/Names.antt` |
//! | What may a rule give for its sender and receiver? | `route.rt` (`is_party`) | `specs/Names.antt` |
//! | What is in the text of a policy? | `document.rt`, `entry.rt` | `specs/Documents.antt` |
//! | What may be wrong with it? | `fault.rt` | `specs/PolicyFaults.antt` |
//! | Which files of modules does it list? | `files.rt` (`module_files`) | `specs/Loads.antt` |
//! | What is a policy built on? | `types.rt`, `guard_der::named_types` | `specs/Entries.antt` |
//! | Which policy does the text say? | `load.rt` (`Policy::load`) | `specs/Loads.antt` |
//! | Why is a text none? | `messages.rt`, `rules.rt`, `tables.rt` | `specs/Entries.antt`, `specs/EntryFaults.antt` |
//! | What is borrowed of a message, and while a text is read? | `said.rt`, `seen.rt` | `specs/SaidView.antt`, `specs/inside/Said.antt` |
#![tactic(auto)]

mod asked;
mod barren;
mod decision;
mod document;
mod entry;
mod fault;
mod files;
mod found_route;
mod index;
mod kept;
mod last_route;
pub mod laws;
mod leads;
mod load;
mod made_tables;
mod messages;
mod numbered;
mod passing;
mod policy;
mod reason;
mod route;
mod route_octets;
mod routing;
mod rules;
mod said;
mod seen;
mod sizes;
mod speaking;
mod tables;
mod types;
mod verdict;

pub use entry::{Entry, Key};
pub use fault::PolicyFault;
pub use files::module_files;
pub use found_route::FoundRoute;
pub use guard_der::named_types::Types;
pub use last_route::LastRoute;
pub use passing::Passing;
pub use policy::{Effect, Policy, SaidRule};
pub use route::{Route, is_anyone, is_name, is_party};
pub use said::SaidMessage;
pub use verdict::{PlainReason, Verdict};
