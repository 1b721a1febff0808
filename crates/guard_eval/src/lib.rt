//! Members of a type: whether a value that fits it keeps its constraints, and the first of them that it fails.
//!
//! | question | code | definition |
//! |---|---|---|
//! | Which values does a number, a size or an alphabet allow? | `elements.rt` | `specs/Elements.antt` |
//! | How is a long text looked through under an alphabet of many ranges? | `windows.rt` | `specs/inside/Windows.antt` |
//! | What does WITH COMPONENTS say of a part's presence? | `presence.rt` | `specs/Presence.antt` |
//! | What does a constraint allow? | `members.rt` (`holds`, inside types `holds_on_kind`) | `specs/Member.antt` |
//! | Which are members of a type? | `members.rt` (`member`, inside types `proper_member`) | `specs/Member.antt` |
//! | How are they found where a value has many parts of one type? | `together.rt` (`member_of`), `columns.rt`, `free_types.rt` | `specs/Member.antt`, `specs/inside/Together.antt` |
//! | What do constraints that must all be passed say of many values? | `own_answers.rt`, `gathered.rt` | `specs/inside/OwnAnswers.antt`, `specs/inside/Gathered.antt` |
//! | What do many WITH COMPONENTS say together of a value's parts? | `parts_together.rt` | `specs/inside/PartsTogether.antt` |
//! | What is found out beforehand of them for values that aren't numbers? | `value_answers.rt` | `specs/inside/ValueAnswers.antt` |
//! | Which codes do many FROM allow? | `held_codes.rt` | `specs/inside/HeldCodes.antt` |
//! | Which of a union's many single values may have a value? | `singles.rt`, `value_keys.rt` | `specs/inside/Failures.antt` |
//! | Which integers does a constraint allow, as a set, and which items? | `number_sets.rt` | `specs/NumberSets.antt` |
//! | Which constraint is failed first, and where? | `violation.rt` (`first_violation`) | `specs/Violations.antt` |
//! | How are all of these found in one walk? | `search.rt` | `specs/inside/Failures.antt` |
//! | What holds for every type and value? | `laws.rt` | `specs/Violations.antt` |
#![tactic(auto)]

mod columns;
mod elements;
mod found;
mod free_types;
mod gathered;
mod held_codes;
pub mod laws;
mod members;
mod number_sets;
mod own_answers;
mod parts_together;
mod presence;
mod search;
mod singles;
mod together;
mod value_answers;
mod value_keys;
mod violation;
mod windows;

pub use elements::{are_permitted, is_in_some};
pub use members::{holds, holds_on_kind, member, proper_member};
pub use number_sets::{numbers_of, numbers_of_type};
pub use presence::{element_kind, is_optional, is_ruled_out, kind_at, part_at};
pub use together::member_of;
pub use violation::{Violation, first_violation};
