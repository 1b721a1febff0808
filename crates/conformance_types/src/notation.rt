//! Types and values that no text gives, as rows write them: the notation of X.680, and a few words for what it can't
//! write.
//!
//! | written | what it is |
//! |---|---|
//! | `[2] INTEGER`, `[2] EXPLICIT INTEGER` | a tag round the type, as under EXPLICIT TAGS |
//! | `[2] IMPLICIT INTEGER` | a tag in place of the type's own |
//! | `UNTAGGED INTEGER` | the type without its own tag, as no module text gives it |
//! | `DEFAULT PENDING` | a default whose value isn't known yet |
//! | `DEFAULT (BOOLEAN : TRUE)` | a default that is written as a value of another type |
//! | `(1 \|)`, `(1 ^)` | a union and an intersection of one element |
//! | `WITH COMPONENTS {2 PRESENT}` | a part by its place, from 0, in place of its name; there need be none |
//! | `{a ABSENT}` | the place of a component left empty, even if it has a default |
//! | `'A1'H UNUSED 5` | a string of bits by the octets that are kept for it, and how many of their last bits it lacks |
//! | `'00'H` for a character string | the string by the octets of its UTF-8 |
//!
//! The notation is read and not checked: components may share a name or a tag, and any constraint may follow any type.
//!
//! | question | file |
//! |---|---|
//! | types and their components | `types.rt`, `tags.rt` |
//! | constraints | `constraints.rt` |
//! | values | `values.rt` |
//! | hexadecimal digits and bits | `octets.rt` |
//! | the words of a text | `words.rt` |
mod constraints;
mod octets;
mod tags;
mod types;
mod unread;
mod values;
mod words;

pub use tags::tag_of;
pub use types::type_of;
pub use unread::{Unread, read};
pub use values::{typed_value_of, value_of};
