//! Reports: the text of a verdict and the line of a frame, with names in place of numbers; values as ASN.1 writes them,
//! and the parts of them that paths name.
//!
//! | question | code | definition |
//! |---|---|---|
//! | What is the text of a verdict, with its breach, site and rules? | `text.rt` (`verdict_text`) | `specs/Text.antt` |
//! | What is the line of a frame's verdict? | `lines.rt` (`line`, `add_line`, `add_line_told`) | `specs/Lines.antt` |
//! | How is a path written by the names of a type? | `path.rt` | `specs/Text.antt` |
//! | What is written for a name that is missing? | `words.rt` | `specs/Text.antt` |
//! | How is a value written? | `values.rt` | `specs/ValueText.antt` |
//! | How are bits and octets written? | `strings.rt` | `specs/Strings.antt` |
//! | How are characters written? | `characters.rt` | `specs/CharacterStrings.antt`, `specs/inside/Listing.antt` |
//! | Where are the parts of what is in braces? | `layout.rt` | `specs/Layouts.antt` |
//! | How is a message shown with its parts' places, or its breach? | `showing.rt`, `noted.rt` | `specs/Shown.antt` |
//! | Where do the encodings of a value's parts begin? | `places.rt` | `specs/Places.antt` |
//! | What does a type know of its parts and items? | `path.rt`, `values.rt`, `strings.rt` | `specs/ValueText.antt` |
//! | What holds of the texts for every value? | `laws.rt` | `specs/Shown.antt` |
//! | Which part of a value does a path name? | `parts.rt` (`value_at`, `type_at`, `part_text`) | `specs/Parts.antt` |
#![tactic(auto)]

mod characters;
pub mod laws;
mod layout;
mod lines;
mod noted;
mod parts;
mod path;
mod places;
mod showing;
mod strings;
mod text;
mod values;
mod words;

pub use layout::Layout;
pub use lines::{add_line, add_line_told, add_route, line};
pub use parts::{part_text, type_at, value_at};
pub use path::{component_at, element_type, part_type};
pub use places::{header_there, inside_value};
pub use showing::{Shown, shown_text};
pub use strings::name_of;
pub use text::verdict_text;
pub use values::items_known;
pub use words::{add, add_number};
