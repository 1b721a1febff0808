//! The distinguished encoding rules (X.690): from octets to the value of a type that they encode, or the first place
//! that breaks the rules; from a value to its encoding; and which types are sound.
//!
//! | question | code | definition |
//! |---|---|---|
//! | What is the encoding of a value? | `encoding.rt` (`encode`), folder | `specs/Der.antt`, `specs/Encoding.antt` |
//! | How many octets has it? | `lengths.rt` (`encoded_length`, `length_in`) | `specs/Encoding.antt` (`short_length`) |
//! | Which kinds have constructed encodings? | `forms.rt` (`is_constructed`) | `specs/Der.antt` |
//! | What are its octets? | `encoding/element.rt`, `encoding/simple.rt` | `specs/Element.antt`, `specs/Contents.antt` |
//! | Which values does a type have, constraints aside? | `fitting.rt` (`fits`) | `specs/Fits.antt` |
//! | Of which types do encodings tell the values? | `sound_types.rt` (`sound`) | `specs/Sound.antt` |
//! | Which constraints may they have? | `sound_types.rt`, `sound_types/forms.rt` | `specs/ProperConstraints.antt` |
//! | Which types do names have? | `named_types.rt` (`Types`) | `specs/NamedTypes.antt` |
//! | Which value do octets encode, or what is wrong with them? | `decoding.rt` (`decode`) | `specs/Breach.antt` |
//! | And those of a simple kind? | `contents.rt`, `integers.rt`, `bits.rt`, `object_id.rt` | `specs/Simple.antt` |
//! | And those of a SET? | `decoding/set.rt`, `tags.rt` | `specs/Breach.antt` |
//! | Do the elements of a SET OF ascend? | `order.rt` (`descends`), `fitting/ascending.rt` | `specs/Fits.antt` |
//! | Which header is at an offset? | `head.rt` (`header`) | `specs/Head.antt`, `specs/Header.antt` |
//! | Which breaches are there, and what are they called? | `breach.rt` | `specs/Names.antt` |
//! | What holds for every type, value and octets? | `laws.rt` | `specs/Der.antt`, `specs/Breach.antt` |
#![tactic(auto)]

pub mod bits;
mod breach;
mod characters;
mod contents;
mod decoding;
mod element;
mod encoding;
mod faults;
mod fitting;
mod forms;
mod head;
pub mod integers;
pub mod laws;
mod lengths;
pub mod named_types;
mod object_id;
pub mod order;
mod presence;
mod sound_types;
mod tags;

pub use breach::{Breach, Code, DecodeFault};
pub use decoding::decode;
pub use element::Header;
pub use encoding::{
    EncodeFault, LONGEST_ENCODING, encode, encode_contents, encode_tagged, outermost,
};
pub use fitting::fits;
pub use forms::is_constructed;
pub use head::{class_of, header};
pub use lengths::{contents_length, encoded_length, is_too_long, length_in};
pub use presence::is_left_out;
pub use sound_types::sound;
pub use tags::follows;
