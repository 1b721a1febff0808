//! The limits of this profile on types, their values and schemas.

/// The most components that a SEQUENCE or SET may have, and the most alternatives of a CHOICE.
pub const MOST_COMPONENTS: usize = 64;

/// The greatest nesting of a type. A type's nesting is its number of tags, one more for a CHOICE, plus the greatest
/// nesting of a part.
pub const DEEPEST_NESTING: usize = 32;

/// The greatest number that a tag may have within its class: 2^28-1, so that it takes at most four base-128 octets.
pub const GREATEST_TAG_NUMBER: u32 = 268_435_455;

/// The most elements that a value of a SEQUENCE OF or SET OF may have.
pub const MOST_ITEMS: usize = 4_294_967_295;

/// The most modules that a schema may have.
pub const MOST_MODULES: usize = 64;
