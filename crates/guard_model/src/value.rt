//! Values. What a value holds is shared, so that a copy of it takes no more room than one value without parts.

use std::sync::{Arc, ArcSlice, ArcStr};

/// A value of a type. It has no names of named numbers, items and alternatives: the type says what a number means.
#[derive(Debug, Drop)]
pub enum Value {
    Bool(bool),
    Int(i128),
    /// The number of the item.
    Enumerated(i128),
    Null,
    Bits(Bits),
    Octets(ArcSlice<u8>),
    /// The subidentifiers' arcs: the first arc, the second, and so on (X.680 clause 32).
    Oid(ArcSlice<u128>),
    /// The characters of a string of any kind.
    Chars(ArcStr),
    /// One slot for each component of a SEQUENCE or SET in written order; it holds None for an OPTIONAL one that is left
    /// out. All slots that hold nothing may be one.
    Fields(ArcSlice<Arc<Option<Value>>>),
    /// The elements of a SEQUENCE OF or SET OF; of a SET OF in ascending order of their encodings.
    Items(ArcSlice<Value>),
    /// The alternative at this place of the written list, from 0, and its value.
    Chosen(u8, Arc<Value>),
}

/// A string of bits. In a value that fits its type the unused bits are zero, and there are none where there are no
/// octets.
#[derive(Debug, Drop)]
pub struct Bits {
    /// The bits from the highest of the first octet on.
    pub octets: ArcSlice<u8>,
    /// How many of the lowest bits of the last octet don't belong to the string, 0 to 7.
    pub unused: u8,
}
