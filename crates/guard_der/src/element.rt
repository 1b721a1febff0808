//! What the front of an element says.
use guard_model::Tag;

/// The identifier and length octets of an element (X.690 8.1.2, 8.1.3).
#[derive(Clone, Copy, Debug, PartialEq, Eq)]
pub struct Header {
    pub tag: Tag,
    /// Bit 6 of the identifier: whether the contents are encodings themselves.
    pub constructed: bool,
    /// The offset of the first contents octet, which is `end` where there is none.
    pub contents: usize,
    /// The offset of the first octet after the element.
    pub end: usize,
}
