//! Why octets are no encoding, and where.
ghost use Rattle.std.specs.Prelude.{◌≡◌};

use guard_model::{Path, PathText};
use std::fmt;
use thiserror::Error;

/// What is wrong with octets that are no encoding, in the terms of X.690.
#[derive(Clone, Copy, Debug, PartialEq, Eq)]
pub enum Code {
    /// The octets end before the element does.
    Truncated,
    /// A tag number that isn't in its one form (X.690 8.1.2).
    TagForm,
    /// The indefinite form of a length (X.690 10.1).
    IndefiniteLength,
    /// A length with more octets than the least (X.690 10.1).
    NonMinimalLength,
    /// A length of more than four octets.
    LengthTooLarge,
    /// A tag that can't be there.
    UnexpectedTag,
    /// The contents end before a mandatory component.
    MissingComponent,
    /// Primitive in place of constructed, or the other way round (X.690 8.1.2.5).
    WrongForm,
    /// A BOOLEAN that is neither 00 nor FF (X.690 11.1).
    BooleanContents,
    /// No contents octet, or the first nine bits are equal (X.690 8.3.2).
    IntegerContents,
    /// More than sixteen contents octets.
    IntegerTooLong,
    /// An ENUMERATED whose number is no item's (X.690 8.4).
    UnknownEnumeration,
    /// A NULL with contents (X.690 8.8.2).
    NullContents,
    /// A BIT STRING without its first octet, with more than seven unused bits, or with unused bits of no octet (X.690
    /// 8.6.2).
    BitStringContents,
    /// An unused bit that is not zero (X.690 11.2.1).
    UnusedBits,
    /// No subidentifier, one that begins with 80, or one that doesn't end (X.690 8.19.2).
    ObjectIdContents,
    /// A subidentifier of more than 128 bits.
    ObjectIdTooLong,
    /// Octets that are no characters of the kind, or no UTF-8 (X.690 8.23).
    Characters,
    /// A component of a SET whose tag isn't above that of the one before it (X.690 10.3).
    SetOrder,
    /// An element of a SET OF that descends from the one before it (X.690 11.6).
    SetOfOrder,
    /// A component that is its default (X.690 11.5).
    DefaultPresent,
    /// Octets after the one element that a message or a wrapper holds.
    TrailingOctets,
    /// The last bit of a BIT STRING with named bits is zero (X.690 11.2.2).
    TrailingZeroBit,
}

impl Code {
    ghost use Rattle.guard_der.specs.Names.{breach_name};

    /// The name as it is reported, without its number: `Truncated`.
    pub fn name(self) -> &'static str
        ensures { result.now ≡ breach_name self }
    {
        match self {
            Code::Truncated => "Truncated",
            Code::TagForm => "TagForm",
            Code::IndefiniteLength => "IndefiniteLength",
            Code::NonMinimalLength => "NonMinimalLength",
            Code::LengthTooLarge => "LengthTooLarge",
            Code::UnexpectedTag => "UnexpectedTag",
            Code::MissingComponent => "MissingComponent",
            Code::WrongForm => "WrongForm",
            Code::BooleanContents => "BooleanContents",
            Code::IntegerContents => "IntegerContents",
            Code::IntegerTooLong => "IntegerTooLong",
            Code::UnknownEnumeration => "UnknownEnumeration",
            Code::NullContents => "NullContents",
            Code::BitStringContents => "BitStringContents",
            Code::UnusedBits => "UnusedBits",
            Code::ObjectIdContents => "ObjectIdContents",
            Code::ObjectIdTooLong => "ObjectIdTooLong",
            Code::Characters => "Characters",
            Code::SetOrder => "SetOrder",
            Code::SetOfOrder => "SetOfOrder",
            Code::DefaultPresent => "DefaultPresent",
            Code::TrailingOctets => "TrailingOctets",
            Code::TrailingZeroBit => "TrailingZeroBit",
        }
    }
}

/// Prints the number and the name: `E1 Truncated`.
impl fmt::Display for Code {
    fn fmt<W: fmt::Write>(&self, f: &mut fmt::Formatter<W>) -> fmt::Result {
        write!(f, "E{} {}", *self as u8 + 1, self.name())
    }
}

/// The first place in octets that breaks the rules. A breach prints as its number, its name, the offset and the path,
/// in which components and elements count from 0: `E9 BooleanContents 5 $.1[0]`.
#[derive(Debug, Drop, Error)]
#[error("{code} {at} {way}", way = PathText(.path))]
pub struct Breach {
    pub code: Code,
    /// The offset of the place in the message, from 0; at most the message's length.
    pub at: usize,
    /// The way to the value that the breach concerns.
    pub path: Path,
}

/// Why octets give no value.
#[derive(Debug, Drop, Error)]
pub enum DecodeFault {
    /// The octets are the encoding of no value of the type.
    #[error("{0}")]
    Breach(Breach),
    /// A growth was refused. This may be answered instead of anything else.
    #[error("OutOfMemory")]
    OutOfMemory,
}
