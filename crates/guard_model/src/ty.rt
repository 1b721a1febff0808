//! Types with their tags and constraints, references followed. Names, lists of named numbers, values and what a
//! constraint is made of are shared between a type and its copies.
use crate::named_list::NamedList;
use crate::site::Site;
use crate::tag::Tag;
use crate::value::Value;
use std::sync::{Arc, ArcSlice, ArcStr};

/// A type of X.680, every reference followed.
#[derive(Debug, Drop)]
#[cycle(types)]
pub struct Ty {
    /// The tags, the outermost first. The last one is the kind's own, and those before it are explicit and wrap it. A
    /// CHOICE has none of its own, so all of its tags wrap it, and it may have no tag.
    pub tags: Vec<Tag>,
    pub kind: Kind,
    /// The constraints in written order, those of a referenced type before the added ones.
    pub cons: Vec<Cons>,
}

/// The kind of a type: what is left without its tags and constraints.
#[derive(Debug, Drop)]
#[cycle(types)]
pub enum Kind {
    /// BOOLEAN.
    Bool,
    /// INTEGER with its named numbers.
    Int(Arc<NamedList>),
    /// BIT STRING with its named bits. Where there are some, a value has no trailing zero bit (X.680 22.7).
    Bits(Arc<NamedList>),
    /// OCTET STRING.
    Octets,
    /// NULL.
    Null,
    /// OBJECT IDENTIFIER.
    Oid,
    /// ENUMERATED with its items in written order.
    Enumerated(Arc<NamedList>),
    /// A character string of this kind.
    Chars(CharKind),
    /// SEQUENCE with its components in written order.
    Sequence(Vec<Comp>),
    /// SET with its components in written order.
    Set(Vec<Comp>),
    /// CHOICE with its alternatives; each is Mandatory.
    Choice(Vec<Comp>),
    /// SEQUENCE OF with the type of its elements.
    SequenceOf(Box<Ty>),
    /// SET OF with the type of its elements.
    SetOf(Box<Ty>),
}

/// The kinds of character strings, each with its alphabet (X.680 clause 41).
#[derive(Clone, Copy, Debug, PartialEq, Eq)]
pub enum CharKind {
    Numeric,
    Printable,
    Ia5,
    Visible,
    Utf8,
}

/// A named number of an INTEGER, an item of an ENUMERATED, or a named bit of a BIT STRING.
#[derive(Debug, Drop)]
pub struct Named {
    pub name: String,
    /// For a named bit, its place from 0 to 65,535.
    pub number: i128,
}

/// A component of a SEQUENCE or SET, or an alternative of a CHOICE.
#[derive(Debug, Drop)]
#[cycle(types)]
pub struct Comp {
    pub name: ArcStr,
    pub ty: Ty,
    pub presence: Presence,
}

/// Whether a component may be left out (X.680 25.4).
#[derive(Debug, Drop)]
pub enum Presence {
    Mandatory,
    Optional,
    /// There is a default whose value is not known yet. This occurs only while a schema is built.
    Pending,
    /// A component that is left out has this value.
    Default(Arc<Value>),
}

/// A constraint, and where its first token is.
#[derive(Debug, Drop)]
#[cycle(types)]
pub struct Cons {
    pub site: Site,
    pub rule: Rule,
}

/// The set of values that a constraint allows (X.680 clauses 50 and 51).
#[derive(Debug, Drop)]
#[cycle(types)]
pub enum Rule {
    /// This value alone (51.2).
    One(Arc<Value>),
    /// The values of a contained subtype (51.3). It is shared by all constraints that contain it.
    Inside(Arc<Ty>),
    /// The integers between two ends (51.4). A low end above the high one leaves none.
    Range(Limit, Limit),
    /// The values whose size this constraint on INTEGER (0..MAX) allows (51.5).
    Size(Arc<Cons>),
    /// The strings whose characters' codes all lie in one of these ranges, both ends in (51.7).
    Alphabet(ArcSlice<(u32, u32)>),
    /// WITH COMPONENT: the lists each of whose elements this constraint allows (51.8.4).
    Each(Arc<Cons>),
    /// WITH COMPONENTS (51.8.5); true where it is partial, that is where it begins with `...`.
    Parts(bool, ArcSlice<Part>),
    /// A union: what at least one of them allows (50).
    Any(ArcSlice<Cons>),
    /// An intersection: what all of them allow (50).
    Both(ArcSlice<Cons>),
    /// EXCEPT: what the first allows and the second doesn't (50).
    Minus(Arc<Cons>, Arc<Cons>),
    /// ALL EXCEPT: what this constraint doesn't allow (50).
    Other(Arc<Cons>),
}

/// An end of a range.
#[derive(Clone, Copy, Debug, PartialEq, Eq)]
pub enum Limit {
    /// MIN or MAX: no end.
    Free,
    /// This number is in.
    At(i128),
    /// This number is out, the next one towards the range is in.
    Past(i128),
}

/// What WITH COMPONENTS says of one component or alternative.
#[derive(Debug, Drop)]
#[cycle(types)]
pub struct Part {
    /// Where its name is.
    pub site: Site,
    /// The place of the component in the written list, from 0.
    pub at: u8,
    /// The constraint written after its name.
    pub cons: Option<Cons>,
    /// The presence word written there.
    pub word: Option<Word>,
}

/// A presence word (X.680 51.8.9).
#[derive(Clone, Copy, Debug, PartialEq, Eq)]
pub enum Word {
    Present,
    Absent,
    Optional,
}
