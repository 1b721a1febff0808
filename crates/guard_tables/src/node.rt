//! The nodes of a table: what every message reads of one, and what few do.
use crate::alphabet::Alphabet;
use crate::conditions_list::Conditions;
use crate::items::Items;
use crate::slots::Slots;
use guard_integers::IntSet;
use guard_model::{CharKind, Tag};

/// The kinds whose contents octets spell a value alone.
#[derive(Clone, Copy, PartialEq, Eq, Debug)]
pub enum SimpleKind {
    Boolean,
    Integer,
    Enumerated,
    /// BIT STRING without named bits.
    BitString,
    /// BIT STRING with named bits.
    NamedBits,
    OctetString,
    Null,
    ObjectIdentifier,
    Characters(CharKind),
}

/// What a node stands for.
#[derive(Clone, Copy, PartialEq, Eq, Debug)]
pub enum Kind {
    /// A type of a kind whose contents octets spell the value alone.
    Simple(SimpleKind),
    /// SEQUENCE, whose components are side by side in the nodes.
    Series,
    /// SET, whose components are side by side in the nodes.
    Set,
    /// CHOICE, whose alternatives are side by side in the nodes.
    Choice,
    /// SEQUENCE OF, with one node for all elements.
    List,
    /// SET OF, with one node for all elements.
    SetOf,
    /// An explicit tag round another node.
    Wrapper,
    /// Conditions on the whole value of another node, which has parts.
    Asked,
    /// Formulas over what fails at another node.
    Formula,
}

/// What the absence of a component means.
#[derive(Clone, Copy, PartialEq, Eq, Debug)]
pub enum Need {
    /// The octets are no encoding.
    Mandatory,
    /// Nothing fails.
    Free,
    /// Some slots fail, those of `absent`.
    Costs,
}

/// What every message reads of a node.
#[derive(Clone, Copy, Debug)]
pub struct Hot {
    /// The identifier octet of the node's outermost tag; 256 where there is none: for a tag from 31 on, and for a
    /// CHOICE without a tag.
    pub identifier: u16,
    /// The identifier octet of that tag in the other form, constructed or primitive; 256 where there is none.
    pub other: u16,
    pub kind: Kind,
    /// What it means that the node is absent, as a component.
    pub need: Need,
    /// Whether the node's presence counts: it has a default, or slots that fail where it is there.
    pub watched: bool,
    /// Whether the node has conditions.
    pub asked: bool,
    /// Whether the node's parts have a tag each, and these ascend.
    pub ascending: bool,
    /// Contents octets that spell a number from `low` to `high`, both in, are lawful, fail nothing, and aren't a
    /// default's. There is no such number where `high` is below `low`.
    pub low: i32,
    /// The greatest of these numbers.
    pub high: i32,
    /// The place of the node's first part among all nodes.
    pub first: usize,
    /// How many parts there are, side by side, at most 64.
    pub count: u32,
}

/// What few messages read of a node.
#[derive(Drop)]
pub struct Cold {
    /// The node's outermost tag; None for a CHOICE without a tag, and for a node that is in front of another one and is
    /// no wrapper.
    pub tag: Option<Tag>,
    /// The items of an ENUMERATED.
    pub items: Items,
    pub conditions: Conditions,
    /// The slots that fail where the component isn't there.
    pub absent: Slots,
    /// The slots that fail where the component or alternative is there.
    pub present: Slots,
    /// The octets of the component's default inside the outermost tag; None where it has no default.
    pub default: Option<Vec<u8>>,
    /// What the formulas over the other node's slots imply.
    pub implications: Vec<Implication>,
}

/// A test, and the slots that fail where it doesn't pass.
#[derive(Drop)]
pub struct Condition {
    pub slots: Slots,
    pub test: Test,
}

/// What a condition asks of a value, or of its contents octets.
#[derive(Drop)]
pub enum Test {
    /// The number is one of these.
    Numbers(IntSet),
    /// The size, in bits, octets, characters or elements, is one of these.
    Sizes(IntSet),
    /// The contents octets are these.
    Stored(Vec<u8>),
    /// Each character is one of these.
    Spelled(Alphabet),
}

/// Slots that fail where the formula says so.
#[derive(Drop)]
pub struct Implication {
    pub slots: Slots,
    pub where_failed: Form,
}

/// Where something fails, by which slots have failed.
#[derive(Drop)]
pub enum Form {
    Never,
    Always,
    Slot(u8),
    Both(Box<Form>, Box<Form>),
    Either(Box<Form>, Box<Form>),
    Unless(Box<Form>),
}
