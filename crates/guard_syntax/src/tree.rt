//! Syntax trees. Their names and numbers are parts of the text. Where a form may be spelled in two ways a tree says
//! which was taken, and each of its nodes has the site of its first token, or begins with a node that has it.
//!
//! A text may be nothing but sets in parentheses or braces, so what such a node takes, times the octets of 64 texts, is
//! what a schema takes: what is large and stands in few nodes is boxed. An enum has a tag of its own, and its first
//! fields lie beside it. Lists begin with room for one where one is written, since a first push would make room for
//! four, and at their end they give back what they don't need.
use guard_model::Site;

/// A module (X.680 13.1).
#[derive(Drop)]
pub struct Module<'a> {
    pub site: Site,
    pub name: &'a [u8],
    /// The parts of the object identifier after its name, in written order. Where there are none, none is written.
    pub identifier: Vec<PartTree<'a>>,
    /// What is written before the word TAGS. Where nothing is written it means EXPLICIT TAGS.
    pub tag_default: Option<TagDefault>,
    /// The exports. Where nothing is written everything is exported.
    pub exports: Option<ExportsTree<'a>>,
    /// The imports, one for each module named after FROM. Where nothing is written the word IMPORTS isn't there.
    pub imports: Option<Vec<ImportTree<'a>>>,
    /// The assignments in written order.
    pub assignments: Vec<Assignment<'a>>,
}

/// A tag default that is written (X.680 13.1).
#[derive(Clone, Copy, Debug, PartialEq, Eq)]
pub enum TagDefault {
    Explicit,
    Implicit,
    Automatic,
}

/// A part of an object identifier after a module's name (X.680 32.3).
#[derive(Clone, Copy)]
pub enum PartTree<'a> {
    /// A bare name.
    Name(&'a [u8]),
    Arc(ArcTree<'a>),
}

/// A number, or a name with a number in parentheses, in an object identifier (X.680 32.3).
#[derive(Clone, Copy)]
pub struct ArcTree<'a> {
    pub site: Site,
    pub name: Option<&'a [u8]>,
    /// The digits of the number.
    pub number: &'a [u8],
}

/// What is exported (X.680 13.1).
#[derive(Drop)]
pub enum ExportsTree<'a> {
    /// EXPORTS ALL: everything.
    All,
    /// These names, in written order. There may be none.
    Symbols(Vec<SymbolTree<'a>>),
}

/// A name in a list of exports or imports (X.680 13.1).
#[derive(Clone, Copy)]
pub struct SymbolTree<'a> {
    pub site: Site,
    pub kind: SymbolKind,
    pub name: &'a [u8],
}

/// What a name names, which its first letter says.
#[derive(Clone, Copy, Debug, PartialEq, Eq)]
pub enum SymbolKind {
    /// A type: the name begins with a capital letter.
    Type,
    /// A value: the name begins with a small letter.
    Value,
}

/// The names that are imported from one module (X.680 13.1), with the site of the first name.
#[derive(Drop)]
pub struct ImportTree<'a> {
    pub site: Site,
    /// The names in written order, at least one.
    pub symbols: Vec<SymbolTree<'a>>,
    /// The module named after FROM.
    pub module: NameTree<'a>,
    /// The parts of the object identifier after that name. Where there are none, none is written.
    pub identifier: Vec<PartTree<'a>>,
}

/// A name, and the site where it is written.
#[derive(Clone, Copy)]
pub struct NameTree<'a> {
    pub site: Site,
    pub name: &'a [u8],
}

/// A type assignment (X.680 16.1), or a value assignment (X.680 16.2).
#[derive(Drop)]
pub struct Assignment<'a> {
    pub site: Site,
    pub name: &'a [u8],
    /// The type, or the type of the value.
    pub ty: Box<TypeTree<'a>>,
    /// The value of a value assignment. A type assignment has none.
    pub value: Option<Box<ValueTree<'a>>>,
}

/// A type (X.680 17.1).
#[derive(Drop)]
#[cycle(trees)]
pub struct TypeTree<'a> {
    pub site: Site,
    /// The tags in written order, from the outside in.
    pub tags: Vec<TagTree<'a>>,
    pub base: BaseTree<'a>,
    /// The constraints after the type, in written order. An OF type has none: what is written there constrains the type
    /// of its elements.
    pub cons: Vec<ConsTree<'a>>,
}

/// A tag (X.680 31.2), with the site of its bracket.
#[derive(Clone, Copy)]
pub struct TagTree<'a> {
    pub site: Site,
    /// The word before the number. Where nothing is written the tag is context-specific.
    pub class: Option<TagClass>,
    /// The digits of the number.
    pub number: &'a [u8],
    /// The word after the tag, where one is written.
    pub mode: Option<TagMode>,
}

/// The word before the number of a tag (X.680 31.2).
#[derive(Clone, Copy, Debug, PartialEq, Eq)]
pub enum TagClass {
    Universal,
    Application,
    Private,
}

/// The word after a tag (X.680 31.2).
#[derive(Clone, Copy, Debug, PartialEq, Eq)]
pub enum TagMode {
    Implicit,
    Explicit,
}

/// A type without its tags and the constraints after it.
#[derive(Drop)]
#[cycle(trees)]
pub enum BaseTree<'a> {
    /// A type that is written with words alone.
    Plain(PlainType),
    /// INTEGER with its named numbers (X.680 19.1). Where there are none, no braces are written.
    Integer(Vec<NamedTree<'a>>),
    /// BIT STRING with its named bits (X.680 22.1). Where there are none, no braces are written.
    BitString(Vec<NamedTree<'a>>),
    /// ENUMERATED with its items in written order, at least one (X.680 20.1).
    Enumerated(Vec<ItemTree<'a>>),
    /// SEQUENCE or SET with its components in written order (X.680 25.1, 27.1). There may be none.
    Structure(Collection, Vec<CompTree<'a>>),
    /// CHOICE with its alternatives in written order, at least one (X.680 29.1).
    Choice(Vec<AlternativeTree<'a>>),
    /// SEQUENCE OF or SET OF, with the constraint before OF and the type of the elements (X.680 26.1, 28.1, 49.4).
    Of(Collection, Option<OfConsTree<'a>>, Box<TypeTree<'a>>),
    /// The name of a type (X.680 16.3).
    Reference(NameTree<'a>),
}

/// The types that are written with words alone.
#[derive(Clone, Copy, Debug, PartialEq, Eq)]
pub enum PlainType {
    Boolean,
    OctetString,
    Null,
    ObjectIdentifier,
    Utf8String,
    NumericString,
    PrintableString,
    Ia5String,
    VisibleString,
}

/// Whether the word SEQUENCE or SET is written.
#[derive(Clone, Copy, Debug, PartialEq, Eq)]
pub enum Collection {
    Sequence,
    Set,
}

/// The constraint before OF, with the site of its first token, which is SIZE where that word is written.
#[derive(Drop)]
pub struct OfConsTree<'a> {
    pub site: Site,
    /// Whether the word SIZE and a constraint are written, without parentheses round both.
    pub size: bool,
    pub cons: Box<ConsTree<'a>>,
}

/// A named number (X.680 19.1), or a named bit (X.680 22.1), whose number has no minus sign.
#[derive(Clone, Copy)]
pub struct NamedTree<'a> {
    pub site: Site,
    pub name: &'a [u8],
    pub number: NumberTree<'a>,
}

/// An item of an ENUMERATED, perhaps with its number (X.680 20.1).
#[derive(Clone, Copy)]
pub struct ItemTree<'a> {
    pub site: Site,
    pub name: &'a [u8],
    pub number: Option<NumberTree<'a>>,
}

/// An entry in the component list of a SEQUENCE or SET (X.680 25.1).
#[derive(Drop)]
#[cycle(trees)]
pub struct CompTree<'a> {
    pub site: Site,
    pub form: CompForm<'a>,
}

/// What a component list has as an entry.
#[derive(Drop)]
#[cycle(trees)]
pub enum CompForm<'a> {
    /// A component: its name, its type, and whether it may be left out.
    Named(&'a [u8], Box<TypeTree<'a>>, PresenceTree<'a>),
    /// COMPONENTS OF this type.
    ComponentsOf(Box<TypeTree<'a>>),
}

/// What is written after the type of a component (X.680 25.1).
#[derive(Drop)]
pub enum PresenceTree<'a> {
    /// Nothing.
    Mandatory,
    Optional,
    Default(Box<ValueTree<'a>>),
}

/// An alternative of a CHOICE (X.680 29.1).
#[derive(Drop)]
#[cycle(trees)]
pub struct AlternativeTree<'a> {
    pub site: Site,
    pub name: &'a [u8],
    pub ty: Box<TypeTree<'a>>,
}

/// A constraint: a set of values in parentheses (X.680 49.6), with the site of the parenthesis.
#[derive(Drop)]
#[cycle(sets)]
pub struct ConsTree<'a> {
    pub site: Site,
    pub set: Box<SetTree<'a>>,
}

/// A set of values (X.680 50.1). It begins with ALL EXCEPT, or where its first element does.
#[derive(Drop)]
#[cycle(sets)]
pub enum SetTree<'a> {
    /// ALL EXCEPT this element, with the site of the first word.
    AllExcept(Site, Box<ElementTree<'a>>),
    /// An element alone, as most sets are: a union of one intersection of one difference without EXCEPT.
    Alone(ElementTree<'a>),
    /// A union of intersections: the first one and those joined to it, none where the set is that intersection alone.
    Union(Box<IntersectionTree<'a>>, Vec<JoinedIntersection<'a>>),
}

/// An intersection in a union with the mark before it.
#[derive(Drop)]
#[cycle(sets)]
pub struct JoinedIntersection<'a> {
    pub mark: JoinMark,
    pub part: IntersectionTree<'a>,
}

/// An intersection of differences (X.680 50.1). It begins where its first element does.
#[derive(Drop)]
#[cycle(sets)]
pub enum IntersectionTree<'a> {
    /// An element alone: one difference without EXCEPT.
    Single(ElementTree<'a>),
    /// The first difference and those joined to it, none where the intersection is that difference alone.
    Differences(Box<DifferenceTree<'a>>, Vec<JoinedDifference<'a>>),
}

/// A difference in an intersection with the mark before it.
#[derive(Drop)]
#[cycle(sets)]
pub struct JoinedDifference<'a> {
    pub mark: JoinMark,
    pub part: DifferenceTree<'a>,
}

/// How a union or an intersection is spelled (X.680 50.1).
#[derive(Clone, Copy, Debug, PartialEq, Eq)]
pub enum JoinMark {
    /// `|` or `^`.
    Sign,
    /// UNION or INTERSECTION.
    Word,
}

/// An element, perhaps EXCEPT another one (X.680 50.1). A difference begins where its first element does.
#[derive(Drop)]
#[cycle(sets)]
pub struct DifferenceTree<'a> {
    pub element: ElementTree<'a>,
    pub except: Option<Box<ElementTree<'a>>>,
}

/// An element of a set (X.680 50.1, 51.1), with the site of its first token.
#[derive(Drop)]
#[cycle(sets)]
pub struct ElementTree<'a> {
    pub site: Site,
    pub form: ElementForm<'a>,
}

/// What an element is.
#[derive(Drop)]
#[cycle(sets)]
pub enum ElementForm<'a> {
    /// A set in parentheses. The inner set begins after the parenthesis.
    Parentheses(Box<SetTree<'a>>),
    /// A single value (X.680 51.2).
    Value(Box<ValueTree<'a>>),
    /// A contained subtype: whether INCLUDES is written, and the name of the type (X.680 51.3).
    Contained(bool, Box<NameTree<'a>>),
    /// A range of values (X.680 51.4).
    Range(Box<RangeTree<'a>>),
    /// SIZE with the constraint on the size (X.680 51.5).
    Size(Box<ConsTree<'a>>),
    /// FROM with the constraint that names the characters, a permitted alphabet (X.680 51.7).
    From(Box<ConsTree<'a>>),
    /// WITH COMPONENT with the constraint on each element (X.680 51.8.1).
    WithComponent(Box<ConsTree<'a>>),
    /// WITH COMPONENTS: whether `...` is written first, and the parts in written order, at least one (X.680 51.8.1).
    WithComponents(bool, Box<Vec<ComponentConsTree<'a>>>),
}

/// What WITH COMPONENTS says of one component or alternative (X.680 51.8.5).
#[derive(Drop)]
#[cycle(sets)]
pub struct ComponentConsTree<'a> {
    pub site: Site,
    pub name: &'a [u8],
    pub cons: Option<ConsTree<'a>>,
    pub presence: Option<PresenceWord>,
}

/// The presence word in a part of WITH COMPONENTS (X.680 51.8.5).
#[derive(Clone, Copy, Debug, PartialEq, Eq)]
pub enum PresenceWord {
    Present,
    Absent,
    Optional,
}

/// A range of values (X.680 51.4).
#[derive(Clone, Copy)]
pub struct RangeTree<'a> {
    /// The low end; None where MIN is written.
    pub low: Option<EndTree<'a>>,
    /// Whether `<` is written after the low end, which leaves that end out.
    pub above_low: bool,
    /// Whether `<` is written before the high end, which leaves that end out.
    pub below_high: bool,
    /// The high end; None where MAX is written.
    pub high: Option<EndTree<'a>>,
}

/// An end of a range that is written as a value.
#[derive(Clone, Copy)]
pub struct EndTree<'a> {
    pub site: Site,
    pub form: EndForm<'a>,
}

/// What an end of a range is.
#[derive(Clone, Copy)]
pub enum EndForm<'a> {
    Integer(NumberTree<'a>),
    /// The name of a value.
    Reference(&'a [u8]),
    /// A string in double quotes, as it is written.
    Characters(&'a [u8]),
}

/// A value (X.680 17.7).
#[derive(Drop)]
#[cycle(values)]
pub struct ValueTree<'a> {
    pub site: Site,
    pub form: ValueForm<'a>,
}

/// What a value is.
#[derive(Drop)]
#[cycle(values)]
pub enum ValueForm<'a> {
    /// TRUE or FALSE.
    Boolean(bool),
    Null,
    /// A [`NumberTree`], whose fields take less room one by one: whether a minus sign is written before the digits, the
    /// site and the digits.
    Integer(bool, Site, &'a [u8]),
    /// A string with its quotes, as it is written.
    Text(StringKind, &'a [u8]),
    /// The name of a value, an item or a named number.
    Reference(&'a [u8]),
    /// A chosen alternative: its name and its value.
    Chosen(&'a [u8], Box<ValueTree<'a>>),
    /// Entries in braces, in written order. There may be none.
    List(Vec<EntryTree<'a>>),
    /// An object identifier: two or more arcs, or one that has a name.
    Arcs(Vec<ArcTree<'a>>),
}

/// Which string is written.
#[derive(Clone, Copy, Debug, PartialEq, Eq)]
pub enum StringKind {
    /// `".."`
    Characters,
    /// `'..'B`
    Bits,
    /// `'..'H`
    Hexadecimal,
}

/// An entry in braces: a value, perhaps with a name before it. It begins with the name, or where the value does.
#[derive(Drop)]
#[cycle(values)]
pub enum EntryTree<'a> {
    /// A value alone, as entries of lists are.
    Alone(ValueTree<'a>),
    /// A name and the value after it.
    Named(NameTree<'a>, Box<ValueTree<'a>>),
}

/// An integer as it is written (X.680 19.9).
#[derive(Clone, Copy)]
pub struct NumberTree<'a> {
    pub site: Site,
    /// Whether a minus sign is written before the digits.
    pub minus: bool,
    /// Decimal digits, which write a number from 0 to 2^128-1.
    pub digits: &'a [u8],
}
