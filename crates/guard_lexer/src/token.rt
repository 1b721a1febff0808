//! Tokens (X.680 clause 12).
use guard_model::Site;

/// A token: a span of the text, and the line and column where it begins.
#[derive(Clone, Copy, Debug, PartialEq, Eq)]
pub struct Token {
    pub kind: TokenKind,
    /// The offset of its first octet in the text, from 0.
    pub start: u32,
    /// The offset after its last octet.
    pub end: u32,
    /// The site of its first octet.
    pub site: Site,
}

/// What a token is.
#[derive(Clone, Copy, Debug, PartialEq, Eq)]
pub enum TokenKind {
    /// A reserved word that the grammar uses.
    Reserved(Reserved),
    /// A reserved word of a form that is left out.
    Unsupported,
    /// A name that begins with a capital letter: of a type or a module.
    UpperName,
    /// A name that begins with a small letter: of a value, a component or an alternative.
    LowerName,
    /// A number from 0 to 2^128-1.
    Number,
    /// A string in double quotes; a quote inside is written twice.
    CharacterString,
    /// `'0101'B`, perhaps with white space inside.
    BitString,
    /// `'0AF'H`, perhaps with white space inside.
    HexadecimalString,
    Mark(Mark),
}

/// The reserved words that the grammar uses.
#[derive(Clone, Copy, Debug, PartialEq, Eq)]
pub enum Reserved {
    Absent,
    All,
    Application,
    Automatic,
    Begin,
    Bit,
    Boolean,
    Choice,
    Component,
    Components,
    Default,
    Definitions,
    End,
    Enumerated,
    Except,
    Explicit,
    Exports,
    False,
    From,
    Ia5String,
    Identifier,
    Implicit,
    Imports,
    Includes,
    Integer,
    Intersection,
    Max,
    Min,
    Null,
    NumericString,
    Object,
    Octet,
    Of,
    Optional,
    Present,
    PrintableString,
    Private,
    Sequence,
    Set,
    Size,
    String,
    Tags,
    True,
    Union,
    Universal,
    Utf8String,
    VisibleString,
    With,
}

/// The marks of one or more characters.
#[derive(Clone, Copy, Debug, PartialEq, Eq)]
pub enum Mark {
    /// `::=`
    Assignment,
    /// `...`
    Ellipsis,
    /// `..`
    RangeSeparator,
    /// `[[`
    LeftVersionBrackets,
    /// `]]`
    RightVersionBrackets,
    /// `{`
    LeftBrace,
    /// `}`
    RightBrace,
    /// `(`
    LeftParenthesis,
    /// `)`
    RightParenthesis,
    /// `[`
    LeftBracket,
    /// `]`
    RightBracket,
    /// `,`
    Comma,
    /// `;`
    Semicolon,
    /// `:`
    Colon,
    /// `|`
    Bar,
    /// `^`
    Caret,
    /// `<`
    LessThan,
    /// `-`
    Minus,
    /// `.`
    FullStop,
    /// `!`
    Exclamation,
    /// `@`
    CommercialAt,
}
