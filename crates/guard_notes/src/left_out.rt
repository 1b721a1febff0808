//! Which form of ASN.1 stands at the place of a fault, where that form is lawful and left out of this profile: what it
//! is, what to write in its place, and what `derguard-lower` does with it. A form is told by the tokens next to the
//! place, so what is said of one may be said of something else that begins like it.
use crate::advice::{Advice, NO_FURTHER, WRONG_VALUE, two_lines};
use crate::token_notes::tokens_at;
use guard_lexer::{LexFault, Mark, Reserved, Token, TokenKind as Kind, tokens};
use guard_model::{OutOfMemory, Site};
use std::alloc::Global;

/// Of a form that `derguard-lower` writes otherwise.
pub const LOWERED: Option<&str> = Some(
    "derguard-lower writes the module without it, and reports what that changes for each message.",
);

/// Of types to which nothing can be added once they are lowered.
const CLOSED: Option<&str> = Some(
    "derguard-lower closes the type: what is declared may come, and nothing else.",
);

/// Of a type for which another one can stand under an implicit tag.
const UNDER_TAGS: Option<&str> = Some(
    "derguard-lower writes another type under an implicit tag; elsewhere its bindings say what stands there.",
);

/// Of a part whose type the module doesn't say.
const HOLE: Option<&str> = Some(
    "derguard-lower takes from its bindings which type stands there, or that the part is left out.",
);

/// Tokens of extensions and exceptions.
const EXTENSIONS: [&str; 5] = ["...", "[[", "]]", "!", "EXTENSIBILITY"];

/// Tokens of forms that are written otherwise.
const REWRITTEN: [&str; 8] = [
    ".",
    "@",
    "CLASS",
    "CONTAINING",
    "CONSTRAINED",
    "PATTERN",
    "SETTINGS",
    "ENCODING-CONTROL",
];

/// The first words of types whose values may be of any type.
const OPEN_TYPES: [&str; 3] = ["ANY", "EMBEDDED", "CHARACTER"];

/// Types for which others can stand.
const OTHER_TYPES: [&str; 20] = [
    "BMPString",
    "GeneralString",
    "GraphicString",
    "ObjectDescriptor",
    "T61String",
    "TeletexString",
    "UniversalString",
    "VideotexString",
    "UTCTime",
    "GeneralizedTime",
    "DATE",
    "DATE-TIME",
    "DURATION",
    "TIME",
    "TIME-OF-DAY",
    "REAL",
    "EXTERNAL",
    "RELATIVE-OID",
    "OID-IRI",
    "RELATIVE-OID-IRI",
];

/// `CLASS.&field`
const CLASS_FIELD: Advice<'static> = Advice {
    words: "A field of a class, as CLASS.&field (X.681), is ASN.1 that this guard leaves out. Write the field's type.",
    more: LOWERED,
};

/// `<a>1</a>`
const XML: Advice<'static> = Advice {
    words: "A value in XML is ASN.1 that this guard leaves out. Write it without tags of XML.",
    more: LOWERED,
};

/// `A {B} ::= ..`, `A {}` in imports, `a A {B}`
const PARAMETERS: Advice<'static> = Advice {
    words: "Braces behind a type's name are parameters (X.683), which this guard leaves out. Write one type per use.",
    more: LOWERED,
};

/// `FROM M value`
const VALUE_OF_MODULE: Advice<'static> = Advice {
    words: "A value after a module's name (X.680 13) is ASN.1 that this guard leaves out. Remove it: the name will do.",
    more: LOWERED,
};

/// `END M DEFINITIONS ..`
const SECOND_MODULE: Advice<'static> = Advice {
    words: "ASN.1 allows several modules in a text; this guard reads one. Move this one to a file, and list that too.",
    more: Some("derguard-lower writes a file for each module."),
};

/// `SEQUENCE OF a A`
const NAME_OF_ELEMENTS: Advice<'static> = Advice {
    words: "A name before the type of elements (X.680 26) is ASN.1 that this guard leaves out. Remove the name.",
    more: LOWERED,
};

/// `[n]`, `{a(n)}`
const NUMBER_BY_NAME: Advice<'static> = Advice {
    words: "A name in place of a number (X.680 19, 31) is ASN.1 that this guard leaves out. Write the number itself.",
    more: LOWERED,
};

/// `{iso standard}`
const ARC_BY_NAME: Advice<'static> = Advice {
    words: "An arc by its name alone (X.680 32) is ASN.1 that this guard leaves out. Write its number, as 1 or iso(1).",
    more: LOWERED,
};

/// `a A ::= {iso standard}`, where A may be any type.
const PERHAPS_ARC: &str =
    "If this is an object identifier, write a number for each arc, as 1 or iso(1): this guard leaves out names alone.";

/// `a IA5String ::= {0, 1}`
const CHARACTER_BY_NUMBERS: Advice<'static> = Advice {
    words: "A character by its numbers (X.680 41) is ASN.1 that this guard leaves out. Write the string in quotes.",
    more: None,
};

/// `a < A`
const SELECTION: Advice<'static> = Advice {
    words: "A selection type, as a < B (X.680 30), is ASN.1 that this guard leaves out. Write the alternative's type.",
    more: LOWERED,
};

/// `A B ::= {..}`
const SET_OF_VALUES: Advice<'static> = Advice {
    words: "A set of values or objects (X.680 16, X.681) is ASN.1 that this guard leaves out. Constrain a type.",
    more: LOWERED,
};

/// `A MACRO ::= BEGIN ..`
const MACRO: Advice<'static> = Advice {
    words: "A macro, of X.208, is notation that this guard leaves out. Remove it, and write plain types for its uses.",
    more: LOWERED,
};

/// `({A})`
const TABLE: Advice<'static> = Advice {
    words: "A table constraint (X.682 10) is ASN.1 that this guard leaves out. Remove it, or write one type per case.",
    more: LOWERED,
};

/// `[XER:BASE64]`
const INSTRUCTION: Advice<'static> = Advice {
    words: "An encoding instruction (X.680 9) is ASN.1 that this guard leaves out. Remove it: DER takes none.",
    more: None,
};

/// `FROM M WITH SUCCESSORS`
const SUCCESSORS: Advice<'static> = Advice {
    words: "WITH SUCCESSORS and WITH DESCENDANTS (X.680 13) are ASN.1 that this guard leaves out. Remove them.",
    more: LOWERED,
};

/// `INCLUDES SEQUENCE {}`
const UNNAMED_SUBTYPE: Advice<'static> = Advice {
    words: "A subtype that is no name (X.680 51.3) is ASN.1 that this guard leaves out. Give that type a name.",
    more: LOWERED,
};

/// The form that has this character, at which no token begins.
pub fn form_of_character(rest: &[u8]) -> Option<Advice<'static>> {
    match rest {
        [b'&', ..] => Some(CLASS_FIELD),
        [b'>', ..] => Some(XML),
        _ => None,
    }
}

/// What more there is to say of a form that a token with this spelling tells.
pub fn more_of_word(spelling: &[u8]) -> Option<&'static str> {
    if is_one_of(spelling, &EXTENSIONS) {
        CLOSED
    } else if is_one_of(spelling, &REWRITTEN) {
        LOWERED
    } else if is_one_of(spelling, &OPEN_TYPES) {
        HOLE
    } else if is_one_of(spelling, &OTHER_TYPES) {
        UNDER_TAGS
    } else if spelling == "ISO646String".as_bytes() {
        Some("ISO646String is another name of VisibleString. Write that.")
    } else {
        None
    }
}

fn is_one_of(spelling: &[u8], words: &[&str]) -> bool {
    for word in words {
        if spelling == word.as_bytes() {
            return true;
        }
    }
    false
}

/// The form at a place where the grammar goes no further.
pub fn form_of_unexpected(
    alloc: Global,
    text: &[u8],
    site: Site,
) -> Result<Option<Advice<'static>>, OutOfMemory> {
    match tokens(alloc, site.text, text) {
        Ok(tokens) => Ok(form_at(&tokens, place_of(site, &tokens))),
        Err(LexFault::OutOfMemory) => Err(OutOfMemory),
        Err(_) => Ok(None),
    }
}

/// The form at the place of a value that isn't written as those of its type are.
pub fn form_of_value(
    alloc: Global,
    text: &[u8],
    site: Site,
) -> Result<Option<Advice<'static>>, OutOfMemory> {
    match tokens(alloc, site.text, text) {
        Ok(tokens) => Ok(form_of_braces(&tokens, place_of(site, &tokens))),
        Err(LexFault::OutOfMemory) => Err(OutOfMemory),
        Err(_) => Ok(None),
    }
}

/// The place of the token at the site, from 0, or how many there are if none is there.
fn place_of(site: Site, tokens: &[Token]) -> usize {
    tokens.len().saturating_sub(tokens_at(site, tokens).len())
}

fn form_at(tokens: &[Token], place: usize) -> Option<Advice<'static>> {
    if let Some(form) = form_behind(tokens, place) {
        return Some(form);
    }
    if let Some(form) = form_ahead(tokens, place) {
        return Some(form);
    }
    arcs_before(tokens, place)
}

/// A form that the token at the place tells with at most three before it.
fn form_behind(tokens: &[Token], place: usize) -> Option<Advice<'static>> {
    let third = kind_before(tokens, place, 3)?;
    let second = kind_before(tokens, place, 2)?;
    let first = kind_before(tokens, place, 1)?;
    let here = kind(tokens, place)?;
    match (third, second, first, here) {
        (Kind::Reserved(Reserved::From), Kind::UpperName, Kind::LowerName, _) => {
            Some(VALUE_OF_MODULE)
        }
        (_, Kind::Reserved(Reserved::From), Kind::UpperName, Kind::Reserved(Reserved::With)) => {
            Some(SUCCESSORS)
        }
        // No name may come after COMPONENTS OF.
        (_, Kind::Reserved(Reserved::Components), _, _) => None,
        (_, _, Kind::Reserved(Reserved::Of), Kind::LowerName) => Some(NAME_OF_ELEMENTS),
        (_, Kind::Mark(Mark::LeftBracket), Kind::Reserved(_), Kind::LowerName)
        | (_, _, Kind::Mark(Mark::LeftBracket), Kind::LowerName)
        | (_, Kind::LowerName, Kind::Mark(Mark::LeftParenthesis), Kind::LowerName) => {
            Some(NUMBER_BY_NAME)
        }
        (_, _, Kind::Mark(Mark::LeftBracket), Kind::UpperName) => Some(INSTRUCTION),
        (_, Kind::Mark(Mark::LeftParenthesis), Kind::Mark(Mark::LeftBrace), Kind::UpperName) => {
            Some(TABLE)
        }
        (_, _, Kind::UpperName, Kind::Mark(Mark::LeftBrace)) => Some(PARAMETERS),
        (_, _, Kind::Reserved(Reserved::End), Kind::UpperName) => Some(SECOND_MODULE),
        (_, _, Kind::Reserved(Reserved::Includes), Kind::Reserved(_)) => { Some(UNNAMED_SUBTYPE) }
        _ => None,
    }
}

/// A form that the token at the place tells with the one before it and two behind it.
fn form_ahead(tokens: &[Token], place: usize) -> Option<Advice<'static>> {
    let before = kind_before(tokens, place, 1)?;
    let here = kind(tokens, place)?;
    let next = kind(tokens, place.saturating_add(1))?;
    let last = kind(tokens, place.saturating_add(2))?;
    match (before, here, next, last) {
        (_, Kind::LowerName, Kind::Mark(Mark::LessThan), _) => Some(SELECTION),
        (Kind::UpperName, _, Kind::Mark(Mark::Assignment), Kind::Mark(Mark::LeftBrace)) => {
            Some(SET_OF_VALUES)
        }
        (Kind::UpperName, _, Kind::Mark(Mark::Assignment), Kind::Reserved(Reserved::Begin)) => {
            Some(MACRO)
        }
        _ => None,
    }
}

/// Braces that begin with an arc by its name, or with a number in place of a character.
fn form_of_braces(tokens: &[Token], place: usize) -> Option<Advice<'static>> {
    match kind(tokens, place.saturating_add(1))? {
        Kind::LowerName => arcs_in(tokens, place, WRONG_VALUE),
        Kind::Number => characters_in(tokens, place),
        _ => None,
    }
}

/// The braces at the place with a number, where a string is due.
fn characters_in(tokens: &[Token], place: usize) -> Option<Advice<'static>> {
    match governor(tokens, place)? {
        Kind::Reserved(
            Reserved::Ia5String
            | Reserved::NumericString
            | Reserved::PrintableString
            | Reserved::Utf8String
            | Reserved::VisibleString,
        ) => Some(CHARACTER_BY_NUMBERS),
        _ => None,
    }
}

/// Braces around the place, with a name before it that no parenthesis follows.
fn arcs_before(tokens: &[Token], place: usize) -> Option<Advice<'static>> {
    let mut has_name = false;
    let mut behind = kind(tokens, place);
    for back in 1..place {
        let token = kind_before(tokens, place, back)?;
        if token == Kind::Mark(Mark::LeftBrace) {
            let brace = place.saturating_sub(back);
            return if has_name {
                arcs_in(tokens, brace, NO_FURTHER)
            } else {
                None
            };
        }
        has_name = has_name || is_arc_by_name(token, behind);
        behind = Some(token);
    }
    None
}

/// The braces at the place with an arc by its name. Where nobody can tell that they are an object identifier, that is
/// said below these words.
fn arcs_in(tokens: &[Token], place: usize, words: &'static str) -> Option<Advice<'static>> {
    match governor(tokens, place)? {
        Kind::Reserved(Reserved::Identifier) => Some(ARC_BY_NAME),
        Kind::UpperName => Some(two_lines(words, PERHAPS_ARC)),
        _ => None,
    }
}

fn is_arc_by_name(token: Kind, behind: Option<Kind>) -> bool {
    token == Kind::LowerName && behind != Some(Kind::Mark(Mark::LeftParenthesis))
}

/// The last token of the type of which the braces at the place are a value: that before `::=`, DEFAULT or a
/// parenthesis.
fn governor(tokens: &[Token], place: usize) -> Option<Kind> {
    let before = kind_before(tokens, place, 1)?;
    let is_behind_type = before == Kind::Mark(Mark::Assignment)
        || before == Kind::Mark(Mark::LeftParenthesis)
        || before == Kind::Reserved(Reserved::Default);
    if is_behind_type && kind(tokens, place) == Some(Kind::Mark(Mark::LeftBrace)) {
        kind_before(tokens, place, 2)
    } else {
        None
    }
}

/// What the token is that comes so many before the place.
fn kind_before(tokens: &[Token], place: usize, back: usize) -> Option<Kind> {
    kind(tokens, place.checked_sub(back)?)
}

fn kind(tokens: &[Token], place: usize) -> Option<Kind> {
    match tokens.get(place) {
        Some(token) => Some(token.kind),
        None => None,
    }
}
