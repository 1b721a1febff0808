//! What more is said of a fault of a module, by the tokens of its text.
ghost use Rattle.std.specs.Prelude.{◌≡◌, ◌&&◌, false, option_map, string_bytes, IfOk};
ghost use Rattle.guard_syntax.specs.Lexemes.{octets_of};
ghost use Rattle.guard_notes.specs.TokenNotes.{ByTokens, is_at, tokens_at, begins_with, begin_swapped, are_swapped};
ghost use Rattle.guard_notes.specs.TokenNotes.{is_near, is_behind_imported, is_type_name, are_imports, near_name};
ghost use Rattle.guard_notes.specs.TokenNotes.{undefined_line, undefined_lines, site_of_name, site_of_syntax};

use crate::marking::columns;
use guard_lexer::{LexFault, Mark, Reserved, Token, TokenKind, tokens};
use guard_model::{OutOfMemory, Site};
use guard_names::NameFault;
use guard_syntax::SyntaxFault;
use std::alloc::{AllocError, Global};
use strsim::generic_levenshtein;

/// What is said of a name at this place that means nothing.
pub fn said_of_undefined(alloc: Global, text: &[u8], site: Site) -> Result<String, OutOfMemory>
    ensures { IfOk result (λ lines. ByTokens site.text text.now (undefined_lines text.now site) (string_bytes lines)) }
{
    match tokens(alloc, site.text, text) {
        Ok(tokens) => undefined_lines(alloc, text, site, &tokens),
        Err(LexFault::OutOfMemory) => Err(OutOfMemory),
        Err(_) => Ok(String::new(alloc)),
    }
}

/// Where the grammar goes no further.
pub fn site_of_syntax(fault: &SyntaxFault) -> Option<Site>
    ensures { result ≡ site_of_syntax fault.now }
{
    match fault {
        SyntaxFault::Unexpected(site) => Some(*site),
        _ => None,
    }
}

/// Where a fault of names is that tokens say more of.
pub fn site_of_name(fault: &NameFault) -> Option<Site>
    ensures { result ≡ site_of_name fault.now }
{
    match fault {
        NameFault::Undefined(site) => Some(*site),
        _ => None,
    }
}

// ---- a name that means nothing

fn undefined_lines(
    alloc: Global,
    text: &[u8],
    site: Site,
    tokens: &[Token],
) -> Result<String, OutOfMemory>
    ensures { IfOk result (λ lines. string_bytes lines ≡ undefined_lines text.now site tokens.now) }
{
    match tokens_at(site, tokens) {
        [first, ..] => {
            let word = octets(text, first);
            undefined_line(alloc, word, near_name(alloc, text, word, tokens)?)
        }
        [] => Ok(String::new(alloc)),
    }
}

fn undefined_line(alloc: Global, word: &[u8], other: Option<&[u8]>) -> Result<String, OutOfMemory>
    ensures { IfOk result (λ line. string_bytes line
        ≡ undefined_line word.now (option_map (λ other. other.now) other.entry)) }
{
    let word = columns(alloc, word)?;
    match other {
        Some(other) => {
            let other = columns(alloc, other)?;
            Ok(format!(in alloc; "  {word}; perhaps {other}\n")?)
        }
        None => Ok(format!(in alloc; "  {word}\n")?),
    }
}

/// The first name of a type that is assigned or imported and near to this one.
fn near_name<'a>(
    alloc: Global,
    text: &'a [u8],
    word: &[u8],
    tokens: &[Token],
) -> Result<Option<&'a [u8]>, AllocError>
    ensures { IfOk result (λ found. option_map (λ other. other.now) found
        ≡ near_name text.now word.now false tokens.now) }
{
    let mut importing = false;
    for (place, token) in tokens.iter().enumerate() {
        let other = octets(text, token);
        let is_type = is_type_name(importing, token, &tokens[place + 1..]);
        if is_near_type(alloc, word, other, is_type)? {
            return Ok(Some(other));
        }
        importing = are_imports(importing, token);
    }
    Ok(None)
}

/// Whether the other name is that of a type and near to this one.
fn is_near_type(alloc: Global, word: &[u8], other: &[u8], is_type: bool) -> Result<bool, AllocError>
    ensures { IfOk result (λ near. near ≡ (is_type && is_near word.now other.now)) }
{
    if is_type {
        is_near(alloc, word, other)
    } else {
        Ok(false)
    }
}

fn is_near(alloc: Global, word: &[u8], other: &[u8]) -> Result<bool, AllocError>
    ensures { IfOk result (λ near. near ≡ is_near word.now other.now) }
{
    let distance = generic_levenshtein(alloc, word, other)?;
    Ok(distance == 1 || are_swapped(word, other))
}

/// Whether two neighbours are the other way round, and else the octets are the same.
fn are_swapped(word: &[u8], other: &[u8]) -> bool
    ensures { result ≡ are_swapped word.now other.now }
{
    let mut left = word;
    let mut right = other;
    while let [first, more @ ..] = left {
        let [second, others @ ..] = right else {
            return false;
        };
        if first != second {
            return begin_swapped(left, right);
        }
        left = more;
        right = others;
    }
    false
}

fn begin_swapped(word: &[u8], other: &[u8]) -> bool
    ensures { result ≡ begin_swapped word.now other.now }
{
    let [a, b, more @ ..] = word else {
        return false;
    };
    let [c, d, others @ ..] = other else {
        return false;
    };
    a == d && b == c && more == others
}

/// Whether the token is the name of a type that is assigned, or that is imported.
fn is_type_name(importing: bool, token: &Token, behind: &[Token]) -> bool
    ensures { result ≡ is_type_name importing token.now behind.now }
{
    token.kind == TokenKind::UpperName
        && (begins_with(behind, TokenKind::Mark(Mark::Assignment))
            || (importing && is_behind_imported(behind)))
}

fn is_behind_imported(tokens: &[Token]) -> bool
    ensures { result ≡ is_behind_imported tokens.now }
{
    begins_with(tokens, TokenKind::Mark(Mark::Comma))
        || begins_with(tokens, TokenKind::Reserved(Reserved::From))
}

/// Whether the tokens behind this one are in IMPORTS.
fn are_imports(importing: bool, token: &Token) -> bool
    ensures { result ≡ are_imports importing token.now }
{
    token.kind == TokenKind::Reserved(Reserved::Imports)
        || (importing && token.kind != TokenKind::Mark(Mark::Semicolon))
}

fn begins_with(tokens: &[Token], kind: TokenKind) -> bool
    ensures { result ≡ begins_with kind tokens.now }
{
    match tokens {
        [first, ..] => first.kind == kind,
        [] => false,
    }
}

/// The tokens from the place on.
pub fn tokens_at(site: Site, tokens: &[Token]) -> &[Token]
    ensures { result.now ≡ tokens_at site tokens.now }
{
    for (place, token) in tokens.iter().enumerate() {
        if is_at(site, token) {
            return &tokens[place..];
        }
    }
    &[]
}

fn is_at(site: Site, token: &Token) -> bool
    ensures { result ≡ is_at site token.now }
{
    token.site.line == site.line && token.site.column == site.column
}

/// The octets of a token. A span that leaves the text is cut.
fn octets<'a>(text: &'a [u8], token: &Token) -> &'a [u8]
    ensures { result.now ≡ octets_of text.now token.now }
{
    let end = (token.end as usize).min(text.len());
    let start = (token.start as usize).min(end);
    &text[start..end]
}
