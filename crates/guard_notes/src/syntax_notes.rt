//! What more is said of a token at which the grammar goes no further: what may come in its place.
ghost use Rattle.std.specs.Prelude.{◌≡◌, map, string_bytes, IfOk};
ghost use Rattle.guard_notes.specs.SyntaxNotes.{expected_line, other, others, IsExpectedLine};

use crate::token_notes::tokens_at;
use guard_lexer::{LexFault, Token, tokens};
use guard_model::{OutOfMemory, Site};
use guard_syntax::{SyntaxFault, parse};
use std::alloc::{AllocError, Global};

/// Marks and words that are named as they are spelled.
const WORDS: [&str; 45] = [
    "::=",
    ",",
    ";",
    "{",
    "}",
    "(",
    ")",
    "[",
    "]",
    "..",
    "|",
    "^",
    "<",
    ":",
    "ABSENT",
    "ALL",
    "APPLICATION",
    "AUTOMATIC",
    "BEGIN",
    "COMPONENT",
    "COMPONENTS",
    "DEFAULT",
    "DEFINITIONS",
    "END",
    "EXCEPT",
    "EXPLICIT",
    "EXPORTS",
    "FROM",
    "IDENTIFIER",
    "IMPLICIT",
    "IMPORTS",
    "INCLUDES",
    "INTERSECTION",
    "MAX",
    "MIN",
    "OF",
    "OPTIONAL",
    "PRESENT",
    "PRIVATE",
    "SIZE",
    "STRING",
    "TAGS",
    "UNION",
    "UNIVERSAL",
    "WITH",
];

/// What may come where a whole type may not.
const NAMES: [(&str, &str); 1] = [("A", "a Name")];

/// What may come where not every value may.
const PARTS_OF_VALUES: [(&str, &str); 5] = [
    ("a", "a name"),
    ("1", "a number"),
    ("-", "-"),
    ("\"\"", "a string"),
    ("''H", "octets"),
];

/// What may come at this place of a text, which has no token of the grammar there.
pub fn said_of_unexpected(alloc: Global, text: &[u8], site: Site) -> Result<String, OutOfMemory>
    ensures { IfOk result (λ line. IsExpectedLine (string_bytes line)) }
{
    let before = before(alloc, text, site)?;
    let mut names = Vec::new(alloc);
    add_group(alloc, before, "BOOLEAN", "a type", &NAMES, &mut names)?;
    add_group(
        alloc,
        before,
        "TRUE",
        "a value",
        &PARTS_OF_VALUES,
        &mut names,
    )?;
    add_words(alloc, before, &mut names)?;
    expected_line(alloc, &names)
}

/// The text before the token at this place, or all of it.
fn before<'t>(alloc: Global, text: &'t [u8], site: Site) -> Result<&'t [u8], OutOfMemory> {
    let all = match tokens(alloc, site.text, text) {
        Ok(tokens) => tokens,
        Err(LexFault::OutOfMemory) => return Err(OutOfMemory),
        Err(_) => return Ok(text),
    };
    match tokens_at(site, &all) {
        [first, ..] => Ok(&text[..(first.start as usize).min(text.len())]),
        [] => Ok(text),
    }
}

/// Adds the name of what begins with this token, or where that may not come those of its parts that may.
fn add_group(
    alloc: Global,
    before: &[u8],
    whole: &str,
    name: &'static str,
    parts: &[(&'static str, &'static str)],
    names: &mut Vec<&'static str>,
) -> Result<(), OutOfMemory> {
    if may_come(alloc, before, whole)? {
        names.push(name)?;
        return Ok(());
    }
    for (part, name) in parts {
        if may_come(alloc, before, part)? {
            names.push(*name)?;
        }
    }
    Ok(())
}

fn add_words(
    alloc: Global,
    before: &[u8],
    names: &mut Vec<&'static str>,
) -> Result<(), OutOfMemory> {
    for word in &WORDS {
        if may_come(alloc, before, word)? {
            names.push(*word)?;
        }
    }
    Ok(())
}

/// Whether a module text that begins so may go on with the token: the grammar goes further than it. A line feed is
/// between them, which ends a comment.
fn may_come(alloc: Global, before: &[u8], token: &str) -> Result<bool, OutOfMemory> {
    let mut text = Vec::from_slice(alloc, before)?;
    text.push(b'\n')?;
    text.extend_from_slice(token.as_bytes())?;
    match tokens(alloc, 1, &text) {
        Ok(tokens) => goes_on(alloc, &text, &tokens),
        Err(LexFault::OutOfMemory) => Err(OutOfMemory),
        Err(_) => Ok(false),
    }
}

/// Whether the grammar goes further than the last token of the text.
fn goes_on(alloc: Global, text: &[u8], tokens: &[Token]) -> Result<bool, OutOfMemory> {
    let Some(last) = tokens.last() else {
        return Ok(false);
    };
    match parse(alloc, 1, text, tokens) {
        Ok(_) => Ok(true),
        Err(SyntaxFault::OutOfMemory) => Err(OutOfMemory),
        Err(SyntaxFault::Unexpected(site)) => Ok(site != last.site),
        Err(SyntaxFault::Unsupported(_, site)) => Ok(site != last.site),
        Err(SyntaxFault::TooDeep(site)) => Ok(site != last.site),
    }
}

fn expected_line(alloc: Global, names: &[&str]) -> Result<String, OutOfMemory>
    ensures { IfOk result (λ line. string_bytes line ≡ expected_line (map (λ name. name.now) names.now)) }
{
    match names {
        [first, rest @ ..] => {
            let others = others(alloc, rest)?;
            Ok(format!(in alloc; "  What may come here: {first}{others}\n")?)
        }
        [] => Ok(String::new(alloc)),
    }
}

fn others(alloc: Global, names: &[&str]) -> Result<String, AllocError>
    ensures { IfOk result (λ text. string_bytes text ≡ others (map (λ name. name.now) names.now)) }
{
    let mut text = String::new(alloc);
    for name in names {
        let other = other(alloc, name)?;
        text.push_str(&other)?;
    }
    Ok(text)
}

fn other(alloc: Global, name: &str) -> Result<String, AllocError>
    ensures { IfOk result (λ text. string_bytes text ≡ other name.now) }
{
    format!(in alloc; " or {name}")
}
