//! On which line of a policy's text an entry begins.
ghost use Rattle.std.specs.Prelude.{◌≡◌, option_map, slice_get, IfOk};
ghost use Rattle.toml.specs.View.{view};
ghost use Rattle.guard_notes.specs.Lines.{lines_of};
ghost use Rattle.guard_notes.specs.PolicyNotes.{has, is_plain, lines_with, header, has_so_many, line_among};

use crate::lines::first_line;
use crate::policy_notes::item_at;
use guard_policy::Key;
use std::alloc::{AllocError, Global};
use toml::Value;

/// The line on which the entry of this number of the list begins. It is known where no string has several lines and as
/// many lines begin as entries of this kind do as there are entries.
pub fn line_of(
    alloc: Global,
    text: &[u8],
    list: Option<&Value>,
    kind: Key,
    number: usize,
) -> Result<Option<usize>, AllocError>
    ensures { IfOk result (λ line. line ≡ line_among (lines_with (header kind) 1 (lines_of text.now)) text.now
        (option_map (λ value. view value.now) list.entry) number) }
{
    let kind = kind.text();
    let mark = format!(in alloc; "[[{kind}]]")?;
    let found = lines_with(alloc, mark.as_bytes(), text)?;
    if is_plain(text) && has_so_many(found.len(), list) {
        Ok(at(&found, number.saturating_sub(1)))
    } else {
        Ok(None)
    }
}

fn at(numbers: &[usize], place: usize) -> Option<usize>
    ensures { result ≡ slice_get numbers.now place }
{
    match numbers.get(place) {
        Some(number) => Some(*number),
        None => None,
    }
}

/// Whether the list has so many items, and some.
fn has_so_many(count: usize, list: Option<&Value>) -> bool
    ensures { result ≡ has_so_many count (option_map (λ value. view value.now) list.entry) }
{
    item_at(list, count.saturating_sub(1)).is_some() && item_at(list, count).is_none()
}

/// The numbers, from 1, of the lines that begin with the mark.
fn lines_with(alloc: Global, mark: &[u8], text: &[u8]) -> Result<Vec<usize>, AllocError>
    ensures { IfOk result (λ found. found.items ≡ lines_with mark.now 1 (lines_of text.now)) }
{
    let mut found = Vec::new(alloc);
    let mut rest = text;
    let mut number = 1;
    while !rest.is_empty() {
        let (line, others) = first_line(rest);
        if line.starts_with(mark) {
            found.push(number)?;
        }
        number += 1;
        rest = others;
    }
    Ok(found)
}

/// Whether no string in the text can have several lines.
fn is_plain(text: &[u8]) -> bool
    ensures { result ≡ is_plain text.now }
{
    !has(text, b"\"\"\"") && !has(text, b"'''")
}

/// Whether the text has these octets somewhere.
fn has(text: &[u8], mark: &[u8]) -> bool
    ensures { result ≡ has mark.now text.now }
{
    for place in 0..text.len() {
        if text[place..].starts_with(mark) {
            return true;
        }
    }
    false
}
