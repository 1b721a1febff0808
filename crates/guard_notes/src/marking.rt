//! A line of a text, with a mark under one of its columns.
ghost use Rattle.std.specs.Prelude.{◌≡◌, ◌≤◌, ◌<◌, ◌-◌, ℕ, suc, length, map, take, drop, replicate};
ghost use Rattle.std.specs.Prelude.{slice_get, unwrap_or, string_bytes, [], IfOk, nat_lt};
ghost use Rattle.guard_notes.specs.Marking.{line_at, shown, dots, left_out, place_of, marked_at, marked_line, columns};
ghost use Rattle.guard_notes.specs.Lines.{lines_of};

use crate::lines::line_end;
use std::alloc::{AllocError, Global};

/// How many columns of a line are shown.
const WIDTH: usize = 120;

/// How many of them come before the mark where a line has more.
const BEFORE: usize = 60;

/// The line of this number, from 1, without its line feed.
pub fn line_at(text: &[u8], number: u32) -> &[u8]
    ensures { result.now ≡ line_at number text.now }
{
    let mut rest = text;
    for _ in 1..number {
        rest = after_line(rest);
    }
    &rest[..line_end(rest)]
}

/// What comes after the first line.
fn after_line(text: &[u8]) -> &[u8]
    ensures { (k : ℕ) → slice_get (lines_of result.now) k ≡ slice_get (lines_of text.now) (suc k) }
{
    let end = line_end(text);
    if end < text.len() {
        &text[end + 1..]
    } else {
        &[]
    }
}

/// The line, of which at most 120 columns are shown, and below it a mark under the column, from 1.
pub fn marked_line(alloc: Global, line: &[u8], column: u32) -> Result<String, AllocError>
    ensures { IfOk result (λ text. string_bytes text ≡ marked_line column line.now) }
{
    let place = place_of(line, column);
    marked_at(alloc, line, place, left_out(line, place))
}

/// The place, from 0, of a column, from 1; past the line's end its end.
pub fn place_of(line: &[u8], column: u32) -> usize
    ensures { result ≡ place_of column line.now }
{
    let place = (column as usize).saturating_sub(1);
    if place <= line.len() {
        place
    } else {
        line.len()
    }
}

/// How many columns are left out before those that are shown.
fn left_out(line: &[u8], place: usize) -> usize
    ensures value { result ≡ left_out place line.now }
    ensures within { result ≤ place }
{
    if line.len() <= WIDTH {
        0
    } else {
        place.saturating_sub(BEFORE)
    }
}

fn marked_at(alloc: Global, line: &[u8], place: usize, out: usize) -> Result<String, AllocError>
    requires within { out ≤ place }
    requires there { place ≤ length line.now }
    ensures { IfOk result (λ text. string_bytes text ≡ marked_at place out line.now) }
{
    let (_, rest) = line.split_at(out);
    let (before, after) = (dots(out > 0), dots(rest.len() > WIDTH));
    let part = shown_text(alloc, first_columns(rest))?;
    let indent = blanks(alloc, before.len() + (place - out))?;
    format!(in alloc; "  | {before}{part}{after}\n  | {indent}^\n")
}

/// At most 120 columns of a text, and dots where it has more.
pub fn columns(alloc: Global, text: &[u8]) -> Result<String, AllocError>
    ensures { IfOk result (λ shown. string_bytes shown ≡ columns text.now) }
{
    let part = shown_text(alloc, first_columns(text))?;
    let after = dots(text.len() > WIDTH);
    format!(in alloc; "{part}{after}")
}

fn dots(some: bool) -> &'static str
    ensures { result.now ≡ dots some }
{
    if some { "..." } else { "" }
}

fn first_columns(line: &[u8]) -> &[u8]
    ensures { result.now ≡ take 120 line.now }
{
    if line.len() <= WIDTH {
        line
    } else {
        &line[..WIDTH]
    }
}

fn shown_text(alloc: Global, octets: &[u8]) -> Result<String, AllocError>
    ensures { IfOk result (λ text. string_bytes text ≡ map shown octets.now) }
{
    let mut text = String::new(alloc);
    for octet in octets {
        text.push(char::from(shown(*octet)))?;
    }
    Ok(text)
}

/// A printable character itself, a blank for a tab or the end of a line, and `?` for any other octet.
fn shown(octet: u8) -> u8
    ensures value { result ≡ shown octet }
    ensures ascii { result < 128 }
{
    match octet {
        32..=126 => octet,
        9 | 13 => b' ',
        _ => b'?',
    }
}

fn blanks(alloc: Global, count: usize) -> Result<String, AllocError>
    ensures { IfOk result (λ text. string_bytes text ≡ replicate count 32) }
{
    let mut text = String::new(alloc);
    for _ in 0..count {
        text.push(' ')?;
    }
    Ok(text)
}
