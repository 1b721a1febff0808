//! Character strings.
ghost use Rattle.std.specs.Prelude.{◌≡◌, ◌++◌, not, OnOk, IfOk, chars};
ghost use Rattle.std.specs.List.{list_all};
ghost use Rattle.guard_report.specs.CharacterStrings.{is_hidden, as_quoted, in_quotes, numbers_of, characters_text};
ghost use Rattle.guard_report.specs.inside.Listing.{end_of, end_of_list, opening, listed, last_of, list_of_pieces};

use super::words::{add, add_number};
use guard_model::{CharKind, OutOfMemory};

/// Appends the string in quotes where each character can be seen, else the list of what is seen and of hidden
/// characters by their numbers.
pub(crate) fn add_characters(
    text: &mut Vec<u8>,
    kind: Option<CharKind>,
    string: &str,
) -> Result<(), OutOfMemory>
    ensures { OnOk result (text.new.items ≡ text.old.items ++ characters_text kind (chars string.now)) }
{
    if are_all_seen(string) {
        add_in_quotes(text, string)
    } else {
        add_list(text, kind, string)
    }
}

fn are_all_seen(string: &str) -> bool
    ensures { result ≡ list_all (λ code. not (is_hidden code)) (chars string.now) }
{
    for character in string.chars() {
        if is_hidden(u32::from(character)) {
            return false;
        }
    }
    true
}

/// Whether a character is written by its numbers, since it can't be seen: controls, marks of direction and width, ends
/// of lines and paragraphs, tags.
fn is_hidden(code: u32) -> bool
    ensures { result ≡ is_hidden code }
{
    code <= 31
        || (127 <= code && code <= 159)
        || code == 173
        || code == 1564
        || (8203 <= code && code <= 8207)
        || (8232 <= code && code <= 8238)
        || (8288 <= code && code <= 8303)
        || code == 65279
        || (65529 <= code && code <= 65531)
        || (917504 <= code && code <= 921599)
}

fn add_in_quotes(text: &mut Vec<u8>, string: &str) -> Result<(), OutOfMemory>
    ensures { OnOk result (text.new.items ≡ text.old.items ++ in_quotes (chars string.now)) }
{
    add(text, b"\"")?;
    for character in string.chars() {
        add_as_quoted(text, character)?;
    }
    add(text, b"\"")
}

/// Appends a character as it stands in quotes, where a quote is written twice.
fn add_as_quoted(text: &mut Vec<u8>, character: char) -> Result<(), OutOfMemory>
    ensures { OnOk result (text.new.items ≡ text.old.items ++ as_quoted character) }
{
    if character == '"' {
        return add(text, b"\"\"");
    }
    let mut bytes = [0; 4];
    add(text, character.encode_utf8(&mut bytes).as_bytes())
}

// ---- lists of characters

/// What comes last in a list of characters so far.
#[derive(Clone, Copy)]
enum Last {
    Nothing,
    /// A run of characters, whose quotes are still open.
    Run,
    /// A character by its numbers.
    Numbers,
}

fn add_list(text: &mut Vec<u8>, kind: Option<CharKind>, string: &str) -> Result<(), OutOfMemory>
    ensures { OnOk result (text.new.items ≡ text.old.items ++ list_of_pieces kind (chars string.now)) }
{
    add(text, b"{")?;
    let mut last = Last::Nothing;
    for character in string.chars() {
        last = add_listed(text, kind, last, character)?;
    }
    add_end(text, last)
}

/// Closes a run, and the list.
fn add_end(text: &mut Vec<u8>, last: Last) -> Result<(), OutOfMemory>
    ensures { OnOk result (text.new.items ≡ text.old.items ++ end_of_list last) }
{
    match last {
        Last::Run => add(text, b"\"}"),
        _ => add(text, b"}"),
    }
}

/// Appends one more character to a list, and answers what comes last then.
fn add_listed(
    text: &mut Vec<u8>,
    kind: Option<CharKind>,
    last: Last,
    character: char,
) -> Result<Last, OutOfMemory>
    ensures text { OnOk result (text.new.items ≡ text.old.items ++ listed kind last character) }
    ensures last { IfOk result (λ l. l ≡ last_of character) }
{
    let code = u32::from(character);
    if is_hidden(code) {
        add_end_of(text, last)?;
        add_numbers(text, kind, code)?;
        Ok(Last::Numbers)
    } else {
        add_opening(text, last)?;
        add_as_quoted(text, character)?;
        Ok(Last::Run)
    }
}

/// Appends what closes a run, and the comma before the next piece.
fn add_end_of(text: &mut Vec<u8>, last: Last) -> Result<(), OutOfMemory>
    ensures { OnOk result (text.new.items ≡ text.old.items ++ end_of last) }
{
    match last {
        Last::Nothing => Ok(()),
        Last::Run => add(text, b"\", "),
        Last::Numbers => add(text, b", "),
    }
}

/// Appends what comes before a character that is seen.
fn add_opening(text: &mut Vec<u8>, last: Last) -> Result<(), OutOfMemory>
    ensures { OnOk result (text.new.items ≡ text.old.items ++ opening last) }
{
    match last {
        Last::Nothing => add(text, b"\""),
        Last::Run => Ok(()),
        Last::Numbers => add(text, b", \""),
    }
}

/// Appends the group, plane, row and cell of a character; of an IA5String its column and row.
fn add_numbers(text: &mut Vec<u8>, kind: Option<CharKind>, code: u32) -> Result<(), OutOfMemory>
    ensures { OnOk result (text.new.items ≡ text.old.items ++ numbers_of kind code) }
{
    if kind == Some(CharKind::Ia5) {
        add(text, b"{")?;
        add_number(text, u64::from(code / 16))?;
        add(text, b", ")?;
        add_number(text, u64::from(code % 16))?;
    } else {
        add(text, b"{0, ")?;
        add_number(text, u64::from(code / 65536))?;
        add(text, b", ")?;
        add_number(text, u64::from(code / 256 % 256))?;
        add(text, b", ")?;
        add_number(text, u64::from(code % 256))?;
    }
    add(text, b"}")
}
