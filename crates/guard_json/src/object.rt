//! A line as an object.
ghost use Rattle.std.specs.Prelude.{◌≡◌, true, IfOk, IfSome, option_map, OnOk};
ghost use Rattle.json.specs.Lex.{tokens};
ghost use Rattle.json.specs.Print.{print};
ghost use Rattle.guard_json.specs.Objects.{json_line, text_object, octets_object, lone_member, full_object};
ghost use Rattle.guard_json.specs.Taken.{is_one_line, told_by};
ghost use Rattle.guard_json.specs.inside.Drafting.{Reads};

use crate::draft::Draft;
use crate::members::add_members;
use guard_model::OutOfMemory;
use json::Token;
use std::alloc::Global;
use std::str::from_utf8;

/// A line of the program, without its line feed, as one object of JSON on one line: first the line itself, as `text`, or
/// where it isn't UTF-8 as `octets` in hexadecimal digits, and then its fields. OutOfMemory where there is no memory for
/// it (`json`). The line can be read back from it (`reads_back`).
pub fn json_line(alloc: Global, line: &[u8]) -> Result<Vec<u8>, OutOfMemory>
    ensures json { IfOk result (λ text. text.items ≡ json_line line.now) }
    ensures reads_back { OnOk result (told_by (tokens (json_line line.now)) ≡ line.now) }
    ensures one_line { OnOk result (is_one_line (json_line line.now) ≡ true) }
{
    match from_utf8(line) {
        Ok(text) => text_object(alloc, text),
        Err(_) => octets_object(alloc, line),
    }
}

/// The object of a line that is text, with the line's members; without them where the line has no form of its own.
fn text_object(alloc: Global, line: &str) -> Result<Vec<u8>, OutOfMemory>
    ensures json { IfOk result (λ text. text.items ≡ print (text_object line.now)) }
    ensures reads { OnOk result (Reads (text_object line.now)) }
{
    match full_object(alloc, line)? {
        Some(text) => Ok(text),
        None => lone_member(alloc, "text", line),
    }
}

/// The object of a line that isn't text.
fn octets_object(alloc: Global, line: &[u8]) -> Result<Vec<u8>, OutOfMemory>
    ensures json { IfOk result (λ text. text.items ≡ print (octets_object line.now)) }
    ensures reads { OnOk result (Reads (octets_object line.now)) }
{
    let digits = hex::encode(alloc, line)?;
    lone_member(alloc, "octets", digits.as_str())
}

/// The object of a line that is text, with its members; None where it has no form of its own.
fn full_object(alloc: Global, line: &str) -> Result<Option<Vec<u8>>, OutOfMemory>
    ensures text { IfOk result (λ text. option_map (λ text. text.items) text ≡ option_map print (full_object line.now)) }
    ensures reads { OnOk result (IfSome (full_object line.now) Reads) }
{
    let mut draft = Draft::new(alloc);
    draft.put(Token::BeginObject);
    draft.put(Token::Key("text"));
    draft.put(Token::String(line));
    add_members(&mut draft, line.as_bytes());
    draft.put(Token::EndObject);
    draft.finish()
}

/// An object with this member alone.
fn lone_member(alloc: Global, name: &str, value: &str) -> Result<Vec<u8>, OutOfMemory>
    ensures json { IfOk result (λ text. text.items ≡ print (lone_member name.now value.now)) }
    ensures reads { OnOk result (Reads (lone_member name.now value.now)) }
{
    let mut draft = Draft::new(alloc);
    draft.put(Token::BeginObject);
    draft.put(Token::Key(name));
    draft.put(Token::String(value));
    draft.put(Token::EndObject);
    match draft.finish()? {
        Some(text) => Ok(text),
        None => unreachable!(),
    }
}
