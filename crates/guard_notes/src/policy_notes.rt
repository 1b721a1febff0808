//! What more is said of a policy's fault: the entry that has it, the line on which that begins, and the keys that are
//! meant.
ghost use Rattle.std.specs.Prelude.{◌≡◌, ◌≤◌, length, option_map, option_and_then, string_bytes, IfOk};
ghost use Rattle.toml.specs.Data.{as_array};
ghost use Rattle.toml.specs.View.{view, items_view, table_view};
ghost use Rattle.guard_notes.specs.PolicyNotes.{IsSaidOfPolicy, IsTomlNote, item_at, listed, entry_of, value_at};
ghost use Rattle.guard_notes.specs.PolicyNotes.{word_at, text_at, key_line, key_lines, name_line, heading};
ghost use Rattle.guard_notes.specs.PolicyNotes.{entry_lines, lines_at, bad_key, bad_rule_lines, bad_name_lines};
ghost use Rattle.guard_notes.specs.PolicyNotes.{is_of, number_of_rule, rule_lines, table_lines, unknown_key_lines};
ghost use Rattle.guard_notes.specs.PolicyNotes.{message_lines, fault_lines};

use crate::headers::line_of;
use crate::marking::{columns, line_at, marked_line};
use guard_model::OutOfMemory;
use guard_policy::{Entry, Key, PolicyFault, is_name, is_party};
use guard_syntax::end_of;
use guard_tables::TableFault;
use std::alloc::Global;
use toml::de::Error;
use toml::{Table, Value};

/// The keys of a type.
const TYPE_KEYS: [Key; 2] = [Key::Module, Key::TypeName];

/// The lines that are said of the fault of a policy with this text.
pub fn policy_lines(alloc: Global, text: &[u8], fault: &PolicyFault) -> Result<String, OutOfMemory>
    ensures { IfOk result (λ lines. IsSaidOfPolicy text.now fault.now (string_bytes lines)) }
{
    match toml::table_from_slice(alloc, text) {
        Ok(top) => fault_lines(alloc, text, &top, fault),
        Err(e) if e.is_memory() => Err(OutOfMemory),
        Err(e) => toml_lines(alloc, text, &e),
    }
}

/// What `toml` says of a text that is no document, with its place.
fn toml_lines(alloc: Global, text: &[u8], error: &Error) -> Result<String, OutOfMemory>
    ensures { IfOk result (λ lines. IsTomlNote text.now (string_bytes lines)) }
{
    let site = end_of(0, &text[..offset_of(text, error)]);
    let marked = marked_line(alloc, line_at(text, site.line), site.column)?;
    let words = columns(alloc, error.message().as_bytes())?;
    let (line, column) = (site.line, site.column);
    Ok(format!(in alloc; "  line {line}, column {column}\n{marked}  {words}\n")?)
}

/// A place in the text: where `toml` stops.
fn offset_of(text: &[u8], error: &Error) -> usize
    ensures { result ≤ length text.now }
{
    match error.span() {
        Some(span) => span.start.min(text.len()),
        None => 0,
    }
}

/// The lines that are said of the fault of a document.
fn fault_lines(
    alloc: Global,
    text: &[u8],
    top: &Table,
    fault: &PolicyFault,
) -> Result<String, OutOfMemory>
    ensures { IfOk result (λ lines. string_bytes lines ≡ fault_lines text.now (table_view top.now) fault.now) }
{
    match fault {
        PolicyFault::Toml | PolicyFault::OutOfMemory => Ok(String::new(alloc)),
        PolicyFault::UnknownKey(entry, key) => unknown_key_lines(alloc, text, top, *entry, key),
        PolicyFault::MissingKey(entry, key) => lines_at(alloc, text, top, *entry, &[*key]),
        PolicyFault::BadName(entry) => bad_name_lines(alloc, text, top, *entry),
        PolicyFault::DuplicateName(entry) => lines_at(alloc, text, top, *entry, &[]),
        PolicyFault::NoSuchType(entry) => lines_at(alloc, text, top, *entry, &TYPE_KEYS),
        PolicyFault::NoSuchMessage(entry) => lines_at(alloc, text, top, *entry, &[Key::Message]),
        PolicyFault::BadEffect(entry) => lines_at(alloc, text, top, *entry, &[Key::Effect]),
        PolicyFault::Table(number, fault) => message_lines(alloc, text, top, *number, fault),
    }
}

/// The entry, and its key that nothing has.
fn unknown_key_lines(
    alloc: Global,
    text: &[u8],
    top: &Table,
    entry: Entry,
    key: &str,
) -> Result<String, OutOfMemory>
    ensures { IfOk result (λ lines. string_bytes lines
        ≡ unknown_key_lines text.now (table_view top.now) entry key.now) }
{
    let lines = lines_at(alloc, text, top, entry, &[])?;
    let key = key_line(alloc, key, None)?;
    Ok(format!(in alloc; "{lines}{key}")?)
}

/// The message of this number with its type, and the rule whose type isn't one for it.
fn message_lines(
    alloc: Global,
    text: &[u8],
    top: &Table,
    number: usize,
    fault: &TableFault,
) -> Result<String, OutOfMemory>
    ensures { IfOk result (λ lines. string_bytes lines
        ≡ message_lines text.now (table_view top.now) number fault.now) }
{
    let lines = entry_lines(alloc, text, top, Key::Message, number, &TYPE_KEYS)?;
    let more = table_lines(alloc, text, top, number, fault)?;
    Ok(format!(in alloc; "{lines}{more}")?)
}

fn table_lines(
    alloc: Global,
    text: &[u8],
    top: &Table,
    number: usize,
    fault: &TableFault,
) -> Result<String, OutOfMemory>
    ensures { IfOk result (λ lines. string_bytes lines ≡ table_lines text.now (table_view top.now) number fault.now) }
{
    match fault {
        TableFault::RuleTypeMismatch(rule) => {
            rule_lines(alloc, text, top, mismatched(top, number, *rule))
        }
        _ => Ok(String::new(alloc)),
    }
}

fn rule_lines(
    alloc: Global,
    text: &[u8],
    top: &Table,
    number: Option<usize>,
) -> Result<String, OutOfMemory>
    ensures { IfOk result (λ lines. string_bytes lines ≡ rule_lines text.now (table_view top.now) number) }
{
    match number {
        Some(number) => entry_lines(alloc, text, top, Key::Rule, number, &TYPE_KEYS),
        None => Ok(String::new(alloc)),
    }
}

/// The number of the rule that has this place, from 0, among those of the message of this number.
fn mismatched(top: &Table, number: usize, among: usize) -> Option<usize>
    ensures { result ≡ option_and_then
        (number_of_rule (word_at Key.Name (entry_of Key.Message number (table_view top.now))) among 1)
        (option_and_then as_array (listed Key.Rule (table_view top.now))) }
{
    let message = word_at(entry_of(top, Key::Message, number), Key::Name);
    match listed(top, Key::Rule) {
        Some(rules) => match rules.as_array() {
            Some(rules) => number_of_rule(rules, message, among),
            None => None,
        },
        None => None,
    }
}

fn number_of_rule(rules: &[Value], message: Option<&str>, among: usize) -> Option<usize>
    ensures { result ≡ number_of_rule (option_map (λ name. name.now) message.entry) among 1 (items_view rules.now) }
{
    let mut left = among;
    for (place, rule) in rules.iter().enumerate() {
        if is_of(rule, message) {
            if left == 0 {
                return Some(place + 1);
            }
            left -= 1;
        }
    }
    None
}

/// Whether the rule is one of this message.
pub fn is_of(rule: &Value, message: Option<&str>) -> bool
    ensures { result ≡ is_of (option_map (λ name. name.now) message.entry) (view rule.now) }
{
    match (message, word_at(Some(rule), Key::Message)) {
        (Some(message), Some(word)) => message == word,
        _ => false,
    }
}

// ---- entries and their keys

/// The entry with these keys; at the top the keys alone.
fn lines_at(
    alloc: Global,
    text: &[u8],
    top: &Table,
    entry: Entry,
    keys: &[Key],
) -> Result<String, OutOfMemory>
    ensures { IfOk result (λ lines. string_bytes lines ≡ lines_at text.now (table_view top.now) entry keys.now) }
{
    match entry {
        Entry::Top => key_lines(alloc, keys, None),
        Entry::Message(number) => entry_lines(alloc, text, top, Key::Message, number, keys),
        Entry::Rule(number) => entry_lines(alloc, text, top, Key::Rule, number, keys),
    }
}

/// An entry by its kind, number, line and name, and then these keys of it.
fn entry_lines(
    alloc: Global,
    text: &[u8],
    top: &Table,
    kind: Key,
    number: usize,
    keys: &[Key],
) -> Result<String, OutOfMemory>
    ensures { IfOk result (λ lines. string_bytes lines
        ≡ entry_lines text.now (table_view top.now) kind number keys.now) }
{
    let line = line_of(alloc, text, listed(top, kind), kind, number)?;
    let entry = entry_of(top, kind, number);
    let heading = heading(alloc, kind, number, line)?;
    let name = name_line(alloc, word_at(entry, Key::Name))?;
    let keys = key_lines(alloc, keys, entry)?;
    Ok(format!(in alloc; "{heading}{name}{keys}")?)
}

fn heading(
    alloc: Global,
    kind: Key,
    number: usize,
    line: Option<usize>,
) -> Result<String, OutOfMemory>
    ensures { IfOk result (λ text. string_bytes text ≡ heading kind number line) }
{
    let kind = kind.text();
    match line {
        Some(line) => Ok(format!(in alloc; "  {kind} {number}, line {line}\n")?),
        None => Ok(format!(in alloc; "  {kind} {number}\n")?),
    }
}

fn name_line(alloc: Global, name: Option<&str>) -> Result<String, OutOfMemory>
    ensures { IfOk result (λ line. string_bytes line ≡ name_line (option_map (λ name. name.now) name.entry)) }
{
    match name {
        Some(name) => key_line(alloc, "name", Some(name)),
        None => Ok(String::new(alloc)),
    }
}

fn key_lines(alloc: Global, keys: &[Key], entry: Option<&Value>) -> Result<String, OutOfMemory>
    ensures { IfOk result (λ lines. string_bytes lines
        ≡ key_lines keys.now (option_map (λ value. view value.now) entry.entry)) }
{
    let mut lines = String::new(alloc);
    for key in keys {
        let line = key_line(alloc, key.text(), word_at(entry, *key))?;
        lines.push_str(&line)?;
    }
    Ok(lines)
}

/// A key, and the text at it if one is there.
fn key_line(alloc: Global, key: &str, word: Option<&str>) -> Result<String, OutOfMemory>
    ensures { IfOk result (λ line. string_bytes line ≡ key_line key.now (option_map (λ word. word.now) word.entry)) }
{
    let key = columns(alloc, key.as_bytes())?;
    match word {
        Some(word) => {
            let word = columns(alloc, word.as_bytes())?;
            Ok(format!(in alloc; "  {key} {word}\n")?)
        }
        None => Ok(format!(in alloc; "  {key}\n")?),
    }
}

/// The entry that has a bad name.
fn bad_name_lines(
    alloc: Global,
    text: &[u8],
    top: &Table,
    entry: Entry,
) -> Result<String, OutOfMemory>
    ensures { IfOk result (λ lines. string_bytes lines ≡ bad_name_lines text.now (table_view top.now) entry) }
{
    match entry {
        Entry::Top => Ok(String::new(alloc)),
        Entry::Message(number) => entry_lines(alloc, text, top, Key::Message, number, &[]),
        Entry::Rule(number) => {
            let key = bad_key(entry_of(top, Key::Rule, number));
            bad_rule_lines(alloc, text, top, number, key)
        }
    }
}

/// A rule, and the key of its bad name.
fn bad_rule_lines(
    alloc: Global,
    text: &[u8],
    top: &Table,
    number: usize,
    bad: Option<Key>,
) -> Result<String, OutOfMemory>
    ensures { IfOk result (λ lines. string_bytes lines ≡ bad_rule_lines text.now (table_view top.now) number bad) }
{
    match bad {
        Some(bad) => entry_lines(alloc, text, top, Key::Rule, number, &[bad]),
        None => entry_lines(alloc, text, top, Key::Rule, number, &[]),
    }
}

/// The key at which the rule has its bad name, of several the first. Its own name is shown anyway and counts as none.
fn bad_key(rule: Option<&Value>) -> Option<Key>
    ensures { result ≡ bad_key (option_map (λ value. view value.now) rule.entry) }
{
    if !is_name(text_at(rule, Key::Name).as_bytes()) {
        None
    } else if !is_party(text_at(rule, Key::From)) {
        Some(Key::From)
    } else if !is_party(text_at(rule, Key::To)) {
        Some(Key::To)
    } else {
        Some(Key::Message)
    }
}

// ---- what `toml` has

/// The text at a key of an entry.
pub fn word_at<'a>(entry: Option<&'a Value>, key: Key) -> Option<&'a str>
    ensures { option_map (λ word. word.now) result ≡ word_at key (option_map (λ value. view value.now) entry.entry) }
{
    match value_at(entry, key) {
        Some(value) => value.as_str(),
        None => None,
    }
}

/// The text at a key of an entry, or an empty one.
fn text_at<'a>(entry: Option<&'a Value>, key: Key) -> &'a str
    ensures { result.now ≡ text_at key (option_map (λ value. view value.now) entry.entry) }
{
    word_at(entry, key).unwrap_or("")
}

fn value_at<'a>(entry: Option<&'a Value>, key: Key) -> Option<&'a Value>
    ensures { option_map (λ value. view value.now) result
        ≡ value_at key (option_map (λ value. view value.now) entry.entry) }
{
    match entry {
        Some(entry) => entry.get(key.text()),
        None => None,
    }
}

/// The entry of this number, from 1.
pub fn entry_of<'a>(top: &'a Table, kind: Key, number: usize) -> Option<&'a Value>
    ensures { option_map (λ value. view value.now) result ≡ entry_of kind number (table_view top.now) }
{
    item_at(listed(top, kind), number.saturating_sub(1))
}

/// The list of the messages or of the rules.
pub fn listed<'a>(top: &'a Table, kind: Key) -> Option<&'a Value>
    ensures { option_map (λ value. view value.now) result ≡ listed kind (table_view top.now) }
{
    top.get(kind.text())
}

/// The item at a place, from 0, of a list.
pub fn item_at<'a>(list: Option<&'a Value>, place: usize) -> Option<&'a Value>
    ensures { option_map (λ value. view value.now) result
        ≡ item_at place (option_map (λ value. view value.now) list.entry) }
{
    match list {
        Some(list) => list.get(place),
        None => None,
    }
}
