//! What a file of cases says, and what is wrong with it.
ghost use Rattle.std.specs.Prelude.{◌≡◌, ◌++◌, ℕ, List, true, Some, None, is_some, map, option_map};
ghost use Rattle.std.specs.Prelude.{string_bytes, IfOk, IfErr, OnOk};
ghost use Rattle.toml.specs.Data.{get_member, as_array};
ghost use Rattle.toml.specs.View.{items_view, table_view, view};
ghost use Rattle.guard_notes.specs.Explaining.{IsPolicyNote};
ghost use Rattle.guard_policy.specs.declared.fault.PolicyFault.TheVariants.{Toml};
ghost use Rattle.guard_policy.specs.Documents.{IsDocument, IsNoDocument};
ghost use Rattle.guard_policy.specs.Names.{is_name};
ghost use Rattle.guard_files.specs.Devices.{device_of};
ghost use Rattle.guard_files.specs.Writing.{line_of};
ghost use Rattle.guard_authors.specs.Cases.{TellsNoDocument, no_document};
ghost use Rattle.guard_authors.specs.Cases.{case_view, text_at, text_of, case_in, members_in, cases_at, case_text};
ghost use Rattle.guard_authors.specs.Cases.{key_text, message_text};
ghost use Rattle.guard_authors.specs.Cases.{first_unknown, first_missing, first_nameless, name_keys};
ghost use Rattle.guard_authors.specs.Cases.{required_keys, case_keys, has_one, case_fault, list_fault, cases_fault};
ghost use Rattle.guard_authors.specs.declared.cases.CasesFault.TheVariants.{NoMemory};
ghost use Rattle.guard_authors.specs.inside.Caseless.{Meets, OfFault};

use crate::parties::is_among;
use guard_files::{tell_line, tell_no_memory, tell_text};
use guard_frames::Sink;
use guard_model::OutOfMemory;
use guard_notes::explain_policy;
use guard_policy::{PolicyFault, is_name};
use std::alloc::{AllocError, Global};
use toml::{Table, Value};

const UNKNOWN: &str = "T2 UnknownKey";

const MISSING: &str = "T3 MissingKey";

const BAD_NAME: &str = "T5 BadName";

/// Why no cases are tried.
#[derive(Drop)]
pub enum CasesFault {
    /// The text is no document (T1).
    NoDocument,
    /// The first fault of the document, as it prints.
    BadFile(String),
    NoMemory,
}

impl From<AllocError> for CasesFault {
    ghost from_gives = { λ _ e. e ≡ NoMemory };

    fn from(_e: AllocError) -> CasesFault {
        CasesFault::NoMemory
    }
}

/// Who sends what to whom, and the verdict that is wanted.
#[derive(Clone, Copy)]
pub struct Case<'a> {
    pub name: Option<&'a str>,
    pub from: &'a str,
    pub to: &'a str,
    pub message: &'a str,
    /// In hexadecimal digits, between which blanks may stand.
    pub octets: Option<&'a str>,
    /// In the value notation.
    pub value: Option<&'a str>,
    pub verdict: &'a str,
}

/// The document of a text.
pub fn document(alloc: Global, text: &[u8]) -> Result<Table, CasesFault>
    ensures document { IfOk result (λ top. IsDocument text.now (table_view top)) }
    ensures none { IfErr result (OfFault (IsNoDocument text.now) (λ fault. ⊥)) }
{
    match toml::table_from_slice(alloc, text) {
        Ok(top) => Ok(top),
        Err(e) if e.is_memory() => Err(CasesFault::NoMemory),
        Err(_) => Err(CasesFault::NoDocument),
    }
}

/// Reports that the text at the path is no document, and to explain it where it breaks.
pub fn tell_no_document<E: Sink>(
    alloc: Global,
    path: &str,
    text: &[u8],
    explain: bool,
    err: &mut E,
) -> u8
    ensures { TellsNoDocument explain path.now text.now (device_of E.taken E.has_failed err.old err.new) result }
{
    if explain {
        tell_where_it_breaks(alloc, path, text, err)
    } else {
        tell_text(alloc, "T1 Toml", 2, err)
    }
}

/// Reports it with the place where it breaks.
fn tell_where_it_breaks<E: Sink>(alloc: Global, path: &str, text: &[u8], err: &mut E) -> u8
    ensures { TellsNoDocument true path.now text.now (device_of E.taken E.has_failed err.old err.new) result }
{
    match no_document_lines(alloc, path, text) {
        Ok(lines) => tell_line(lines.as_bytes(), 2, err),
        Err(_) => tell_no_memory(err),
    }
}

/// The line of a text that is no document, and below it where it breaks, as of a policy.
fn no_document_lines(alloc: Global, path: &str, text: &[u8]) -> Result<String, OutOfMemory>
    ensures { IfOk result (λ lines. (note : List ℕ) × IsPolicyNote path.now text.now Toml note
        × (string_bytes lines ≡ line_of no_document ++ note)) }
{
    let note = explain_policy(alloc, path, &[], text, &PolicyFault::Toml)?;
    Ok(format!(in alloc; "derguard: T1 Toml\n{note}")?)
}

/// The cases of a document, each without a fault; or the first fault (T2 to T5).
pub fn cases_of<'a>(alloc: Global, top: &'a Table) -> Result<&'a [Value], CasesFault>
    ensures cases { IfOk result (λ items. cases_at (table_view top.now) ≡ Some (items_view items.now)) }
    ensures right { OnOk result (cases_fault (table_view top.now) ≡ None) }
    ensures none { IfErr result (Meets (cases_fault (table_view top.now))) }
{
    if let Some(word) = first_unknown(&["case"], top) {
        return Err(CasesFault::BadFile(key_text(alloc, UNKNOWN, "top", word)?));
    }
    let Some(items) = list_at(top) else {
        return Err(CasesFault::BadFile(key_text(alloc, MISSING, "top", "case")?));
    };
    match list_fault(alloc, items)? {
        Some(fault) => Err(CasesFault::BadFile(fault)),
        None => Ok(items),
    }
}

/// The list at `case`, which may be missing.
fn list_at<'a>(top: &'a Table) -> Option<&'a [Value]>
    ensures { option_map (λ items. items_view items.now) result ≡ cases_at (table_view top.now) }
{
    match value_at(top, "case") {
        Some(value) => array_in(value),
        None => Some(&[]),
    }
}

fn array_in<'a>(value: &'a Value) -> Option<&'a [Value]>
    ensures { option_map (λ items. items_view items.now) result ≡ as_array (view value.now) }
{
    match value.as_array() {
        Some(items) => Some(items.as_slice()),
        None => None,
    }
}

/// The first fault of the cases.
fn list_fault(alloc: Global, items: &[Value]) -> Result<Option<String>, AllocError>
    ensures { IfOk result (λ fault. option_map string_bytes fault ≡ list_fault 1 (items_view items.now)) }
{
    for (place, item) in items.iter().enumerate() {
        if let Some(fault) = case_fault(alloc, place + 1, item)? {
            return Ok(Some(fault));
        }
    }
    Ok(None)
}

/// The fault of the item of this number. What is no table has none of the keys.
fn case_fault(alloc: Global, number: usize, item: &Value) -> Result<Option<String>, AllocError>
    ensures { IfOk result (λ fault. option_map string_bytes fault ≡ case_fault number (members_in (view item.now))) }
{
    match item.as_table() {
        Some(table) => table_fault(alloc, number, table),
        None => key_fault(alloc, MISSING, number, "from"),
    }
}

fn table_fault(alloc: Global, number: usize, table: &Table) -> Result<Option<String>, AllocError>
    ensures { IfOk result (λ fault. option_map string_bytes fault ≡ case_fault number (table_view table.now)) }
{
    if let Some(word) = unknown_in_case(table) {
        return key_fault(alloc, UNKNOWN, number, word);
    }
    if let Some(key) = missing_in_case(table) {
        return key_fault(alloc, MISSING, number, key);
    }
    if !has_one(table) {
        return Ok(Some(message_text(alloc, number)?));
    }
    match nameless_in_case(table) {
        Some(key) => key_fault(alloc, BAD_NAME, number, key),
        None => Ok(None),
    }
}

// ---- the texts of faults

pub fn case_text(alloc: Global, number: usize) -> Result<String, AllocError>
    ensures { IfOk result (λ text. string_bytes text ≡ case_text number) }
{
    format!(in alloc; "case {number}")
}

/// A fault at a key of this place.
fn key_text(alloc: Global, fault: &str, place: &str, key: &str) -> Result<String, AllocError>
    ensures { IfOk result (λ text. string_bytes text ≡ key_text fault.now place.now key.now) }
{
    format!(in alloc; "{fault} {place} {key}")
}

/// A fault at a key of the case of this number.
fn key_fault(
    alloc: Global,
    fault: &str,
    number: usize,
    key: &str,
) -> Result<Option<String>, AllocError>
    ensures { IfOk result (λ text. option_map string_bytes text
        ≡ Some (key_text fault.now (case_text number) key.now)) }
{
    let place = case_text(alloc, number)?;
    Ok(Some(key_text(alloc, fault, &place, key)?))
}

fn message_text(alloc: Global, number: usize) -> Result<String, AllocError>
    ensures { IfOk result (λ text. string_bytes text ≡ message_text (case_text number)) }
{
    format!(in alloc; "T4 OctetsOrValue case {number}")
}

// ---- keys

fn unknown_in_case<'a>(table: &'a Table) -> Option<&'a str>
    ensures { option_map (λ word. word.now) result ≡ first_unknown case_keys (table_view table.now) }
{
    first_unknown(
        &[
            "name", "octets", "value", "from", "to", "message", "verdict",
        ],
        table,
    )
}

/// The first of the keys that a case must have at which there is no text.
fn missing_in_case(table: &Table) -> Option<&'static str>
    ensures { option_map (λ key. key.now) result ≡ first_missing required_keys (table_view table.now) }
{
    if !has_text(table, "from") {
        Some("from")
    } else if !has_text(table, "to") {
        Some("to")
    } else if !has_text(table, "message") {
        Some("message")
    } else if !has_text(table, "verdict") {
        Some("verdict")
    } else {
        None
    }
}

/// The first of the keys of a route at which there is no name.
fn nameless_in_case(table: &Table) -> Option<&'static str>
    ensures { option_map (λ key. key.now) result ≡ first_nameless name_keys (table_view table.now) }
{
    if !has_name(table, "from") {
        Some("from")
    } else if !has_name(table, "to") {
        Some("to")
    } else if !has_name(table, "message") {
        Some("message")
    } else {
        None
    }
}

fn has_name(table: &Table, key: &str) -> bool
    ensures { result ≡ is_name (text_of key.now (table_view table.now)) }
{
    is_name(text_of(table, key).as_bytes())
}

fn has_text(table: &Table, key: &str) -> bool
    ensures { result ≡ is_some (text_at key.now (table_view table.now)) }
{
    text_at(table, key).is_some()
}

/// The first word of the table that is none of the keys.
fn first_unknown<'a>(keys: &[&str], table: &'a Table) -> Option<&'a str>
    ensures { option_map (λ word. word.now) result
        ≡ first_unknown (map (λ key. key.now) keys.now) (table_view table.now) }
{
    for (word, _) in table {
        if !is_among(keys, word.as_str()) {
            return Some(word.as_str());
        }
    }
    None
}

/// Either the octets are there or the value.
fn has_one(table: &Table) -> bool
    ensures { result ≡ has_one (table_view table.now) }
{
    let has_value = has_text(table, "value");
    if has_text(table, "octets") {
        !has_value
    } else {
        has_value
    }
}

// ---- what a case says

/// The case that an item of the list is.
pub fn case_in<'a>(item: &'a Value) -> Case<'a>
    ensures { case_view result ≡ case_in (members_in (view item.now)) }
{
    match item.as_table() {
        Some(table) => case_of(table),
        None => Case {
            name: None,
            from: "",
            to: "",
            message: "",
            octets: None,
            value: None,
            verdict: "",
        },
    }
}

fn case_of<'a>(table: &'a Table) -> Case<'a>
    ensures { case_view result ≡ case_in (table_view table.now) }
{
    Case {
        name: text_at(table, "name"),
        from: text_of(table, "from"),
        to: text_of(table, "to"),
        message: text_of(table, "message"),
        octets: text_at(table, "octets"),
        value: text_at(table, "value"),
        verdict: text_of(table, "verdict"),
    }
}

fn text_of<'a>(table: &'a Table, key: &str) -> &'a str
    ensures { result.now ≡ text_of key.now (table_view table.now) }
{
    text_at(table, key).unwrap_or("")
}

/// The text at a key, if one is there.
fn text_at<'a>(table: &'a Table, key: &str) -> Option<&'a str>
    ensures { option_map (λ text. text.now) result ≡ text_at key.now (table_view table.now) }
{
    match value_at(table, key) {
        Some(value) => value.as_str(),
        None => None,
    }
}

fn value_at<'a>(table: &'a Table, key: &str) -> Option<&'a Value>
    ensures { option_map (λ value. view value.now) result ≡ get_member key.now (table_view table.now) }
{
    table.get(key)
}
