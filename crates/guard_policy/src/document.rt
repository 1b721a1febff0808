//! What is in the document of a policy: its tables, and the texts at their keys.
ghost use Rattle.std.specs.Prelude.{◌≡◌, Some, option_map, IfOk, IfErr, IfSome};
ghost use Rattle.toml.specs.View.{view, items_view, table_view};
ghost use Rattle.toml.specs.Data.{as_str, as_table, get_member};
ghost use Rattle.guard_policy.specs.Documents.{key_text, text_of, IsDocument, IsNoDocument, items_as, text_at};
ghost use Rattle.guard_policy.specs.Documents.{texts_at, tables_at};
ghost use Rattle.guard_policy.specs.EntryFaults.{keys_fault};
ghost use Rattle.guard_policy.specs.PolicyFaults.{named, toml as no_toml, is_key, unknown_in, missing_in, top_fault};
ghost use Rattle.guard_policy.specs.inside.Answers.{tables_view, texts_view, Meets};

use super::entry::{Entry, Key};
use super::fault::PolicyFault;
use std::alloc::{AllocError, Global};
use toml::{Table, Value};

/// The keys at the top.
const TOP_KEYS: [Key; 3] = [Key::Modules, Key::Message, Key::Rule];

/// What the top of a policy lists.
#[derive(Drop)]
pub(crate) struct Top<'a> {
    pub files: Vec<&'a str>,
    pub messages: Vec<&'a Table>,
    pub rules: Vec<&'a Table>,
}

/// The document of a text. The error is Toml where the text is no document of TOML, or OutOfMemory.
pub(crate) fn document(alloc: Global, text: &[u8]) -> Result<Table, PolicyFault>
    ensures document { IfOk result (λ top. IsDocument text.now (table_view top)) }
    ensures none { IfErr result (λ f. IfSome (named f) (λ fault. (fault ≡ no_toml) × IsNoDocument text.now)) }
{
    match toml::table_from_slice(alloc, text) {
        Ok(top) => Ok(top),
        Err(e) if e.is_memory() => Err(PolicyFault::OutOfMemory),
        Err(_) => Err(PolicyFault::Toml),
    }
}

/// What the top lists: the files of modules, and the tables of messages and rules; or the first fault of the top, by an
/// unknown key, else by a key that is missing or has something of another kind.
pub(crate) fn top_of<'a>(alloc: Global, top: &'a Table) -> Result<Top<'a>, PolicyFault>
    ensures met { Meets (top_fault (table_view top.now)) result }
    ensures files { IfOk result (λ found. texts_at Key.Modules (table_view top.now)
        ≡ Some (texts_view found.files.items)) }
    ensures messages { IfOk result (λ found. tables_at Key.Message (table_view top.now)
        ≡ Some (tables_view found.messages.items)) }
    ensures rules { IfOk result (λ found. tables_at Key.Rule (table_view top.now)
        ≡ Some (tables_view found.rules.items)) }
{
    check_keys(alloc, Entry::Top, &TOP_KEYS, top)?;
    let Some(files) = texts_at(alloc, top, Key::Modules)? else {
        return Err(PolicyFault::MissingKey(Entry::Top, Key::Modules));
    };
    let Some(messages) = tables_at(alloc, top, Key::Message)? else {
        return Err(PolicyFault::MissingKey(Entry::Top, Key::Message));
    };
    let Some(rules) = tables_at(alloc, top, Key::Rule)? else {
        return Err(PolicyFault::MissingKey(Entry::Top, Key::Rule));
    };
    Ok(Top {
        files,
        messages,
        rules,
    })
}

/// Ok where the entry has these keys alone and a text at each; else UnknownKey for the first other key, or MissingKey
/// for the first of these without a text.
pub(crate) fn check_entry(
    alloc: Global,
    entry: Entry,
    keys: &[Key],
    table: &Table,
) -> Result<(), PolicyFault>
    ensures { Meets (keys_fault entry keys.now (table_view table.now)) result }
{
    check_keys(alloc, entry, keys, table)?;
    check_texts(entry, keys, table)
}

/// Ok where the entry has a text at each of the keys; else MissingKey for the first at which it has none.
fn check_texts(entry: Entry, keys: &[Key], table: &Table) -> Result<(), PolicyFault>
    ensures { Meets (missing_in entry keys.now (table_view table.now)) result }
{
    for key in keys {
        if text_at(table, *key).is_none() {
            return Err(PolicyFault::MissingKey(entry, *key));
        }
    }
    Ok(())
}

/// Ok where each key of the entry is among these; else UnknownKey for the first that isn't, in the order of octets.
fn check_keys(alloc: Global, entry: Entry, keys: &[Key], table: &Table) -> Result<(), PolicyFault>
    ensures { Meets (unknown_in entry keys.now (table_view table.now)) result }
{
    for (word, _) in table {
        if !is_key(keys, word.as_str()) {
            let word = String::from_str(alloc, word.as_str())?;
            return Err(PolicyFault::UnknownKey(entry, word));
        }
    }
    Ok(())
}

fn is_key(keys: &[Key], word: &str) -> bool
    ensures { result ≡ is_key keys.now word.now }
{
    keys.iter().any(|key| key.text() == word)
}

/// The text at a key of an entry; empty where there is none.
pub(crate) fn text_of<'a>(table: &'a Table, key: Key) -> &'a str
    ensures { result.now ≡ text_of key (table_view table.now) }
{
    text_at(table, key).unwrap_or("")
}

/// The text at a key; None where there is none.
fn text_at<'a>(table: &'a Table, key: Key) -> Option<&'a str>
    ensures { option_map (λ text. text.now) result ≡ text_at key (table_view table.now) }
{
    match value_at(table, key) {
        Some(value) => value.as_str(),
        None => None,
    }
}

fn value_at<'a>(table: &'a Table, key: Key) -> Option<&'a Value>
    ensures { option_map (λ value. view value.now) result ≡ get_member (key_text key) (table_view table.now) }
{
    table.get(key.text())
}

/// The list of texts at a key; None where there is none.
fn texts_at<'a>(
    alloc: Global,
    table: &'a Table,
    key: Key,
) -> Result<Option<Vec<&'a str>>, AllocError>
    ensures { IfOk result (λ found. option_map (λ texts. texts_view texts.items) found
        ≡ texts_at key (table_view table.now)) }
{
    let Some(value) = value_at(table, key) else {
        return Ok(None);
    };
    match value.as_array() {
        Some(items) => texts_in(alloc, items),
        None => Ok(None),
    }
}

fn texts_in<'a>(alloc: Global, items: &'a [Value]) -> Result<Option<Vec<&'a str>>, AllocError>
    ensures { IfOk result (λ found. option_map (λ texts. texts_view texts.items) found
        ≡ items_as as_str (items_view items.now)) }
{
    let mut texts = Vec::with_capacity(alloc, items.len())?;
    for item in items {
        let Some(text) = item.as_str() else {
            return Ok(None);
        };
        texts.push(text)?;
    }
    Ok(Some(texts))
}

/// The list of tables at a key, which is empty where the key is missing; None where something else is there.
fn tables_at<'a>(
    alloc: Global,
    table: &'a Table,
    key: Key,
) -> Result<Option<Vec<&'a Table>>, AllocError>
    ensures { IfOk result (λ found. option_map (λ tables. tables_view tables.items) found
        ≡ tables_at key (table_view table.now)) }
{
    let Some(value) = value_at(table, key) else {
        return Ok(Some(Vec::new(alloc)));
    };
    match value.as_array() {
        Some(items) => tables_in(alloc, items),
        None => Ok(None),
    }
}

fn tables_in<'a>(alloc: Global, items: &'a [Value]) -> Result<Option<Vec<&'a Table>>, AllocError>
    ensures { IfOk result (λ found. option_map (λ tables. tables_view tables.items) found
        ≡ items_as as_table (items_view items.now)) }
{
    let mut tables = Vec::with_capacity(alloc, items.len())?;
    for item in items {
        let Some(table) = item.as_table() else {
            return Ok(None);
        };
        tables.push(table)?;
    }
    Ok(Some(tables))
}
