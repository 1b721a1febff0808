//! `walk`: which types of a table have the value that octets encode; and `all_in`.
ghost use Rattle.std.specs.Prelude.{All, IfOk, IfSome, IsTrue};
ghost use Rattle.guard_der.specs.Sound.{is_sound};
ghost use Rattle.guard_model.specs.TypeView.{type_view};
ghost use Rattle.guard_tables.specs.Tables.{types_view};

use crate::tables::{add_copies, module_text, rule_types};
use conformance_rows::{Layer, not_read, octets_in, text_of, unknown};
use guard_model::Ty;
use guard_reader::{Marks, all_in, walk};
use guard_schema::{Schema, SchemaFault};
use guard_tables::{Table, TableFault};
use std::alloc::{AllocError, Global};

/// The most ranges that `all_in` takes.
const MOST_RANGES: usize = 8;

#[derive(Drop)]
pub struct Reader {
    /// The text of the module whose types have names.
    module: String,
    table: Option<Table>,
    /// The ranges in which octets are looked for; None where the rows ask `walk`.
    ranges: Option<Vec<(u8, u8)>>,
}

impl Reader {
    /// Sets the table of the types of a row, each a type as it is written.
    fn set_types(&mut self, alloc: Global, row: &str) -> Result<String, AllocError> {
        let text = module_text(alloc, row, "")?;
        match Schema::build(alloc, &[text.as_bytes()]) {
            Ok(schema) => {
                let rules = rule_types(alloc, &schema, row)?;
                self.compile(alloc, schema.ty("M", "T0"), &rules)
            }
            Err(fault) => told(alloc, fault),
        }
    }

    /// Sets the table of types of the module, by their names.
    fn set_names(&mut self, alloc: Global, row: &str) -> Result<String, AllocError> {
        match Schema::build(alloc, &[self.module.as_bytes()]) {
            Ok(schema) => {
                let (declared, rest) = row.split_once("; ").unwrap_or((row, ""));
                let rules = named_types(alloc, &schema, rest)?;
                self.compile(alloc, named(&schema, declared), &rules)
            }
            Err(fault) => told(alloc, fault),
        }
    }

    fn compile(
        &mut self,
        alloc: Global,
        declared: Option<&Ty>,
        rules: &[&Ty],
    ) -> Result<String, AllocError>
        requires declared_sound { IfSome declared (λ ty. IsTrue (is_sound (type_view ty.now))) }
        requires rules_sound { All (λ t. IsTrue (is_sound t)) (types_view rules.now) }
    {
        self.table = None;
        self.ranges = None;
        let Some(declared) = declared else {
            return String::from_str(alloc, "no type");
        };
        match Table::compile(alloc, declared, rules) {
            Ok(table) => self.table = Some(table),
            Err(TableFault::OutOfMemory) => return Err(AllocError),
            Err(fault) => return format!(in alloc; "{fault}"),
        }
        String::from_str(alloc, "ok")
    }
}

fn told(alloc: Global, fault: SchemaFault) -> Result<String, AllocError> {
    match fault {
        SchemaFault::OutOfMemory => Err(AllocError),
        fault => format!(in alloc; "{fault}"),
    }
}

/// The type of this name in the schema's first module.
fn named<'a>(schema: &'a Schema, name: &str) -> Option<&'a Ty>
    ensures sound { IfSome result (λ ty. IsTrue (is_sound (type_view ty.now))) }
{
    schema.ty(schema.module(1)?, name)
}

/// The types of these names, which `; ` separates.
fn named_types<'a>(
    alloc: Global,
    schema: &'a Schema,
    names: &str,
) -> Result<Vec<&'a Ty>, AllocError>
    ensures { IfOk result (λ found. All (λ t. IsTrue (is_sound t)) (types_view found.items)) }
{
    let mut types = Vec::new(alloc);
    for name in names.split("; ") {
        if let Some(ty) = named(schema, name) {
            types = add_copies(types, ty, 1)?;
        }
    }
    Ok(types)
}

/// `type` where the declared type has the value, and the rules whose types have it, by their places; `-` where none
/// has it.
fn marked(alloc: Global, marks: Marks) -> Result<String, AllocError> {
    let mut text = String::new(alloc);
    if marks.of_type() {
        text.push_str("type")?;
    }
    let mut first = None;
    for place in 0..=u8::MAX {
        if marks.rule(place) {
            first = first.or(Some(place));
            continue;
        }
        if let Some(first) = first {
            add_run(&mut text, first, place.saturating_sub(1))?;
        }
        first = None;
    }
    if let Some(first) = first {
        add_run(&mut text, first, u8::MAX)?;
    }
    if text.is_empty() {
        text.push('-')?;
    }
    Ok(text)
}

/// Adds the places from the first to the last, as `FIRST..LAST` where they aren't one.
fn add_run(text: &mut String, first: u8, last: u8) -> Result<(), AllocError> {
    if !text.is_empty() {
        text.push(' ')?;
    }
    write!(text, "{first}")?;
    if first != last {
        write!(text, "..{last}")?;
    }
    Ok(())
}

/// The ranges `FIRST..LAST`, separated by blanks; None where something else is written.
fn ranges_in(alloc: Global, text: &str) -> Result<Option<Vec<(u8, u8)>>, AllocError> {
    let mut ranges = Vec::new(alloc);
    for range in text.split(' ') {
        if range.is_empty() {
            continue;
        }
        let Some((low, high)) = range.split_once("..") else {
            return Ok(None);
        };
        match (low.parse::<u8>(), high.parse::<u8>()) {
            (Ok(low), Ok(high)) => ranges.push((low, high))?,
            _ => return Ok(None),
        }
    }
    Ok(Some(ranges))
}

/// Whether the octets lie in the ranges: `in` or `out`.
fn told_of_ranges(alloc: Global, ranges: &[(u8, u8)], octets: &[u8]) -> Result<String, AllocError> {
    if ranges.len() > MOST_RANGES {
        return not_read(alloc);
    }
    let word = if all_in(ranges, octets) { "in" } else { "out" };
    String::from_str(alloc, word)
}

impl Layer for Reader {
    fn new(alloc: Global) -> Reader {
        Reader {
            module: String::new(alloc),
            table: None,
            ranges: None,
        }
    }

    /// Octets.
    fn answer(&mut self, alloc: Global, input: &[u8]) -> Result<String, AllocError> {
        let Some(octets) = octets_in(alloc, text_of(input))? else {
            return not_read(alloc);
        };
        match (&self.ranges, &self.table) {
            (Some(ranges), _) => told_of_ranges(alloc, ranges, &octets),
            (None, Some(table)) => match walk(table, &octets) {
                Some(marks) => marked(alloc, marks),
                None => String::from_str(alloc, "none"),
            },
            (None, None) => String::from_str(alloc, "no table"),
        }
    }

    /// `@types TYPE; TYPE; ..` with the declared type and those of rules; `@module` after a module, and `@names NAME;
    /// NAME; ..` with those of its types; `@ranges FIRST..LAST FIRST..LAST ..`.
    fn set(&mut self, alloc: Global, name: &str, text: &[u8]) -> Result<String, AllocError> {
        match (name, text_of(text)) {
            ("types", text) => return self.set_types(alloc, text),
            ("names", text) => return self.set_names(alloc, text),
            ("module", text) => self.module = String::from_str(alloc, text)?,
            ("ranges", text) => {
                self.ranges = ranges_in(alloc, text)?;
                if self.ranges.is_none() {
                    return not_read(alloc);
                }
            }
            _ => return unknown(alloc),
        }
        String::from_str(alloc, "ok")
    }
}
