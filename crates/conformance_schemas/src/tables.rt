//! `Table::compile`: whether the types of a row make a table, or why they make none.
ghost use Rattle.std.specs.Prelude.{All, IsTrue, IfOk};
ghost use Rattle.guard_der.specs.Sound.{is_sound};
ghost use Rattle.guard_model.specs.TypeView.{type_view};
ghost use Rattle.guard_tables.specs.Tables.{types_view};

use conformance_rows::{Layer, text_of, unknown};
use guard_model::Ty;
use guard_schema::{Schema, SchemaFault};
use guard_tables::{Table, TableFault};
use std::alloc::{AllocError, Global};

#[derive(Drop)]
pub struct Tables {
    /// The lines of the types that are visible.
    visible: String,
}

/// How many rules have the type of one part of a row, and its text: `255 * BOOLEAN` are 255.
fn counted(part: &str) -> (u32, &str) {
    match part.split_once(" * ") {
        Some((count, ty)) => (count.trim().parse::<u32>().unwrap_or(0), ty),
        None => (1, part),
    }
}

/// A module in which the types of the parts have the names T0, T1 and so on, before what is visible.
pub fn module_text(alloc: Global, row: &str, visible: &str) -> Result<String, AllocError> {
    let mut text = String::from_str(alloc, "M DEFINITIONS ::= BEGIN\n")?;
    for (place, part) in row.split(';').enumerate() {
        let (_, ty) = counted(part);
        write!(text, "T{place} ::= {ty}\n")?;
    }
    text.push_str(visible)?;
    text.push_str("END\n")?;
    Ok(text)
}

/// The types of the rules, each as often as the row says.
pub fn rule_types<'a>(
    alloc: Global,
    schema: &'a Schema,
    row: &str,
) -> Result<Vec<&'a Ty>, AllocError>
    ensures { IfOk result (λ found. All (λ t. IsTrue (is_sound t)) (types_view found.items)) }
{
    let mut rules = Vec::new(alloc);
    for (place, part) in row.split(';').enumerate().skip(1) {
        let (count, _) = counted(part);
        if let Some(ty) = schema.ty("M", &format!(in alloc; "T{place}")?) {
            rules = add_copies(rules, ty, count)?;
        }
    }
    Ok(rules)
}

/// The types, and one more so many times.
pub fn add_copies<'a>(types: Vec<&'a Ty>, ty: &'a Ty, count: u32) -> Result<Vec<&'a Ty>, AllocError>
    requires old { All (λ t. IsTrue (is_sound t)) (types_view types.items) }
    requires sound { IsTrue (is_sound (type_view ty.now)) }
    ensures { IfOk result (λ found. All (λ t. IsTrue (is_sound t)) (types_view found.items)) }
{
    let mut found = types;
    for _ in 0..count {
        found.push(ty)?;
    }
    Ok(found)
}

fn compiled(alloc: Global, declared: &Ty, rules: &[&Ty]) -> Result<String, AllocError>
    requires declared_sound { IsTrue (is_sound (type_view declared.now)) }
    requires rules_sound { All (λ t. IsTrue (is_sound t)) (types_view rules.now) }
{
    match Table::compile(alloc, declared, rules) {
        Ok(_) => String::from_str(alloc, "table"),
        Err(TableFault::OutOfMemory) => Err(AllocError),
        Err(fault) => format!(in alloc; "{fault}"),
    }
}

impl Layer for Tables {
    fn new(alloc: Global) -> Tables {
        Tables {
            visible: String::new(alloc),
        }
    }

    /// The declared type and those of rules, separated by `;`.
    fn answer(&mut self, alloc: Global, input: &[u8]) -> Result<String, AllocError> {
        let row = text_of(input);
        let text = module_text(alloc, row, &self.visible)?;
        let schema = match Schema::build(alloc, &[text.as_bytes()]) {
            Ok(schema) => schema,
            Err(SchemaFault::OutOfMemory) => return Err(AllocError),
            Err(fault) => return format!(in alloc; "{fault}"),
        };
        let rules = rule_types(alloc, &schema, row)?;
        match schema.ty("M", "T0") {
            Some(declared) => compiled(alloc, declared, &rules),
            None => String::from_str(alloc, "no type"),
        }
    }

    /// `@visible NAME ::= TYPE`.
    fn set(&mut self, alloc: Global, name: &str, text: &[u8]) -> Result<String, AllocError> {
        if name != "visible" {
            return unknown(alloc);
        }
        self.visible.push_str(text_of(text))?;
        self.visible.push('\n')?;
        String::from_str(alloc, "ok")
    }
}
