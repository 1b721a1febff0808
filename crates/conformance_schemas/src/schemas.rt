//! `guard_schema`: whether texts make a schema, else their fault; and which types and modules a schema has.
use crate::messages::judged;
use crate::shown_types::type_text;
use crate::typed::set_schema;
use conformance_rows::{Around, Layer, text_of, texts_of};
use guard_schema::Schema;
use std::alloc::{AllocError, Global};

/// What the rows ask.
#[derive(Drop)]
enum Asked {
    /// Whether the texts make a schema: `ok`, or the fault.
    Build,
    /// From which length on what the text begins with makes a schema.
    Beginnings,
    /// Whether so many modules make a schema, each of which has the text.
    Copies(u32),
    /// The type of this name in the texts' module `M`.
    TypeOf(String),
    /// Of the schema that is kept, the type by the names `MODULE.NAME`.
    Types,
    /// Of the schema that is kept, the module by its place.
    Modules,
    /// Of the schema that is kept, what octets are under a type, by `MODULE.NAME OCTETS`.
    Messages,
}

#[derive(Drop)]
pub struct Schemas {
    asked: Asked,
    around: Around,
    kept: Option<Schema>,
}

impl Schemas {
    fn built(&self, alloc: Global, input: &[u8]) -> Result<String, AllocError> {
        let whole = self.around.text(alloc, input)?;
        let texts = texts_of(alloc, &whole)?;
        match Schema::build(alloc, &texts) {
            Ok(schema) => match &self.asked {
                Asked::TypeOf(name) => shown(alloc, &schema, "M", name),
                _ => String::from_str(alloc, "ok"),
            },
            Err(fault) => format!(in alloc; "{fault}"),
        }
    }
}

/// The length from which on each beginning of the text makes a schema, of how many octets.
fn beginnings(alloc: Global, text: &[u8]) -> Result<String, AllocError> {
    let mut refused = 0_usize;
    let mut accepted = 0_usize;
    for length in 0..text.len() {
        let beginning = text.get(..length).unwrap_or(&[]);
        match Schema::build(alloc, &[beginning]) {
            Ok(_) => accepted = accepted.saturating_add(1),
            Err(_) if accepted == 0 => refused = refused.saturating_add(1),
            Err(fault) => return format!(in alloc; "{length} octets: {fault}"),
        }
    }
    format!(in alloc; "refused {refused}, then accepted {accepted}")
}

/// Whether so many modules make a schema: `M10`, `M11` and so on, so that up to 90 texts have the same length.
fn copies(alloc: Global, body: &str, number: u32) -> Result<String, AllocError> {
    let mut texts = Vec::new(alloc);
    for copy in 0..number {
        let name = copy.saturating_add(10);
        texts.push(format!(in alloc; "M{name} DEFINITIONS ::= BEGIN {body} END")?)?;
    }
    let mut slices = Vec::new(alloc);
    for text in &texts {
        slices.push(text.as_bytes())?;
    }
    match Schema::build(alloc, &slices) {
        Ok(_) => String::from_str(alloc, "ok"),
        Err(fault) => format!(in alloc; "{fault}"),
    }
}

/// The text of the type of this name, or `none`.
fn shown(alloc: Global, schema: &Schema, module: &str, name: &str) -> Result<String, AllocError> {
    match schema.ty(module, name) {
        Some(ty) => type_text(alloc, ty),
        None => String::from_str(alloc, "none"),
    }
}

/// The type by the names `MODULE.NAME`.
fn type_by_names(alloc: Global, schema: &Schema, names: &str) -> Result<String, AllocError> {
    match names.split_once('.') {
        Some((module, name)) => shown(alloc, schema, module, name),
        None => String::from_str(alloc, "no name"),
    }
}

/// The name of the module at this place.
fn module_by_place(alloc: Global, schema: &Schema, place: &str) -> Result<String, AllocError> {
    match schema.module(place.parse::<u32>().unwrap_or(0)) {
        Some(name) => String::from_str(alloc, name),
        None => String::from_str(alloc, "none"),
    }
}

/// What the octets are under the type, by `MODULE.NAME OCTETS`.
fn message_by_type(alloc: Global, schema: &Schema, input: &str) -> Result<String, AllocError> {
    let (names, digits) = input.split_once(' ').unwrap_or((input, ""));
    let Some((module, name)) = names.split_once('.') else {
        return String::from_str(alloc, "no name");
    };
    match schema.ty(module, name) {
        Some(ty) => judged(alloc, ty, digits),
        None => String::from_str(alloc, "none"),
    }
}

impl Layer for Schemas {
    fn new(alloc: Global) -> Schemas {
        Schemas {
            asked: Asked::Build,
            around: Around::new(alloc),
            kept: None,
        }
    }

    fn answer(&mut self, alloc: Global, input: &[u8]) -> Result<String, AllocError> {
        match (&self.asked, &self.kept) {
            (Asked::Types, Some(schema)) => type_by_names(alloc, schema, text_of(input)),
            (Asked::Modules, Some(schema)) => module_by_place(alloc, schema, text_of(input)),
            (Asked::Messages, Some(schema)) => message_by_type(alloc, schema, text_of(input)),
            (Asked::Beginnings, _) => beginnings(alloc, input),
            (Asked::Copies(number), _) => copies(alloc, text_of(input), *number),
            _ => self.built(alloc, input),
        }
    }

    /// `@ask build`, `@ask beginnings`, `@copies NUMBER`, `@type-of NAME`; `@schema` with the texts of a schema that is
    /// kept, `@ask types`, `@ask modules` and `@ask messages` of it; `@before` and `@after`.
    fn set(&mut self, alloc: Global, name: &str, text: &[u8]) -> Result<String, AllocError> {
        match (name, text_of(text)) {
            ("ask", "build") => self.asked = Asked::Build,
            ("ask", "beginnings") => self.asked = Asked::Beginnings,
            ("ask", "types") => self.asked = Asked::Types,
            ("ask", "modules") => self.asked = Asked::Modules,
            ("ask", "messages") => self.asked = Asked::Messages,
            ("copies", number) => self.asked = Asked::Copies(number.parse::<u32>().unwrap_or(0)),
            ("type-of", name) => self.asked = Asked::TypeOf(String::from_str(alloc, name)?),
            ("schema", _) => {
                return set_schema(alloc, &mut self.kept, &texts_of(alloc, text)?);
            }
            _ => return self.around.set(alloc, name, text),
        }
        String::from_str(alloc, "ok")
    }
}
