//! The octets of values under the types of modules, which show the tags that these types have.
ghost use Rattle.std.specs.Prelude.{IsTrue};
ghost use Rattle.guard_der.specs.Sound.{is_sound};
ghost use Rattle.guard_model.specs.TypeView.{type_view};

use crate::decoding::decoded;
use crate::typed::set_schema;
use conformance_rows::{Layer, in_hexadecimal, not_read, octets_in, text_of, texts_of, unknown};
use conformance_texts::value_of;
use guard_der::{EncodeFault, encode};
use guard_model::Ty;
use guard_schema::Schema;
use std::alloc::{AllocError, Global};

/// What the rows ask.
#[derive(Drop)]
enum Asked {
    /// The encoding of a value by `MODULE NAME : VALUE`, of the texts that are kept.
    Octets,
    /// The value of octets by `MODULE NAME : OCTETS`, of the texts that are kept.
    Value,
}

#[derive(Drop)]
pub struct TaggedOctets {
    asked: Asked,
    schema: Option<Schema>,
}

/// The parts of `MODULE NAME : REST`.
fn named(text: &str) -> Option<(&str, &str, &str)> {
    let (names, rest) = text.split_once(" : ")?;
    let (module, name) = names.split_once(' ')?;
    Some((module, name, rest))
}

fn octets(alloc: Global, ty: &Ty, text: &str) -> Result<String, AllocError>
    requires { IsTrue (is_sound (type_view ty.now)) }
{
    let value = match value_of(alloc, ty, text) {
        Ok(value) => value,
        Err(fault) => return fault.answer(),
    };
    match encode(alloc, ty, &value) {
        Ok(octets) => in_hexadecimal(alloc, &octets),
        Err(EncodeFault::OutOfMemory) => Err(AllocError),
        Err(fault) => format!(in alloc; "{fault}"),
    }
}

/// What octets are read as, or why they are no encoding.
fn value(alloc: Global, ty: &Ty, text: &str) -> Result<String, AllocError>
    requires { IsTrue (is_sound (type_view ty.now)) }
{
    match octets_in(alloc, text)? {
        Some(octets) => decoded(alloc, ty, &octets),
        None => not_read(alloc),
    }
}

impl Layer for TaggedOctets {
    fn new(_alloc: Global) -> TaggedOctets {
        TaggedOctets {
            asked: Asked::Octets,
            schema: None,
        }
    }

    fn answer(&mut self, alloc: Global, input: &[u8]) -> Result<String, AllocError> {
        let Some(schema) = &self.schema else {
            return String::from_str(alloc, "no modules");
        };
        let Some((module, name, rest)) = named(text_of(input)) else {
            return not_read(alloc);
        };
        match (schema.ty(module, name), &self.asked) {
            (Some(ty), Asked::Octets) => octets(alloc, ty, rest),
            (Some(ty), Asked::Value) => value(alloc, ty, rest),
            (None, _) => String::from_str(alloc, "no type of this name"),
        }
    }

    /// `@modules` with texts that are kept, `@ask octets` and `@ask value`.
    fn set(&mut self, alloc: Global, name: &str, text: &[u8]) -> Result<String, AllocError> {
        match (name, text_of(text)) {
            ("ask", "octets") => self.asked = Asked::Octets,
            ("ask", "value") => self.asked = Asked::Value,
            ("modules", _) => {
                return set_schema(alloc, &mut self.schema, &texts_of(alloc, text)?);
            }
            _ => return unknown(alloc),
        }
        String::from_str(alloc, "ok")
    }
}
