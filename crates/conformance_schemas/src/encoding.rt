//! `encode`: the encoding of a value of the type that is set. `encoded_length` then counts its octets, `decode` answers
//! the value again, `header` ends with the octets, and the octets without the last one or more end too early.
ghost use Rattle.std.specs.Prelude.{IsTrue};
ghost use Rattle.guard_model.specs.TypeView.{type_view};
ghost use Rattle.guard_model.specs.ValueView.{value_view};
ghost use Rattle.guard_der.specs.Fits.{fits};
ghost use Rattle.guard_der.specs.Sound.{is_sound};

use crate::digits::digits_of;
use crate::typed::TypeRow;
use conformance_rows::{Layer, not_read, text_of, unknown};
use conformance_texts::value_of;
use guard_der::{Code, DecodeFault, EncodeFault, decode, encode, encoded_length, header};
use guard_model::{Ty, Value};
use std::alloc::{AllocError, Global};

#[derive(Drop)]
pub struct Encoding {
    ty: TypeRow,
}

/// The octets of the encoding, and what the other calls answer on them if it is something else.
fn encoded(alloc: Global, ty: &Ty, value: &Value) -> Result<String, AllocError>
    requires sound { IsTrue (is_sound (type_view ty.now)) }
    requires fits { IsTrue (fits (type_view ty.now) (value_view value.now)) }
{
    let counted = encoded_length(ty, value);
    match encode(alloc, ty, value) {
        Ok(octets) => {
            let mut text = digits_of(alloc, &octets)?;
            text.push_str(miscounted(counted, octets.len()))?;
            text.push_str(doubt(alloc, ty, value, &octets)?)?;
            Ok(text)
        }
        Err(EncodeFault::OutOfMemory) => Err(AllocError),
        Err(fault) => format!(in alloc; "{fault}"),
    }
}

/// What is said where `encoded_length` counts another number of octets.
fn miscounted(counted: Option<usize>, octets: usize) -> &'static str {
    if counted == Some(octets) {
        ""
    } else {
        ", of which encoded_length counts another number"
    }
}

/// What the other calls say against octets as the encoding of a value.
fn doubt(alloc: Global, ty: &Ty, value: &Value, octets: &[u8]) -> Result<&'static str, AllocError>
    requires { IsTrue (is_sound (type_view ty.now)) }
{
    if !decodes_to(alloc, ty, octets, value)? {
        return Ok(", which decode takes for another value");
    }
    if !has_header(ty, octets) {
        return Ok(", of which header answers another end or tag");
    }
    if !is_cut_short(alloc, ty, octets)? {
        return Ok(", of which decode takes the first octets for more");
    }
    Ok("")
}

/// Whether `decode` answers this value on the octets.
pub fn decodes_to(alloc: Global, ty: &Ty, octets: &[u8], value: &Value) -> Result<bool, AllocError>
    requires { IsTrue (is_sound (type_view ty.now)) }
{
    match decode(alloc, ty, octets) {
        Ok(found) => Ok(found.same(value)),
        Err(DecodeFault::OutOfMemory) => Err(AllocError),
        Err(_) => Ok(false),
    }
}

/// Whether the header tells the first tag of the type, and the whole of the octets.
fn has_header(ty: &Ty, octets: &[u8]) -> bool {
    match header(octets, 0) {
        Ok(header) => {
            header.end == octets.len()
                && match ty.tags.first() {
                    Some(tag) => *tag == header.tag,
                    None => true,
                }
        }
        Err(_) => false,
    }
}

/// Whether the octets without the last one or more are refused as Truncated at 0.
fn is_cut_short(alloc: Global, ty: &Ty, octets: &[u8]) -> Result<bool, AllocError>
    requires { IsTrue (is_sound (type_view ty.now)) }
{
    for length in 0..octets.len() {
        let answer = decode(alloc, ty, &octets[..length]);
        if let Err(DecodeFault::OutOfMemory) = answer {
            return Err(AllocError);
        }
        if !is_truncated(&answer) {
            return Ok(false);
        }
    }
    Ok(true)
}

fn is_truncated(answer: &Result<Value, DecodeFault>) -> bool {
    match answer {
        Err(DecodeFault::Breach(breach)) => {
            breach.code == Code::Truncated && breach.at == 0 && breach.path.is_empty()
        }
        _ => false,
    }
}

impl Layer for Encoding {
    fn new(_alloc: Global) -> Encoding {
        Encoding { ty: TypeRow::new() }
    }

    /// A value of the type.
    fn answer(&mut self, alloc: Global, input: &[u8]) -> Result<String, AllocError> {
        let Some(ty) = self.ty.ty() else {
            return not_read(alloc);
        };
        match value_of(alloc, ty, text_of(input)) {
            Ok(value) => encoded(alloc, ty, &value),
            Err(fault) => fault.answer(),
        }
    }

    /// `@type TYPE`
    fn set(&mut self, alloc: Global, name: &str, text: &[u8]) -> Result<String, AllocError> {
        match name {
            "type" => self.ty.set(alloc, text_of(text)),
            _ => unknown(alloc),
        }
    }
}
