//! `encode`: the octets of the encoding of a long value; `encoded_length` counts them, and `decode` answers the value
//! again.
ghost use Rattle.std.specs.Prelude.{IsTrue};
ghost use Rattle.guard_model.specs.TypeView.{type_view};
ghost use Rattle.guard_model.specs.ValueView.{value_view};
ghost use Rattle.guard_der.specs.Fits.{fits};
ghost use Rattle.guard_der.specs.Sound.{is_sound};

use crate::notation::{read, value_of};
use crate::type_row::set_type;
use conformance_rows::{Layer, not_read, text_of};
use guard_der::{EncodeFault, decode, encode, encoded_length, fits, sound};
use guard_model::{Ty, Value};
use std::alloc::{AllocError, Global};

#[derive(Drop)]
pub struct Encoding {
    ty: Option<Box<Ty>>,
}

/// The octets of the encoding, and whether `decode` takes them for another value.
fn encoded(alloc: Global, ty: &Ty, value: &Value) -> Result<String, AllocError>
    requires sound { IsTrue (is_sound (type_view ty.now)) }
    requires fits { IsTrue (fits (type_view ty.now) (value_view value.now)) }
{
    let counted = encoded_length(ty, value);
    let octets = match encode(alloc, ty, value) {
        Ok(octets) => octets,
        Err(EncodeFault::OutOfMemory) => return Err(AllocError),
        Err(fault) if counted.is_none() => return format!(in alloc; "{fault}"),
        Err(_) => return String::from_str(alloc, "encoded_length counts octets"),
    };
    if counted != Some(octets.len()) {
        return String::from_str(alloc, "encoded_length counts another number of octets");
    }
    if !decode(alloc, ty, &octets).is_ok_and(|found| found.same(value)) {
        return String::from_str(alloc, "decode takes the octets for another value");
    }
    let mut text = String::new(alloc);
    for octet in &octets {
        write!(text, "{octet:02X}")?;
    }
    Ok(text)
}

/// The octets of the encoding of a value, where the type is sound and the value is one of its values.
fn tried(alloc: Global, ty: &Ty, value: &Value) -> Result<String, AllocError> {
    let (Ok(is_sound), Ok(is_fitting)) = (sound(alloc, ty), fits(alloc, ty, value)) else {
        return Err(AllocError);
    };
    if !is_sound || !is_fitting {
        return String::from_str(alloc, "no value of a sound type");
    }
    encoded(alloc, ty, value)
}

impl Layer for Encoding {
    fn new(_alloc: Global) -> Encoding {
        Encoding { ty: None }
    }

    fn answer(&mut self, alloc: Global, input: &[u8]) -> Result<String, AllocError> {
        let Some(ty) = &self.ty else {
            return not_read(alloc);
        };
        match read(value_of(alloc, ty, text_of(input)))? {
            Some(value) => tried(alloc, ty, &value),
            None => not_read(alloc),
        }
    }

    fn set(&mut self, alloc: Global, name: &str, text: &[u8]) -> Result<String, AllocError> {
        set_type(alloc, &mut self.ty, name, text)
    }
}
