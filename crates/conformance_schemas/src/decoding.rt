//! `decode`: what is wrong with octets that are no encoding of a value of the type that is set.
ghost use Rattle.std.specs.Prelude.{IsTrue};
ghost use Rattle.guard_model.specs.TypeView.{type_view};
ghost use Rattle.guard_der.specs.Sound.{is_sound};

use crate::typed::TypeRow;
use conformance_rows::{Layer, not_read, octets_in, text_of, unknown};
use guard_der::{Breach, Code, DecodeFault, decode, header};
use guard_model::Ty;
use std::alloc::{AllocError, Global};

#[derive(Drop)]
pub struct Decoding {
    ty: TypeRow,
}

/// The breach, or the value as it is kept.
pub fn decoded(alloc: Global, ty: &Ty, octets: &[u8]) -> Result<String, AllocError>
    requires { IsTrue (is_sound (type_view ty.now)) }
{
    match decode(alloc, ty, octets) {
        Ok(value) => format!(in alloc; "{value:?}"),
        Err(DecodeFault::Breach(breach)) if !is_named_by_header(octets, &breach) => {
            format!(in alloc; "{breach}, which header does not answer")
        }
        Err(DecodeFault::OutOfMemory) => Err(AllocError),
        Err(fault) => format!(in alloc; "{fault}"),
    }
}

/// Whether `header` answers the same at that offset, where the fault is one of a header alone.
fn is_named_by_header(octets: &[u8], breach: &Breach) -> bool {
    if !is_of_header(breach.code) {
        return true;
    }
    breach.at <= octets.len()
        && matches!(
            header(octets, breach.at),
            Err(found) if found.code == breach.code && found.at == breach.at && found.path.is_empty()
        )
}

fn is_of_header(code: Code) -> bool {
    matches!(
        code,
        Code::TagForm | Code::IndefiniteLength | Code::NonMinimalLength | Code::LengthTooLarge
    )
}

impl Layer for Decoding {
    fn new(_alloc: Global) -> Decoding {
        Decoding { ty: TypeRow::new() }
    }

    /// Octets.
    fn answer(&mut self, alloc: Global, input: &[u8]) -> Result<String, AllocError> {
        match (self.ty.ty(), octets_in(alloc, text_of(input))?) {
            (Some(ty), Some(octets)) => decoded(alloc, ty, &octets),
            _ => not_read(alloc),
        }
    }

    /// `@type TYPE`
    fn set(&mut self, alloc: Global, name: &str, text: &[u8]) -> Result<String, AllocError> {
        match name {
            "type" => self.ty.set(alloc, text_of(text)),
            _ => unknown(alloc),
        }
    }
}
