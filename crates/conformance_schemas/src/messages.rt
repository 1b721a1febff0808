//! What octets are under a type of a schema.
ghost use Rattle.std.specs.Prelude.{IsTrue};
ghost use Rattle.guard_model.specs.TypeView.{type_view};
ghost use Rattle.guard_der.specs.Sound.{is_sound};

use crate::members::violated;
use conformance_rows::octets_in;
use guard_der::{DecodeFault, decode};
use guard_model::Ty;
use std::alloc::{AllocError, Global};

/// `member`, or the constraint that the value fails first, or what breaks the encoding rules.
pub fn judged(alloc: Global, ty: &Ty, digits: &str) -> Result<String, AllocError>
    requires { IsTrue (is_sound (type_view ty.now)) }
{
    let Some(octets) = octets_in(alloc, digits)? else {
        return String::from_str(alloc, "no octets");
    };
    match decode(alloc, ty, &octets) {
        Ok(value) => violated(alloc, ty, &value),
        Err(DecodeFault::OutOfMemory) => Err(AllocError),
        Err(fault) => format!(in alloc; "{fault}"),
    }
}
