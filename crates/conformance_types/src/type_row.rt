//! The row `@type TYPE`, which sets the type of the rows below it.
use crate::notation::{read, type_of};
use conformance_rows::{not_read, text_of, unknown};
use guard_der::sound;
use guard_model::Ty;
use std::alloc::{AllocError, Global};

/// Sets the type, and answers whether it is sound.
pub fn set_type(
    alloc: Global,
    ty: &mut Option<Box<Ty>>,
    name: &str,
    text: &[u8],
) -> Result<String, AllocError> {
    if name != "type" {
        return unknown(alloc);
    }
    let Some(written) = read(type_of(alloc, text_of(text)))? else {
        *ty = None;
        return not_read(alloc);
    };
    let answer = soundness(alloc, &written);
    *ty = Some(written);
    answer
}

/// Whether a type is sound, in words.
pub fn soundness(alloc: Global, ty: &Ty) -> Result<String, AllocError> {
    match sound(alloc, ty) {
        Ok(true) => String::from_str(alloc, "sound"),
        Ok(false) => String::from_str(alloc, "not sound"),
        Err(_) => Err(AllocError),
    }
}
