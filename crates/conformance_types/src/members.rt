//! `guard_eval`: whether a value is a member of a type, and the first constraint that it fails.
ghost use Rattle.std.specs.Prelude.{IsTrue};
ghost use Rattle.guard_model.specs.TypeView.{type_view};
ghost use Rattle.guard_model.specs.ValueView.{value_view};
ghost use Rattle.guard_der.specs.Sound.{is_sound};
ghost use Rattle.guard_der.specs.Fits.{fits};

use crate::notation::{read, value_of};
use crate::type_row::set_type;
use conformance_rows::{Layer, not_read, text_of};
use guard_der::{fits, sound};
use guard_eval::{first_violation, member, member_of};
use guard_model::{PathText, Ty, Value};
use std::alloc::{AllocError, Global};

#[derive(Drop)]
pub struct Members {
    ty: Option<Box<Ty>>,
    /// One more than the octets of the type's text.
    width: u32,
}

/// Of a value that fits a sound type: whether it is a member, and what `first_violation` says.
fn answered(alloc: Global, ty: &Ty, value: &Value, width: u32) -> Result<String, AllocError> {
    let (Ok(is_sound), Ok(is_fitting)) = (sound(alloc, ty), fits(alloc, ty, value)) else {
        return Err(AllocError);
    };
    match (is_sound, is_fitting) {
        (true, true) => violated(alloc, ty, value, width),
        (true, false) => String::from_str(alloc, "doesn't fit"),
        (false, _) => String::from_str(alloc, "not sound"),
    }
}

/// What `first_violation` says beside the answers of `member` and `member_of`.
fn violated(alloc: Global, ty: &Ty, value: &Value, width: u32) -> Result<String, AllocError>
    requires sound { IsTrue (is_sound (type_view ty.now)) }
    requires fits { IsTrue (fits (type_view ty.now) (value_view value.now)) }
{
    let Ok(is_member) = member_of(alloc, ty, value) else {
        return Err(AllocError);
    };
    if is_member != member(ty, value) {
        return String::from_str(alloc, "member and member_of disagree");
    }
    match (is_member, first_violation(ty, value)) {
        (true, None) => String::from_str(alloc, "member"),
        (false, Some(violation)) => {
            // the notation's columns count the octets from there to the end
            let column = width.saturating_sub(violation.site.column);
            let path = PathText(&violation.path);
            format!(in alloc; "no member: column {column} {path}")
        }
        _ => String::from_str(alloc, "member and first_violation disagree"),
    }
}

impl Layer for Members {
    fn new(_alloc: Global) -> Members {
        Members { ty: None, width: 0 }
    }

    fn answer(&mut self, alloc: Global, input: &[u8]) -> Result<String, AllocError> {
        let Some(ty) = &self.ty else {
            return not_read(alloc);
        };
        match read(value_of(alloc, ty, text_of(input)))? {
            Some(value) => answered(alloc, ty, &value, self.width),
            None => not_read(alloc),
        }
    }

    /// `@type TYPE`
    fn set(&mut self, alloc: Global, name: &str, text: &[u8]) -> Result<String, AllocError> {
        self.width = u32::try_from(text.len()).unwrap_or(0).saturating_add(1);
        set_type(alloc, &mut self.ty, name, text)
    }
}
