//! Whether the elements of a SET OF are in the order of their encodings.
ghost use Rattle.std.specs.Prelude.{◌≡◌, IfOk, IsTrue, option_map};
ghost use Rattle.guard_model.specs.TypeView.{type_view};
ghost use Rattle.guard_model.specs.ValueView.{value_view, items_view};
ghost use Rattle.guard_der.specs.Der.{der, item_encodings};
ghost use Rattle.guard_der.specs.Fits.{fits, every_fits, are_ascending};

use crate::encoding::EncodeFault;
use crate::encoding::values::encoding;
use crate::order::descends;
use guard_model::{OutOfMemory, Ty, Value};
use std::alloc::Global;

/// Whether all elements of a SET OF have encodings, and none descends to the next (X.690 11.6). Condition: each element
/// fits the type. OutOfMemory is the only error.
pub fn are_ascending(alloc: Global, ty: &Ty, items: &[Value]) -> Result<bool, OutOfMemory>
    requires { IsTrue (every_fits (fits (type_view ty.now)) (items_view items.now)) }
    ensures { IfOk result (λ b. b ≡ are_ascending (item_encodings (der (type_view ty.now)) (items_view items.now))) }
{
    let mut before = Vec::new(alloc);
    for item in items {
        let Some(octets) = encoding_of(alloc, ty, item)? else {
            return Ok(false);
        };
        if descends(&before, &octets) {
            return Ok(false);
        }
        before = octets;
    }
    Ok(true)
}

/// The value's encoding; None where a length in it would need more than four octets.
fn encoding_of(alloc: Global, ty: &Ty, value: &Value) -> Result<Option<Vec<u8>>, OutOfMemory>
    requires { IsTrue (fits (type_view ty.now) (value_view value.now)) }
    ensures { IfOk result (λ octets. option_map (λ v. v.items) octets ≡ der (type_view ty.now) (value_view value.now)) }
{
    match encoding(alloc, ty, value) {
        Ok(octets) => Ok(Some(octets)),
        Err(EncodeFault::TooLong) => Ok(None),
        Err(EncodeFault::OutOfMemory) => Err(OutOfMemory),
    }
}
