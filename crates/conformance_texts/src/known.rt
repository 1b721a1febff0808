//! Whether values are ones of their types.
ghost use Rattle.std.specs.Prelude.{◌≡◌, true, IsTrue, IfSome};
ghost use Rattle.guard_model.specs.TypeView.{type_view};
ghost use Rattle.guard_model.specs.ValueView.{value_view};
ghost use Rattle.guard_der.specs.Fits.{fits};
ghost use Rattle.guard_values.specs.Views.{known_at, AreKnownFitting};

use guard_der::fits;
use guard_model::{Ty, Value};
use guard_values::Known;
use std::alloc::Global;

/// Whether each known value is one of its type.
pub fn are_fitting(alloc: Global, known: &Known) -> bool
    ensures { result ≡ true → AreKnownFitting known.now }
{
    for place in 0..known.types.len() {
        if !fits_at(alloc, known, place) {
            return false;
        }
    }
    true
}

fn fits_at(alloc: Global, known: &Known, place: usize) -> bool
    ensures { result ≡ true → IfSome (known_at known.now place) (λ g. IsTrue (fits g.ty g.value)) }
{
    match known.at(place) {
        Some(visible) => is_value(alloc, visible.ty, visible.value),
        None => true,
    }
}

/// Whether the value is one of the type; false too where there is no memory to tell.
pub fn is_value(alloc: Global, ty: &Ty, value: &Value) -> bool
    ensures { result ≡ true → IsTrue (fits (type_view ty.now) (value_view value.now)) }
{
    match fits(alloc, ty, value) {
        Ok(answer) => answer,
        Err(_) => false,
    }
}
