//! The types that elements of a constraint speak of, where they apply (X.680 51).
ghost use Rattle.std.specs.Prelude.{◌≡◌, IsTrue, IfOk};
ghost use Rattle.guard_der.specs.Sound.{is_sound};
ghost use Rattle.guard_model.specs.Answer.{Gives};
ghost use Rattle.guard_model.specs.TypeView.{type_view};
ghost use Rattle.guard_constraints.specs.inside.Reading as reading;
ghost use Rattle.guard_constraints.specs.Views.{named};

use crate::fault::ConsFault;
use guard_model::{Site, Ty};
use std::alloc::Global;

/// The type of a type's sizes, where it has some.
pub fn size_type(alloc: Global, ty: &Ty, site: Site) -> Result<Ty, ConsFault>
    ensures sound { IfOk result (λ t. IsTrue (is_sound (type_view t))) }
    ensures given { Gives type_view named result (reading.size_type (type_view ty.now) site) }
{
    if !ty.kind.has_size() {
        return Err(ConsFault::NotApplicable(site));
    }
    Ok(Ty::integer(alloc)?)
}

/// The type of the elements of an OF type: WITH COMPONENT applies to these (51.8.4).
pub fn element_type(ty: &Ty, site: Site) -> Result<&Ty, ConsFault>
    requires { IsTrue (is_sound (type_view ty.now)) }
    ensures sound { IfOk result (λ t. IsTrue (is_sound (type_view t.now))) }
    ensures given { Gives (λ t. type_view t.now) named result (reading.element_type (type_view ty.now) site) }
{
    match ty.kind.element() {
        Some(element) => Ok(element),
        None => Err(ConsFault::NotApplicable(site)),
    }
}
