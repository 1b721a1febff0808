//! The values that a constraint allows, and the members of a type.
ghost use Rattle.std.specs.Prelude.{◌≡◌, IsTrue};
ghost use Rattle.guard_model.specs.AbstractType.{AbstractType};
ghost use Rattle.guard_model.specs.TypeView.{type_view, kind_view, constraint_view};
ghost use Rattle.guard_model.specs.ValueView.{value_view};
ghost use Rattle.guard_der.specs.Fits.{fits, fits_kind};
ghost use Rattle.guard_der.specs.Sound.{is_sound, is_proper, is_proper_constraint};
ghost use Rattle.guard_model.specs.Kinds.{kind_of};
ghost use Rattle.guard_eval.specs.Member.{holds, is_member};

use super::search::{failure, failure_by};
use guard_model::{Cons, Kind, Path, Ty, Value};

/// Whether a constraint allows the value (X.680 clauses 49 to 51). Conditions: the constraint is one that this type may
/// have, as each constraint of a sound type is, and the value fits the type.
pub fn holds(cons: &Cons, ty: &Ty, value: &Value) -> bool
    requires proper { IsTrue (is_proper_constraint (constraint_view cons.now) (type_view ty.now)) }
    requires fits { IsTrue (fits (type_view ty.now) (value_view value.now)) }
    ensures { result ≡ holds (constraint_view cons.now) (kind_of (type_view ty.now)) (value_view value.now) }
{
    failure_by(&mut Path::new(), cons, &ty.kind, value).is_none()
}

/// Whether a value is a member of the type: each constraint holds, of the value itself and of each part, that is each
/// component, the chosen alternative, each element. An absent component is never tested; one that is its default is
/// there. Conditions: the type is sound, and the value fits it.
pub fn member(ty: &Ty, value: &Value) -> bool
    requires sound { IsTrue (is_sound (type_view ty.now)) }
    requires fits { IsTrue (fits (type_view ty.now) (value_view value.now)) }
    ensures { result ≡ is_member (type_view ty.now) (value_view value.now) }
{
    failure(&mut Path::new(), ty, value).is_none()
}

// ---- for what is inside sound types

/// Whether a constraint allows a value of this kind (X.680 clauses 49 to 51), as `holds` says it of a type. Conditions:
/// the constraint is one that a type of this kind may have, and the value fits the kind.
pub fn holds_on_kind(cons: &Cons, kind: &Kind, value: &Value) -> bool
    requires proper { (t : AbstractType) × (kind_of t ≡ kind_view kind.now)
        × IsTrue (is_proper_constraint (constraint_view cons.now) t) }
    requires fits { IsTrue (fits_kind (kind_view kind.now) (value_view value.now)) }
    ensures { result ≡ holds (constraint_view cons.now) (kind_view kind.now) (value_view value.now) }
{
    failure_by(&mut Path::new(), cons, kind, value).is_none()
}

/// Whether a value is a member of the type, as `member` says, also of a type inside a sound one. Conditions: the type
/// is proper, as a sound type and each type inside one is, and the value fits it.
pub fn proper_member(ty: &Ty, value: &Value) -> bool
    requires proper { IsTrue (is_proper (type_view ty.now)) }
    requires fits { IsTrue (fits (type_view ty.now) (value_view value.now)) }
    ensures { result ≡ is_member (type_view ty.now) (value_view value.now) }
{
    failure(&mut Path::new(), ty, value).is_none()
}
