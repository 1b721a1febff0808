//! The first constraint that a value fails.
ghost use Rattle.std.specs.Prelude.{◌≡◌, IsTrue, option_map};
ghost use Rattle.std.specs.Option.{is_none};
ghost use Rattle.guard_model.specs.TypeView.{type_view};
ghost use Rattle.guard_model.specs.ValueView.{value_view};
ghost use Rattle.guard_der.specs.Fits.{fits};
ghost use Rattle.guard_der.specs.Sound.{is_sound};
ghost use Rattle.guard_eval.specs.Member.{is_member};
ghost use Rattle.guard_eval.specs.Violations.{violation_view, violation};

use super::search::failure;
use guard_model::{Path, Site, Ty, Value};

/// A constraint that a value fails: where it begins in a module text, and the way to the part of the value that fails
/// it.
#[derive(Debug, Drop)]
pub struct Violation {
    pub site: Site,
    pub path: Path,
}

/// The first constraint that the value fails: first those of the type itself are looked at, in written order, then
/// those of its components in written order, of the chosen alternative, or of its elements in turn. None exactly where
/// the value is a member. Conditions: the type is sound, and the value fits it.
pub fn first_violation(ty: &Ty, value: &Value) -> Option<Violation>
    requires sound { IsTrue (is_sound (type_view ty.now)) }
    requires fits { IsTrue (fits (type_view ty.now) (value_view value.now)) }
    ensures first { option_map violation_view result ≡ violation (type_view ty.now) (value_view value.now) }
    ensures none { is_none result ≡ is_member (type_view ty.now) (value_view value.now) }
{
    let mut path = Path::new();
    match failure(&mut path, ty, value) {
        Some(site) => Some(Violation { site, path }),
        None => None,
    }
}
