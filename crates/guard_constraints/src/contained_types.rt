//! Contained subtypes (X.680 51.3).
ghost use Rattle.std.specs.Prelude.{◌≡◌, IfOk, Some};
ghost use Rattle.guard_model.specs.Answer.{Gives};
ghost use Rattle.guard_model.specs.TypeView.{type_view, constraint_view};
ghost use Rattle.guard_values.specs.Views.{type_at};
ghost use Rattle.guard_constraints.specs.Visible.{has_base_of};
ghost use Rattle.guard_constraints.specs.Noted.{AreAgreed};
ghost use Rattle.guard_constraints.specs.inside.Reading.{read_contained};
ghost use Rattle.guard_constraints.specs.Views.{named, visible_in};

use crate::fault::ConsFault;
use guard_model::{Cons, Rule, Site, Ty};
use guard_values::{Known, Scope};
use std::alloc::AllocError;
use std::collections::BTreeSet;

/// The members of the type that the name means, which has the base of the one that is constrained. The type is shared
/// with what is known of the definitions. `agreed` are places of definitions whose types have that base: a type is
/// compared once, however often it is named.
pub fn contained(
    scope: Scope,
    name: &[u8],
    site: Site,
    ty: &Ty,
    agreed: &mut BTreeSet<usize>,
) -> Result<Cons, ConsFault>
    requires agreed { AreAgreed scope.known.now (type_view ty.now) agreed.old }
    ensures given { Gives constraint_view named result
        (read_contained (type_view ty.now) site ((visible_in scope.entry).types name.now)) }
    ensures agreed { AreAgreed scope.entry.known.now (type_view ty.now) agreed.new }
{
    let Some(place) = scope.place_named(name) else {
        return Err(ConsFault::ContainedMismatch(site));
    };
    let Some(contained) = scope.known.type_at(place) else {
        return Err(ConsFault::ContainedMismatch(site));
    };
    if !has_base(scope.known, place, contained, ty, agreed)? {
        return Err(ConsFault::ContainedMismatch(site));
    }
    Ok(Cons {
        site,
        rule: Rule::Inside(contained.clone()?),
    })
}

/// Whether this type, of the definition at this place, has the base of the other one.
fn has_base(
    known: &Known,
    place: usize,
    contained: &Ty,
    ty: &Ty,
    agreed: &mut BTreeSet<usize>,
) -> Result<bool, AllocError>
    requires there { type_at known.now place ≡ Some (type_view contained.now) }
    requires agreed { AreAgreed known.now (type_view ty.now) agreed.old }
    ensures test { IfOk result (λ b. b ≡ has_base_of (type_view ty.now) (type_at known.now place)) }
    ensures agreed { AreAgreed known.now (type_view ty.now) agreed.new }
{
    if agreed.contains(&place) {
        return Ok(true);
    }
    if !contained.same_base(ty) {
        return Ok(false);
    }
    agreed.insert(place)?;
    Ok(true)
}
