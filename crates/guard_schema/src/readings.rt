//! What a written value and a written constraint are.
ghost use Rattle.std.specs.Prelude.{◌≡◌, IsTrue, IfOk};
ghost use Rattle.guard_der.specs.Fits.{fits};
ghost use Rattle.guard_der.specs.Sound.{is_sound, is_proper_constraint};
ghost use Rattle.guard_model.specs.TypeView.{type_view, constraint_view};
ghost use Rattle.guard_syntax.specs.SetViews as sets;
ghost use Rattle.guard_syntax.specs.Views as values;
ghost use Rattle.guard_values.specs.KeptLengths.{contents_length};
ghost use Rattle.guard_values.specs.SingleValues.{is_bounded};
ghost use Rattle.guard_values.specs.Views.{known_value_view};
ghost use Rattle.guard_constraints.specs.Noted.{AreAgreed, with_constraint};
ghost use Rattle.guard_constraints.specs.Views.{visible_in};
ghost use Rattle.guard_schema.specs.Faults.{named};
ghost use Rattle.guard_schema.specs.Pairs.{AreBuilt};
ghost use Rattle.guard_schema.specs.Outcomes.{Answers};
ghost use Rattle.guard_schema.specs.Readings.{ReadsValue, ReadsMember, ReadsConstraint};

use crate::fault::SchemaFault;
use guard_constraints::{Noted, constraint};
use guard_eval::member_of;
use guard_model::{Cons, Ty};
use guard_syntax::{ConsTree, ValueTree};
use guard_values::{KnownValue, Scope, shared_value};
use std::alloc::Global;

/// The value that is written, a member of its type: of a DEFAULT, or of a value assignment.
pub fn read_member(
    alloc: Global,
    scope: Scope,
    ty: &Ty,
    tree: &ValueTree,
) -> Result<KnownValue, SchemaFault>
    requires sound { IsTrue (is_sound (type_view ty.now)) }
    requires known { AreBuilt scope.known.now }
    ensures read { Answers known_value_view named result
        (ReadsMember (visible_in scope.entry) (type_view ty.now) (values.value_view tree.now)) }
    ensures fits { IfOk result (λ k. IsTrue (fits (type_view ty.now) (known_value_view k))) }
    ensures counted { IfOk result (λ k. k.length ≡ contents_length (type_view ty.now) (known_value_view k)) }
{
    let found = read_value(alloc, scope, ty, tree)?;
    let is_member = member_of(alloc, ty, &found.value)?;
    if is_member {
        Ok(found)
    } else {
        Err(SchemaFault::DefaultOutside(tree.site))
    }
}

/// The value that is written, whether or not it is a member of its type.
pub fn read_value(
    alloc: Global,
    scope: Scope,
    ty: &Ty,
    tree: &ValueTree,
) -> Result<KnownValue, SchemaFault>
    requires sound { IsTrue (is_sound (type_view ty.now)) }
    requires known { AreBuilt scope.known.now }
    ensures read { Answers known_value_view named result
        (ReadsValue (visible_in scope.entry) (type_view ty.now) (values.value_view tree.now)) }
    ensures fits { IfOk result (λ k. IsTrue (fits (type_view ty.now) (known_value_view k))) }
    ensures counted { IfOk result (λ k. k.length ≡ contents_length (type_view ty.now) (known_value_view k)) }
{
    let Scope { names, known, id } = scope;
    Ok(shared_value(alloc, names, known, id, ty, tree)?)
}

/// The constraint that is written on a type, of which this is noted.
pub fn read_constraint(
    alloc: Global,
    scope: Scope,
    ty: &Ty,
    tree: &ConsTree,
    noted: &mut Noted,
) -> Result<Cons, SchemaFault>
    requires sound { IsTrue (is_sound (type_view ty.now)) }
    requires known { AreBuilt scope.known.now }
    requires agreed { AreAgreed scope.known.now (type_view ty.now) noted.old.agreed }
    requires bounded { IsTrue (is_bounded noted.old.bound (type_view ty.now)) }
    ensures read { Answers constraint_view named result
        (ReadsConstraint (visible_in scope.entry) (type_view ty.now) (sets.constraint_view tree.now)) }
    ensures proper { IfOk result (λ c. IsTrue (is_proper_constraint (constraint_view c) (type_view ty.now))) }
    ensures agreed { AreAgreed scope.entry.known.now (type_view ty.now) noted.new.agreed }
    ensures bounded { IfOk result
        (λ c. IsTrue (is_bounded noted.new.bound (with_constraint (type_view ty.now) (constraint_view c)))) }
{
    let Scope { names, known, id } = scope;
    Ok(constraint(alloc, names, known, id, ty, tree, noted)?)
}
