//! Values that are written in constraints.
ghost use Rattle.std.specs.Prelude.{◌≡◌, IsTrue, IfOk};
ghost use Rattle.guard_der.specs.Sound.{is_sound};
ghost use Rattle.guard_model.specs.Answer.{Gives};
ghost use Rattle.guard_model.specs.TypeView.{type_view};
ghost use Rattle.guard_syntax.specs.Views as trees;
ghost use Rattle.guard_values.specs.KeptLengths.{contents_length};
ghost use Rattle.guard_values.specs.Views.{meaning_of, known_value_view, AreKnownFitting};
ghost use Rattle.guard_constraints.specs.inside.Reading.{read_value};
ghost use Rattle.guard_constraints.specs.Views.{named};

use crate::fault::ConsFault;
use guard_model::Ty;
use guard_syntax::ValueTree;
use guard_values::{KnownValue, Scope, shared_value};
use std::alloc::Global;

/// The value that a tree denotes under a type, with how many octets its contents are. Its first fault is one of the constraint (C9).
pub fn written_value(
    alloc: Global,
    scope: Scope,
    tree: &ValueTree,
    ty: &Ty,
) -> Result<KnownValue, ConsFault>
    requires sound { IsTrue (is_sound (type_view ty.now)) }
    requires fitting { AreKnownFitting scope.known.now }
    ensures given { Gives known_value_view named result
        (read_value (meaning_of scope.entry) (type_view ty.now) (trees.value_view tree.now)) }
    ensures counted { IfOk result (λ v. v.length ≡ contents_length (type_view ty.now) (known_value_view v)) }
{
    let Scope { names, known, id } = scope;
    Ok(shared_value(alloc, names, known, id, ty, tree)?)
}
