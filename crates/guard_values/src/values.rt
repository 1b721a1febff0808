//! The value that a tree of the notation denotes under its type (X.680 clause 17).
ghost use Rattle.std.specs.Prelude.{◌≡◌, IsTrue, IfOk, IfErr, IfSome};
ghost use Rattle.guard_model.specs.AbstractValue.{AbstractValue};
ghost use Rattle.guard_model.specs.TypeView.{type_view};
ghost use Rattle.guard_model.specs.ValueView.{value_view};
ghost use Rattle.guard_der.specs.Fits.{fits};
ghost use Rattle.guard_der.specs.Sound.{is_sound};
ghost use Rattle.guard_syntax.specs.Views as trees;
ghost use Rattle.guard_values.specs.Denotes.{Denotes};
ghost use Rattle.guard_values.specs.Conditions.{IsFaultIn};
ghost use Rattle.guard_values.specs.FirstFault.{IsFirstFault};
ghost use Rattle.guard_values.specs.KeptLengths.{contents_length};
ghost use Rattle.guard_values.specs.Views.{named, known_value_view, visible_from, visible_in, AreKnownFitting};

use crate::fault::ValueFault;
use crate::scope::{Known, KnownValue, ModuleScope};
use crate::written::value_within_limit;
use guard_model::{Ty, Value};
use guard_names::{Id, Names};
use guard_syntax::ValueTree;
use std::alloc::Global;

/// The value that a tree denotes under a type (X.680 clause 17), written in the definition `id`: names mean what they
/// mean in the module of that definition, as far as `known` has it.
///
/// Conditions: the type is sound, which means that encodings tell its values apart and that it keeps this profile's
/// limits, and each value in `known` is one of its governor's.
///
/// Errors: one of V1 to V8, as `ValueFault` says of each. Its condition stands at its site, in the tree or in a value
/// inside it, and the tree denotes nothing. Where there are several it is the first in the text: the name of an entry
/// is read before the value there, and a list lacks a component (V3) or begins no object identifier (V7) only once all
/// its entries are read. How long an encoding is (V8) is looked at when there is no other fault.
/// `OutOfMemory`, where a growth was refused.
pub fn value(
    alloc: Global,
    names: &Names,
    known: &Known,
    id: Id,
    ty: &Ty,
    tree: &ValueTree,
) -> Result<Value, ValueFault>
    requires sound { IsTrue (is_sound (type_view ty.now)) }
    requires fitting { AreKnownFitting known.now }
    // The value is the one denoted.
    ensures denoted { IfOk result (λ v. Denotes (visible_from names.now known.now id) (type_view ty.now)
        (trees.value_view tree.now) (value_view v)) }
    ensures fits { IfOk result (λ v. IsTrue (fits (type_view ty.now) (value_view v))) }
    // The condition of a fault that is named stands at its site, and then nothing is denoted.
    ensures holds { IfErr result (λ e. IfSome (named e)
        (λ f. IsFaultIn (visible_from names.now known.now id) (type_view ty.now) (trees.value_view tree.now) f)) }
    ensures none { IfErr result (λ e. IfSome (named e) (λ f. (v : AbstractValue) →
        Denotes (visible_from names.now known.now id) (type_view ty.now) (trees.value_view tree.now) v → ⊥)) }
    // The fault is the first one.
    ensures first { IfErr result (λ e. IfSome (named e)
        (IsFirstFault (visible_from names.now known.now id) (type_view ty.now) (trees.value_view tree.now))) }
{
    let shared = shared_value(alloc, names, known, id, ty, tree)?;
    Ok(shared.value.copy()?)
}

/// The value that `value` gives, as a share, with how many octets the contents of its encoding are (X.680 clause 17).
/// Where a name is written, the share is of the value that is known, and so is the number: no use of a name copies a
/// value or counts it.
///
/// Conditions and errors: those of `value`.
pub fn shared_value(
    alloc: Global,
    names: &Names,
    known: &Known,
    id: Id,
    ty: &Ty,
    tree: &ValueTree,
) -> Result<KnownValue, ValueFault>
    requires sound { IsTrue (is_sound (type_view ty.now)) }
    requires fitting { AreKnownFitting known.now }
    // The value is the one denoted.
    ensures denoted { IfOk result (λ v. Denotes (visible_from names.now known.now id) (type_view ty.now)
        (trees.value_view tree.now) (known_value_view v)) }
    ensures fits { IfOk result (λ v. IsTrue (fits (type_view ty.now) (known_value_view v))) }
    // The contents of its encoding have so many octets.
    ensures counted { IfOk result (λ v. v.length ≡ contents_length (type_view ty.now) (known_value_view v)) }
    // The condition of a fault that is named stands at its site, and then nothing is denoted.
    ensures holds { IfErr result (λ e. IfSome (named e)
        (λ f. IsFaultIn (visible_from names.now known.now id) (type_view ty.now) (trees.value_view tree.now) f)) }
    ensures none { IfErr result (λ e. IfSome (named e) (λ f. (v : AbstractValue) →
        Denotes (visible_from names.now known.now id) (type_view ty.now) (trees.value_view tree.now) v → ⊥)) }
    // The fault is the first one.
    ensures first { IfErr result (λ e. IfSome (named e)
        (IsFirstFault (visible_from names.now known.now id) (type_view ty.now) (trees.value_view tree.now))) }
{
    let home = names.module_of(id);
    value_within_limit(alloc, ModuleScope { names, known, home }, tree, ty)
}

/// The value that a tree denotes under a type (X.680 clause 17), as a share with how many octets the contents of its
/// encoding are, as if it were written in the module of this name: names mean what they mean there, as far as `known` has
/// it, and nothing where no module has the name.
///
/// Conditions and errors: those of `value`.
pub fn shared_value_in(
    alloc: Global,
    names: &Names,
    known: &Known,
    home: &[u8],
    ty: &Ty,
    tree: &ValueTree,
) -> Result<KnownValue, ValueFault>
    requires sound { IsTrue (is_sound (type_view ty.now)) }
    requires fitting { AreKnownFitting known.now }
    // The value is the one denoted.
    ensures denoted { IfOk result (λ v. Denotes (visible_in names.now known.now home.now) (type_view ty.now)
        (trees.value_view tree.now) (known_value_view v)) }
    ensures fits { IfOk result (λ v. IsTrue (fits (type_view ty.now) (known_value_view v))) }
    // The contents of its encoding have so many octets.
    ensures counted { IfOk result (λ v. v.length ≡ contents_length (type_view ty.now) (known_value_view v)) }
    // The condition of a fault that is named stands at its site, and then nothing is denoted.
    ensures holds { IfErr result (λ e. IfSome (named e)
        (λ f. IsFaultIn (visible_in names.now known.now home.now) (type_view ty.now) (trees.value_view tree.now) f)) }
    ensures none { IfErr result (λ e. IfSome (named e) (λ f. (v : AbstractValue) →
        Denotes (visible_in names.now known.now home.now) (type_view ty.now) (trees.value_view tree.now) v → ⊥)) }
    // The fault is the first one.
    ensures first { IfErr result (λ e. IfSome (named e)
        (IsFirstFault (visible_in names.now known.now home.now) (type_view ty.now) (trees.value_view tree.now))) }
{
    let home = names.module_named(home);
    value_within_limit(alloc, ModuleScope { names, known, home }, tree, ty)
}
