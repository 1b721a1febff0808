//! Laws of written values, over the definitions alone. Each is carried by a function that does nothing when it runs.
ghost use Rattle.std.specs.Prelude.{◌≡◌, ◌⊎◌, List, IsTrue};
ghost use Rattle.std.specs.List.Sorted.{IsPermutation};
ghost use Rattle.guard_model.specs.declared.site.Site.{Site};
ghost use Rattle.guard_model.specs.declared.tag.Tag.{Tag};
ghost use Rattle.guard_model.specs.AbstractType.{Constraints, type_of, set_of};
ghost use Rattle.guard_model.specs.AbstractValue.{AbstractValue};
ghost use Rattle.guard_model.specs.TypeView.{type_view};
ghost use Rattle.guard_der.specs.Sound.{is_sound};
ghost use Rattle.guard_syntax.specs.Trees.{WrittenEntry, value_node, list, entries_of};
ghost use Rattle.guard_syntax.specs.Views as trees;
ghost use Rattle.guard_values.specs.Denotes.{Denotes};
ghost use Rattle.guard_values.specs.Conditions.{IsFaultIn};
ghost use Rattle.guard_values.specs.FirstFault.{IsFirstFault};
ghost use Rattle.guard_values.specs.declared.fault.ValueFault.{ValueFault};
ghost use Rattle.guard_values.specs.Views.{visible_from, AreKnownFitting};

use crate::scope::Known;
use guard_model::Ty;
use guard_names::{Id, Names};
use guard_syntax::ValueTree;

/// A tree denotes one value at most.
pub fn law_one_value(names: &Names, known: &Known, id: Id, ty: &Ty, tree: &ValueTree)
    ensures { (v w : AbstractValue) →
        Denotes (visible_from names.now known.now id) (type_view ty.now) (trees.value_view tree.now) v →
        Denotes (visible_from names.now known.now id) (type_view ty.now) (trees.value_view tree.now) w → v ≡ w }
{}

/// One fault at most is the first.
pub fn law_one_fault(names: &Names, known: &Known, id: Id, ty: &Ty, tree: &ValueTree)
    ensures { (f g : ValueFault) →
        IsFirstFault (visible_from names.now known.now id) (type_view ty.now) (trees.value_view tree.now) f →
        IsFirstFault (visible_from names.now known.now id) (type_view ty.now) (trees.value_view tree.now) g → f ≡ g }
{}

/// The condition of the first fault stands at its site, in the tree or in a value inside it.
pub fn law_first_stands(names: &Names, known: &Known, id: Id, ty: &Ty, tree: &ValueTree)
    ensures { (f : ValueFault) →
        IsFirstFault (visible_from names.now known.now id) (type_view ty.now) (trees.value_view tree.now) f →
        IsFaultIn (visible_from names.now known.now id) (type_view ty.now) (trees.value_view tree.now) f }
{}

/// A tree denotes a value or has a first fault.
pub fn law_one_answer(names: &Names, known: &Known, id: Id, ty: &Ty, tree: &ValueTree)
    ensures { ((v : AbstractValue) × Denotes (visible_from names.now known.now id) (type_view ty.now)
        (trees.value_view tree.now) v) ⊎ ((f : ValueFault)
        × IsFirstFault (visible_from names.now known.now id) (type_view ty.now) (trees.value_view tree.now) f) }
{}

/// A tree hasn't both a value and a first fault. Condition: the type is sound.
pub fn law_fault_or_value(names: &Names, known: &Known, id: Id, ty: &Ty, tree: &ValueTree)
    requires sound { IsTrue (is_sound (type_view ty.now)) }
    ensures { (f : ValueFault) (v : AbstractValue) →
        IsFirstFault (visible_from names.now known.now id) (type_view ty.now) (trees.value_view tree.now) f →
        Denotes (visible_from names.now known.now id) (type_view ty.now) (trees.value_view tree.now) v → ⊥ }
{}

/// The elements of a SET OF may be written in any order (X.680 clause 28): they denote one value. Conditions: the type
/// of the elements is sound, and each known value is one of its governor's.
pub fn law_any_order(names: &Names, known: &Known, id: Id, element: &Ty)
    requires sound { IsTrue (is_sound (type_view element.now)) }
    requires fitting { AreKnownFitting known.now }
    ensures { (es others : List WrittenEntry) (tags : List Tag) (cons : Constraints) (site : Site) (v : AbstractValue) →
        IsPermutation es others
        → Denotes (visible_from names.now known.now id) (type_of tags (set_of (type_view element.now)) cons)
        (value_node site (list (entries_of es))) v
        → Denotes (visible_from names.now known.now id) (type_of tags (set_of (type_view element.now)) cons)
        (value_node site (list (entries_of others))) v }
{}
