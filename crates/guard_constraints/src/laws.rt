//! Laws of constraint trees, over the definitions alone: whatever names mean, for all types and trees. Each is carried
//! by a function that does nothing when it runs.
ghost use Rattle.std.specs.Prelude.{◌≡◌, IsTrue};
ghost use Rattle.guard_model.specs.AbstractType.{AbstractType, Constraint};
ghost use Rattle.guard_der.specs.Sound.{is_sound};
ghost use Rattle.guard_syntax.specs.Trees.{WrittenConstraint};
ghost use Rattle.guard_values.specs.Meanings.{AreFitting};
ghost use Rattle.guard_constraints.specs.declared.fault.ConsFault.{ConsFault};
ghost use Rattle.guard_constraints.specs.Denotes.{Denotes};
ghost use Rattle.guard_constraints.specs.Conditions.{IsConstraintFaultIn};
ghost use Rattle.guard_constraints.specs.FirstFault.{IsFirstConstraintFault};
ghost use Rattle.guard_constraints.specs.Visible.{Visible};

/// A tree denotes one constraint at most.
pub fn law_one_constraint()
    ensures { (names : Visible) (t : AbstractType) (tree : WrittenConstraint) (c d : Constraint) →
        Denotes names t tree c → Denotes names t tree d → c ≡ d }
{}

/// One fault at most is named of a tree.
pub fn law_one_fault()
    ensures { (names : Visible) (t : AbstractType) (tree : WrittenConstraint) (f g : ConsFault) →
        IsFirstConstraintFault names t tree f → IsFirstConstraintFault names t tree g → f ≡ g }
{}

/// The condition of the fault that is named stands at its site, in some element of the tree.
pub fn law_first_stands()
    ensures { (names : Visible) (t : AbstractType) (tree : WrittenConstraint) (f : ConsFault) →
        IsFirstConstraintFault names t tree f → IsConstraintFaultIn names t tree f }
{}

/// No fault is named of a tree that denotes a constraint on a sound type, where each visible value is one of its
/// governor's.
pub fn law_no_fault()
    ensures { (names : Visible) (t : AbstractType) (tree : WrittenConstraint) (c : Constraint) (f : ConsFault) →
        AreFitting names.values → IsTrue (is_sound t) → Denotes names t tree c → IsFirstConstraintFault names t tree f →
        ⊥ }
{}
