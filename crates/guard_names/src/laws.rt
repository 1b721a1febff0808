//! Laws of names, over the definitions alone. Each is carried by a function that does nothing when it runs.
ghost use Rattle.std.specs.Prelude.{◌≡◌, ◌↔◌, ◌++◌, ℕ, List, map, length, slice_get, Contains, Some, None};
ghost use Rattle.guard_syntax.specs.ModuleViews.{module_view};
ghost use Rattle.guard_syntax.specs.Trees.{WrittenModule};
ghost use Rattle.guard_names.specs.declared.fault.NameFault.{NameFault};
ghost use Rattle.guard_names.specs.Declarations.{Definition, definitions};
ghost use Rattle.guard_names.specs.Faults.{AreFaultless, IsFirstFault, duplicate, fault_of_names};
ghost use Rattle.guard_names.specs.Meanings.{IsAssigned, Means, Uses, number_meant};
ghost use Rattle.guard_names.specs.Order.{OneOrder};

use guard_syntax::Module;

/// What a name means in a module doesn't change when modules are added at the end. The first modules have no fault by
/// themselves, so nothing is imported from those that are added.
pub fn law_modules_behind(modules: &[Module], more: &[Module], home: &[u8], name: &[u8])
    requires first { fault_of_names (map module_view modules.now) ≡ None }
    requires whole { fault_of_names (map module_view modules.now ++ map module_view more.now) ≡ None }
    requires home { (m : WrittenModule) × Contains (map module_view modules.now) m × (m.name ≡ home.now) }
    ensures { (number : ℕ) → Means (map module_view modules.now) home.now name.now number
        ↔ Means (map module_view modules.now ++ map module_view more.now) home.now name.now number }
{}

/// Where no name is declared twice, a look-up answers the one definition that a name means.
pub fn law_number_meant(modules: &[Module])
    requires { duplicate (map module_view modules.now) ≡ None }
    ensures { (home name : List ℕ) (number : ℕ)
        → (number_meant (map module_view modules.now) home name ≡ Some number)
        ↔ Means (map module_view modules.now) home name number }
{}

/// What is assigned in a module is the definition of its number, in this module and of this name.
#[tactic(auto, using(crate::proofs::Declared::Numbered::assigned_at))]
pub fn law_numbers(modules: &[Module])
    ensures { (home name : List ℕ) (number : ℕ) → IsAssigned (map module_view modules.now) home name number
        → (d : Definition) × (slice_get (definitions (map module_view modules.now)) number ≡ Some d)
        × (d.home.name ≡ home) × (d.assignment.name ≡ name) }
{}

/// There is one order in which each definition comes after all that it uses.
#[tactic(auto, using(crate::proofs::InOrder::Orders::one_order))]
pub fn law_one_order(modules: &[Module])
    ensures { OneOrder (length (definitions (map module_view modules.now))) (Uses (map module_view modules.now)) }
{}

/// Modules have one first fault, or none.
#[tactic(auto, using(crate::proofs::Faults::OneFault::one_fault, crate::proofs::Faults::OneFault::never_both))]
pub fn law_one_fault(modules: &[Module])
    ensures one { (f g : NameFault) → IsFirstFault (map module_view modules.now) f →
        IsFirstFault (map module_view modules.now) g → f ≡ g }
    ensures never_both { (f : NameFault) → AreFaultless (map module_view modules.now) →
        IsFirstFault (map module_view modules.now) f → ⊥ }
{}
