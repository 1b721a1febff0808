//! What the names in a list of modules mean.
ghost use Rattle.std.specs.Prelude.{◌≡◌, ◌↔◌, ℕ, ◌<◌, List, map, length, option_map, slice_get, slice_index_or};
ghost use Rattle.std.specs.Prelude.{is_some, false, IsTrue, IfOk, IfErr, IfSome, Option, Some, None};
ghost use Rattle.std.proofs.Props.{props};
ghost use Rattle.guard_names.specs.Declarations.{Definition, definitions};
ghost use Rattle.guard_names.specs.Faults.{fault_of_names};
ghost use Rattle.guard_names.specs.Meanings.{Means, Uses, number_meant, number_meant_in, number_meant_from};
ghost use Rattle.guard_names.specs.Order.{IsOrder, IsRecursive, is_listed};
ghost use Rattle.guard_names.specs.Places.{place_in};
ghost use Rattle.guard_names.specs.inside.OrderProps.{IsOrder-prop};
ghost use Rattle.guard_names.specs.inside.Reading.{uses_of_all};
ghost use Rattle.guard_names.specs.TableViews.{meaning_in, module_number};
ghost use Rattle.guard_syntax.specs.ModuleViews.{module_view, assignment_view};

use crate::declarations::{Id, number_of};
use crate::meanings::Meanings;
use crate::order::order;
use guard_syntax::{Assignment, Module};
use std::alloc::{AllocError, Global};

/// What the names in a list of modules mean. The modules have none of the faults of names.
#[derive(Drop)]
pub struct Names<'m, 'a> {
    modules: &'m [Module<'a>],
    meanings: Meanings<'m, 'a>,
    /// The number of each module's name, by which names in the module are looked up.
    numbers: Vec<Option<usize>>,
    order: Vec<Id>,
    /// The place of each definition in the order, by definitions.
    places: Vec<usize>,
    pub ghost looked_up: { meanings.modules.now ≡ modules.now },
    pub ghost numbered: { numbers.items
        ≡ map (λ m. module_number (map module_view modules.now) m.name.now) modules.now },
    pub ghost faultless: { is_some (fault_of_names (map module_view modules.now)) ≡ false },
    pub ghost meant: { (home name : List ℕ) →
        meaning_in meanings home name ≡ number_meant (map module_view modules.now) home name } by { Prim.hlevel props },
    pub ghost ordered: { IsOrder (length (definitions (map module_view modules.now)))
        (Uses (map module_view modules.now)) order.items } by { IsOrder-prop
            (length (definitions (map module_view modules.now))) (Uses (map module_view modules.now)) order.items },
    pub ghost whole: { length places.items ≡ length (definitions (map module_view modules.now)) },
    pub ghost placed: { (number : ℕ) → number < length places.items →
        slice_get order.items (slice_index_or places.items number 0) ≡ Some number } by { Prim.hlevel props },
}

impl<'m, 'a> Names<'m, 'a> {
    ghost use Rattle.guard_names.specs.NamesView.{modules_of, order_of};

    /// The names in modules without faults, of which this is known: what they mean, and which definitions each
    /// definition uses.
    pub(crate) fn of(
        alloc: Global,
        modules: &'m [Module<'a>],
        meanings: Meanings<'m, 'a>,
        uses: &[Vec<Id>],
    ) -> Result<Names<'m, 'a>, AllocError>
        requires named { fault_of_names (map module_view modules.now) ≡ None }
        requires modules { meanings.modules.now ≡ modules.now }
        requires acyclic { (number : ℕ) → IsRecursive (Uses (map module_view modules.now)) number → ⊥ }
        requires meant { (home name : List ℕ) →
            meaning_in meanings home name ≡ number_meant (map module_view modules.now) home name }
        requires used { map (λ v. v.items) uses.now ≡ uses_of_all (map module_view modules.now) }
        ensures { IfOk result (λ names. modules_of names ≡ map module_view modules.now) }
    {
        let order = order(alloc, uses)?;
        let places = places(alloc, &order, uses.len())?;
        let numbers = numbers(alloc, modules)?;
        Ok(Names {
            modules,
            meanings,
            numbers,
            order,
            places,
        })
    }

    /// The definition that a name means in the module of a name (X.680 13.1): one that is assigned there, or in a
    /// module from which the name is imported and that exports it. None where no module has that name, and where the
    /// name is neither assigned nor imported there.
    pub fn find(&self, module_name: &str, name: &str) -> Option<Id>
        ensures meant { (number : ℕ) →
            (result ≡ Some number) ↔ Means (modules_of self.now) module_name.now name.now number }
        ensures home { IfSome result (λ id. (d : Definition)
            × (slice_get (definitions (modules_of self.now)) id ≡ Some d) × (d.assignment.name ≡ name.now)) }
    {
        self.meaning_in(self.module_named(module_name.as_bytes()), name.as_bytes())
    }

    /// The place of the module of this name, from 0. None where no module has the name.
    pub fn module_named(&self, name: &[u8]) -> Option<usize>
        ensures place { result ≡ module_number (modules_of self.now) name.now }
        // Names mean there what they mean in the module of the name.
        ensures meant { (inner : List ℕ) → number_meant_in (modules_of self.now) result inner
            ≡ number_meant (modules_of self.now) name.now inner }
    {
        number_of(self.modules, name)
    }

    /// The place of the module in which a definition is written, from 0. None where no definition has this number.
    pub fn module_of(&self, id: Id) -> Option<usize>
        ensures place { option_map (slice_get (modules_of self.now)) result
            ≡ option_map (λ d. Some d.home) (slice_get (definitions (modules_of self.now)) id) }
        // Names mean there what they mean where they are written in the definition.
        ensures meant { (inner : List ℕ) → number_meant_in (modules_of self.now) result inner
            ≡ number_meant_from (modules_of self.now) id inner }
    {
        let (place, _, _) = home_of(self.modules, id)?;
        Some(place)
    }

    /// The definition that this name means in the module at this place, whose name isn't read again. None where no
    /// module has the place, and where the name means nothing there.
    pub fn meaning_in(&self, place: Option<usize>, name: &[u8]) -> Option<Id>
        ensures { result ≡ number_meant_in (modules_of self.now) place name.now }
    {
        let number = self.numbers.get(place?)?;
        self.meanings.find(*number, name)
    }

    /// The definition that this name means where it is written in the definition with this number. None where there is
    /// no such definition, and where the name means nothing there.
    pub fn meaning_from(&self, id: Id, name: &[u8]) -> Option<Id>
        ensures { result ≡ number_meant_from (modules_of self.now) id name.now }
    {
        self.meaning_in(self.module_of(id), name)
    }

    /// All definitions, each once and after those that it uses. The next one is always the first, in module and text
    /// order, of those whose uses are all listed.
    pub fn order(&self) -> &[Id]
        ensures same { result.now ≡ order_of self.now }
        ensures ordered { IsOrder (length (definitions (modules_of self.now))) (Uses (modules_of self.now)) result.now }
    {
        &self.order
    }

    /// The place of a definition in the order, from 0. None where no definition has this number.
    pub fn place(&self, id: Id) -> Option<usize>
        ensures placed { (place : ℕ) → (result ≡ Some place) ↔ (slice_get (order_of self.now) place ≡ Some id) }
        ensures computed { result ≡ place_in (order_of self.now) id }
    {
        self.places.get(id).copied()
    }

    /// The module in which a definition is written, and its assignment. None where no definition has this number.
    pub fn home(&self, id: Id) -> Option<(&Module<'a>, &Assignment<'a>)>
        ensures { option_map (λ p. record { home = module_view p.0.now; assignment = assignment_view p.1.now }) result
            ≡ slice_get (definitions (modules_of self.now)) id }
    {
        let (_, home, assignment) = home_of(self.modules, id)?;
        Some((home, assignment))
    }
}

/// The place of the module of a definition, from 0, the module and the assignment. None where no definition has this
/// number.
pub fn home_of<'m, 'a>(
    modules: &'m [Module<'a>],
    id: Id,
) -> Option<(usize, &'m Module<'a>, &'m Assignment<'a>)>
    ensures home { option_map (λ p. record { home = module_view p.1.now; assignment = assignment_view p.2.now }) result
        ≡ slice_get (definitions (map module_view modules.now)) id }
    ensures place { IfSome result (λ p. slice_get modules.now p.0 ≡ Some p.1.now) }
{
    let mut left = id;
    for place in 0..modules.len() {
        let module = &modules[place];
        if let Some(assignment) = module.assignments.get(left) {
            return Some((place, module, assignment));
        }
        left -= module.assignments.len();
    }
    None
}

/// The number of each module, by its name.
fn numbers(alloc: Global, modules: &[Module]) -> Result<Vec<Option<usize>>, AllocError>
    ensures { IfOk result
        (λ v. v.items ≡ map (λ m. module_number (map module_view modules.now) m.name.now) modules.now) }
{
    let mut numbers = Vec::with_capacity(alloc, modules.len())?;
    for module in modules {
        numbers.push(number_of(modules, module.name))?;
    }
    Ok(numbers)
}

/// The place of each of the numbers below this one in a list of them.
fn places(alloc: Global, order: &[Id], count: usize) -> Result<Vec<usize>, AllocError>
    requires { (number : ℕ) → IsTrue (is_listed order.now number) → number < count }
    ensures size { IfOk result (λ v. length v.items ≡ count) }
    ensures placed { IfOk result (λ v. (number : ℕ) → IsTrue (is_listed order.now number) →
        slice_get order.now (slice_index_or v.items number 0) ≡ Some number) }
{
    let mut places = vec![in alloc; 0; count]?;
    for place in 0..order.len() {
        places[order[place]] = place;
    }
    Ok(places)
}
