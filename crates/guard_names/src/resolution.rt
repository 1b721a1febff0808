//! Whether the names in a list of modules have a fault, and what they mean where they have none.
ghost use Rattle.std.specs.Prelude.{◌≡◌, ℕ, ◌<◌, [], All, List, map, length, option_map, slice_get};
ghost use Rattle.std.specs.Prelude.{IfOk, IfErr, IfSome, Option, Some, None};
ghost use Rattle.std.specs.List.{flat_map};
ghost use Rattle.guard_model.specs.Answer.{Gives};
ghost use Rattle.guard_names.specs.declared.fault.NameFault.TheVariants as fault;
ghost use Rattle.guard_names.specs.Declarations.{definitions, definition_of, origin_there};
ghost use Rattle.guard_names.specs.inside.DeclarationViews.{declaration_view};
ghost use Rattle.guard_names.specs.Faults.{AreFaultless, IsFirstFault, IsRecursiveAt, named, duplicate_after};
ghost use Rattle.guard_names.specs.Faults.{first_found, undefined_in, fault_of_names};
ghost use Rattle.guard_names.specs.Meanings.{Uses, number_meant};
ghost use Rattle.guard_names.specs.NamesView.{modules_of};
ghost use Rattle.guard_names.specs.Order.{IsRecursive};
ghost use Rattle.guard_names.specs.inside.Numbered.{IsNumbered};
ghost use Rattle.guard_names.specs.inside.Reading as reading;
ghost use Rattle.guard_names.specs.TableViews.{origin_in, meaning_in};
ghost use Rattle.guard_syntax.specs.ModuleViews.{module_view};

use crate::checks::check_imports;
use crate::declarations::{Declaration, Id, declarations};
use crate::fault::NameFault;
use crate::meanings::Meanings;
use crate::names::{Names, home_of};
use crate::recursion::first_recursive;
use crate::table::Table;
use crate::uses::uses;
use guard_model::MOST_MODULES;
use guard_syntax::Module;
use std::alloc::{AllocError, Global};

/// What the names in these modules mean, or the first fault of names in this order, each in module and text order: more
/// than 64 modules (`TooManyModules`), a name that is declared twice (`Duplicate`), an import from a module that isn't
/// there (`NoModule`), of a name that isn't assigned there (`ImportNotDefined`) or isn't exported (`NotExported`), a
/// name that is exported and not assigned or the name of a type that means nothing (`Undefined`), a definition that
/// uses itself (`Recursive`). OutOfMemory may be answered instead of anything else.
pub fn resolve<'m, 'a>(alloc: Global, modules: &'m [Module<'a>]) -> Result<Names<'m, 'a>, NameFault>
    ensures faultless { IfOk result (λ _. AreFaultless (map module_view modules.now)) }
    ensures modules { IfOk result (λ names. modules_of names ≡ map module_view modules.now) }
    ensures refused { IfErr result (λ f. IfSome (named f) (IsFirstFault (map module_view modules.now))) }
{
    if MOST_MODULES < modules.len() {
        return Err(NameFault::TooManyModules);
    }
    let (meanings, uses) = meanings_and_uses(alloc, modules)?;
    by_uses(alloc, modules, meanings, &uses)
}

/// The answer of `resolve`, from what the names mean and what each definition uses. A definition that uses itself is
/// the one fault that may be left.
fn by_uses<'m, 'a>(
    alloc: Global,
    modules: &'m [Module<'a>],
    meanings: Meanings<'m, 'a>,
    uses: &[Vec<Id>],
) -> Result<Names<'m, 'a>, NameFault>
    requires modules { meanings.modules.now ≡ modules.now }
    requires named { fault_of_names (map module_view modules.now) ≡ None }
    requires meant { (home name : List ℕ) →
        meaning_in meanings home name ≡ number_meant (map module_view modules.now) home name }
    requires used { map (λ v. v.items) uses.now ≡ reading.uses_of_all (map module_view modules.now) }
    ensures faultless { IfOk result (λ _. AreFaultless (map module_view modules.now)) }
    ensures modules { IfOk result (λ names. modules_of names ≡ map module_view modules.now) }
    ensures refused { IfErr result (λ f. IfSome (named f) (IsFirstFault (map module_view modules.now))) }
{
    check_recursion(alloc, modules, uses)?;
    Ok(Names::of(alloc, modules, meanings, uses)?)
}

/// What the declared names mean, and which definitions each definition uses.
fn meanings_and_uses<'m, 'a>(
    alloc: Global,
    modules: &'m [Module<'a>],
) -> Result<(Meanings<'m, 'a>, Vec<Vec<Id>>), NameFault>
    ensures modules { IfOk result (λ p. p.0.modules.now ≡ modules.now) }
    ensures meant { IfOk result (λ p. (home name : List ℕ) →
        meaning_in p.0 home name ≡ number_meant (map module_view modules.now) home name) }
    ensures used { IfOk result (λ p. reading.listed_uses p.1 ≡ reading.uses_of_all (map module_view modules.now)) }
    ensures refused { Gives reading.nothing named result (reading.check_names (map module_view modules.now)) }
{
    let declared = declarations(alloc, modules)?;
    let table = Table::of(alloc, modules, &declared)?;
    check_imports(modules, &declared, &table)?;
    by_table(alloc, modules, declared, &table)
}

/// What the declared names mean and what each definition uses, from where the declared names come from. A name that is
/// undefined is the one fault that may be left.
fn by_table<'m, 'a>(
    alloc: Global,
    modules: &'m [Module<'a>],
    declared: Vec<Declaration<'a>>,
    table: &Table<'m, 'a>,
) -> Result<(Meanings<'m, 'a>, Vec<Vec<Id>>), NameFault>
    requires modules { table.now.modules.now ≡ modules.now }
    requires once { duplicate_after [] (map declaration_view declared.items) ≡ None }
    requires numbered { All (IsNumbered (map module_view modules.now)) declared.items }
    requires origins { (scope : Option (List ℕ)) (name : List ℕ) →
        origin_in table.now scope name ≡ origin_there (map declaration_view declared.items) scope name }
    ensures modules { IfOk result (λ p. p.0.modules.now ≡ modules.now) }
    ensures meant { IfOk result (λ p. (home name : List ℕ) →
        meaning_in p.0 home name ≡ definition_of (origin_in table.now) home name) }
    ensures used { IfOk result (λ p. reading.listed_uses p.1
        ≡ flat_map (reading.used_in_module (definition_of (origin_in table.now))) (map module_view modules.now)) }
    ensures refused { Gives reading.nothing named result (reading.refused_at fault.Undefined (first_found
        (undefined_in (origin_in table.now) (definition_of (origin_in table.now))) (map module_view modules.now))) }
{
    let meanings = meanings_of(alloc, modules, declared, table)?;
    let uses = uses(alloc, modules, table, &meanings)?;
    Ok((meanings, uses))
}

/// What the declared names mean. The declarations are let go, since there may be millions.
fn meanings_of<'m, 'a>(
    alloc: Global,
    modules: &'m [Module<'a>],
    declared: Vec<Declaration<'a>>,
    table: &Table<'m, 'a>,
) -> Result<Meanings<'m, 'a>, AllocError>
    requires modules { table.now.modules.now ≡ modules.now }
    requires once { duplicate_after [] (map declaration_view declared.items) ≡ None }
    requires numbered { All (IsNumbered (map module_view modules.now)) declared.items }
    requires origins { (scope : Option (List ℕ)) (name : List ℕ) →
        origin_in table.now scope name ≡ origin_there (map declaration_view declared.items) scope name }
    ensures modules { IfOk result (λ t. t.modules.now ≡ modules.now) }
    ensures found { IfOk result (λ t. (home name : List ℕ) →
        meaning_in t home name ≡ definition_of (origin_in table.now) home name) }
{
    Meanings::of(alloc, modules, &declared, table)
}

/// Looks for a definition that uses itself, directly or through others.
fn check_recursion(alloc: Global, modules: &[Module], uses: &[Vec<Id>]) -> Result<(), NameFault>
    requires named { fault_of_names (map module_view modules.now) ≡ None }
    requires used { map (λ v. v.items) uses.now ≡ reading.uses_of_all (map module_view modules.now) }
    ensures acyclic { IfOk result (λ _. (number : ℕ) → IsRecursive (Uses (map module_view modules.now)) number → ⊥) }
    ensures refused { IfErr result (λ f. IfSome (named f) (IsFirstFault (map module_view modules.now))) }
{
    match first_recursive(alloc, uses)? {
        Some(number) => Err(recursive(modules, number)),
        None => Ok(()),
    }
}

/// The fault of a definition that uses itself.
fn recursive(modules: &[Module], number: Id) -> NameFault
    requires { number < length (definitions (map module_view modules.now)) }
    ensures { option_map (λ d. fault.Recursive d.assignment.site)
        (slice_get (definitions (map module_view modules.now)) number) ≡ Some result }
{
    match home_of(modules, number) {
        Some((_, _, assignment)) => NameFault::Recursive(assignment.site),
        None => unreachable!(),
    }
}
