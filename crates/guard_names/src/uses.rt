//! Which definitions each definition uses, and names that mean nothing.
ghost use Rattle.std.specs.Prelude.{◌≡◌, ◌++◌, ◌∷◌, [], map, IfOk, OnOk};
ghost use Rattle.std.specs.List.{flat_map, filter_map};
ghost use Rattle.guard_model.specs.Answer.{Gives};
ghost use Rattle.guard_names.specs.declared.fault.NameFault.TheVariants as fault;
ghost use Rattle.guard_names.specs.Faults as faults;
ghost use Rattle.guard_names.specs.Mentions as mentioned;
ghost use Rattle.guard_names.specs.inside.Reading.{refused_at, nothing, used_in, used_in_module, listed_uses};
ghost use Rattle.guard_names.specs.TableViews.{origin_in, meaning_in};
ghost use Rattle.guard_names.specs.inside.Views.{mention_view};
ghost use Rattle.guard_syntax.specs.ModuleViews.{module_view, assignment_view, symbol_view};

use crate::declarations::{Id, listed_exports};
use crate::fault::NameFault;
use crate::meanings::{Meanings, Within};
use crate::mentions::{Mention, mentions};
use crate::table::Table;
use guard_syntax::{Assignment, Module, SymbolKind, SymbolTree};
use std::alloc::Global;

/// The definitions that each definition uses, in module and text order. An exported name that isn't assigned, and the
/// name of a type that means nothing, are refused with Undefined; OutOfMemory may come in place of any answer.
pub fn uses<'a>(
    alloc: Global,
    modules: &[Module<'a>],
    table: &Table,
    meanings: &Meanings,
) -> Result<Vec<Vec<Id>>, NameFault>
    ensures found { IfOk result (λ v. listed_uses v
        ≡ flat_map (used_in_module (meaning_in meanings.now)) (map module_view modules.now)) }
    ensures refused { Gives nothing faults.named result (refused_at fault.Undefined (faults.first_found
        (faults.undefined_in (origin_in table.now) (meaning_in meanings.now)) (map module_view modules.now))) }
{
    let mut all = Vec::new(alloc);
    for module in modules {
        check_exports(module.name, listed_exports(module), table)?;
        add_uses(alloc, module, meanings, &mut all)?;
    }
    Ok(all)
}

/// Looks for a name that is exported and not assigned in the module of this name.
fn check_exports<'a>(
    home: &[u8],
    symbols: &[SymbolTree<'a>],
    table: &Table,
) -> Result<(), NameFault>
    ensures { Gives nothing faults.named result (refused_at fault.Undefined (faults.first_where
        (faults.is_undefined_export (origin_in table.now) home.now) (λ s. s.site) (map symbol_view symbols.now))) }
{
    let number = table.number_of(home);
    for symbol in symbols {
        if table.assigned(number, symbol.name).is_none() {
            return Err(NameFault::Undefined(symbol.site));
        }
    }
    Ok(())
}

fn add_uses<'a>(
    alloc: Global,
    tree: &Module<'a>,
    meanings: &Meanings,
    into: &mut Vec<Vec<Id>>,
) -> Result<(), NameFault>
    ensures found { OnOk result (listed_uses into.new ≡ listed_uses into.old
        ++ used_in_module (meaning_in meanings.now) (module_view tree.now)) }
    ensures refused { Gives nothing faults.named result (refused_at
        fault.Undefined (faults.first_found (faults.undefined_mention_in (meaning_in meanings.now) tree.now.name.now)
        (map assignment_view tree.now.assignments.items))) }
{
    let within = meanings.within(tree.name);
    for assignment in &tree.assignments {
        let used = uses_of(alloc, &within, assignment)?;
        into.push(used)?;
    }
    Ok(())
}

/// The definitions that an assignment in this module uses.
fn uses_of(alloc: Global, within: &Within, assignment: &Assignment) -> Result<Vec<Id>, NameFault>
    ensures found { IfOk result (λ v. v.items
        ≡ used_in (meaning_in within.now.meanings.now) within.now.home.now (assignment_view assignment.now)) }
    ensures refused { Gives nothing faults.named result (refused_at fault.Undefined (faults.undefined_mention_in
        (meaning_in within.now.meanings.now) within.now.home.now (assignment_view assignment.now))) }
{
    let mentioned = mentions(alloc, assignment)?;
    let mut used = Vec::new(alloc);
    for mention in &mentioned {
        add_use(within, mention, &mut used)?;
    }
    Ok(used)
}

fn add_use(within: &Within, mention: &Mention, into: &mut Vec<Id>) -> Result<(), NameFault>
    ensures found { OnOk result (into.new.items ≡ into.old.items ++ filter_map
        (λ x. meaning_in within.now.meanings.now within.now.home.now x.name) (mention_view mention.now ∷ [])) }
    ensures refused { Gives nothing faults.named result (refused_at fault.Undefined
        (faults.first_where (faults.is_undefined_mention (meaning_in within.now.meanings.now) within.now.home.now)
        (λ x. x.site) (mention_view mention.now ∷ []))) }
{
    match within.find(mention.name) {
        Some(number) => {
            into.push(number)?;
            Ok(())
        }
        None => match mention.kind {
            SymbolKind::Type => Err(NameFault::Undefined(mention.site)),
            SymbolKind::Value => Ok(()),
        },
    }
}
