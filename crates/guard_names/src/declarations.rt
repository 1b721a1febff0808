//! The names that modules declare (X.680 13.1), in module and text order.
ghost use Rattle.std.specs.Prelude.{◌≡◌, ◌+◌, ◌≤◌, ◌++◌, All, List, ℕ, true, Some};
ghost use Rattle.std.specs.Prelude.{is_some, map, length, IfOk, OnOk, vec_len};
ghost use Rattle.std.specs.List.{flat_map};
ghost use Rattle.guard_names.specs.Declarations as declared;
ghost use Rattle.guard_names.specs.inside.DeclarationViews.{declaration_view};
ghost use Rattle.guard_names.specs.inside.ExportViews.{has_name};
ghost use Rattle.guard_names.specs.inside.Numbered.{HasNumber, IsNumbered};
ghost use Rattle.guard_names.specs.TableViews.{module_number};
ghost use Rattle.guard_syntax.specs.Trees.{WrittenModule};
ghost use Rattle.guard_syntax.specs.ModuleViews.{module_view, import_view, symbol_view, assignment_view};
ghost use Rattle.guard_syntax.specs.ModuleViews.{perhaps_exports_view};

use crate::exports::Exports;
use guard_model::Site;
use guard_syntax::{ExportsTree, ImportTree, Module, SymbolTree};
use std::alloc::{AllocError, Global};

/// The number of a definition: its place among all assignments, in module and text order, from 0.
pub type Id = usize;

/// A module that is there. Names in it are looked up by its number, so that its name isn't read each time.
#[derive(Clone, Copy)]
pub struct Home<'a> {
    pub name: &'a [u8],
    /// The place of the first module of this name, from 0.
    pub number: usize,
}

/// A name that is declared.
#[derive(Clone, Copy)]
pub struct Declaration<'a> {
    /// The module in which it is declared. The name of a module itself is declared in none.
    pub scope: Option<Home<'a>>,
    pub name: &'a [u8],
    pub site: Site,
    pub origin: Origin<'a>,
}

/// Where a name comes from.
#[derive(Clone, Copy)]
pub enum Origin<'a> {
    /// The name is that of a module.
    Module,
    /// The name is imported from the module of this name, which has this number if it is there.
    Import(&'a [u8], Option<usize>),
    /// The name is assigned in this definition; and whether its module exports it.
    Assignment(Id, bool),
}

/// The names that modules declare, in module and text order.
pub fn declarations<'a>(
    alloc: Global,
    modules: &[Module<'a>],
) -> Result<Vec<Declaration<'a>>, AllocError>
    ensures found { IfOk result (λ v. map declaration_view v.items
        ≡ declared.declarations (map module_view modules.now)) }
    ensures numbered { IfOk result (λ v. All (IsNumbered (map module_view modules.now)) v.items) }
{
    let mut found = Vec::new(alloc);
    let mut next = 0;
    for module in modules {
        next = add_module(alloc, modules, module, next, &mut found)?;
    }
    Ok(found)
}

/// The number of the module of this name: the place of the first one, from 0. None where no module has the name.
pub fn number_of(modules: &[Module], name: &[u8]) -> Option<usize>
    ensures { result ≡ module_number (map module_view modules.now) name.now }
{
    for number in 0..modules.len() {
        if name == modules[number].name {
            return Some(number);
        }
    }
    None
}

/// The module, which is among these, with its number.
fn home_among<'a>(modules: &[Module], tree: &Module<'a>) -> Home<'a>
    requires { is_some (module_number (map module_view modules.now) tree.now.name.now) ≡ true }
    ensures name { result.name.now ≡ tree.now.name.now }
    ensures number { HasNumber (map module_view modules.now) (Some result) }
{
    match number_of(modules, tree.name) {
        Some(number) => Home {
            name: tree.name,
            number,
        },
        None => unreachable!(),
    }
}

/// Adds the declarations of a module whose first assignment makes this definition, and answers the number of the next
/// definition.
fn add_module<'a>(
    alloc: Global,
    modules: &[Module<'a>],
    tree: &Module<'a>,
    first: Id,
    into: &mut Vec<Declaration<'a>>,
) -> Result<Id, AllocError>
    requires few { first ≤ vec_len into.old }
    requires there { is_some (module_number (map module_view modules.now) tree.now.name.now) ≡ true }
    ensures numbered { OnOk result (All (IsNumbered (map module_view modules.now)) into.old.items →
        All (IsNumbered (map module_view modules.now)) into.new.items) }
    ensures added { OnOk result (map declaration_view into.new.items ≡ map declaration_view into.old.items
        ++ declared.module_declarations first (module_view tree.now)) }
    ensures next { IfOk result (λ next. next ≡ first + length (module_view tree.now).assignments) }
    ensures few { IfOk result (λ next. next ≤ vec_len into.new) }
{
    into.push(Declaration {
        scope: None,
        name: tree.name,
        site: tree.site,
        origin: Origin::Module,
    })?;
    let home = home_among(modules, tree);
    add_imports(modules, home, written_imports(tree), into)?;
    add_assigned(alloc, home, tree, first, into)
}

/// The imports of a module, one for each module that is named after FROM; none where the word IMPORTS isn't written.
pub fn written_imports<'m, 'a>(tree: &'m Module<'a>) -> &'m [ImportTree<'a>]
    ensures { map import_view result.now ≡ declared.written_imports (module_view tree.now).imports }
{
    match &tree.imports {
        None => &[],
        Some(imports) => imports,
    }
}

/// The names that a module lists as exported; none where it exports all that it assigns.
pub fn listed_exports<'m, 'a>(tree: &'m Module<'a>) -> &'m [SymbolTree<'a>]
    ensures { map symbol_view result.now ≡ declared.listed_exports (module_view tree.now).exports }
{
    match &tree.exports {
        None => &[],
        Some(ExportsTree::All) => &[],
        Some(ExportsTree::Symbols(symbols)) => symbols,
    }
}

fn add_imports<'a>(
    modules: &[Module<'a>],
    home: Home<'a>,
    imports: &[ImportTree<'a>],
    into: &mut Vec<Declaration<'a>>,
) -> Result<(), AllocError>
    ensures added { OnOk result (map declaration_view into.new.items ≡ map declaration_view into.old.items
        ++ flat_map (declared.import_declarations home.entry.name.now) (map import_view imports.now)) }
    ensures more { OnOk result (vec_len into.old ≤ vec_len into.new) }
    ensures numbered { OnOk result (HasNumber (map module_view modules.now) (Some home.entry) → All (IsNumbered
        (map module_view modules.now)) into.old.items → All (IsNumbered (map module_view modules.now)) into.new.items) }
{
    for import in imports {
        let from = import.module.name;
        add_symbols(home, from, number_of(modules, from), &import.symbols, into)?;
    }
    Ok(())
}

fn add_symbols<'a>(
    home: Home<'a>,
    from: &'a [u8],
    number: Option<usize>,
    symbols: &[SymbolTree<'a>],
    into: &mut Vec<Declaration<'a>>,
) -> Result<(), AllocError>
    ensures added { OnOk result (map declaration_view into.new.items ≡ map declaration_view into.old.items
        ++ declared.symbol_declarations home.entry.name.now from.now (map symbol_view symbols.now)) }
    ensures more { OnOk result (vec_len into.old ≤ vec_len into.new) }
    ensures numbered { OnOk result ((ms : List WrittenModule) → HasNumber ms (Some home.entry) →
        number ≡ module_number ms from.now → All (IsNumbered ms) into.old.items → All (IsNumbered ms) into.new.items) }
{
    for symbol in symbols {
        into.push(Declaration {
            scope: Some(home),
            name: symbol.name,
            site: symbol.site,
            origin: Origin::Import(from, number),
        })?;
    }
    Ok(())
}

/// Adds the declarations of the assignments of a module.
fn add_assigned<'a>(
    alloc: Global,
    home: Home<'a>,
    tree: &Module<'a>,
    first: Id,
    into: &mut Vec<Declaration<'a>>,
) -> Result<Id, AllocError>
    requires few { first ≤ vec_len into.old }
    requires home { home.name.now ≡ tree.now.name.now }
    ensures numbered { OnOk result ((ms : List WrittenModule) → HasNumber ms (Some home.entry) →
        All (IsNumbered ms) into.old.items → All (IsNumbered ms) into.new.items) }
    ensures added { OnOk result (map declaration_view into.new.items
        ≡ map declaration_view into.old.items ++ declared.assigned_declarations (module_view tree.now) first
        (map assignment_view tree.now.assignments.items)) }
    ensures next { IfOk result (λ next. next ≡ first + length (module_view tree.now).assignments) }
    ensures few { IfOk result (λ next. next ≤ vec_len into.new) }
{
    let exports = Exports::of(alloc, &tree.exports)?;
    add_assignments(home, tree, &exports, first, into)
}

fn add_assignments<'a>(
    home: Home<'a>,
    tree: &Module<'a>,
    exports: &Exports<'a>,
    first: Id,
    into: &mut Vec<Declaration<'a>>,
) -> Result<Id, AllocError>
    requires few { first ≤ vec_len into.old }
    requires home { home.name.now ≡ tree.now.name.now }
    requires exports { (name : List ℕ) →
        has_name exports.now name ≡ declared.lists_name (perhaps_exports_view tree.now.exports) name }
    ensures numbered { OnOk result ((ms : List WrittenModule) → HasNumber ms (Some home.entry) →
        All (IsNumbered ms) into.old.items → All (IsNumbered ms) into.new.items) }
    ensures added { OnOk result (map declaration_view into.new.items
        ≡ map declaration_view into.old.items ++ declared.assigned_declarations (module_view tree.now) first
        (map assignment_view tree.now.assignments.items)) }
    ensures next { IfOk result (λ next. next ≡ first + length (module_view tree.now).assignments) }
    ensures few { IfOk result (λ next. next ≤ vec_len into.new) }
{
    let mut id = first;
    for assignment in &tree.assignments {
        into.push(Declaration {
            scope: Some(home),
            name: assignment.name,
            site: assignment.site,
            origin: Origin::Assignment(id, exports.has(assignment.name)),
        })?;
        id += 1;
    }
    Ok(id)
}
