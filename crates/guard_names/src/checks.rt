//! The faults of imports.
ghost use Rattle.std.specs.Prelude.{◌≡◌, All, map, Some, option_map, is_some};
ghost use Rattle.guard_model.specs.Answer.{Gives};
ghost use Rattle.guard_names.specs.declared.fault.NameFault.TheVariants as fault;
ghost use Rattle.guard_names.specs.Declarations as declared;
ghost use Rattle.guard_names.specs.inside.DeclarationViews.{declaration_view, origin_view};
ghost use Rattle.guard_names.specs.Faults as faults;
ghost use Rattle.guard_names.specs.inside.Numbered.{IsNumbered};
ghost use Rattle.guard_names.specs.inside.Reading as reading;
ghost use Rattle.guard_names.specs.inside.Reading.{refused_at, nothing};
ghost use Rattle.guard_names.specs.TableViews.{origin_in};
ghost use Rattle.guard_syntax.specs.ModuleViews.{module_view, import_view};

use crate::declarations::{Declaration, Origin, written_imports};
use crate::fault::NameFault;
use crate::table::Table;
use guard_syntax::{ImportTree, Module};

/// Looks for a fault of imports, of one kind after the other: a module that isn't there (NoModule), a name that isn't
/// assigned there (ImportNotDefined), a name that isn't exported there (NotExported). Condition: the declarations are
/// those of the modules, and the table is that of the declarations.
pub fn check_imports<'a>(
    modules: &[Module<'a>],
    declarations: &[Declaration<'a>],
    table: &Table,
) -> Result<(), NameFault>
    requires origins { origin_in table.now
        ≡ declared.origin_there (declared.declarations (map module_view modules.now)) }
    requires declared { map declaration_view declarations.now ≡ declared.declarations (map module_view modules.now) }
    requires numbered { All (IsNumbered (map module_view table.now.modules.now)) declarations.now }
    ensures { Gives nothing faults.named result (reading.check_imports (map module_view modules.now)) }
{
    check_modules(modules, table)?;
    check_assigned(declarations, table)?;
    check_exported(declarations, table)
}

/// Looks for an import from a module that isn't there.
fn check_modules<'a>(modules: &[Module<'a>], table: &Table) -> Result<(), NameFault>
    ensures { Gives nothing faults.named result (refused_at fault.NoModule
        (faults.first_found (faults.no_module_in (origin_in table.now)) (map module_view modules.now))) }
{
    for module in modules {
        check_sources(written_imports(module), table)?;
    }
    Ok(())
}

fn check_sources<'a>(imports: &[ImportTree<'a>], table: &Table) -> Result<(), NameFault>
    ensures { Gives nothing faults.named result (refused_at fault.NoModule (faults.first_where
        (faults.is_missing (origin_in table.now)) (λ i. i.module_site) (map import_view imports.now))) }
{
    for import in imports {
        if !table.has_module(import.module.name) {
            return Err(NameFault::NoModule(import.module.site));
        }
    }
    Ok(())
}

/// Looks for a name that is imported from a module that doesn't assign it.
fn check_assigned(declarations: &[Declaration], table: &Table) -> Result<(), NameFault>
    requires { All (IsNumbered (map module_view table.now.modules.now)) declarations.now }
    ensures { Gives nothing faults.named result (refused_at fault.ImportNotDefined
        (faults.not_defined_among (origin_in table.now) (map declaration_view declarations.now))) }
{
    for declaration in declarations {
        if is_undefined_import(declaration, table) {
            return Err(NameFault::ImportNotDefined(declaration.site));
        }
    }
    Ok(())
}

fn is_undefined_import(declaration: &Declaration, table: &Table) -> bool
    requires { IsNumbered (map module_view table.now.modules.now) declaration.now }
    ensures { result ≡ faults.is_undefined_import (origin_in table.now) declaration.now.name.now
        (origin_view declaration.now.origin) }
{
    match declaration.origin {
        Origin::Module => false,
        Origin::Import(_, from) => table.assigned(from, declaration.name).is_none(),
        Origin::Assignment(_, _) => false,
    }
}

/// Looks for a name that is imported from a module that doesn't export it.
fn check_exported(declarations: &[Declaration], table: &Table) -> Result<(), NameFault>
    requires { All (IsNumbered (map module_view table.now.modules.now)) declarations.now }
    ensures { Gives nothing faults.named result (refused_at fault.NotExported
        (faults.not_exported_among (origin_in table.now) (map declaration_view declarations.now))) }
{
    for declaration in declarations {
        if is_closed_import(declaration, table) {
            return Err(NameFault::NotExported(declaration.site));
        }
    }
    Ok(())
}

fn is_closed_import(declaration: &Declaration, table: &Table) -> bool
    requires { IsNumbered (map module_view table.now.modules.now) declaration.now }
    ensures { result
        ≡ faults.is_closed_import (origin_in table.now) declaration.now.name.now (origin_view declaration.now.origin) }
{
    match declaration.origin {
        Origin::Module => false,
        Origin::Import(_, from) => table.exported(from, declaration.name).is_none(),
        Origin::Assignment(_, _) => false,
    }
}
