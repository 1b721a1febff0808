//! What texts denote, as one answer, and the names by which a schema finds its types.
ghost use Rattle.std.specs.Prelude.{◌≡◌, ◌≤◌, ◌++◌, ℕ, List, All, map, slice_get, length, IfOk, IsUtf8, string_bytes};
ghost use Rattle.guard_names.specs.Declarations.{definitions, defined_in};
ghost use Rattle.guard_names.specs.NamesView.{modules_of, order_of};
ghost use Rattle.guard_syntax.specs.ModuleViews.{module_view};
ghost use Rattle.guard_schema.specs.Accepts.{Denotes};
ghost use Rattle.guard_schema.specs.Entries as entries;
ghost use Rattle.guard_schema.specs.Entries.{entries_from, first_named};
ghost use Rattle.guard_schema.specs.Faults.{named};
ghost use Rattle.guard_schema.specs.Outcomes.{Answers};
ghost use Rattle.guard_schema.specs.Schemas as schemas;
ghost use Rattle.guard_schema.specs.Views.{entry_view, found_in, type_place, schema_view, known_view};

use crate::built_modules::BuiltModules;
use crate::fault::SchemaFault;
use crate::index::TypeIndex;
use crate::progress::Progress;
use crate::schema::Schema;
use crate::texts::read_modules;
use guard_model::Value;
use guard_names::{Id, Names};
use guard_syntax::Module;
use std::alloc::{AllocError, Global};
use std::sync::Arc;

/// The names of a definition.
#[derive(Clone, Copy)]
pub struct NamedDefinition<'a> {
    /// The name of the module that assigns it.
    pub home: &'a [u8],
    pub name: &'a [u8],
    /// The place of its type, where it assigns one.
    pub place: Option<usize>,
}

/// What texts denote, as one answer.
pub fn schema_of(alloc: Global, texts: &[&[u8]]) -> Result<Schema, SchemaFault>
    ensures { Answers schema_view named result (Denotes (map (λ t. t.now) texts.now)) }
{
    let modules = read_modules(alloc, texts)?;
    let built = BuiltModules::of(alloc, &modules)?;
    let BuiltModules { schema, .. } = built;
    Ok(schema)
}

/// The types by their names. What is built moves.
pub fn with_names(
    alloc: Global,
    modules: &[Module],
    progress: Progress,
) -> Result<Schema, AllocError>
    requires modules { modules_of progress.names.now ≡ map module_view modules.now }
    requires texts { All (λ m. IsUtf8 m.name) (map module_view modules.now) }
    requires few { length (map module_view modules.now) ≤ 64 }
    ensures named { IfOk result (λ s. schema_view s ≡ schemas.schema_of (known_view progress.entry)) }
    ensures kept { IfOk result (λ s. s.known ≡ progress.entry.known) }
{
    let Progress { names, known, .. } = progress;
    let index = index_of(alloc, names, &known.values, modules)?;
    let modules = module_names(alloc, modules)?;
    Ok(Schema {
        modules,
        index,
        known,
    })
}

/// The names of modules as texts. They are letters, digits and hyphens, of which nothing is lost.
fn module_names(alloc: Global, modules: &[Module]) -> Result<Vec<String>, AllocError>
    requires { All (λ m. IsUtf8 m.name) (map module_view modules.now) }
    ensures { IfOk result (λ v. map string_bytes v.items ≡ map (λ m. m.name) (map module_view modules.now)) }
{
    let mut names = Vec::with_capacity(alloc, modules.len())?;
    for module in modules {
        names.push(String::from_utf8_lossy(alloc, module.name)?)?;
    }
    Ok(names)
}

// ---- definitions

/// The index of all definitions, module by module.
fn index_of(
    alloc: Global,
    names: &Names,
    values: &[Option<Arc<Value>>],
    modules: &[Module],
) -> Result<TypeIndex, AllocError>
    ensures { IfOk result (λ index. (home name : List ℕ) → found_in index home name ≡ first_named home name
        (entries_from (type_place (order_of names.now) values.now) 0 (definitions (map module_view modules.now)))) }
{
    let mut index = TypeIndex::new(alloc);
    let mut all = Vec::new(alloc);
    for module in modules {
        let first = all.len();
        all = with_module(names, values, module, all)?;
        let (_, own) = all.split_at(first);
        index = index.with(alloc, module.name, own)?;
    }
    Ok(index)
}

/// Those of a module after those before it.
fn with_module<'a>(
    names: &Names,
    values: &[Option<Arc<Value>>],
    tree: &Module<'a>,
    before: Vec<NamedDefinition<'a>>,
) -> Result<Vec<NamedDefinition<'a>>, AllocError>
    ensures { IfOk result (λ v. map entry_view v.items ≡ map entry_view before.entry.items ++ entries_from
        (type_place (order_of names.now) values.now) (length before.entry.items) (defined_in (module_view tree.now))) }
{
    let mut all = before;
    for assignment in &tree.assignments {
        let place = place_of(names, values, all.len());
        all.push(definition_named(tree.name, assignment.name, place))?;
    }
    Ok(all)
}

fn definition_named<'a>(home: &'a [u8], name: &'a [u8], place: Option<usize>) -> NamedDefinition<'a>
    ensures { entry_view result ≡ record { home = home.now; name = name.now; place = place } }
{
    NamedDefinition { home, name, place }
}

/// The place of the type of the definition with this number, where it assigns one.
fn place_of(names: &Names, values: &[Option<Arc<Value>>], id: Id) -> Option<usize>
    ensures { result ≡ type_place (order_of names.now) values.now id }
{
    match names.place(id) {
        Some(place) => unvalued(values, place),
        None => None,
    }
}

/// The place, where what is there has no value.
fn unvalued(values: &[Option<Arc<Value>>], place: usize) -> Option<usize>
    ensures { result ≡ entries.unvalued place (slice_get values.now place) }
{
    match values.get(place) {
        Some(None) => Some(place),
        _ => None,
    }
}
