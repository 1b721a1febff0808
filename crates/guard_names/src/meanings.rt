//! Which definition each name means in the module of a name.
ghost use Rattle.std.specs.Prelude.{◌≡◌, ℕ, List, [], All, map, IfOk, Option, Some, None};
ghost use Rattle.guard_syntax.specs.ModuleViews.{module_view};
ghost use Rattle.guard_names.specs.Declarations.{definition_of, number_of_origin, origin_there};
ghost use Rattle.guard_names.specs.inside.DeclarationViews.{declaration_view, origin_view};
ghost use Rattle.guard_names.specs.Faults.{duplicate_after};
ghost use Rattle.guard_names.specs.inside.Numbered.{IsNumbered};
ghost use Rattle.guard_names.specs.TableViews.{module_number, origin_in};

use crate::declarations::{Declaration, Id, Origin, number_of};
use crate::table::{Key, Table, key_of};
use guard_syntax::Module;
use indexmap::IndexMap;
use std::alloc::{AllocError, Global};

/// Which definition each name means in the module of a name, in module and text order.
#[derive(Drop)]
pub struct Meanings<'m, 'a> {
    modules: &'m [Module<'a>],
    numbers: IndexMap<Key<'a>, Id>,
}

/// What names mean in one module. Its name is read once, however many names are looked up.
#[derive(Clone, Copy)]
pub struct Within<'s, 'm, 'a> {
    meanings: &'s Meanings<'m, 'a>,
    home: &'s [u8],
    number: Option<usize>,
    ghost numbered: { number ≡ module_number (map module_view meanings.now.modules.now) home.now },
}

impl<'m, 'a> Meanings<'m, 'a> {
    ghost use Rattle.guard_names.specs.TableViews.{module_number, meaning_in};

    /// What the declared names mean, by where they come from. Condition: the declarations are those of the modules, the
    /// table is theirs, and no name is declared twice. Fails only where memory runs out.
    pub fn of(
        alloc: Global,
        modules: &'m [Module<'a>],
        declarations: &[Declaration<'a>],
        table: &Table<'m, 'a>,
    ) -> Result<Meanings<'m, 'a>, AllocError>
        requires modules { table.now.modules.now ≡ modules.now }
        requires origins { (scope : Option (List ℕ)) (name : List ℕ) →
            origin_in table.now scope name ≡ origin_there (map declaration_view declarations.now) scope name }
        requires once { duplicate_after [] (map declaration_view declarations.now) ≡ None }
        requires numbered { All (IsNumbered (map module_view modules.now)) declarations.now }
        ensures modules { IfOk result (λ t. t.modules.now ≡ modules.now) }
        ensures found { IfOk result (λ t. (home name : List ℕ) →
            meaning_in t home name ≡ definition_of (origin_in table.now) home name) }
    {
        let mut numbers = IndexMap::new(alloc);
        for declaration in declarations {
            let Some(number) = meant_by(declaration, table) else {
                continue;
            };
            numbers.insert(key_of(declaration), number)?;
        }
        Ok(Meanings { modules, numbers })
    }

    /// What names mean in the module of this name.
    pub fn within<'s>(&'s self, home: &'s [u8]) -> Within<'s, 'm, 'a>
        ensures meanings { result.meanings.now ≡ self.now }
        ensures home { result.home.now ≡ home.now }
    {
        Within {
            meanings: self,
            home,
            number: number_of(self.modules, home),
        }
    }

    /// The definition that the name means in the module of this number; None where it means nothing, or there is no
    /// such module.
    pub fn find<'s>(&'s self, number: Option<usize>, name: &'s [u8]) -> Option<Id>
        ensures { (home : List ℕ) → number ≡ module_number (map module_view self.now.modules.now) home →
            result ≡ meaning_in self.now home name.now }
    {
        let scope = Some(number?);
        self.numbers.get(&Key { scope, name }).copied()
    }
}

impl<'s, 'm, 'a> Within<'s, 'm, 'a> {
    ghost use Rattle.guard_names.specs.TableViews.{meaning_in};

    /// The definition that the name means in the module; None where it means nothing.
    pub fn find(&self, name: &[u8]) -> Option<Id>
        ensures { result ≡ meaning_in self.now.meanings.now self.now.home.now name.now }
    {
        self.meanings.find(self.number, name)
    }
}

/// The definition that a declared name means in its module; None where it means nothing.
fn meant_by(declaration: &Declaration, table: &Table) -> Option<Id>
    requires { IsNumbered (map module_view table.now.modules.now) declaration.now }
    ensures { result
        ≡ number_of_origin (origin_in table.now) declaration.now.name.now (Some (origin_view declaration.now.origin)) }
{
    match declaration.origin {
        Origin::Module => None,
        Origin::Import(_, from) => table.exported(from, declaration.name),
        Origin::Assignment(number, _) => Some(number),
    }
}
