//! Where each declared name comes from.
ghost use Rattle.std.specs.Prelude.{◌≡◌, ℕ, List, [], All, map, Option, None, Some, option_map, is_some, IfOk};
ghost use Rattle.guard_model.specs.Answer.{Gives};
ghost use Rattle.guard_syntax.specs.ModuleViews.{module_view};
ghost use Rattle.guard_names.specs.declared.fault.NameFault.TheVariants as fault;
ghost use Rattle.guard_names.specs.Declarations.{origin_there, assigned_number, exported_number};
ghost use Rattle.guard_names.specs.inside.DeclarationViews.{declaration_view, origin_view};
ghost use Rattle.guard_names.specs.Faults.{named, duplicate_after};
ghost use Rattle.guard_names.specs.inside.Numbered.{IsNumbered};
ghost use Rattle.guard_names.specs.inside.Reading.{refused_at, nothing};

use crate::declarations::{Declaration, Home, Id, Origin, number_of};
use crate::fault::NameFault;
use guard_syntax::Module;
use indexmap::IndexMap;
use std::alloc::Global;

/// What a declaration is looked up by.
#[derive(Clone, Copy, PartialEq, Eq, Hash)]
pub struct Key<'a> {
    /// The number of the module in which it is declared. The name of a module itself is declared in none.
    pub scope: Option<usize>,
    pub name: &'a [u8],
}

/// Where each declared name comes from, in module and text order.
#[derive(Drop)]
pub struct Table<'m, 'a> {
    modules: &'m [Module<'a>],
    origins: IndexMap<Key<'a>, Origin<'a>>,
}

/// What the declaration is looked up by.
pub fn key_of<'a>(declaration: &Declaration<'a>) -> Key<'a>
    ensures name { result.name ≡ declaration.now.name }
    ensures scope { result.scope ≡ option_map (λ home. home.number) declaration.now.scope }
{
    Key {
        scope: number_in(declaration.scope),
        name: declaration.name,
    }
}

fn number_in(scope: Option<Home>) -> Option<usize>
    ensures { result ≡ option_map (λ home. home.number) scope.entry }
{
    match scope {
        None => None,
        Some(home) => Some(home.number),
    }
}

impl<'m, 'a> Table<'m, 'a> {
    ghost use Rattle.guard_names.specs.TableViews.{module_number, origin_in};

    /// The table of the modules' declarations. A name that is declared twice is refused with Duplicate at its second
    /// site; OutOfMemory may come in place of any answer.
    pub fn of(
        alloc: Global,
        modules: &'m [Module<'a>],
        declarations: &[Declaration<'a>],
    ) -> Result<Table<'m, 'a>, NameFault>
        requires numbered { All (IsNumbered (map module_view modules.now)) declarations.now }
        ensures modules { IfOk result (λ t. t.modules.now ≡ modules.now) }
        ensures found { IfOk result (λ t. (scope : Option (List ℕ)) (name : List ℕ) →
            origin_in t scope name ≡ origin_there (map declaration_view declarations.now) scope name) }
        ensures refused { Gives nothing named result
            (refused_at fault.Duplicate (duplicate_after [] (map declaration_view declarations.now))) }
    {
        let mut origins = IndexMap::new(alloc);
        for declaration in declarations {
            if origins
                .insert(key_of(declaration), declaration.origin)?
                .is_some()
            {
                return Err(NameFault::Duplicate(declaration.site));
            }
        }
        Ok(Table { modules, origins })
    }

    /// The number of the module of this name; None where no module has it.
    pub fn number_of(&self, home: &[u8]) -> Option<usize>
        ensures { result ≡ module_number (map module_view self.now.modules.now) home.now }
    {
        number_of(self.modules, home)
    }

    /// Whether there is a module of this name.
    pub fn has_module(&self, name: &[u8]) -> bool
        ensures { result ≡ is_some (origin_in self.now None name.now) }
    {
        self.origins.contains_key(&Key { scope: None, name })
    }

    /// Where the name comes from that is declared in the module of this number.
    fn origin<'s>(&'s self, number: usize, name: &'s [u8]) -> Option<Origin<'s>>
        ensures { (home : List ℕ) → module_number (map module_view self.now.modules.now) home ≡ Some number →
            option_map origin_view result ≡ origin_in self.now (Some home) name.now }
    {
        let scope = Some(number);
        self.origins.get(&Key { scope, name }).copied()
    }

    /// The definition in which a name is assigned in the module of this number; None where it isn't assigned there, or
    /// there is no such module.
    pub fn assigned(&self, number: Option<usize>, name: &[u8]) -> Option<Id>
        ensures { (home : List ℕ) → number ≡ module_number (map module_view self.now.modules.now) home →
            result ≡ assigned_number (origin_in self.now (Some home) name.now) }
    {
        match self.origin(number?, name) {
            None => None,
            Some(Origin::Module) => None,
            Some(Origin::Import(_, _)) => None,
            Some(Origin::Assignment(id, _)) => Some(id),
        }
    }

    /// The definition in which a name is assigned in the module of this number, if the module exports the name; else,
    /// and where there is no such module, None.
    pub fn exported(&self, number: Option<usize>, name: &[u8]) -> Option<Id>
        ensures { (home : List ℕ) → number ≡ module_number (map module_view self.now.modules.now) home →
            result ≡ exported_number (origin_in self.now (Some home) name.now) }
    {
        match self.origin(number?, name) {
            None => None,
            Some(Origin::Module) => None,
            Some(Origin::Import(_, _)) => None,
            Some(Origin::Assignment(id, exports)) => exports.then_some(id),
        }
    }
}
