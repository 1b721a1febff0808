//! Look-ups of definitions by the names of their modules and their own.
ghost use Rattle.std.specs.Prelude.{◌≡◌, ℕ, List, None, All, map, IfOk};
ghost use Rattle.std.specs.Option.{option_or};
ghost use Rattle.guard_schema.specs.Entries.{first_named, looked_up, place_if, first_place};
ghost use Rattle.guard_schema.specs.Views.{entry_view, found_in, place_in};

use crate::build::NamedDefinition;
use indexmap::IndexMap;
use std::alloc::{AllocError, Global};

/// The definitions of each module by their names, with the place of the type where one assigns a type.
#[derive(Drop)]
pub struct TypeIndex {
    homes: IndexMap<Vec<u8>, IndexMap<Vec<u8>, Option<usize>>>,
}

impl TypeIndex {
    /// Nothing yet.
    pub fn new(alloc: Global) -> TypeIndex
        ensures { (home name : List ℕ) → found_in result home name ≡ None }
    {
        TypeIndex {
            homes: IndexMap::new(alloc),
        }
    }

    /// With these definitions of the module of this name, whose name is copied once. The first one with two names
    /// stays.
    pub fn with(
        self,
        alloc: Global,
        home: &[u8],
        definitions: &[NamedDefinition],
    ) -> Result<TypeIndex, AllocError>
        requires { All (λ d. d.home.now ≡ home.now) definitions.now }
        ensures { IfOk result (λ after. (q name : List ℕ) → found_in after q name
            ≡ option_or (found_in self q name) (first_named q name (map entry_view definitions.now))) }
    {
        let mut homes = self.homes;
        let places = match homes.shift_remove(home) {
            Some(places) => places,
            None => IndexMap::new(alloc),
        };
        let places = with_places(alloc, places, definitions)?;
        homes.insert(Vec::from_slice(alloc, home)?, places)?;
        Ok(TypeIndex { homes })
    }

    /// The place of the type to which the module of this name assigns a name; None where it assigns no type to it.
    pub fn find(&self, home: &[u8], name: &[u8]) -> Option<usize>
        ensures { result ≡ place_in self.now home.now name.now }
    {
        let places = self.homes.get(home)?;
        *places.get(name)?
    }
}

/// The places of these names after those that are there.
fn with_places(
    alloc: Global,
    before: IndexMap<Vec<u8>, Option<usize>>,
    definitions: &[NamedDefinition],
) -> Result<IndexMap<Vec<u8>, Option<usize>>, AllocError>
    ensures { IfOk result (λ after. (q : List ℕ) → looked_up (λ key. key.items) q after.entries
        ≡ option_or (looked_up (λ key. key.items) q before.entries) (first_place q (map entry_view definitions.now))) }
{
    let mut places = before;
    for definition in definitions {
        places = with_place(alloc, places, definition.name, definition.place)?;
    }
    Ok(places)
}

/// The first place of a name stays.
fn with_place(
    alloc: Global,
    before: IndexMap<Vec<u8>, Option<usize>>,
    name: &[u8],
    place: Option<usize>,
) -> Result<IndexMap<Vec<u8>, Option<usize>>, AllocError>
    ensures { IfOk result (λ after. (q : List ℕ) → looked_up (λ key. key.items) q after.entries
        ≡ option_or (looked_up (λ key. key.items) q before.entries) (place_if q name.now place)) }
{
    let mut places = before;
    if !places.contains_key(name) {
        places.insert(Vec::from_slice(alloc, name)?, place)?;
    }
    Ok(places)
}
