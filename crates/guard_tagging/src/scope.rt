//! What names of types mean where a type is written.
ghost use Rattle.std.specs.Prelude.{◌≡◌, option_map, slice_get};

use guard_model::Ty;
use guard_names::{Id, Names};
use guard_syntax::TagDefault;
use std::sync::Arc;

/// The definitions that are built: the first ones in the order of definitions.
#[derive(Clone, Copy)]
pub struct Done<'d> {
    /// The type of each definition, of a value its governor.
    pub types: &'d [Arc<Ty>],
    /// Whether each of these types is a list of components or alternatives that is tagged automatically.
    pub automatic: &'d [bool],
    /// How many types these are made of.
    pub nodes: usize,
}

/// A type that a name means.
#[derive(Clone, Copy)]
pub struct Known<'d> {
    pub ty: &'d Ty,
    /// Whether the type is a list of components or alternatives that is tagged automatically.
    pub is_automatic: bool,
}

/// Where a type is written.
#[derive(Clone, Copy)]
pub struct Scope<'s, 'm, 'a, 'd> {
    /// The tag default of the module, EXPLICIT where none is written.
    pub tag_default: TagDefault,
    /// The definition in which the type is written.
    pub id: Id,
    pub names: &'s Names<'m, 'a>,
    pub done: Done<'d>,
}

impl<'d> Done<'d> {
    ghost use Rattle.guard_tagging.specs.ScopeView.{done_view, meaning_view};

    fn at(&self, place: usize) -> Option<Known<'d>>
        ensures { option_map meaning_view result ≡ slice_get (done_view self.now) place }
    {
        let shared = self.types.get(place)?;
        let is_automatic = *self.automatic.get(place)?;
        Some(Known {
            ty: shared,
            is_automatic,
        })
    }
}

impl<'s, 'm, 'a, 'd> Scope<'s, 'm, 'a, 'd> {
    ghost use Rattle.guard_tagging.specs.ScopeView.{scope_view, meaning_view};

    /// The type that a name means; None where it means nothing, or a definition that isn't among those that are built.
    pub fn referred(&self, name: &[u8]) -> Option<Known<'d>>
        ensures { option_map meaning_view result ≡ (scope_view self.now).meaning name.now }
    {
        let id = self.names.meaning_from(self.id, name)?;
        let place = self.names.place(id)?;
        self.done.at(place)
    }
}
