//! Entries in braces: what was read as one, and where it begins.
ghost use Rattle.std.specs.Prelude.{◌≡◌, None, IfOk};
ghost use Rattle.guard_syntax.specs.Views.{site_of_value, name_view, value_view, entry_view};

use crate::tree::{EntryTree, NameTree, ValueTree};
use guard_model::Site;
use std::alloc::{AllocError, Global};
use std::boxed::Box;

/// The entry at the site with this name, where there is one, and this value.
pub fn entry_of<'a>(
    alloc: Global,
    site: Site,
    name: Option<&'a [u8]>,
    value: ValueTree<'a>,
) -> Result<EntryTree<'a>, AllocError>
    requires { name_view name ≡ None → site_of_value (value_view value) ≡ site }
    ensures { IfOk result (λ e. entry_view e
        ≡ record { site = site; name = name_view name.entry; value = value_view value.entry }) }
{
    let Some(name) = name else {
        return Ok(EntryTree::Alone(value));
    };
    let value = Box::new(alloc, value)?;
    Ok(EntryTree::Named(NameTree { site, name }, value))
}

impl<'a> EntryTree<'a> {
    /// The site of the first token.
    pub fn site(&self) -> Site
        ensures { result ≡ (entry_view self.now).site }
    {
        match self {
            EntryTree::Alone(value) => value.site,
            EntryTree::Named(name, _) => name.site,
        }
    }

    /// The name before the value, where there is one.
    pub fn name(&self) -> Option<&'a [u8]>
        ensures { name_view result ≡ (entry_view self.now).name }
    {
        match self {
            EntryTree::Alone(_) => None,
            EntryTree::Named(name, _) => Some(name.name),
        }
    }

    /// The site of the value's first token.
    pub fn value_site(&self) -> Site
        ensures { result ≡ site_of_value (entry_view self.now).value }
    {
        match self {
            EntryTree::Alone(value) => value.site,
            EntryTree::Named(_, value) => value.site,
        }
    }
}
