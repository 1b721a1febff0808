//! Which names a module exports (X.680 13.1).
ghost use Rattle.std.specs.Prelude.{◌≡◌, ℕ, List, IfOk, map, bytes_eq};
ghost use Rattle.std.specs.List.{list_any};
ghost use Rattle.guard_names.specs.Declarations.{lists_name};
ghost use Rattle.guard_names.specs.inside.ExportViews.{has_name};
ghost use Rattle.guard_syntax.specs.ModuleViews.{perhaps_exports_view, symbol_view};

use guard_syntax::{ExportsTree, SymbolTree};
use indexmap::IndexSet;
use std::alloc::{AllocError, Global};

/// Which names a module exports.
#[derive(Drop)]
pub enum Exports<'a> {
    /// All names that the module assigns.
    All,
    /// These names alone.
    Listed(IndexSet<&'a [u8]>),
}

impl<'a> Exports<'a> {
    /// What a module exports, by what it says of that: all where it says nothing. Fails only where memory runs out.
    pub fn of(alloc: Global, tree: &Option<ExportsTree<'a>>) -> Result<Exports<'a>, AllocError>
        ensures { IfOk result (λ e. (name : List ℕ) →
            has_name e name ≡ lists_name (perhaps_exports_view tree.now) name) }
    {
        match tree {
            None => Ok(Exports::All),
            Some(ExportsTree::All) => Ok(Exports::All),
            Some(ExportsTree::Symbols(symbols)) => { Ok(Exports::Listed(listed(alloc, symbols)?)) }
        }
    }

    /// Whether the module exports this name, if it assigns it.
    pub fn has(&self, name: &[u8]) -> bool
        ensures { result ≡ has_name self.now name.now }
    {
        match self {
            Exports::All => true,
            Exports::Listed(names) => names.contains(name),
        }
    }
}

fn listed<'a>(alloc: Global, symbols: &[SymbolTree<'a>]) -> Result<IndexSet<&'a [u8]>, AllocError>
    ensures { IfOk result (λ s. (name : List ℕ) → list_any (λ k. bytes_eq name k.now) s.keys
        ≡ list_any (λ s. bytes_eq name s.name) (map symbol_view symbols.now)) }
{
    let mut names = IndexSet::new(alloc);
    for symbol in symbols {
        names.insert(symbol.name)?;
    }
    Ok(names)
}
