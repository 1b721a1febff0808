//! Exports and imports.
ghost use Rattle.std.specs.Prelude.{◌≡◌, map, length};
ghost use Rattle.guard_model.specs.Answer.{Gives};
ghost use Rattle.guard_syntax.specs.inside.ReadTokens as tokens_reading;
ghost use Rattle.guard_syntax.specs.inside.Cursors.{ahead, Reads, each_view, boxed_view};
ghost use Rattle.guard_syntax.specs.inside.ReadModule as reading;
ghost use Rattle.guard_syntax.specs.ModuleViews.{symbol_view, exports_view, perhaps_exports_view};
ghost use Rattle.guard_syntax.specs.ModuleViews.{import_view, imports_view};

use crate::cursor::{Cursor, Read};
use crate::module_identifiers::identifier;
use crate::tree::{ExportsTree, ImportTree, NameTree, SymbolKind, SymbolTree};
use guard_lexer::{Mark, Reserved, TokenKind};
use std::alloc::Global;

/// The exports, where the word EXPORTS is written.
#[tactic(auto, unfolding(crate::specs::inside::ReadModule::read_exports))]
pub fn exports<'a, 't>(alloc: Global, at: Cursor<'a, 't>) -> Read<'a, 't, Option<ExportsTree<'a>>>
    ensures { Reads perhaps_exports_view result (reading.read_exports (ahead at.entry)) }
{
    if !at.begins_with(TokenKind::Reserved(Reserved::Exports)) {
        return Ok((None, at));
    }
    let (all, rest) = exported(alloc, at.behind())?;
    Ok((Some(all), rest))
}

#[tactic(auto, unfolding(crate::specs::inside::ReadModule::read_exported))]
fn exported<'a, 't>(alloc: Global, at: Cursor<'a, 't>) -> Read<'a, 't, ExportsTree<'a>>
    ensures { Reads exports_view result (reading.read_exported (ahead at.entry)) }
{
    if at.begins_with(TokenKind::Reserved(Reserved::All)) {
        let rest = at.behind();
        let rest = rest.after(TokenKind::Mark(Mark::Semicolon))?;
        Ok((ExportsTree::All, rest))
    } else if at.begins_with(TokenKind::Mark(Mark::Semicolon)) {
        let none = Vec::new(alloc);
        Ok((ExportsTree::Symbols(none), at.behind()))
    } else {
        let (all, rest) = symbols(alloc, at)?;
        let rest = rest.after(TokenKind::Mark(Mark::Semicolon))?;
        Ok((ExportsTree::Symbols(all), rest))
    }
}

/// One or more names, separated by commas. Each takes a token, so there are no more than tokens.
#[tactic(auto, using(crate::proofs::Loops::parted_loop))]
fn symbols<'a, 't>(alloc: Global, at: Cursor<'a, 't>) -> Read<'a, 't, Vec<SymbolTree<'a>>>
    ensures { Reads (each_view symbol_view) result
        (tokens_reading.read_parted reading.read_symbol (length (ahead at.entry)) (ahead at.entry)) }
{
    let mut all = Vec::new(alloc);
    let mut rest = at;
    for _ in 0..at.len() {
        let (one, next) = symbol(rest)?;
        all.push(one)?;
        if !next.begins_with(TokenKind::Mark(Mark::Comma)) {
            return Ok((all, next));
        }
        rest = next.behind();
    }
    Err(rest.unexpected())
}

#[tactic(auto, unfolding(crate::specs::inside::ReadModule::read_symbol))]
fn symbol<'a, 't>(at: Cursor<'a, 't>) -> Read<'a, 't, SymbolTree<'a>>
    ensures { Reads symbol_view result (reading.read_symbol (ahead at.entry)) }
{
    let site = at.site();
    if at.begins_with(TokenKind::UpperName) {
        let kind = SymbolKind::Type;
        let (name, rest) = at.spelling(TokenKind::UpperName)?;
        Ok((SymbolTree { site, kind, name }, rest))
    } else {
        let kind = SymbolKind::Value;
        let (name, rest) = at.spelling(TokenKind::LowerName)?;
        Ok((SymbolTree { site, kind, name }, rest))
    }
}

/// The imports, where the word IMPORTS is written.
#[tactic(auto, unfolding(crate::specs::inside::ReadModule::read_imports))]
pub fn imports<'a, 't>(
    alloc: Global,
    at: Cursor<'a, 't>,
) -> Read<'a, 't, Option<Vec<ImportTree<'a>>>>
    ensures { Reads imports_view result (reading.read_imports (ahead at.entry)) }
{
    if !at.begins_with(TokenKind::Reserved(Reserved::Imports)) {
        return Ok((None, at));
    }
    let (all, rest) = all_imports(alloc, at.behind())?;
    let rest = rest.after(TokenKind::Mark(Mark::Semicolon))?;
    Ok((Some(all), rest))
}

/// Imports up to the semicolon. Each takes a token, so there are no more than tokens.
#[tactic(auto, using(crate::proofs::Loops::each_loop))]
fn all_imports<'a, 't>(alloc: Global, at: Cursor<'a, 't>) -> Read<'a, 't, Vec<ImportTree<'a>>>
    ensures { Reads (each_view import_view) result (tokens_reading.read_each reading.goes_on_importing
        reading.read_import (length (ahead at.entry)) (ahead at.entry)) }
{
    let mut all = Vec::new(alloc);
    let mut rest = at;
    for _ in 0..at.len() {
        if rest.begins_with(TokenKind::Mark(Mark::Semicolon)) {
            return Ok((all, rest));
        }
        let (one, next) = import(alloc, rest)?;
        all.push(one)?;
        rest = next;
    }
    Err(rest.unexpected())
}

/// Names, FROM and the name of a module, which ends the list.
#[tactic(auto, unfolding(crate::specs::inside::ReadModule::read_import))]
fn import<'a, 't>(alloc: Global, at: Cursor<'a, 't>) -> Read<'a, 't, ImportTree<'a>>
    ensures { Reads import_view result (reading.read_import (ahead at.entry)) }
{
    let site = at.site();
    let (symbols, rest) = symbols(alloc, at)?;
    let from = rest.after(TokenKind::Reserved(Reserved::From))?;
    let (name, rest) = from.spelling(TokenKind::UpperName)?;
    let (identifier, rest) = identifier(alloc, rest)?;
    let module = NameTree {
        site: from.site(),
        name,
    };
    Ok((
        ImportTree {
            site,
            symbols,
            module,
            identifier,
        },
        rest,
    ))
}
