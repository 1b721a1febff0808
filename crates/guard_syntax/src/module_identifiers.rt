//! Object identifiers after module names.
ghost use Rattle.std.specs.Prelude.{◌≡◌, map, length};
ghost use Rattle.guard_model.specs.Answer.{Gives};
ghost use Rattle.guard_syntax.specs.inside.ReadTokens as tokens_reading;
ghost use Rattle.guard_syntax.specs.inside.Cursors.{ahead, Reads, each_view, boxed_view};
ghost use Rattle.guard_syntax.specs.inside.ReadValues.{does_not_close};
ghost use Rattle.guard_syntax.specs.inside.ReadModule as reading;
ghost use Rattle.guard_syntax.specs.ModuleViews.{identifier_part_view};

use crate::cursor::{Cursor, Read};
use crate::numbers::arc;
use crate::tree::PartTree;
use guard_lexer::{Mark, TokenKind};
use std::alloc::Global;

/// The parts of the object identifier after a module's name. Where no brace follows there are none.
#[tactic(auto, unfolding(crate::specs::inside::ReadModule::read_identifier))]
pub fn identifier<'a, 't>(alloc: Global, at: Cursor<'a, 't>) -> Read<'a, 't, Vec<PartTree<'a>>>
    ensures { Reads (each_view identifier_part_view) result (reading.read_identifier (ahead at.entry)) }
{
    if !at.begins_with(TokenKind::Mark(Mark::LeftBrace)) {
        return Ok((Vec::new(alloc), at));
    }
    some_parts(alloc, at.behind())
}

/// One or more parts, and the closing brace.
#[tactic(auto, unfolding(crate::specs::inside::ReadModule::read_identifier_parts))]
fn some_parts<'a, 't>(alloc: Global, at: Cursor<'a, 't>) -> Read<'a, 't, Vec<PartTree<'a>>>
    ensures { Reads (each_view identifier_part_view) result (reading.read_identifier_parts (ahead at.entry)) }
{
    if at.begins_with(TokenKind::Mark(Mark::RightBrace)) {
        return Err(at.unexpected());
    }
    let (all, rest) = parts(alloc, at)?;
    let rest = rest.after(TokenKind::Mark(Mark::RightBrace))?;
    Ok((all, rest))
}

/// Parts up to the closing brace. Each takes a token, so there are no more than tokens.
#[tactic(auto, using(crate::proofs::Loops::each_loop))]
fn parts<'a, 't>(alloc: Global, at: Cursor<'a, 't>) -> Read<'a, 't, Vec<PartTree<'a>>>
    ensures { Reads (each_view identifier_part_view) result (tokens_reading.read_each does_not_close
        reading.read_identifier_part (length (ahead at.entry)) (ahead at.entry)) }
{
    let mut all = Vec::new(alloc);
    let mut rest = at;
    for _ in 0..at.len() {
        if rest.begins_with(TokenKind::Mark(Mark::RightBrace)) {
            return Ok((all, rest));
        }
        let (one, next) = part(rest)?;
        all.push(one)?;
        rest = next;
    }
    Err(rest.unexpected())
}

#[tactic(auto, unfolding(crate::specs::inside::ReadModule::read_identifier_part))]
fn part<'a, 't>(at: Cursor<'a, 't>) -> Read<'a, 't, PartTree<'a>>
    ensures { Reads identifier_part_view result (reading.read_identifier_part (ahead at.entry)) }
{
    if begins_bare_name(at) {
        let (name, rest) = at.spelling(TokenKind::LowerName)?;
        Ok((PartTree::Name(name), rest))
    } else {
        let (arc, rest) = arc(at)?;
        Ok((PartTree::Arc(arc), rest))
    }
}

/// Whether a name begins here that no parenthesis follows.
fn begins_bare_name(at: Cursor) -> bool
    ensures { result ≡ reading.begins_bare_name (ahead at.entry) }
{
    if at.begins_with(TokenKind::LowerName) {
        let next = at.behind();
        !next.begins_with(TokenKind::Mark(Mark::LeftParenthesis))
    } else {
        false
    }
}
