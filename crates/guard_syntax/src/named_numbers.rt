//! Named numbers, named bits and the items of an ENUMERATED.
ghost use Rattle.std.specs.Prelude.{◌≡◌, map, length};
ghost use Rattle.guard_model.specs.Answer.{Gives};
ghost use Rattle.guard_syntax.specs.inside.ReadTokens as tokens_reading;
ghost use Rattle.guard_syntax.specs.inside.ReadTokens.{read_perhaps_signed};
ghost use Rattle.guard_syntax.specs.inside.Cursors.{ahead, Reads, each_view, boxed_view};
ghost use Rattle.guard_syntax.specs.inside.ReadTypes as reading;
ghost use Rattle.guard_syntax.specs.Views.{number_view};
ghost use Rattle.guard_syntax.specs.TypeViews.{named_view, item_number_view, item_view};

use crate::cursor::{Cursor, Read};
use crate::numbers::perhaps_signed;
use crate::tree::{ItemTree, NamedTree, NumberTree};
use guard_lexer::{Mark, TokenKind};
use std::alloc::Global;

/// The named numbers after INTEGER, which may have signs, or the named bits after BIT STRING, which have none. Where no
/// brace follows there are none of either.
#[tactic(auto, unfolding(crate::specs::inside::ReadTypes::read_numbers))]
pub fn numbers<'a, 't>(
    alloc: Global,
    signed: bool,
    at: Cursor<'a, 't>,
) -> Read<'a, 't, Vec<NamedTree<'a>>>
    ensures { Reads (each_view named_view) result (reading.read_numbers (read_perhaps_signed signed) (ahead at.entry)) }
{
    if !at.begins_with(TokenKind::Mark(Mark::LeftBrace)) {
        return Ok((Vec::new(alloc), at));
    }
    let (all, rest) = some_named(alloc, signed, at.behind())?;
    let rest = rest.after(TokenKind::Mark(Mark::RightBrace))?;
    Ok((all, rest))
}

/// One or more names with numbers, separated by commas. Each takes a token, so there are no more than tokens.
#[tactic(auto, using(crate::proofs::Loops::parted_loop))]
fn some_named<'a, 't>(
    alloc: Global,
    signed: bool,
    at: Cursor<'a, 't>,
) -> Read<'a, 't, Vec<NamedTree<'a>>>
    ensures { Reads (each_view named_view) result (tokens_reading.read_parted
        (reading.read_named (read_perhaps_signed signed)) (length (ahead at.entry)) (ahead at.entry)) }
{
    let mut all = Vec::new(alloc);
    let mut rest = at;
    for _ in 0..at.len() {
        let (one, next) = named(signed, rest)?;
        all.push(one)?;
        if !next.begins_with(TokenKind::Mark(Mark::Comma)) {
            all.shrink_to_fit();
            return Ok((all, next));
        }
        rest = next.behind();
    }
    Err(rest.unexpected())
}

#[tactic(auto, unfolding(crate::specs::inside::ReadTypes::read_named))]
fn named<'a, 't>(signed: bool, at: Cursor<'a, 't>) -> Read<'a, 't, NamedTree<'a>>
    ensures { Reads named_view result (reading.read_named (read_perhaps_signed signed) (ahead at.entry)) }
{
    let (name, rest) = at.spelling(TokenKind::LowerName)?;
    let (number, rest) = in_parentheses(signed, rest)?;
    let site = at.site();
    Ok((NamedTree { site, name, number }, rest))
}

/// A number in parentheses.
#[tactic(auto, unfolding(crate::specs::inside::ReadTypes::read_in_parentheses))]
fn in_parentheses<'a, 't>(signed: bool, at: Cursor<'a, 't>) -> Read<'a, 't, NumberTree<'a>>
    ensures { Reads number_view result (reading.read_in_parentheses (read_perhaps_signed signed) (ahead at.entry)) }
{
    let rest = at.after(TokenKind::Mark(Mark::LeftParenthesis))?;
    let (number, rest) = perhaps_signed(signed, rest)?;
    let rest = rest.after(TokenKind::Mark(Mark::RightParenthesis))?;
    Ok((number, rest))
}

/// The items after ENUMERATED.
#[tactic(auto, unfolding(crate::specs::inside::ReadTypes::read_items))]
pub fn items<'a, 't>(alloc: Global, at: Cursor<'a, 't>) -> Read<'a, 't, Vec<ItemTree<'a>>>
    ensures { Reads (each_view item_view) result (reading.read_items (ahead at.entry)) }
{
    let rest = at.after(TokenKind::Mark(Mark::LeftBrace))?;
    let (all, rest) = some_items(alloc, rest)?;
    let rest = rest.after(TokenKind::Mark(Mark::RightBrace))?;
    Ok((all, rest))
}

/// One or more items, separated by commas. Each takes a token, so there are no more than tokens.
#[tactic(auto, using(crate::proofs::Loops::parted_loop))]
fn some_items<'a, 't>(alloc: Global, at: Cursor<'a, 't>) -> Read<'a, 't, Vec<ItemTree<'a>>>
    ensures { Reads (each_view item_view) result
        (tokens_reading.read_parted reading.read_item (length (ahead at.entry)) (ahead at.entry)) }
{
    let mut all = Vec::new(alloc);
    let mut rest = at;
    for _ in 0..at.len() {
        let (one, next) = item(rest)?;
        all.push(one)?;
        if !next.begins_with(TokenKind::Mark(Mark::Comma)) {
            all.shrink_to_fit();
            return Ok((all, next));
        }
        rest = next.behind();
    }
    Err(rest.unexpected())
}

#[tactic(auto, unfolding(crate::specs::inside::ReadTypes::read_item))]
fn item<'a, 't>(at: Cursor<'a, 't>) -> Read<'a, 't, ItemTree<'a>>
    ensures { Reads item_view result (reading.read_item (ahead at.entry)) }
{
    let (name, rest) = at.spelling(TokenKind::LowerName)?;
    let (number, rest) = item_number(rest)?;
    let site = at.site();
    Ok((ItemTree { site, name, number }, rest))
}

#[tactic(auto, unfolding(crate::specs::inside::ReadTypes::read_item_number))]
fn item_number<'a, 't>(at: Cursor<'a, 't>) -> Read<'a, 't, Option<NumberTree<'a>>>
    ensures { Reads item_number_view result (reading.read_item_number (ahead at.entry)) }
{
    if !at.begins_with(TokenKind::Mark(Mark::LeftParenthesis)) {
        return Ok((None, at));
    }
    let (number, rest) = in_parentheses(true, at)?;
    Ok((Some(number), rest))
}
