//! Tags.
ghost use Rattle.std.specs.Prelude.{◌≡◌, map, length};
ghost use Rattle.guard_model.specs.Answer.{Gives};
ghost use Rattle.guard_syntax.specs.inside.ReadTokens as tokens_reading;
ghost use Rattle.guard_syntax.specs.inside.Cursors.{ahead, Reads, each_view, boxed_view};
ghost use Rattle.guard_syntax.specs.inside.ReadTypes as reading;
ghost use Rattle.guard_syntax.specs.TypeViews.{tag_view};

use crate::cursor::{Cursor, Read};
use crate::tree::{TagClass, TagMode, TagTree};
use guard_lexer::{Mark, Reserved, TokenKind};
use std::alloc::Global;

/// Whether a tag begins here.
pub fn begins_tag(at: Cursor) -> bool
    ensures { result ≡ reading.begins_tag (ahead at.entry) }
{
    at.begins_with(TokenKind::Mark(Mark::LeftBracket))
}

/// The tags before a type. Each takes a token, so there are no more than tokens.
#[tactic(auto, using(crate::proofs::Loops::each_loop))]
pub fn tags<'a, 't>(alloc: Global, at: Cursor<'a, 't>) -> Read<'a, 't, Vec<TagTree<'a>>>
    ensures { Reads (each_view tag_view) result
        (tokens_reading.read_each reading.begins_tag reading.read_tag (length (ahead at.entry)) (ahead at.entry)) }
{
    let mut all = Vec::with_capacity(alloc, usize::from(begins_tag(at)))?;
    let mut rest = at;
    for _ in 0..at.len() {
        if !begins_tag(rest) {
            return Ok((all, rest));
        }
        let (one, next) = tag(rest)?;
        all.push(one)?;
        rest = next;
    }
    Err(rest.unexpected())
}

#[tactic(auto, unfolding(crate::specs::inside::ReadTypes::read_tag))]
fn tag<'a, 't>(at: Cursor<'a, 't>) -> Read<'a, 't, TagTree<'a>>
    ensures { Reads tag_view result (reading.read_tag (ahead at.entry)) }
{
    let rest = at.after(TokenKind::Mark(Mark::LeftBracket))?;
    let class = class_at(rest);
    let rest = rest.behind_if(class.is_some());
    let (number, rest) = rest.spelling(TokenKind::Number)?;
    let rest = rest.after(TokenKind::Mark(Mark::RightBracket))?;
    let mode = mode_at(rest);
    let site = at.site();
    Ok((
        TagTree {
            site,
            class,
            number,
            mode,
        },
        rest.behind_if(mode.is_some()),
    ))
}

/// The word for a class that is written here.
fn class_at(at: Cursor) -> Option<TagClass>
    ensures { result ≡ reading.class_at (ahead at.entry) }
{
    if at.begins_with(TokenKind::Reserved(Reserved::Universal)) {
        Some(TagClass::Universal)
    } else if at.begins_with(TokenKind::Reserved(Reserved::Application)) {
        Some(TagClass::Application)
    } else if at.begins_with(TokenKind::Reserved(Reserved::Private)) {
        Some(TagClass::Private)
    } else {
        None
    }
}

/// The word IMPLICIT or EXPLICIT that is written here.
fn mode_at(at: Cursor) -> Option<TagMode>
    ensures { result ≡ reading.mode_at (ahead at.entry) }
{
    if at.begins_with(TokenKind::Reserved(Reserved::Implicit)) {
        Some(TagMode::Implicit)
    } else if at.begins_with(TokenKind::Reserved(Reserved::Explicit)) {
        Some(TagMode::Explicit)
    } else {
        None
    }
}
