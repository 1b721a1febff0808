//! Ranges of values.
ghost use Rattle.std.specs.Prelude.{◌≡◌};
ghost use Rattle.guard_model.specs.Answer.{Gives};
ghost use Rattle.guard_syntax.specs.inside.Cursors.{ahead, Reads, each_view, boxed_view};
ghost use Rattle.guard_syntax.specs.inside.ReadSets as reading;
ghost use Rattle.guard_syntax.specs.SetViews.{end_form_view, end_or_view, range_view};

use crate::cursor::{Cursor, Read};
use crate::numbers::{begins_with_zero, number};
use crate::tree::{EndForm, EndTree, RangeTree};
use crate::values::begins_number;
use guard_lexer::{Mark, Reserved, TokenKind};

/// Whether a range begins here, and no value: MIN, or an end with `..` or `<` after it.
pub fn begins_range(at: Cursor) -> bool
    ensures { result ≡ reading.begins_range (ahead at.entry) }
{
    let next = at.behind();
    at.begins_with(TokenKind::Reserved(Reserved::Min))
        || at.begins_with(TokenKind::Mark(Mark::Minus))
            && begins_dots(next.behind())
            && begins_with_nonzero(next)
        || (at.begins_with(TokenKind::Number)
            || at.begins_with(TokenKind::LowerName)
            || at.begins_with(TokenKind::CharacterString))
            && begins_dots(next)
}

/// Whether a number begins here that may follow a minus sign.
fn begins_with_nonzero(at: Cursor) -> bool
    ensures { result ≡ reading.begins_with_nonzero (ahead at.entry) }
{
    at.begins_with(TokenKind::Number) && !begins_with_zero(at)
}

fn begins_dots(at: Cursor) -> bool
    ensures { result ≡ reading.begins_dots (ahead at.entry) }
{
    at.begins_with(TokenKind::Mark(Mark::RangeSeparator))
        || at.begins_with(TokenKind::Mark(Mark::LessThan))
}

/// A range of values.
#[tactic(auto, unfolding(crate::specs::inside::ReadSets::read_range))]
pub fn range<'a, 't>(at: Cursor<'a, 't>) -> Read<'a, 't, RangeTree<'a>>
    ensures { Reads range_view result (reading.read_range (ahead at.entry)) }
{
    let (low, rest) = end_or(Reserved::Min, at)?;
    let above_low = rest.begins_with(TokenKind::Mark(Mark::LessThan));
    let rest = rest.behind_if(above_low);
    let rest = rest.after(TokenKind::Mark(Mark::RangeSeparator))?;
    let below_high = rest.begins_with(TokenKind::Mark(Mark::LessThan));
    let rest = rest.behind_if(below_high);
    let (high, rest) = end_or(Reserved::Max, rest)?;
    Ok((
        RangeTree {
            low,
            above_low,
            below_high,
            high,
        },
        rest,
    ))
}

/// An end, or this word.
#[tactic(auto, unfolding(crate::specs::inside::ReadSets::read_end_or))]
fn end_or<'a, 't>(word: Reserved, at: Cursor<'a, 't>) -> Read<'a, 't, Option<EndTree<'a>>>
    ensures { Reads end_or_view result (reading.read_end_or word (ahead at.entry)) }
{
    if at.begins_with(TokenKind::Reserved(word)) {
        return Ok((None, at.behind()));
    }
    let (form, rest) = end_form(at)?;
    let site = at.site();
    Ok((Some(EndTree { site, form }), rest))
}

#[tactic(auto, unfolding(crate::specs::inside::ReadSets::read_end_form))]
fn end_form<'a, 't>(at: Cursor<'a, 't>) -> Read<'a, 't, EndForm<'a>>
    ensures { Reads end_form_view result (reading.read_end_form (ahead at.entry)) }
{
    if begins_number(at) {
        let (number, rest) = number(at)?;
        Ok((EndForm::Integer(number), rest))
    } else if at.begins_with(TokenKind::LowerName) {
        let (name, rest) = at.spelling(TokenKind::LowerName)?;
        Ok((EndForm::Reference(name), rest))
    } else {
        let (spelling, rest) = at.spelling(TokenKind::CharacterString)?;
        Ok((EndForm::Characters(spelling), rest))
    }
}
