//! The marks between the parts of a union or an intersection.
ghost use Rattle.std.specs.Prelude.{◌≡◌};
ghost use Rattle.guard_model.specs.Answer.{Gives};
ghost use Rattle.guard_syntax.specs.inside.Cursors.{ahead, Reads};
ghost use Rattle.guard_syntax.specs.Lexemes.{kind_of};
ghost use Rattle.guard_syntax.specs.inside.ReadSets as reading;
ghost use Rattle.guard_syntax.specs.TokensOf as written;

use crate::cursor::{Cursor, Read};
use crate::tree::JoinMark;
use guard_lexer::{Mark, Reserved, TokenKind};

/// The token between two parts of a union (X.680 50.1).
fn union_token(mark: JoinMark) -> TokenKind
    ensures { result ≡ kind_of (written.union_mark mark) }
{
    match mark {
        JoinMark::Sign => TokenKind::Mark(Mark::Bar),
        JoinMark::Word => TokenKind::Reserved(Reserved::Union),
    }
}

/// The token between two parts of an intersection (X.680 50.1).
fn intersection_token(mark: JoinMark) -> TokenKind
    ensures { result ≡ kind_of (written.intersection_mark mark) }
{
    match mark {
        JoinMark::Sign => TokenKind::Mark(Mark::Caret),
        JoinMark::Word => TokenKind::Reserved(Reserved::Intersection),
    }
}

pub fn begins_union_mark(at: Cursor) -> bool
    ensures { result ≡ reading.begins_union_mark (ahead at.entry) }
{
    at.begins_with(union_token(JoinMark::Sign)) || at.begins_with(union_token(JoinMark::Word))
}

pub fn begins_intersection_mark(at: Cursor) -> bool
    ensures { result ≡ reading.begins_intersection_mark (ahead at.entry) }
{
    at.begins_with(intersection_token(JoinMark::Sign))
        || at.begins_with(intersection_token(JoinMark::Word))
}

#[tactic(auto, unfolding(crate::specs::inside::ReadSets::read_union_mark))]
pub fn union_mark<'a, 't>(at: Cursor<'a, 't>) -> Read<'a, 't, JoinMark>
    ensures { Reads (λ x. x) result (reading.read_union_mark (ahead at.entry)) }
{
    if at.begins_with(union_token(JoinMark::Word)) {
        return Ok((JoinMark::Word, at.behind()));
    }
    let rest = at.after(union_token(JoinMark::Sign))?;
    Ok((JoinMark::Sign, rest))
}

#[tactic(auto, unfolding(crate::specs::inside::ReadSets::read_intersection_mark))]
pub fn intersection_mark<'a, 't>(at: Cursor<'a, 't>) -> Read<'a, 't, JoinMark>
    ensures { Reads (λ x. x) result (reading.read_intersection_mark (ahead at.entry)) }
{
    if at.begins_with(intersection_token(JoinMark::Word)) {
        return Ok((JoinMark::Word, at.behind()));
    }
    let rest = at.after(intersection_token(JoinMark::Sign))?;
    Ok((JoinMark::Sign, rest))
}
