//! Numbers and arcs.
ghost use Rattle.std.specs.Prelude.{◌≡◌};
ghost use Rattle.guard_model.specs.Answer.{Gives};
ghost use Rattle.guard_syntax.specs.inside.ReadTokens as reading;
ghost use Rattle.guard_syntax.specs.inside.Cursors.{ahead, Reads, each_view, boxed_view};
ghost use Rattle.guard_syntax.specs.Views.{number_view, arc_view};

use crate::cursor::{Cursor, Read, octets};
use crate::tree::{ArcTree, NumberTree};
use guard_lexer::{Mark, TokenKind};

/// An integer. A minus sign isn't followed by the number 0.
#[tactic(auto, unfolding(crate::specs::inside::ReadTokens::read_number))]
pub fn number<'a, 't>(at: Cursor<'a, 't>) -> Read<'a, 't, NumberTree<'a>>
    ensures { Reads number_view result (reading.read_number (ahead at.entry)) }
{
    let minus = at.begins_with(TokenKind::Mark(Mark::Minus));
    let (digits, rest) = digits(minus, at.behind_if(minus))?;
    Ok((
        NumberTree {
            site: at.site(),
            minus,
            digits,
        },
        rest,
    ))
}

/// An integer that has no sign.
#[tactic(auto, unfolding(crate::specs::inside::ReadTokens::read_unsigned))]
fn unsigned<'a, 't>(at: Cursor<'a, 't>) -> Read<'a, 't, NumberTree<'a>>
    ensures { Reads number_view result (reading.read_unsigned (ahead at.entry)) }
{
    let (digits, rest) = at.spelling(TokenKind::Number)?;
    Ok((
        NumberTree {
            site: at.site(),
            minus: false,
            digits,
        },
        rest,
    ))
}

/// An integer, with a sign only where it may have one.
pub fn perhaps_signed<'a, 't>(signed: bool, at: Cursor<'a, 't>) -> Read<'a, 't, NumberTree<'a>>
    ensures { Reads number_view result (reading.read_perhaps_signed signed (ahead at.entry)) }
{
    if signed { number(at) } else { unsigned(at) }
}

#[tactic(auto, unfolding(crate::specs::inside::ReadTokens::read_digits))]
fn digits<'a, 't>(minus: bool, at: Cursor<'a, 't>) -> Read<'a, 't, &'a [u8]>
    ensures { Reads (λ s. s.now) result (reading.read_digits minus (ahead at.entry)) }
{
    if minus && begins_with_zero(at) {
        return Err(at.unexpected());
    }
    at.spelling(TokenKind::Number)
}

/// Whether the first token is the number 0.
pub fn begins_with_zero(at: Cursor) -> bool
    ensures { result ≡ reading.begins_with_zero (ahead at.entry) }
{
    match at.tokens {
        [first, ..] => first.kind == TokenKind::Number && is_zero(octets(at.text, first)),
        [] => false,
    }
}

/// Whether the digits are those of the number 0.
fn is_zero(digits: &[u8]) -> bool
    ensures { result ≡ reading.is_zero digits.now }
{
    match digits {
        [only] => *only == b'0',
        _ => false,
    }
}

/// A number, or a name with a number in parentheses.
#[tactic(auto, unfolding(crate::specs::inside::ReadTokens::read_arc))]
pub fn arc<'a, 't>(at: Cursor<'a, 't>) -> Read<'a, 't, ArcTree<'a>>
    ensures { Reads arc_view result (reading.read_arc (ahead at.entry)) }
{
    if at.begins_with(TokenKind::LowerName) {
        named_arc(at)
    } else {
        bare_arc(at)
    }
}

#[tactic(auto, unfolding(crate::specs::inside::ReadTokens::read_named_arc))]
fn named_arc<'a, 't>(at: Cursor<'a, 't>) -> Read<'a, 't, ArcTree<'a>>
    ensures { Reads arc_view result (reading.read_named_arc (ahead at.entry)) }
{
    let (name, rest) = at.spelling(TokenKind::LowerName)?;
    let rest = rest.after(TokenKind::Mark(Mark::LeftParenthesis))?;
    let (number, rest) = rest.spelling(TokenKind::Number)?;
    let rest = rest.after(TokenKind::Mark(Mark::RightParenthesis))?;
    Ok((
        ArcTree {
            site: at.site(),
            name: Some(name),
            number,
        },
        rest,
    ))
}

#[tactic(auto, unfolding(crate::specs::inside::ReadTokens::read_bare_arc))]
fn bare_arc<'a, 't>(at: Cursor<'a, 't>) -> Read<'a, 't, ArcTree<'a>>
    ensures { Reads arc_view result (reading.read_bare_arc (ahead at.entry)) }
{
    let (number, rest) = at.spelling(TokenKind::Number)?;
    Ok((
        ArcTree {
            site: at.site(),
            name: None,
            number,
        },
        rest,
    ))
}
