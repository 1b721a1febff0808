//! Which fault a failure is, and where it is.
ghost use Rattle.std.specs.Prelude.{◌≡◌, ◌+◌, ◌-◌, ◌<◌, ◌^◌, drop, length};
ghost use Rattle.guard_lexer.specs.Sites.{site_after};
ghost use Rattle.guard_syntax.specs.Faults as faults;
ghost use Rattle.guard_syntax.specs.Faults.{NamesToken};

use crate::cursor::octets;
use crate::fault::{Spelling, SyntaxFault};
use crate::read_error::{Failure, ReadError};
use guard_lexer::{Mark, Token, TokenKind, site_behind};
use guard_model::Site;

/// The fault of a text with these tokens for an error of a reader, whose numbers of tokens left say where.
pub fn fault(place: u32, text: &[u8], tokens: &[Token], error: ReadError) -> SyntaxFault
    ensures memory { error ≡ ReadError.OutOfMemory → result ≡ SyntaxFault.OutOfMemory }
    ensures named { NamesToken place text.now tokens.now result }
{
    match error {
        ReadError::OutOfMemory => SyntaxFault::OutOfMemory,
        ReadError::At(Failure::Unexpected(left)) => unexpected(place, text, last(tokens, left)),
        ReadError::At(Failure::TooDeep(left)) => too_deep(place, text, last(tokens, left)),
    }
}

/// The last tokens of a list, as many as `left` says; all where it has fewer.
fn last(tokens: &[Token], left: usize) -> &[Token]
    ensures { result.now ≡ drop (length tokens.now - left) tokens.now }
{
    &tokens[tokens.len().saturating_sub(left)..]
}

fn too_deep(place: u32, text: &[u8], tokens: &[Token]) -> SyntaxFault
    ensures { NamesToken place text.now tokens.now result }
{
    match tokens {
        [first, ..] => SyntaxFault::TooDeep(first.site),
        [] => SyntaxFault::Unexpected(end_of(place, text)),
    }
}

fn unexpected(place: u32, text: &[u8], tokens: &[Token]) -> SyntaxFault
    ensures { NamesToken place text.now tokens.now result }
{
    match tokens {
        [] => SyntaxFault::Unexpected(end_of(place, text)),
        [comma, next, ..]
            if comma.kind == TokenKind::Mark(Mark::Comma) && is_extension(next.kind) => {
            SyntaxFault::Unsupported(Spelling::of(octets(text, next)), next.site)
        }
        [first, ..] if is_left_out(first.kind) => {
            SyntaxFault::Unsupported(Spelling::of(octets(text, first)), first.site)
        }
        [first, ..] => SyntaxFault::Unexpected(first.site),
    }
}

/// The site after the last octet of a text, also where that octet is white space or part of a comment. `place` counts
/// the texts of a list from 1, and only the site shows it. Of a text of 2^32-1 octets or more nothing is promised.
pub fn end_of(place: u32, text: &[u8]) -> Site
    ensures { length text.now + 1 < 2 ^ 32 → result ≡ site_after place text.now }
{
    let start = Site {
        text: place,
        line: 1,
        column: 1,
    };
    if text.len() >= u32::MAX as usize {
        return start;
    }
    site_behind(start, text)
}

/// Whether a token belongs to a form that is left out.
fn is_left_out(kind: TokenKind) -> bool
    ensures { result ≡ faults.is_left_out kind }
{
    kind == TokenKind::Unsupported
        || is_extension(kind)
        || kind == TokenKind::Mark(Mark::LeftVersionBrackets)
        || kind == TokenKind::Mark(Mark::RightVersionBrackets)
        || kind == TokenKind::Mark(Mark::CommercialAt)
        || kind == TokenKind::Mark(Mark::FullStop)
}

/// Whether a token begins an extension or an exception.
fn is_extension(kind: TokenKind) -> bool
    ensures { result ≡ faults.is_extension kind }
{
    kind == TokenKind::Mark(Mark::Ellipsis) || kind == TokenKind::Mark(Mark::Exclamation)
}
