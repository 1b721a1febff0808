//! Words: how long one is, and which token.
ghost use Rattle.std.specs.Prelude.{◌≡◌, ◌≤◌, length, bytes_eq};
ghost use Rattle.std.specs.List.{list_any};
ghost use Rattle.guard_lexer.specs.Words.{reserved_word, is_unsupported, word_kind};
ghost use Rattle.guard_lexer.specs.inside.Reading.{word_len, value_at};

use crate::octet::is_of_word;
use crate::spelling::{RESERVED, UNSUPPORTED};
use crate::token::{Reserved, TokenKind};

/// How many octets at the front of a text belong to a word.
pub(crate) fn word_len(text: &[u8]) -> usize
    ensures reads { result ≡ word_len text.now }
    ensures within { result ≤ length text.now }
{
    let mut n = 0;
    while n < text.len() && is_of_word(text[n], &text[n + 1..]) {
        n += 1;
    }
    n
}

/// The kind of token that a word is: a reserved word or a name.
pub(crate) fn word_kind(word: &[u8]) -> TokenKind
    ensures { result ≡ word_kind word.now }
{
    if let Some(reserved) = reserved_word(word) {
        return TokenKind::Reserved(reserved);
    }
    match word {
        _ if is_unsupported(word) => TokenKind::Unsupported,
        [first, ..] if first.is_ascii_uppercase() => TokenKind::UpperName,
        _ => TokenKind::LowerName,
    }
}

/// The reserved word of the grammar that is spelled so; None where there is none.
fn reserved_word(word: &[u8]) -> Option<Reserved>
    ensures { result ≡ reserved_word word.now }
{
    find_reserved(word, &RESERVED)
}

fn find_reserved(word: &[u8], table: &[(&[u8], Reserved)]) -> Option<Reserved>
    ensures { result ≡ value_at (λ spelling. bytes_eq word.now spelling.now) table.now }
{
    for (spelling, reserved) in table {
        if word == *spelling {
            return Some(*reserved);
        }
    }
    None
}

/// Whether a word is a reserved word of a form that is left out.
fn is_unsupported(word: &[u8]) -> bool
    ensures { result ≡ is_unsupported word.now }
{
    is_in(word, &UNSUPPORTED)
}

fn is_in(word: &[u8], table: &[&[u8]]) -> bool
    ensures { result ≡ list_any (λ unsupported. bytes_eq word.now unsupported.now) table.now }
{
    for unsupported in table {
        if word == *unsupported {
            return true;
        }
    }
    false
}
