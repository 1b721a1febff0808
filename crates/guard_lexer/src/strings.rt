//! Strings of characters, bits and hexadecimal digits.
ghost use Rattle.std.specs.Prelude.{◌≡◌, ◌≤◌, length, option_copied, IfSome};
ghost use Rattle.guard_lexer.specs.inside.Reading.{behind_string, behind_bits, behind_hexadecimal};

use crate::octet::{is_line_end, is_of_bits, is_of_hexadecimal};

/// What is left after a string, if it is one; `text` begins after the quote that opens it.
pub(crate) fn behind_string(text: &[u8]) -> Option<&[u8]>
    ensures reads { option_copied result ≡ behind_string text.now }
    ensures within { IfSome result (λ left. length left.now ≤ length text.now) }
{
    let mut left = text;
    loop {
        match left {
            [] => return None,
            [b'"', b'"', after @ ..] => left = after,
            [b'"', after @ ..] => return Some(after),
            [first, ..] if is_line_end(*first) => return None,
            [_, after @ ..] => left = after,
        }
    }
}

/// What is left after a bit string, if it is one; `text` begins after the apostrophe that opens it.
pub(crate) fn behind_bits(text: &[u8]) -> Option<&[u8]>
    ensures reads { option_copied result ≡ behind_bits text.now }
    ensures within { IfSome result (λ left. length left.now ≤ length text.now) }
{
    let mut left = text;
    loop {
        match left {
            [b'\'', b'B', after @ ..] => return Some(after),
            [first, after @ ..] if is_of_bits(*first) => left = after,
            _ => return None,
        }
    }
}

/// What is left after a hexadecimal string, if it is one; `text` begins after the apostrophe that opens it.
pub(crate) fn behind_hexadecimal(text: &[u8]) -> Option<&[u8]>
    ensures reads { option_copied result ≡ behind_hexadecimal text.now }
    ensures within { IfSome result (λ left. length left.now ≤ length text.now) }
{
    let mut left = text;
    loop {
        match left {
            [b'\'', b'H', after @ ..] => return Some(after),
            [first, after @ ..] if is_of_hexadecimal(*first) => left = after,
            _ => return None,
        }
    }
}
