//! Single octets of a text.
ghost use Rattle.std.specs.Prelude.{◌≡◌};
ghost use Rattle.guard_lexer.specs.Octets.{is_letter_or_digit, is_hyphen, is_digit, is_white_space, is_line_end};
ghost use Rattle.guard_lexer.specs.Octets.{is_of_bits, is_of_hexadecimal, is_asterisk, begins};
ghost use Rattle.guard_lexer.specs.Items.{is_of_word, begins_comment, ends_comment};

pub(crate) fn is_white_space(octet: u8) -> bool
    ensures { result ≡ is_white_space octet }
{
    matches!(octet, 9..=13 | b' ')
}

pub(crate) fn is_line_end(octet: u8) -> bool
    ensures { result ≡ is_line_end octet }
{
    matches!(octet, 10..=13)
}

/// Whether a bit string can have this octet between its quotes.
pub(crate) fn is_of_bits(octet: u8) -> bool
    ensures { result ≡ is_of_bits octet }
{
    matches!(octet, b'0' | b'1') || is_white_space(octet)
}

/// Whether a hexadecimal string can have this octet between its quotes.
pub(crate) fn is_of_hexadecimal(octet: u8) -> bool
    ensures { result ≡ is_of_hexadecimal octet }
{
    matches!(octet, b'0'..=b'9' | b'A'..=b'F') || is_white_space(octet)
}

pub(crate) fn begins_with_digit(text: &[u8]) -> bool
    ensures { result ≡ begins is_digit text.now }
{
    matches!(text, [first, ..] if first.is_ascii_digit())
}

pub(crate) fn begins_with_asterisk(text: &[u8]) -> bool
    ensures { result ≡ begins is_asterisk text.now }
{
    matches!(text, [b'*', ..])
}

/// Whether the text begins with `/*`.
pub(crate) fn begins_comment(text: &[u8]) -> bool
    ensures { result ≡ begins_comment text.now }
{
    matches!(text, [b'/', b'*', ..])
}

/// Whether the text begins with `*/`.
pub(crate) fn ends_comment(text: &[u8]) -> bool
    ensures { result ≡ ends_comment text.now }
{
    matches!(text, [b'*', b'/', ..])
}

pub(crate) fn begins_with_hyphen(text: &[u8]) -> bool
    ensures { result ≡ begins is_hyphen text.now }
{
    matches!(text, [b'-', ..])
}

pub(crate) fn begins_with_letter_or_digit(text: &[u8]) -> bool
    ensures { result ≡ begins is_letter_or_digit text.now }
{
    matches!(text, [first, ..] if first.is_ascii_alphanumeric())
}

/// Whether an octet belongs to a word, by the octets after it.
pub(crate) fn is_of_word(octet: u8, after: &[u8]) -> bool
    ensures { result ≡ is_of_word octet after.now }
{
    octet.is_ascii_alphanumeric() || octet == b'-' && begins_with_letter_or_digit(after)
}
