//! The alphabets of the character strings (X.680 clause 41).
ghost use Rattle.guard_model.specs.Alphabets.{all_characters, fits_characters, is_character};
ghost use Rattle.guard_model.specs.Alphabets.{is_printable_mark as printable_mark};
ghost use Rattle.std.specs.Char.{is_ascii_alphabetic, is_ascii_digit};
ghost use Rattle.std.specs.Prelude.{◌≡◌, chars};

use crate::ty::CharKind;

impl CharKind {
    /// Whether the character with this code is in the kind's alphabet (X.680 clause 41). For UTF8String each code is.
    pub fn has(self, code: u32) -> bool
        ensures { result ≡ is_character self code }
    {
        match self {
            CharKind::Numeric => code == 32 || is_digit(code),
            CharKind::Printable => is_digit(code) || is_letter(code) || is_printable_mark(code),
            CharKind::Ia5 => code < 128,
            CharKind::Visible => 32 <= code && code <= 126,
            CharKind::Utf8 => true,
        }
    }

    /// Whether each character of the text is in the kind's alphabet (X.680 clause 41).
    pub fn has_all(self, text: &str) -> bool
        ensures { result ≡ fits_characters self (chars text.now) }
    {
        match self {
            CharKind::Numeric => are_characters(self, text),
            CharKind::Printable => are_characters(self, text),
            CharKind::Ia5 => are_characters(self, text),
            CharKind::Visible => are_characters(self, text),
            CharKind::Utf8 => true,
        }
    }
}

fn are_characters(kind: CharKind, text: &str) -> bool
    ensures { result ≡ all_characters kind (chars text.now) }
{
    for character in text.chars() {
        if !kind.has(u32::from(character)) {
            return false;
        }
    }
    true
}

fn is_digit(code: u32) -> bool
    ensures { result ≡ is_ascii_digit code }
{
    48 <= code && code <= 57
}

fn is_letter(code: u32) -> bool
    ensures { result ≡ is_ascii_alphabetic code }
{
    (65 <= code && code <= 90) || (97 <= code && code <= 122)
}

/// Whether the code is that of a space or of one of `' ( ) + , - . / : = ?`.
fn is_printable_mark(code: u32) -> bool
    ensures { result ≡ printable_mark code }
{
    code == 32
        || (39 <= code && code <= 41)
        || (43 <= code && code <= 47)
        || code == 58
        || code == 61
        || code == 63
}
