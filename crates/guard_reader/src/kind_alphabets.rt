//! Alphabets of the kinds with one octet a character (X.680 clause 41), and those that FROM permits of them.
ghost use Rattle.std.specs.Prelude.{◌≡◌, ◌<◌, ◌≤◌, ℕ, List, length, true};
ghost use Rattle.std.specs.Int.{is_in_range};
ghost use Rattle.std.specs.List.{list_all};
ghost use Rattle.guard_der.specs.Simple.{characters_of, is_text};
ghost use Rattle.guard_eval.specs.Elements.{is_in_some};
ghost use Rattle.guard_model.specs.Alphabets.{all_characters, is_character};

use crate::alphabet::{all_in, are_all_in};
use arrayvec::ArrayVec;
use guard_eval::is_in_some;
use guard_model::CharKind;

/// How many ranges are looked at by lanes, at most.
const MOST_RANGES: usize = 8;

/// Of fewer octets than this, lanes look at none.
const FEW_OCTETS: usize = 32;

/// Whether each octet is a character of the kind.
pub fn are_characters(kind: CharKind, inside: &[u8]) -> bool
    ensures { result ≡ all_characters kind inside.now }
{
    match kind {
        CharKind::Numeric => are_numeric(inside),
        CharKind::Printable => are_printable(inside),
        CharKind::Ia5 => are_ia5(inside),
        CharKind::Visible => are_visible(inside),
        CharKind::Utf8 => true,
    }
}

/// Whether each octet is a character of NumericString: space or a digit.
fn are_numeric(inside: &[u8]) -> bool
    ensures { result ≡ all_characters CharKind.Numeric inside.now }
{
    are_all_in(&[(32, 32), (48, 57)], inside)
}

/// Whether each octet is a character of PrintableString: a letter, a digit, space or one of `' ( ) + , - . / : = ?`.
fn are_printable(inside: &[u8]) -> bool
    ensures { result ≡ all_characters CharKind.Printable inside.now }
{
    are_all_in(
        &[
            (32, 32),
            (39, 41),
            (43, 58),
            (61, 61),
            (63, 63),
            (65, 90),
            (97, 122),
        ],
        inside,
    )
}

fn are_ia5(inside: &[u8]) -> bool
    ensures { result ≡ all_characters CharKind.Ia5 inside.now }
{
    are_all_in(&[(0, 127)], inside)
}

fn are_visible(inside: &[u8]) -> bool
    ensures { result ≡ all_characters CharKind.Visible inside.now }
{
    are_all_in(&[(32, 126)], inside)
}

/// Whether each octet is the code of a character in one of the ranges.
pub fn are_octets_in(ranges: &[(u32, u32)], inside: &[u8]) -> bool
    ensures { result ≡ list_all (is_in_some ranges.now) inside.now }
{
    if inside.len() < FEW_OCTETS || ranges.len() > MOST_RANGES {
        return are_singly_in(ranges, inside);
    }
    all_in(narrowed(ranges).as_slice(), inside)
}

/// Whether each octet is the code of a character in one of the ranges, one octet after the other.
fn are_singly_in(ranges: &[(u32, u32)], inside: &[u8]) -> bool
    ensures { result ≡ list_all (is_in_some ranges.now) inside.now }
{
    for octet in inside {
        if !is_in_some(ranges, u32::from(*octet)) {
            return false;
        }
    }
    true
}

/// The ranges as far as octets can lie in them.
fn narrowed(ranges: &[(u32, u32)]) -> ArrayVec<(u8, u8), MOST_RANGES>
    requires { length ranges.now ≤ 8 }
    ensures { (o : ℕ) → o < 256 → is_in_some result.items o ≡ is_in_some ranges.now o }
{
    let mut narrowed = ArrayVec::new();
    for (low, high) in ranges {
        narrowed.push(narrow(*low, *high));
    }
    narrowed
}

/// The octets of a range of codes: its two ends, or a range without any octet where none lies between them.
fn narrow(low: u32, high: u32) -> (u8, u8)
    ensures { (o : ℕ) → o < 256 → is_in_range result.0 result.1 o ≡ is_in_range low high o }
{
    if low > 255 {
        return (1, 0);
    }
    (low as u8, high.min(255) as u8)
}

/// Whether strings of the kind have one octet a character, so that each octet is a character's code.
pub fn has_one_octet(kind: CharKind) -> bool
    ensures { (os : List ℕ) → result ≡ true → (is_text kind os ≡ all_characters kind os)
        × (characters_of kind os ≡ os) }
{
    match kind {
        CharKind::Numeric => true,
        CharKind::Printable => true,
        CharKind::Ia5 => true,
        CharKind::Visible => true,
        CharKind::Utf8 => false,
    }
}

/// Whether characters that lie in one of these ranges are surely of the kind, which has one octet a character.
pub fn has_ranges(kind: CharKind, ranges: &[(u32, u32)]) -> bool
    ensures { (c : ℕ) → result ≡ true → is_in_some ranges.now c ≡ true → is_character kind c ≡ true }
{
    for (low, high) in ranges {
        if !has_range(kind, *low, *high) {
            return false;
        }
    }
    true
}

/// Whether all characters from the low end to the high one are surely of the kind. Of PrintableString ranges of digits
/// or of letters are known.
fn has_range(kind: CharKind, low: u32, high: u32) -> bool
    ensures { (c : ℕ) → result ≡ true → is_in_range low high c ≡ true → is_character kind c ≡ true }
{
    match kind {
        CharKind::Numeric => is_within(low, high, 48, 57),
        CharKind::Printable => {
            is_within(low, high, 48, 57)
                || is_within(low, high, 65, 90)
                || is_within(low, high, 97, 122)
        }
        CharKind::Ia5 => high < 128,
        CharKind::Visible => is_within(low, high, 32, 126),
        CharKind::Utf8 => false,
    }
}

fn is_within(low: u32, high: u32, least: u32, most: u32) -> bool
    ensures { (c : ℕ) → result ≡ true → is_in_range low high c ≡ true → is_in_range least most c ≡ true }
{
    least <= low && high <= most
}
