//! Sets of values by a number, a size or characters.
ghost use Rattle.std.specs.Prelude.{◌≡◌, false, length, get_or, pos, chars, count_by, option_map};
ghost use Rattle.std.specs.List.{list_all};
ghost use Rattle.guard_model.specs.ValueView.{value_view};
ghost use Rattle.guard_eval.specs.Elements.{is_above, is_under, is_between, size_of, is_in_some, is_spelled_in};
ghost use Rattle.guard_eval.specs.inside.Characters.{begins_one};
ghost use Rattle.guard_eval.specs.inside.KnownCodes.{AreKnown};

use crate::windows::{are_permitted_by_windows, mark};
use guard_der::bits::count_bits;
use guard_model::{Limit, Value};

/// From so many octets on, looking a text's characters up in a table costs less than going through the ranges for each.
const LONG_TEXT: usize = 256;

/// Texts of so many octets under alphabets of so many ranges are looked through once for each window of codes: less
/// than once for each range.
const VERY_LONG_TEXT: usize = 16_384;

const MANY_RANGES: usize = 256;

/// How many codes have a place in the table: as many as an octet has values, so that each octet has a place.
pub const LOW_CODES: usize = 256;

/// Whether the value is an integer between the ends (X.680 51.4).
pub fn is_between(low: &Limit, high: &Limit, value: &Value) -> bool
    ensures { result ≡ is_between low.now high.now (value_view value.now) }
{
    match value {
        Value::Int(number) => is_above(low, *number) && is_under(high, *number),
        _ => false,
    }
}

fn is_above(low: &Limit, number: i128) -> bool
    ensures { result ≡ is_above low.now number }
{
    match low {
        Limit::Free => true,
        Limit::At(low) => *low <= number,
        Limit::Past(low) => *low < number,
    }
}

fn is_under(high: &Limit, number: i128) -> bool
    ensures { result ≡ is_under high.now number }
{
    match high {
        Limit::Free => true,
        Limit::At(high) => number <= *high,
        Limit::Past(high) => number < *high,
    }
}

/// The size of a value in bits, octets, characters or elements (X.680 51.5); None where its kind has none.
pub fn size_of(value: &Value) -> Option<i128>
    ensures { result ≡ option_map pos (size_of (value_view value.now)) }
{
    match value {
        Value::Bits(bits) => Some(count_bits(bits.octets.as_slice(), bits.unused)),
        Value::Octets(octets) => Some(octets.len() as i128),
        Value::Chars(text) => Some(count_characters(text) as i128),
        Value::Items(items) => Some(items.len() as i128),
        _ => None,
    }
}

fn count_characters(text: &str) -> usize
    ensures { result ≡ length (chars text.now) }
{
    count_beginnings(text.as_bytes())
}

/// How many of the octets begin a character: this needs no decoding.
fn count_beginnings(octets: &[u8]) -> usize
    ensures { result ≡ count_by begins_one octets.now }
{
    let mut count = 0;
    for octet in octets {
        if *octet < 128 || 192 <= *octet {
            count += 1;
        }
    }
    count
}

/// Whether the value is a string all of whose characters are in one of the ranges (X.680 51.7).
pub fn is_spelled_in(ranges: &[(u32, u32)], value: &Value) -> bool
    ensures { result ≡ is_spelled_in ranges.now (value_view value.now) }
{
    match value {
        Value::Chars(text) => are_permitted(ranges, text),
        _ => false,
    }
}

/// Whether the code of each character of the text is in one of the ranges, both ends in (X.680 51.7).
pub fn are_permitted(ranges: &[(u32, u32)], text: &str) -> bool
    ensures { result ≡ list_all (is_in_some ranges.now) (chars text.now) }
{
    if text.len() < LONG_TEXT {
        return are_all_permitted(&[], ranges, text);
    }
    if text.is_ascii() {
        return are_marked(&low_codes(ranges), text.as_bytes());
    }
    if text.len() < VERY_LONG_TEXT || ranges.len() < MANY_RANGES {
        return are_all_permitted(low_codes(ranges).as_slice(), ranges, text);
    }
    are_permitted_by_windows(ranges, text)
}

/// Whether each octet has a mark in the table. To look at all of them, whatever the answer is by then, costs less than
/// to ask after each whether it was the last.
pub fn are_marked(known: &[bool; LOW_CODES], octets: &[u8]) -> bool
    ensures marked { result ≡ list_all (λ octet. get_or known.now octet false) octets.now }
    ensures whole { length known.now ≡ 256 }
{
    let mut all = true;
    for octet in octets {
        all &= known[*octet as usize];
    }
    all
}

/// Of each of the first codes, whether it is in one of the ranges.
fn low_codes(ranges: &[(u32, u32)]) -> [bool; LOW_CODES]
    ensures { AreKnown ranges.now result }
{
    let mut known = [false; LOW_CODES];
    for (first, last) in ranges {
        mark(&mut known, 0, *first, *last);
    }
    known
}

/// Whether the code of each character is in one of the ranges, where this is known of the first codes, or of none.
fn are_all_permitted(known: &[bool], ranges: &[(u32, u32)], text: &str) -> bool
    requires { AreKnown ranges.now known.now }
    ensures { result ≡ list_all (is_in_some ranges.now) (chars text.now) }
{
    for character in text.chars() {
        if !is_permitted(known, ranges, u32::from(character)) {
            return false;
        }
    }
    true
}

fn is_permitted(known: &[bool], ranges: &[(u32, u32)], code: u32) -> bool
    requires { AreKnown ranges.now known.now }
    ensures { result ≡ is_in_some ranges.now code }
{
    match known.get(code as usize) {
        Some(is_permitted) => *is_permitted,
        None => is_in_some(ranges, code),
    }
}

/// Whether the code is in one of the ranges, both ends in (X.680 51.7).
pub fn is_in_some(ranges: &[(u32, u32)], code: u32) -> bool
    ensures { result ≡ is_in_some ranges.now code }
{
    for (first, last) in ranges {
        if *first <= code && code <= *last {
            return true;
        }
    }
    false
}
