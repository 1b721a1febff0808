//! The codes of characters that many FROM allow, and whether texts are of these codes alone.
ghost use Rattle.std.specs.Prelude.{◌≡◌, ℕ, pos, chars};
ghost use Rattle.std.specs.List.{list_all};
ghost use Rattle.guard_integers.specs.Integers.{holds};
ghost use Rattle.guard_eval.specs.inside.HeldCodes.{has_code};

use crate::elements::{LOW_CODES, are_marked};
use guard_integers::IntSet;

/// A set of codes, and of each of the first ones whether the set holds it: to look it up there costs less.
#[derive(Drop)]
pub struct HeldCodes {
    set: IntSet,
    first: [bool; LOW_CODES],
}

/// The codes that the set holds. No memory is taken for the table.
pub fn held_codes(set: IntSet) -> HeldCodes
    ensures { (c : ℕ) → has_code result c ≡ holds set (pos c) }
{
    let mut first = [false; LOW_CODES];
    for code in 0..LOW_CODES {
        first[code] = set.has(code as i128);
    }
    HeldCodes { set, first }
}

/// Whether the code of each character of the text is held. Where the text is ASCII, each of its octets is a code.
pub fn are_held(codes: &HeldCodes, text: &str) -> bool
    ensures { result ≡ list_all (has_code codes.now) (chars text.now) }
{
    if text.is_ascii() {
        return are_marked(&codes.first, text.as_bytes());
    }
    are_all_held(codes, text)
}

fn are_all_held(codes: &HeldCodes, text: &str) -> bool
    ensures { result ≡ list_all (has_code codes.now) (chars text.now) }
{
    for character in text.chars() {
        if !has_code(codes, u32::from(character)) {
            return false;
        }
    }
    true
}

fn has_code(codes: &HeldCodes, code: u32) -> bool
    ensures { result ≡ has_code codes.now code }
{
    match codes.first.get(code as usize) {
        Some(is_held) => *is_held,
        None => codes.set.has(i128::from(code)),
    }
}
