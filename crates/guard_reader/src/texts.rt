//! UTF-8: whether octets are, and how many characters they spell.
ghost use Rattle.std.specs.Prelude.{◌≡◌, ◌≤◌, length, take, true};
ghost use Rattle.std.specs.List.{count_by};
ghost use Rattle.std.specs.Str.{is_utf8, chars};
ghost use Rattle.guard_reader.specs.inside.Firsts.{is_first};

use simdutf8::basic::from_utf8;
use std::simd::prelude::*;

/// How many octets are looked at together.
const LANES: usize = 32;

/// Whether octets are UTF-8.
pub fn is_spelled_utf8(inside: &[u8]) -> bool
    ensures { result ≡ is_utf8 inside.now }
{
    match from_utf8(inside) {
        Ok(_) => true,
        Err(_) => false,
    }
}

/// How many characters the octets spell. Condition: they are UTF-8.
pub fn count_utf8(inside: &[u8]) -> usize
    requires { is_utf8 inside.now ≡ true }
    ensures { result ≡ length (chars inside.now) }
{
    count_firsts(inside)
}

/// How many octets begin a character.
fn count_firsts(octets: &[u8]) -> usize
    ensures { result ≡ count_by is_first octets.now }
{
    let mut count = 0;
    let mut rest = octets;
    while rest.len() >= LANES {
        count += count_in_lanes(rest);
        rest = &rest[LANES..];
    }
    count + count_singly(rest)
}

/// How many of the first 32 octets begin a character.
#[inline(always)]
fn count_in_lanes(octets: &[u8]) -> usize
    requires { 32 ≤ length octets.now }
    ensures { result ≡ count_by is_first (take 32 octets.now) }
{
    let lanes = u8x32::from_slice(octets);
    let others = (lanes & u8x32::splat(0xC0)).simd_ne(u8x32::splat(0x80));
    others.to_bitmask().count_ones() as usize
}

fn count_singly(octets: &[u8]) -> usize
    ensures { result ≡ count_by is_first octets.now }
{
    let mut count = 0;
    for octet in octets {
        if is_first(*octet) {
            count += 1;
        }
    }
    count
}

/// Whether an octet begins a character of UTF-8: whether it is none of the form 10xxxxxx (RFC 3629, section 3).
fn is_first(octet: u8) -> bool
    ensures { result ≡ is_first octet }
{
    octet < 0x80 || 0xBF < octet
}
