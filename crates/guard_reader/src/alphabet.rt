//! Permitted alphabets of strings with one octet a character (X.680 51.7).
ghost use Rattle.std.specs.Prelude.{◌≡◌, ◌≤◌, length, take};
ghost use Rattle.std.specs.List.{list_all};
ghost use Rattle.guard_eval.specs.Elements.{is_in_some};

use std::simd::prelude::*;

/// How many octets are looked at together.
const LANES: usize = 32;

/// Whether the ranges have all these octets; both ends of a range belong to it. True where there are no octets.
/// Condition: there are at most 8 ranges.
pub fn all_in(ranges: &[(u8, u8)], octets: &[u8]) -> bool
    requires { length ranges.now ≤ 8 }
    ensures { result ≡ list_all (is_in_some ranges.now) octets.now }
{
    match ranges {
        // Most alphabets are one range, and of a list of one the ends are spread over the lanes only once.
        [only] => are_all_in(&[*only], octets),
        _ => are_all_in(ranges, octets),
    }
}

/// Whether the ranges have all these octets: compiled anew for each list that is known where it is called.
#[inline(always)]
pub fn are_all_in(ranges: &[(u8, u8)], octets: &[u8]) -> bool
    ensures { result ≡ list_all (is_in_some ranges.now) octets.now }
{
    let mut rest = octets;
    while rest.len() >= LANES {
        if !are_first_in(ranges, rest) {
            return false;
        }
        rest = &rest[LANES..];
    }
    are_in(ranges, rest)
}

/// Whether each of the first 32 octets lies in one of the ranges.
#[inline(always)]
fn are_first_in(ranges: &[(u8, u8)], octets: &[u8]) -> bool
    requires { 32 ≤ length octets.now }
    ensures { result ≡ list_all (is_in_some ranges.now) (take 32 octets.now) }
{
    let lanes = u8x32::from_slice(octets);
    let mut outside = lanes.simd_eq(lanes);
    for (low, high) in ranges {
        outside = outside
            & (lanes.simd_lt(u8x32::splat(*low)) | lanes.simd_gt(u8x32::splat(*high)));
    }
    outside.to_bitmask() == 0
}

/// Whether the ranges have all these octets, looked at one after the other.
#[inline(always)]
fn are_in(ranges: &[(u8, u8)], octets: &[u8]) -> bool
    ensures { result ≡ list_all (is_in_some ranges.now) octets.now }
{
    for octet in octets {
        if !is_in_one(ranges, *octet) {
            return false;
        }
    }
    true
}

#[inline(always)]
fn is_in_one(ranges: &[(u8, u8)], octet: u8) -> bool
    ensures { result ≡ is_in_some ranges.now octet }
{
    for (low, high) in ranges {
        if *low <= octet && octet <= *high {
            return true;
        }
    }
    false
}
