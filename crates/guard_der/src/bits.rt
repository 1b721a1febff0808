//! The bits of a BIT STRING: how many there are, how many are unused, what these are, and what the last bit is.
ghost use Rattle.std.specs.Prelude.{◌≡◌, ◌-◌, ◌*◌, ◌^◌, ◌≤◌, length, map, pos};
ghost use Rattle.guard_model.specs.TypeView.{named_view};
ghost use Rattle.guard_der.specs.Fits.{last_octet as last_of, has_proper_end, has_zero_end};
ghost use Rattle.guard_der.specs.Fits.{has_no_trailing_zero, ends_as_named};

use guard_model::Named;

/// Whether at most seven bits are unused, and none where there are no octets (X.690 8.6.2).
pub fn has_proper_end(octets: &[u8], unused: u8) -> bool
    ensures { result ≡ has_proper_end octets.now unused }
{
    unused <= 7 && (unused == 0 || !octets.is_empty())
}

/// Whether the unused bits, the lowest of the last octet, are zero (X.690 11.2.1); true where there are no octets.
/// Condition: at most seven bits are unused.
pub fn has_zero_end(octets: &[u8], unused: u8) -> bool
    requires { unused ≤ 7 }
    ensures { result ≡ has_zero_end octets.now unused }
{
    last_octet(octets) % power_of_two(unused) == 0
}

/// Whether no bits are named, or the last bit is one, or there are no octets (X.680 22.7, X.690 11.2.2). Condition: at
/// most seven bits are unused.
pub fn ends_as_named(names: &[Named], octets: &[u8], unused: u8) -> bool
    requires { unused ≤ 7 }
    ensures { result ≡ ends_as_named (map named_view names.now) octets.now unused }
{
    match names {
        [] => true,
        _ => has_no_trailing_zero(octets, unused),
    }
}

/// Whether the last bit is one, or there are no octets and so no bits. Condition: at most seven bits are unused.
pub fn has_no_trailing_zero(octets: &[u8], unused: u8) -> bool
    requires { unused ≤ 7 }
    ensures { result ≡ has_no_trailing_zero octets.now unused }
{
    match octets {
        [] => true,
        _ => last_octet(octets) / power_of_two(unused) % 2 == 1,
    }
}

/// How many bits there are, as SIZE counts them (X.680 51.5): eight for each octet, without the unused ones.
pub fn count_bits(octets: &[u8], unused: u8) -> i128
    ensures { result ≡ pos (8 * length octets.now - unused) }
{
    let all = 8 * (octets.len() as u128);
    all.saturating_sub(u128::from(unused)) as i128
}

fn last_octet(octets: &[u8]) -> u8
    ensures { result ≡ last_of octets.now }
{
    if octets.is_empty() {
        0
    } else {
        octets[octets.len() - 1]
    }
}

fn power_of_two(exponent: u8) -> u8
    requires { exponent ≤ 7 }
    ensures { result ≡ 2 ^ exponent }
{
    match exponent {
        0 => 1,
        1 => 2,
        2 => 4,
        3 => 8,
        4 => 16,
        5 => 32,
        6 => 64,
        _ => 128,
    }
}
