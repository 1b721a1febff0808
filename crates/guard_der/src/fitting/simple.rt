//! Which values the simple kinds have.
ghost use Rattle.std.specs.Prelude.{◌≡◌, ◌&&◌, map};
ghost use Rattle.std.specs.Arc.{arc_slice_items};
ghost use Rattle.guard_model.specs.TypeView.{named_view};
ghost use Rattle.guard_der.specs.Fits.{all_below, fits_arcs, fits_bits, ends_as_named, fits_first_arcs};
ghost use Rattle.guard_model.specs.Limits.{fits_128_bits};

use crate::bits::{ends_as_named, has_proper_end, has_zero_end};
use guard_model::{Bits, Named};

/// Whether an INTEGER or ENUMERATED may have the number: true, since each `i128` lies within signed 128 bits.
pub fn is_in_range(number: i128) -> bool
    ensures { result ≡ fits_128_bits number }
{
    number >= i128::MIN
}

/// Whether each octet is below 256: true of octets.
pub fn are_octets(octets: &[u8]) -> bool
    ensures { result ≡ all_below 256 octets.now }
{
    let _ = octets;
    true
}

/// Whether a BIT STRING may have these bits: at most seven are unused, none where there are no octets (X.690 8.6.2);
/// the unused bits are zero (11.2.1); where bits are named, the last one isn't (11.2.2).
pub fn bits_fit(names: &[Named], bits: &Bits) -> bool
    ensures { result ≡ (fits_bits (arc_slice_items bits.now.octets) bits.now.unused
        && ends_as_named (map named_view names.now) (arc_slice_items bits.now.octets) bits.now.unused) }
{
    let octets = bits.octets.as_slice();
    are_octets(octets)
        && has_proper_end(octets, bits.unused)
        && has_zero_end(octets, bits.unused)
        && ends_as_named(names, octets, bits.unused)
}

/// Whether an OBJECT IDENTIFIER may have these arcs, of which there are two at least. X.660 has three first arcs, 0, 1
/// and 2, and 40 arcs each under 0 and 1; in this profile no subidentifier has more than 128 bits.
pub fn arcs_fit(arcs: &[u128]) -> bool
    ensures { result ≡ fits_arcs arcs.now }
{
    match arcs {
        [first, second, ..] => first_two_fit(*first, *second),
        _ => false,
    }
}

fn first_two_fit(first: u128, second: u128) -> bool
    ensures { result ≡ fits_first_arcs first second }
{
    match first {
        0 => second <= 39,
        1 => second <= 39,
        2 => second <= u128::MAX - 80,
        _ => false,
    }
}
