//! Lengths, and the contents after them.
ghost use Rattle.std.specs.Prelude.{◌≡◌, ◌∷◌, ◌≤◌, option_map};
ghost use Rattle.guard_der.specs.Head.{length_at};
ghost use Rattle.guard_reader.specs.Octets.{split, cut, size_at};
ghost use Rattle.guard_reader.specs.Fronts.{after_one};

/// The number that a length of the long form spells, by its first octet and those after it; 0 where it is at fault.
/// Condition: bit 8 of the first octet is set.
#[cold]
#[inline(never)]
#[tactic(auto, unfolding(guard_der::specs::Head::length_at, guard_der::specs::Head::long_length))]
pub fn long_length(first: u8, after: &[u8]) -> usize
    requires { 128 ≤ first }
    ensures { result ≡ size_at (length_at (first ∷ after.now)) }
{
    match (first, after) {
        (0x81, [a, ..]) if *a >= 128 => usize::from(*a),
        (0x82, [a, b, ..]) if *a > 0 => usize::from(*a) * 256 + usize::from(*b),
        (0x83, [a, b, c, ..]) if *a > 0 => {
            usize::from(*a) * 65536 + usize::from(*b) * 256 + usize::from(*c)
        }
        (0x84, [a, b, c, d, ..]) if *a > 0 => {
            usize::from(*a) * 16777216
                + usize::from(*b) * 65536
                + usize::from(*c) * 256
                + usize::from(*d)
        }
        _ => 0,
    }
}

/// The contents of an element and what follows them, by the length after an identifier octet; None where the length is
/// at fault or reaches past the octets.
#[inline(always)]
#[tactic(auto, unfolding(crate::specs::Octets::split, guard_der::specs::Head::length_at))]
pub fn split_after(octets: &[u8]) -> Option<(&[u8], &[u8])>
    ensures { option_map (λ p. (p.0.now, p.1.now)) result ≡ split (after_one octets.now) }
{
    match octets {
        [_, length, after @ ..] => split(*length, after),
        _ => None,
    }
}

/// The contents of an element and what follows them, where the first length octet was `first`; None where the length is
/// at fault or reaches past the octets.
#[inline(always)]
#[tactic(auto, unfolding(crate::specs::Octets::split, guard_der::specs::Head::length_at))]
fn split(first: u8, after: &[u8]) -> Option<(&[u8], &[u8])>
    ensures { option_map (λ p. (p.0.now, p.1.now)) result ≡ split (first ∷ after.now) }
{
    if first < 128 {
        return cut(usize::from(first), after);
    }
    let size = long_length(first, after);
    let extra = usize::from(first) - 128;
    if size == 0 || after.len() < extra {
        return None;
    }
    cut(size, &after[extra..])
}

/// So many octets, and what follows them; None where there are fewer.
#[inline(always)]
fn cut(size: usize, octets: &[u8]) -> Option<(&[u8], &[u8])>
    ensures { option_map (λ p. (p.0.now, p.1.now)) result ≡ cut size octets.now }
{
    if octets.len() < size {
        return None;
    }
    Some(octets.split_at(size))
}
