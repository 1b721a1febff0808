//! The order of the elements of a SET OF, by their encodings (X.690 11.6).
ghost use Rattle.std.specs.Prelude.{◌≡◌, ◌&&◌, slice_index};
ghost use Rattle.guard_der.specs.Fits.{descends};

/// Whether an element with these octets may not come after one with the octets `before`.
pub fn is_out_of_order(ordered: bool, before: &[u8], octets: &[u8]) -> bool
    ensures { result ≡ (ordered && descends before.now octets.now) }
{
    ordered && descends(before, octets)
}

/// Whether the first encoding must come after the second one in a SET OF (X.690 11.6): at the first place where they
/// differ, the shorter one padded with zero octets, the first has the greater octet. False where they differ nowhere.
pub fn descends(octets: &[u8], next: &[u8]) -> bool
    ensures { result ≡ descends octets.now next.now }
{
    for (index, octet) in octets.iter().enumerate() {
        let other = padded(next, index);
        if other < *octet {
            return true;
        }
        if *octet < other {
            return false;
        }
    }
    false
}

fn padded(octets: &[u8], index: usize) -> u8
    ensures { result ≡ slice_index octets.now index }
{
    if index < octets.len() {
        octets[index]
    } else {
        0
    }
}
