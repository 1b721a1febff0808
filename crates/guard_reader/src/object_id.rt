//! Contents octets of an OBJECT IDENTIFIER (X.690 8.19).
ghost use Rattle.std.specs.Prelude.{◌≡◌, ◌&&◌, ◌-◌, ◌*◌, ◌+◌, ◌<◌, ◌^◌, true, nat_eq, nat_lt, if◌then◌else◌};
ghost use Rattle.std.specs.Option.{is_none};
ghost use Rattle.guard_der.specs.Simple.{object_id_fault};
ghost use Rattle.guard_reader.specs.Octets.{reads_on};

/// From here on a number has no room for seven bits more.
const FULL: u128 = 1 << 121;

/// Whether contents octets are those of an OBJECT IDENTIFIER: bit 8 is set on each octet of a subidentifier but its
/// last, its first isn't 80, and it has at most 128 bits.
pub fn is_object_identifier(inside: &[u8]) -> bool
    ensures { result ≡ is_none (object_id_fault inside.now) }
{
    !inside.is_empty() && are_subidentifiers(inside)
}

fn are_subidentifiers(inside: &[u8]) -> bool
    ensures { result ≡ reads_on true 0 inside.now }
{
    let mut number = 0u128;
    let mut starts = true;
    for octet in inside {
        if is_padding(starts, *octet) {
            return false;
        }
        if number >= FULL {
            return false;
        }
        starts = *octet < 128;
        number = next_number(number, *octet);
    }
    starts
}

/// Whether a subidentifier begins here and does so with 80, seven bits that are all zero, as none may.
fn is_padding(starts: bool, octet: u8) -> bool
    ensures { result ≡ (starts && nat_eq octet 128) }
{
    starts && octet == 0x80
}

/// What a subidentifier spelled once this octet was read; after its last octet the next one begins.
fn next_number(number: u128, octet: u8) -> u128
    requires { number < 2 ^ 121 }
    ensures { result ≡ (if nat_lt octet 128 then 0 else number * 128 + (octet - 128)) }
{
    if octet < 128 {
        0
    } else {
        number * 128 + u128::from(octet - 128)
    }
}
