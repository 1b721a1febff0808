//! Numbers by their two's complement (X.690 8.3).
ghost use Rattle.std.specs.Prelude.{◌≡◌, ◌-◌, ◌<◌, ◌≤◌, ◌^◌, ◌∷◌, length, None, if◌then◌else◌};
ghost use Rattle.guard_der.specs.Octets.{big_endian, turned, twos_complement as twos_read};
ghost use Rattle.guard_der.specs.Simple.{integer_fault, nine_equal};

use crate::breach::Code;

/// What is wrong with the contents octets of an INTEGER (X.690 8.3): IntegerContents where there are none or the first
/// nine bits are equal, else IntegerTooLong where there are more than sixteen; None where nothing is wrong.
pub fn fault_of_integer(octets: &[u8]) -> Option<Code>
    ensures { result ≡ integer_fault octets.now }
{
    if octets.is_empty() || has_nine_equal_bits(octets) {
        Some(Code::IntegerContents)
    } else if octets.len() > 16 {
        Some(Code::IntegerTooLong)
    } else {
        None
    }
}

/// Whether the first octet is superfluous: the first nine bits are equal (X.690 8.3.2).
fn has_nine_equal_bits(octets: &[u8]) -> bool
    ensures { result ≡ nine_equal octets.now }
{
    match octets {
        [first, second, ..] => {
            (*first == 0 && *second < 128) || (*first == 0xFF && *second >= 128)
        }
        _ => false,
    }
}

/// The number that the contents octets of an INTEGER spell, -2^127 to 2^127-1 (X.690 8.3.3). Condition: nothing is
/// wrong with them, that is `fault_of_integer` answers None.
#[tactic(auto, unfolding(crate::specs::Octets::twos_complement))]
pub fn twos_complement(octets: &[u8]) -> i128
    requires { integer_fault octets.now ≡ None }
    ensures { result ≡ twos_read octets.now }
{
    let (first, others) = (octets[0], &octets[1..]);
    if first < 128 {
        number_behind(first, others, false) as i128
    } else {
        -1 - number_behind(255 - first, others, true) as i128
    }
}

/// The number that octets spell, the highest first. The others are turned over, bit by bit, if `turn` says so.
fn number_behind(first: u8, others: &[u8], turn: bool) -> u128
    requires low { first < 128 }
    requires short { length others.now ≤ 15 }
    ensures value { result ≡ big_endian (first ∷ (if turn then turned others.now else others.now)) }
    ensures bound { result < 2 ^ 127 }
{
    let mut number = u128::from(first);
    for octet in others {
        number = number * 256 + u128::from(turned_if(turn, *octet));
    }
    number
}

fn turned_if(turn: bool, octet: u8) -> u8
    ensures { result ≡ (if turn then 255 - octet else octet) }
{
    if turn { 255 - octet } else { octet }
}
