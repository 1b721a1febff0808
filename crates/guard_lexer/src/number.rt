//! Numbers.
ghost use Rattle.std.specs.Prelude.{◌≡◌, ◌≤◌, ◌<◌, ◌^◌, length, nat_lt, SomeIff};
ghost use Rattle.std.specs.List.{prefix_len};
ghost use Rattle.guard_lexer.specs.Octets.{is_digit};
ghost use Rattle.guard_lexer.specs.Items.{number_value};
ghost use Rattle.guard_lexer.specs.inside.Reading.{number_len};

/// The length of the number at the front: a 0 is one alone.
pub(crate) fn number_len(first: u8, after: &[u8]) -> usize
    requires { length after.now < 2 ^ 63 }
    ensures { result ≡ number_len first after.now }
{
    if first == b'0' {
        1
    } else {
        1 + digits_len(after)
    }
}

fn digits_len(text: &[u8]) -> usize
    ensures reads { result ≡ prefix_len is_digit text.now }
    ensures within { result ≤ length text.now }
{
    let mut n = 0;
    while n < text.len() && text[n].is_ascii_digit() {
        n += 1;
    }
    n
}

/// The number that decimal digits write, 0 where there are none; None where it is above 2^128-1. The octets are meant
/// to be digits, which isn't looked at.
pub fn magnitude(digits: &[u8]) -> Option<u128>
    ensures { SomeIff result (number_value digits.now < 2 ^ 128) (number_value digits.now) }
{
    let mut value = 0u128;
    for digit in digits {
        value = value
            .checked_mul(10)?
            .checked_add(u128::from(digit.saturating_sub(b'0')))?;
    }
    Some(value)
}

/// Whether the number that the digits write is below 2^128.
pub(crate) fn is_below_limit(digits: &[u8]) -> bool
    ensures { result ≡ nat_lt (number_value digits.now) (2 ^ 128) }
{
    magnitude(digits).is_some()
}
