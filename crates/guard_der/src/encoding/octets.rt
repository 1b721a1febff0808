//! Numbers as octets, the highest first.
ghost use Rattle.std.specs.Prelude.{◌≡◌, ◌++◌, ◌*◌, ◌^◌, ◌<◌, ◌≤◌, map, pos, IfOk};
ghost use Rattle.guard_der.specs.Octets.{fewest, unsigned_octets, signed_octets, base_128};
ghost use Rattle.guard_der.specs.inside.Digits.{digit_octet, digits_below};

use guard_model::OutOfMemory;

/// How a digit is written in its octet.
#[derive(Clone, Copy)]
enum Form {
    /// The digit as it is.
    Plain,
    /// The digit with bit 8 set, which says that another one follows.
    Marked,
    /// The digit with each bit turned over.
    Turned,
}

/// Appends the least octets that spell the number (X.690 8.1.3.5, 10.1).
#[tactic(auto, unfolding(crate::specs::Octets::unsigned_octets))]
pub fn push_unsigned(out: &mut Vec<u8>, number: u128) -> Result<(), OutOfMemory>
    ensures { IfOk result (λ _. out.new.items ≡ out.old.items ++ unsigned_octets number) }
{
    push_fewest(out, Form::Plain, 256, 256, 15, number)
}

/// Appends the least octets of the number in two's complement (X.690 8.3).
#[tactic(auto, unfolding(crate::specs::Octets::signed_octets))]
pub fn push_signed(out: &mut Vec<u8>, number: i128) -> Result<(), OutOfMemory>
    ensures { IfOk result (λ _. out.new.items ≡ out.old.items ++ signed_octets number) }
{
    if number >= 0 {
        push_fewest(out, Form::Plain, 256, 128, 15, number as u128)
    } else {
        push_fewest(out, Form::Turned, 256, 128, 15, (-1 - number) as u128)
    }
}

/// Appends the least octets of the number to the base 128, bit 8 set on each but the last (X.690 8.1.2.4.2).
#[tactic(auto, unfolding(crate::specs::Octets::base_128))]
pub fn push_base_128(out: &mut Vec<u8>, number: u128) -> Result<(), OutOfMemory>
    ensures { IfOk result (λ _. out.new.items ≡ out.old.items ++ base_128 number) }
{
    if number >= 128 {
        push_fewest(out, Form::Marked, 128, 128, 17, number / 128)?;
    }
    Ok(out.push((number % 128) as u8)?)
}

/// Appends the fewest digits of the number to the base, the first of several below the limit: at most so many before
/// the last.
#[tactic(auto, unfolding(crate::specs::Octets::fewest))]
fn push_fewest(
    out: &mut Vec<u8>,
    form: Form,
    base: u128,
    limit: u128,
    more: u8,
    number: u128,
) -> Result<(), OutOfMemory>
    requires some { 0 < base }
    requires low { limit ≤ base }
    requires octets { base ≤ digits_below form }
    requires room { number < limit * base ^ more }
    ensures { IfOk result (λ _. out.new.items ≡ out.old.items
        ++ map (digit_octet form) (fewest base limit more number)) }
{
    if more == 0 || number < limit {
        return Ok(out.push(octet_of(form, number as u8))?);
    }
    push_fewest(out, form, base, limit, more - 1, number / base)?;
    Ok(out.push(octet_of(form, (number % base) as u8))?)
}

fn octet_of(form: Form, digit: u8) -> u8
    requires { digit < digits_below form }
    ensures { result ≡ digit_octet form digit }
{
    match form {
        Form::Plain => digit,
        Form::Marked => 128 + digit,
        Form::Turned => 255 - digit,
    }
}
