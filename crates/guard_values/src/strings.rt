//! What strings of bits and hexadecimal digits say (X.680 clauses 22 and 23), and those in double quotes.
ghost use Rattle.std.specs.Prelude.{◌≡◌, ◌∷◌, [], ◌^◌, ◌<◌, ◌≤◌, ◌*◌, ◌+◌, ◌-◌, ◌%◌, length};
ghost use Rattle.std.specs.Prelude.{drop, slice_index, All, IfOk, Ok};
ghost use Rattle.guard_model.specs.Answer.{Gives};
ghost use Rattle.guard_model.specs.AbstractValue as value;
ghost use Rattle.guard_model.specs.ValueView.{value_view};
ghost use Rattle.guard_values.specs.Simple.{bits_value};
ghost use Rattle.guard_values.specs.Views.{named};
ghost use Rattle.guard_values.specs.Strings as written;
ghost use Rattle.guard_values.specs.Strings.{filled, packed, octets_of_bits, quoted, up_to_quote};

use crate::fault::ValueFault;
use guard_model::{Bits, Value};
use std::alloc::{AllocError, Global};
use std::sync::ArcSlice;

/// The bits of a string of bits, in written order.
pub fn binary_digits(alloc: Global, spelling: &[u8]) -> Result<Vec<u8>, AllocError>
    ensures digits { IfOk result (λ v. v.items ≡ written.binary_digits spelling.now) }
    ensures small { IfOk result (λ v. All (λ d. d < 2) v.items) }
{
    let mut digits = Vec::new(alloc);
    for octet in spelling {
        if is_binary_digit(*octet) {
            digits.push(digit_value(*octet))?;
        }
    }
    Ok(digits)
}

/// The bits of a hexadecimal string, four for each digit, in written order.
pub fn hexadecimal_bits(alloc: Global, spelling: &[u8]) -> Result<Vec<u8>, AllocError>
    ensures bits { IfOk result (λ v. v.items ≡ written.hexadecimal_bits spelling.now) }
    ensures small { IfOk result (λ v. All (λ b. b < 2) v.items) }
{
    let digits = hexadecimal_digits(alloc, spelling)?;
    bits_of_digits(alloc, &digits)
}

fn bits_of_digits(alloc: Global, digits: &[u8]) -> Result<Vec<u8>, AllocError>
    requires { All (λ d. d < 16) digits.now }
    ensures bits { IfOk result (λ v. v.items ≡ written.bits_of_digits digits.now) }
    ensures small { IfOk result (λ v. All (λ b. b < 2) v.items) }
{
    let mut bits = Vec::new(alloc);
    for digit in digits {
        bits.extend_from_slice(&four_bits(*digit))?;
    }
    Ok(bits)
}

/// The bits of a hexadecimal digit, the highest first.
fn four_bits(digit: u8) -> [u8; 4]
    requires { digit < 16 }
    ensures bits { result ≡ written.four_bits digit }
    ensures small { All (λ b. b < 2) result }
{
    [digit / 8, digit / 4 % 2, digit / 2 % 2, digit % 2]
}

/// The digits of a hexadecimal string, in written order.
fn hexadecimal_digits(alloc: Global, spelling: &[u8]) -> Result<Vec<u8>, AllocError>
    ensures digits { IfOk result (λ v. v.items ≡ written.hexadecimal_digits spelling.now) }
    ensures small { IfOk result (λ v. All (λ d. d < 16) v.items) }
{
    let mut digits = Vec::new(alloc);
    for octet in spelling {
        if is_hexadecimal_digit(*octet) {
            let digit = digit_value(*octet);
            digits.push(digit)?;
        }
    }
    Ok(digits)
}

fn is_binary_digit(octet: u8) -> bool
    ensures { result ≡ written.is_binary_digit octet }
{
    octet == b'0' || octet == b'1'
}

fn is_hexadecimal_digit(octet: u8) -> bool
    ensures { result ≡ written.is_hexadecimal_digit octet }
{
    octet.is_ascii_digit() || (b'A' <= octet && octet <= b'F')
}

fn digit_value(octet: u8) -> u8
    ensures { result ≡ written.digit_value octet }
{
    if octet <= b'9' {
        octet.saturating_sub(b'0')
    } else {
        octet - 55
    }
}

/// Eight bits to an octet, the first one the highest. The last octet is filled with zero bits.
pub fn octets_of_bits(alloc: Global, bits: &[u8]) -> Result<Vec<u8>, AllocError>
    requires { All (λ d. d < 2) bits.now }
    ensures { IfOk result (λ v. v.items ≡ octets_of_bits bits.now) }
{
    packed(alloc, 2, 8, bits)
}

/// The BIT STRING of these bits.
pub fn bit_string(alloc: Global, bits: &[u8]) -> Result<Value, ValueFault>
    requires { All (λ d. d < 2) bits.now }
    ensures { Gives value_view named result (Ok (bits_value bits.now)) }
{
    bits_in(octets_of_bits(alloc, bits)?, bits.len())
}

/// The BIT STRING of so many bits, which these octets have.
pub fn bits_in(octets: Vec<u8>, count: usize) -> Result<Value, ValueFault>
    ensures { Gives value_view named result (Ok (value.bit_string octets.items ((8 - count % 8) % 8))) }
{
    let octets = ArcSlice::from_vec(octets)?;
    let unused = ((8 - count % 8) % 8) as u8;
    Ok(Value::Bits(Bits { octets, unused }))
}

/// All digits to this base in the fewest octets, each of which has room for `places` of them.
fn packed(alloc: Global, base: u32, places: usize, digits: &[u8]) -> Result<Vec<u8>, AllocError>
    requires base { 1 ≤ base }
    requires places { 1 ≤ places }
    requires octet { base ^ places ≡ 256 }
    requires small { All (λ d. d < base) digits.now }
    ensures { IfOk result (λ v. v.items ≡ packed base places (length digits.now) digits.now) }
{
    let mut octets = Vec::new(alloc);
    let mut rest = digits;
    while !rest.is_empty() {
        octets.push(filled(base, places, rest))?;
        rest = rest_after(rest, places);
    }
    Ok(octets)
}

/// The number that the first `places` digits write. Digits that are missing after the last one are zeros.
fn filled(base: u32, places: usize, digits: &[u8]) -> u8
    requires base { 1 ≤ base }
    requires octet { base ^ places ≡ 256 }
    requires small { All (λ d. d < base) digits.now }
    ensures { result ≡ filled base places digits.now }
{
    let mut number = 0u32;
    for place in 0..places {
        number = number * base + u32::from(digit_at(digits, place));
    }
    number as u8
}

fn digit_at(digits: &[u8], place: usize) -> u8
    ensures { result ≡ slice_index digits.now place }
{
    if place < digits.len() {
        digits[place]
    } else {
        0
    }
}

/// The octets after the first `count`.
fn rest_after(octets: &[u8], count: usize) -> &[u8]
    ensures { result.now ≡ drop count octets.now }
{
    &octets[count.min(octets.len())..]
}

/// The octets that are quoted in a string in double quotes, given with its quotes: a quote inside is written twice
/// (X.680 12.14). They end at the quote that closes the string, or, where none does, before the last octet. An error
/// only where a growth was refused.
pub fn quoted(alloc: Global, spelling: &[u8]) -> Result<Vec<u8>, AllocError>
    ensures { IfOk result (λ v. v.items ≡ quoted spelling.now) }
{
    let mut octets = Vec::new(alloc);
    let mut rest = rest_after(spelling, 1);
    while rest.len() >= 2 {
        let taken = octets_taken(rest);
        if taken == 0 {
            return Ok(octets);
        }
        octets.push(rest[0])?;
        rest = rest_after(rest, taken);
    }
    Ok(octets)
}

/// How many octets the first one inside a string takes: two where it is a quote, and none where that closes the string.
fn octets_taken(rest: &[u8]) -> usize
    requires { 2 ≤ length rest.now }
    ensures closed { result ≡ 0 → up_to_quote rest.now ≡ [] }
    ensures goes_on { 1 ≤ result → up_to_quote rest.now ≡ slice_index rest.now 0 ∷ up_to_quote (drop result rest.now) }
{
    if rest[0] != b'"' {
        1
    } else if rest[1] == b'"' {
        2
    } else {
        0
    }
}
