//! Strings of octets and bits.
ghost use Rattle.std.specs.Prelude.{◌≡◌, ◌++◌, ◌<◌, OnOk, IfOk, map, option_map};
ghost use Rattle.std.specs.Arc.{arc_slice_items};
ghost use Rattle.guard_model.specs.TypeView.{named_view};
ghost use Rattle.guard_report.specs.Strings.{digit, two_digits, hexadecimal, eight_bits, bits_of, binary};
ghost use Rattle.guard_report.specs.Strings.{bits_as_digits};
ghost use Rattle.guard_report.specs.Strings.{name_of, are_named, names_of_ones, bits_text};
ghost use Rattle.guard_report.specs.Layouts.{in_braces};
ghost use Rattle.guard_report.specs.declared.layout.Layout.TheVariants.{Line};

use super::layout::{Layout, add_before_part, add_closing};
use super::words::{add, add_name};
use guard_model::{Bits, Named, OutOfMemory};
use std::alloc::Global;

/// Appends the octets in hexadecimal: `'AB'H`.
pub(crate) fn add_hexadecimal(text: &mut Vec<u8>, octets: &[u8]) -> Result<(), OutOfMemory>
    ensures { OnOk result (text.new.items ≡ text.old.items ++ hexadecimal octets.now) }
{
    add(text, b"'")?;
    for octet in octets {
        add(text, &digits_of(*octet))?;
    }
    add(text, b"'H")
}

/// The two hexadecimal digits of an octet.
pub(crate) fn digits_of(octet: u8) -> [u8; 2]
    ensures { result ≡ two_digits octet }
{
    [digit(octet / 16), digit(octet % 16)]
}

/// The character of a digit below 16.
fn digit(number: u8) -> u8
    requires { number < 16 }
    ensures { result ≡ digit number }
{
    if number < 10 {
        b'0' + number
    } else {
        b'A' - 10 + number
    }
}

/// Appends the names of the bits that are one, where each has a name, else the bits in digits.
pub(crate) fn add_bits(
    alloc: Global,
    text: &mut Vec<u8>,
    names: &[Named],
    bits: &Bits,
) -> Result<(), OutOfMemory>
    ensures { OnOk result (text.new.items
        ≡ text.old.items ++ bits_text (map named_view names.now) (arc_slice_items bits.now.octets) bits.now.unused) }
{
    let list = bits_of(alloc, bits)?;
    if !names.is_empty() && are_named(names, &list) {
        add_names(text, names, &list)
    } else if bits.unused == 0 {
        add_hexadecimal(text, bits.octets.as_slice())
    } else {
        add_binary(text, &list)
    }
}

/// The bits, each as 0 or 1.
fn bits_of(alloc: Global, bits: &Bits) -> Result<Vec<u8>, OutOfMemory>
    ensures { IfOk result (λ list. list.items ≡ bits_of (arc_slice_items bits.now.octets) bits.now.unused) }
{
    let mut list = Vec::new(alloc);
    for octet in bits.octets.as_slice() {
        list.extend_from_slice(&eight_bits(*octet))?;
    }
    let kept = list.len().saturating_sub(usize::from(bits.unused));
    list.truncate(kept);
    Ok(list)
}

/// The bits of an octet, each as 0 or 1, the highest first.
fn eight_bits(octet: u8) -> [u8; 8]
    ensures { result ≡ eight_bits octet }
{
    [
        octet / 128,
        octet / 64 % 2,
        octet / 32 % 2,
        octet / 16 % 2,
        octet / 8 % 2,
        octet / 4 % 2,
        octet / 2 % 2,
        octet % 2,
    ]
}

/// Appends `'0101'B`.
fn add_binary(text: &mut Vec<u8>, bits: &[u8]) -> Result<(), OutOfMemory>
    ensures { OnOk result (text.new.items ≡ text.old.items ++ binary bits.now) }
{
    add(text, b"'")?;
    for bit in bits {
        add(text, if *bit == 0 { b"0" } else { b"1" })?;
    }
    add(text, b"'B")
}

// ---- named bits

/// The first name of this number, among items (X.680 clause 20) or named bits (clause 22); None where none has it.
pub fn name_of(names: &[Named], number: i128) -> Option<&str>
    ensures { option_map (λ name. name.now) result ≡ name_of (map named_view names.now) number }
{
    for named in names {
        if named.number == number {
            return Some(&named.name);
        }
    }
    None
}

/// Whether each bit that is one has a name.
fn are_named(names: &[Named], bits: &[u8]) -> bool
    ensures { result ≡ are_named (map named_view names.now) 0 bits.now }
{
    for (at, bit) in bits.iter().enumerate() {
        if *bit != 0 && name_of(names, at as i128).is_none() {
            return false;
        }
    }
    true
}

/// Appends the names of the bits that are one in braces.
fn add_names(text: &mut Vec<u8>, names: &[Named], bits: &[u8]) -> Result<(), OutOfMemory>
    ensures { OnOk result (text.new.items
        ≡ text.old.items ++ in_braces Line (names_of_ones (map named_view names.now) 0 bits.now)) }
{
    add(text, b"{")?;
    let mut is_first = true;
    for (at, bit) in bits.iter().enumerate() {
        if *bit != 0 {
            add_before_part(text, Layout::Line, is_first)?;
            add_name(text, name_of(names, at as i128), at as u64)?;
            is_first = false;
        }
    }
    add_closing(text, Layout::Line, is_first)
}
