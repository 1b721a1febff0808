//! Identifier and length octets (X.690 8.1.2, 8.1.3).
ghost use Rattle.std.specs.Prelude.{◌≡◌, ◌+◌, ◌<◌, ◌≤◌, ◌^◌, ◌*◌, length, Some, Ok, IfOk};
ghost use Rattle.guard_model.specs.Answer.{Gives};
ghost use Rattle.guard_der.specs.Octets.{big_endian};
ghost use Rattle.guard_der.specs.Head.{class_of, number_from, high_number, tag_number, long_length, length_at, head_of};
ghost use Rattle.guard_der.specs.Views.{rest_view, head_view, breach_view};
ghost use Rattle.guard_der.specs.Header.{IsHeader, header_at};
ghost use Rattle.guard_der.specs.declared.element.Header.{Header};

use crate::breach::{Breach, Code};
use crate::element::Header;
use guard_model::{Class, Path, Tag};

/// What the identifier and length octets at the front of octets say.
#[derive(Clone, Copy, Debug)]
pub struct Head {
    pub tag: Tag,
    /// Bit 6 of the identifier: whether the contents are encodings themselves.
    pub constructed: bool,
    /// How many octets the header has.
    pub size: usize,
    /// How many octets of contents follow the header.
    pub contents: usize,
}

/// The header of the element that begins at the offset `at`, from 0 (X.690 8.1.2, 8.1.3, 10.1). Condition: `at` is at
/// most the number of octets.
///
/// The errors are breaches at that offset, with an empty path: Truncated, also where the contents reach past the end of
/// the octets, TagForm, IndefiniteLength, NonMinimalLength and LengthTooLarge, the first that holds from left to right.
pub fn header(octets: &[u8], at: usize) -> Result<Header, Breach>
    requires { at ≤ length octets.now }
    // What is answered is there, spelled as X.690 spells it.
    ensures stands { IfOk result (IsHeader octets.now at) }
    // What is there is answered.
    ensures only { (h : Header) → IsHeader octets.now at h → result ≡ Ok h }
    // Which header, and which fault.
    ensures exact { Gives (λ h. h) (λ b. Some (breach_view b)) result (header_at at octets.now) }
{
    placed_header(octets, at)
}

fn placed_header(octets: &[u8], at: usize) -> Result<Header, Breach>
    requires { at ≤ length octets.now }
    ensures { Gives (λ h. h) (λ b. Some (breach_view b)) result (header_at at octets.now) }
{
    match head_at_front(&octets[at..]) {
        Ok(head) => Ok(Header {
            tag: head.tag,
            constructed: head.constructed,
            contents: at + head.size,
            end: at + head.size + head.contents,
        }),
        Err(code) => Err(Breach {
            code,
            at,
            path: Path::new(),
        }),
    }
}

/// The header of the element at the front of the octets, or the first fault in it from left to right.
#[tactic(auto, unfolding(crate::specs::Head::head_of))]
pub fn head_at_front(octets: &[u8]) -> Result<Head, Code>
    ensures { Gives head_view Some result (head_of octets.now) }
{
    let [octet, rest @ ..] = octets else {
        return Err(Code::Truncated);
    };
    let (number, rest) = tag_number_of(*octet % 32, rest)?;
    let (contents, rest) = length_of(rest)?;
    if rest.len() < contents {
        return Err(Code::Truncated);
    }
    let tag = Tag {
        class: class_of(*octet),
        number,
    };
    Ok(Head {
        tag,
        constructed: *octet % 64 >= 32,
        size: octets.len() - rest.len(),
        contents,
    })
}

/// The class of a tag, by bits 8 and 7 of the first identifier octet (X.690 8.1.2.2).
pub fn class_of(octet: u8) -> Class
    ensures { result ≡ class_of octet }
{
    match octet {
        0..64 => Class::Universal,
        64..128 => Class::Application,
        128..192 => Class::Context,
        _ => Class::Private,
    }
}

#[tactic(auto, unfolding(crate::specs::Head::tag_number))]
fn tag_number_of(low: u8, octets: &[u8]) -> Result<(u32, &[u8]), Code>
    ensures { Gives rest_view Some result (tag_number low octets.now) }
{
    if low < 31 {
        Ok((u32::from(low), octets))
    } else {
        high_tag_number(octets)
    }
}

#[tactic(auto, unfolding(crate::specs::Head::high_number))]
fn high_tag_number(octets: &[u8]) -> Result<(u32, &[u8]), Code>
    ensures { Gives rest_view Some result (high_number octets.now) }
{
    let [first, ..] = octets else {
        return Err(Code::Truncated);
    };
    if *first == 0x80 {
        return Err(Code::TagForm);
    }
    let (number, rest) = number_after(4, 0, octets)?;
    if number < 31 {
        return Err(Code::TagForm);
    }
    Ok((number, rest))
}

#[tactic(auto, unfolding(crate::specs::Head::number_from))]
fn number_after(tries: u8, number: u32, octets: &[u8]) -> Result<(u32, &[u8]), Code>
    requires { (number + 1) * 128 ^ tries ≤ 2 ^ 28 }
    ensures { Gives rest_view Some result (number_from tries number octets.now) }
{
    let [octet, rest @ ..] = octets else {
        return Err(Code::Truncated);
    };
    if tries == 0 {
        return Err(Code::TagForm);
    }
    if *octet < 128 {
        Ok((number * 128 + u32::from(*octet), rest))
    } else {
        number_after(tries - 1, number * 128 + u32::from(*octet - 128), rest)
    }
}

#[tactic(auto, unfolding(crate::specs::Head::length_at))]
fn length_of(octets: &[u8]) -> Result<(usize, &[u8]), Code>
    ensures { Gives rest_view Some result (length_at octets.now) }
{
    let [octet, rest @ ..] = octets else {
        return Err(Code::Truncated);
    };
    match *octet {
        0..128 => Ok((usize::from(*octet), rest)),
        128 => Err(Code::IndefiniteLength),
        129..=132 => long_length_of(usize::from(*octet - 128), rest),
        _ => Err(Code::LengthTooLarge),
    }
}

#[tactic(auto, unfolding(crate::specs::Head::long_length))]
fn long_length_of(count: usize, octets: &[u8]) -> Result<(usize, &[u8]), Code>
    requires low { 0 < count }
    requires high { count ≤ 4 }
    ensures { Gives rest_view Some result (long_length count octets.now) }
{
    if octets.len() < count {
        return Err(Code::Truncated);
    }
    let (digits, rest) = octets.split_at(count);
    let value = number_of(digits);
    if value < 128 || digits[0] == 0 {
        return Err(Code::NonMinimalLength);
    }
    Ok((value, rest))
}

/// The number that at most four octets spell, the highest first.
fn number_of(octets: &[u8]) -> usize
    requires { length octets.now ≤ 4 }
    ensures value { result ≡ big_endian octets.now }
{
    let mut number = 0usize;
    for octet in octets {
        number = number * 256 + usize::from(*octet);
    }
    number
}
