//! Identifier, length and contents octets (X.690 8.1).
ghost use Rattle.std.specs.Prelude.{◌≡◌, ◌++◌, ◌+◌, ◌≤◌, length, IfOk};
ghost use Rattle.guard_model.specs.Answer.{Gives};
ghost use Rattle.guard_model.specs.Tags.{class_rank};
ghost use Rattle.guard_der.specs.Octets.{fewest};
ghost use Rattle.guard_der.specs.Element.{identifier_octets, length_octets, element, tagged};
ghost use Rattle.guard_der.specs.Encoding.{refusal};
ghost use Rattle.guard_der.specs.Encoding.{or_too_long};

use crate::encoding::EncodeFault;
use crate::encoding::octets::{push_base_128, push_unsigned};
use guard_model::{Class, OutOfMemory, Tag};
use std::alloc::Global;

/// The first length that needs more than four octets.
const LENGTHS: usize = 1 << 32;

/// More octets than an identifier and a length together have.
const HEADER: usize = 12;

/// The contents in their tags, each but the last a wrapper, the outermost first (X.690 8.14). Without a tag nothing is
/// added. TooLong exactly where a length needs more than four octets; OutOfMemory where a growth is refused.
pub fn tagged(
    alloc: Global,
    tags: &[Tag],
    constructed: bool,
    contents: Vec<u8>,
) -> Result<Vec<u8>, EncodeFault>
    ensures { Gives (λ v. v.items) refusal result (or_too_long (tagged tags.now constructed contents.items)) }
{
    match tags {
        [] => Ok(contents),
        [tag] => element(alloc, *tag, constructed, &contents),
        [tag, inside @ ..] => {
            let octets = tagged(alloc, inside, constructed, contents)?;
            element(alloc, *tag, true, &octets)
        }
    }
}

#[tactic(auto, unfolding(crate::specs::Element::element))]
fn element(
    alloc: Global,
    tag: Tag,
    constructed: bool,
    contents: &[u8],
) -> Result<Vec<u8>, EncodeFault>
    ensures { Gives (λ v. v.items) refusal result (or_too_long (element tag constructed contents.now)) }
{
    if contents.len() >= LENGTHS {
        return Err(EncodeFault::TooLong);
    }
    let mut out = Vec::with_capacity(alloc, contents.len() + HEADER)?;
    push_identifier(&mut out, tag, constructed)?;
    push_length(&mut out, contents.len())?;
    out.extend_from_slice(contents)?;
    Ok(out)
}

#[tactic(auto, unfolding(crate::specs::Element::identifier_octets))]
fn push_identifier(out: &mut Vec<u8>, tag: Tag, constructed: bool) -> Result<(), OutOfMemory>
    ensures { IfOk result (λ _. out.new.items ≡ out.old.items ++ identifier_octets tag constructed) }
{
    let form = if constructed { 32 } else { 0 };
    let bits = 64 * rank(tag.class) + form;
    if tag.number < 31 {
        return Ok(out.push(bits + tag.number as u8)?);
    }
    out.push(bits + 31)?;
    push_base_128(out, u128::from(tag.number))
}

/// Bits 8 and 7 of an identifier.
fn rank(class: Class) -> u8
    ensures value { result ≡ class_rank class }
    ensures bound { result ≤ 3 }
{
    match class {
        Class::Universal => 0,
        Class::Application => 1,
        Class::Context => 2,
        Class::Private => 3,
    }
}

#[tactic(auto, unfolding(crate::specs::Element::length_octets, crate::specs::Octets::unsigned_octets))]
fn push_length(out: &mut Vec<u8>, length: usize) -> Result<(), OutOfMemory>
    ensures { IfOk result (λ _. out.new.items ≡ out.old.items ++ length_octets length) }
{
    if length < 128 {
        return Ok(out.push(length as u8)?);
    }
    let number = length as u128;
    out.push(128 + count_of_octets(15, number))?;
    push_unsigned(out, number)
}

/// How many octets spell the number, at most so many before the last.
#[tactic(auto, unfolding(crate::specs::Octets::fewest))]
fn count_of_octets(more: u8, number: u128) -> u8
    requires { more ≤ 15 }
    ensures value { result ≡ length (fewest 256 256 more number) }
    ensures bound { result ≤ more + 1 }
{
    if more == 0 || number < 256 {
        1
    } else {
        count_of_octets(more - 1, number / 256) + 1
    }
}
