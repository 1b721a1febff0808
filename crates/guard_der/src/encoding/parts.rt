//! What a SEQUENCE or SET sends of its components.
ghost use Rattle.std.specs.Prelude.{◌≡◌, ◌≤◌, length, IfOk};
ghost use Rattle.guard_der.specs.Der.{ascending, insert_part, parts_joined, tag_before};
ghost use Rattle.guard_der.specs.inside.EncodingSteps.{part_view, parts_view, place_among};

use guard_model::{OutOfMemory, Tag};
use std::alloc::Global;
use std::cmp::Ordering;

/// The encoding of a component, and its outermost tag.
#[derive(Debug, Drop)]
pub struct EncodedPart {
    pub tag: Tag,
    pub octets: Vec<u8>,
}

/// The parts of a SET in ascending order of tags (X.690 10.3). OutOfMemory is the only error.
pub fn ascending(
    alloc: Global,
    mut parts: Vec<EncodedPart>,
) -> Result<Vec<EncodedPart>, OutOfMemory>
    ensures { IfOk result (λ sorted. parts_view sorted.items ≡ ascending (parts_view parts.items)) }
{
    let mut sorted = Vec::with_capacity(alloc, parts.len())?;
    while let Some(part) = parts.pop() {
        let at = place_among(&part.tag, &sorted);
        sorted.insert(at, part)?;
    }
    Ok(sorted)
}

/// How many parts with lesser tags lead the sorted ones.
fn place_among(tag: &Tag, parts: &[EncodedPart]) -> usize
    ensures value { result ≡ place_among tag.now (parts_view parts.now) }
    ensures bound { result ≤ length parts.now }
{
    for (index, part) in parts.iter().enumerate() {
        if part.tag.order(tag) != Ordering::Less {
            return index;
        }
    }
    parts.len()
}

/// The octets of the parts, one after the other. OutOfMemory is the only error.
pub fn joined(alloc: Global, parts: &[EncodedPart]) -> Result<Vec<u8>, OutOfMemory>
    ensures { IfOk result (λ v. v.items ≡ parts_joined (parts_view parts.now)) }
{
    let mut out = Vec::new(alloc);
    for part in parts {
        out.extend_from_slice(&part.octets)?;
    }
    Ok(out)
}
