//! `is_within_limits`, and `check` with `find_clash`, which must agree: `distinct` where all tags differ that must,
//! else the first clash.
use crate::notation::{read, type_of};
use conformance_rows::{Layer, not_read, text_of, unknown};
use guard_tagcheck::{Clash, check, find_clash, is_within_limits};
use std::alloc::{AllocError, Global};

#[derive(Drop)]
pub struct Clashes;

impl Layer for Clashes {
    fn new(_alloc: Global) -> Clashes {
        Clashes
    }

    fn answer(&mut self, alloc: Global, input: &[u8]) -> Result<String, AllocError> {
        let Some(ty) = read(type_of(alloc, text_of(input)))? else {
            return not_read(alloc);
        };
        if !is_within_limits(&ty) {
            return String::from_str(alloc, "beyond the limits");
        }
        let Ok(found) = find_clash(alloc, &ty) else {
            return Err(AllocError);
        };
        let by_pairs = shown(alloc, check(&ty).err())?;
        let by_tags = shown(alloc, found)?;
        if by_pairs == by_tags {
            return Ok(by_pairs);
        }
        format!(in alloc; "{by_pairs} by pairs, {by_tags} by tags")
    }

    fn set(&mut self, alloc: Global, _name: &str, _text: &[u8]) -> Result<String, AllocError> {
        unknown(alloc)
    }
}

fn shown(alloc: Global, clash: Option<Clash>) -> Result<String, AllocError> {
    match clash {
        Some(clash) => format!(in alloc; "{clash}"),
        None => String::from_str(alloc, "distinct"),
    }
}
