//! `sound`: whether a type is sound.
use crate::notation::{read, type_of};
use crate::type_row::soundness;
use conformance_rows::{Layer, not_read, text_of, unknown};
use std::alloc::{AllocError, Global};

#[derive(Drop)]
pub struct SoundTypes;

impl Layer for SoundTypes {
    fn new(_alloc: Global) -> SoundTypes {
        SoundTypes
    }

    fn answer(&mut self, alloc: Global, input: &[u8]) -> Result<String, AllocError> {
        match read(type_of(alloc, text_of(input)))? {
            Some(ty) => soundness(alloc, &ty),
            None => not_read(alloc),
        }
    }

    fn set(&mut self, alloc: Global, _name: &str, _text: &[u8]) -> Result<String, AllocError> {
        unknown(alloc)
    }
}
