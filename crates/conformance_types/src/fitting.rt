//! `fits`: whether a value, written with a type of its own, fits the type that is set.
use crate::notation::{read, typed_value_of};
use crate::type_row::set_type;
use conformance_rows::{Layer, not_read, text_of};
use guard_der::fits;
use guard_model::Ty;
use std::alloc::{AllocError, Global};

#[derive(Drop)]
pub struct Fitting {
    ty: Option<Box<Ty>>,
}

impl Layer for Fitting {
    fn new(_alloc: Global) -> Fitting {
        Fitting { ty: None }
    }

    fn answer(&mut self, alloc: Global, input: &[u8]) -> Result<String, AllocError> {
        let (Some(ty), Some(value)) = (&self.ty, read(typed_value_of(alloc, text_of(input)))?)
        else {
            return not_read(alloc);
        };
        match fits(alloc, ty, &value) {
            Ok(true) => String::from_str(alloc, "fits"),
            Ok(false) => String::from_str(alloc, "does not fit"),
            Err(_) => Err(AllocError),
        }
    }

    fn set(&mut self, alloc: Global, name: &str, text: &[u8]) -> Result<String, AllocError> {
        set_type(alloc, &mut self.ty, name, text)
    }
}
