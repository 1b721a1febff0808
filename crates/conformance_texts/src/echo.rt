//! Answers with the input itself, so that rows show how rows are written.
use conformance_rows::{Layer, text_of};
use std::alloc::{AllocError, Global};

#[derive(Drop)]
pub struct Echo;

impl Layer for Echo {
    fn new(_alloc: Global) -> Echo {
        Echo
    }

    fn answer(&mut self, alloc: Global, input: &[u8]) -> Result<String, AllocError> {
        String::from_str(alloc, text_of(input))
    }

    /// Any line `@NAME TEXT`.
    fn set(&mut self, alloc: Global, name: &str, text: &[u8]) -> Result<String, AllocError> {
        let text = text_of(text);
        format!(in alloc; "{name} is {text}")
    }
}
