//! What answers the rows of a file.
use std::alloc::{AllocError, Global};
use std::str;

/// What answers the rows of a file.
pub trait Layer: Drop {
    /// The layer at the head of a file, where nothing is set.
    fn new(alloc: Global) -> Self;

    /// The answer to the input of a row.
    fn answer(&mut self, alloc: Global, input: &[u8]) -> Result<String, AllocError>;

    /// Sets for the rows below what the line `@NAME TEXT` names, and answers whether that was possible, or what the
    /// layer has to say of it.
    fn set(&mut self, alloc: Global, name: &str, text: &[u8]) -> Result<String, AllocError>;
}

/// The input as text, for a layer that reads nothing else.
pub fn text_of(input: &[u8]) -> &str {
    match str::from_utf8(input) {
        Ok(text) => text,
        Err(_) => "(not UTF-8)",
    }
}

/// What isn't written as it should be.
pub fn not_read(alloc: Global) -> Result<String, AllocError> {
    String::from_str(alloc, "(not read)")
}

/// A directive that a layer doesn't have.
pub fn unknown(alloc: Global) -> Result<String, AllocError> {
    String::from_str(alloc, "unknown")
}
