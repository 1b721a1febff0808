//! What is written round each text of a group of rows.
use std::alloc::{AllocError, Global};

/// What is written round each text.
#[derive(Drop)]
pub struct Around {
    before: Vec<u8>,
    after: Vec<u8>,
}

impl Around {
    /// Nothing.
    pub fn new(alloc: Global) -> Around {
        Around {
            before: Vec::new(alloc),
            after: Vec::new(alloc),
        }
    }

    /// The text with what is round it.
    pub fn text(&self, alloc: Global, text: &[u8]) -> Result<Vec<u8>, AllocError> {
        let mut whole = Vec::from_slice(alloc, &self.before)?;
        whole.extend_from_slice(text)?;
        whole.extend_from_slice(&self.after)?;
        Ok(whole)
    }

    /// `@before` and `@after`.
    pub fn set(&mut self, alloc: Global, name: &str, text: &[u8]) -> Result<String, AllocError> {
        match name {
            "before" => self.before = Vec::from_slice(alloc, text)?,
            "after" => self.after = Vec::from_slice(alloc, text)?,
            _ => return String::from_str(alloc, "unknown"),
        }
        String::from_str(alloc, "ok")
    }
}
