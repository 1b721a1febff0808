//! `guard_tagging`: how many types the definitions of a list of modules are made of, or the first fault.
use crate::asking::{AsksNames, ask_names};
use crate::large::large;
use crate::skeletons::number_of_types;
use conformance_rows::{Layer, text_of, unknown};
use guard_names::Names;
use std::alloc::{AllocError, Global};

/// What the rows ask.
#[derive(Drop)]
enum Asked {
    /// How many types the definitions in these texts are made of.
    Types,
    /// How many types the definitions in texts are made of that a word makes.
    Large,
}

#[derive(Drop)]
pub struct TaggingRows {
    asked: Asked,
}

/// How many types the definitions are made of.
#[derive(Clone, Copy)]
struct Count;

impl AsksNames for Count {
    fn answer_on(&self, alloc: Global, names: &Names) -> Result<String, AllocError> {
        match number_of_types(alloc, names) {
            Ok(number) => format!(in alloc; "ok {number}"),
            Err(fault) => format!(in alloc; "{fault}"),
        }
    }
}

impl Layer for TaggingRows {
    fn new(_alloc: Global) -> TaggingRows {
        TaggingRows {
            asked: Asked::Types,
        }
    }

    fn answer(&mut self, alloc: Global, input: &[u8]) -> Result<String, AllocError> {
        let input = text_of(input);
        match self.asked {
            Asked::Types => ask_names(alloc, input, &Count),
            Asked::Large => ask_names(alloc, &large(alloc, input)?, &Count),
        }
    }

    /// `@ask types`, `@ask large`.
    fn set(&mut self, alloc: Global, name: &str, text: &[u8]) -> Result<String, AllocError> {
        match (name, text_of(text)) {
            ("ask", "types") => self.asked = Asked::Types,
            ("ask", "large") => self.asked = Asked::Large,
            _ => return unknown(alloc),
        }
        String::from_str(alloc, "ok")
    }
}
