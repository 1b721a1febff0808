//! `CharKind::has`: the codes of all characters that a kind of character string may have, as ranges.
use crate::typed::TypeRow;
use conformance_rows::{Layer, not_read, text_of, unknown};
use guard_model::{CharKind, Kind};
use std::alloc::{AllocError, Global};

#[derive(Drop)]
pub struct Alphabets;

/// A code after that of the last character.
const END: u32 = 0x11_0000;

/// Whether the code is that of a character, and the kind has it.
fn is_in(kind: CharKind, code: u32) -> bool {
    char::from_u32(code).is_some() && kind.has(code)
}

/// The ranges of codes that the kind has.
fn ranges_of(alloc: Global, kind: CharKind) -> Result<String, AllocError> {
    let mut text = String::new(alloc);
    let mut first = None;
    for code in 0..=END {
        match first {
            None if is_in(kind, code) => first = Some(code),
            Some(low) if !is_in(kind, code) => {
                push_range(&mut text, low, code.saturating_sub(1))?;
                first = None;
            }
            _ => {}
        }
    }
    Ok(text)
}

fn push_range(text: &mut String, low: u32, high: u32) -> Result<(), AllocError> {
    if !text.is_empty() {
        text.push(' ')?;
    }
    if low == high {
        write!(text, "{low}")
    } else {
        write!(text, "{low}..{high}")
    }
}

impl Layer for Alphabets {
    fn new(_alloc: Global) -> Alphabets {
        Alphabets
    }

    /// The type of a kind of character string.
    fn answer(&mut self, alloc: Global, input: &[u8]) -> Result<String, AllocError> {
        let mut row = TypeRow::new();
        let answer = row.set(alloc, text_of(input))?;
        match row.ty() {
            Some(ty) => match ty.kind {
                Kind::Chars(kind) => ranges_of(alloc, kind),
                _ => not_read(alloc),
            },
            None => Ok(answer),
        }
    }

    fn set(&mut self, alloc: Global, _name: &str, _text: &[u8]) -> Result<String, AllocError> {
        unknown(alloc)
    }
}
