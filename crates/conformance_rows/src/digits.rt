//! Octets in hexadecimal digits.
use std::alloc::{AllocError, Global};

fn digit_of(letter: u8) -> Option<u8> {
    match letter {
        b'0'..=b'9' => Some(letter - b'0'),
        b'A'..=b'F' => Some(letter - b'A' + 10),
        _ => None,
    }
}

/// The octets that hexadecimal digits write, two for each, the last one filled with zeros; spaces are for reading. None
/// where another character is there.
pub fn octets_in(alloc: Global, text: &str) -> Result<Option<Vec<u8>>, AllocError> {
    let mut octets = Vec::new(alloc);
    let mut high = None;
    for letter in text.as_bytes() {
        match (digit_of(*letter), high) {
            (Some(digit), None) => high = Some(u8::wrapping_mul(digit, 16)),
            (Some(digit), Some(upper)) => {
                octets.push(upper | digit)?;
                high = None;
            }
            (None, _) if *letter == b' ' => {}
            _ => return Ok(None),
        }
    }
    if let Some(upper) = high {
        octets.push(upper)?;
    }
    Ok(Some(octets))
}

/// The octets in hexadecimal digits.
pub fn in_hexadecimal(alloc: Global, octets: &[u8]) -> Result<String, AllocError> {
    let mut text = String::new(alloc);
    for octet in octets {
        write!(text, "{octet:02X}")?;
    }
    Ok(text)
}
