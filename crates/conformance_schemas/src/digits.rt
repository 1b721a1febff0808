//! Octets in hexadecimal digits.
ghost use Rattle.std.specs.Prelude.{◌≤◌, length};

use guard_der::header;
use std::alloc::{AllocError, Global};

/// The octets in hexadecimal digits, with a space after each element, and after the header of each constructed one.
pub fn digits_of(alloc: Global, octets: &[u8]) -> Result<String, AllocError> {
    let mut text = String::new(alloc);
    let mut left = octets;
    for _ in 0..octets.len() {
        let (front, rest) = left.split_at(end_of_front(left));
        if !text.is_empty() {
            text.push(' ')?;
        }
        push_digits(&mut text, front)?;
        left = rest;
        if left.is_empty() {
            break;
        }
    }
    Ok(text)
}

/// Where the first element ends, or its header if it is constructed.
fn end_of_front(octets: &[u8]) -> usize
    ensures { result ≤ length octets.now }
{
    let end = match header(octets, 0) {
        Ok(header) if header.constructed => header.contents,
        Ok(header) => header.end,
        Err(_) => octets.len(),
    };
    end.min(octets.len())
}

fn push_digits(text: &mut String, octets: &[u8]) -> Result<(), AllocError> {
    for octet in octets {
        write!(text, "{octet:02X}")?;
    }
    Ok(())
}
