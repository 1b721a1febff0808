//! Octets as they are written in a row: each as itself, but for what a backslash begins.
//!
//! `\n` is a line feed, `\x1F` the octet of two hexadecimal digits, and `\[128*TEXT\]` means as many copies of
//! TEXT, in each of which `\#` is the copy's number, from 1.
ghost use Rattle.std.specs.Prelude.{◌<◌, IfSome};

use std::alloc::{AllocError, Global};

/// The octets that are written, or none where a backslash begins nothing of the above.
pub fn octets_of(alloc: Global, written: &str) -> Result<Option<Vec<u8>>, AllocError> {
    let mut octets = Vec::new(alloc);
    let mut parts = written.split("\\[");
    let Some(first) = parts.next() else {
        return Ok(None);
    };
    if !add(&mut octets, first, 0)? {
        return Ok(None);
    }
    for part in parts {
        if !add_copies(&mut octets, part)? {
            return Ok(None);
        }
    }
    Ok(Some(octets))
}

/// Adds what `NUMBER*TEXT\]REST` means, and answers whether it has that form.
fn add_copies(octets: &mut Vec<u8>, part: &str) -> Result<bool, AllocError> {
    let Some((repeated, rest)) = part.split_once("\\]") else {
        return Ok(false);
    };
    let Some((number, text)) = repeated.split_once('*') else {
        return Ok(false);
    };
    let Ok(number) = number.parse::<u32>() else {
        return Ok(false);
    };
    for copy in 1..=number {
        if !add(octets, text, copy)? {
            return Ok(false);
        }
    }
    add(octets, rest, 0)
}

/// Adds a text in which no copies are made, and answers whether each backslash begins something.
fn add(octets: &mut Vec<u8>, text: &str, copy: u32) -> Result<bool, AllocError> {
    let mut parts = text.split('\\');
    let Some(first) = parts.next() else {
        return Ok(true);
    };
    octets.extend_from_slice(first.as_bytes())?;
    for part in parts {
        if !add_escape(octets, part.as_bytes(), copy)? {
            return Ok(false);
        }
    }
    Ok(true)
}

/// Adds what comes after a backslash.
fn add_escape(octets: &mut Vec<u8>, part: &[u8], copy: u32) -> Result<bool, AllocError> {
    let rest = match part {
        [b'n', rest @ ..] => {
            octets.push(b'\n')?;
            rest
        }
        [b'#', rest @ ..] => {
            octets.extend_from_slice(format!(in *octets.allocator(); "{copy}")?.as_bytes())?;
            rest
        }
        [b'x', high, low, rest @ ..] => {
            let (Some(high), Some(low)) = (digit_of(*high), digit_of(*low)) else {
                return Ok(false);
            };
            octets.push(high << 4 | low)?;
            rest
        }
        _ => return Ok(false),
    };
    octets.extend_from_slice(rest)?;
    Ok(true)
}

fn digit_of(letter: u8) -> Option<u8>
    ensures { IfSome result (λ digit. digit < 16) }
{
    match letter {
        b'0'..=b'9' => Some(letter - b'0'),
        b'A'..=b'F' => Some(letter - b'A' + 10),
        _ => None,
    }
}
