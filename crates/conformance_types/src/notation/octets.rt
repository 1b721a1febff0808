//! Octets in hexadecimal digits, and bits.
use crate::notation::unread::Unread;
use conformance_rows::octets_in;
use guard_model::Bits;
use std::alloc::Global;
use std::sync::ArcSlice;

/// The octets that hexadecimal digits write, two for each, the last one filled with zeros; spaces are for reading.
pub fn octets_of(alloc: Global, text: &str) -> Result<Vec<u8>, Unread> {
    match octets_in(alloc, text)? {
        Some(octets) => Ok(octets),
        None => Err(Unread::Malformed),
    }
}

/// The string of bits that hexadecimal digits write, four for each.
pub fn bits_of_digits(alloc: Global, text: &str) -> Result<Bits, Unread> {
    let digits = text.chars().filter(|c| *c != ' ').count();
    Ok(Bits {
        octets: ArcSlice::from_vec(octets_of(alloc, text)?)?,
        unused: if digits % 2 == 0 { 0 } else { 4 },
    })
}

/// The string of bits that zeros and ones write.
pub fn bits_of(alloc: Global, text: &str) -> Result<Bits, Unread> {
    let mut octets = Vec::new(alloc);
    let mut octet = 0u8;
    // the weight of the next bit, and how many bits of the octet come from it on
    let mut weight = 128u8;
    let mut unused = 0u8;
    for letter in text.as_bytes() {
        match letter {
            b'0' => {}
            b'1' => octet |= weight,
            _ => return Err(Unread::Malformed),
        }
        if weight == 1 {
            octets.push(octet)?;
            octet = 0;
            weight = 128;
            unused = 0;
        } else {
            unused = if weight == 128 {
                7
            } else {
                unused.wrapping_sub(1)
            };
            weight /= 2;
        }
    }
    if unused > 0 {
        octets.push(octet)?;
    }
    Ok(Bits {
        octets: ArcSlice::from_vec(octets)?,
        unused,
    })
}
