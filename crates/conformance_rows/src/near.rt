//! Octets, each of their proper prefixes, and the octets with one of them changed: whether two ways to judge them
//! agree.
use crate::digits::in_hexadecimal;
use std::alloc::{AllocError, Global};

/// The most octets of which each prefix and each change is tried.
const MOST: usize = 2_000;

/// How many octet strings are shown of those on which the answers differ.
const MOST_SHOWN: u32 = 8;

/// What an octet is changed to, besides the next one and the one with another first bit.
const OTHERS: [u8; 6] = [0x00, 0xFF, 0x7F, 0x80, 0x30, 0x05];

/// Two ways to judge octets.
pub trait Judges {
    /// Whether they agree.
    fn agree(&self, alloc: Global, octets: &[u8]) -> Result<bool, AllocError>;
}

/// How many octet strings were tried, and on how many of them the answers differ.
#[derive(Drop)]
pub struct Compared {
    pub strings: u32,
    pub differing: u32,
    /// The first of those on which they differ, a line each.
    pub shown: String,
}

impl Compared {
    /// None yet.
    pub fn new(alloc: Global) -> Compared {
        Compared {
            strings: 0,
            differing: 0,
            shown: String::new(alloc),
        }
    }

    /// Tries octets; and where they aren't too many, each proper prefix, and each octet changed to each other value.
    pub fn try_around<J: Judges>(
        &mut self,
        alloc: Global,
        judges: &J,
        octets: &[u8],
    ) -> Result<(), AllocError> {
        self.try_one(alloc, judges, octets)?;
        if octets.len() > MOST {
            return Ok(());
        }
        for length in 0..octets.len() {
            self.try_one(alloc, judges, &octets[..length])?;
        }
        self.try_changes(alloc, judges, octets)
    }

    fn try_changes<J: Judges>(
        &mut self,
        alloc: Global,
        judges: &J,
        octets: &[u8],
    ) -> Result<(), AllocError> {
        let mut changed = Vec::from_slice(alloc, octets)?;
        for (place, octet) in octets.iter().enumerate() {
            self.try_changes_at(alloc, judges, &mut changed, place)?;
            set_at(&mut changed, place, *octet);
        }
        Ok(())
    }

    /// Tries the octets with each other value at a place.
    fn try_changes_at<J: Judges>(
        &mut self,
        alloc: Global,
        judges: &J,
        octets: &mut Vec<u8>,
        place: usize,
    ) -> Result<(), AllocError> {
        let before = octets.get(place).copied().unwrap_or(0);
        set_at(octets, place, before.wrapping_add(1));
        self.try_one(alloc, judges, octets)?;
        set_at(octets, place, before ^ 0x80);
        self.try_one(alloc, judges, octets)?;
        for other in OTHERS {
            if other != before {
                set_at(octets, place, other);
                self.try_one(alloc, judges, octets)?;
            }
        }
        Ok(())
    }

    fn try_one<J: Judges>(
        &mut self,
        alloc: Global,
        judges: &J,
        octets: &[u8],
    ) -> Result<(), AllocError> {
        self.strings = self.strings.saturating_add(1);
        if judges.agree(alloc, octets)? {
            return Ok(());
        }
        self.differing = self.differing.saturating_add(1);
        if self.differing <= MOST_SHOWN {
            let digits = in_hexadecimal(alloc, octets)?;
            write!(self.shown, "    {digits}\n")?;
        }
        Ok(())
    }
}

fn set_at(octets: &mut Vec<u8>, place: usize, octet: u8) {
    if let Some(found) = octets.get_mut(place) {
        *found = octet;
    }
}
