//! A board that keeps what it is asked to show.
ghost use Rattle.std.specs.Prelude.{None};

use conformance_rows::text_of;
use guard_streams::Board;
use std::alloc::{AllocError, Global};

/// The texts that were shown, in order, each behind its path.
#[derive(Drop)]
pub struct Shelf {
    texts: Vec<(String, String)>,
    /// How many texts it shows before it fails.
    most: usize,
}

impl Shelf {
    pub fn new(alloc: Global, most: usize) -> Shelf {
        Shelf {
            texts: Vec::new(alloc),
            most,
        }
    }

    /// The text that was shown last, behind its path.
    pub fn last(&self, alloc: Global) -> Result<String, AllocError> {
        match self.texts.last() {
            Some((path, text)) => format!(in alloc; "{path} <{text}>"),
            None => format!(in alloc; "none"),
        }
    }

    /// How many texts were shown, and of each one the lines of what isn't 0, without the last, which says which policy is
    /// in force.
    pub fn each(&self, alloc: Global) -> Result<String, AllocError> {
        let mut all = format!(in alloc; "{}", self.texts.len())?;
        for (_, text) in &self.texts {
            all.push_str(" <")?;
            for line in text.lines() {
                if is_counted(line) {
                    all.push_str(line.strip_prefix("derguard_").unwrap_or(line))?;
                    all.push_str(", ")?;
                }
            }
            all.push_str(">")?;
        }
        Ok(all)
    }
}

/// Whether the line is one of a counter that isn't 0.
fn is_counted(line: &str) -> bool {
    !line.starts_with('#') && !line.starts_with("derguard_policy_info") && !line.ends_with(" 0")
}

impl Board for Shelf {
    ghost shown = { λ shelf. None };

    fn is_due(&mut self) -> bool {
        true
    }

    fn show(&mut self, alloc: Global, path: &str, text: &[u8]) -> bool {
        if self.texts.len() >= self.most {
            return false;
        }
        match kept(alloc, path, text) {
            Ok(both) => self.texts.push(both).is_ok(),
            Err(_) => false,
        }
    }
}

fn kept(alloc: Global, path: &str, text: &[u8]) -> Result<(String, String), AllocError> {
    Ok((
        String::from_str(alloc, path)?,
        String::from_str(alloc, text_of(text))?,
    ))
}
