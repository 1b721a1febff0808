//! Faults of syntax.
ghost use Rattle.std.specs.Prelude.{◌≡◌, take};

use arrayvec::ArrayVec;
use guard_model::Site;
use std::fmt;
use std::fmt::Write;
use thiserror::Error;

/// Why a text has no tree. It is shown as its number, its name and its fields, separated by spaces.
#[derive(Debug, Drop, Error)]
pub enum SyntaxFault {
    /// A token that no module has after the tokens before it, or the end of the text where a module would go on.
    #[error("P1 Unexpected {0}")]
    Unexpected(Site),
    /// A token of a form that is left out, where a module would go on otherwise. Where a comma comes directly before an
    /// extension or an exception, it is the latter that is named.
    #[error("P2 Unsupported {0} {1}")]
    Unsupported(Spelling, Site),
    /// The first token of a type, value or set that is within more than 128 others.
    #[error("P3 TooDeep {0}")]
    TooDeep(Site),
    /// Memory ran out. A call may answer so whatever the text is.
    #[error("OutOfMemory")]
    OutOfMemory,
}

/// The spelling of a token of a form that is left out: its first 16 octets. None of these tokens is longer.
#[derive(Debug, Drop)]
pub struct Spelling {
    pub octets: ArrayVec<u8, 16>,
}

impl Spelling {
    /// The first 16 octets.
    pub(crate) fn of(octets: &[u8]) -> Spelling
        ensures { result.octets.items ≡ take 16 octets.now }
    {
        let mut kept = ArrayVec::new();
        kept.try_extend_from_slice(&octets[..octets.len().min(16)])
            .unwrap();
        Spelling { octets: kept }
    }
}

impl fmt::Display for Spelling {
    fn fmt<W: fmt::Write>(&self, f: &mut fmt::Formatter<W>) -> fmt::Result {
        for octet in self.octets.as_slice() {
            f.write_char(char::from(*octet))?;
        }
        Ok(())
    }
}
