//! Why records aren't taken to their end.

/// Why records aren't taken to their end, where links are guarded or the octets of one are read.
#[derive(Clone, Copy, Debug, PartialEq, Eq)]
pub enum Stop {
    /// What comes in is no record, or is cut short by the end.
    BadRecord,
    /// Standard input failed, or was asked too often.
    ReadFailed,
    /// Standard output failed.
    WriteFailed,
    /// Standard error failed.
    ErrorFailed,
}
