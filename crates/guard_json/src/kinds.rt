//! Which lines and which verdicts there are.
ghost use Rattle.std.specs.Prelude.{◌≡◌};
ghost use Rattle.guard_json.specs.Kinds.{line_kind, is_alone, is_undecided, verdict_kind, verdict_kind_by};

use crate::cutting::{is, is_number, up_to};

/// What a line begins with.
#[derive(Clone, Copy)]
pub enum LineKind {
    /// `link K `, a link's line.
    Linked,
    /// `derguard: `, a fault or a note.
    Said,
    /// A number, that of a frame.
    Numbered,
    /// Anything else.
    Bare,
}

/// What a verdict begins with.
#[derive(Clone, Copy)]
pub enum VerdictKind {
    /// A verdict of one word.
    Alone,
    Undecodable,
    OutsideType,
    DeniedBy,
    NotAllowed,
    /// No verdict.
    Unknown,
}

impl LineKind {
    /// The kind of the line.
    pub fn of(line: &[u8]) -> LineKind
        ensures { result ≡ line_kind line.now }
    {
        let word = up_to(b' ', line);
        if is(word, "link") {
            LineKind::Linked
        } else if is(word, "derguard:") {
            LineKind::Said
        } else if is_number(word) {
            LineKind::Numbered
        } else {
            LineKind::Bare
        }
    }
}

impl VerdictKind {
    /// The kind of the verdict.
    pub fn of(text: &[u8]) -> VerdictKind
        ensures { result ≡ verdict_kind text.now }
    {
        if is_alone(text) {
            return VerdictKind::Alone;
        }
        VerdictKind::of_word(up_to(b' ', text))
    }

    fn of_word(word: &[u8]) -> VerdictKind
        ensures { result ≡ verdict_kind_by word.now }
    {
        if is(word, "undecodable") {
            VerdictKind::Undecodable
        } else if is(word, "outside-type") {
            VerdictKind::OutsideType
        } else if is(word, "denied-by") {
            VerdictKind::DeniedBy
        } else if is(word, "not-allowed") {
            VerdictKind::NotAllowed
        } else {
            VerdictKind::Unknown
        }
    }
}

fn is_alone(text: &[u8]) -> bool
    ensures { result ≡ is_alone text.now }
{
    is(text, "pass") || is(text, "no-rule") || is(text, "unknown-message")
}

/// Whether a frame's line says that no policy decided it, or that it had no memory.
pub fn is_undecided(text: &[u8]) -> bool
    ensures { result ≡ is_undecided text.now }
{
    is(text, "bad-header") || is(text, "no-memory")
}
