//! The entries of a policy's text, and their keys.
ghost use Rattle.std.specs.Prelude.{◌≡◌};
ghost use Rattle.guard_policy.specs.Documents.{key_text};

use std::fmt;

/// A place in the text of a policy, which prints as `top`, `message 1` or `rule 1`.
#[derive(Clone, Copy, Debug, PartialEq, Eq)]
pub enum Entry {
    Top,
    /// The message of this number, from 1, in the order of the text.
    Message(usize),
    /// The rule of this number, from 1, in the order of the text.
    Rule(usize),
}

impl fmt::Display for Entry {
    fn fmt<W: fmt::Write>(&self, f: &mut fmt::Formatter<W>) -> fmt::Result {
        match self {
            Entry::Top => f.write_str("top"),
            Entry::Message(number) => write!(f, "message {number}"),
            Entry::Rule(number) => write!(f, "rule {number}"),
        }
    }
}

/// A key of an entry, which prints as it is written.
#[derive(Clone, Copy, Debug, PartialEq, Eq)]
pub enum Key {
    Modules,
    Message,
    Rule,
    Name,
    Module,
    TypeName,
    Effect,
    From,
    To,
}

impl Key {
    /// The key as it is written in the text of a policy: `modules`, and `type` for `TypeName`.
    pub fn text(self) -> &'static str
        ensures { result.now ≡ key_text self }
    {
        match self {
            Key::Modules => "modules",
            Key::Message => "message",
            Key::Rule => "rule",
            Key::Name => "name",
            Key::Module => "module",
            Key::TypeName => "type",
            Key::Effect => "effect",
            Key::From => "from",
            Key::To => "to",
        }
    }
}

impl fmt::Display for Key {
    fn fmt<W: fmt::Write>(&self, f: &mut fmt::Formatter<W>) -> fmt::Result {
        f.write_str(self.text())
    }
}
