//! Where something is: in a module text, or in a value.
use crate::limits::DEEPEST_NESTING;
use arrayvec::ArrayVec;
use std::fmt;

/// A place in a module text. All three numbers count from 1.
#[derive(Clone, Copy, Debug, PartialEq, Eq)]
pub struct Site {
    /// The place of the text in the list of texts, from 1.
    pub text: u32,
    /// 1 plus the line feeds before the place.
    pub line: u32,
    /// 1 plus the octets since the last line feed.
    pub column: u32,
}

impl fmt::Display for Site {
    fn fmt<W: fmt::Write>(&self, f: &mut fmt::Formatter<W>) -> fmt::Result {
        write!(f, "{}:{}:{}", self.text, self.line, self.column)
    }
}

/// One step from a value to a value inside it.
#[derive(Clone, Copy, Debug, PartialEq, Eq)]
pub enum Step {
    /// To the component or alternative at this place of the written list, from 0.
    Component(u8),
    /// To the element at this place, from 0.
    Element(u32),
}

impl Default for Step {
    fn default() -> Step {
        Step::Component(0)
    }
}

/// Prints `.1` for a step to a component, `[0]` for one to an element.
impl fmt::Display for Step {
    fn fmt<W: fmt::Write>(&self, f: &mut fmt::Formatter<W>) -> fmt::Result {
        match self {
            Step::Component(place) => write!(f, ".{place}"),
            Step::Element(place) => write!(f, "[{place}]"),
        }
    }
}

/// The way from a value to a value inside it, the outermost step first; empty for the value itself. A path has room for
/// the deepest nesting of this profile.
pub type Path = ArrayVec<Step, DEEPEST_NESTING>;

/// Prints a path from `$` on: `$.1[0].2`.
#[derive(Clone, Copy)]
pub struct PathText<'a>(pub &'a Path);

impl fmt::Display for PathText<'_> {
    fn fmt<W: fmt::Write>(&self, f: &mut fmt::Formatter<W>) -> fmt::Result {
        write!(f, "$")?;
        for step in self.0.as_slice() {
            write!(f, "{step}")?;
        }
        Ok(())
    }
}
