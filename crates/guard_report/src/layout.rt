//! What is in braces: each part at its place, with commas between.
ghost use Rattle.std.specs.Prelude.{◌≡◌, ◌++◌, OnOk};
ghost use Rattle.guard_report.specs.Layouts.{inside, new_line, before_part, closing};

use super::words::add;
use guard_model::OutOfMemory;

/// How the parts of what is in braces are laid out.
#[derive(Clone, Copy, Debug, PartialEq, Eq)]
pub enum Layout {
    /// All on one line: `{qty 11, side buy}`.
    Line,
    /// Each on a line of its own, one level further in than the whole, which is at this level. A level is two
    /// spaces.
    Lines(u8),
}

impl Layout {
    /// The layout of the parts.
    pub(crate) fn inside(self) -> Layout
        ensures { result ≡ inside self }
    {
        match self {
            Layout::Line => Layout::Line,
            Layout::Lines(level) => Layout::Lines(level.saturating_add(1)),
        }
    }
}

/// Appends what comes before a part that is laid out so: a comma if it isn't the first one, and its place.
pub(crate) fn add_before_part(
    text: &mut Vec<u8>,
    layout: Layout,
    is_first: bool,
) -> Result<(), OutOfMemory>
    ensures { OnOk result (text.new.items ≡ text.old.items ++ before_part layout is_first) }
{
    match (layout, is_first) {
        (Layout::Line, true) => Ok(()),
        (Layout::Line, false) => add(text, b", "),
        (Layout::Lines(level), true) => add_new_line(text, level),
        (Layout::Lines(level), false) => {
            add(text, b",")?;
            add_new_line(text, level)
        }
    }
}

/// Appends the brace that closes the whole; `is_empty` where no part is before it.
pub(crate) fn add_closing(
    text: &mut Vec<u8>,
    layout: Layout,
    is_empty: bool,
) -> Result<(), OutOfMemory>
    ensures { OnOk result (text.new.items ≡ text.old.items ++ closing layout is_empty) }
{
    match (layout, is_empty) {
        (Layout::Lines(level), false) => {
            add_new_line(text, level)?;
            add(text, b"}")
        }
        _ => add(text, b"}"),
    }
}

/// Appends a line feed, and two spaces for each level.
pub(crate) fn add_new_line(text: &mut Vec<u8>, level: u8) -> Result<(), OutOfMemory>
    ensures { OnOk result (text.new.items ≡ text.old.items ++ new_line level) }
{
    add(text, b"\n")?;
    for _ in 0..level {
        add(text, b"  ")?;
    }
    Ok(())
}
