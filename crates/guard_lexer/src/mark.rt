//! Which mark a text begins with.
ghost use Rattle.std.specs.Prelude.{◌≡◌, find};
ghost use Rattle.guard_lexer.specs.inside.Reading.{stands_at, mark_at};

use crate::spelling::MARKS;
use crate::token::Mark;

/// The longest mark at the front of a text; None where none begins there.
pub(crate) fn mark_at(text: &[u8]) -> Option<Mark>
    ensures { result ≡ mark_at text.now }
{
    find_mark(text, &MARKS)
}

fn find_mark(text: &[u8], table: &[Mark]) -> Option<Mark>
    ensures { result ≡ find (stands_at text.now) table.now }
{
    for mark in table {
        if text.starts_with(mark.spelling()) {
            return Some(*mark);
        }
    }
    None
}
