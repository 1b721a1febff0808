//! Completes a frame that an earlier piece began.

ghost use Rattle.std.specs.Prelude.{◌≡◌, ◌<◌, ◌≤◌, ◌+◌, ℕ, List, min, ◌++◌, length, take, vec_capacity};
ghost use Rattle.guard_frames.specs.Frames.{IsFrame, IsUnfinished, stated_length};

use crate::cut::{LENGTH_OCTETS, LONGEST_BODY, allowed_length};

/// How many octets a link can hold: those of the longest frame.
pub const LONGEST_FRAME: usize = LENGTH_OCTETS + LONGEST_BODY;

/// Appends the first octets of the piece, so many at most, and answers how many. Condition: there is room for so many.
pub fn hold_some(held: &mut Vec<u8>, piece: &[u8], most: usize) -> usize
    requires { length held.old.items + most ≤ vec_capacity held.old }
    ensures within { result ≤ length piece.now }
    ensures most { result ≡ min most (length piece.now) }
    ensures held { held.new.items ≡ held.old.items ++ take result piece.now }
    ensures room { vec_capacity held.old ≤ vec_capacity held.new }
{
    let count = most.min(piece.len());
    match held.extend_from_slice(&piece[..count]) {
        Ok(()) => count,
        Err(_) => unreachable!(),
    }
}

/// Appends the octets of the piece that the held octets lack to be a frame, and answers how many. Conditions: the held
/// octets are no whole frame yet, and there is room for the longest one.
pub fn complete(held: &mut Vec<u8>, piece: &[u8]) -> usize
    requires unfinished { IsUnfinished held.old.items }
    requires room { 1048580 ≤ vec_capacity held.old }
    ensures within { result ≤ length piece.now }
    ensures held { held.new.items ≡ held.old.items ++ take result piece.now }
    ensures room { 1048580 ≤ vec_capacity held.new }
    ensures all { IsUnfinished held.new.items → result ≡ length piece.now }
    ensures no_more { 4 ≤ length held.new.items → stated_length held.new.items ≤ 1048576 →
        length held.new.items ≤ stated_length held.new.items + 4 }
{
    let mut used = 0;
    if held.len() < 4 {
        used = hold_some(held, piece, 4 - held.len());
        if held.len() < 4 {
            return used;
        }
    }
    let Some(body) = allowed_length(held) else {
        return used;
    };
    let lacking = body + 4 - held.len();
    used + hold_some(held, &piece[used..], lacking)
}
