//! Comments.
ghost use Rattle.std.specs.Prelude.{◌≡◌, ◌≤◌, length, option_copied, IfSome};
ghost use Rattle.guard_lexer.specs.inside.Reading.{comment_body_len, behind_block_comment};

use crate::octet::{begins_comment, begins_with_hyphen, ends_comment, is_line_end};

/// How many octets belong to a line comment after the hyphens that open it.
pub(crate) fn comment_body_len(text: &[u8]) -> usize
    ensures reads { result ≡ comment_body_len text.now }
    ensures within { result ≤ length text.now }
{
    let mut n = 0;
    while n < text.len() && !is_line_end(text[n]) {
        if text[n] == b'-' && begins_with_hyphen(&text[n + 1..]) {
            return n + 2;
        }
        n += 1;
    }
    n
}

/// What is left after a comment that is closed; `text` begins after the `/*` that opens it.
pub(crate) fn behind_block_comment(text: &[u8]) -> Option<&[u8]>
    ensures reads { option_copied result ≡ behind_block_comment 0 text.now }
    ensures within { IfSome result (λ left. length left.now ≤ length text.now) }
{
    let mut inner: usize = 0;
    let mut left = text;
    while left.len() >= 2 {
        if begins_comment(left) {
            inner += 1;
            left = &left[2..];
        } else if !ends_comment(left) {
            left = &left[1..];
        } else if inner == 0 {
            return Some(&left[2..]);
        } else {
            inner -= 1;
            left = &left[2..];
        }
    }
    None
}
