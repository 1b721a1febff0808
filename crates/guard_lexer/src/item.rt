//! White space, comments and tokens: which of them a text begins with, and how long it is.
ghost use Rattle.std.specs.Prelude.{◌≡◌, length, ◌≤◌, option_map, option_copied};
ghost use Rattle.std.specs.Option.{ForSome};
ghost use Rattle.guard_lexer.specs.inside.Reading.{behind_bits, behind_hexadecimal, found_before, found_digit_string};
ghost use Rattle.guard_lexer.specs.inside.Reading.{item_at, marked_item_at};

use crate::comment::{behind_block_comment, comment_body_len};
use crate::mark::mark_at;
use crate::number::number_len;
use crate::octet::{begins_with_asterisk, begins_with_hyphen, is_white_space};
use crate::strings::{behind_bits, behind_hexadecimal, behind_string};
use crate::token::Mark;
use crate::word::word_len;

/// What an item of a text is by its octets alone.
#[derive(Clone, Copy)]
pub(crate) enum ItemKind {
    /// One octet of white space (X.680 12.1.6).
    WhiteSpace,
    /// From `--` to the next `--` or the end of the line (X.680 12.6.3).
    LineComment,
    /// From `/*` to the `*/` that closes it, with comments inside (X.680 12.6.4).
    BlockComment,
    /// A reserved word or a name (X.680 12.2, 12.3, 12.38).
    Word,
    /// Digits, of any value (X.680 12.8).
    Number,
    /// A string in double quotes (X.680 12.14).
    CharacterString,
    /// A string in quotes before a `B` (X.680 12.10).
    BitString,
    /// A string in quotes before an `H` (X.680 12.12).
    HexadecimalString,
    Mark(Mark),
}

/// The item at the front of a text.
#[derive(Clone, Copy)]
pub(crate) struct FoundItem {
    pub kind: ItemKind,
    /// How many octets it has.
    pub len: usize,
}

/// The longest item at the front of a text; None where no item begins there.
pub(crate) fn item_at(text: &[u8]) -> Option<FoundItem>
    ensures { result ≡ item_at text.now }
{
    let [first, after @ ..] = text else {
        return None;
    };
    let (kind, len) = match *first {
        octet if is_white_space(octet) => (ItemKind::WhiteSpace, 1),
        octet if octet.is_ascii_alphabetic() => (ItemKind::Word, 1 + word_len(after)),
        octet if octet.is_ascii_digit() => (ItemKind::Number, number_len(octet, after)),
        _ => return marked_item_at(text),
    };
    Some(FoundItem { kind, len })
}

/// The longest comment, string or mark at the front of a text; None where none begins there.
fn marked_item_at(text: &[u8]) -> Option<FoundItem>
    ensures { result ≡ marked_item_at text.now }
{
    let [first, after @ ..] = text else {
        return None;
    };
    match *first {
        b'-' if begins_with_hyphen(after) => {
            let len = 2 + comment_body_len(&after[1..]);
            let kind = ItemKind::LineComment;
            Some(FoundItem { kind, len })
        }
        b'"' => item_before(ItemKind::CharacterString, text, behind_string(after)),
        b'\'' => digit_string_at(text, after),
        b'/' if begins_with_asterisk(after) => {
            let left = behind_block_comment(&after[1..]);
            item_before(ItemKind::BlockComment, text, left)
        }
        _ => {
            let mark = mark_at(text)?;
            let len = mark.spelling().len();
            let kind = ItemKind::Mark(mark);
            Some(FoundItem { kind, len })
        }
    }
}

/// The item of a text that ends where what is left begins, if something is.
fn item_before(kind: ItemKind, text: &[u8], left: Option<&[u8]>) -> Option<FoundItem>
    requires { ForSome left (λ left. length left.now ≤ length text.now) }
    ensures { result ≡ option_map (found_before kind text.now) (option_copied left.entry) }
{
    let len = text.len() - left?.len();
    Some(FoundItem { kind, len })
}

/// The bit or hexadecimal string at the front of a text; `after` is what follows its first apostrophe.
fn digit_string_at(text: &[u8], after: &[u8]) -> Option<FoundItem>
    requires { length after.now ≤ length text.now }
    ensures { result ≡ found_digit_string text.now (behind_bits after.now) (behind_hexadecimal after.now) }
{
    match behind_bits(after) {
        Some(left) => item_before(ItemKind::BitString, text, Some(left)),
        None => item_before(ItemKind::HexadecimalString, text, behind_hexadecimal(after)),
    }
}
