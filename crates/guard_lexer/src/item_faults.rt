//! What can be wrong where an item is read.
ghost use Rattle.std.specs.Prelude.{◌≡◌, ◌+◌, ◌<◌, ◌≤◌, ◌^◌, ◌++◌, ℕ, List, length, take, drop, option_map, is_some};
ghost use Rattle.guard_lexer.specs.Items.{IsItem};
ghost use Rattle.guard_lexer.specs.Sites.{site_after};
ghost use Rattle.guard_lexer.specs.Lexing.{is_lone_hyphen, item_fault, no_item_fault};

use crate::fault::LexFault;
use crate::item::{FoundItem, ItemKind};
use crate::number::is_below_limit;
use crate::octet::{begins_with_digit, begins_with_hyphen, begins_with_letter_or_digit};
use crate::site::site_behind;
use guard_model::Site;

/// What is wrong with the item at the front of what is left of a text, which begins at the site.
pub(crate) fn item_fault(found: FoundItem, left: &[u8], site: Site) -> Option<LexFault>
    requires within { found.len ≤ length left.now }
    requires item { IsItem found.kind (take found.len left.now) (drop found.len left.now) }
    requires line { site.line + length left.now < 2 ^ 32 }
    requires column { site.column + length left.now < 2 ^ 32 }
    ensures found { is_some result
        ≡ is_some (item_fault found.kind (take found.len left.now) (drop found.len left.now)) }
    ensures named { (before : List ℕ) → site ≡ site_after site.text before → result
        ≡ option_map (λ wrong. wrong.fault (site_after site.text (before ++ take wrong.offset left.now)))
        (item_fault found.kind (take found.len left.now) (drop found.len left.now)) }
{
    let (octets, after) = left.split_at(found.len);
    match found.kind {
        ItemKind::Word if is_lone_hyphen(after) => Some(LexFault::BadHyphen(site)),
        ItemKind::Number if !is_below_limit(octets) => Some(LexFault::NumberTooLarge(site)),
        ItemKind::Number if begins_with_digit(after) => {
            Some(LexFault::BadCharacter(site_behind(site, octets)))
        }
        _ => None,
    }
}

/// What is wrong where no item begins.
pub(crate) fn no_item_fault(left: &[u8], site: Site) -> LexFault
    ensures { ((no_item_fault left.now).offset ≡ 0) × (result ≡ (no_item_fault left.now).fault site) }
{
    match left {
        [b'"' | b'\'', ..] => LexFault::BadString(site),
        [b'/', b'*', ..] => LexFault::OpenComment(site),
        _ => LexFault::BadCharacter(site),
    }
}

fn is_lone_hyphen(text: &[u8]) -> bool
    ensures { result ≡ is_lone_hyphen text.now }
{
    matches!(text, [b'-', after @ ..] if !begins_with_letter_or_digit(after) && !begins_with_hyphen(after))
}
