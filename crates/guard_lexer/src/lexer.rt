//! From a text to its tokens.
ghost use Rattle.std.specs.Prelude.{◌≡◌, ◌+◌, ◌<◌, ◌≤◌, ◌^◌, ◌⊎◌, ℕ, [], List, length, IfOk, IfErr, Ok, Err};
ghost use Rattle.guard_model.specs.Answer.{Gives};
ghost use Rattle.guard_lexer.specs.Sites.{site_after};
ghost use Rattle.guard_lexer.specs.Spans.{AreSpans};
ghost use Rattle.guard_lexer.specs.Lexing.{Item, kind_of, tokens_from, IsCut, FaultAt, Lexes};
ghost use Rattle.guard_lexer.specs.Lexing.{FirstFault, longest_text, fault_named};
ghost use Rattle.guard_lexer.specs.inside.Reading.{IsFaultlessItem, IsFaultAt};
ghost use Rattle.guard_lexer.specs.declared.fault.LexFault.TheVariants.{OutOfMemory};

use crate::fault::LexFault;
use crate::item::{FoundItem, ItemKind, item_at};
use crate::item_faults::{item_fault, no_item_fault};
use crate::site::site_behind;
use crate::token::{Token, TokenKind};
use crate::word::word_kind;
use guard_model::Site;
use std::alloc::Global;
use std::str;

/// The greatest number of octets of a text.
pub const LONGEST_TEXT: usize = 1_048_576;

/// The tokens of a text, in order. White space and comments are no tokens. `place` is the place of the text in the list
/// that was handed in, from 1, and only the sites show it.
///
/// A text of more than 1,048,576 octets is refused with TextTooLong, else one that isn't UTF-8 with NotUtf8, else one
/// that has another fault with the leftmost of them. OutOfMemory may come in place of any answer.
pub fn tokens(alloc: Global, place: u32, text: &[u8]) -> Result<Vec<Token>, LexFault>
    // What is answered are the tokens of the text.
    ensures tokens { IfOk result (λ v. Lexes place text.now v.items) }
    // Each is a span of the text, spelled as its kind says.
    ensures spans { IfOk result (λ v. AreSpans text.now v.items) }
    // What is refused has this fault first.
    ensures fault { IfErr result (λ f. (f ≡ OutOfMemory) ⊎ FirstFault place text.now f) }
    // The tokens of a text are answered, and its first fault is, unless memory runs out.
    ensures only { (ts : List Token) → Lexes place text.now ts → Gives (λ v. v.items) fault_named result (Ok ts) }
    ensures refused { (f : LexFault) → FirstFault place text.now f → Gives (λ v. v.items) fault_named result (Err f) }
{
    read(alloc, place, text)
}

/// The tokens of a text, or its first fault. What else `tokens` ensures follows from these two clauses by laws on the
/// definitions.
fn read(alloc: Global, place: u32, text: &[u8]) -> Result<Vec<Token>, LexFault>
    ensures tokens { IfOk result (λ v. Lexes place text.now v.items) }
    ensures fault { IfErr result (λ f. (f ≡ OutOfMemory) ⊎ FirstFault place text.now f) }
{
    if text.len() > LONGEST_TEXT {
        return Err(LexFault::TextTooLong(place));
    }
    if str::from_utf8(text).is_err() {
        return Err(LexFault::NotUtf8(place));
    }
    read_items(alloc, place, text)
}

/// The tokens among the items of a text.
fn read_items(alloc: Global, place: u32, text: &[u8]) -> Result<Vec<Token>, LexFault>
    requires { length text.now ≤ longest_text }
    ensures tokens { IfOk result (λ v. (items : List Item) × IsCut text.now items []
        × (v.items ≡ tokens_from place text.now 0 items)) }
    ensures fault { IfErr result (λ f. (f ≡ OutOfMemory) ⊎ FaultAt place text.now f) }
{
    let mut tokens = Vec::new(alloc);
    let mut site = Site {
        text: place,
        line: 1,
        column: 1,
    };
    let mut at = 0;
    while at < text.len() {
        let left = &text[at..];
        let item = read_item(left, site)?;
        let (octets, _) = left.split_at(item.len);
        let end = at + item.len;
        if let Some(kind) = kind_of(item.kind, octets) {
            tokens.push(Token {
                kind,
                start: at as u32,
                end: end as u32,
                site,
            })?;
        }
        site = site_behind(site, octets);
        at = end;
    }
    Ok(tokens)
}

/// The longest item at the front of what is left of a text, which begins at the site, if it isn't at fault.
fn read_item(left: &[u8], site: Site) -> Result<FoundItem, LexFault>
    requires some { 0 < length left.now }
    requires line { site.line + length left.now < 2 ^ 32 }
    requires column { site.column + length left.now < 2 ^ 32 }
    ensures item { IfOk result (IsFaultlessItem left.now) }
    ensures fault { IfErr result (λ f. (before : List ℕ) → site ≡ site_after site.text before →
        IsFaultAt site.text before left.now f) }
{
    let Some(item) = item_at(left) else {
        return Err(no_item_fault(left, site));
    };
    match item_fault(item, left, site) {
        Some(fault) => Err(fault),
        None => Ok(item),
    }
}

/// The token that an item is, if it is one.
fn kind_of(kind: ItemKind, octets: &[u8]) -> Option<TokenKind>
    ensures { result ≡ kind_of kind octets.now }
{
    match kind {
        ItemKind::WhiteSpace | ItemKind::LineComment | ItemKind::BlockComment => None,
        ItemKind::Word => Some(word_kind(octets)),
        ItemKind::Number => Some(TokenKind::Number),
        ItemKind::CharacterString => Some(TokenKind::CharacterString),
        ItemKind::BitString => Some(TokenKind::BitString),
        ItemKind::HexadecimalString => Some(TokenKind::HexadecimalString),
        ItemKind::Mark(mark) => Some(TokenKind::Mark(mark)),
    }
}
