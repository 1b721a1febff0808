//! Values.
ghost use Rattle.std.specs.Prelude.{◌≡◌, map, length, None, IfOk};
ghost use Rattle.guard_model.specs.Answer.{Gives};
ghost use Rattle.guard_syntax.specs.inside.ReadTokens as tokens_reading;
ghost use Rattle.guard_syntax.specs.inside.Cursors.{ahead, Reads, each_view, boxed_view};
ghost use Rattle.guard_syntax.specs.inside.ReadValues as reading;
ghost use Rattle.guard_syntax.specs.Views.{name_view, arc_view, site_of_value, value_view, value_form_view};
ghost use Rattle.guard_syntax.specs.Views.{entry_view};

use crate::cursor::{Cursor, Read};
use crate::entries::entry_of;
use crate::numbers::{arc, number};
use crate::tree::{ArcTree, EntryTree, StringKind, ValueForm, ValueTree};
use guard_lexer::{Mark, Reserved, TokenKind};
use std::alloc::Global;
use std::boxed::Box;

/// Whether a value begins here.
pub fn begins_value(at: Cursor) -> bool
    ensures { result ≡ reading.begins_value (ahead at.entry) }
{
    at.begins_with(TokenKind::Reserved(Reserved::True))
        || at.begins_with(TokenKind::Reserved(Reserved::False))
        || at.begins_with(TokenKind::Reserved(Reserved::Null))
        || begins_number(at)
        || string_at(at).is_some()
        || at.begins_with(TokenKind::LowerName)
        || at.begins_with(TokenKind::Mark(Mark::LeftBrace))
}

pub fn begins_number(at: Cursor) -> bool
    ensures { result ≡ reading.begins_number (ahead at.entry) }
{
    at.begins_with(TokenKind::Mark(Mark::Minus)) || at.begins_with(TokenKind::Number)
}

/// Which string the first token is.
fn string_at(at: Cursor) -> Option<StringKind>
    ensures { result ≡ reading.string_at (ahead at.entry) }
{
    if at.begins_with(TokenKind::CharacterString) {
        Some(StringKind::Characters)
    } else if at.begins_with(TokenKind::BitString) {
        Some(StringKind::Bits)
    } else if at.begins_with(TokenKind::HexadecimalString) {
        Some(StringKind::Hexadecimal)
    } else {
        None
    }
}

/// A value. `levels` says how deep types, values and sets may be nested here.
#[cycle(values)]
#[tactic(auto, unfolding(crate::specs::inside::ReadValues::read_value))]
pub fn value<'a, 't>(alloc: Global, levels: u8, at: Cursor<'a, 't>) -> Read<'a, 't, ValueTree<'a>>
    ensures tree { Reads value_view result (reading.read_value levels (ahead at.entry)) }
    ensures site { IfOk result (λ v. site_of_value (value_view v.0) ≡ tokens_reading.site_at (ahead at.entry)) }
{
    if levels == 0 {
        return Err(at.too_deep(begins_value(at)));
    }
    let (form, rest) = form(alloc, levels - 1, at)?;
    Ok((
        ValueTree {
            site: at.site(),
            form,
        },
        rest,
    ))
}

/// Each form of a value.
#[cycle(values)]
#[tactic(auto, unfolding(crate::specs::inside::ReadValues::read_value_form))]
fn form<'a, 't>(alloc: Global, levels: u8, at: Cursor<'a, 't>) -> Read<'a, 't, ValueForm<'a>>
    ensures { Reads value_form_view result
        (reading.read_value_form levels (reading.read_value levels) (ahead at.entry)) }
{
    if at.begins_with(TokenKind::Reserved(Reserved::True)) {
        Ok((ValueForm::Boolean(true), at.behind()))
    } else if at.begins_with(TokenKind::Reserved(Reserved::False)) {
        Ok((ValueForm::Boolean(false), at.behind()))
    } else if at.begins_with(TokenKind::Reserved(Reserved::Null)) {
        Ok((ValueForm::Null, at.behind()))
    } else if begins_number(at) {
        integer(at)
    } else if at.begins_with(TokenKind::LowerName) {
        name(alloc, levels, at)
    } else if at.begins_with(TokenKind::Mark(Mark::LeftBrace)) {
        braces(alloc, levels, at)
    } else {
        string(at)
    }
}

#[tactic(auto, unfolding(crate::specs::inside::ReadValues::read_integer_form))]
fn integer<'a, 't>(at: Cursor<'a, 't>) -> Read<'a, 't, ValueForm<'a>>
    ensures { Reads value_form_view result (reading.read_integer_form (ahead at.entry)) }
{
    let (number, rest) = number(at)?;
    let form = ValueForm::Integer(number.minus, number.site, number.digits);
    Ok((form, rest))
}

#[tactic(auto, unfolding(crate::specs::inside::ReadValues::read_string))]
fn string<'a, 't>(at: Cursor<'a, 't>) -> Read<'a, 't, ValueForm<'a>>
    ensures { Reads value_form_view result (reading.read_string (ahead at.entry)) }
{
    if at.begins_with(TokenKind::CharacterString) {
        let (spelling, rest) = at.spelling(TokenKind::CharacterString)?;
        Ok((ValueForm::Text(StringKind::Characters, spelling), rest))
    } else if at.begins_with(TokenKind::BitString) {
        let (spelling, rest) = at.spelling(TokenKind::BitString)?;
        Ok((ValueForm::Text(StringKind::Bits, spelling), rest))
    } else {
        let (spelling, rest) = at.spelling(TokenKind::HexadecimalString)?;
        Ok((ValueForm::Text(StringKind::Hexadecimal, spelling), rest))
    }
}

/// A name, or a chosen alternative.
#[cycle(values)]
#[tactic(auto, unfolding(crate::specs::inside::ReadValues::read_name))]
fn name<'a, 't>(alloc: Global, levels: u8, at: Cursor<'a, 't>) -> Read<'a, 't, ValueForm<'a>>
    ensures { Reads value_form_view result (reading.read_name (reading.read_value levels) (ahead at.entry)) }
{
    let (name, rest) = at.spelling(TokenKind::LowerName)?;
    if !rest.begins_with(TokenKind::Mark(Mark::Colon)) {
        return Ok((ValueForm::Reference(name), rest));
    }
    let (inside, rest) = value(alloc, levels, rest.behind())?;
    Ok((ValueForm::Chosen(name, Box::new(alloc, inside)?), rest))
}

/// Entries or arcs.
#[cycle(values)]
#[tactic(auto, unfolding(crate::specs::inside::ReadValues::read_braces))]
fn braces<'a, 't>(alloc: Global, levels: u8, at: Cursor<'a, 't>) -> Read<'a, 't, ValueForm<'a>>
    ensures { Reads value_form_view result (reading.read_braces levels (reading.read_value levels) (ahead at.entry)) }
{
    let rest = at.after(TokenKind::Mark(Mark::LeftBrace))?;
    if begins_arcs(rest) {
        let (all, rest) = arcs(alloc, rest)?;
        let rest = rest.after(TokenKind::Mark(Mark::RightBrace))?;
        return Ok((ValueForm::Arcs(all), rest));
    }
    let (all, rest) = entries(alloc, levels, rest)?;
    let rest = rest.after(TokenKind::Mark(Mark::RightBrace))?;
    Ok((ValueForm::List(all), rest))
}

/// Whether arcs follow an opening brace: a number and then a number or name, or a name and then a parenthesis.
fn begins_arcs(at: Cursor) -> bool
    ensures { result ≡ reading.begins_arcs (ahead at.entry) }
{
    let next = at.behind();
    at.begins_with(TokenKind::Number)
        && (next.begins_with(TokenKind::Number) || next.begins_with(TokenKind::LowerName))
        || at.begins_with(TokenKind::LowerName)
            && next.begins_with(TokenKind::Mark(Mark::LeftParenthesis))
}

/// Entries up to the closing brace, perhaps none. Where no value is allowed in the braces the first entry is too deep.
#[cycle(values)]
#[tactic(auto, unfolding(crate::specs::inside::ReadValues::read_entries))]
fn entries<'a, 't>(
    alloc: Global,
    levels: u8,
    at: Cursor<'a, 't>,
) -> Read<'a, 't, Vec<EntryTree<'a>>>
    ensures { Reads (each_view entry_view) result
        (reading.read_entries levels (reading.read_value levels) (ahead at.entry)) }
{
    if at.begins_with(TokenKind::Mark(Mark::RightBrace)) {
        return Ok((Vec::new(alloc), at));
    }
    if levels == 0 {
        return Err(at.too_deep(begins_value(at)));
    }
    some_entries(alloc, levels, at)
}

/// One or more entries, separated by commas. Each takes a token, so there are no more than tokens.
#[cycle(values)]
#[tactic(auto, using(crate::proofs::Loops::parted_loop))]
fn some_entries<'a, 't>(
    alloc: Global,
    levels: u8,
    at: Cursor<'a, 't>,
) -> Read<'a, 't, Vec<EntryTree<'a>>>
    ensures { Reads (each_view entry_view) result (tokens_reading.read_parted
        (reading.read_entry (reading.read_value levels)) (length (ahead at.entry)) (ahead at.entry)) }
{
    let mut all = Vec::with_capacity(alloc, 1)?;
    let mut rest = at;
    for _ in 0..at.len() {
        let (one, next) = entry(alloc, levels, rest)?;
        all.push(one)?;
        if !next.begins_with(TokenKind::Mark(Mark::Comma)) {
            all.shrink_to_fit();
            return Ok((all, next));
        }
        rest = next.behind();
    }
    Err(rest.unexpected())
}

#[cycle(values)]
#[tactic(auto, unfolding(crate::specs::inside::ReadValues::read_entry))]
fn entry<'a, 't>(alloc: Global, levels: u8, at: Cursor<'a, 't>) -> Read<'a, 't, EntryTree<'a>>
    ensures { Reads entry_view result (reading.read_entry (reading.read_value levels) (ahead at.entry)) }
{
    let (name, rest) = entry_name(at)?;
    let (value, rest) = value(alloc, levels, rest)?;
    Ok((entry_of(alloc, at.site(), name, value)?, rest))
}

/// The name before a value, where there is one.
#[tactic(auto, unfolding(crate::specs::inside::ReadValues::read_entry_name))]
fn entry_name<'a, 't>(at: Cursor<'a, 't>) -> Read<'a, 't, Option<&'a [u8]>>
    ensures name { Reads name_view result (reading.read_entry_name (ahead at.entry)) }
    ensures none { IfOk result (λ n. name_view n.0 ≡ None → ahead n.1 ≡ ahead at.entry) }
{
    if !at.begins_with(TokenKind::LowerName) {
        return Ok((None, at));
    }
    if !begins_value(at.behind()) {
        return Ok((None, at));
    }
    let (name, rest) = at.spelling(TokenKind::LowerName)?;
    Ok((Some(name), rest))
}

/// Two or more arcs, or one that has a name. Each takes a token, so there are no more than tokens.
#[tactic(auto, unfolding(crate::specs::inside::ReadValues::read_arcs))]
fn arcs<'a, 't>(alloc: Global, at: Cursor<'a, 't>) -> Read<'a, 't, Vec<ArcTree<'a>>>
    ensures { Reads (each_view arc_view) result (reading.read_arcs (ahead at.entry)) }
{
    let (all, rest) = all_arcs(alloc, at)?;
    if are_arcs(&all) {
        Ok((all, rest))
    } else {
        Err(at.unexpected())
    }
}

/// A number alone is a list of values, and no object identifier.
fn are_arcs(all: &[ArcTree]) -> bool
    ensures { result ≡ reading.are_arcs (map arc_view all.now) }
{
    match all {
        [] => false,
        [only] => only.name.is_some(),
        [_, _, ..] => true,
    }
}

#[tactic(auto, using(crate::proofs::Loops::each_loop))]
fn all_arcs<'a, 't>(alloc: Global, at: Cursor<'a, 't>) -> Read<'a, 't, Vec<ArcTree<'a>>>
    ensures { Reads (each_view arc_view) result (tokens_reading.read_each reading.does_not_close tokens_reading.read_arc
        (length (ahead at.entry)) (ahead at.entry)) }
{
    let mut all = Vec::new(alloc);
    let mut rest = at;
    for _ in 0..at.len() {
        if rest.begins_with(TokenKind::Mark(Mark::RightBrace)) {
            all.shrink_to_fit();
            return Ok((all, rest));
        }
        let (one, next) = arc(rest)?;
        all.push(one)?;
        rest = next;
    }
    Err(rest.unexpected())
}
