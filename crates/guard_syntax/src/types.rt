//! Types.
ghost use Rattle.std.specs.Prelude.{◌≡◌, map, length};
ghost use Rattle.guard_model.specs.Answer.{Gives, Refuses};
ghost use Rattle.guard_syntax.specs.inside.ReadTokens as tokens_reading;
ghost use Rattle.guard_syntax.specs.inside.ReadTokens.{failure_of};
ghost use Rattle.guard_syntax.specs.inside.Cursors.{ahead, Reads, each_view, boxed_view};
ghost use Rattle.guard_syntax.specs.inside.ReadValues.{read_value};
ghost use Rattle.guard_syntax.specs.inside.ReadSets.{read_set, read_constraint};
ghost use Rattle.guard_syntax.specs.inside.ReadTypes as reading;
ghost use Rattle.guard_syntax.specs.SetViews.{constraint_view};
ghost use Rattle.guard_syntax.specs.TypeViews.{of_constraint_view, presence_view, base_view, component_form_view};
ghost use Rattle.guard_syntax.specs.TypeViews.{component_view, alternative_view, type_view};

use crate::cursor::{Cursor, Read};
use crate::named_numbers::{items, numbers};
use crate::read_error::ReadError;
use crate::sets::constraint;
use crate::tags::{begins_tag, tags};
use crate::tree::{
    AlternativeTree, BaseTree, Collection, CompForm, CompTree, ConsTree, NameTree, OfConsTree,
    PlainType, PresenceTree, TypeTree,
};
use crate::values::value;
use guard_lexer::{Mark, Reserved, TokenKind};
use std::alloc::Global;
use std::boxed::Box;

fn begins_type(at: Cursor) -> bool
    ensures { result ≡ reading.begins_type (ahead at.entry) }
{
    begins_tag(at)
        || single_word_at(at).is_some()
        || begins_two_words(at)
        || at.begins_with(TokenKind::Reserved(Reserved::Integer))
        || at.begins_with(TokenKind::Reserved(Reserved::Bit))
        || at.begins_with(TokenKind::Reserved(Reserved::Enumerated))
        || at.begins_with(TokenKind::Reserved(Reserved::Sequence))
        || at.begins_with(TokenKind::Reserved(Reserved::Set))
        || at.begins_with(TokenKind::Reserved(Reserved::Choice))
        || at.begins_with(TokenKind::UpperName)
}

/// The type that the word here is.
fn single_word_at(at: Cursor) -> Option<PlainType>
    ensures { result ≡ reading.single_word_at (ahead at.entry) }
{
    if at.begins_with(TokenKind::Reserved(Reserved::Boolean)) {
        Some(PlainType::Boolean)
    } else if at.begins_with(TokenKind::Reserved(Reserved::Null)) {
        Some(PlainType::Null)
    } else if at.begins_with(TokenKind::Reserved(Reserved::Utf8String)) {
        Some(PlainType::Utf8String)
    } else if at.begins_with(TokenKind::Reserved(Reserved::NumericString)) {
        Some(PlainType::NumericString)
    } else if at.begins_with(TokenKind::Reserved(Reserved::PrintableString)) {
        Some(PlainType::PrintableString)
    } else if at.begins_with(TokenKind::Reserved(Reserved::Ia5String)) {
        Some(PlainType::Ia5String)
    } else if at.begins_with(TokenKind::Reserved(Reserved::VisibleString)) {
        Some(PlainType::VisibleString)
    } else {
        None
    }
}

fn begins_two_words(at: Cursor) -> bool
    ensures { result ≡ reading.begins_two_words (ahead at.entry) }
{
    at.begins_with(TokenKind::Reserved(Reserved::Octet))
        || at.begins_with(TokenKind::Reserved(Reserved::Object))
}

#[tactic(auto, unfolding(crate::specs::inside::ReadTypes::read_two_words))]
fn two_words<'a, 't>(at: Cursor<'a, 't>) -> Read<'a, 't, PlainType>
    ensures { Reads (λ x. x) result (reading.read_two_words (ahead at.entry)) }
{
    if at.begins_with(TokenKind::Reserved(Reserved::Octet)) {
        let rest = at.behind();
        let rest = rest.after(TokenKind::Reserved(Reserved::String))?;
        Ok((PlainType::OctetString, rest))
    } else {
        let rest = at.after(TokenKind::Reserved(Reserved::Object))?;
        let rest = rest.after(TokenKind::Reserved(Reserved::Identifier))?;
        Ok((PlainType::ObjectIdentifier, rest))
    }
}

/// A type. `levels` says how deep types, values and sets may be nested here.
#[cycle(types)]
#[tactic(auto, using(crate::proofs::Levels::read_type_above))]
pub fn type_tree<'a, 't>(
    alloc: Global,
    levels: u8,
    at: Cursor<'a, 't>,
) -> Read<'a, 't, Box<TypeTree<'a>>>
    ensures { Reads (boxed_view type_view) result (reading.read_type levels (ahead at.entry)) }
{
    if levels == 0 {
        return Err(type_too_deep(at));
    }
    inner_type(alloc, levels - 1, at)
}

/// No type is allowed here: it would be too deep.
#[tactic(auto, unfolding(crate::specs::inside::ReadTypes::read_type))]
fn type_too_deep(at: Cursor) -> ReadError
    ensures { Refuses (failure_of result) (reading.read_type 0 (ahead at.entry)) }
{
    at.too_deep(begins_type(at))
}

#[cycle(types)]
#[tactic(auto, unfolding(crate::specs::inside::ReadTypes::read_inner_type))]
fn inner_type<'a, 't>(
    alloc: Global,
    levels: u8,
    at: Cursor<'a, 't>,
) -> Read<'a, 't, Box<TypeTree<'a>>>
    ensures { Reads (boxed_view type_view) result
        (reading.read_inner_type (read_value levels) (read_set levels) (reading.read_type levels) (ahead at.entry)) }
{
    let (tags, rest) = tags(alloc, at)?;
    let (base, rest) = base(alloc, levels, rest)?;
    let (cons, rest) = constraints(alloc, levels, is_of(&base), rest)?;
    let site = at.site();
    let tree = TypeTree {
        site,
        tags,
        base,
        cons,
    };
    Ok((Box::new(alloc, tree)?, rest))
}

/// Whether a type without tags is an OF type. Constraints after it belong to the type of its elements.
fn is_of(base: &BaseTree) -> bool
    ensures { result ≡ reading.is_of (base_view base.now) }
{
    match base {
        BaseTree::Of(_, _, _) => true,
        BaseTree::Plain(_) => false,
        BaseTree::Integer(_) => false,
        BaseTree::BitString(_) => false,
        BaseTree::Enumerated(_) => false,
        BaseTree::Structure(_, _) => false,
        BaseTree::Choice(_) => false,
        BaseTree::Reference(_) => false,
    }
}

/// The constraints after a type; after an OF type there are none.
#[tactic(auto, unfolding(crate::specs::inside::ReadTypes::read_constraints))]
fn constraints<'a, 't>(
    alloc: Global,
    levels: u8,
    of: bool,
    at: Cursor<'a, 't>,
) -> Read<'a, 't, Vec<ConsTree<'a>>>
    ensures { Reads (each_view constraint_view) result
        (reading.read_constraints (read_set levels) of (ahead at.entry)) }
{
    if of {
        return Ok((Vec::new(alloc), at));
    }
    each_constraint(alloc, levels, at)
}

/// Constraints one after the other. Each takes a token, so there are no more than tokens.
#[tactic(auto, using(crate::proofs::Loops::each_loop))]
fn each_constraint<'a, 't>(
    alloc: Global,
    levels: u8,
    at: Cursor<'a, 't>,
) -> Read<'a, 't, Vec<ConsTree<'a>>>
    ensures { Reads (each_view constraint_view) result (tokens_reading.read_each reading.begins_constraint
        (read_constraint (read_set levels)) (length (ahead at.entry)) (ahead at.entry)) }
{
    let mut all = Vec::with_capacity(alloc, usize::from(begins_constraint(at)))?;
    let mut rest = at;
    for _ in 0..at.len() {
        if !begins_constraint(rest) {
            all.shrink_to_fit();
            return Ok((all, rest));
        }
        let (one, next) = constraint(alloc, levels, rest)?;
        all.push(one)?;
        rest = next;
    }
    Err(rest.unexpected())
}

fn begins_constraint(at: Cursor) -> bool
    ensures { result ≡ reading.begins_constraint (ahead at.entry) }
{
    at.begins_with(TokenKind::Mark(Mark::LeftParenthesis))
}

/// Each form of a type without its tags and constraints.
#[cycle(types)]
#[tactic(auto, unfolding(crate::specs::inside::ReadTypes::read_base))]
fn base<'a, 't>(alloc: Global, levels: u8, at: Cursor<'a, 't>) -> Read<'a, 't, BaseTree<'a>>
    ensures { Reads base_view result
        (reading.read_base (read_value levels) (read_set levels) (reading.read_type levels) (ahead at.entry)) }
{
    if at.begins_with(TokenKind::Reserved(Reserved::Sequence)) {
        collection(alloc, Collection::Sequence, levels, at.behind())
    } else if at.begins_with(TokenKind::Reserved(Reserved::Set)) {
        collection(alloc, Collection::Set, levels, at.behind())
    } else if at.begins_with(TokenKind::Reserved(Reserved::Choice)) {
        choice(alloc, levels, at.behind())
    } else {
        simple(alloc, at)
    }
}

/// A base with no type inside.
#[tactic(auto, unfolding(crate::specs::inside::ReadTypes::read_simple))]
fn simple<'a, 't>(alloc: Global, at: Cursor<'a, 't>) -> Read<'a, 't, BaseTree<'a>>
    ensures { Reads base_view result (reading.read_simple (ahead at.entry)) }
{
    if begins_two_words(at) {
        let (plain, rest) = two_words(at)?;
        Ok((BaseTree::Plain(plain), rest))
    } else if at.begins_with(TokenKind::Reserved(Reserved::Integer)) {
        let (all, rest) = numbers(alloc, true, at.behind())?;
        Ok((BaseTree::Integer(all), rest))
    } else if at.begins_with(TokenKind::Reserved(Reserved::Bit)) {
        bit_string(alloc, at.behind())
    } else if at.begins_with(TokenKind::Reserved(Reserved::Enumerated)) {
        let (all, rest) = items(alloc, at.behind())?;
        Ok((BaseTree::Enumerated(all), rest))
    } else {
        word_or_name(at)
    }
}

/// A bit string, after the word BIT.
#[tactic(auto, unfolding(crate::specs::inside::ReadTypes::read_bit_string))]
fn bit_string<'a, 't>(alloc: Global, at: Cursor<'a, 't>) -> Read<'a, 't, BaseTree<'a>>
    ensures { Reads base_view result (reading.read_bit_string (ahead at.entry)) }
{
    let rest = at.after(TokenKind::Reserved(Reserved::String))?;
    let (all, rest) = numbers(alloc, false, rest)?;
    Ok((BaseTree::BitString(all), rest))
}

/// A type that is a single word, or the name of a type.
#[tactic(auto, unfolding(crate::specs::inside::ReadTypes::read_word_or_name))]
fn word_or_name<'a, 't>(at: Cursor<'a, 't>) -> Read<'a, 't, BaseTree<'a>>
    ensures { Reads base_view result (reading.read_word_or_name (ahead at.entry)) }
{
    match single_word_at(at) {
        Some(plain) => Ok((BaseTree::Plain(plain), at.behind())),
        None => {
            let (name, rest) = at.spelling(TokenKind::UpperName)?;
            let site = at.site();
            Ok((BaseTree::Reference(NameTree { site, name }), rest))
        }
    }
}

/// What follows SEQUENCE or SET.
#[cycle(types)]
#[tactic(auto, unfolding(crate::specs::inside::ReadTypes::read_collection))]
fn collection<'a, 't>(
    alloc: Global,
    kind: Collection,
    levels: u8,
    at: Cursor<'a, 't>,
) -> Read<'a, 't, BaseTree<'a>>
    ensures { Reads base_view result (reading.read_collection kind (read_value levels) (read_set levels)
        (reading.read_type levels) (ahead at.entry)) }
{
    if at.begins_with(TokenKind::Mark(Mark::LeftBrace)) {
        structure(alloc, kind, levels, at)
    } else {
        of_type(alloc, kind, levels, at)
    }
}

#[cycle(types)]
#[tactic(auto, unfolding(crate::specs::inside::ReadTypes::read_of))]
fn of_type<'a, 't>(
    alloc: Global,
    kind: Collection,
    levels: u8,
    at: Cursor<'a, 't>,
) -> Read<'a, 't, BaseTree<'a>>
    ensures { Reads base_view result
        (reading.read_of kind (read_set levels) (reading.read_type levels) (ahead at.entry)) }
{
    let (before, rest) = of_constraint(alloc, levels, at)?;
    let rest = rest.after(TokenKind::Reserved(Reserved::Of))?;
    let (element, rest) = type_tree(alloc, levels, rest)?;
    Ok((BaseTree::Of(kind, before, element), rest))
}

/// The constraint before OF.
#[tactic(auto, unfolding(crate::specs::inside::ReadTypes::read_of_constraint))]
fn of_constraint<'a, 't>(
    alloc: Global,
    levels: u8,
    at: Cursor<'a, 't>,
) -> Read<'a, 't, Option<OfConsTree<'a>>>
    ensures { Reads of_constraint_view result (reading.read_of_constraint (read_set levels) (ahead at.entry)) }
{
    let size = at.begins_with(TokenKind::Reserved(Reserved::Size));
    if !(size || begins_constraint(at)) {
        return Ok((None, at));
    }
    let (cons, rest) = constraint(alloc, levels, at.behind_if(size))?;
    let site = at.site();
    let cons = Box::new(alloc, cons)?;
    Ok((Some(OfConsTree { site, size, cons }), rest))
}

#[cycle(types)]
#[tactic(auto, unfolding(crate::specs::inside::ReadTypes::read_structure))]
fn structure<'a, 't>(
    alloc: Global,
    kind: Collection,
    levels: u8,
    at: Cursor<'a, 't>,
) -> Read<'a, 't, BaseTree<'a>>
    ensures { Reads base_view result
        (reading.read_structure kind (read_value levels) (reading.read_type levels) (ahead at.entry)) }
{
    let rest = at.after(TokenKind::Mark(Mark::LeftBrace))?;
    let (all, rest) = components(alloc, levels, rest)?;
    let rest = rest.after(TokenKind::Mark(Mark::RightBrace))?;
    Ok((BaseTree::Structure(kind, all), rest))
}

/// Components up to the closing brace, perhaps none.
#[cycle(types)]
#[tactic(auto, unfolding(crate::specs::inside::ReadTypes::read_components))]
fn components<'a, 't>(
    alloc: Global,
    levels: u8,
    at: Cursor<'a, 't>,
) -> Read<'a, 't, Vec<CompTree<'a>>>
    ensures { Reads (each_view component_view) result
        (reading.read_components (read_value levels) (reading.read_type levels) (ahead at.entry)) }
{
    if at.begins_with(TokenKind::Mark(Mark::RightBrace)) {
        return Ok((Vec::new(alloc), at));
    }
    some_components(alloc, levels, at)
}

/// One or more components, separated by commas. Each takes a token, so there are no more than tokens.
#[cycle(types)]
#[tactic(auto, using(crate::proofs::Loops::parted_loop))]
fn some_components<'a, 't>(
    alloc: Global,
    levels: u8,
    at: Cursor<'a, 't>,
) -> Read<'a, 't, Vec<CompTree<'a>>>
    ensures { Reads (each_view component_view) result (tokens_reading.read_parted (reading.read_component
        (read_value levels) (reading.read_type levels)) (length (ahead at.entry)) (ahead at.entry)) }
{
    let mut all = Vec::with_capacity(alloc, 1)?;
    let mut rest = at;
    for _ in 0..at.len() {
        let (one, next) = component(alloc, levels, rest)?;
        all.push(one)?;
        if !next.begins_with(TokenKind::Mark(Mark::Comma)) {
            all.shrink_to_fit();
            return Ok((all, next));
        }
        rest = next.behind();
    }
    Err(rest.unexpected())
}

#[cycle(types)]
#[tactic(auto, unfolding(crate::specs::inside::ReadTypes::read_component))]
fn component<'a, 't>(alloc: Global, levels: u8, at: Cursor<'a, 't>) -> Read<'a, 't, CompTree<'a>>
    ensures { Reads component_view result
        (reading.read_component (read_value levels) (reading.read_type levels) (ahead at.entry)) }
{
    let (form, rest) = component_form(alloc, levels, at)?;
    let site = at.site();
    Ok((CompTree { site, form }, rest))
}

#[cycle(types)]
#[tactic(auto, unfolding(crate::specs::inside::ReadTypes::read_component_form))]
fn component_form<'a, 't>(
    alloc: Global,
    levels: u8,
    at: Cursor<'a, 't>,
) -> Read<'a, 't, CompForm<'a>>
    ensures { Reads component_form_view result
        (reading.read_component_form (read_value levels) (reading.read_type levels) (ahead at.entry)) }
{
    if at.begins_with(TokenKind::Reserved(Reserved::Components)) {
        let rest = at.behind();
        let rest = rest.after(TokenKind::Reserved(Reserved::Of))?;
        let (ty, rest) = type_tree(alloc, levels, rest)?;
        return Ok((CompForm::ComponentsOf(ty), rest));
    }
    let (name, rest) = at.spelling(TokenKind::LowerName)?;
    let (ty, rest) = type_tree(alloc, levels, rest)?;
    let (presence, rest) = presence(alloc, levels, rest)?;
    Ok((CompForm::Named(name, ty, presence), rest))
}

/// What follows the type of a component.
#[tactic(auto, unfolding(crate::specs::inside::ReadTypes::read_presence))]
fn presence<'a, 't>(alloc: Global, levels: u8, at: Cursor<'a, 't>) -> Read<'a, 't, PresenceTree<'a>>
    ensures { Reads presence_view result (reading.read_presence (read_value levels) (ahead at.entry)) }
{
    if at.begins_with(TokenKind::Reserved(Reserved::Optional)) {
        Ok((PresenceTree::Optional, at.behind()))
    } else if at.begins_with(TokenKind::Reserved(Reserved::Default)) {
        let (value, rest) = value(alloc, levels, at.behind())?;
        Ok((PresenceTree::Default(Box::new(alloc, value)?), rest))
    } else {
        Ok((PresenceTree::Mandatory, at))
    }
}

/// What follows CHOICE.
#[cycle(types)]
#[tactic(auto, unfolding(crate::specs::inside::ReadTypes::read_choice))]
fn choice<'a, 't>(alloc: Global, levels: u8, at: Cursor<'a, 't>) -> Read<'a, 't, BaseTree<'a>>
    ensures { Reads base_view result (reading.read_choice (reading.read_type levels) (ahead at.entry)) }
{
    let rest = at.after(TokenKind::Mark(Mark::LeftBrace))?;
    let (all, rest) = alternatives(alloc, levels, rest)?;
    let rest = rest.after(TokenKind::Mark(Mark::RightBrace))?;
    Ok((BaseTree::Choice(all), rest))
}

/// One or more alternatives, separated by commas. Each takes a token, so there are no more than tokens.
#[cycle(types)]
#[tactic(auto, using(crate::proofs::Loops::parted_loop))]
fn alternatives<'a, 't>(
    alloc: Global,
    levels: u8,
    at: Cursor<'a, 't>,
) -> Read<'a, 't, Vec<AlternativeTree<'a>>>
    ensures { Reads (each_view alternative_view) result (tokens_reading.read_parted
        (reading.read_alternative (reading.read_type levels)) (length (ahead at.entry)) (ahead at.entry)) }
{
    let mut all = Vec::with_capacity(alloc, 1)?;
    let mut rest = at;
    for _ in 0..at.len() {
        let (one, next) = alternative(alloc, levels, rest)?;
        all.push(one)?;
        if !next.begins_with(TokenKind::Mark(Mark::Comma)) {
            all.shrink_to_fit();
            return Ok((all, next));
        }
        rest = next.behind();
    }
    Err(rest.unexpected())
}

#[cycle(types)]
#[tactic(auto, unfolding(crate::specs::inside::ReadTypes::read_alternative))]
fn alternative<'a, 't>(
    alloc: Global,
    levels: u8,
    at: Cursor<'a, 't>,
) -> Read<'a, 't, AlternativeTree<'a>>
    ensures { Reads alternative_view result (reading.read_alternative (reading.read_type levels) (ahead at.entry)) }
{
    let (name, rest) = at.spelling(TokenKind::LowerName)?;
    let (ty, rest) = type_tree(alloc, levels, rest)?;
    let site = at.site();
    Ok((AlternativeTree { site, name, ty }, rest))
}
