//! Constraints and sets of values.
ghost use Rattle.std.specs.Prelude.{◌≡◌, map, length, IfOk};
ghost use Rattle.guard_model.specs.Answer.{Gives};
ghost use Rattle.guard_syntax.specs.inside.ReadTokens as tokens_reading;
ghost use Rattle.guard_syntax.specs.inside.Cursors.{ahead, Reads, each_view, boxed_view};
ghost use Rattle.guard_syntax.specs.inside.ReadValues.{read_value};
ghost use Rattle.guard_syntax.specs.inside.ReadSets as reading;
ghost use Rattle.guard_syntax.specs.SetViews.{site_of_element, site_of_difference, site_of_intersection};
ghost use Rattle.guard_syntax.specs.SetViews.{element_form_view, element_view, perhaps_element_view, difference_view};
ghost use Rattle.guard_syntax.specs.SetViews.{joined_difference_view, intersection_view, joined_intersection_view};
ghost use Rattle.guard_syntax.specs.SetViews.{set_view, constraint_view, perhaps_constraint_view, part_view};

use crate::cursor::{Cursor, Read};
use crate::join_marks::{
    begins_intersection_mark, begins_union_mark, intersection_mark, union_mark,
};
use crate::joined_sets::{joined_to_difference, joined_to_intersection};
use crate::ranges::{begins_range, range};
use crate::tree::{
    ComponentConsTree, ConsTree, DifferenceTree, ElementForm, ElementTree, IntersectionTree,
    JoinedDifference, JoinedIntersection, NameTree, PresenceWord, SetTree,
};
use crate::values::{begins_value, value};
use guard_lexer::{Mark, Reserved, TokenKind};
use std::alloc::Global;
use std::boxed::Box;

fn begins_element(at: Cursor) -> bool
    ensures { result ≡ reading.begins_element (ahead at.entry) }
{
    at.begins_with(TokenKind::Mark(Mark::LeftParenthesis))
        || at.begins_with(TokenKind::UpperName)
        || at.begins_with(TokenKind::Reserved(Reserved::Includes))
        || at.begins_with(TokenKind::Reserved(Reserved::Min))
        || at.begins_with(TokenKind::Reserved(Reserved::Size))
        || at.begins_with(TokenKind::Reserved(Reserved::From))
        || at.begins_with(TokenKind::Reserved(Reserved::With))
        || begins_value(at)
}

fn begins_set(at: Cursor) -> bool
    ensures { result ≡ reading.begins_set (ahead at.entry) }
{
    at.begins_with(TokenKind::Reserved(Reserved::All)) || begins_element(at)
}

/// A set in parentheses. `levels` says how deep types, values and sets may be nested here.
#[cycle(sets)]
#[tactic(auto, unfolding(crate::specs::inside::ReadSets::read_constraint))]
pub fn constraint<'a, 't>(
    alloc: Global,
    levels: u8,
    at: Cursor<'a, 't>,
) -> Read<'a, 't, ConsTree<'a>>
    ensures { Reads constraint_view result (reading.read_constraint (reading.read_set levels) (ahead at.entry)) }
{
    let rest = at.after(TokenKind::Mark(Mark::LeftParenthesis))?;
    let (set, rest) = set(alloc, levels, rest)?;
    let rest = rest.after(TokenKind::Mark(Mark::RightParenthesis))?;
    let site = at.site();
    Ok((ConsTree { site, set }, rest))
}

#[cycle(sets)]
#[tactic(auto, using(crate::proofs::Levels::read_set_above), unfolding(crate::specs::inside::ReadSets::read_set))]
fn set<'a, 't>(alloc: Global, levels: u8, at: Cursor<'a, 't>) -> Read<'a, 't, Box<SetTree<'a>>>
    ensures { Reads (boxed_view set_view) result (reading.read_set levels (ahead at.entry)) }
{
    if levels == 0 {
        return Err(at.too_deep(begins_set(at)));
    }
    inner_set(alloc, levels - 1, at)
}

#[cycle(sets)]
fn inner_set<'a, 't>(
    alloc: Global,
    levels: u8,
    at: Cursor<'a, 't>,
) -> Read<'a, 't, Box<SetTree<'a>>>
    ensures { Reads (boxed_view set_view) result
        (reading.read_inner_set (read_value levels) (reading.read_set levels) (ahead at.entry)) }
{
    let (tree, rest) = set_tree(alloc, levels, at)?;
    Ok((Box::new(alloc, tree)?, rest))
}

#[cycle(sets)]
#[tactic(auto, unfolding(crate::specs::inside::ReadSets::read_inner_set, crate::specs::inside::ReadSets::read_set_form, crate::specs::inside::ReadSets::read_all_except, crate::specs::inside::ReadSets::read_union))]
fn set_tree<'a, 't>(alloc: Global, levels: u8, at: Cursor<'a, 't>) -> Read<'a, 't, SetTree<'a>>
    ensures { Reads set_view result
        (reading.read_inner_set (read_value levels) (reading.read_set levels) (ahead at.entry)) }
{
    if at.begins_with(TokenKind::Reserved(Reserved::All)) {
        let rest = at.after(TokenKind::Reserved(Reserved::All))?;
        let rest = rest.after(TokenKind::Reserved(Reserved::Except))?;
        let (element, rest) = element(alloc, levels, rest)?;
        let element = Box::new(alloc, element)?;
        return Ok((SetTree::AllExcept(at.site(), element), rest));
    }
    let (first, rest) = intersection(alloc, levels, at)?;
    let (others, rest) = joined_intersections(alloc, levels, rest)?;
    Ok((joined_to_intersection(alloc, first, others)?, rest))
}

/// The further intersections of a union. Each takes a token, so there are no more than tokens.
#[cycle(sets)]
#[tactic(auto, using(crate::proofs::Loops::each_loop))]
fn joined_intersections<'a, 't>(
    alloc: Global,
    levels: u8,
    at: Cursor<'a, 't>,
) -> Read<'a, 't, Vec<JoinedIntersection<'a>>>
    ensures { Reads (each_view joined_intersection_view) result (tokens_reading.read_each reading.begins_union_mark
        (reading.read_joined_intersection (read_value levels) (reading.read_set levels)) (length (ahead at.entry))
        (ahead at.entry)) }
{
    let mut all = Vec::with_capacity(alloc, usize::from(begins_union_mark(at)))?;
    let mut rest = at;
    for _ in 0..at.len() {
        if !begins_union_mark(rest) {
            all.shrink_to_fit();
            return Ok((all, rest));
        }
        let (one, next) = joined_intersection(alloc, levels, rest)?;
        all.push(one)?;
        rest = next;
    }
    Err(rest.unexpected())
}

#[cycle(sets)]
#[tactic(auto, unfolding(crate::specs::inside::ReadSets::read_joined_intersection))]
fn joined_intersection<'a, 't>(
    alloc: Global,
    levels: u8,
    at: Cursor<'a, 't>,
) -> Read<'a, 't, JoinedIntersection<'a>>
    ensures { Reads joined_intersection_view result
        (reading.read_joined_intersection (read_value levels) (reading.read_set levels) (ahead at.entry)) }
{
    let (mark, rest) = union_mark(at)?;
    let (part, rest) = intersection(alloc, levels, rest)?;
    Ok((JoinedIntersection { mark, part }, rest))
}

#[cycle(sets)]
#[tactic(auto, unfolding(crate::specs::inside::ReadSets::read_intersection))]
fn intersection<'a, 't>(
    alloc: Global,
    levels: u8,
    at: Cursor<'a, 't>,
) -> Read<'a, 't, IntersectionTree<'a>>
    ensures tree { Reads intersection_view result
        (reading.read_intersection (read_value levels) (reading.read_set levels) (ahead at.entry)) }
    ensures site { IfOk result (λ i. site_of_intersection (intersection_view i.0)
        ≡ tokens_reading.site_at (ahead at.entry)) }
{
    let (first, rest) = difference(alloc, levels, at)?;
    let (others, rest) = joined_differences(alloc, levels, rest)?;
    Ok((joined_to_difference(alloc, first, others)?, rest))
}

/// The further differences of an intersection. Each takes a token, so there are no more than tokens.
#[cycle(sets)]
#[tactic(auto, using(crate::proofs::Loops::each_loop))]
fn joined_differences<'a, 't>(
    alloc: Global,
    levels: u8,
    at: Cursor<'a, 't>,
) -> Read<'a, 't, Vec<JoinedDifference<'a>>>
    ensures { Reads (each_view joined_difference_view) result (tokens_reading.read_each reading.begins_intersection_mark
        (reading.read_joined_difference (read_value levels) (reading.read_set levels)) (length (ahead at.entry))
        (ahead at.entry)) }
{
    let mut all = Vec::with_capacity(alloc, usize::from(begins_intersection_mark(at)))?;
    let mut rest = at;
    for _ in 0..at.len() {
        if !begins_intersection_mark(rest) {
            all.shrink_to_fit();
            return Ok((all, rest));
        }
        let (one, next) = joined_difference(alloc, levels, rest)?;
        all.push(one)?;
        rest = next;
    }
    Err(rest.unexpected())
}

#[cycle(sets)]
#[tactic(auto, unfolding(crate::specs::inside::ReadSets::read_joined_difference))]
fn joined_difference<'a, 't>(
    alloc: Global,
    levels: u8,
    at: Cursor<'a, 't>,
) -> Read<'a, 't, JoinedDifference<'a>>
    ensures { Reads joined_difference_view result
        (reading.read_joined_difference (read_value levels) (reading.read_set levels) (ahead at.entry)) }
{
    let (mark, rest) = intersection_mark(at)?;
    let (part, rest) = difference(alloc, levels, rest)?;
    Ok((JoinedDifference { mark, part }, rest))
}

#[cycle(sets)]
#[tactic(auto, unfolding(crate::specs::inside::ReadSets::read_difference))]
fn difference<'a, 't>(
    alloc: Global,
    levels: u8,
    at: Cursor<'a, 't>,
) -> Read<'a, 't, DifferenceTree<'a>>
    ensures tree { Reads difference_view result
        (reading.read_difference (read_value levels) (reading.read_set levels) (ahead at.entry)) }
    ensures site { IfOk result (λ d. site_of_difference (difference_view d.0)
        ≡ tokens_reading.site_at (ahead at.entry)) }
{
    let (element, rest) = element(alloc, levels, at)?;
    let (except, rest) = except(alloc, levels, rest)?;
    Ok((DifferenceTree { element, except }, rest))
}

#[cycle(sets)]
#[tactic(auto, unfolding(crate::specs::inside::ReadSets::read_except))]
fn except<'a, 't>(
    alloc: Global,
    levels: u8,
    at: Cursor<'a, 't>,
) -> Read<'a, 't, Option<Box<ElementTree<'a>>>>
    ensures { Reads perhaps_element_view result
        (reading.read_except (read_value levels) (reading.read_set levels) (ahead at.entry)) }
{
    if !at.begins_with(TokenKind::Reserved(Reserved::Except)) {
        return Ok((None, at));
    }
    let (element, rest) = element(alloc, levels, at.behind())?;
    Ok((Some(Box::new(alloc, element)?), rest))
}

#[cycle(sets)]
#[tactic(auto, unfolding(crate::specs::inside::ReadSets::read_element))]
fn element<'a, 't>(alloc: Global, levels: u8, at: Cursor<'a, 't>) -> Read<'a, 't, ElementTree<'a>>
    ensures site { IfOk result (λ e. site_of_element (element_view e.0) ≡ tokens_reading.site_at (ahead at.entry)) }
    ensures tree { Reads element_view result
        (reading.read_element (read_value levels) (reading.read_set levels) (ahead at.entry)) }
{
    let (form, rest) = element_form(alloc, levels, at)?;
    let site = at.site();
    Ok((ElementTree { site, form }, rest))
}

/// Each form of an element.
#[cycle(sets)]
#[tactic(auto, unfolding(crate::specs::inside::ReadSets::read_element_form))]
fn element_form<'a, 't>(
    alloc: Global,
    levels: u8,
    at: Cursor<'a, 't>,
) -> Read<'a, 't, ElementForm<'a>>
    ensures { Reads element_form_view result
        (reading.read_element_form (read_value levels) (reading.read_set levels) (ahead at.entry)) }
{
    if at.begins_with(TokenKind::Mark(Mark::LeftParenthesis)) {
        parentheses(alloc, levels, at)
    } else if at.begins_with(TokenKind::Reserved(Reserved::Includes))
        || at.begins_with(TokenKind::UpperName)
    {
        contained(alloc, at)
    } else if at.begins_with(TokenKind::Reserved(Reserved::Size)) {
        let (inside, rest) = constraint(alloc, levels, at.behind())?;
        Ok((ElementForm::Size(Box::new(alloc, inside)?), rest))
    } else if at.begins_with(TokenKind::Reserved(Reserved::From)) {
        let (inside, rest) = constraint(alloc, levels, at.behind())?;
        Ok((ElementForm::From(Box::new(alloc, inside)?), rest))
    } else if at.begins_with(TokenKind::Reserved(Reserved::With)) {
        inner_type_constraints(alloc, levels, at)
    } else {
        range_or_value(alloc, levels, at)
    }
}

#[tactic(auto, unfolding(crate::specs::inside::ReadSets::read_range_or_value))]
fn range_or_value<'a, 't>(
    alloc: Global,
    levels: u8,
    at: Cursor<'a, 't>,
) -> Read<'a, 't, ElementForm<'a>>
    ensures { Reads element_form_view result (reading.read_range_or_value (read_value levels) (ahead at.entry)) }
{
    if begins_range(at) {
        let (range, rest) = range(at)?;
        Ok((ElementForm::Range(Box::new(alloc, range)?), rest))
    } else {
        let (value, rest) = value(alloc, levels, at)?;
        Ok((ElementForm::Value(Box::new(alloc, value)?), rest))
    }
}

#[tactic(auto, unfolding(crate::specs::inside::ReadSets::read_contained))]
fn contained<'a, 't>(alloc: Global, at: Cursor<'a, 't>) -> Read<'a, 't, ElementForm<'a>>
    ensures { Reads element_form_view result (reading.read_contained (ahead at.entry)) }
{
    let includes = at.begins_with(TokenKind::Reserved(Reserved::Includes));
    let at_name = at.behind_if(includes);
    let (name, rest) = at_name.spelling(TokenKind::UpperName)?;
    let site = at_name.site();
    let name = Box::new(alloc, NameTree { site, name })?;
    Ok((ElementForm::Contained(includes, name), rest))
}

#[cycle(sets)]
#[tactic(auto, unfolding(crate::specs::inside::ReadSets::read_parentheses))]
fn parentheses<'a, 't>(
    alloc: Global,
    levels: u8,
    at: Cursor<'a, 't>,
) -> Read<'a, 't, ElementForm<'a>>
    ensures { Reads element_form_view result (reading.read_parentheses (reading.read_set levels) (ahead at.entry)) }
{
    let rest = at.after(TokenKind::Mark(Mark::LeftParenthesis))?;
    let (inside, rest) = set(alloc, levels, rest)?;
    let rest = rest.after(TokenKind::Mark(Mark::RightParenthesis))?;
    Ok((ElementForm::Parentheses(inside), rest))
}

/// WITH COMPONENT or WITH COMPONENTS.
#[cycle(sets)]
#[tactic(auto, unfolding(crate::specs::inside::ReadSets::read_inner_type_constraints))]
fn inner_type_constraints<'a, 't>(
    alloc: Global,
    levels: u8,
    at: Cursor<'a, 't>,
) -> Read<'a, 't, ElementForm<'a>>
    ensures { Reads element_form_view result
        (reading.read_inner_type_constraints (reading.read_set levels) (ahead at.entry)) }
{
    let rest = at.after(TokenKind::Reserved(Reserved::With))?;
    if rest.begins_with(TokenKind::Reserved(Reserved::Component)) {
        let (inside, rest) = constraint(alloc, levels, rest.behind())?;
        return Ok((ElementForm::WithComponent(Box::new(alloc, inside)?), rest));
    }
    let rest = rest.after(TokenKind::Reserved(Reserved::Components))?;
    with_components(alloc, levels, rest)
}

#[cycle(sets)]
#[tactic(auto, unfolding(crate::specs::inside::ReadSets::read_with_components))]
fn with_components<'a, 't>(
    alloc: Global,
    levels: u8,
    at: Cursor<'a, 't>,
) -> Read<'a, 't, ElementForm<'a>>
    ensures { Reads element_form_view result (reading.read_with_components (reading.read_set levels) (ahead at.entry)) }
{
    let rest = at.after(TokenKind::Mark(Mark::LeftBrace))?;
    let (partial, rest) = partial(rest)?;
    let (parts, rest) = parts(alloc, levels, rest)?;
    let rest = rest.after(TokenKind::Mark(Mark::RightBrace))?;
    let parts = Box::new(alloc, parts)?;
    Ok((ElementForm::WithComponents(partial, parts), rest))
}

/// `...` and a comma, where there are both.
#[tactic(auto, unfolding(crate::specs::inside::ReadSets::read_partial))]
fn partial<'a, 't>(at: Cursor<'a, 't>) -> Read<'a, 't, bool>
    ensures { Reads (λ x. x) result (reading.read_partial (ahead at.entry)) }
{
    if !at.begins_with(TokenKind::Mark(Mark::Ellipsis)) {
        return Ok((false, at));
    }
    let rest = at.behind().after(TokenKind::Mark(Mark::Comma))?;
    Ok((true, rest))
}

/// One or more parts, separated by commas. Each takes a token, so there are no more than tokens.
#[cycle(sets)]
#[tactic(auto, using(crate::proofs::Loops::parted_loop))]
fn parts<'a, 't>(
    alloc: Global,
    levels: u8,
    at: Cursor<'a, 't>,
) -> Read<'a, 't, Vec<ComponentConsTree<'a>>>
    ensures { Reads (each_view part_view) result (tokens_reading.read_parted
        (reading.read_part (reading.read_set levels)) (length (ahead at.entry)) (ahead at.entry)) }
{
    let mut all = Vec::with_capacity(alloc, 1)?;
    let mut rest = at;
    for _ in 0..at.len() {
        let (one, next) = part(alloc, levels, rest)?;
        all.push(one)?;
        if !next.begins_with(TokenKind::Mark(Mark::Comma)) {
            all.shrink_to_fit();
            return Ok((all, next));
        }
        rest = next.behind();
    }
    Err(rest.unexpected())
}

#[cycle(sets)]
#[tactic(auto, unfolding(crate::specs::inside::ReadSets::read_part))]
fn part<'a, 't>(
    alloc: Global,
    levels: u8,
    at: Cursor<'a, 't>,
) -> Read<'a, 't, ComponentConsTree<'a>>
    ensures { Reads part_view result (reading.read_part (reading.read_set levels) (ahead at.entry)) }
{
    let (name, rest) = at.spelling(TokenKind::LowerName)?;
    let (cons, rest) = perhaps_constraint(alloc, levels, rest)?;
    let presence = presence_at(rest);
    let site = at.site();
    Ok((
        ComponentConsTree {
            site,
            name,
            cons,
            presence,
        },
        rest.behind_if(presence.is_some()),
    ))
}

#[cycle(sets)]
#[tactic(auto, unfolding(crate::specs::inside::ReadSets::read_perhaps_constraint))]
fn perhaps_constraint<'a, 't>(
    alloc: Global,
    levels: u8,
    at: Cursor<'a, 't>,
) -> Read<'a, 't, Option<ConsTree<'a>>>
    ensures { Reads perhaps_constraint_view result
        (reading.read_perhaps_constraint (reading.read_set levels) (ahead at.entry)) }
{
    if !at.begins_with(TokenKind::Mark(Mark::LeftParenthesis)) {
        return Ok((None, at));
    }
    let (one, rest) = constraint(alloc, levels, at)?;
    Ok((Some(one), rest))
}

/// The presence word that is written here.
fn presence_at(at: Cursor) -> Option<PresenceWord>
    ensures { result ≡ reading.presence_at (ahead at.entry) }
{
    if at.begins_with(TokenKind::Reserved(Reserved::Present)) {
        Some(PresenceWord::Present)
    } else if at.begins_with(TokenKind::Reserved(Reserved::Absent)) {
        Some(PresenceWord::Absent)
    } else if at.begins_with(TokenKind::Reserved(Reserved::Optional)) {
        Some(PresenceWord::Optional)
    } else {
        None
    }
}
