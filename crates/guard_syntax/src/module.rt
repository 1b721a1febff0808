//! Modules and their assignments, and values alone.
ghost use Rattle.std.specs.Prelude.{◌≡◌, map, length};
ghost use Rattle.guard_model.specs.Answer.{Gives};
ghost use Rattle.guard_syntax.specs.inside.ReadTokens as tokens_reading;
ghost use Rattle.guard_syntax.specs.inside.ReadTokens.{failure_of};
ghost use Rattle.guard_syntax.specs.inside.Cursors.{ahead, Reads, each_view, boxed_view};
ghost use Rattle.guard_syntax.specs.Grammar.{most_levels};
ghost use Rattle.guard_syntax.specs.inside.ReadModule as reading;
ghost use Rattle.guard_syntax.specs.ModuleViews.{head_view, assignment_view, module_view};
ghost use Rattle.guard_syntax.specs.Views.{value_view};

use crate::cursor::{Cursor, Read};
use crate::imports::{exports, imports};
use crate::module_identifiers::identifier;
use crate::read_error::ReadError;
use crate::tree::{Assignment, Module, PartTree, TagDefault, ValueTree};
use crate::types::type_tree;
use crate::values::value;
use guard_lexer::{Mark, Reserved, TokenKind};
use std::alloc::Global;
use std::boxed::Box;

/// How many other types, values and sets one of them may be inside.
const MOST_OTHERS: u8 = 128;

/// What comes before the word BEGIN.
#[derive(Drop)]
struct Heading<'a> {
    name: &'a [u8],
    identifier: Vec<PartTree<'a>>,
    tag_default: Option<TagDefault>,
}

/// A module, and no token after it.
#[tactic(auto, unfolding(crate::specs::inside::ReadModule::read_module))]
pub fn module<'a>(alloc: Global, at: Cursor<'a, '_>) -> Result<Module<'a>, ReadError>
    ensures { Gives module_view failure_of result (reading.read_module (ahead at.entry)) }
{
    let (head, rest) = head(alloc, at)?;
    let (exports, rest) = exports(alloc, rest)?;
    let (imports, rest) = imports(alloc, rest)?;
    let (assignments, rest) = assignments(alloc, rest)?;
    let rest = rest.after(TokenKind::Reserved(Reserved::End))?;
    ended(rest)?;
    Ok(Module {
        site: at.site(),
        name: head.name,
        identifier: head.identifier,
        tag_default: head.tag_default,
        exports,
        imports,
        assignments,
    })
}

#[tactic(auto, unfolding(crate::specs::inside::ReadModule::read_head))]
fn head<'a, 't>(alloc: Global, at: Cursor<'a, 't>) -> Read<'a, 't, Heading<'a>>
    ensures { Reads head_view result (reading.read_head (ahead at.entry)) }
{
    let (name, rest) = at.spelling(TokenKind::UpperName)?;
    let (identifier, rest) = identifier(alloc, rest)?;
    let rest = rest.after(TokenKind::Reserved(Reserved::Definitions))?;
    let (tag_default, rest) = tag_default(rest)?;
    let rest = rest.after(TokenKind::Mark(Mark::Assignment))?;
    let rest = rest.after(TokenKind::Reserved(Reserved::Begin))?;
    Ok((
        Heading {
            name,
            identifier,
            tag_default,
        },
        rest,
    ))
}

#[tactic(auto, unfolding(crate::specs::inside::ReadModule::read_tag_default))]
fn tag_default<'a, 't>(at: Cursor<'a, 't>) -> Read<'a, 't, Option<TagDefault>>
    ensures { Reads (λ x. x) result (reading.read_tag_default (ahead at.entry)) }
{
    let written = tag_default_at(at);
    if !written.is_some() {
        return Ok((None, at));
    }
    let rest = at.behind();
    let rest = rest.after(TokenKind::Reserved(Reserved::Tags))?;
    Ok((written, rest))
}

/// The word before TAGS that is written here.
fn tag_default_at(at: Cursor) -> Option<TagDefault>
    ensures { result ≡ reading.tag_default_at (ahead at.entry) }
{
    if at.begins_with(TokenKind::Reserved(Reserved::Explicit)) {
        Some(TagDefault::Explicit)
    } else if at.begins_with(TokenKind::Reserved(Reserved::Implicit)) {
        Some(TagDefault::Implicit)
    } else if at.begins_with(TokenKind::Reserved(Reserved::Automatic)) {
        Some(TagDefault::Automatic)
    } else {
        None
    }
}

/// The assignments up to the word END. Each takes a token, so there are no more than tokens.
#[tactic(auto, using(crate::proofs::Loops::each_loop))]
fn assignments<'a, 't>(alloc: Global, at: Cursor<'a, 't>) -> Read<'a, 't, Vec<Assignment<'a>>>
    ensures { Reads (each_view assignment_view) result (tokens_reading.read_each reading.goes_on_assigning
        reading.read_assignment (length (ahead at.entry)) (ahead at.entry)) }
{
    let mut all = Vec::new(alloc);
    let mut rest = at;
    for _ in 0..at.len() {
        if rest.begins_with(TokenKind::Reserved(Reserved::End)) {
            all.shrink_to_fit();
            return Ok((all, rest));
        }
        let (one, next) = assignment(alloc, rest)?;
        all.push(one)?;
        rest = next;
    }
    Err(rest.unexpected())
}

#[tactic(auto, unfolding(crate::specs::inside::ReadModule::read_assignment))]
fn assignment<'a, 't>(alloc: Global, at: Cursor<'a, 't>) -> Read<'a, 't, Assignment<'a>>
    ensures { Reads assignment_view result (reading.read_assignment (ahead at.entry)) }
{
    if at.begins_with(TokenKind::LowerName) {
        value_assignment(alloc, at)
    } else {
        type_assignment(alloc, at)
    }
}

/// How deep types, values and sets may be nested in an assignment: the others, and the one within them.
fn levels() -> u8
    ensures { result ≡ most_levels }
{
    MOST_OTHERS + 1
}

#[tactic(auto, unfolding(crate::specs::inside::ReadModule::read_type_assignment))]
fn type_assignment<'a, 't>(alloc: Global, at: Cursor<'a, 't>) -> Read<'a, 't, Assignment<'a>>
    ensures { Reads assignment_view result (reading.read_type_assignment (ahead at.entry)) }
{
    let (name, rest) = at.spelling(TokenKind::UpperName)?;
    let rest = rest.after(TokenKind::Mark(Mark::Assignment))?;
    let (ty, rest) = type_tree(alloc, levels(), rest)?;
    Ok((
        Assignment {
            site: at.site(),
            name,
            ty,
            value: None,
        },
        rest,
    ))
}

#[tactic(auto, unfolding(crate::specs::inside::ReadModule::read_value_assignment))]
fn value_assignment<'a, 't>(alloc: Global, at: Cursor<'a, 't>) -> Read<'a, 't, Assignment<'a>>
    ensures { Reads assignment_view result (reading.read_value_assignment (ahead at.entry)) }
{
    let (name, rest) = at.spelling(TokenKind::LowerName)?;
    let (ty, rest) = type_tree(alloc, levels(), rest)?;
    let rest = rest.after(TokenKind::Mark(Mark::Assignment))?;
    let (value, rest) = value(alloc, levels(), rest)?;
    let value = Box::new(alloc, value)?;
    Ok((
        Assignment {
            site: at.site(),
            name,
            ty,
            value: Some(value),
        },
        rest,
    ))
}

/// A value, and no token after it.
#[tactic(auto, unfolding(crate::specs::inside::ReadModule::read_value_alone))]
pub fn value_alone<'a>(alloc: Global, at: Cursor<'a, '_>) -> Result<ValueTree<'a>, ReadError>
    ensures { Gives value_view failure_of result (reading.read_value_alone (ahead at.entry)) }
{
    let (value, rest) = value(alloc, levels(), at)?;
    ended(rest)?;
    Ok(value)
}

/// No token is left.
#[tactic(auto, unfolding(crate::specs::inside::ReadModule::read_end))]
fn ended(at: Cursor) -> Result<(), ReadError>
    ensures { Gives (λ x. x) failure_of result (reading.read_end (ahead at.entry)) }
{
    if at.tokens.is_empty() {
        Ok(())
    } else {
        Err(at.unexpected())
    }
}
