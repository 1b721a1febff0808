//! What comes after the line of a fault of modules or of a policy.
ghost use Rattle.std.specs.Prelude.{◌≡◌, option_map, string_bytes, IfOk};
ghost use Rattle.guard_notes.specs.Explaining.{lex_lines, words_line, advice_lines, note_lines, IsSaidOfName};
ghost use Rattle.guard_notes.specs.Explaining.{IsSaidOfSyntax, IsSaidOfModules, IsSchemaNote, IsPolicyNote};
ghost use Rattle.guard_notes.specs.Sources.{sources_view};

use crate::advice::{Advice, schema_advice};
use crate::clash_notes::clash_line;
use crate::crowding::crowding;
use crate::marking::columns;
use crate::notes::{Place, policy_place, schema_place};
use crate::policy_advice::policy_advice;
use crate::policy_notes::policy_lines;
use crate::sources::{Sources, module_text, place_lines};
use crate::syntax_notes::said_of_unexpected;
use crate::text_notes::{character_line, octets_at};
use crate::token_notes::{said_of_undefined, site_of_name, site_of_syntax};
use guard_lexer::LexFault;
use guard_model::{OutOfMemory, Site};
use guard_policy::PolicyFault;
use guard_schema::SchemaFault;
use std::alloc::{AllocError, Global};

/// What comes after the line of a fault of modules, over their texts.
pub fn explain_schema(
    alloc: Global,
    sources: &Sources,
    fault: &SchemaFault,
) -> Result<String, OutOfMemory>
    ensures { IfOk result (λ note. IsSchemaNote (sources_view sources.now) fault.now (string_bytes note)) }
{
    let said = said_of_modules(alloc, sources, fault)?;
    let advice = schema_advice(alloc, sources, fault)?;
    note_lines(alloc, sources, schema_place(fault), &said, advice)
}

/// What comes after the line of a fault of the policy at this path, which has this text, over its modules.
pub fn explain_policy(
    alloc: Global,
    path: &str,
    modules: &[Vec<u8>],
    text: &[u8],
    fault: &PolicyFault,
) -> Result<String, OutOfMemory>
    ensures { IfOk result (λ note. IsPolicyNote path.now text.now fault.now (string_bytes note)) }
{
    let sources = Sources {
        path,
        files: &[],
        modules: &[],
    };
    let said = policy_lines(alloc, text, fault)?;
    let crowding = crowding(alloc, modules, text, fault)?;
    let advice = policy_advice(fault, &said, &crowding);
    note_lines(alloc, &sources, policy_place(fault), &said, advice)
}

/// The place, what more is said, and what to do; nothing where there is no place.
fn note_lines(
    alloc: Global,
    sources: &Sources,
    place: Option<Place>,
    said: &str,
    advice: Advice,
) -> Result<String, OutOfMemory>
    ensures { IfOk result (λ text. string_bytes text ≡ note_lines (sources_view sources.now) place said.now
        advice.entry.words.now (option_map (λ more. more.now) advice.entry.more)) }
{
    let Some(place) = place else {
        return Ok(String::new(alloc));
    };
    let lines = place_lines(alloc, sources, place)?;
    let advice = advice_lines(alloc, advice)?;
    Ok(format!(in alloc; "{lines}{said}{advice}")?)
}

fn advice_lines(alloc: Global, advice: Advice) -> Result<String, AllocError>
    ensures { IfOk result (λ lines. string_bytes lines
        ≡ advice_lines advice.entry.words.now (option_map (λ more. more.now) advice.entry.more)) }
{
    let line = words_line(alloc, advice.words)?;
    match advice.more {
        Some(more) => {
            let second = words_line(alloc, more)?;
            format!(in alloc; "{line}{second}")
        }
        None => Ok(line),
    }
}

fn words_line(alloc: Global, words: &str) -> Result<String, AllocError>
    ensures { IfOk result (λ line. string_bytes line ≡ words_line words.now) }
{
    let shown = columns(alloc, words.as_bytes())?;
    format!(in alloc; "  {shown}\n")
}

fn said_of_modules(
    alloc: Global,
    sources: &Sources,
    fault: &SchemaFault,
) -> Result<String, OutOfMemory>
    ensures { IfOk result (λ lines. IsSaidOfModules (sources_view sources.now) fault.now (string_bytes lines)) }
{
    match fault {
        SchemaFault::Lex(fault) => Ok(String::from_str(alloc, lex_lines(sources, fault))?),
        SchemaFault::Syntax(fault) => said_of_syntax(alloc, sources, site_of_syntax(fault)),
        SchemaFault::Name(fault) => said_of_name(alloc, sources, site_of_name(fault)),
        SchemaFault::Clash(_, _, common) => clash_line(alloc, common),
        _ => Ok(String::new(alloc)),
    }
}

/// What the character is, at which no token begins.
fn lex_lines(sources: &Sources, fault: &LexFault) -> &'static str
    ensures { result.now ≡ lex_lines (sources_view sources.now) fault.now }
{
    match fault {
        LexFault::BadCharacter(site) => {
            character_line(octets_at(module_text(sources, site.text), site))
        }
        _ => "",
    }
}

/// What may come at this place, where the grammar goes no further.
fn said_of_syntax(
    alloc: Global,
    sources: &Sources,
    site: Option<Site>,
) -> Result<String, OutOfMemory>
    ensures { IfOk result (λ lines. IsSaidOfSyntax site (string_bytes lines)) }
{
    match site {
        Some(site) => said_of_unexpected(alloc, module_text(sources, site.text), site),
        None => Ok(String::new(alloc)),
    }
}

/// What is said of a name at this place that means nothing.
fn said_of_name(alloc: Global, sources: &Sources, site: Option<Site>) -> Result<String, OutOfMemory>
    ensures { IfOk result (λ lines. IsSaidOfName (sources_view sources.now) site (string_bytes lines)) }
{
    match site {
        Some(site) => said_of_undefined(alloc, module_text(sources, site.text), site),
        None => Ok(String::new(alloc)),
    }
}
