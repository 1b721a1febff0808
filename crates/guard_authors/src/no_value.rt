//! The text of a fault for which a text writes no value.
ghost use Rattle.std.specs.Prelude.{◌≡◌, ◌++◌, [], codes, IfOk};
ghost use Rattle.guard_authors.specs.NoValue.{at_site, at_text, lex_text, syntax_text, value_text, no_value_text};

use guard_files::add;
use guard_lexer::LexFault;
use guard_model::{OutOfMemory, Site};
use guard_schema::SchemaFault;
use guard_syntax::{Spelling, SyntaxFault};
use guard_values::ValueFault;
use std::alloc::Global;

/// The number, the name and the place of the fault. Of one that no text of a value has there is none.
pub fn no_value_text(alloc: Global, fault: &SchemaFault) -> Result<Vec<u8>, OutOfMemory>
    ensures { IfOk result (λ text. text.items ≡ no_value_text fault.now) }
{
    match fault {
        SchemaFault::Lex(fault) => lex_text(alloc, fault),
        SchemaFault::Syntax(fault) => syntax_text(alloc, fault),
        SchemaFault::Value(fault) => value_text(alloc, fault),
        SchemaFault::Name(_)
        | SchemaFault::Tag(_)
        | SchemaFault::Clash(_, _, _)
        | SchemaFault::Cons(_)
        | SchemaFault::DefaultOutside(_)
        | SchemaFault::TooLarge(_)
        | SchemaFault::OutOfMemory => Ok(Vec::new(alloc)),
    }
}

fn lex_text(alloc: Global, fault: &LexFault) -> Result<Vec<u8>, OutOfMemory>
    ensures { IfOk result (λ text. text.items ≡ lex_text fault.now) }
{
    match fault {
        LexFault::BadCharacter(site) => at_site(alloc, "L1 BadCharacter", site),
        LexFault::BadString(site) => at_site(alloc, "L2 BadString", site),
        LexFault::OpenComment(site) => at_site(alloc, "L3 OpenComment", site),
        LexFault::BadHyphen(site) => at_site(alloc, "L4 BadHyphen", site),
        LexFault::NumberTooLarge(site) => at_site(alloc, "L5 NumberTooLarge", site),
        LexFault::NotUtf8(text) => at_text(alloc, "L6 NotUtf8", *text),
        LexFault::TextTooLong(text) => at_text(alloc, "L7 TextTooLong", *text),
        LexFault::OutOfMemory => Ok(Vec::new(alloc)),
    }
}

fn syntax_text(alloc: Global, fault: &SyntaxFault) -> Result<Vec<u8>, OutOfMemory>
    ensures { IfOk result (λ text. text.items ≡ syntax_text fault.now) }
{
    match fault {
        SyntaxFault::Unexpected(site) => at_site(alloc, "P1 Unexpected", site),
        SyntaxFault::Unsupported(spelling, site) => unsupported_text(alloc, spelling, site),
        SyntaxFault::TooDeep(site) => at_site(alloc, "P3 TooDeep", site),
        SyntaxFault::OutOfMemory => Ok(Vec::new(alloc)),
    }
}

/// Of a form that is left out, by its spelling, which is in ASCII.
fn unsupported_text(alloc: Global, spelling: &Spelling, site: &Site) -> Result<Vec<u8>, OutOfMemory>
    ensures { IfOk result (λ text. text.items
        ≡ codes "P2 Unsupported " ++ spelling.now.octets.items ++ at_site [] site.now) }
{
    let mut text = Vec::from_slice(alloc, b"P2 Unsupported ")?;
    add(&mut text, spelling.octets.as_slice())?;
    let place = at_site(alloc, "", site)?;
    add(&mut text, &place)?;
    Ok(text)
}

fn value_text(alloc: Global, fault: &ValueFault) -> Result<Vec<u8>, OutOfMemory>
    ensures { IfOk result (λ text. text.items ≡ value_text fault.now) }
{
    match fault {
        ValueFault::WrongNotation(site) => at_site(alloc, "V1 WrongNotation", site),
        ValueFault::UnknownName(site) => at_site(alloc, "V2 UnknownName", site),
        ValueFault::MissingComponent(site) => at_site(alloc, "V3 MissingComponent", site),
        ValueFault::RepeatedComponent(site) => at_site(alloc, "V4 RepeatedComponent", site),
        ValueFault::OutOfOrder(site) => at_site(alloc, "V5 OutOfOrder", site),
        ValueFault::BadCharacter(site) => at_site(alloc, "V6 BadCharacter", site),
        ValueFault::BadObjectId(site) => at_site(alloc, "V7 BadObjectId", site),
        ValueFault::TooLarge(site) => at_site(alloc, "V8 TooLarge", site),
        ValueFault::OutOfMemory => Ok(Vec::new(alloc)),
    }
}

/// The words, and behind them a place in a text.
fn at_site(alloc: Global, words: &str, site: &Site) -> Result<Vec<u8>, OutOfMemory>
    ensures { IfOk result (λ text. text.items ≡ at_site words.now site.now) }
{
    let (text, line, column) = (site.text, site.line, site.column);
    let line = format!(in alloc; "{words} {text}:{line}:{column}")?;
    Ok(line.into_bytes())
}

/// The words, and behind them the number of a text.
fn at_text(alloc: Global, words: &str, text: u32) -> Result<Vec<u8>, OutOfMemory>
    ensures { IfOk result (λ line. line.items ≡ at_text words.now text) }
{
    let line = format!(in alloc; "{words} {text}")?;
    Ok(line.into_bytes())
}
