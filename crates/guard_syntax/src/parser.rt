//! The calls of the parser.
ghost use Rattle.std.specs.Prelude.{IfOk, IfErr, Ok};
ghost use Rattle.guard_model.specs.Answer.{Gives};
ghost use Rattle.guard_syntax.specs.Faults.{NamesToken, fault_of};
ghost use Rattle.guard_syntax.specs.Lexemes.{lexemes_of, sites_of};
ghost use Rattle.guard_syntax.specs.Parses.{IsWritten, HasSites, IsWrittenValue, HasValueSites, value_sited};
ghost use Rattle.guard_syntax.specs.Sites.{sited};
ghost use Rattle.guard_syntax.specs.Trees.{WrittenModule, WrittenValue};
ghost use Rattle.guard_syntax.specs.ModuleViews.{module_view};
ghost use Rattle.guard_syntax.specs.Views.{value_view};

use crate::cursor::Cursor;
use crate::fault::SyntaxFault;
use crate::fault_of_failure::fault;
use crate::module::{module, value_alone};
use crate::tree::{Module, ValueTree};
use guard_lexer::Token;
use std::alloc::Global;

/// The one tree that is written with the tokens of a module text (X.680 clause 13). `tokens` are meant to be those that
/// `guard_lexer::tokens` answers for this `place` and `text`. No condition asks for that: other tokens are taken by
/// their kinds and their spans, and a span that leaves the text is cut.
///
/// Where no tree is written so, the fault is P1 Unexpected, P2 Unsupported or P3 TooDeep. Its site has `place` as the
/// number of the text. The clauses say which tokens a fault may name; that it names the first one from the left is
/// shown by worked examples alone. OutOfMemory may come in place of any answer.
pub fn parse<'a>(
    alloc: Global,
    place: u32,
    text: &'a [u8],
    tokens: &[Token],
) -> Result<Module<'a>, SyntaxFault>
    // The tree is written with these tokens, and has their sites.
    ensures found { IfOk result (λ m. IsWritten (module_view m) (lexemes_of text.now tokens.now)) }
    ensures sites { IfOk result (λ m. HasSites (module_view m) (sites_of tokens.now)) }
    // A tree that is written with these tokens is answered, unless memory runs out. So a fault comes only where there
    // is none.
    ensures only { (m : WrittenModule) → IsWritten m (lexemes_of text.now tokens.now) →
        Gives module_view fault_of result (Ok (sited m (sites_of tokens.now))) }
    // P1 is at a token or where the text ends, P2 names a token of a form that is left out, P3 is at a token.
    ensures named { IfErr result (NamesToken place text.now tokens.now) }
{
    match module(alloc, Cursor { text, tokens }) {
        Ok(module) => Ok(module),
        Err(error) => Err(fault(place, text, tokens, error)),
    }
}

/// The one tree of a value (X.680 17.7) that is written with these tokens and no other. `tokens` are meant, and taken,
/// as `parse` takes them.
///
/// Where no tree is written so, the fault is P1 Unexpected, P2 Unsupported or P3 TooDeep, as of a module: a token behind
/// a whole value is Unexpected. OutOfMemory may come in place of any answer.
pub fn parse_value<'a>(
    alloc: Global,
    place: u32,
    text: &'a [u8],
    tokens: &[Token],
) -> Result<ValueTree<'a>, SyntaxFault>
    // The tree is written with these tokens, and has their sites.
    ensures found { IfOk result (λ v. IsWrittenValue (value_view v) (lexemes_of text.now tokens.now)) }
    ensures sites { IfOk result (λ v. HasValueSites (value_view v) (sites_of tokens.now)) }
    // A tree that is written with these tokens is answered, unless memory runs out. So a fault comes only where there
    // is none.
    ensures only { (v : WrittenValue) → IsWrittenValue v (lexemes_of text.now tokens.now) →
        Gives value_view fault_of result (Ok (value_sited v (sites_of tokens.now))) }
    // P1 is at a token or where the text ends, P2 names a token of a form that is left out, P3 is at a token.
    ensures named { IfErr result (NamesToken place text.now tokens.now) }
{
    match value_alone(alloc, Cursor { text, tokens }) {
        Ok(value) => Ok(value),
        Err(error) => Err(fault(place, text, tokens, error)),
    }
}
