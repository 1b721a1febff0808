//! The value that a text alone writes, and its encoding. The names of values in it are those of the type's module.
ghost use Rattle.std.specs.Prelude.{IfOk, IfErr, IsTrue};
ghost use Rattle.guard_model.specs.AbstractType.{AbstractType};
ghost use Rattle.guard_model.specs.TypeView.{type_view};
ghost use Rattle.guard_model.specs.ValueView.{value_view};
ghost use Rattle.guard_der.specs.Der.{der};
ghost use Rattle.guard_der.specs.Fits.{fits};
ghost use Rattle.guard_der.specs.ProperConstraints.{is_short};
ghost use Rattle.guard_der.specs.Sound.{is_sound};
ghost use Rattle.guard_lexer.specs.Lexing.{Lexes};
ghost use Rattle.guard_syntax.specs.Views as trees;
ghost use Rattle.guard_schema.specs.Known.{values_in};
ghost use Rattle.guard_schema.specs.Views.{known_of};
ghost use Rattle.guard_values.specs.Meanings.{Meaning};
ghost use Rattle.reads_back.specs.ReadingBack.{IsReadAs};
ghost use Rattle.guard_authors.specs.Encodes.{IsEncoding};
ghost use Rattle.guard_authors.specs.ValueTexts.{IsNoValue, IsWrittenAs};

use guard_der::{EncodeFault, encode};
use guard_lexer::{LexFault, Token, tokens};
use guard_model::Value;
use guard_policy::SaidMessage;
use guard_schema::{BuiltModules, SchemaFault};
use guard_syntax::{SyntaxFault, ValueTree, parse_value};
use guard_values::ValueFault;
use std::alloc::Global;

/// The number of the text in a site.
const PLACE: u32 = 1;

/// The value of the message that the text writes, and its encoding. Names in it mean what they mean in the module of
/// the message's type.
///
/// It refuses where the text has no tokens (Lex, L1 to L7), the grammar has no value with them (Syntax, P1 to P3), or
/// the tree denotes no value of the type (Value, V1 to V8). OutOfMemory may come in place of any answer.
pub fn encoded(
    alloc: Global,
    modules: &BuiltModules,
    message: &SaidMessage,
    text: &[u8],
) -> Result<(Value, Vec<u8>), SchemaFault>
    requires { IsTrue (is_sound (type_view message.now.ty.now)) }
    ensures encoding { IfOk result (λ p. IsEncoding (values_in (known_of modules.now) message.now.home.now)
        (type_view message.now.ty.now) text.now (value_view p.0) p.1.items) }
    ensures fits { IfOk result (λ p. IsTrue (fits (type_view message.now.ty.now) (value_view p.0))) }
    ensures none { IfErr result (IsNoValue (values_in (known_of modules.now) message.now.home.now)
        (type_view message.now.ty.now) text.now) }
{
    let value = value_in(alloc, modules, message, text)?;
    match encode(alloc, message.ty, &value) {
        Ok(octets) => Ok((value, octets)),
        Err(EncodeFault::OutOfMemory) => Err(SchemaFault::OutOfMemory),
        Err(EncodeFault::TooLong) => unreachable!(),
    }
}

/// The value that the text writes.
fn value_in(
    alloc: Global,
    modules: &BuiltModules,
    message: &SaidMessage,
    text: &[u8],
) -> Result<Value, SchemaFault>
    requires { IsTrue (is_sound (type_view message.now.ty.now)) }
    ensures read { IfOk result (λ v. IsReadAs (values_in (known_of modules.now) message.now.home.now)
        (type_view message.now.ty.now) text.now (value_view v)) }
    ensures fits { IfOk result (λ v. IsTrue (fits (type_view message.now.ty.now) (value_view v))) }
    ensures short { IfOk result (λ v. IsTrue (is_short (der (type_view message.now.ty.now) (value_view v)))) }
    ensures none { IfErr result (IsNoValue (values_in (known_of modules.now) message.now.home.now)
        (type_view message.now.ty.now) text.now) }
{
    let tokens = tokens_in(alloc, text)?;
    let tree = tree_in(alloc, text, &tokens)?;
    match modules.value(alloc, message.home, message.ty, &tree) {
        Ok(value) => Ok(value),
        Err(ValueFault::OutOfMemory) => Err(SchemaFault::OutOfMemory),
        Err(fault) => Err(SchemaFault::Value(fault)),
    }
}

fn tokens_in(alloc: Global, text: &[u8]) -> Result<Vec<Token>, SchemaFault>
    ensures lexed { IfOk result (λ tokens. Lexes 1 text.now tokens.items) }
    ensures none { (m : Meaning) (t : AbstractType) → IfErr result (IsNoValue m t text.now) }
{
    match tokens(alloc, PLACE, text) {
        Ok(tokens) => Ok(tokens),
        Err(LexFault::OutOfMemory) => Err(SchemaFault::OutOfMemory),
        Err(fault) => Err(SchemaFault::Lex(fault)),
    }
}

/// The tree of the value that the text's tokens write.
fn tree_in<'a>(
    alloc: Global,
    text: &'a [u8],
    tokens: &[Token],
) -> Result<ValueTree<'a>, SchemaFault>
    requires { Lexes 1 text.now tokens.now }
    ensures written { IfOk result (λ v. IsWrittenAs text.now (trees.value_view v)) }
    ensures none { (m : Meaning) (t : AbstractType) → IfErr result (IsNoValue m t text.now) }
{
    match parse_value(alloc, PLACE, text, tokens) {
        Ok(tree) => Ok(tree),
        Err(SyntaxFault::OutOfMemory) => Err(SchemaFault::OutOfMemory),
        Err(fault) => Err(SchemaFault::Syntax(fault)),
    }
}
