//! What holds of the definitions of tokens and faults: calls that do nothing, each proved for every text.
ghost use Rattle.guard_lexer.specs.Laws.{OneLexing, OneFault, NoneWithFault, TokensOrFault};

/// A text has at most one list of tokens.
pub fn law_one_lexing()
    ensures { OneLexing }
{}

/// A text has at most one first fault.
pub fn law_one_fault()
    ensures { OneFault }
{}

/// Where a text has a fault, it has no tokens.
pub fn law_none_with_fault()
    ensures { NoneWithFault }
{}

/// Each text has tokens or a fault.
pub fn law_tokens_or_fault()
    ensures { TokensOrFault }
{}
