//! What follows from the definitions alone.
ghost use Rattle.std.specs.Prelude.{List};
ghost use Rattle.guard_syntax.specs.Lexemes.{Lexeme};
ghost use Rattle.guard_syntax.specs.Parses.{IsWritten, IsSameTree};
ghost use Rattle.guard_syntax.specs.Trees.{WrittenModule};

/// Trees of the grammar that are written with the same tokens are equal, sites aside.
pub fn law_one_tree()
    ensures { (a b : WrittenModule) (ls : List Lexeme) → IsWritten a ls → IsWritten b ls → IsSameTree a b }
{}
