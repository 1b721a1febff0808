//! What follows from the definitions alone.
ghost use Rattle.std.specs.Prelude.{◌≡◌, ◌↔◌, ℕ, true, List, Some, map, length, slice_get};
ghost use Rattle.guard_model.specs.TypeView.{type_view};
ghost use Rattle.guard_names.specs.Declarations.{Definition, definitions};
ghost use Rattle.guard_names.specs.NamesView.{modules_of, order_of};
ghost use Rattle.guard_tagging.specs.Automatic.{Automatic};
ghost use Rattle.guard_tagging.specs.Skeletons.{AreMeanings};
ghost use Rattle.guard_tagging.specs.Surroundings.{surroundings, known_from};
ghost use Rattle.guard_tagging.specs.Types.{Meaning, is_automatic};
ghost use Rattle.guard_lexer.specs.Spans.{AreSpans};
ghost use Rattle.guard_syntax.specs.TypeViews.{item_view};
ghost use Rattle.guard_tagging.specs.Enumerations.{AreNumbered, numbered, written_numbers};
ghost use Rattle.guard_tagging.specs.Spelled.{SpelledByTokens};

use guard_lexer::Token;
use guard_model::Ty;
use guard_names::Names;
use guard_syntax::ItemTree;

/// In a text that is cut into tokens, each spelled as its kind says, each module that is written with them has names
/// that are texts, and numbers of 128 bits at most. So it is with what the parser answers.
pub fn law_spelled(text: &[u8], tokens: &[Token])
    requires { AreSpans text.now tokens.now }
    ensures { SpelledByTokens text.now tokens.now }
{}

/// The numbers that the items of an ENUMERATED have are those of X.680 20.3: an item with a number has that one, and
/// each other one the least number from 0 on that is neither written with an item nor the number of an item before it.
pub fn law_numbering(items: &[ItemTree])
    ensures { AreNumbered (written_numbers (map item_view items.now)) (map item_view items.now)
        (numbered (map item_view items.now)) }
{}

/// Whatever types the first definitions in the order have, there is one list of what is known of them, and going
/// through them in their order finds it. By it the type of the next definition is found to be a list that is tagged
/// automatically exactly where it is one by its tree and by what names mean.
pub fn law_automatic(names: &Names, types: &[Ty])
    ensures there_is { AreMeanings (modules_of names.now) (order_of names.now) (map type_view types.now)
        (known_from (modules_of names.now) (order_of names.now) (map type_view types.now)) }
    ensures one { (known others : List Meaning) →
        AreMeanings (modules_of names.now) (order_of names.now) (map type_view types.now) known
        → AreMeanings (modules_of names.now) (order_of names.now) (map type_view types.now) others → known ≡ others }
    ensures found { (known : List Meaning) →
        AreMeanings (modules_of names.now) (order_of names.now) (map type_view types.now) known
        → (number : ℕ) (d : Definition) → slice_get (order_of names.now) (length types.now) ≡ Some number
        → slice_get (definitions (modules_of names.now)) number ≡ Some d
        → (is_automatic (surroundings (modules_of names.now) (order_of names.now) known d.home) d.assignment.ty ≡ true)
        ↔ Automatic (modules_of names.now) number }
{}
