//! Laws of schemas, over the definitions alone. Each is carried by a function that does nothing when it runs.
ghost use Rattle.std.specs.Prelude.{◌≡◌, ℕ, List, None, map};
ghost use Rattle.guard_names.specs.Faults.{AreFaultless};
ghost use Rattle.guard_names.specs.Meanings.{Means};
ghost use Rattle.guard_names.specs.Places.{place_in};
ghost use Rattle.guard_schema.specs.Accepts.{Denotes, Knows};
ghost use Rattle.guard_schema.specs.EachType.{HaveTheirTypes};
ghost use Rattle.guard_schema.specs.FinishedSound.{AreSound};
ghost use Rattle.guard_schema.specs.Known.{Known, built_at, governed, values_in};
ghost use Rattle.guard_schema.specs.OneAnswer.{IsDecided};
ghost use Rattle.guard_schema.specs.Unfinished.{IsBareAgain, IsTaggedAgain};

use guard_constraints::laws::{law_one_constraint, law_one_fault};

/// Texts denote one schema at most, and then they have no fault. They have one first fault at most, but where no tree
/// of the grammar has the tokens of a text, the fault may name one token or another of that text.
pub fn law_one_schema(texts: &[&[u8]])
    ensures { IsDecided (Denotes (map (λ t. t.now) texts.now)) }
{
    law_one_constraint();
    law_one_fault();
}

/// Of the definitions in texts one thing is known at most, and where it is the texts have no fault; of their first
/// fault there is one, as `law_one_schema` says. So a name has one meaning in a value that stands alone.
pub fn law_one_known(texts: &[&[u8]])
    ensures { IsDecided (Knows (map (λ t. t.now) texts.now)) }
{
    law_one_constraint();
    law_one_fault();
}

/// In a value that stands alone a name means what it means in the module, whether that defines the name or imports it:
/// what is built of the definition that the name means, if that is a value, and nothing where the name means none.
pub fn law_values_in()
    ensures meant { (k : Known) (home name : List ℕ) (number : ℕ) → AreFaultless k.modules
        → Means k.modules home name number
        → values_in k home name ≡ governed (built_at k.built (place_in k.order number)) }
    ensures none { (k : Known) (home name : List ℕ) → ((number : ℕ) → Means k.modules home name number → ⊥)
        → values_in k home name ≡ None }
{}

/// A finished type is what tags and parts make of its tree, and besides only what its tree fills in: without the
/// constraints that are written in the tree, and with its defaults not known again, it is the bare type again, and of a
/// definition that is built the type that its tree denotes by its tags. A schema that texts denote has such a type for
/// each definition in them that assigns a type, under its names, and has no others. There all names mean what the
/// schema makes of them.
pub fn law_unfinished()
    ensures bare { IsBareAgain }
    ensures tagged { IsTaggedAgain }
    ensures schema { HaveTheirTypes }
{}

/// A type that is finished from what its tree denotes by its tags is sound. That the constraints of a type that is
/// referred to are lawful under other tags too is looked for where it is referred to: a value that gets too long there
/// is the only fault (V8) that they can have.
pub fn law_finished_sound()
    ensures { AreSound }
{}
