//! That the text of a value can be read back: calls that do nothing, each proved for every type, value and text.
ghost use Rattle.std.specs.Prelude.{◌≡◌, ◌≤◌, ℕ, List, length, Some, IfSome, IsTrue};
ghost use Rattle.guard_model.specs.AbstractType.{AbstractType};
ghost use Rattle.guard_model.specs.AbstractValue.{AbstractValue};
ghost use Rattle.guard_der.specs.Der.{der};
ghost use Rattle.guard_der.specs.Fits.{fits};
ghost use Rattle.guard_der.specs.ProperConstraints.{is_short};
ghost use Rattle.guard_der.specs.Sound.{is_sound};
ghost use Rattle.guard_lexer.specs.Lexing.{longest_text};
ghost use Rattle.guard_values.specs.Meanings.{Meaning};
ghost use Rattle.guard_report.specs.declared.layout.Layout.{Layout};
ghost use Rattle.guard_report.specs.ValueText.{value_octets};
ghost use Rattle.reads_back.specs.Names.{HasNames, is_seen};
ghost use Rattle.reads_back.specs.ReadingBack.{IsReadAs};
ghost use Rattle.guard_report.specs.Shown.{value_shown};
ghost use Rattle.guard_schema.specs.Accepts.{Accepts};
ghost use Rattle.guard_schema.specs.Schemas.{AbstractSchema};

use guard_schema::laws::law_unfinished;

/// The text of a value, read as a written value of its type, denotes this value, whatever defined values there are.
/// Left out are values with a hidden character, and those whose text or encoding is longer than what is read.
pub fn law_reads_back()
    ensures { (meaning : Meaning) (layout : Layout) (t : AbstractType) (v : AbstractValue)
        → IsTrue (is_sound t) → HasNames t → IsTrue (fits t v) → IsTrue (is_seen v) → IsTrue (is_short (der t v))
        → length (value_octets layout (Some t) v) ≤ longest_text
        → IsReadAs meaning t (value_octets layout (Some t) v) v }
{}

/// A text is read as one value at most.
pub fn law_one_value_of_text()
    ensures { (meaning : Meaning) (t : AbstractType) (text : List ℕ) (v w : AbstractValue)
        → IsReadAs meaning t text v → IsReadAs meaning t text w → v ≡ w }
{}

/// What is shown of a value reads back as that value too, whichever octets the places are taken from, since the places
/// stand in comments.
pub fn law_shown_reads_back()
    ensures { (meaning : Meaning) (t : AbstractType) (octets : List ℕ) (v : AbstractValue)
        → IsTrue (is_sound t) → HasNames t → IsTrue (fits t v) → IsTrue (is_seen v) → IsTrue (is_short (der t v))
        → length (value_shown t octets v) ≤ longest_text → IsReadAs meaning t (value_shown t octets v) v }
{}

/// Each type of a schema that texts denote has the names that these laws ask for, and is sound.
pub fn law_types_have_names()
    ensures names { (texts : List (List ℕ)) (s : AbstractSchema) → Accepts texts s
        → (home name : List ℕ) → IfSome (s.types home name) HasNames }
    ensures sound { (texts : List (List ℕ)) (s : AbstractSchema) → Accepts texts s
        → (home name : List ℕ) → IfSome (s.types home name) (λ t. IsTrue (is_sound t)) }
{
    law_unfinished();
}

/// Of a value of a type of a schema, the text and what is shown read back as this value. Only hidden characters and
/// what is longer than what is read are left out.
pub fn law_schema_reads_back()
    ensures text { (texts : List (List ℕ)) (s : AbstractSchema) → Accepts texts s
        → (home name : List ℕ) (t : AbstractType) → s.types home name ≡ Some t
        → (meaning : Meaning) (layout : Layout) (v : AbstractValue)
        → IsTrue (fits t v) → IsTrue (is_seen v) → IsTrue (is_short (der t v))
        → length (value_octets layout (Some t) v) ≤ longest_text
        → IsReadAs meaning t (value_octets layout (Some t) v) v }
    ensures shown { (texts : List (List ℕ)) (s : AbstractSchema) → Accepts texts s
        → (home name : List ℕ) (t : AbstractType) → s.types home name ≡ Some t
        → (meaning : Meaning) (octets : List ℕ) (v : AbstractValue)
        → IsTrue (fits t v) → IsTrue (is_seen v) → IsTrue (is_short (der t v))
        → length (value_shown t octets v) ≤ longest_text → IsReadAs meaning t (value_shown t octets v) v }
{
    law_reads_back();
    law_shown_reads_back();
    law_types_have_names();
}
