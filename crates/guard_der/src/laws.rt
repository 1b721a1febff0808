//! Laws of the encoding, over the definitions alone. Each is carried by a function that does nothing when it runs.
ghost use Rattle.std.specs.Prelude.{◌≡◌, ◌↔◌, ◌<◌, ◌^◌, ℕ, ℤ, List, ◌++◌, length, Some, IsTrue, ◌⊎◌};
ghost use Rattle.guard_model.specs.TypeView.{type_view};
ghost use Rattle.guard_model.specs.ValueView.{value_view};
ghost use Rattle.guard_model.specs.Limits.{fits_128_bits};
ghost use Rattle.guard_model.specs.AbstractType.{AbstractType};
ghost use Rattle.guard_model.specs.AbstractValue.{AbstractValue};
ghost use Rattle.guard_tagcheck.specs.Distinct.{Distinct};
ghost use Rattle.guard_der.specs.Octets.{signed_octets, base_128};
ghost use Rattle.guard_der.specs.Shortest.{SpellInteger, SpellSubidentifier};
ghost use Rattle.guard_der.specs.Der.{der};
ghost use Rattle.guard_der.specs.Fits.{fits};
ghost use Rattle.guard_der.specs.Sound.{is_sound, has_distinct_tags};
ghost use Rattle.guard_der.specs.Breach.{AbstractBreach, IsBreach};

use guard_model::{Ty, Value};

/// One encoding has one value.
pub fn law_one_encoding(ty: &Ty, one: &Value, other: &Value, octets: &[u8])
    requires sound { IsTrue (is_sound (type_view ty.now)) }
    requires one_fits { IsTrue (fits (type_view ty.now) (value_view one.now)) }
    requires other_fits { IsTrue (fits (type_view ty.now) (value_view other.now)) }
    ensures { der (type_view ty.now) (value_view one.now) ≡ Some octets.now →
        der (type_view ty.now) (value_view other.now) ≡ Some octets.now → value_view one.now ≡ value_view other.now }
{}

/// No encoding begins another: where octets begin with the encodings of two values, the values are one, and so is what
/// follows.
pub fn law_no_prefix(ty: &Ty, one: &Value, other: &Value)
    requires sound { IsTrue (is_sound (type_view ty.now)) }
    requires one_fits { IsTrue (fits (type_view ty.now) (value_view one.now)) }
    requires other_fits { IsTrue (fits (type_view ty.now) (value_view other.now)) }
    ensures { (first second x y : List ℕ) → der (type_view ty.now) (value_view one.now) ≡ Some first →
        der (type_view ty.now) (value_view other.now) ≡ Some second
        → first ++ x ≡ second ++ y → (value_view one.now ≡ value_view other.now) × (x ≡ y) }
{}

/// Octets are the encoding of a value or have a breach, never both or neither, and one breach.
pub fn law_one_answer(ty: &Ty, octets: &[u8])
    requires { IsTrue (is_sound (type_view ty.now)) }
    ensures one { ((v : AbstractValue) × IsTrue (fits (type_view ty.now) v) × (der (type_view ty.now) v
        ≡ Some octets.now)) ⊎ ((b : AbstractBreach) × IsBreach (type_view ty.now) octets.now b) }
    ensures never_both { (v : AbstractValue) (b : AbstractBreach) → IsTrue (fits (type_view ty.now) v) →
        der (type_view ty.now) v ≡ Some octets.now → IsBreach (type_view ty.now) octets.now b → ⊥ }
    ensures one_breach { (b c : AbstractBreach) → IsBreach (type_view ty.now) octets.now b →
        IsBreach (type_view ty.now) octets.now c → b ≡ c }
{}

/// What `is_sound` asks of the tags of a type, and of each type contained in its constraints at any depth, is that all
/// differ that must (X.680 25.6, 27.3, 29.3).
pub fn law_distinct_tags()
    ensures { (t : AbstractType) → IsTrue (has_distinct_tags t) ↔ Distinct t }
{}

/// The octets of an integer within signed 128 bits are the shortest list whose two's complement value it is. They spell
/// it, and whatever else spells it is longer (X.690 8.3.2).
pub fn law_shortest_integer()
    ensures back { (z : ℤ) → IsTrue (fits_128_bits z) → SpellInteger z (signed_octets z) }
    ensures shortest { (z : ℤ) (octets : List ℕ) → IsTrue (fits_128_bits z) → SpellInteger z octets →
        (octets ≡ signed_octets z) ⊎ (length (signed_octets z) < length octets) }
{}

/// The octets of a subidentifier below 2 ^ 128 are the shortest list whose value to the base 128 it is: they spell it,
/// and whatever else spells it is longer (X.690 8.19.2).
pub fn law_shortest_subidentifier()
    ensures back { (n : ℕ) → n < 2 ^ 128 → SpellSubidentifier n (base_128 n) }
    ensures shortest { (n : ℕ) (octets : List ℕ) → n < 2 ^ 128 → SpellSubidentifier n octets →
        (octets ≡ base_128 n) ⊎ (length (base_128 n) < length octets) }
{}
