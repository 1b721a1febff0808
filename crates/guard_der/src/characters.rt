//! Contents octets of character strings (X.690 8.23).
ghost use Rattle.std.specs.Prelude.{◌≡◌, chars, option_map, Some, None, if◌then◌else◌};
ghost use Rattle.guard_der.specs.Simple.{is_text, characters_of};

use guard_model::CharKind;

/// The text that contents octets of the kind spell (X.690 8.23); None where they aren't UTF-8, or one of the characters
/// isn't in the kind's alphabet.
pub fn text_of(kind: CharKind, octets: &[u8]) -> Option<&str>
    ensures { option_map (λ text. chars text.now) result
        ≡ (if is_text kind octets.now then Some (characters_of kind octets.now) else None) }
{
    let Ok(text) = str::from_utf8(octets) else {
        return None;
    };
    if kind.has_all(text) { Some(text) } else { None }
}
