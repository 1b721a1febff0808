//! Whether the encodings of a kind are primitive or constructed.
ghost use Rattle.std.specs.Prelude.{◌≡◌};
ghost use Rattle.guard_model.specs.TypeView.{kind_view};
ghost use Rattle.guard_der.specs.Der.{is_constructed as constructed};
ghost use Rattle.guard_der.specs.Reading.{same_form};

use guard_model::Kind;

/// Whether the contents octets of values of this kind are encodings themselves: those of SEQUENCE, SET, SEQUENCE OF and
/// SET OF, and of a CHOICE, all of whose tags are wrappers (X.690 8.1.2.5, 10.2).
pub fn is_constructed(kind: &Kind) -> bool
    ensures { result ≡ constructed (kind_view kind.now) }
{
    match kind {
        Kind::Sequence(_) => true,
        Kind::Set(_) => true,
        Kind::Choice(_) => true,
        Kind::SequenceOf(_) => true,
        Kind::SetOf(_) => true,
        _ => false,
    }
}

/// Whether an element has the wanted form, constructed or primitive.
pub fn is_form(constructed: bool, wanted: bool) -> bool
    ensures { result ≡ same_form constructed wanted }
{
    if constructed { wanted } else { !wanted }
}
