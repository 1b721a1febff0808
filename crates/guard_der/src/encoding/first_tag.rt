//! The outermost tag of a value's encoding.
ghost use Rattle.std.specs.Prelude.{◌≡◌, map};
ghost use Rattle.guard_model.specs.declared.tag.Class.TheVariants.{Universal};
ghost use Rattle.guard_model.specs.TypeView.{type_view, component_view, components_of};
ghost use Rattle.guard_model.specs.ValueView.{value_view};
ghost use Rattle.guard_der.specs.Der.{outermost, outermost_alternative};

use guard_model::{Class, Comp, Kind, Tag, Ty, Value};

/// The outermost tag of a value's encoding; of an untagged CHOICE that of the chosen alternative (X.690 8.13). Where
/// the type has no tag and the value is none of a CHOICE, the answer is the tag [UNIVERSAL 0], which no encoding has.
#[cycle(outermost)]
pub fn outermost(ty: &Ty, value: &Value) -> Tag
    ensures { result ≡ outermost (type_view ty.now) (value_view value.now) }
{
    if let Some(tag) = ty.tags.first() {
        return *tag;
    }
    match (&ty.kind, value) {
        (Kind::Choice(alternatives), Value::Chosen(at, value)) => {
            outermost_alternative(alternatives, usize::from(*at), value)
        }
        _ => no_tag(),
    }
}

#[cycle(outermost)]
fn outermost_alternative(alternatives: &[Comp], at: usize, value: &Value) -> Tag
    ensures { result
        ≡ outermost_alternative (components_of (map component_view alternatives.now)) at (value_view value.now) }
{
    if at >= alternatives.len() {
        return no_tag();
    }
    outermost(&alternatives[at].ty, value)
}

/// The tag [UNIVERSAL 0], which is answered where there is no encoding.
fn no_tag() -> Tag
    ensures { result ≡ record { class = Universal; number = 0 } }
{
    Tag {
        class: Class::Universal,
        number: 0,
    }
}
