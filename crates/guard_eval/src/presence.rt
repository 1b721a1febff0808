//! What WITH COMPONENTS says of the presence of components and alternatives (X.680 51.8.5 to 51.8.9).
ghost use Rattle.std.specs.Prelude.{◌≡◌, map, option_map};
ghost use Rattle.guard_model.specs.TypeView.{kind_view, component_view, part_view, parts_of, presence_view};
ghost use Rattle.guard_model.specs.ValueView.{value_view, field_view, fields_view};
ghost use Rattle.guard_der.specs.Fits.{may_be_absent};
ghost use Rattle.guard_eval.specs.Presence.{element_kind, kind_at, has_parts, field_at, part_at, is_there, is_as_said};
ghost use Rattle.guard_eval.specs.Presence.{is_listed, is_ruled_out, first_ruled_out, first_intruder};

use guard_model::{Comp, Kind, Part, Presence, Value, Word};
use std::sync::Arc;

/// The kind of the elements of an OF type; of a kind without elements that kind itself.
pub fn element_kind(kind: &Kind) -> &Kind
    ensures { kind_view result.now ≡ element_kind (kind_view kind.now) }
{
    match kind {
        Kind::SequenceOf(element) => &element.kind,
        Kind::SetOf(element) => &element.kind,
        _ => kind,
    }
}

/// The kind of the component or alternative at this place, from 0; where there is none, the kind that was handed in.
pub fn kind_at(kind: &Kind, at: u8) -> &Kind
    ensures { kind_view result.now ≡ kind_at at (kind_view kind.now) }
{
    match kind.component(at) {
        Some(comp) => &comp.ty.kind,
        None => kind,
    }
}

/// Whether the value is one of a SEQUENCE, SET or CHOICE, and so has components or an alternative.
pub fn has_parts(value: &Value) -> bool
    ensures { result ≡ has_parts (value_view value.now) }
{
    match value {
        Value::Fields(_) => true,
        Value::Chosen(_, _) => true,
        _ => false,
    }
}

/// The value of the component at this place, from 0, or of the alternative there if it is the chosen one. None where
/// the component is absent or another alternative is chosen, and of a value without components.
pub fn part_at(value: &Value, at: usize) -> Option<&Value>
    ensures { option_map (λ v. value_view v.now) result ≡ part_at at (value_view value.now) }
{
    match value {
        Value::Fields(fields) => field_at(fields, at),
        Value::Chosen(place, inner) if usize::from(*place) == at => Some(inner),
        _ => None,
    }
}

/// Whether the component at this place is there, or the alternative there is the chosen one.
pub fn is_there(value: &Value, at: usize) -> bool
    ensures { result ≡ is_there at (value_view value.now) }
{
    part_at(value, at).is_some()
}

fn field_at(fields: &[Arc<Option<Value>>], at: usize) -> Option<&Value>
    ensures { option_map (λ v. value_view v.now) result ≡ field_at at (fields_view fields.now) }
{
    let field = fields.get(at)?;
    match field.as_ref() {
        Some(value) => Some(value),
        None => None,
    }
}

/// Whether a component is there or not as its presence word says; without a word, as a full list says of OPTIONAL
/// components, which must be there (X.680 51.8.6 to 51.8.9).
pub fn is_as_said(partial: bool, comp: &Comp, word: Option<Word>, there: bool) -> bool
    ensures { result ≡ is_as_said partial (component_view comp.now).presence word there }
{
    match word {
        Some(Word::Present) => there,
        Some(Word::Absent) => !there,
        Some(Word::Optional) => true,
        None => partial || !is_optional(&comp.presence) || there,
    }
}

/// Whether a component of this presence is OPTIONAL; one that has a default isn't.
pub fn is_optional(presence: &Presence) -> bool
    ensures { result ≡ may_be_absent (presence_view presence.now) }
{
    match presence {
        Presence::Mandatory => false,
        Presence::Optional => true,
        Presence::Pending => false,
        Presence::Default(_) => false,
    }
}

/// The place of the first component, or of the chosen alternative, that is there though a full list makes it absent;
/// None where there is none.
pub fn first_intruder(partial: bool, parts: &[Part], kind: &Kind, value: &Value) -> Option<usize>
    ensures { result
        ≡ first_intruder partial (kind_view kind.now) (parts_of (map part_view parts.now)) (value_view value.now) }
{
    if partial {
        return None;
    }
    let comps = kind.components();
    for (index, comp) in comps.iter().enumerate() {
        if is_ruled_out(parts, kind, index, &comp.presence) && is_there(value, index) {
            return Some(index);
        }
    }
    None
}

/// Whether a full list makes the component or alternative at this place absent: the list doesn't name it, and it is an
/// OPTIONAL component or an alternative (X.680 51.8.6).
pub fn is_ruled_out(parts: &[Part], kind: &Kind, at: usize, presence: &Presence) -> bool
    ensures { result
        ≡ is_ruled_out (kind_view kind.now) (parts_of (map part_view parts.now)) at (presence_view presence.now) }
{
    !is_listed(parts, at) && (kind.is_choice() || is_optional(presence))
}

fn is_listed(parts: &[Part], at: usize) -> bool
    ensures { result ≡ is_listed at (parts_of (map part_view parts.now)) }
{
    for part in parts {
        if usize::from(part.at) == at {
            return true;
        }
    }
    false
}
