//! The encoding of a value, however long.
ghost use Rattle.std.specs.Prelude.{◌≡◌, map, IsTrue};
ghost use Rattle.guard_model.specs.Answer.{Gives};
ghost use Rattle.guard_model.specs.TypeView.{type_view, kind_view, component_view, components_of, presence_view};
ghost use Rattle.guard_model.specs.ValueView.{value_view, field_view, fields_view, items_view};
ghost use Rattle.guard_der.specs.Der.{der, contents_octets, parts_of, alternative_octets, item_encodings};
ghost use Rattle.guard_der.specs.Fits.{fits, fits_kind, fits_fields, fits_alternative, every_fits, fits_field};
ghost use Rattle.guard_der.specs.Encoding.{refusal, or_too_long};
ghost use Rattle.guard_der.specs.inside.EncodingSteps.{part_of, parts_view, with_parts, all_joined};
ghost use Rattle.guard_der.specs.inside.EncodingSteps.{sequence_octets, set_octets};

use crate::encoding::EncodeFault;
use crate::encoding::element::tagged;
use crate::encoding::first_tag::outermost;
use crate::encoding::parts::{EncodedPart, ascending, joined};
use crate::encoding::simple::{bit_string, boolean, characters, integer, object_identifier};
use crate::forms::is_constructed;
use crate::presence::is_left_out;
use guard_model::{Comp, Kind, Presence, Ty, Value};
use std::alloc::Global;
use std::sync::Arc;

/// The encoding of a value, however long. TooLong where a length in it would need more than four octets. Condition: the
/// value fits the type, constraints aside.
#[cycle(encoding)]
pub fn encoding(alloc: Global, ty: &Ty, value: &Value) -> Result<Vec<u8>, EncodeFault>
    requires { IsTrue (fits (type_view ty.now) (value_view value.now)) }
    ensures { Gives (λ v. v.items) refusal result (or_too_long (der (type_view ty.now) (value_view value.now))) }
{
    let inside = contents(alloc, &ty.kind, value)?;
    tagged(alloc, &ty.tags, is_constructed(&ty.kind), inside)
}

/// The contents octets of a value. TooLong where a length in them would need more than four octets. Condition: the
/// value fits the kind, constraints aside.
#[cycle(encoding)]
pub fn contents(alloc: Global, kind: &Kind, value: &Value) -> Result<Vec<u8>, EncodeFault>
    requires { IsTrue (fits_kind (kind_view kind.now) (value_view value.now)) }
    ensures { Gives (λ v. v.items) refusal result
        (or_too_long (contents_octets (kind_view kind.now) (value_view value.now))) }
{
    match (kind, value) {
        (Kind::Bool, Value::Bool(truth)) => Ok(boolean(alloc, *truth)?),
        (Kind::Int(_), Value::Int(number)) => Ok(integer(alloc, *number)?),
        (Kind::Bits(_), Value::Bits(bits)) => Ok(bit_string(alloc, bits)?),
        (Kind::Octets, Value::Octets(octets)) => Ok(Vec::from_slice(alloc, octets)?),
        (Kind::Null, Value::Null) => Ok(Vec::new(alloc)),
        (Kind::Oid, Value::Oid(arcs)) => Ok(object_identifier(alloc, arcs)?),
        (Kind::Enumerated(_), Value::Enumerated(number)) => Ok(integer(alloc, *number)?),
        (Kind::Chars(kind), Value::Chars(text)) => Ok(characters(alloc, *kind, text)?),
        (Kind::Sequence(comps), Value::Fields(fields)) => sequence(alloc, comps, fields),
        (Kind::Set(comps), Value::Fields(fields)) => set(alloc, comps, fields),
        (Kind::Choice(alternatives), Value::Chosen(at, value)) => {
            alternative(alloc, alternatives, usize::from(*at), value)
        }
        (Kind::SequenceOf(element), Value::Items(items)) => elements(alloc, element, items),
        (Kind::SetOf(element), Value::Items(items)) => elements(alloc, element, items),
        _ => Err(EncodeFault::TooLong),
    }
}

/// The contents octets of a SEQUENCE: what is sent of the components, in written order (X.690 8.9.2).
#[cycle(encoding)]
fn sequence(
    alloc: Global,
    comps: &[Comp],
    fields: &[Arc<Option<Value>>],
) -> Result<Vec<u8>, EncodeFault>
    requires { IsTrue (fits_fields (components_of (map component_view comps.now)) (fields_view fields.now)) }
    ensures { Gives (λ v. v.items) refusal result (or_too_long
        (sequence_octets (parts_of (components_of (map component_view comps.now)) (fields_view fields.now)))) }
{
    let parts = parts(alloc, comps, fields)?;
    Ok(joined(alloc, &parts)?)
}

/// The contents octets of a SET: what is sent of the components, in ascending order of tags (X.690 10.3).
#[cycle(encoding)]
fn set(alloc: Global, comps: &[Comp], fields: &[Arc<Option<Value>>]) -> Result<Vec<u8>, EncodeFault>
    requires { IsTrue (fits_fields (components_of (map component_view comps.now)) (fields_view fields.now)) }
    ensures { Gives (λ v. v.items) refusal result
        (or_too_long (set_octets (parts_of (components_of (map component_view comps.now)) (fields_view fields.now)))) }
{
    let parts = parts(alloc, comps, fields)?;
    let sorted = ascending(alloc, parts)?;
    Ok(joined(alloc, &sorted)?)
}

/// The encoding of the chosen alternative.
#[cycle(encoding)]
fn alternative(
    alloc: Global,
    alternatives: &[Comp],
    at: usize,
    value: &Value,
) -> Result<Vec<u8>, EncodeFault>
    requires { IsTrue
        (fits_alternative (components_of (map component_view alternatives.now)) at (value_view value.now)) }
    ensures { Gives (λ v. v.items) refusal result (or_too_long
        (alternative_octets (components_of (map component_view alternatives.now)) at (value_view value.now))) }
{
    if at >= alternatives.len() {
        return Err(EncodeFault::TooLong);
    }
    encoding(alloc, &alternatives[at].ty, value)
}

/// What is sent of the components, in written order.
#[cycle(encoding)]
fn parts(
    alloc: Global,
    comps: &[Comp],
    fields: &[Arc<Option<Value>>],
) -> Result<Vec<EncodedPart>, EncodeFault>
    requires { IsTrue (fits_fields (components_of (map component_view comps.now)) (fields_view fields.now)) }
    ensures { Gives (λ v. parts_view v.items) refusal result
        (or_too_long (parts_of (components_of (map component_view comps.now)) (fields_view fields.now))) }
{
    if comps.len() != fields.len() {
        return Err(EncodeFault::TooLong);
    }
    let mut parts = Vec::with_capacity(alloc, comps.len())?;
    for index in 0..comps.len() {
        let comp = &comps[index];
        push_part(alloc, &mut parts, &comp.presence, &comp.ty, &fields[index])?;
    }
    Ok(parts)
}

/// Appends what is sent of one component.
#[cycle(encoding)]
fn push_part(
    alloc: Global,
    parts: &mut Vec<EncodedPart>,
    presence: &Presence,
    ty: &Ty,
    field: &Option<Value>,
) -> Result<(), EncodeFault>
    requires { IsTrue (fits_field (presence_view presence.now) (type_view ty.now) (field_view field.now)) }
    ensures { Gives (λ _. parts_view parts.new.items) refusal result (or_too_long (with_parts (parts_view
        parts.old.items) (part_of (presence_view presence.now) (type_view ty.now) (field_view field.now)))) }
{
    let Some(value) = field else {
        return Ok(());
    };
    if is_left_out(presence, value) {
        return Ok(());
    }
    let octets = encoding(alloc, ty, value)?;
    Ok(parts.push(EncodedPart {
        tag: outermost(ty, value),
        octets,
    })?)
}

/// The encodings of an OF type's elements, one after the other.
#[cycle(encoding)]
fn elements(alloc: Global, ty: &Ty, items: &[Value]) -> Result<Vec<u8>, EncodeFault>
    requires { IsTrue (every_fits (fits (type_view ty.now)) (items_view items.now)) }
    ensures { Gives (λ v. v.items) refusal result
        (or_too_long (all_joined (item_encodings (der (type_view ty.now)) (items_view items.now)))) }
{
    let mut out = Vec::new(alloc);
    for item in items {
        let octets = encoding(alloc, ty, item)?;
        out.extend_from_slice(&octets)?;
    }
    Ok(out)
}
