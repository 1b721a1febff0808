//! Which values a type has, constraints aside.
ghost use Rattle.std.specs.Prelude.{◌≡◌, map, IfOk};
ghost use Rattle.guard_model.specs.TypeView.{type_view, kind_view, component_view, components_of, presence_view};
ghost use Rattle.guard_model.specs.ValueView.{value_view, field_view, fields_view, items_view};
ghost use Rattle.guard_der.specs.Der.{der};
ghost use Rattle.guard_der.specs.Fits.{fits, fits_kind, fits_fields, fits_alternative, every_fits};
ghost use Rattle.guard_der.specs.Fits.{may_be_absent, fits_field, fits_items, fits_set};

pub(crate) mod ascending;
pub(crate) mod simple;

use crate::fitting::ascending::are_ascending;
use crate::fitting::simple::{arcs_fit, are_octets, bits_fit, is_in_range};
use guard_model::{Comp, Kind, MOST_ITEMS, OutOfMemory, Presence, Ty, Value};
use std::alloc::Global;
use std::sync::Arc;

/// Whether the value is one of the type's, constraints aside: it is of the kind and within its limits, has a value at
/// each component that isn't OPTIONAL, and all that is inside it fits. The elements of a SET OF have encodings, none of
/// which descends to the next (X.690 11.6). There is no condition: the type need not be sound. OutOfMemory is the only
/// error.
#[cycle(fitting)]
pub fn fits(alloc: Global, ty: &Ty, value: &Value) -> Result<bool, OutOfMemory>
    ensures exact { IfOk result (λ b. b ≡ fits (type_view ty.now) (value_view value.now)) }
{
    kind_fits(alloc, &ty.kind, value)
}

#[cycle(fitting)]
fn kind_fits(alloc: Global, kind: &Kind, value: &Value) -> Result<bool, OutOfMemory>
    ensures { IfOk result (λ b. b ≡ fits_kind (kind_view kind.now) (value_view value.now)) }
{
    match (kind, value) {
        (Kind::Bool, Value::Bool(_)) => Ok(true),
        (Kind::Int(_), Value::Int(number)) => Ok(is_in_range(*number)),
        (Kind::Bits(names), Value::Bits(bits)) => Ok(bits_fit(names.as_slice(), bits)),
        (Kind::Octets, Value::Octets(octets)) => Ok(are_octets(octets)),
        (Kind::Null, Value::Null) => Ok(true),
        (Kind::Oid, Value::Oid(arcs)) => Ok(arcs_fit(arcs)),
        (Kind::Enumerated(items), Value::Enumerated(number)) => {
            Ok(is_in_range(*number) && items.has_number(*number))
        }
        (Kind::Chars(kind), Value::Chars(text)) => Ok(kind.has_all(text)),
        (Kind::Sequence(comps), Value::Fields(fields)) => fields_fit(alloc, comps, fields),
        (Kind::Set(comps), Value::Fields(fields)) => fields_fit(alloc, comps, fields),
        (Kind::Choice(alternatives), Value::Chosen(at, value)) => {
            alternative_fits(alloc, alternatives, usize::from(*at), value)
        }
        (Kind::SequenceOf(element), Value::Items(items)) => items_fit(alloc, element, items),
        (Kind::SetOf(element), Value::Items(items)) => set_fits(alloc, element, items),
        _ => Ok(false),
    }
}

/// Whether there is a fitting value at each component, or none at an OPTIONAL one.
#[cycle(fitting)]
fn fields_fit(
    alloc: Global,
    comps: &[Comp],
    fields: &[Arc<Option<Value>>],
) -> Result<bool, OutOfMemory>
    ensures { IfOk result
        (λ b. b ≡ fits_fields (components_of (map component_view comps.now)) (fields_view fields.now)) }
{
    if comps.len() != fields.len() {
        return Ok(false);
    }
    for index in 0..comps.len() {
        let comp = &comps[index];
        if !field_fits(alloc, &comp.presence, &comp.ty, &fields[index])? {
            return Ok(false);
        }
    }
    Ok(true)
}

#[cycle(fitting)]
fn field_fits(
    alloc: Global,
    presence: &Presence,
    ty: &Ty,
    field: &Option<Value>,
) -> Result<bool, OutOfMemory>
    ensures { IfOk result (λ b. b ≡ fits_field (presence_view presence.now) (type_view ty.now) (field_view field.now)) }
{
    match field {
        Some(value) => fits(alloc, ty, value),
        None => Ok(may_be_absent(presence)),
    }
}

fn may_be_absent(presence: &Presence) -> bool
    ensures { result ≡ may_be_absent (presence_view presence.now) }
{
    match presence {
        Presence::Mandatory => false,
        Presence::Optional => true,
        Presence::Pending => false,
        Presence::Default(_) => false,
    }
}

#[cycle(fitting)]
fn alternative_fits(
    alloc: Global,
    alternatives: &[Comp],
    at: usize,
    value: &Value,
) -> Result<bool, OutOfMemory>
    ensures { IfOk result
        (λ b. b ≡ fits_alternative (components_of (map component_view alternatives.now)) at (value_view value.now)) }
{
    if at >= alternatives.len() {
        return Ok(false);
    }
    fits(alloc, &alternatives[at].ty, value)
}

/// Whether there are at most 4,294,967,295 elements, each of them fitting.
#[cycle(fitting)]
fn items_fit(alloc: Global, ty: &Ty, items: &[Value]) -> Result<bool, OutOfMemory>
    ensures { IfOk result (λ b. b ≡ fits_items (fits (type_view ty.now)) (items_view items.now)) }
{
    if items.len() > MOST_ITEMS {
        return Ok(false);
    }
    all_fit(alloc, ty, items)
}

#[cycle(fitting)]
fn all_fit(alloc: Global, ty: &Ty, items: &[Value]) -> Result<bool, OutOfMemory>
    ensures { IfOk result (λ b. b ≡ every_fits (fits (type_view ty.now)) (items_view items.now)) }
{
    for item in items {
        if !fits(alloc, ty, item)? {
            return Ok(false);
        }
    }
    Ok(true)
}

/// Whether the elements of a SET OF fit, few enough, and their encodings ascend.
#[cycle(fitting)]
fn set_fits(alloc: Global, ty: &Ty, items: &[Value]) -> Result<bool, OutOfMemory>
    ensures { IfOk result
        (λ b. b ≡ fits_set (fits (type_view ty.now)) (der (type_view ty.now)) (items_view items.now)) }
{
    if !items_fit(alloc, ty, items)? {
        return Ok(false);
    }
    are_ascending(alloc, ty, items)
}
