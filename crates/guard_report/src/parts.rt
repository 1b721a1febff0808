//! The part of a value that a path names.
ghost use Rattle.std.specs.Prelude.{◌≡◌, IfOk, Some, option_map};
ghost use Rattle.guard_model.specs.TypeView.{type_view};
ghost use Rattle.guard_model.specs.ValueView.{value_view};
ghost use Rattle.guard_report.specs.Parts.{value_at, value_within, element_at, type_at, part_octets};

use super::layout::Layout;
use super::path::type_within;
use super::values::add_value;
use guard_eval::part_at;
use guard_model::{OutOfMemory, Step, Ty, Value};
use std::alloc::Global;

/// The part of the value that the path names; None where there is no such part, as where a component is absent or
/// another alternative is chosen.
pub fn value_at<'a>(value: &'a Value, path: &[Step]) -> Option<&'a Value>
    ensures { option_map (λ v. value_view v.now) result ≡ value_at path.now (value_view value.now) }
{
    let mut inner = value;
    for step in path {
        inner = value_within(inner, *step)?;
    }
    Some(inner)
}

/// The part of a value one step further in; None where there is none.
fn value_within(value: &Value, step: Step) -> Option<&Value>
    ensures { option_map (λ v. value_view v.now) result ≡ value_within (value_view value.now) step }
{
    match step {
        Step::Component(place) => part_at(value, usize::from(place)),
        Step::Element(place) => element_at(value, place as usize),
    }
}

/// The element at this place, from 0; None where there is none, or the value is no list.
fn element_at(value: &Value, place: usize) -> Option<&Value>
    ensures { option_map (λ v. value_view v.now) result ≡ element_at place (value_view value.now) }
{
    match value {
        Value::Items(items) => items.get(place),
        _ => None,
    }
}

/// The type of the part that the path names in a value of the type; None where the type has no such part.
pub fn type_at<'a>(ty: &'a Ty, path: &[Step]) -> Option<&'a Ty>
    ensures { option_map (λ t. type_view t.now) result ≡ type_at path.now (Some (type_view ty.now)) }
{
    let mut inner = Some(ty);
    for step in path {
        inner = type_within(inner, *step);
    }
    inner
}

/// The text, in ASN.1 value notation and on one line, of the part of a value of the type that the path names; None
/// where there is no such part. OutOfMemory is the only error.
pub fn part_text(
    alloc: Global,
    ty: &Ty,
    value: &Value,
    path: &[Step],
) -> Result<Option<Vec<u8>>, OutOfMemory>
    ensures { IfOk result (λ text.
        option_map (λ t. t.items) text ≡ part_octets (type_view ty.now) (value_view value.now) path.now) }
{
    let Some(part) = value_at(value, path) else {
        return Ok(None);
    };
    let mut text = Vec::new(alloc);
    add_value(alloc, &mut text, Layout::Line, type_at(ty, path), part)?;
    Ok(Some(text))
}
