//! The parts of many values at one place, and the elements of many lists.
ghost use Rattle.std.specs.Prelude.{◌≡◌, ◌++◌, IfOk, OnOk, option_map, map};
ghost use Rattle.guard_model.specs.ValueView.{value_view};
ghost use Rattle.guard_eval.specs.inside.Gathered.{parts_at};
ghost use Rattle.guard_eval.specs.inside.Together.{part_of, column, elements_in, elements_of, values_view};

use crate::presence::part_at;
use guard_model::{OutOfMemory, Value};
use std::alloc::Global;

/// The parts of the values at this place that are there: components, or chosen alternatives.
pub fn column<'a>(
    alloc: Global,
    of_choice: bool,
    place: usize,
    values: &[&'a Value],
) -> Result<Vec<&'a Value>, OutOfMemory>
    ensures { IfOk result (λ parts. values_view parts.items ≡ column of_choice place (values_view values.now)) }
{
    let mut parts = Vec::new(alloc);
    for value in values {
        if let Some(part) = part_of(of_choice, value, place) {
            parts.push(part)?;
        }
    }
    Ok(parts)
}

/// The parts of the values at this place that are there, be they components or chosen alternatives.
pub fn parts_at<'a>(
    alloc: Global,
    place: usize,
    values: &[&'a Value],
) -> Result<Vec<&'a Value>, OutOfMemory>
    ensures { IfOk result (λ parts. values_view parts.items ≡ parts_at place (values_view values.now)) }
{
    let mut parts = Vec::new(alloc);
    for value in values {
        if let Some(part) = part_at(value, place) {
            parts.push(part)?;
        }
    }
    Ok(parts)
}

/// The value's component at this place that isn't absent, or its alternative there if it is the chosen one; of a value
/// that has none of the kind that is asked for, nothing.
pub fn part_of(of_choice: bool, value: &Value, place: usize) -> Option<&Value>
    ensures { option_map (λ v. value_view v.now) result ≡ part_of of_choice place (value_view value.now) }
{
    match (of_choice, value) {
        (true, Value::Chosen(_, _)) => part_at(value, place),
        (false, Value::Fields(_)) => part_at(value, place),
        _ => None,
    }
}

/// How many elements the values have; no more than the greatest number.
pub fn count_elements(values: &[&Value]) -> usize {
    let mut count: usize = 0;
    for value in values {
        count = count.saturating_add(items_in(value).len());
    }
    count
}

/// The elements of all values.
pub fn elements_of<'a>(alloc: Global, values: &[&'a Value]) -> Result<Vec<&'a Value>, OutOfMemory>
    ensures { IfOk result (λ elements. values_view elements.items ≡ elements_of (values_view values.now)) }
{
    let mut elements = Vec::new(alloc);
    for value in values {
        add_items(&mut elements, items_in(value))?;
    }
    Ok(elements)
}

/// The elements of one list, each by a reference.
pub fn elements_in<'a>(alloc: Global, items: &'a [Value]) -> Result<Vec<&'a Value>, OutOfMemory>
    ensures { IfOk result (λ elements. values_view elements.items ≡ map value_view items.now) }
{
    let mut elements = Vec::new(alloc);
    add_items(&mut elements, items)?;
    Ok(elements)
}

fn add_items<'a>(elements: &mut Vec<&'a Value>, items: &'a [Value]) -> Result<(), OutOfMemory>
    ensures { OnOk result (values_view elements.new.items
        ≡ values_view elements.old.items ++ map value_view items.now) }
{
    for item in items {
        elements.push(item)?;
    }
    Ok(())
}

/// The elements of a list; other values have none.
pub fn items_in(value: &Value) -> &[Value]
    ensures { map value_view result.now ≡ elements_in (value_view value.now) }
{
    match value {
        Value::Items(items) => items,
        _ => &[],
    }
}
