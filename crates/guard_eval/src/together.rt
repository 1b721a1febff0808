//! Members of a type, found of many values of one type together: what its own constraints allow is found out once for
//! all of them, then the parts are asked column by column, and the elements of all lists at once.
ghost use Rattle.std.specs.Prelude.{◌≡◌, IfOk, IsTrue, map};
ghost use Rattle.std.specs.List.{list_all};
ghost use Rattle.guard_model.specs.TypeView.{type_view, kind_view, component_view, components_of};
ghost use Rattle.guard_model.specs.ValueView.{value_view};
ghost use Rattle.guard_der.specs.Fits.{fits};
ghost use Rattle.guard_der.specs.Sound.{is_sound};
ghost use Rattle.guard_eval.specs.Member.{is_member};
ghost use Rattle.guard_eval.specs.inside.Together.{keeps, keeps_inside, parts_keep, values_view, column, elements_of};
ghost use Rattle.guard_eval.specs.inside.Together.{elements_in};

use crate::columns::{column, count_elements, elements_in, elements_of, items_in, part_of};
use crate::free_types::is_free;
use crate::own_answers::all_keep_own;
use crate::search::failure_of_items;
use guard_model::{Comp, Kind, OutOfMemory, Path, Ty, Value};
use std::alloc::Global;

/// So many elements are gathered at most. Lists may be shared, so there may be far more than a text has characters.
const MOST: usize = 1_000_000;

/// Whether a value is a member of the type, as `member` says (X.680 clauses 49 to 51). Where it has many parts of one
/// type, the constraints of their type aren't asked for each of them: numbers are looked up in a set of what they
/// allow. Conditions: the type is sound, and the value fits it. OutOfMemory is the only error.
pub fn member_of(alloc: Global, ty: &Ty, value: &Value) -> Result<bool, OutOfMemory>
    requires sound { IsTrue (is_sound (type_view ty.now)) }
    requires fits { IsTrue (fits (type_view ty.now) (value_view value.now)) }
    ensures { IfOk result (λ b. b ≡ is_member (type_view ty.now) (value_view value.now)) }
{
    all_keep(alloc, ty, &[value])
}

/// Whether each of the values keeps the type's own constraints and those of its parts.
#[cycle(together)]
fn all_keep(alloc: Global, ty: &Ty, values: &[&Value]) -> Result<bool, OutOfMemory>
    ensures { IfOk result (λ b. b ≡ list_all (keeps (type_view ty.now)) (values_view values.now)) }
{
    if !all_keep_own(alloc, ty, values)? {
        return Ok(false);
    }
    all_keep_inside(alloc, &ty.kind, values)
}

/// Whether the parts of each of the values keep their types.
#[cycle(together)]
fn all_keep_inside(alloc: Global, kind: &Kind, values: &[&Value]) -> Result<bool, OutOfMemory>
    ensures { IfOk result (λ b. b ≡ list_all (keeps_inside (kind_view kind.now)) (values_view values.now)) }
{
    match kind {
        Kind::Sequence(comps) => all_keep_parts(alloc, false, comps, values),
        Kind::Set(comps) => all_keep_parts(alloc, false, comps, values),
        Kind::Choice(comps) => all_keep_parts(alloc, true, comps, values),
        Kind::SequenceOf(ty) => all_keep_elements(alloc, ty, values),
        Kind::SetOf(ty) => all_keep_elements(alloc, ty, values),
        _ => Ok(true),
    }
}

/// Whether the components of each of the values, or the chosen alternatives, keep their types.
#[cycle(together)]
fn all_keep_parts(
    alloc: Global,
    of_choice: bool,
    comps: &[Comp],
    values: &[&Value],
) -> Result<bool, OutOfMemory>
    ensures { IfOk result (λ b. b ≡ list_all (parts_keep of_choice 0 (components_of (map component_view comps.now)))
        (values_view values.now)) }
{
    for (place, comp) in comps.iter().enumerate() {
        if !column_keeps(alloc, of_choice, place, &comp.ty, values)? {
            return Ok(false);
        }
    }
    Ok(true)
}

/// Whether the parts at this place keep their type. The part of one value alone is asked without taking memory.
#[cycle(together)]
fn column_keeps(
    alloc: Global,
    of_choice: bool,
    place: usize,
    ty: &Ty,
    values: &[&Value],
) -> Result<bool, OutOfMemory>
    ensures { IfOk result (λ b. b ≡ list_all (keeps (type_view ty.now)) (column of_choice place (values_view values.now))) }
{
    if let [value] = values {
        return match part_of(of_choice, value, place) {
            Some(part) => all_keep(alloc, ty, &[part]),
            None => Ok(true),
        };
    }
    if is_free(ty, &mut values.len()) {
        return Ok(true);
    }
    let parts = column(alloc, of_choice, place, values)?;
    all_keep(alloc, ty, &parts)
}

/// Whether the elements of all values keep their type. Where they are too many to be gathered, they are asked list by
/// list.
#[cycle(together)]
fn all_keep_elements(alloc: Global, ty: &Ty, values: &[&Value]) -> Result<bool, OutOfMemory>
    ensures { IfOk result (λ b. b ≡ list_all (keeps (type_view ty.now)) (elements_of (values_view values.now))) }
{
    let count = count_elements(values);
    if is_free(ty, &mut count.min(MOST)) {
        return Ok(true);
    }
    if count > MOST {
        return lists_keep(alloc, ty, values);
    }
    let elements = elements_of(alloc, values)?;
    all_keep(alloc, ty, &elements)
}

#[cycle(together)]
fn lists_keep(alloc: Global, ty: &Ty, values: &[&Value]) -> Result<bool, OutOfMemory>
    ensures { IfOk result (λ b. b ≡ list_all (keeps (type_view ty.now)) (elements_of (values_view values.now))) }
{
    for value in values {
        if !list_keeps(alloc, ty, value)? {
            return Ok(false);
        }
    }
    Ok(true)
}

/// Whether the elements of the value keep the type. Those of a list that is itself too long are asked by the walk that
/// finds the first failure.
#[cycle(together)]
fn list_keeps(alloc: Global, ty: &Ty, value: &Value) -> Result<bool, OutOfMemory>
    ensures { IfOk result (λ b. b ≡ list_all (keeps (type_view ty.now)) (elements_in (value_view value.now))) }
{
    let items = items_in(value);
    if items.len() > MOST {
        return Ok(elements_keep(ty, value));
    }
    let elements = elements_in(alloc, items)?;
    all_keep(alloc, ty, &elements)
}

/// Whether each element of the value keeps the type, asked by the walk that finds the first failure.
fn elements_keep(ty: &Ty, value: &Value) -> bool
    ensures { result ≡ list_all (keeps (type_view ty.now)) (elements_in (value_view value.now)) }
{
    failure_of_items(&mut Path::new(), ty, items_in(value)).is_none()
}
