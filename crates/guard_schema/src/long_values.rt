//! Single values in constraints whose encodings are longer than may be: of a type that is referred to under more tags,
//! or under another one.
ghost use Rattle.std.specs.Prelude.{◌≡◌, IfOk, map};
ghost use Rattle.guard_model.specs.TypeView.{type_view, constraint_view, constraints_of};
ghost use Rattle.guard_model.specs.ValueView.{value_view};
ghost use Rattle.guard_schema.specs.Faults.{named};
ghost use Rattle.guard_schema.specs.LongValues as long_values;
ghost use Rattle.guard_schema.specs.Outcomes.{Answers};
ghost use Rattle.guard_schema.specs.Readings.{HasShortValues};

use crate::fault::SchemaFault;
use guard_der::is_too_long;
use guard_model::{Cons, OutOfMemory, Rule, Site, Ty, Value};
use guard_values::ValueFault;
use std::alloc::Global;

/// The type's own constraints must have none: the fault (`ValueFault::TooLarge`) is where the first one is.
pub fn check_values(alloc: Global, ty: &Ty) -> Result<(), SchemaFault>
    ensures { Answers (λ u. u) named result (HasShortValues (type_view ty.now)) }
{
    match long_in_all(alloc, &ty.cons, ty)? {
        None => Ok(()),
        Some(site) => Err(SchemaFault::Value(ValueFault::TooLarge(site))),
    }
}

/// Where the first one is in constraints on the type.
#[cycle(long_in)]
fn long_in_all(alloc: Global, all: &[Cons], ty: &Ty) -> Result<Option<Site>, OutOfMemory>
    ensures { IfOk result
        (λ site. site ≡ long_values.long_in_all (type_view ty.now) (constraints_of (map constraint_view all.now))) }
{
    for cons in all {
        if let Some(site) = long_in(alloc, cons, ty)? {
            return Ok(Some(site));
        }
    }
    Ok(None)
}

#[cycle(long_in)]
fn long_in(alloc: Global, cons: &Cons, ty: &Ty) -> Result<Option<Site>, OutOfMemory>
    ensures { IfOk result (λ site. site ≡ long_values.long_in (type_view ty.now) (constraint_view cons.now)) }
{
    match &cons.rule {
        Rule::One(value) => long_value(alloc, cons.site, ty, value),
        Rule::Any(all) => long_in_all(alloc, all, ty),
        Rule::Both(all) => long_in_all(alloc, all, ty),
        Rule::Minus(first, second) => match long_in(alloc, first, ty)? {
            Some(site) => Ok(Some(site)),
            None => long_in(alloc, second, ty),
        },
        Rule::Other(inner) => long_in(alloc, inner, ty),
        _ => Ok(None),
    }
}

/// The site, where the value that is there is one of the type's and too long.
fn long_value(
    alloc: Global,
    site: Site,
    ty: &Ty,
    value: &Value,
) -> Result<Option<Site>, OutOfMemory>
    ensures { IfOk result
        (λ found. found ≡ long_values.site_where (long_values.is_long (type_view ty.now) (value_view value.now)) site) }
{
    if is_too_long(alloc, ty, value)? {
        return Ok(Some(site));
    }
    Ok(None)
}
