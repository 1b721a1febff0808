//! Unions of many alternatives, asked for many values: the single values that may be the same as a value are found by its
//! key, a string's by its octets, and a SIZE by the value's size. What is found is asked, so nothing rests on how it is
//! found.
ghost use Rattle.std.specs.Prelude.{◌≡◌, IsTrue, map, pos, option_map};
ghost use Rattle.std.specs.Option.{is_none};
ghost use Rattle.guard_model.specs.TypeView.{kind_view, constraint_view, constraints_of};
ghost use Rattle.guard_model.specs.ValueView.{value_view};
ghost use Rattle.guard_eval.specs.Elements.{size_of};
ghost use Rattle.guard_eval.specs.inside.Failures.{failure_by, some_allows};
ghost use Rattle.guard_eval.specs.inside.ValueAnswers.{is_sized_by};

use crate::elements::size_of;
use crate::search::failure_by;
use crate::value_keys::key_of;
use guard_model::{Cons, Kind, OutOfMemory, Path, Rule, Value};
use std::alloc::Global;
use std::collections::BTreeMap;

/// From so many alternatives on, finding one costs less than asking each.
const MANY: usize = 256;

/// The places of a union's alternatives: those of single values by their keys, those of SIZE, and those of the others.
/// Where a constraint is no union of many, or asked for one value, there are none.
#[derive(Drop)]
pub struct Alternatives {
    singles: BTreeMap<Vec<u8>, Vec<usize>>,
    sized: Vec<usize>,
    /// Of each size looked for beforehand, the place of the first SIZE that has it; one past the end where none has it.
    sizes: BTreeMap<i128, usize>,
    others: Vec<usize>,
}

/// The places of the constraint's alternatives, if it is a union of many and more than one value is asked. Of SIZE,
/// those that have the sizes of these values are looked for, as alternatives on the kind.
pub fn alternatives_of(
    alloc: Global,
    cons: &Cons,
    kind: &Kind,
    values: &[&Value],
) -> Result<Alternatives, OutOfMemory> {
    let mut alternatives = Alternatives {
        singles: BTreeMap::new(alloc),
        sized: Vec::new(alloc),
        sizes: BTreeMap::new(alloc),
        others: Vec::new(alloc),
    };
    if let Rule::Any(list) = &cons.rule
        && list.len() >= MANY
        && values.len() > 1
    {
        for (place, one) in list.iter().enumerate() {
            add(alloc, &mut alternatives, list, place, one)?;
        }
        add_sizes(&mut alternatives, list, kind, values)?;
    }
    Ok(alternatives)
}

/// Values of many different sizes make a long text, so few sizes are looked for.
fn add_sizes(
    alternatives: &mut Alternatives,
    list: &[Cons],
    kind: &Kind,
    values: &[&Value],
) -> Result<(), OutOfMemory> {
    if alternatives.sized.is_empty() {
        return Ok(());
    }
    for value in values {
        add_size(alternatives, list, kind, value)?;
    }
    Ok(())
}

fn add_size(
    alternatives: &mut Alternatives,
    list: &[Cons],
    kind: &Kind,
    value: &Value,
) -> Result<(), OutOfMemory> {
    let size = size_of(value);
    let Some(number) = size else {
        return Ok(());
    };
    if alternatives.sizes.contains_key(&number) {
        return Ok(());
    }
    let place = first_that_allows(list, &alternatives.sized, size, kind, value);
    alternatives.sizes.insert(number, place)?;
    Ok(())
}

/// The first of the places at which an alternative has the value; one past the end of the list where there is none.
fn first_that_allows(
    list: &[Cons],
    places: &[usize],
    size: Option<i128>,
    kind: &Kind,
    value: &Value,
) -> usize
    requires { size ≡ option_map pos (size_of (value_view value.now)) }
{
    for at in places {
        if allows_at(list, *at, size, kind, value) {
            return *at;
        }
    }
    list.len()
}

fn add(
    alloc: Global,
    alternatives: &mut Alternatives,
    list: &[Cons],
    place: usize,
    one: &Cons,
) -> Result<(), OutOfMemory> {
    match &one.rule {
        Rule::One(value) => match octets_of(value) {
            Some(octets) => add_string(alloc, alternatives, place, octets),
            None => add_single(alloc, alternatives, list, place, value),
        },
        Rule::Size(_) => Ok(alternatives.sized.push(place)?),
        _ => Ok(alternatives.others.push(place)?),
    }
}

/// Values may be shared, so the octets of one that was there before aren't copied again.
fn add_string(
    alloc: Global,
    alternatives: &mut Alternatives,
    place: usize,
    octets: &[u8],
) -> Result<(), OutOfMemory> {
    if alternatives.singles.contains_key(octets) {
        return Ok(());
    }
    add_first(alloc, alternatives, place, octets)
}

/// A value that is the same as the last one with its key isn't added again.
fn add_single(
    alloc: Global,
    alternatives: &mut Alternatives,
    list: &[Cons],
    place: usize,
    value: &Value,
) -> Result<(), OutOfMemory> {
    let key = key_of(value);
    match alternatives.singles.get_mut(key.as_slice()) {
        Some(places) => {
            if !is_last(list, places, value) {
                places.push(place)?;
            }
            Ok(())
        }
        None => add_first(alloc, alternatives, place, key.as_slice()),
    }
}

fn add_first(
    alloc: Global,
    alternatives: &mut Alternatives,
    place: usize,
    key: &[u8],
) -> Result<(), OutOfMemory> {
    let mut places = Vec::new(alloc);
    places.push(place)?;
    alternatives
        .singles
        .insert(Vec::from_slice(alloc, key)?, places)?;
    Ok(())
}

/// Whether the single value at the last of the places is the same as this one.
fn is_last(list: &[Cons], places: &[usize], value: &Value) -> bool {
    let Some(last) = places.last() else {
        return false;
    };
    match list.get(*last) {
        Some(one) => is_single(one, value),
        None => false,
    }
}

fn is_single(cons: &Cons, value: &Value) -> bool {
    match &cons.rule {
        Rule::One(single) => single.same(value),
        _ => false,
    }
}

/// The octets of a string.
fn octets_of(value: &Value) -> Option<&[u8]> {
    match value {
        Value::Bits(bits) => Some(&bits.octets),
        Value::Octets(octets) => Some(octets),
        Value::Chars(text) => Some(text.as_bytes()),
        _ => None,
    }
}

/// The places of the single values with the value's key.
fn places_of<'a>(alternatives: &'a Alternatives, value: &Value) -> Option<&'a Vec<usize>> {
    match octets_of(value) {
        Some(octets) => alternatives.singles.get(octets),
        None => alternatives.singles.get(key_of(value).as_slice()),
    }
}

/// The place found beforehand for this size.
fn place_of_size(alternatives: &Alternatives, size: Option<i128>) -> Option<usize> {
    match size {
        Some(size) => alternatives.sizes.get(&size).copied(),
        None => None,
    }
}

/// Whether the constraint has the value: a union is asked for the alternatives that are found, and then for all.
pub fn allows(alternatives: Option<&Alternatives>, cons: &Cons, kind: &Kind, value: &Value) -> bool
    ensures { result ≡ is_none (failure_by (constraint_view cons.now) (kind_view kind.now) (value_view value.now)) }
{
    match (&cons.rule, alternatives) {
        (Rule::Any(list), Some(alternatives)) => union_allows(alternatives, list, kind, value),
        _ => failure_by(&mut Path::new(), cons, kind, value).is_none(),
    }
}

/// Whether an alternative has the value, whose size is found once.
fn union_allows(alternatives: &Alternatives, list: &[Cons], kind: &Kind, value: &Value) -> bool
    ensures { result
        ≡ some_allows (constraints_of (map constraint_view list.now)) (kind_view kind.now) (value_view value.now) }
{
    let size = size_of(value);
    some_found_allows(alternatives, list, size, kind, value) || some_allows(list, size, kind, value)
}

fn some_allows(list: &[Cons], size: Option<i128>, kind: &Kind, value: &Value) -> bool
    requires { size ≡ option_map pos (size_of (value_view value.now)) }
    ensures { result
        ≡ some_allows (constraints_of (map constraint_view list.now)) (kind_view kind.now) (value_view value.now) }
{
    for one in list {
        if one_allows(one, size, kind, value) {
            return true;
        }
    }
    false
}

/// True where a single value with the same key has the value, the SIZE that was found for its size, or an alternative
/// that is neither.
fn some_found_allows(
    alternatives: &Alternatives,
    list: &[Cons],
    size: Option<i128>,
    kind: &Kind,
    value: &Value,
) -> bool
    requires { size ≡ option_map pos (size_of (value_view value.now)) }
    ensures { IsTrue result → IsTrue (some_allows (constraints_of (map constraint_view list.now)) (kind_view kind.now)
        (value_view value.now)) }
{
    if let Some(places) = places_of(alternatives, value)
        && some_at_allows(list, places, size, kind, value)
    {
        return true;
    }
    if let Some(place) = place_of_size(alternatives, size)
        && allows_at(list, place, size, kind, value)
    {
        return true;
    }
    some_at_allows(list, &alternatives.others, size, kind, value)
}

/// Whether an alternative at one of these places has the value.
fn some_at_allows(
    list: &[Cons],
    places: &[usize],
    size: Option<i128>,
    kind: &Kind,
    value: &Value,
) -> bool
    requires { size ≡ option_map pos (size_of (value_view value.now)) }
    ensures { IsTrue result → IsTrue (some_allows (constraints_of (map constraint_view list.now)) (kind_view kind.now)
        (value_view value.now)) }
{
    for place in places {
        if allows_at(list, *place, size, kind, value) {
            return true;
        }
    }
    false
}

/// Whether the alternative at this place has the value.
fn allows_at(list: &[Cons], place: usize, size: Option<i128>, kind: &Kind, value: &Value) -> bool
    requires { size ≡ option_map pos (size_of (value_view value.now)) }
    ensures { IsTrue result → IsTrue (some_allows (constraints_of (map constraint_view list.now)) (kind_view kind.now)
        (value_view value.now)) }
{
    match list.get(place) {
        Some(one) => one_allows(one, size, kind, value),
        None => false,
    }
}

/// Whether the constraint has the value, which has this size.
fn one_allows(one: &Cons, size: Option<i128>, kind: &Kind, value: &Value) -> bool
    requires { size ≡ option_map pos (size_of (value_view value.now)) }
    ensures { result ≡ is_none (failure_by (constraint_view one.now) (kind_view kind.now) (value_view value.now)) }
{
    match &one.rule {
        Rule::Size(sizes) => is_sized(sizes, size, kind, value),
        _ => failure_by(&mut Path::new(), one, kind, value).is_none(),
    }
}

/// Whether the constraint has the size of the value, as a number.
fn is_sized(sizes: &Cons, size: Option<i128>, kind: &Kind, value: &Value) -> bool
    requires { size ≡ option_map pos (size_of (value_view value.now)) }
    ensures { result ≡ is_sized_by (kind_view kind.now) (value_view value.now) (constraint_view sizes.now) }
{
    match size {
        Some(size) => failure_by(&mut Path::new(), sizes, kind, &Value::Int(size)).is_none(),
        None => false,
    }
}
