//! Constraints that must all be passed, asked for many values: what they say of numbers is found out once as a set, and
//! what they say of BOOLEAN and NULL once for each value that there is; of strings their sizes and codes; what they say of
//! elements is asked of all elements together.
ghost use Rattle.std.specs.Prelude.{◌≡◌, IfOk, length, map};
ghost use Rattle.std.specs.List.{list_all};
ghost use Rattle.guard_model.specs.AbstractType.{AbstractKind};
ghost use Rattle.guard_model.specs.AbstractValue.{AbstractValue};
ghost use Rattle.guard_model.specs.Components.{components_in};
ghost use Rattle.guard_model.specs.Counts.{component_count};
ghost use Rattle.guard_model.specs.TypeView.{type_view, kind_view, constraint_view, component_view, components_of};
ghost use Rattle.guard_model.specs.ValueView.{value_view};
ghost use Rattle.guard_eval.specs.Presence.{element_kind, has_parts};
ghost use Rattle.guard_eval.specs.inside.Gathered.{is_list, elements_pass_all, are_as_listed, parts_pass_all, parts_at};
ghost use Rattle.guard_eval.specs.inside.Gathered.{passes_gathered};
ghost use Rattle.guard_eval.specs.inside.PartsTogether.{meets, are_within};
ghost use Rattle.guard_eval.specs.inside.OwnAnswers.{IsKnown};
ghost use Rattle.guard_eval.specs.inside.Together.{keeps_own, values_view, gathered_view, passes, passes_all, elements_of};
ghost use Rattle.guard_eval.specs.inside.Together.{elements_in};

use crate::columns::{count_elements, elements_in, elements_of, items_in, parts_at};
use crate::gathered::{Gathered, Listing, gather, gather_own};
use crate::number_sets::{own_integers, own_items};
use crate::parts_together::{PartDemands, PlaceDemand, add_parts, all_are_placed, no_demands};
use crate::presence::{element_kind, has_parts};
use crate::search::{failure_by, first_failure};
use crate::value_answers::{ValueAnswers, known_of_values, passes_all_known};
use guard_integers::IntSet;
use guard_model::{Comp, Cons, Kind, OutOfMemory, Path, Rule, Ty, Value};
use std::alloc::Global;

/// From so many questions on, values times constraints, finding out what the constraints allow costs less than asking
/// each of them for each value.
const MANY: usize = 256;

/// From so many values on, a set of what the constraints allow costs less than asking each of them for each value.
const SOME: usize = 16;

/// So many elements are gathered at most. Lists may be shared, so there may be far more than a text has characters.
const MOST: usize = 1_000_000;

/// What is known of the values that pass all of the constraints.
#[derive(Drop)]
enum Known {
    Nothing,
    /// The integers that pass them.
    Integers(IntSet),
    /// The numbers of the items that pass them.
    Items(IntSet),
    /// Whether TRUE passes them, and whether FALSE does.
    Truths(bool, bool),
    /// Whether NULL passes them.
    Null(bool),
    /// The sizes that all SIZE among them allow, the codes that all FROM allow, and where the alternatives are that may
    /// have a value.
    Found(ValueAnswers),
}

// ---- the own constraints of a type

/// Whether each of the values keeps the type's own constraints. Those of its parts aren't asked.
pub fn all_keep_own(alloc: Global, ty: &Ty, values: &[&Value]) -> Result<bool, OutOfMemory>
    ensures { IfOk result (λ b. b ≡ list_all (keeps_own (type_view ty.now)) (values_view values.now)) }
{
    if are_few(&ty.cons, values.len()) {
        return Ok(all_keep_own_one_by_one(ty, values));
    }
    let gathered = gather_own(alloc, &ty.cons)?;
    all_pass_gathered(alloc, &gathered, &ty.kind, values)
}

/// Whether so many values are soon asked each of the constraints, none of which has others that must all be passed.
fn are_few(cons: &[Cons], count: usize) -> bool {
    let mut questions: usize = 0;
    for one in cons {
        questions = questions.saturating_add(questions_of(one));
    }
    questions.saturating_mul(count) < MANY
}

/// How many constraints may be asked for one value: of a union its alternatives.
fn questions_of(cons: &Cons) -> usize {
    match &cons.rule {
        Rule::Any(list) => list.len(),
        Rule::Both(_) => MANY,
        Rule::Each(_) => MANY,
        Rule::Parts(_, _) => MANY,
        _ => 1,
    }
}

fn all_keep_own_one_by_one(ty: &Ty, values: &[&Value]) -> bool
    ensures { result ≡ list_all (keeps_own (type_view ty.now)) (values_view values.now) }
{
    for value in values {
        if !keeps_own(ty, value) {
            return false;
        }
    }
    true
}

/// Whether the value keeps the type's own constraints, asked one by one.
fn keeps_own(ty: &Ty, value: &Value) -> bool
    ensures { result ≡ keeps_own (type_view ty.now) (value_view value.now) }
{
    first_failure(&mut Path::new(), &ty.cons, &ty.kind, value).is_none()
}

// ---- constraints that are gathered

/// Whether each of the values passes all of the constraints, on a type of this kind.
#[cycle(own_answers)]
pub fn all_pass(
    alloc: Global,
    cons: &[&Cons],
    kind: &Kind,
    values: &[&Value],
) -> Result<bool, OutOfMemory>
    ensures { IfOk result
        (λ b. b ≡ list_all (passes_all (gathered_view cons.now) (kind_view kind.now)) (values_view values.now)) }
{
    let gathered = gather(alloc, cons)?;
    all_pass_gathered(alloc, &gathered, kind, values)
}

#[cycle(own_answers)]
fn all_pass_gathered(
    alloc: Global,
    gathered: &Gathered,
    kind: &Kind,
    values: &[&Value],
) -> Result<bool, OutOfMemory>
    ensures { IfOk result
        (λ b. b ≡ list_all (passes_gathered gathered.now (kind_view kind.now)) (values_view values.now)) }
{
    let known = known_of(alloc, &gathered.of_values, kind, values)?;
    if !all_are_passing(&known, &gathered.of_values, kind, values) {
        return Ok(false);
    }
    if !all_have_passing_elements(alloc, &gathered.of_elements, kind, values)? {
        return Ok(false);
    }
    all_have_passing_parts(alloc, &gathered.of_parts, kind, values)
}

/// Whether each of the values, if there is a constraint, is a list whose elements pass all of the constraints.
#[cycle(own_answers)]
fn all_have_passing_elements(
    alloc: Global,
    cons: &[&Cons],
    kind: &Kind,
    values: &[&Value],
) -> Result<bool, OutOfMemory>
    ensures { IfOk result (λ b. b ≡ list_all
        (elements_pass_all (gathered_view cons.now) (element_kind (kind_view kind.now))) (values_view values.now)) }
{
    if cons.is_empty() {
        return Ok(true);
    }
    if !all_are_lists(values) {
        return Ok(false);
    }
    match kind {
        Kind::SequenceOf(element) => all_elements_pass(alloc, cons, &element.kind, values),
        Kind::SetOf(element) => all_elements_pass(alloc, cons, &element.kind, values),
        _ => Ok(elements_pass_one_by_one(cons, element_kind(kind), values)),
    }
}

/// Whether the elements of all values pass all of the constraints. Where they are too many to be gathered, they are
/// asked list by list.
#[cycle(own_answers)]
fn all_elements_pass(
    alloc: Global,
    cons: &[&Cons],
    kind: &Kind,
    values: &[&Value],
) -> Result<bool, OutOfMemory>
    ensures { IfOk result (λ b. b ≡ list_all (passes_all (gathered_view cons.now) (kind_view kind.now))
        (elements_of (values_view values.now))) }
{
    if count_elements(values) > MOST {
        return lists_pass(alloc, cons, kind, values);
    }
    let elements = elements_of(alloc, values)?;
    all_pass(alloc, cons, kind, &elements)
}

#[cycle(own_answers)]
fn lists_pass(
    alloc: Global,
    cons: &[&Cons],
    kind: &Kind,
    values: &[&Value],
) -> Result<bool, OutOfMemory>
    ensures { IfOk result (λ b. b ≡ list_all (passes_all (gathered_view cons.now) (kind_view kind.now))
        (elements_of (values_view values.now))) }
{
    for value in values {
        if !list_passes(alloc, cons, kind, value)? {
            return Ok(false);
        }
    }
    Ok(true)
}

/// Whether the elements of the value pass all of the constraints. Those of a list that is itself too long are asked one
/// by one.
#[cycle(own_answers)]
fn list_passes(
    alloc: Global,
    cons: &[&Cons],
    kind: &Kind,
    value: &Value,
) -> Result<bool, OutOfMemory>
    ensures { IfOk result (λ b. b ≡ list_all (passes_all (gathered_view cons.now) (kind_view kind.now))
        (elements_in (value_view value.now))) }
{
    let items = items_in(value);
    if items.len() > MOST {
        return Ok(items_pass(cons, kind, items));
    }
    let elements = elements_in(alloc, items)?;
    all_pass(alloc, cons, kind, &elements)
}

fn elements_pass_one_by_one(cons: &[&Cons], kind: &Kind, values: &[&Value]) -> bool
    ensures { result ≡ list_all (passes_all (gathered_view cons.now) (kind_view kind.now))
        (elements_of (values_view values.now)) }
{
    for value in values {
        if !items_pass(cons, kind, items_in(value)) {
            return false;
        }
    }
    true
}

fn items_pass(cons: &[&Cons], kind: &Kind, items: &[Value]) -> bool
    ensures { result ≡ list_all (passes_all (gathered_view cons.now) (kind_view kind.now)) (map value_view items.now) }
{
    for item in items {
        if !passes_all(cons, kind, item) {
            return false;
        }
    }
    true
}

// ---- parts

/// Whether each of the values, if there is a WITH COMPONENTS, has parts that are as all of them say.
#[cycle(own_answers)]
fn all_have_passing_parts(
    alloc: Global,
    listings: &[Listing],
    kind: &Kind,
    values: &[&Value],
) -> Result<bool, OutOfMemory>
    ensures { IfOk result
        (λ b. b ≡ list_all (parts_pass_all listings.now (kind_view kind.now)) (values_view values.now)) }
{
    if listings.is_empty() {
        return Ok(true);
    }
    if !all_have_parts(values) {
        return Ok(false);
    }
    let demands = demands_of(alloc, listings, kind)?;
    if !all_are_placed(&demands, values) {
        return Ok(false);
    }
    match kind {
        Kind::Sequence(comps) => all_pass_within(alloc, &demands.places, comps, values),
        Kind::Set(comps) => all_pass_within(alloc, &demands.places, comps, values),
        Kind::Choice(comps) => all_pass_within(alloc, &demands.places, comps, values),
        _ => Ok(true),
    }
}

/// Whether the parts of the values at each place, of these components or alternatives, pass what is demanded there.
/// Where there are fewer demands than components, nothing is said.
#[cycle(own_answers)]
fn all_pass_within(
    alloc: Global,
    places: &[PlaceDemand],
    comps: &[Comp],
    values: &[&Value],
) -> Result<bool, OutOfMemory>
    ensures { IfOk result (λ b. (kind : AbstractKind) → components_in kind ≡ components_of (map component_view comps.now)
        → length places.now ≡ length comps.now
        → b ≡ list_all (are_within 0 places.now kind) (values_view values.now)) }
{
    if places.len() < comps.len() {
        return Ok(false);
    }
    for (place, comp) in comps.iter().enumerate() {
        if !all_pass_at(alloc, &places[place].within, &comp.ty.kind, place, values)? {
            return Ok(false);
        }
    }
    Ok(true)
}

/// Whether the parts of the values at this place pass all of the constraints.
#[cycle(own_answers)]
fn all_pass_at(
    alloc: Global,
    cons: &[&Cons],
    kind: &Kind,
    place: usize,
    values: &[&Value],
) -> Result<bool, OutOfMemory>
    ensures { IfOk result (λ b. b ≡ list_all (passes_all (gathered_view cons.now) (kind_view kind.now))
        (parts_at place (values_view values.now))) }
{
    if cons.is_empty() {
        return Ok(true);
    }
    let parts = parts_at(alloc, place, values)?;
    all_pass(alloc, cons, kind, &parts)
}

fn demands_of<'c>(
    alloc: Global,
    listings: &[Listing<'c>],
    kind: &Kind,
) -> Result<PartDemands<'c>, OutOfMemory>
    ensures met { IfOk result (λ demands. (v : AbstractValue) → meets demands (kind_view kind.now) v
        ≡ list_all (are_as_listed (kind_view kind.now) v) listings.now) }
    ensures places { IfOk result
        (λ demands. length demands.places.items ≡ component_count (components_in (kind_view kind.now))) }
{
    let mut demands = no_demands(alloc, kind)?;
    for listing in listings {
        add_parts(&mut demands, listing.partial, listing.parts, kind)?;
    }
    Ok(demands)
}

fn all_have_parts(values: &[&Value]) -> bool
    ensures { result ≡ list_all has_parts (values_view values.now) }
{
    for value in values {
        if !has_parts(value) {
            return false;
        }
    }
    true
}

// ---- elements

fn all_are_lists(values: &[&Value]) -> bool
    ensures { result ≡ list_all is_list (values_view values.now) }
{
    for value in values {
        if !is_list(value) {
            return false;
        }
    }
    true
}

fn is_list(value: &Value) -> bool
    ensures { result ≡ is_list (value_view value.now) }
{
    match value {
        Value::Items(_) => true,
        _ => false,
    }
}

// ---- what is known beforehand

/// What is found out beforehand for these values.
fn known_of(
    alloc: Global,
    cons: &[&Cons],
    kind: &Kind,
    values: &[&Value],
) -> Result<Known, OutOfMemory>
    ensures { IfOk result (λ known. IsKnown known (gathered_view cons.now) (kind_view kind.now)) }
{
    let count = values.len();
    if questions_of_all(cons).saturating_mul(count) < MANY {
        return Ok(Known::Nothing);
    }
    match kind {
        Kind::Int(_) if count >= SOME => Ok(Known::Integers(own_integers(alloc, cons)?)),
        Kind::Int(_) => Ok(Known::Nothing),
        Kind::Enumerated(_) if count >= SOME => Ok(Known::Items(own_items(alloc, cons)?)),
        Kind::Enumerated(_) => Ok(Known::Nothing),
        Kind::Bool => Ok(Known::Truths(
            passes_all(cons, kind, &Value::Bool(true)),
            passes_all(cons, kind, &Value::Bool(false)),
        )),
        Kind::Null => Ok(Known::Null(passes_all(cons, kind, &Value::Null))),
        _ => Ok(Known::Found(known_of_values(alloc, cons, kind, values)?)),
    }
}

fn questions_of_all(cons: &[&Cons]) -> usize {
    let mut questions: usize = 0;
    for one in cons {
        questions = questions.saturating_add(questions_of(one));
    }
    questions
}

fn all_are_passing(known: &Known, cons: &[&Cons], kind: &Kind, values: &[&Value]) -> bool
    requires { IsKnown known.now (gathered_view cons.now) (kind_view kind.now) }
    ensures { result ≡ list_all (passes_all (gathered_view cons.now) (kind_view kind.now)) (values_view values.now) }
{
    for value in values {
        if !is_passing(known, cons, kind, value) {
            return false;
        }
    }
    true
}

/// Whether the value passes all of the constraints, looked up where this is known.
fn is_passing(known: &Known, cons: &[&Cons], kind: &Kind, value: &Value) -> bool
    requires { IsKnown known.now (gathered_view cons.now) (kind_view kind.now) }
    ensures { result ≡ passes_all (gathered_view cons.now) (kind_view kind.now) (value_view value.now) }
{
    match (known, value) {
        (Known::Integers(numbers), Value::Int(number)) => numbers.has(*number),
        (Known::Items(numbers), Value::Enumerated(number)) => numbers.has(*number),
        (Known::Truths(of_true, _), Value::Bool(true)) => *of_true,
        (Known::Truths(_, of_false), Value::Bool(false)) => *of_false,
        (Known::Null(passing), Value::Null) => *passing,
        (Known::Found(answers), _) => passes_all_known(answers, cons, kind, value),
        _ => passes_all(cons, kind, value),
    }
}

/// Whether the value passes all of the constraints, asked one by one.
fn passes_all(cons: &[&Cons], kind: &Kind, value: &Value) -> bool
    ensures { result ≡ passes_all (gathered_view cons.now) (kind_view kind.now) (value_view value.now) }
{
    for one in cons {
        if !passes(one, kind, value) {
            return false;
        }
    }
    true
}

fn passes(cons: &Cons, kind: &Kind, value: &Value) -> bool
    ensures { result ≡ passes (kind_view kind.now) (value_view value.now) (constraint_view cons.now) }
{
    failure_by(&mut Path::new(), cons, kind, value).is_none()
}
