//! Types that have encodings within this profile's limits, and whose encodings tell their values.
ghost use Rattle.std.specs.Prelude.{◌≡◌, ◌&&◌, map, nat_le, IfOk, IsTrue, option_map};
ghost use Rattle.guard_model.specs.Counts.{component_count};
ghost use Rattle.guard_model.specs.SameType.{same_base};
ghost use Rattle.guard_model.specs.TypeView.{type_view, kind_view, component_view, components_of, presence_view};
ghost use Rattle.guard_model.specs.TypeView.{constraint_view, constraints_of, part_view, parts_of};
ghost use Rattle.guard_model.specs.ValueView.{value_view};
ghost use Rattle.guard_tagcheck.specs.Distinct.{Distinct};
ghost use Rattle.guard_tagcheck.specs.Limits.{nesting};
ghost use Rattle.guard_der.specs.Der.{der};
ghost use Rattle.guard_der.specs.Fits.{fits};
ghost use Rattle.guard_der.specs.ProperConstraints.{may_stand_in, is_short, takes_size, is_there_and};
ghost use Rattle.guard_model.specs.Kinds.{kind_of, type_of_size, element_of, has_parts, part_of};
ghost use Rattle.guard_model.specs.Limits.{most_components, deepest_nesting};
ghost use Rattle.guard_der.specs.Sound.{is_sound, is_proper, is_proper_kind, are_proper, is_proper_presence};
ghost use Rattle.guard_der.specs.Sound.{are_proper_constraints, is_proper_constraint, are_proper_parts};
ghost use Rattle.guard_der.specs.inside.SoundParts.{is_proper_part, is_proper_within};

mod forms;

use crate::fitting::fits;
use crate::lengths::encoded_length;
use crate::sound_types::forms::{has_proper_tags, takes_size};
use guard_model::{
    Comp, Cons, Kind, MOST_COMPONENTS, OutOfMemory, Part, Presence, Rule, Ty, Value,
};
use guard_tagcheck::{find_clash, is_within_limits};
use std::alloc::Global;

/// Whether the type is sound: a tag at each node but a CHOICE, numbers of tags up to 268,435,455, at most 64 components
/// or alternatives in each list, nesting up to 32; tags by which components and alternatives are distinguished (X.680
/// 25.6, 27.3, 29.3); no default that is pending, and each default a value of its type whose encoding has at most
/// 1,048,576 octets. Each element of a constraint applies to the kind that it constrains, SIZE to none with named bits
/// and inside SIZE to INTEGER; single values are as defaults, contained types sound and of the same base, and parts
/// that are named by their places exist (51.2 to 51.8). So components and alternatives are distinguished by their tags
/// in contained types too, at every depth: of each `law_distinct_tags` says that the test is true exactly where all
/// tags that must differ do. OutOfMemory is the only error.
pub fn sound(alloc: Global, ty: &Ty) -> Result<bool, OutOfMemory>
    ensures exact { IfOk result (λ b. b ≡ is_sound (type_view ty.now)) }
    // Of a sound type all tags that must differ do.
    ensures distinct { IfOk result (λ b. IsTrue b → Distinct (type_view ty.now)) }
    // A type all of whose tags that must differ do is sound where the rest is as it should be.
    ensures accepted { IfOk result (λ b. Distinct (type_view ty.now) → IsTrue (is_proper (type_view ty.now)) →
        IsTrue (nat_le (nesting (type_view ty.now)) deepest_nesting) → IsTrue b) }
{
    is_sound(alloc, ty)
}

#[cycle(proper)]
fn is_sound(alloc: Global, ty: &Ty) -> Result<bool, OutOfMemory>
    ensures { IfOk result (λ b. b ≡ is_sound (type_view ty.now)) }
{
    if !is_within_limits(ty) {
        return Ok(false);
    }
    match find_clash(alloc, ty)? {
        None => is_proper(alloc, ty),
        Some(_clash) => Ok(false),
    }
}

#[cycle(proper)]
fn is_proper(alloc: Global, ty: &Ty) -> Result<bool, OutOfMemory>
    ensures { IfOk result (λ b. b ≡ is_proper (type_view ty.now)) }
{
    if !has_proper_tags(&ty.tags, &ty.kind) {
        return Ok(false);
    }
    if !are_proper_constraints(alloc, &ty.cons, ty)? {
        return Ok(false);
    }
    is_proper_kind(alloc, &ty.kind)
}

#[cycle(proper)]
fn is_proper_kind(alloc: Global, kind: &Kind) -> Result<bool, OutOfMemory>
    ensures { IfOk result (λ b. b ≡ is_proper_kind (kind_view kind.now)) }
{
    match kind {
        Kind::Sequence(comps) => list_is_proper(alloc, comps),
        Kind::Set(comps) => list_is_proper(alloc, comps),
        Kind::Choice(alternatives) => list_is_proper(alloc, alternatives),
        Kind::SequenceOf(element) => is_proper(alloc, element),
        Kind::SetOf(element) => is_proper(alloc, element),
        _ => Ok(true),
    }
}

/// Whether the components or alternatives of a SEQUENCE, SET or CHOICE are few enough and each as it should be.
#[cycle(proper)]
fn list_is_proper(alloc: Global, comps: &[Comp]) -> Result<bool, OutOfMemory>
    ensures { IfOk result (λ b. b ≡ (nat_le (component_count (components_of (map component_view comps.now)))
        most_components && are_proper (components_of (map component_view comps.now)))) }
{
    if comps.len() > MOST_COMPONENTS {
        return Ok(false);
    }
    are_proper(alloc, comps)
}

#[cycle(proper)]
fn are_proper(alloc: Global, comps: &[Comp]) -> Result<bool, OutOfMemory>
    ensures { IfOk result (λ b. b ≡ are_proper (components_of (map component_view comps.now))) }
{
    for comp in comps {
        if !is_proper_component(alloc, &comp.ty, &comp.presence)? {
            return Ok(false);
        }
    }
    Ok(true)
}

#[cycle(proper)]
fn is_proper_component(alloc: Global, ty: &Ty, presence: &Presence) -> Result<bool, OutOfMemory>
    ensures { IfOk result (λ b. b
        ≡ (is_proper (type_view ty.now) && is_proper_presence (type_view ty.now) (presence_view presence.now))) }
{
    if !is_proper(alloc, ty)? {
        return Ok(false);
    }
    is_proper_presence(alloc, ty, presence)
}

fn is_proper_presence(alloc: Global, ty: &Ty, presence: &Presence) -> Result<bool, OutOfMemory>
    ensures { IfOk result (λ b. b ≡ is_proper_presence (type_view ty.now) (presence_view presence.now)) }
{
    match presence {
        Presence::Mandatory => Ok(true),
        Presence::Optional => Ok(true),
        Presence::Pending => Ok(false),
        Presence::Default(value) => may_stand_in(alloc, ty, value),
    }
}

// ---- constraints on a type

#[cycle(proper)]
fn are_proper_constraints(alloc: Global, constraints: &[Cons], ty: &Ty) -> Result<bool, OutOfMemory>
    ensures { IfOk result
        (λ b. b ≡ are_proper_constraints (constraints_of (map constraint_view constraints.now)) (type_view ty.now)) }
{
    for constraint in constraints {
        if !is_proper_constraint(alloc, constraint, ty)? {
            return Ok(false);
        }
    }
    Ok(true)
}

/// Whether each element of the constraint applies to the type's kind.
#[cycle(proper)]
fn is_proper_constraint(alloc: Global, constraint: &Cons, ty: &Ty) -> Result<bool, OutOfMemory>
    ensures { IfOk result (λ b. b ≡ is_proper_constraint (constraint_view constraint.now) (type_view ty.now)) }
{
    match &constraint.rule {
        Rule::One(value) => may_stand_in(alloc, ty, value),
        Rule::Inside(contained) => is_proper_inside(alloc, contained, ty),
        Rule::Range(_, _) => Ok(ty.kind.is_integer()),
        Rule::Size(size) => is_proper_size(alloc, size, ty),
        Rule::Alphabet(_) => Ok(ty.kind.is_string()),
        Rule::Each(each) => is_proper_each(alloc, each, ty),
        Rule::Parts(_, parts) => is_proper_list(alloc, parts, ty),
        Rule::Any(any) => are_proper_constraints(alloc, any, ty),
        Rule::Both(both) => are_proper_constraints(alloc, both, ty),
        Rule::Minus(left, right) => {
            if !is_proper_constraint(alloc, left, ty)? {
                return Ok(false);
            }
            is_proper_constraint(alloc, right, ty)
        }
        Rule::Other(other) => is_proper_constraint(alloc, other, ty),
    }
}

/// Whether a contained type has the base of the type that it constrains, and is sound.
#[cycle(proper)]
fn is_proper_inside(alloc: Global, contained: &Ty, ty: &Ty) -> Result<bool, OutOfMemory>
    ensures { IfOk result
        (λ b. b ≡ (same_base (type_view contained.now) (type_view ty.now) && is_sound (type_view contained.now))) }
{
    if !contained.same_base(ty) {
        return Ok(false);
    }
    is_sound(alloc, contained)
}

#[cycle(proper)]
fn is_proper_size(alloc: Global, size: &Cons, ty: &Ty) -> Result<bool, OutOfMemory>
    ensures { IfOk result (λ b. b
        ≡ (takes_size (kind_of (type_view ty.now)) && is_proper_constraint (constraint_view size.now) type_of_size)) }
{
    if !takes_size(&ty.kind) {
        return Ok(false);
    }
    let number = Ty::integer(alloc)?;
    is_proper_constraint(alloc, size, &number)
}

/// Whether WITH COMPONENT may constrain the type: it has elements, and the constraint inside is one on their type.
#[cycle(proper)]
fn is_proper_each(alloc: Global, each: &Cons, ty: &Ty) -> Result<bool, OutOfMemory>
    ensures { IfOk result (λ b. b
        ≡ is_there_and (is_proper_constraint (constraint_view each.now)) (element_of (kind_of (type_view ty.now)))) }
{
    match ty.kind.element() {
        Some(element) => is_proper_constraint(alloc, each, element),
        None => Ok(false),
    }
}

// ---- WITH COMPONENTS

#[cycle(proper)]
fn is_proper_list(alloc: Global, parts: &[Part], ty: &Ty) -> Result<bool, OutOfMemory>
    ensures { IfOk result (λ b. b ≡ (has_parts (kind_of (type_view ty.now))
        && are_proper_parts (parts_of (map part_view parts.now)) (type_view ty.now))) }
{
    if !ty.kind.has_parts() {
        return Ok(false);
    }
    are_proper_parts(alloc, parts, ty)
}

#[cycle(proper)]
fn are_proper_parts(alloc: Global, parts: &[Part], ty: &Ty) -> Result<bool, OutOfMemory>
    ensures { IfOk result (λ b. b ≡ are_proper_parts (parts_of (map part_view parts.now)) (type_view ty.now)) }
{
    for part in parts {
        if !is_proper_part(alloc, part, &ty.kind)? {
            return Ok(false);
        }
    }
    Ok(true)
}

/// Whether the component or alternative of a part exists, and its constraint is one on its type.
#[cycle(proper)]
fn is_proper_part(alloc: Global, part: &Part, kind: &Kind) -> Result<bool, OutOfMemory>
    ensures { IfOk result (λ b. b ≡ is_proper_part (part_view part.now) (kind_view kind.now)) }
{
    match kind.part(part.at) {
        Some(ty) => is_proper_within(alloc, &part.cons, ty),
        None => Ok(false),
    }
}

#[cycle(proper)]
fn is_proper_within(alloc: Global, within: &Option<Cons>, ty: &Ty) -> Result<bool, OutOfMemory>
    ensures { IfOk result (λ b. b ≡ is_proper_within (option_map constraint_view within.now) (type_view ty.now)) }
{
    match within {
        Some(constraint) => is_proper_constraint(alloc, constraint, ty),
        None => Ok(true),
    }
}

// ---- values that are written in a type

/// Whether the value is one of the type's, and its encoding has at most 1,048,576 octets.
fn may_stand_in(alloc: Global, ty: &Ty, value: &Value) -> Result<bool, OutOfMemory>
    ensures { IfOk result (λ b. b ≡ may_stand_in (type_view ty.now) (value_view value.now)) }
{
    if !fits(alloc, ty, value)? {
        return Ok(false);
    }
    Ok(is_short(ty, value))
}

/// Whether the value's encoding has at most 1,048,576 octets.
fn is_short(ty: &Ty, value: &Value) -> bool
    requires { IsTrue (fits (type_view ty.now) (value_view value.now)) }
    ensures { result ≡ is_short (der (type_view ty.now) (value_view value.now)) }
{
    encoded_length(ty, value).is_some()
}
