//! The constraint that a tree of the notation denotes on a type (X.680 49 to 51).
ghost use Rattle.std.specs.Prelude.{◌≡◌, ◌∷◌, map, IsTrue, IfOk, IfErr, IfSome, None, Some};
ghost use Rattle.guard_model.specs.Answer.{Gives};
ghost use Rattle.guard_model.specs.AbstractType as abstract;
ghost use Rattle.guard_model.specs.AbstractType.{Constraint};
ghost use Rattle.guard_model.specs.inside.Each.{each};
ghost use Rattle.guard_model.specs.TypeView.{type_view, constraint_view, part_view, constraints_of, parts_of};
ghost use Rattle.guard_der.specs.Sound.{is_sound, is_proper_constraint};
ghost use Rattle.guard_syntax.specs.Trees as trees;
ghost use Rattle.guard_syntax.specs.SetViews as views;
ghost use Rattle.guard_syntax.specs.Views as values;
ghost use Rattle.guard_model.specs.Kinds.{kind_of};
ghost use Rattle.guard_values.specs.SingleValues.{is_bounded};
ghost use Rattle.guard_values.specs.Views.{shared_view, AreKnownFitting};
ghost use Rattle.guard_constraints.specs.Denotes as denotes;
ghost use Rattle.guard_constraints.specs.Denotes.{Denotes};
ghost use Rattle.guard_constraints.specs.Conditions.{IsConstraintFaultIn};
ghost use Rattle.guard_constraints.specs.declared.fault.ConsFault.{ConsFault};
ghost use Rattle.guard_constraints.specs.FirstFault.{IsFirstConstraintFault};
ghost use Rattle.guard_constraints.specs.Noted.{AreAgreed, with_constraint};
ghost use Rattle.guard_constraints.specs.inside.Bounds.{Grows, bounds, bounds_all};
ghost use Rattle.guard_constraints.specs.inside.Reading as reading;
ghost use Rattle.guard_constraints.specs.Views.{named, visible_at, visible_in, AreKnownSound};

use crate::alphabets::alphabet;
use crate::contained_types::contained;
use crate::fault::ConsFault;
use crate::joining::{Join, all_except, except, joined};
use crate::kinds::{element_type, size_type};
use crate::listed_parts::{check_parts, located, part_at};
use crate::noted::{Noted, raise};
use crate::range_ends::range;
use crate::written_values::written_value;
use guard_model::{Cons, Part, Rule, Site, Ty, Value};
use guard_names::{Id, Names};
use guard_syntax::{
    ComponentConsTree, ConsTree, DifferenceTree, ElementForm, ElementTree, IntersectionTree,
    JoinedDifference, JoinedIntersection, SetTree, ValueTree,
};
use guard_values::{Known, Scope};
use std::alloc::{AllocError, Global};
use std::sync::{Arc, ArcSlice};

/// The constraint that a tree denotes on a type (X.680 49 to 51), written in the definition `id`: names mean what they
/// mean in the module of that definition, as far as `known` has it.
///
/// `noted` has places in `known` of types with the base of `ty`, none at first, and gets the places of those that are
/// found to have it; and a number of octets that the contents of no single value in the constraints of `ty` exceed,
/// which is raised to those of each single value that is read here. Handed on to the other constraints on `ty`, it saves
/// comparing a type that they contain again, and at last its number is one for all of them.
///
/// Conditions: the type and each type in `known` are sound, each value in `known` is one of its governor's, the types at
/// the places in `noted` have the base of `ty`, and its number is one for the constraints that `ty` has.
///
/// Errors: one of C1 to C10, as `ConsFault` says of each. Its condition stands at its site, in some element of the
/// tree, and the tree denotes nothing. Of several faults it is the first: an element's own C1 to C8 come before what is
/// inside it, what is written first before the rest, C4 of all parts before C5, C6 and C7, and C10 after all that is
/// inside SIZE. `OutOfMemory`, where a growth was refused.
pub fn constraint(
    alloc: Global,
    names: &Names,
    known: &Known,
    id: Id,
    ty: &Ty,
    tree: &ConsTree,
    noted: &mut Noted,
) -> Result<Cons, ConsFault>
    requires sound { IsTrue (is_sound (type_view ty.now)) }
    requires fitting { AreKnownFitting known.now }
    requires known { AreKnownSound known.now }
    requires agreed { AreAgreed known.now (type_view ty.now) noted.old.agreed }
    requires bounded { IsTrue (is_bounded noted.old.bound (type_view ty.now)) }
    // The constraint is the one denoted, with the sites of its nodes, and it may be on the type.
    ensures denoted { IfOk result (λ c. Denotes (visible_at names.now known.now id) (type_view ty.now)
        (views.constraint_view tree.now) (constraint_view c)) }
    ensures proper { IfOk result (λ c. IsTrue (is_proper_constraint (constraint_view c) (type_view ty.now))) }
    ensures faultless { IfOk result (λ c. (f : ConsFault) → IsFirstConstraintFault (visible_at names.now known.now id)
        (type_view ty.now) (views.constraint_view tree.now) f → ⊥) }
    // The condition of a fault that is named stands at its site; it is the first, and then nothing is denoted.
    ensures holds { IfErr result (λ e. IfSome (named e) (λ f. IsConstraintFaultIn (visible_at names.now known.now id)
        (type_view ty.now) (views.constraint_view tree.now) f)) }
    ensures first { IfErr result (λ e. IfSome (named e) (λ f. IsFirstConstraintFault (visible_at names.now known.now id)
        (type_view ty.now) (views.constraint_view tree.now) f)) }
    ensures none { IfErr result (λ e. IfSome (named e) (λ f. (c : Constraint) →
        Denotes (visible_at names.now known.now id) (type_view ty.now) (views.constraint_view tree.now) c → ⊥)) }
    // All noted places are still of such types, after an error too.
    ensures agreed { AreAgreed known.now (type_view ty.now) noted.new.agreed }
    // The number that is noted is one for the type with this constraint.
    ensures bounded { IfOk result
        (λ c. IsTrue (is_bounded noted.new.bound (with_constraint (type_view ty.now) (constraint_view c)))) }
{
    on_type(alloc, Scope { names, known, id }, tree, ty, noted)
}

/// A set in parentheses. What is noted is of this type: for a part of it something of its own is noted.
#[cycle(sets)]
#[tactic(auto, unfolding(crate::specs::inside::Reading::read))]
fn on_type(
    alloc: Global,
    scope: Scope,
    tree: &ConsTree,
    ty: &Ty,
    noted: &mut Noted,
) -> Result<Cons, ConsFault>
    requires sound { IsTrue (is_sound (type_view ty.now)) }
    requires fitting { AreKnownFitting scope.known.now }
    requires agreed { AreAgreed scope.known.now (type_view ty.now) noted.old.agreed }
    ensures given { Gives constraint_view named result
        (reading.read (visible_in scope.entry) (type_view ty.now) (views.constraint_view tree.now)) }
    ensures agreed { AreAgreed scope.entry.known.now (type_view ty.now) noted.new.agreed }
    ensures grows { Grows noted.old.bound noted.new.bound }
    ensures bounds { IfOk result (λ c. IsTrue (bounds noted.new.bound (type_view ty.now) (constraint_view c))) }
{
    set(alloc, scope, &tree.set, ty, noted)
}

#[cycle(sets)]
#[tactic(auto, using(crate::proofs::CodeSteps::JoinedConstraints::set_alone), unfolding(crate::specs::inside::Reading::read))]
fn set(
    alloc: Global,
    scope: Scope,
    tree: &SetTree,
    ty: &Ty,
    noted: &mut Noted,
) -> Result<Cons, ConsFault>
    requires sound { IsTrue (is_sound (type_view ty.now)) }
    requires fitting { AreKnownFitting scope.known.now }
    requires agreed { AreAgreed scope.known.now (type_view ty.now) noted.old.agreed }
    ensures given { Gives constraint_view named result
        (reading.read_set (visible_in scope.entry) (type_view ty.now) (views.set_view tree.now)) }
    ensures agreed { AreAgreed scope.entry.known.now (type_view ty.now) noted.new.agreed }
    ensures grows { Grows noted.old.bound noted.new.bound }
    ensures bounds { IfOk result (λ c. IsTrue (bounds noted.new.bound (type_view ty.now) (constraint_view c))) }
{
    match tree {
        SetTree::Alone(only) => element(alloc, scope, only, ty, noted),
        SetTree::Union(first, others) => {
            let first = intersection(alloc, scope, first, ty, noted)?;
            let others = united(alloc, scope, others, ty, noted)?;
            Ok(joined(alloc, Join::Union, tree.site(), first, others)?)
        }
        SetTree::AllExcept(site, other) => {
            let other = element(alloc, scope, other, ty, noted)?;
            Ok(all_except(alloc, *site, other)?)
        }
    }
}

// ---- unions, intersections and differences (50.1)

/// The intersections that are joined to the first one of a union.
#[cycle(sets)]
fn united(
    alloc: Global,
    scope: Scope,
    others: &[JoinedIntersection],
    ty: &Ty,
    noted: &mut Noted,
) -> Result<Vec<Cons>, ConsFault>
    requires sound { IsTrue (is_sound (type_view ty.now)) }
    requires fitting { AreKnownFitting scope.known.now }
    requires agreed { AreAgreed scope.known.now (type_view ty.now) noted.old.agreed }
    ensures given { Gives (λ v. map constraint_view v.items) named result (reading.joined_intersections
        (visible_in scope.entry) (type_view ty.now) (map views.joined_intersection_view others.now)) }
    ensures agreed { AreAgreed scope.entry.known.now (type_view ty.now) noted.new.agreed }
    ensures grows { Grows noted.old.bound noted.new.bound }
    ensures bounds { IfOk result (λ v. IsTrue (bounds_all noted.new.bound (type_view ty.now)
        (constraints_of (map constraint_view v.items)))) }
{
    let mut all = Vec::new(alloc);
    for other in others {
        all.push(intersection(alloc, scope, &other.part, ty, noted)?)?;
    }
    Ok(all)
}

#[cycle(sets)]
#[tactic(auto, using(crate::proofs::CodeSteps::JoinedConstraints::intersection_alone), unfolding(crate::specs::inside::Reading::read))]
fn intersection(
    alloc: Global,
    scope: Scope,
    tree: &IntersectionTree,
    ty: &Ty,
    noted: &mut Noted,
) -> Result<Cons, ConsFault>
    requires sound { IsTrue (is_sound (type_view ty.now)) }
    requires fitting { AreKnownFitting scope.known.now }
    requires agreed { AreAgreed scope.known.now (type_view ty.now) noted.old.agreed }
    ensures given { Gives constraint_view named result
        (reading.read_intersection (visible_in scope.entry) (type_view ty.now) (views.intersection_view tree.now)) }
    ensures agreed { AreAgreed scope.entry.known.now (type_view ty.now) noted.new.agreed }
    ensures grows { Grows noted.old.bound noted.new.bound }
    ensures bounds { IfOk result (λ c. IsTrue (bounds noted.new.bound (type_view ty.now) (constraint_view c))) }
{
    match tree {
        IntersectionTree::Single(only) => element(alloc, scope, only, ty, noted),
        IntersectionTree::Differences(first, others) => {
            let first = difference(alloc, scope, first, ty, noted)?;
            let others = met(alloc, scope, others, ty, noted)?;
            Ok(joined(alloc, Join::Intersection, tree.site(), first, others)?)
        }
    }
}

/// The differences that are joined to the first one of an intersection.
#[cycle(sets)]
fn met(
    alloc: Global,
    scope: Scope,
    others: &[JoinedDifference],
    ty: &Ty,
    noted: &mut Noted,
) -> Result<Vec<Cons>, ConsFault>
    requires sound { IsTrue (is_sound (type_view ty.now)) }
    requires fitting { AreKnownFitting scope.known.now }
    requires agreed { AreAgreed scope.known.now (type_view ty.now) noted.old.agreed }
    ensures given { Gives (λ v. map constraint_view v.items) named result (reading.joined_differences (visible_in scope.entry)
        (type_view ty.now) (map views.joined_difference_view others.now)) }
    ensures agreed { AreAgreed scope.entry.known.now (type_view ty.now) noted.new.agreed }
    ensures grows { Grows noted.old.bound noted.new.bound }
    ensures bounds { IfOk result (λ v. IsTrue (bounds_all noted.new.bound (type_view ty.now)
        (constraints_of (map constraint_view v.items)))) }
{
    let mut all = Vec::new(alloc);
    for other in others {
        all.push(difference(alloc, scope, &other.part, ty, noted)?)?;
    }
    Ok(all)
}

/// An element, perhaps without what another one has.
#[cycle(sets)]
#[tactic(auto, unfolding(crate::specs::inside::Reading::read))]
fn difference(
    alloc: Global,
    scope: Scope,
    tree: &DifferenceTree,
    ty: &Ty,
    noted: &mut Noted,
) -> Result<Cons, ConsFault>
    requires sound { IsTrue (is_sound (type_view ty.now)) }
    requires fitting { AreKnownFitting scope.known.now }
    requires agreed { AreAgreed scope.known.now (type_view ty.now) noted.old.agreed }
    ensures given { Gives constraint_view named result
        (reading.read_difference (visible_in scope.entry) (type_view ty.now) (views.difference_view tree.now)) }
    ensures agreed { AreAgreed scope.entry.known.now (type_view ty.now) noted.new.agreed }
    ensures grows { Grows noted.old.bound noted.new.bound }
    ensures bounds { IfOk result (λ c. IsTrue (bounds noted.new.bound (type_view ty.now) (constraint_view c))) }
{
    let all = element(alloc, scope, &tree.element, ty, noted)?;
    match &tree.except {
        None => Ok(all),
        Some(less) => {
            let less = element(alloc, scope, less, ty, noted)?;
            Ok(except(alloc, tree.element.site, all, less)?)
        }
    }
}

// ---- elements (51)

#[cycle(sets)]
#[tactic(auto, unfolding(crate::specs::inside::Reading::read))]
fn element(
    alloc: Global,
    scope: Scope,
    tree: &ElementTree,
    ty: &Ty,
    noted: &mut Noted,
) -> Result<Cons, ConsFault>
    requires sound { IsTrue (is_sound (type_view ty.now)) }
    requires fitting { AreKnownFitting scope.known.now }
    requires agreed { AreAgreed scope.known.now (type_view ty.now) noted.old.agreed }
    ensures given { Gives constraint_view named result
        (reading.read_element (visible_in scope.entry) (type_view ty.now) (views.element_view tree.now)) }
    ensures agreed { AreAgreed scope.entry.known.now (type_view ty.now) noted.new.agreed }
    ensures grows { Grows noted.old.bound noted.new.bound }
    ensures bounds { IfOk result (λ c. IsTrue (bounds noted.new.bound (type_view ty.now) (constraint_view c))) }
{
    let site = tree.site;
    match &tree.form {
        ElementForm::Parentheses(inner) => set(alloc, scope, inner, ty, noted),
        ElementForm::Value(tree) => single_value(alloc, scope, tree, site, ty, noted),
        ElementForm::Contained(_, name) => contained(scope, name.name, site, ty, &mut noted.agreed),
        ElementForm::Range(tree) => range(alloc, scope, tree, site, ty),
        ElementForm::Size(inner) => size(alloc, scope, inner, site, ty),
        ElementForm::From(inner) => alphabet(alloc, inner, site, ty),
        ElementForm::WithComponent(inner) => each(alloc, scope, inner, site, ty),
        ElementForm::WithComponents(partial, listed) => {
            parts(alloc, scope, listed, *partial, site, ty)
        }
    }
}

/// The constraint to one value alone (51.2).
#[tactic(auto, unfolding(crate::specs::inside::Reading::read))]
fn single_value(
    alloc: Global,
    scope: Scope,
    tree: &ValueTree,
    site: Site,
    ty: &Ty,
    noted: &mut Noted,
) -> Result<Cons, ConsFault>
    requires sound { IsTrue (is_sound (type_view ty.now)) }
    requires fitting { AreKnownFitting scope.known.now }
    ensures given { Gives constraint_view named result (reading.read_element_form (visible_in scope.entry)
        (type_view ty.now) site (trees.value (values.value_view tree.now))) }
    ensures agreed { noted.new.agreed ≡ noted.old.agreed }
    ensures grows { Grows noted.old.bound noted.new.bound }
    ensures bounds { IfOk result (λ c. IsTrue (bounds noted.new.bound (type_view ty.now) (constraint_view c))) }
{
    let single = written_value(alloc, scope, tree, ty)?;
    raise(noted, single.length);
    Ok(only(site, single.value))
}

fn only(site: Site, value: Arc<Value>) -> Cons
    ensures { constraint_view result ≡ abstract.at site (abstract.single_value (shared_view value)) }
{
    Cons {
        site,
        rule: Rule::One(value),
    }
}

/// A constraint on the size, which is an INTEGER (51.5).
#[cycle(sets)]
#[tactic(auto, unfolding(crate::specs::inside::Reading::read))]
fn size(
    alloc: Global,
    scope: Scope,
    inner: &ConsTree,
    site: Site,
    ty: &Ty,
) -> Result<Cons, ConsFault>
    requires sound { IsTrue (is_sound (type_view ty.now)) }
    requires fitting { AreKnownFitting scope.known.now }
    ensures { Gives constraint_view named result (reading.read_element_form (visible_in scope.entry) (type_view ty.now)
        site (trees.size (views.constraint_view inner.now))) }
{
    let number = size_type(alloc, ty, site)?;
    let size = on_type(
        alloc,
        scope,
        inner,
        &number,
        &mut Noted::new(alloc, Some(0)),
    )?;
    of_size(alloc, site, size, ty)
}

/// The size, unless the type has named bits.
fn of_size(alloc: Global, site: Site, size: Cons, ty: &Ty) -> Result<Cons, ConsFault>
    ensures { Gives constraint_view named result (reading.sized (type_view ty.now) site (constraint_view size)) }
{
    if ty.kind.has_named_bits() {
        return Err(ConsFault::SizeOnNamedBits(site));
    }
    let size = Arc::new(alloc, size)?;
    Ok(Cons {
        site,
        rule: Rule::Size(size),
    })
}

/// A constraint on each element (51.8.4).
#[cycle(sets)]
#[tactic(auto, unfolding(crate::specs::inside::Reading::read))]
fn each(
    alloc: Global,
    scope: Scope,
    inner: &ConsTree,
    site: Site,
    ty: &Ty,
) -> Result<Cons, ConsFault>
    requires sound { IsTrue (is_sound (type_view ty.now)) }
    requires fitting { AreKnownFitting scope.known.now }
    ensures { Gives constraint_view named result (reading.read_element_form (visible_in scope.entry) (type_view ty.now)
        site (trees.with_component (views.constraint_view inner.now))) }
{
    let element = element_type(ty, site)?;
    let each = on_type(
        alloc,
        scope,
        inner,
        element,
        &mut Noted::new(alloc, Some(0)),
    )?;
    let each = Arc::new(alloc, each)?;
    Ok(Cons {
        site,
        rule: Rule::Each(each),
    })
}

// ---- WITH COMPONENTS (51.8.5)

/// What is said of components or alternatives.
#[cycle(sets)]
#[tactic(auto, unfolding(crate::specs::inside::Reading::read))]
fn parts(
    alloc: Global,
    scope: Scope,
    listed: &[ComponentConsTree],
    partial: bool,
    site: Site,
    ty: &Ty,
) -> Result<Cons, ConsFault>
    requires sound { IsTrue (is_sound (type_view ty.now)) }
    requires fitting { AreKnownFitting scope.known.now }
    ensures { Gives constraint_view named result (reading.read_element_form (visible_in scope.entry) (type_view ty.now)
        site (trees.with_components partial (trees.parts_of (map views.part_view listed.now)))) }
{
    check_parts(listed, ty, site)?;
    let parts = each_part(alloc, scope, listed, ty)?;
    Ok(with_components(site, partial, parts)?)
}

fn with_components(site: Site, partial: bool, parts: Vec<Part>) -> Result<Cons, AllocError>
    ensures { IfOk result (λ c. constraint_view c
        ≡ abstract.at site (abstract.with_components partial (parts_of (map part_view parts.items)))) }
{
    let parts = ArcSlice::from_vec(parts)?;
    Ok(Cons {
        site,
        rule: Rule::Parts(partial, parts),
    })
}

#[cycle(sets)]
fn each_part(
    alloc: Global,
    scope: Scope,
    listed: &[ComponentConsTree],
    ty: &Ty,
) -> Result<Vec<Part>, ConsFault>
    requires sound { IsTrue (is_sound (type_view ty.now)) }
    requires fitting { AreKnownFitting scope.known.now }
    ensures { Gives (λ v. map part_view v.items) named result (each
        (reading.read_part (visible_in scope.entry) (kind_of (type_view ty.now))) (map views.part_view listed.now)) }
{
    let mut parts = Vec::with_capacity(alloc, listed.len())?;
    for one in listed {
        parts.push(part(alloc, scope, one, ty)?)?;
    }
    Ok(parts)
}

/// One part, at the place of its component or alternative.
#[cycle(sets)]
#[tactic(auto, unfolding(crate::specs::inside::Reading::read))]
fn part(alloc: Global, scope: Scope, tree: &ComponentConsTree, ty: &Ty) -> Result<Part, ConsFault>
    requires sound { IsTrue (is_sound (type_view ty.now)) }
    requires fitting { AreKnownFitting scope.known.now }
    ensures { Gives part_view named result
        (reading.read_part (visible_in scope.entry) (kind_of (type_view ty.now)) (views.part_view tree.now)) }
{
    let (place, inside) = located(tree.name, ty, tree.site)?;
    match &tree.cons {
        None => Ok(part_at(tree, place, None)),
        Some(inner) => {
            let cons = on_type(alloc, scope, inner, inside, &mut Noted::new(alloc, Some(0)))?;
            Ok(part_at(tree, place, Some(cons)))
        }
    }
}
