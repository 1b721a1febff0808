//! The constraints that are written at a type, put after those that it has.
ghost use Rattle.std.specs.Prelude.{◌≡◌, ℕ, map, Option, Some, None, IsTrue, IfOk};
ghost use Rattle.std.specs.BTreeSet.{BTreeSet};
ghost use Rattle.std.proofs.Props.{props};
ghost use Rattle.guard_der.specs.ProperConstraints.{takes_size};
ghost use Rattle.guard_der.specs.Sound.{is_sound};
ghost use Rattle.guard_model.specs.AbstractType as abstract;
ghost use Rattle.guard_model.specs.AbstractType.{AbstractType, type_of};
ghost use Rattle.guard_model.specs.Kinds.{kind_of};
ghost use Rattle.guard_model.specs.TypeView.{type_view, kind_view, constraint_view, constraints_of};
ghost use Rattle.guard_syntax.specs.SetViews as sets;
ghost use Rattle.guard_syntax.specs.TypeViews as written;
ghost use Rattle.guard_values.specs.SingleValues.{is_bounded};
ghost use Rattle.guard_constraints.specs.Noted.{AreAgreed, with_constraint};
ghost use Rattle.guard_constraints.specs.Views.{visible_in};
ghost use Rattle.guard_schema.specs.Faults.{named};
ghost use Rattle.guard_schema.specs.Finishing.{AddsOne, Adds, Sizes};
ghost use Rattle.guard_schema.specs.Finishing.{ConstrainsBefore, ConstrainsByOne};
ghost use Rattle.guard_schema.specs.LongValues.{first_long};
ghost use Rattle.guard_schema.specs.Readings.{HasShortValues};
ghost use Rattle.guard_schema.specs.inside.InTurn.{ConstrainsWritten};
ghost use Rattle.guard_schema.specs.Pairs.{AreBuilt};
ghost use Rattle.guard_schema.specs.inside.Ready.{IsPart, IsWrittenPart, IsAsMeant, IsKnownShort, tags_on};
ghost use Rattle.guard_schema.specs.inside.Room as room;
ghost use Rattle.guard_schema.specs.Outcomes.{Answers, Is, Then};
ghost use Rattle.guard_schema.specs.Views.{before_view};

use crate::fault::SchemaFault;
use crate::long_values::check_values;
use crate::readings::read_constraint;
use guard_constraints::Noted;
use guard_der::{LONGEST_ENCODING, length_in};
use guard_model::{Cons, Kind, Rule, Site, Tag, Ty, are_same_tags};
use guard_syntax::{BaseTree, ConsTree, OfConsTree, TypeTree};
use guard_values::Scope;
use std::alloc::{AllocError, Global};
use std::sync::Arc;

/// A type, and a number of octets that the contents of no single value in its own constraints exceed; None where none
/// is known.
#[derive(Drop)]
pub struct Bounded {
    pub ty: Ty,
    pub bound: Option<usize>,
    pub ghost bounded: { IsTrue (is_bounded bound (type_view ty)) } by { Prim.hlevel props },
}

/// The type that is written so, whose parts are finished, with its constraints: those that it has before those after
/// it, and these. What is noted while one is read is handed on to the next one.
pub fn with_written(
    alloc: Global,
    scope: Scope,
    tree: &TypeTree,
    ty: Ty,
) -> Result<Bounded, SchemaFault>
    requires part { IsWrittenPart (visible_in scope) (written.type_view tree.now) (type_view ty) }
    requires known { AreBuilt scope.known.now }
    ensures constrained { Answers (λ b. type_view b.ty) named result
        (ConstrainsWritten (visible_in scope.entry) (written.type_view tree.now) (type_view ty)) }
    ensures sound { IfOk result (λ b. IsTrue (is_sound (type_view b.ty))) }
{
    let mut noted = noted_before(alloc, scope, &tree.base);
    let before = constrained_before(alloc, scope, &tree.base, ty, &mut noted)?;
    let ty = with_constraints(alloc, scope, &tree.cons, before, &mut noted)?;
    Ok(Bounded {
        ty,
        bound: noted.bound,
    })
}

/// What is noted of the type with its parts, before its constraints: of one that is referred to, how many octets the
/// single values in its own constraints have at most. Others have no constraints yet.
fn noted_before(alloc: Global, scope: Scope, base: &BaseTree) -> Noted
    ensures agreed { (t : AbstractType) → AreAgreed scope.entry.known.now t result.agreed }
    ensures bounded { (t : AbstractType) → IsPart (visible_in scope.entry) (written.base_view base.now) t
        → IsTrue (is_bounded result.bound t) }
{
    match base {
        BaseTree::Reference(name) => Noted::new(alloc, scope.bound_named(name.name)),
        _ => Noted::new(alloc, Some(0)),
    }
}

/// The type with these constraints, each on the type with those before it. All have its base, so that a type which
/// several of them contain is compared with it once.
fn with_constraints(
    alloc: Global,
    scope: Scope,
    trees: &[ConsTree],
    ty: Ty,
    noted: &mut Noted,
) -> Result<Ty, SchemaFault>
    requires sound { IsTrue (is_sound (type_view ty)) }
    requires known { AreBuilt scope.known.now }
    requires agreed { AreAgreed scope.known.now (type_view ty) noted.old.agreed }
    requires bounded { IsTrue (is_bounded noted.old.bound (type_view ty)) }
    ensures added { Answers type_view named result
        (Adds (visible_in scope.entry) (map sets.constraint_view trees.now) (type_view ty)) }
    ensures sound { IfOk result (λ t. IsTrue (is_sound (type_view t))) }
    ensures bounded { IfOk result (λ t. IsTrue (is_bounded noted.new.bound (type_view t))) }
{
    let mut constrained = ty;
    for tree in trees {
        constrained = with_constraint(alloc, scope, tree, constrained, noted)?;
    }
    Ok(constrained)
}

/// The type with one constraint more. What has the base of the one has that of the other.
fn with_constraint(
    alloc: Global,
    scope: Scope,
    tree: &ConsTree,
    ty: Ty,
    noted: &mut Noted,
) -> Result<Ty, SchemaFault>
    requires sound { IsTrue (is_sound (type_view ty)) }
    requires known { AreBuilt scope.known.now }
    requires agreed { AreAgreed scope.known.now (type_view ty) noted.old.agreed }
    requires bounded { IsTrue (is_bounded noted.old.bound (type_view ty)) }
    ensures added { Answers type_view named result
        (AddsOne (visible_in scope.entry) (sets.constraint_view tree.now) (type_view ty)) }
    ensures sound { IfOk result (λ t. IsTrue (is_sound (type_view t))) }
    ensures agreed { IfOk result (λ t. AreAgreed scope.entry.known.now (type_view t) noted.new.agreed) }
    ensures bounded { IfOk result (λ t. IsTrue (is_bounded noted.new.bound (type_view t))) }
{
    let cons = read_constraint(alloc, scope, &ty, tree, noted)?;
    Ok(with(ty, cons)?)
}

/// The type with this constraint after those that it has.
fn with(ty: Ty, cons: Cons) -> Result<Ty, AllocError>
    ensures { IfOk result (λ t. type_view t ≡ with_constraint (type_view ty) (constraint_view cons)) }
{
    let Ty {
        tags,
        kind,
        cons: mut all,
    } = ty;
    all.push(cons)?;
    Ok(type_made_of(tags, kind, all))
}

/// The type of these tags, this kind and these constraints.
pub fn type_made_of(tags: Vec<Tag>, kind: Kind, cons: Vec<Cons>) -> Ty
    ensures { type_view result ≡ type_of tags.items (kind_view kind) (constraints_of (map constraint_view cons.items)) }
{
    Ty { tags, kind, cons }
}

// ---- before those that are written after the type

/// The type with the constraint before OF, where there is one. That of a type that is referred to is lawful here too.
fn constrained_before(
    alloc: Global,
    scope: Scope,
    base: &BaseTree,
    ty: Ty,
    noted: &mut Noted,
) -> Result<Ty, SchemaFault>
    requires part { IsPart (visible_in scope) (written.base_view base.now) (type_view ty) }
    requires known { AreBuilt scope.known.now }
    requires agreed { AreAgreed scope.known.now (type_view ty) noted.old.agreed }
    requires bounded { IsTrue (is_bounded noted.old.bound (type_view ty)) }
    ensures constrained { Answers type_view named result
        (ConstrainsBefore (visible_in scope.entry) (written.base_view base.now) (type_view ty)) }
    ensures sound { IfOk result (λ t. IsTrue (is_sound (type_view t))) }
    ensures agreed { IfOk result (λ t. AreAgreed scope.entry.known.now (type_view t) noted.new.agreed) }
    ensures bounded { IfOk result (λ t. IsTrue (is_bounded noted.new.bound (type_view t))) }
{
    match base {
        BaseTree::Of(_, Some(before), _) => by_one(alloc, scope, before, ty, noted),
        BaseTree::Reference(name) => with_short_values(alloc, scope, name.name, ty),
        _ => Ok(ty),
    }
}

/// The type of this name under these tags, where the values in its constraints are short enough. They aren't looked at
/// again where it is known of them without.
fn with_short_values(alloc: Global, scope: Scope, name: &[u8], ty: Ty) -> Result<Ty, SchemaFault>
    requires meant { IsAsMeant (visible_in scope) name.now (type_view ty) }
    ensures passed { Answers type_view named result (Then (HasShortValues (type_view ty)) (λ _. Is (type_view ty))) }
    ensures short { IfOk result (λ _. first_long (type_view ty) ≡ None) }
{
    if !are_known_short(scope, name, &ty.tags) {
        check_values(alloc, &ty)?;
    }
    Ok(ty)
}

/// Whether the values in the constraints of the type that a name means are known to be short enough under these tags.
/// They are under its own tags, and where there is room for as many octets as none of them exceeds.
fn are_known_short(scope: Scope, name: &[u8], tags: &[Tag]) -> bool
    ensures { IsTrue result → IsKnownShort (visible_in scope.entry) name.now tags.now }
{
    if are_tags_of(scope, name, tags) {
        return true;
    }
    has_room(tags, scope.bound_named(name))
}

/// Whether contents of so many octets have an encoding of at most 1,048,576 octets in these tags (X.690 8.1). Not where
/// no number is known.
fn has_room(tags: &[Tag], bound: Option<usize>) -> bool
    ensures { IsTrue result → (n : ℕ) × (bound ≡ Some n) × IsTrue (room.has_room tags.now n) }
{
    match bound {
        Some(octets) => octets <= LONGEST_ENCODING && length_in(tags, octets).is_some(),
        None => false,
    }
}

/// Whether the type that a name means has these tags.
fn are_tags_of(scope: Scope, name: &[u8], tags: &[Tag]) -> bool
    ensures { IsTrue result → (u : AbstractType) × ((visible_in scope.entry).types name.now ≡ Some u)
        × (tags.now ≡ tags_on u) }
{
    match scope.type_named(name) {
        Some(ty) => are_same_tags(tags, &ty.tags),
        None => false,
    }
}

fn by_one(
    alloc: Global,
    scope: Scope,
    before: &OfConsTree,
    ty: Ty,
    noted: &mut Noted,
) -> Result<Ty, SchemaFault>
    requires sound { IsTrue (is_sound (type_view ty)) }
    requires sizes { IsTrue (takes_size (kind_of (type_view ty))) }
    requires known { AreBuilt scope.known.now }
    requires agreed { AreAgreed scope.known.now (type_view ty) noted.old.agreed }
    requires bounded { IsTrue (is_bounded noted.old.bound (type_view ty)) }
    ensures constrained { Answers type_view named result
        (ConstrainsByOne (visible_in scope.entry) (before_view before.now) before.now.size (type_view ty)) }
    ensures sound { IfOk result (λ t. IsTrue (is_sound (type_view t))) }
    ensures agreed { IfOk result (λ t. AreAgreed scope.entry.known.now (type_view t) noted.new.agreed) }
    ensures bounded { IfOk result (λ t. IsTrue (is_bounded noted.new.bound (type_view t))) }
{
    if before.size {
        sized(alloc, scope, before, ty)
    } else {
        with_constraint(alloc, scope, &before.cons, ty, noted)
    }
}

/// SIZE and a constraint before OF: it is one of sizes, that is on INTEGER. The type has no more single values by it.
fn sized(alloc: Global, scope: Scope, before: &OfConsTree, ty: Ty) -> Result<Ty, SchemaFault>
    requires sound { IsTrue (is_sound (type_view ty)) }
    requires sizes { IsTrue (takes_size (kind_of (type_view ty))) }
    requires known { AreBuilt scope.known.now }
    ensures constrained { Answers type_view named result
        (Sizes (visible_in scope.entry) (before_view before.now) (type_view ty)) }
    ensures sound { IfOk result (λ t. IsTrue (is_sound (type_view t))) }
    ensures agreed { IfOk result (λ t. (places : BTreeSet ℕ) → AreAgreed scope.entry.known.now (type_view ty) places
        → AreAgreed scope.entry.known.now (type_view t) places) }
    ensures bounded { IfOk result (λ t. (bound : Option ℕ) → IsTrue (is_bounded bound (type_view ty))
        → IsTrue (is_bounded bound (type_view t))) }
{
    let number = Ty::integer(alloc)?;
    let mut noted = Noted::new(alloc, Some(0));
    let inner = read_constraint(alloc, scope, &number, &before.cons, &mut noted)?;
    let cons = constraint_of_sizes(alloc, before.site, inner)?;
    Ok(with(ty, cons)?)
}

/// The constraint on sizes that is there.
fn constraint_of_sizes(alloc: Global, site: Site, inner: Cons) -> Result<Cons, AllocError>
    ensures { IfOk result (λ c. constraint_view c ≡ abstract.at site (abstract.size (constraint_view inner))) }
{
    Ok(Cons {
        site,
        rule: Rule::Size(Arc::new(alloc, inner)?),
    })
}
