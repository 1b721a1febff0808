//! The constraints and defaults that are written in a type, filled into the type that its tags and parts make.
//!
//! The type is taken by value and handed back: nothing is copied. A list of components moves once into a list of its
//! own length.
ghost use Rattle.std.specs.Prelude.{◌≡◌, ◌≤◌, [], length, map, Some, IfOk, IsTrue};
ghost use Rattle.std.specs.Arc.{arc_str_bytes};
ghost use Rattle.guard_der.specs.Sound.{is_sound};
ghost use Rattle.guard_model.specs.AbstractType.{AbstractType};
ghost use Rattle.guard_model.specs.Counts.{component_count};
ghost use Rattle.guard_model.specs.TypeView as model;
ghost use Rattle.guard_model.specs.TypeView.{type_view, kind_view, component_view, presence_view};
ghost use Rattle.guard_syntax.specs.Trees.{components_of, alternatives_of};
ghost use Rattle.guard_syntax.specs.TypeViews as written;
ghost use Rattle.guard_tagging.specs.Types.{parts_of};
ghost use Rattle.guard_constraints.specs.Views.{visible_in};
ghost use Rattle.guard_schema.specs.Faults.{named};
ghost use Rattle.guard_schema.specs.Finishing as finishing;
ghost use Rattle.guard_schema.specs.inside.InTurn as in_turn;
ghost use Rattle.guard_schema.specs.inside.Ready as ready;
ghost use Rattle.guard_schema.specs.Pairs.{AreBuilt};
ghost use Rattle.guard_schema.specs.Outcomes.{Answers, Is};
ghost use Rattle.guard_schema.specs.Views.{filling_view};

use crate::constraints::{Bounded, type_made_of, with_written};
use crate::fault::SchemaFault;
use crate::readings::read_member;
use guard_model::{Comp, Kind, Presence, Ty};
use guard_syntax::{AlternativeTree, BaseTree, CompForm, CompTree, PresenceTree, TypeTree};
use guard_values::Scope;
use std::alloc::{AllocError, AllocFailed, Global};
use std::collections::VecDeque;
use std::sync::ArcStr;

/// A list of components: those that are finished, and those that are left.
#[derive(Drop)]
pub struct Filling {
    pub done: Vec<Comp>,
    pub left: VecDeque<Comp>,
}

/// The finished type, bounded by its own constraints.
#[cycle(finishing)]
pub fn finished(
    alloc: Global,
    scope: Scope,
    tree: &TypeTree,
    bare: Ty,
) -> Result<Bounded, SchemaFault>
    requires known { AreBuilt scope.known.now }
    requires ready { ready.IsReady (visible_in scope) (written.type_view tree.now) (type_view bare) }
    ensures finished { Answers (λ b. type_view b.ty) named result
        (in_turn.FinishesInTurn (visible_in scope.entry) (written.type_view tree.now) (type_view bare)) }
    ensures sound { IfOk result (λ b. IsTrue (is_sound (type_view b.ty))) }
{
    let filled = with_parts(alloc, scope, &tree.base, bare)?;
    with_written(alloc, scope, tree, filled)
}

/// The type with its parts finished.
#[cycle(finishing)]
fn with_parts(alloc: Global, scope: Scope, base: &BaseTree, bare: Ty) -> Result<Ty, SchemaFault>
    requires known { AreBuilt scope.known.now }
    requires ready { ready.IsReadyBase (visible_in scope) (written.base_view base.now) (type_view bare) }
    ensures part { IfOk result (λ t. ready.IsPart (visible_in scope.entry) (written.base_view base.now) (type_view t)) }
    ensures filled { Answers type_view named result
        (in_turn.PartsInTurn (visible_in scope.entry) (written.base_view base.now) (type_view bare)) }
{
    let Ty { tags, kind, cons } = bare;
    let inside = finished_kind(alloc, scope, base, kind)?;
    Ok(type_made_of(tags, inside, cons))
}

#[cycle(finishing)]
fn finished_kind(
    alloc: Global,
    scope: Scope,
    base: &BaseTree,
    kind: Kind,
) -> Result<Kind, SchemaFault>
    requires known { AreBuilt scope.known.now }
    requires ready { ready.IsReadyKind (visible_in scope) (written.base_view base.now) (kind_view kind) }
    ensures { Answers kind_view named result
        (in_turn.KindInTurn (visible_in scope.entry) (written.base_view base.now) (kind_view kind)) }
{
    match base {
        BaseTree::Structure(_, trees) => list(alloc, scope, trees, kind),
        BaseTree::Choice(trees) => choice(alloc, scope, trees, kind),
        BaseTree::Of(_, _, element) => elements(alloc, scope, element, kind),
        _ => Ok(kind),
    }
}

/// A SEQUENCE or SET.
#[cycle(finishing)]
fn list(alloc: Global, scope: Scope, trees: &[CompTree], kind: Kind) -> Result<Kind, SchemaFault>
    requires known { AreBuilt scope.known.now }
    requires ready { ready.IsReadyStructure (visible_in scope) (components_of (map written.component_view trees.now))
        (kind_view kind) }
    ensures { Answers kind_view named result (in_turn.ListInTurn (in_turn.FillsInTurn (visible_in scope.entry)
        (components_of (map written.component_view trees.now))) (kind_view kind)) }
{
    match kind {
        Kind::Sequence(bare) => Ok(Kind::Sequence(components(alloc, scope, trees, bare)?)),
        Kind::Set(bare) => Ok(Kind::Set(components(alloc, scope, trees, bare)?)),
        _ => unreachable!(),
    }
}

#[cycle(finishing)]
fn choice(
    alloc: Global,
    scope: Scope,
    trees: &[AlternativeTree],
    kind: Kind,
) -> Result<Kind, SchemaFault>
    requires known { AreBuilt scope.known.now }
    requires ready { ready.IsReadyChoice (visible_in scope) (alternatives_of (map written.alternative_view trees.now))
        (kind_view kind) }
    ensures { Answers kind_view named result (in_turn.ChoiceInTurn (in_turn.OthersInTurn (visible_in scope.entry)
        (alternatives_of (map written.alternative_view trees.now))) (kind_view kind)) }
{
    match kind {
        Kind::Choice(bare) => Ok(Kind::Choice(alternatives(alloc, scope, trees, bare)?)),
        _ => unreachable!(),
    }
}

/// SEQUENCE OF or SET OF.
#[cycle(finishing)]
fn elements(alloc: Global, scope: Scope, tree: &TypeTree, kind: Kind) -> Result<Kind, SchemaFault>
    requires known { AreBuilt scope.known.now }
    requires ready { ready.IsReadyOf (visible_in scope) (written.type_view tree.now) (kind_view kind) }
    ensures { Answers kind_view named result (in_turn.ElementInTurn
        (in_turn.FinishesInTurn (visible_in scope.entry) (written.type_view tree.now)) (kind_view kind)) }
{
    match kind {
        Kind::SequenceOf(bare) => Ok(Kind::SequenceOf(boxed(alloc, scope, tree, bare)?)),
        Kind::SetOf(bare) => Ok(Kind::SetOf(boxed(alloc, scope, tree, bare)?)),
        _ => unreachable!(),
    }
}

#[cycle(finishing)]
fn boxed(
    alloc: Global,
    scope: Scope,
    tree: &TypeTree,
    bare: Box<Ty>,
) -> Result<Box<Ty>, SchemaFault>
    requires known { AreBuilt scope.known.now }
    requires ready { ready.IsReady (visible_in scope) (written.type_view tree.now) (type_view bare.value) }
    ensures { Answers (λ b. type_view b.value) named result
        (in_turn.FinishesInTurn (visible_in scope.entry) (written.type_view tree.now) (type_view bare.value)) }
{
    let element = finished(alloc, scope, tree, Box::into_inner(bare))?;
    Ok(Box::new(alloc, element.ty)?)
}

// ---- lists of components and alternatives

#[cycle(finishing)]
fn components(
    alloc: Global,
    scope: Scope,
    trees: &[CompTree],
    bare: Vec<Comp>,
) -> Result<Vec<Comp>, SchemaFault>
    requires known { AreBuilt scope.known.now }
    requires ready { ready.AreReady (visible_in scope) (components_of (map written.component_view trees.now))
        (model.components_of (map component_view bare.items)) }
    ensures { Answers (λ v. map component_view v.items) named result (in_turn.FillsAll
        (in_turn.FillsInTurn (visible_in scope.entry) (components_of (map written.component_view trees.now)))
        (ready.listed (model.components_of (map component_view bare.items)))) }
{
    let start = unfilled(alloc, bare)?;
    let filling = fill(alloc, scope, trees, start)?;
    Ok(filling.done)
}

#[cycle(finishing)]
fn alternatives(
    alloc: Global,
    scope: Scope,
    trees: &[AlternativeTree],
    bare: Vec<Comp>,
) -> Result<Vec<Comp>, SchemaFault>
    requires known { AreBuilt scope.known.now }
    requires ready { ready.OthersAreReady (visible_in scope) (alternatives_of (map written.alternative_view trees.now))
        (model.components_of (map component_view bare.items)) }
    ensures { Answers (λ v. map component_view v.items) named result (in_turn.FillsAll
        (in_turn.OthersInTurn (visible_in scope.entry) (alternatives_of (map written.alternative_view trees.now)))
        (ready.listed (model.components_of (map component_view bare.items)))) }
{
    let start = unfilled(alloc, bare)?;
    let filling = fill_alternatives(alloc, scope, trees, start)?;
    Ok(filling.done)
}

/// None of these is finished yet.
fn unfilled(alloc: Global, bare: Vec<Comp>) -> Result<Filling, AllocError>
    ensures { IfOk result (λ f. filling_view f ≡ record { done = []; left = map component_view bare.items }) }
{
    Ok(Filling {
        done: Vec::with_capacity(alloc, bare.len())?,
        left: VecDeque::from_vec(bare),
    })
}

/// Each of the components that are written, in turn.
#[cycle(finishing)]
fn fill(
    alloc: Global,
    scope: Scope,
    trees: &[CompTree],
    filling: Filling,
) -> Result<Filling, SchemaFault>
    requires known { AreBuilt scope.known.now }
    requires next { ready.AreNext (visible_in scope) (components_of (map written.component_view trees.now))
        (filling_view filling).left }
    ensures { Answers filling_view named result (in_turn.FillsInTurn (visible_in scope.entry)
        (components_of (map written.component_view trees.now)) (filling_view filling)) }
{
    let mut so_far = filling;
    for tree in trees {
        so_far = fill_entry(alloc, scope, tree, so_far)?;
    }
    Ok(so_far)
}

#[cycle(finishing)]
fn fill_entry(
    alloc: Global,
    scope: Scope,
    tree: &CompTree,
    filling: Filling,
) -> Result<Filling, SchemaFault>
    requires known { AreBuilt scope.known.now }
    requires next { ready.IsEntryNext (visible_in scope) (written.component_view tree.now).form
        (filling_view filling).left }
    ensures { Answers filling_view named result
        (in_turn.EntryInTurn (visible_in scope.entry) (written.component_view tree.now).form (filling_view filling)) }
{
    match &tree.form {
        CompForm::Named(_, ty, presence) => fill_next(alloc, scope, ty, presence, filling),
        CompForm::ComponentsOf(ty) => fill_from(alloc, scope, &ty.base, filling),
    }
}

/// The alternatives that are written, in turn.
#[cycle(finishing)]
fn fill_alternatives(
    alloc: Global,
    scope: Scope,
    trees: &[AlternativeTree],
    filling: Filling,
) -> Result<Filling, SchemaFault>
    requires known { AreBuilt scope.known.now }
    requires next { ready.OthersAreNext (visible_in scope) (alternatives_of (map written.alternative_view trees.now))
        (filling_view filling).left }
    ensures { Answers filling_view named result (in_turn.OthersInTurn (visible_in scope.entry)
        (alternatives_of (map written.alternative_view trees.now)) (filling_view filling)) }
{
    let mut so_far = filling;
    for tree in trees {
        so_far = fill_alternative(alloc, scope, tree, so_far)?;
    }
    Ok(so_far)
}

#[cycle(finishing)]
fn fill_alternative(
    alloc: Global,
    scope: Scope,
    tree: &AlternativeTree,
    filling: Filling,
) -> Result<Filling, SchemaFault>
    requires known { AreBuilt scope.known.now }
    requires next { ready.IsNext (visible_in scope) (written.alternative_view tree.now).ty (filling_view filling).left }
    ensures { Answers filling_view named result (in_turn.AlternativeInTurn (visible_in scope.entry)
        (written.alternative_view tree.now) (filling_view filling)) }
{
    fill_next(alloc, scope, &tree.ty, &PresenceTree::Mandatory, filling)
}

/// The next component or alternative.
#[cycle(finishing)]
fn fill_next(
    alloc: Global,
    scope: Scope,
    tree: &TypeTree,
    presence: &PresenceTree,
    filling: Filling,
) -> Result<Filling, SchemaFault>
    requires known { AreBuilt scope.known.now }
    requires next { ready.IsNext (visible_in scope) (written.type_view tree.now) (filling_view filling).left }
    ensures { Answers filling_view named result (in_turn.FillsNext (visible_in scope.entry)
        (in_turn.FinishesInTurn (visible_in scope.entry) (written.type_view tree.now))
        (written.presence_view presence.now) (filling_view filling).done (filling_view filling).left) }
{
    let mut filling = filling;
    match filling.left.pop_front() {
        Some(bare) => fill_one(alloc, scope, tree, presence, bare, filling),
        None => unreachable!(),
    }
}

/// This one, after those that are finished.
#[cycle(finishing)]
fn fill_one(
    alloc: Global,
    scope: Scope,
    tree: &TypeTree,
    presence: &PresenceTree,
    bare: Comp,
    filling: Filling,
) -> Result<Filling, SchemaFault>
    requires known { AreBuilt scope.known.now }
    requires ready { ready.IsReady (visible_in scope) (written.type_view tree.now) (component_view bare).ty }
    ensures { Answers filling_view named result (in_turn.FillsOne
        (visible_in scope.entry) (in_turn.FinishesInTurn (visible_in scope.entry) (written.type_view tree.now))
        (written.presence_view presence.now) (component_view bare) (filling_view filling)) }
{
    let comp = finished_component(alloc, scope, tree, presence, bare)?;
    Ok(with_done(comp, filling)?)
}

/// One more that is finished.
fn with_done(comp: Comp, filling: Filling) -> Result<Filling, AllocFailed<Comp>>
    ensures { IfOk result (λ f. filling_view f ≡ in_turn.with_done (component_view comp) (filling_view filling)) }
{
    let Filling { mut done, left } = filling;
    done.push(comp)?;
    Ok(Filling { done, left })
}

/// A component with the constraints of its type filled in, and then its default.
#[cycle(finishing)]
fn finished_component(
    alloc: Global,
    scope: Scope,
    tree: &TypeTree,
    presence: &PresenceTree,
    bare: Comp,
) -> Result<Comp, SchemaFault>
    requires known { AreBuilt scope.known.now }
    requires ready { ready.IsReady (visible_in scope) (written.type_view tree.now) (component_view bare).ty }
    ensures { Answers component_view named result (in_turn.OneInTurn
        (visible_in scope.entry) (in_turn.FinishesInTurn (visible_in scope.entry) (written.type_view tree.now))
        (written.presence_view presence.now) (component_view bare)) }
{
    let Comp { name, ty, .. } = bare;
    let filled = finished(alloc, scope, tree, ty)?;
    with_presence(alloc, scope, presence, name, filled.ty)
}

/// The component of this name and this type.
fn with_presence(
    alloc: Global,
    scope: Scope,
    presence: &PresenceTree,
    name: ArcStr,
    ty: Ty,
) -> Result<Comp, SchemaFault>
    requires sound { IsTrue (is_sound (type_view ty)) }
    requires known { AreBuilt scope.known.now }
    ensures { Answers component_view named result (in_turn.WithPresence (visible_in scope.entry)
        (written.presence_view presence.now) (arc_str_bytes name) (type_view ty)) }
{
    let presence = presence_of(alloc, scope, &ty, presence)?;
    Ok(Comp { name, ty, presence })
}

/// Whether a component of this type may be left out.
fn presence_of(
    alloc: Global,
    scope: Scope,
    ty: &Ty,
    presence: &PresenceTree,
) -> Result<Presence, SchemaFault>
    requires sound { IsTrue (is_sound (type_view ty.now)) }
    requires known { AreBuilt scope.known.now }
    ensures { Answers presence_view named result
        (finishing.FillsPresence (visible_in scope.entry) (type_view ty.now) (written.presence_view presence.now)) }
{
    match presence {
        PresenceTree::Mandatory => Ok(Presence::Mandatory),
        PresenceTree::Optional => Ok(Presence::Optional),
        PresenceTree::Default(tree) => {
            let found = read_member(alloc, scope, ty, tree)?;
            Ok(Presence::Default(found.value))
        }
    }
}

// ---- COMPONENTS OF

/// What COMPONENTS OF takes in: a list that is written after it is finished, one that is referred to is so already.
#[cycle(finishing)]
fn fill_from(
    alloc: Global,
    scope: Scope,
    base: &BaseTree,
    filling: Filling,
) -> Result<Filling, SchemaFault>
    requires known { AreBuilt scope.known.now }
    requires next { ready.ArePutInNext (visible_in scope) (written.base_view base.now) (filling_view filling).left }
    ensures { Answers filling_view named result
        (in_turn.FromBaseInTurn (visible_in scope.entry) (written.base_view base.now) (filling_view filling)) }
{
    match base {
        BaseTree::Structure(_, trees) => fill(alloc, scope, trees, filling),
        BaseTree::Reference(name) => reference_taken_over(scope, name.name, filling),
        _ => unreachable!(),
    }
}

/// Those of the type of this name are taken over as they are.
fn reference_taken_over(scope: Scope, name: &[u8], filling: Filling) -> Result<Filling, SchemaFault>
    requires known { (t : AbstractType) × ((visible_in scope).types name.now ≡ Some t) }
    requires enough { finishing.count_of_meant ((visible_in scope).types name.now) ≤ length filling.left.items }
    ensures { Answers filling_view named result (Is (in_turn.taken_over
        (finishing.count_of_meant ((visible_in scope.entry).types name.now)) (filling_view filling))) }
{
    let Some(ty) = scope.type_named(name) else {
        unreachable!()
    };
    Ok(taken_over(filling, part_count(ty))?)
}

fn part_count(ty: &Ty) -> usize
    ensures { result ≡ component_count (parts_of (type_view ty.now)) }
{
    ty.kind.components().len()
}

/// As many of those that are left, taken over as they are.
fn taken_over(filling: Filling, count: usize) -> Result<Filling, AllocFailed<Comp>>
    requires enough { count ≤ length filling.left.items }
    ensures { IfOk result (λ f. filling_view f ≡ in_turn.taken_over count (filling_view filling)) }
{
    let mut so_far = filling;
    for _ in 0..count {
        so_far = one_taken_over(so_far)?;
    }
    Ok(so_far)
}

/// The next one, taken over as it is.
fn one_taken_over(filling: Filling) -> Result<Filling, AllocFailed<Comp>>
    requires enough { 1 ≤ length filling.left.items }
    ensures { IfOk result (λ f. filling_view f ≡ in_turn.taken_over 1 (filling_view filling)) }
{
    let mut filling = filling;
    match filling.left.pop_front() {
        Some(comp) => with_done(comp, filling),
        None => unreachable!(),
    }
}
