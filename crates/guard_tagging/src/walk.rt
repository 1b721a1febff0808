//! The walk over a written type: its parts in written order, and then the whole.
ghost use Rattle.std.specs.Prelude.{◌≡◌, map};
ghost use Rattle.guard_model.specs.Answer.{Gives};
ghost use Rattle.guard_syntax.specs.Trees.{structure, choice, components_of, alternatives_of};
ghost use Rattle.guard_syntax.specs.TypeViews as written;
ghost use Rattle.guard_tagging.specs.KnownNames.{IsKnown, IsKnownInside, IsKnownForm, AreKnown, AreKnownOthers};
ghost use Rattle.guard_tagging.specs.Named.{named};
ghost use Rattle.guard_tagging.specs.inside.NodeViews.{node_view, made_view};
ghost use Rattle.guard_tagging.specs.inside.PartViews.{parts_view};
ghost use Rattle.guard_tagging.specs.inside.ReadTypes as reading;
ghost use Rattle.guard_tagging.specs.ScopeView.{scope_view};

use crate::automatic::{is_automatic, is_automatic_choice, is_automatic_list};
use crate::base::{
    bits_type, choice_type, enumerated_type, integer_type, of_type, plain_type, referred_to,
    structure_type,
};
use crate::fault::TagFault;
use crate::kinds::presence_of;
use crate::made::{Made, Node, Parts};
use crate::parts::{next_tag, no_parts, with_component};
use crate::scope::Scope;
use crate::taken::take;
use guard_model::{Presence, Tag};
use guard_syntax::{AlternativeTree, BaseTree, Collection, CompForm, CompTree, TypeTree};
use std::alloc::Global;

/// The type that is written, with the automatic tag that it gets, or its first fault; `before` is the number of types
/// before it. The type after COMPONENTS OF doesn't count itself. Condition: each type that a name in it means is known.
#[cycle(walk)]
#[tactic(auto, unfolding(crate::specs::inside::ReadTypes::read_type))]
pub fn type_of(
    alloc: Global,
    scope: &Scope,
    tree: &TypeTree,
    counts: bool,
    automatic: Option<Tag>,
    before: usize,
) -> Result<Box<Made>, TagFault>
    requires known { IsKnown (scope_view scope.now) (written.type_view tree.now) }
    ensures { Gives (λ m. made_view m.value) named result
        (reading.read_type (scope_view scope.now) counts automatic before (written.type_view tree.now)) }
{
    let node = Node {
        site: tree.site,
        tags: &tree.tags,
        tag_default: scope.tag_default,
        counts,
        automatic,
    };
    type_with(alloc, scope, &node, &tree.base, before)
}

#[cycle(walk)]
#[tactic(auto, unfolding(crate::specs::inside::ReadTypes::read_base))]
fn type_with(
    alloc: Global,
    scope: &Scope,
    node: &Node,
    base: &BaseTree,
    before: usize,
) -> Result<Box<Made>, TagFault>
    requires known { IsKnownInside (scope_view scope.now) (written.base_view base.now) }
    ensures { Gives (λ m. made_view m.value) named result
        (reading.read_base (scope_view scope.now) (node_view node.now) before (written.base_view base.now)) }
{
    match base {
        BaseTree::Plain(plain) => plain_type(alloc, node, *plain, before),
        BaseTree::Integer(named) => integer_type(alloc, node, named, before),
        BaseTree::BitString(named) => bits_type(alloc, node, named, before),
        BaseTree::Enumerated(items) => enumerated_type(alloc, node, items, before),
        BaseTree::Structure(collection, comps) => {
            structure(alloc, scope, node, *collection, comps, before)
        }
        BaseTree::Choice(alternatives) => choice(alloc, scope, node, alternatives, before),
        BaseTree::Of(collection, _, element) => {
            elements(alloc, scope, node, *collection, element, before)
        }
        BaseTree::Reference(name) => {
            let Some(known) = scope.referred(name.name) else {
                unreachable!();
            };
            referred_to(alloc, node, known.ty, before)
        }
    }
}

#[cycle(walk)]
#[tactic(auto, unfolding(crate::specs::inside::ReadTypes::read_base))]
fn structure(
    alloc: Global,
    scope: &Scope,
    node: &Node,
    collection: Collection,
    comps: &[CompTree],
    before: usize,
) -> Result<Box<Made>, TagFault>
    requires known { AreKnown (scope_view scope.now) (components_of (map written.component_view comps.now)) }
    ensures { Gives (λ m. made_view m.value) named result (reading.read_base (scope_view scope.now) (node_view node.now)
        before (structure collection (components_of (map written.component_view comps.now)))) }
{
    let parts = components(alloc, scope, collection, comps, before)?;
    structure_type(alloc, node, collection, parts)
}

#[cycle(walk)]
#[tactic(auto, unfolding(crate::specs::inside::ReadTypes::read_base))]
fn choice(
    alloc: Global,
    scope: &Scope,
    node: &Node,
    trees: &[AlternativeTree],
    before: usize,
) -> Result<Box<Made>, TagFault>
    requires known { AreKnownOthers (scope_view scope.now) (alternatives_of (map written.alternative_view trees.now)) }
    ensures { Gives (λ m. made_view m.value) named result (reading.read_base (scope_view scope.now) (node_view node.now)
        before (choice (alternatives_of (map written.alternative_view trees.now)))) }
{
    let parts = alternatives(alloc, scope, trees, before)?;
    choice_type(alloc, node, parts)
}

#[cycle(walk)]
fn elements(
    alloc: Global,
    scope: &Scope,
    node: &Node,
    collection: Collection,
    tree: &TypeTree,
    before: usize,
) -> Result<Box<Made>, TagFault>
    requires known { IsKnown (scope_view scope.now) (written.type_view tree.now) }
    ensures { Gives (λ m. made_view m.value) named result (reading.read_elements (scope_view scope.now)
        (node_view node.now) collection before (written.type_view tree.now)) }
{
    let element = type_of(alloc, scope, tree, true, None, before)?;
    of_type(alloc, node, collection, element)
}

#[cycle(walk)]
fn components(
    alloc: Global,
    scope: &Scope,
    collection: Collection,
    trees: &[CompTree],
    before: usize,
) -> Result<Box<Parts>, TagFault>
    requires known { AreKnown (scope_view scope.now) (components_of (map written.component_view trees.now)) }
    ensures { Gives (λ p. parts_view p.value) named result (reading.read_list (scope_view scope.now) collection before
        (components_of (map written.component_view trees.now))) }
{
    let automatic = is_automatic_list(scope.tag_default, trees);
    let mut parts = Box::new(alloc, no_parts(alloc, before))?;
    for tree in trees {
        parts = entry(alloc, scope, collection, automatic, tree, parts)?;
    }
    Ok(parts)
}

/// The components of a list with those of one more entry.
#[cycle(walk)]
fn entry(
    alloc: Global,
    scope: &Scope,
    collection: Collection,
    automatic: bool,
    tree: &CompTree,
    parts: Box<Parts>,
) -> Result<Box<Parts>, TagFault>
    requires known { IsKnownForm (scope_view scope.now) (written.component_view tree.now).form }
    ensures { Gives (λ p. parts_view p.value) named result (reading.read_component (scope_view scope.now) collection
        automatic (parts_view parts.value) (written.component_view tree.now)) }
{
    match &tree.form {
        CompForm::Named(name, ty, presence) => {
            let tag = next_tag(automatic, &parts);
            let made = type_of(alloc, scope, ty, true, tag, parts.nodes)?;
            let presence = presence_of(presence);
            Ok(with_component(alloc, parts, tree.site, name, made, presence)?)
        }
        CompForm::ComponentsOf(ty) => {
            let made = type_of(alloc, scope, ty, false, None, parts.nodes)?;
            let automatic = automatic || is_automatic(scope, &ty.base);
            Ok(take(alloc, parts, collection, automatic, tree.site, made)?)
        }
    }
}

#[cycle(walk)]
fn alternatives(
    alloc: Global,
    scope: &Scope,
    trees: &[AlternativeTree],
    before: usize,
) -> Result<Box<Parts>, TagFault>
    requires known { AreKnownOthers (scope_view scope.now) (alternatives_of (map written.alternative_view trees.now)) }
    ensures { Gives (λ p. parts_view p.value) named result
        (reading.read_choice (scope_view scope.now) before (alternatives_of (map written.alternative_view trees.now))) }
{
    let automatic = is_automatic_choice(scope.tag_default, trees);
    let mut parts = Box::new(alloc, no_parts(alloc, before))?;
    for tree in trees {
        parts = alternative(alloc, scope, automatic, tree, parts)?;
    }
    Ok(parts)
}

#[cycle(walk)]
fn alternative(
    alloc: Global,
    scope: &Scope,
    automatic: bool,
    tree: &AlternativeTree,
    parts: Box<Parts>,
) -> Result<Box<Parts>, TagFault>
    requires known { IsKnown (scope_view scope.now) (written.alternative_view tree.now).ty }
    ensures { Gives (λ p. parts_view p.value) named result (reading.read_one (scope_view scope.now) automatic
        (parts_view parts.value) (written.alternative_view tree.now)) }
{
    let tag = next_tag(automatic, &parts);
    let made = type_of(alloc, scope, &tree.ty, true, tag, parts.nodes)?;
    Ok(with_component(
        alloc,
        parts,
        tree.site,
        tree.name,
        made,
        Presence::Mandatory,
    )?)
}
