//! The nodes of a type and of what is asked of its values. What is inside the parts of a node comes first, then the
//! parts side by side; the node itself is answered and isn't with them yet.
ghost use Rattle.std.specs.Prelude.{◌≡◌, ◌≤◌, IfOk, IsTrue, map, true, false};
ghost use Rattle.guard_der.specs.Der as der;
ghost use Rattle.guard_der.specs.Sound.{is_sound, is_proper_presence};
ghost use Rattle.guard_model.specs.Counts.{component_count};
ghost use Rattle.guard_model.specs.Kinds.{kind_of};
ghost use Rattle.guard_model.specs.Limits.{most_components};
ghost use Rattle.guard_model.specs.TypeView.{type_view, kind_view, component_view, components_of};
ghost use Rattle.guard_tables.specs.Apt.{AreApt, AllSpeak};
ghost use Rattle.guard_tables.specs.Forms.{forms_of};
ghost use Rattle.guard_tables.specs.OfParts.{each_of, terms_at, NeedsFew};
ghost use Rattle.guard_tables.specs.Lay as plan;
ghost use Rattle.guard_tables.specs.NodeViews.{condition_view};
ghost use Rattle.guard_tables.specs.NodesView.{root_of};
ghost use Rattle.guard_tables.specs.Plan as plans;
ghost use Rattle.guard_tables.specs.Plan.{asked_of};
ghost use Rattle.guard_tables.specs.TableNodes.{own_tags};
ghost use Rattle.guard_tables.specs.inside.DemandViews.{slot_demands_view, terms_view};
ghost use Rattle.guard_tables.specs.inside.DemandsOfParts.{part_asked};
ghost use Rattle.guard_tables.specs.inside.Assembled.{Lays, LaysPart, MayBeLaid, AskedMayBeLaid};
ghost use Rattle.guard_tables.specs.inside.Assembled.{KindMayBeLaid, PartsMayBeLaid, body_of_group, parts_of_group};
ghost use Rattle.guard_tables.specs.inside.Assembled.{body_of_elements, side_of_part};
ghost use Rattle.guard_tables.specs.inside.SideViews.{part_side_view};

use crate::ascending::ascend;
use crate::assembly::{
    as_elements, as_parts, innermost, with_conditions, with_formulas, with_last, with_tags,
};
use crate::conditions_at_node::conditions_of;
use crate::conditions_list::Conditions;
use crate::demands::{SlotDemand, Term};
use crate::demands_at_node::forms_of;
use crate::demands_of_parts::{PartDemands, demands_of_parts, each_of};
use crate::items::Items;
use crate::kinds_of_nodes::simple_kind;
use crate::new_nodes::{Elements, Group, simple_node, with_side};
use crate::node_list::{Assembled, Builder, Nodes};
use crate::sides::{PartSide, side_chosen, side_for};
use guard_model::{Comp, Kind, OutOfMemory, Tag, Ty};
use std::alloc::Global;

/// The nodes of a table, which stand for the plan that asks of the declared type's values what is asked. Conditions:
/// the declared type is sound, each demand may be made of its values, and no node needs more than 256 slots.
pub(crate) fn lay_nodes(
    alloc: Global,
    declared: &Ty,
    demands: &[SlotDemand<'_>],
) -> Result<Nodes, OutOfMemory>
    requires sound { IsTrue (is_sound (type_view declared.now)) }
    requires apt { AreApt (kind_of (type_view declared.now)) (slot_demands_view demands.now) }
    requires room { NeedsFew (type_view declared.now) (slot_demands_view demands.now) }
    ensures { IfOk result (λ n. root_of n ≡ plan.lay (type_view declared.now) (slot_demands_view demands.now)) }
{
    let laid = lay(alloc, declared, demands, Builder::new(alloc))?;
    let whole = with_last(laid)?;
    Ok(whole.finish())
}

/// The node of a type, and what is inside it.
#[cycle(layout)]
fn lay(
    alloc: Global,
    ty: &Ty,
    demands: &[SlotDemand<'_>],
    builder: Builder,
) -> Result<Assembled, OutOfMemory>
    requires { MayBeLaid (type_view ty.now) (slot_demands_view demands.now) }
    ensures { IfOk result (λ l. Lays builder l (plan.lay (type_view ty.now) (slot_demands_view demands.now))) }
{
    let tag = innermost(&ty.tags);
    let laid = lay_asked(alloc, &ty.kind, demands, tag, builder)?;
    with_tags(alloc, laid, &ty.tags)
}

/// The node of a type without the tags that are round it, and what is inside it.
#[cycle(layout)]
fn lay_asked(
    alloc: Global,
    kind: &Kind,
    demands: &[SlotDemand<'_>],
    tag: Option<Tag>,
    builder: Builder,
) -> Result<Assembled, OutOfMemory>
    requires { AskedMayBeLaid (kind_view kind.now) (slot_demands_view demands.now) }
    ensures { IfOk result (λ l. Lays builder l (plans.plan (own_tags tag) (der.is_constructed (kind_view kind.now))
        (plan.implied_of (forms_of (slot_demands_view demands.now)).implications
        (plan.lay_kind (kind_view kind.now) (terms_at (slot_demands_view demands.now)))))) }
{
    let formulas = forms_of(alloc, demands)?;
    let laid = lay_kind(alloc, kind, &formulas.terms, tag, builder)?;
    with_formulas(alloc, laid, formulas.implications)
}

/// The node of a kind, where all demands are tests of the node and of its parts.
#[cycle(layout)]
fn lay_kind(
    alloc: Global,
    kind: &Kind,
    terms: &[Term<'_>],
    tag: Option<Tag>,
    builder: Builder,
) -> Result<Assembled, OutOfMemory>
    requires speak { AllSpeak (kind_view kind.now) (terms_view terms.now) }
    requires parts { KindMayBeLaid (kind_view kind.now) (terms_view terms.now) }
    ensures { IfOk result (λ l. Lays builder l (plans.plan (own_tags tag) (der.is_constructed (kind_view kind.now))
        (plan.lay_kind (kind_view kind.now) (terms_view terms.now)))) }
{
    let asked = conditions_of(alloc, kind, terms)?;
    match kind {
        Kind::Sequence(comps) => lay_group(alloc, comps, Group::Series, terms, tag, asked, builder),
        Kind::Set(comps) => lay_group(alloc, comps, Group::Set, terms, tag, asked, builder),
        Kind::Choice(comps) => lay_group(alloc, comps, Group::Choice, terms, tag, asked, builder),
        Kind::SequenceOf(element) => {
            lay_elements(alloc, element, Elements::List, terms, tag, asked, builder)
        }
        Kind::SetOf(element) => {
            lay_elements(alloc, element, Elements::SetOf, terms, tag, asked, builder)
        }
        _ => lay_simple(alloc, kind, tag, asked, builder),
    }
}

/// The node of a kind whose contents octets spell the value alone.
fn lay_simple(
    alloc: Global,
    kind: &Kind,
    tag: Option<Tag>,
    conditions: Conditions,
    builder: Builder,
) -> Result<Assembled, OutOfMemory>
    requires { der.is_constructed (kind_view kind.now) ≡ false }
    ensures { IfOk result (λ l. Lays builder l (plans.plan (own_tags tag) false
        (plans.simple (plan.nameless (kind_view kind.now)) (map condition_view conditions.list.items)))) }
{
    let items = Items::of(kind)?;
    let node = simple_node(alloc, simple_kind(kind), items, conditions, tag);
    Ok(Assembled { builder, node })
}

/// The node of a SEQUENCE OF or SET OF, and one node for all its elements.
#[cycle(layout)]
fn lay_elements(
    alloc: Global,
    element: &Ty,
    elements: Elements,
    terms: &[Term<'_>],
    tag: Option<Tag>,
    conditions: Conditions,
    builder: Builder,
) -> Result<Assembled, OutOfMemory>
    requires { MayBeLaid (type_view element.now) (each_of (terms_view terms.now)) }
    ensures { IfOk result
        (λ l. Lays builder l (plans.plan (own_tags tag) true (asked_of (map condition_view conditions.list.items)
        (body_of_elements elements (plan.lay (type_view element.now) (each_of (terms_view terms.now))))))) }
{
    let demands = each_of(alloc, terms)?;
    let laid = lay(alloc, element, &demands, builder)?;
    let whole = as_elements(alloc, laid, elements, tag)?;
    with_conditions(alloc, whole, conditions)
}

/// The node of a SEQUENCE, SET or CHOICE, and those of its parts.
#[cycle(layout)]
fn lay_group(
    alloc: Global,
    comps: &[Comp],
    group: Group,
    terms: &[Term<'_>],
    tag: Option<Tag>,
    conditions: Conditions,
    builder: Builder,
) -> Result<Assembled, OutOfMemory>
    requires few { component_count (components_of (map component_view comps.now)) ≤ most_components }
    requires parts { PartsMayBeLaid 0 (components_of (map component_view comps.now)) (terms_view terms.now) }
    ensures { IfOk result
        (λ l. Lays builder l (plans.plan (own_tags tag) true (asked_of (map condition_view conditions.list.items)
        (body_of_group group
        (parts_of_group group 0 (components_of (map component_view comps.now)) (terms_view terms.now)))))) }
{
    let asked = demands_of_parts(alloc, group.is_exclusive(), terms, comps.len())?;
    let mut builder = builder;
    let mut nodes = Vec::new(alloc);
    for (place, comp) in comps.iter().enumerate() {
        let part = lay_part(alloc, comp, group, &asked[place], builder)?;
        builder = part.builder;
        nodes.push(part.node)?;
    }
    let whole = as_parts(alloc, builder, nodes, group, tag, ascend(comps))?;
    with_conditions(alloc, whole, conditions)
}

/// The node of a component or alternative of which this is asked, and what is inside it.
#[cycle(layout)]
fn lay_part(
    alloc: Global,
    comp: &Comp,
    group: Group,
    asked: &PartDemands<'_>,
    builder: Builder,
) -> Result<Assembled, OutOfMemory>
    requires laid { MayBeLaid (component_view comp.now).ty (part_asked asked.now).demands }
    requires proper { IsTrue (is_proper_presence (component_view comp.now).ty (component_view comp.now).presence) }
    ensures { IfOk result (λ l. LaysPart builder l
        (side_of_part group (component_view comp.now) (part_asked asked.now)
        (plan.lay (component_view comp.now).ty (part_asked asked.now).demands))
        (plan.lay (component_view comp.now).ty (part_asked asked.now).demands)) }
{
    let side = side_of(alloc, comp, group, asked)?;
    let laid = lay(alloc, &comp.ty, &asked.demands, builder)?;
    Ok(Assembled {
        builder: laid.builder,
        node: with_side(laid.node, side),
    })
}

/// What is said of a component or alternative, beside its type.
fn side_of(
    alloc: Global,
    comp: &Comp,
    group: Group,
    asked: &PartDemands<'_>,
) -> Result<PartSide, OutOfMemory>
    requires laid { MayBeLaid (component_view comp.now).ty (part_asked asked.now).demands }
    requires proper { IsTrue (is_proper_presence (component_view comp.now).ty (component_view comp.now).presence) }
    ensures { IfOk result (λ s. part_side_view s ≡ side_of_part group (component_view comp.now) (part_asked asked.now)
        (plan.lay (component_view comp.now).ty (part_asked asked.now).demands)) }
{
    if let Group::Choice = group {
        return Ok(side_chosen(asked.present));
    }
    side_for(
        alloc,
        &comp.ty,
        &comp.presence,
        &asked.demands,
        asked.absent,
        asked.present,
    )
}
