//! Steps in which nodes are put together, from the inside out.
ghost use Rattle.std.specs.Prelude.{◌≡◌, ◌<◌, ◌≤◌, ◌-◌, ◌++◌, ◌∷◌, length, map, drop, None, Some, IfOk, true};
ghost use Rattle.guard_model.specs.Limits.{most_components};
ghost use Rattle.guard_tables.specs.Lay.{implied_of};
ghost use Rattle.guard_tables.specs.NodeViews.{condition_view, implication_view};
ghost use Rattle.guard_tables.specs.Plan as plans;
ghost use Rattle.guard_tables.specs.Plan.{body_in, tags_in, form_in, asked_of};
ghost use Rattle.guard_tables.specs.TableNodes.{ascend, own_tags};
ghost use Rattle.guard_tables.specs.inside.Aside.{spots_at};
ghost use Rattle.guard_tables.specs.inside.Assembled.{Lays, Stacks, MayCome, plan_in, parts_in};
ghost use Rattle.guard_tables.specs.inside.Assembled.{body_of_group, body_of_elements, spots_so_far};

use crate::conditions_list::Conditions;
use crate::identifiers::{Identifiers, identifiers_of};
use crate::new_nodes::{Elements, Group, Node, bare, group_node};
use crate::node::{Implication, Kind};
use crate::node_list::{Assembled, Builder};
use guard_model::{OutOfMemory, Tag};
use std::alloc::Global;

/// The nodes with the one that wasn't with them yet, which is the last now.
pub(crate) fn with_last(laid: Assembled) -> Result<Builder, OutOfMemory>
    ensures { IfOk result (λ b. Stacks laid b) }
{
    laid.builder.with(laid.node.hot, laid.node.cold)
}

// ---- in front of a node

/// The nodes with one in front that has these conditions on the whole value; without conditions no node comes in front.
pub(crate) fn with_conditions(
    alloc: Global,
    laid: Assembled,
    conditions: Conditions,
) -> Result<Assembled, OutOfMemory>
    ensures { IfOk result (λ l. Lays laid.builder l (plans.plan (tags_in (plan_in laid)) (form_in (plan_in laid))
        (asked_of (map condition_view conditions.list.items) (body_in (plan_in laid))))) }
{
    if conditions.list.is_empty() {
        return Ok(laid);
    }
    let identifiers = Identifiers {
        own: laid.node.hot.identifier,
        other: laid.node.hot.other,
    };
    let first = laid.builder.hots.len();
    let builder = with_last(laid)?;
    let mut node = bare(alloc, Kind::Asked, identifiers, true, first, 1);
    node.cold.conditions = conditions;
    Ok(Assembled { builder, node })
}

/// The nodes with one in front that has these formulas over what fails there; without formulas no node comes in front.
pub(crate) fn with_formulas(
    alloc: Global,
    laid: Assembled,
    implications: Vec<Implication>,
) -> Result<Assembled, OutOfMemory>
    ensures { IfOk result (λ l. Lays laid.builder l (plans.plan (tags_in (plan_in laid)) (form_in (plan_in laid))
        (implied_of (map implication_view implications.items) (body_in (plan_in laid))))) }
{
    if implications.is_empty() {
        return Ok(laid);
    }
    let identifiers = Identifiers {
        own: laid.node.hot.identifier,
        other: laid.node.hot.other,
    };
    let first = laid.builder.hots.len();
    let builder = with_last(laid)?;
    let mut node = bare(alloc, Kind::Formula, identifiers, false, first, 1);
    node.cold.implications = implications;
    Ok(Assembled { builder, node })
}

/// The nodes with one in front that is an explicit tag round the whole.
fn wrapped(alloc: Global, laid: Assembled, tag: Tag) -> Result<Assembled, OutOfMemory>
    requires { 0 < length (tags_in (plan_in laid)) }
    ensures { IfOk result (λ l. Lays laid.builder l
        (plans.plan (tag ∷ tags_in (plan_in laid)) (form_in (plan_in laid)) (body_in (plan_in laid)))) }
{
    let first = laid.builder.hots.len();
    let builder = with_last(laid)?;
    let identifiers = identifiers_of(Some(tag), true);
    let mut node = bare(alloc, Kind::Wrapper, identifiers, false, first, 1);
    node.cold.tag = Some(tag);
    Ok(Assembled { builder, node })
}

/// The last of the tags, which is the kind's own; None where there is none, as of a CHOICE.
pub(crate) fn innermost(tags: &[Tag]) -> Option<Tag>
    ensures { own_tags result ≡ drop (length tags.now - 1) tags.now }
{
    if tags.is_empty() {
        return None;
    }
    Some(tags[tags.len() - 1])
}

/// The nodes with all tags but the last round the whole, from the inside out.
pub(crate) fn with_tags(
    alloc: Global,
    laid: Assembled,
    tags: &[Tag],
) -> Result<Assembled, OutOfMemory>
    requires { tags_in (plan_in laid) ≡ drop (length tags.now - 1) tags.now }
    ensures { IfOk result
        (λ l. Lays laid.builder l (plans.plan tags.now (form_in (plan_in laid)) (body_in (plan_in laid)))) }
{
    let mut whole = laid;
    let mut left = tags.len().saturating_sub(1);
    while left > 0 {
        left -= 1;
        whole = wrapped(alloc, whole, tags[left])?;
    }
    Ok(whole)
}

// ---- round elements and parts

/// The nodes with one in front that is a list of such elements.
pub(crate) fn as_elements(
    alloc: Global,
    element: Assembled,
    elements: Elements,
    tag: Option<Tag>,
) -> Result<Assembled, OutOfMemory>
    ensures { IfOk result
        (λ l. Lays element.builder l (plans.plan (own_tags tag) true (body_of_elements elements (plan_in element)))) }
{
    let first = element.builder.hots.len();
    let builder = with_last(element)?;
    let identifiers = identifiers_of(tag, true);
    let mut node = bare(alloc, elements.kind(), identifiers, false, first, 1);
    node.cold.tag = tag;
    Ok(Assembled { builder, node })
}

/// The nodes with one that has these parts, of which it is said whether they ascend by their tags.
pub(crate) fn as_parts(
    alloc: Global,
    builder: Builder,
    parts: Vec<Node>,
    group: Group,
    tag: Option<Tag>,
    ascending: bool,
) -> Result<Assembled, OutOfMemory>
    requires come { MayCome builder parts.items }
    requires few { length parts.items ≤ most_components }
    requires order { ascending ≡ true → ascend None (parts_in builder parts.items plans.no_parts) ≡ true }
    ensures { IfOk result (λ l. Lays builder l
        (plans.plan (own_tags tag) true (body_of_group group (parts_in builder parts.items plans.no_parts)))) }
{
    let first = builder.hots.len();
    let count = parts.len() as u32;
    let builder = with_all(builder, parts)?;
    let node = group_node(alloc, group, tag, first, count, ascending);
    Ok(Assembled { builder, node })
}

/// The nodes with all parts side by side at their end.
fn with_all(builder: Builder, parts: Vec<Node>) -> Result<Builder, OutOfMemory>
    requires { MayCome builder parts.items }
    ensures { IfOk result (λ b. spots_so_far b ≡ spots_so_far builder ++ spots_at (spots_so_far builder) parts.items) }
{
    let mut builder = builder;
    for node in parts {
        builder = builder.with(node.hot, node.cold)?;
    }
    Ok(builder)
}
