//! How deep and how large a finished type is, no further than a limit.
ghost use Rattle.std.specs.Prelude.{◌≡◌, ◌+◌, min, map};
ghost use Rattle.guard_model.specs.TypeView.{type_view, kind_view, component_view, components_of};
ghost use Rattle.guard_tagcheck.specs.Limits as limits;
ghost use Rattle.guard_tagging.specs.Faults as faults;

use guard_model::{Comp, DEEPEST_NESTING, Kind, Ty};

/// The most types that all definitions may be made of.
pub const MOST_NODES: usize = 100000;

/// How deep the parts of a kind are nested, those of a CHOICE one level deeper; 33 where that is more than 32.
#[cycle(nesting)]
pub fn nesting_inside(kind: &Kind) -> usize
    ensures { result ≡ min (limits.nesting_inside (kind_view kind.now)) 33 }
{
    match kind {
        Kind::Sequence(comps) | Kind::Set(comps) => deepest(comps),
        Kind::Choice(comps) => (deepest(comps) + 1).min(DEEPEST_NESTING + 1),
        Kind::SequenceOf(element) | Kind::SetOf(element) => nesting(element),
        _ => 0,
    }
}

#[cycle(nesting)]
fn nesting(ty: &Ty) -> usize
    ensures { result ≡ min (limits.nesting (type_view ty.now)) 33 }
{
    let levels = ty.tags.len().min(DEEPEST_NESTING + 1);
    let inside = nesting_inside(&ty.kind);
    (levels + inside).min(DEEPEST_NESTING + 1)
}

#[cycle(nesting)]
fn deepest(comps: &[Comp]) -> usize
    ensures { result ≡ min (limits.deepest (components_of (map component_view comps.now))) 33 }
{
    let mut deepest = 0;
    for comp in comps {
        deepest = deepest.max(nesting(&comp.ty));
    }
    deepest
}

/// How many types there are with those in this kind, after `before` others; 100,001 where there are more than 100,000.
#[cycle(counting)]
pub fn nodes_inside(kind: &Kind, before: usize) -> usize
    ensures { result ≡ min (before + faults.nodes_inside (kind_view kind.now)) 100001 }
{
    match kind {
        Kind::Sequence(comps) | Kind::Set(comps) | Kind::Choice(comps) => nodes_of(comps, before),
        Kind::SequenceOf(element) | Kind::SetOf(element) => nodes(element, before),
        _ => before.min(MOST_NODES + 1),
    }
}

/// How many types there are with those that this one is made of, itself among them, after `before` others; 100,001
/// where there are more than 100,000. Types inside constraints don't count.
#[cycle(counting)]
pub fn nodes(ty: &Ty, before: usize) -> usize
    ensures { result ≡ min (before + faults.nodes (type_view ty.now)) 100001 }
{
    if before > MOST_NODES {
        return MOST_NODES + 1;
    }
    let nodes = nodes_inside(&ty.kind, before) + 1;
    nodes.min(MOST_NODES + 1)
}

#[cycle(counting)]
fn nodes_of(comps: &[Comp], before: usize) -> usize
    ensures { result ≡ min (before + faults.nodes_of_components (components_of (map component_view comps.now))) 100001 }
{
    let mut so_far = before.min(MOST_NODES + 1);
    for comp in comps {
        so_far = nodes(&comp.ty, so_far);
    }
    so_far
}
