//! What all types have in common: their tags, and the limits on their size.
ghost use Rattle.std.specs.Prelude.{◌≡◌, IfOk};
ghost use Rattle.guard_model.specs.Answer.{Gives};
ghost use Rattle.guard_model.specs.TypeView as model;
ghost use Rattle.guard_tagging.specs.Named.{named};
ghost use Rattle.guard_tagging.specs.inside.NodeViews.{node_view, whole_view, made_view};
ghost use Rattle.guard_tagging.specs.inside.ReadNodes as reading;

use crate::fault::TagFault;
use crate::made::{Made, Node, Whole};
use crate::measure::MOST_NODES;
use crate::tags::{check_implicit, check_universal, with_written};
use guard_model::{DEEPEST_NESTING, Kind, Tag, Ty};
use std::alloc::{AllocError, Global};

/// The tags of a type: those that are written, and then these.
#[tactic(auto, unfolding(crate::specs::inside::ReadNodes::tags_of))]
pub fn tags_of(
    alloc: Global,
    node: &Node,
    base: &[Tag],
    on_choice: bool,
) -> Result<Vec<Tag>, TagFault>
    ensures { Gives (λ v. v.items) named result (reading.tags_of (node_view node.now) base.now on_choice) }
{
    check_universal(node.tags)?;
    check_implicit(node.tags, on_choice)?;
    with_written(alloc, node, base)
}

/// A type with these tags; `inside` is how deep its parts are nested, `before` the number of types before it. TooDeep
/// above 32 levels, SchemaTooLarge above 100,000 types, at the type's first token.
#[tactic(auto, unfolding(crate::specs::inside::ReadNodes::whole_with))]
pub fn whole_with(
    node: &Node,
    tags: Vec<Tag>,
    inside: usize,
    before: usize,
) -> Result<Whole, TagFault>
    ensures { Gives whole_view named result (reading.whole_with (node_view node.now) tags.items inside before) }
{
    let levels = tags.len();
    if levels > DEEPEST_NESTING || inside > DEEPEST_NESTING - levels {
        return Err(TagFault::TooDeep(node.site));
    }
    let nodes = nodes_with(node, before)?;
    Ok(Whole {
        tags,
        nesting: levels + inside,
        nodes,
    })
}

/// How many types there are up to this one and with it.
#[tactic(auto, unfolding(crate::specs::inside::ReadNodes::nodes_with))]
fn nodes_with(node: &Node, before: usize) -> Result<usize, TagFault>
    ensures { Gives (λ n. n) named result (reading.nodes_with (node_view node.now) before) }
{
    let one = if node.counts { 1 } else { 0 };
    if before > MOST_NODES - one {
        return Err(TagFault::SchemaTooLarge(node.site));
    }
    Ok(before + one)
}

/// A new type of this kind, without constraints.
pub fn new_type(alloc: Global, whole: Whole, kind: Kind) -> Result<Box<Made>, AllocError>
    ensures { IfOk result (λ made. made_view made.value ≡ reading.made_with (whole_view whole) (model.kind_view kind)) }
{
    let ty = Ty {
        tags: whole.tags,
        kind,
        cons: Vec::new(alloc),
    };
    Ok(Box::new(
        alloc,
        Made {
            ty,
            nesting: whole.nesting,
            nodes: whole.nodes,
        },
    )?)
}
