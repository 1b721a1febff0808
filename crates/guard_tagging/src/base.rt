//! A type of each kind, from its parts.
ghost use Rattle.std.specs.Prelude.{◌≡◌, map};
ghost use Rattle.guard_model.specs.Answer.{Gives};
ghost use Rattle.guard_model.specs.TypeView as model;
ghost use Rattle.guard_syntax.specs.TypeViews as written;
ghost use Rattle.guard_tagging.specs.Named.{named};
ghost use Rattle.guard_tagging.specs.inside.NodeViews.{node_view, whole_view, made_view};
ghost use Rattle.guard_tagging.specs.inside.PartViews.{parts_view};
ghost use Rattle.guard_tagging.specs.inside.ReadBases as reading;
ghost use Rattle.guard_tagging.specs.Tagging as tagging;
ghost use Rattle.guard_tagging.specs.inside.Views.{place_view};

use crate::fault::TagFault;
use crate::kinds::{
    collection_number, of_kind, plain_kind, plain_number, structure_kind, universal,
};
use crate::made::{Made, Node, Parts, Whole};
use crate::measure::{nesting_inside, nodes_inside};
use crate::names::{Placed, first_repeated, item_places, named_places};
use crate::node::{new_type, tags_of, whole_with};
use crate::numbering::{items, named_bits, named_numbers};
use crate::parts::check_list;
use guard_model::{Kind, NamedList, Ty};
use guard_syntax::{Collection, ItemTree, NamedTree, PlainType};
use std::alloc::Global;

/// A type that is written with words alone.
#[tactic(auto, unfolding(crate::specs::inside::ReadBases::plain_type))]
pub fn plain_type(
    alloc: Global,
    node: &Node,
    plain: PlainType,
    before: usize,
) -> Result<Box<Made>, TagFault>
    ensures { Gives (λ m. made_view m.value) named result (reading.plain_type (node_view node.now) plain before) }
{
    let tags = tags_of(alloc, node, &[universal(plain_number(plain))], false)?;
    let whole = whole_with(node, tags, 0, before)?;
    Ok(new_type(alloc, whole, plain_kind(plain))?)
}

/// INTEGER with its named numbers.
#[tactic(auto, unfolding(crate::specs::inside::ReadBases::integer_type))]
pub fn integer_type(
    alloc: Global,
    node: &Node,
    trees: &[NamedTree],
    before: usize,
) -> Result<Box<Made>, TagFault>
    ensures { Gives (λ m. made_view m.value) named result
        (reading.integer_type (node_view node.now) (map written.named_view trees.now) before) }
{
    let places = named_places(alloc, trees)?;
    let whole = numbered_whole(alloc, node, 2, &places, before)?;
    let numbers = NamedList::shared(alloc, named_numbers(alloc, trees)?)?;
    Ok(new_type(alloc, whole, Kind::Int(numbers))?)
}

/// BIT STRING with its named bits.
#[tactic(auto, unfolding(crate::specs::inside::ReadBases::bits_type))]
pub fn bits_type(
    alloc: Global,
    node: &Node,
    trees: &[NamedTree],
    before: usize,
) -> Result<Box<Made>, TagFault>
    ensures { Gives (λ m. made_view m.value) named result
        (reading.bits_type (node_view node.now) (map written.named_view trees.now) before) }
{
    let places = named_places(alloc, trees)?;
    let whole = numbered_whole(alloc, node, 3, &places, before)?;
    let bits = NamedList::shared(alloc, named_bits(alloc, trees)?)?;
    Ok(new_type(alloc, whole, Kind::Bits(bits))?)
}

/// ENUMERATED with its items.
#[tactic(auto, unfolding(crate::specs::inside::ReadBases::enumerated_type))]
pub fn enumerated_type(
    alloc: Global,
    node: &Node,
    trees: &[ItemTree],
    before: usize,
) -> Result<Box<Made>, TagFault>
    ensures { Gives (λ m. made_view m.value) named result
        (reading.enumerated_type (node_view node.now) (map written.item_view trees.now) before) }
{
    let places = item_places(alloc, trees)?;
    let whole = numbered_whole(alloc, node, 10, &places, before)?;
    let numbered = NamedList::shared(alloc, items(alloc, trees)?)?;
    Ok(new_type(alloc, whole, Kind::Enumerated(numbered))?)
}

/// What a type with this universal tag has beside its named numbers, named bits or items, which are at these places.
#[tactic(auto, unfolding(crate::specs::inside::ReadBases::numbered_whole))]
fn numbered_whole(
    alloc: Global,
    node: &Node,
    tag_number: u32,
    places: &[Placed],
    before: usize,
) -> Result<Whole, TagFault>
    ensures { Gives whole_view named result
        (reading.numbered_whole (node_view node.now) tag_number (map place_view places.now) before) }
{
    let tags = tags_of(alloc, node, &[universal(tag_number)], false)?;
    check_differ(alloc, places)?;
    whole_with(node, tags, 0, before)
}

/// Named numbers, named bits and items must differ in their names and in the numbers that are written (X.680 19.5,
/// 19.6, 20.4, 20.5, 22.2, 22.3).
fn check_differ(alloc: Global, places: &[Placed]) -> Result<(), TagFault>
    ensures { Gives (λ u. u) named result (reading.differ (map place_view places.now)) }
{
    match first_repeated(alloc, places)? {
        Some(site) => Err(TagFault::DuplicateNumber(site)),
        None => Ok(()),
    }
}

/// SEQUENCE or SET with its components.
#[tactic(auto, unfolding(crate::specs::inside::ReadBases::structure_type))]
pub fn structure_type(
    alloc: Global,
    node: &Node,
    collection: Collection,
    parts: Box<Parts>,
) -> Result<Box<Made>, TagFault>
    ensures { Gives (λ m. made_view m.value) named result
        (reading.structure_type (node_view node.now) collection (parts_view parts.value)) }
{
    let tags = tags_of(
        alloc,
        node,
        &[universal(collection_number(collection))],
        false,
    )?;
    check_list(alloc, node.site, &parts)?;
    let whole = whole_with(node, tags, parts.deepest, parts.nodes)?;
    let Parts { comps, .. } = Box::into_inner(parts);
    Ok(new_type(alloc, whole, structure_kind(collection, comps))?)
}

/// CHOICE with its alternatives, which are nested one level deeper.
#[tactic(auto, unfolding(crate::specs::inside::ReadBases::choice_type))]
pub fn choice_type(alloc: Global, node: &Node, parts: Box<Parts>) -> Result<Box<Made>, TagFault>
    ensures { Gives (λ m. made_view m.value) named result
        (reading.choice_type (node_view node.now) (parts_view parts.value)) }
{
    let tags = tags_of(alloc, node, &[], true)?;
    check_list(alloc, node.site, &parts)?;
    let whole = whole_with(node, tags, parts.deepest.saturating_add(1), parts.nodes)?;
    let Parts { comps, .. } = Box::into_inner(parts);
    Ok(new_type(alloc, whole, Kind::Choice(comps))?)
}

/// SEQUENCE OF or SET OF this type.
#[tactic(auto, unfolding(crate::specs::inside::ReadBases::of_type))]
pub fn of_type(
    alloc: Global,
    node: &Node,
    collection: Collection,
    element: Box<Made>,
) -> Result<Box<Made>, TagFault>
    ensures { Gives (λ m. made_view m.value) named result
        (reading.of_type (node_view node.now) collection (made_view element.value)) }
{
    let tags = tags_of(
        alloc,
        node,
        &[universal(collection_number(collection))],
        false,
    )?;
    let whole = whole_with(node, tags, element.nesting, element.nodes)?;
    let Made { ty, .. } = Box::into_inner(element);
    let kind = of_kind(collection, Box::new(alloc, ty)?);
    Ok(new_type(alloc, whole, kind)?)
}

/// A copy of a type that a name means, with the tags that are written before the name. The type is copied once it is
/// known to keep the limits.
pub fn referred_to(
    alloc: Global,
    node: &Node,
    ty: &Ty,
    before: usize,
) -> Result<Box<Made>, TagFault>
    ensures { Gives (λ m. made_view m.value) named result
        (reading.referred_to (node_view node.now) (model.type_view ty.now) before) }
{
    let tags = tags_of(alloc, node, &ty.tags, is_untagged_choice(ty))?;
    let inside = nesting_inside(&ty.kind);
    let nodes = nodes_inside(&ty.kind, before);
    let whole = whole_with(node, tags, inside, nodes)?;
    copied(alloc, whole, ty)
}

fn copied(alloc: Global, whole: Whole, ty: &Ty) -> Result<Box<Made>, TagFault>
    ensures { Gives (λ m. made_view m.value) named result (reading.copied (whole_view whole) (model.type_view ty.now)) }
{
    let Ty { kind, cons, .. } = ty.copy(alloc)?;
    let ty = Ty {
        tags: whole.tags,
        kind,
        cons,
    };
    Ok(Box::new(
        alloc,
        Made {
            ty,
            nesting: whole.nesting,
            nodes: whole.nodes,
        },
    )?)
}

/// Whether a type is a CHOICE that has no tag.
fn is_untagged_choice(ty: &Ty) -> bool
    ensures { result ≡ tagging.is_untagged_choice (model.type_view ty.now) }
{
    ty.tags.is_empty() && matches!(ty.kind, Kind::Choice(_))
}
