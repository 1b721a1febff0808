//! Nodes before they are with the others, and what is said of them as components.
ghost use Rattle.std.specs.Prelude.{◌≡◌, ◌+◌, ◌≤◌, ℕ, List, None, Some, true, false, map};
ghost use Rattle.std.specs.Option.{is_none};
ghost use Rattle.guard_model.specs.Limits.{most_components};
ghost use Rattle.guard_tables.specs.NodeViews as views;
ghost use Rattle.guard_tables.specs.NodeViews.{condition_view};
ghost use Rattle.guard_tables.specs.Plan as plans;
ghost use Rattle.guard_tables.specs.Slots.{none};
ghost use Rattle.guard_tables.specs.TableNodes.{Spot, spot_of, own_tags, parts_between, ascend, IsNode};
ghost use Rattle.guard_tables.specs.inside.Bare.{bare_hot, plain_hot, IsBare, kind_of_group};
ghost use Rattle.guard_tables.specs.inside.Bare.{kind_of_elements, slots_of};
ghost use Rattle.guard_tables.specs.inside.Assembled.{body_of_group, is_exclusive};
ghost use Rattle.guard_tables.specs.inside.SideViews.{part_side_view};

use crate::conditions_list::Conditions;
use crate::identifiers::{Identifiers, identifiers_of};
use crate::items::Items;
use crate::node::{Cold, Hot, Kind, Need, SimpleKind};
use crate::plain_interval::{Interval, plain_interval};
use crate::sides::PartSide;
use crate::slots::Slots;
use guard_model::Tag;
use std::alloc::Global;

/// A node that isn't with the others yet.
#[derive(Drop)]
pub(crate) struct Node {
    pub hot: Hot,
    pub cold: Cold,
}

/// The kinds that have parts of different types.
#[derive(Clone, Copy)]
pub(crate) enum Group {
    Series,
    Set,
    Choice,
}

/// The kinds whose values are lists.
#[derive(Clone, Copy)]
pub(crate) enum Elements {
    List,
    SetOf,
}

impl Group {
    pub(crate) fn kind(self) -> Kind
        ensures { result ≡ kind_of_group self }
    {
        match self {
            Group::Series => Kind::Series,
            Group::Set => Kind::Set,
            Group::Choice => Kind::Choice,
        }
    }

    /// Whether only one of the parts is there, as of a CHOICE.
    pub(crate) fn is_exclusive(self) -> bool
        ensures { result ≡ is_exclusive self }
    {
        match self {
            Group::Series => false,
            Group::Set => false,
            Group::Choice => true,
        }
    }
}

impl Elements {
    pub(crate) fn kind(self) -> Kind
        ensures { result ≡ kind_of_elements self }
    {
        match self {
            Elements::List => Kind::List,
            Elements::SetOf => Kind::SetOf,
        }
    }
}

/// A node of which nothing is said yet. No number is plain there.
pub(crate) fn bare(
    alloc: Global,
    kind: Kind,
    identifiers: Identifiers,
    asked: bool,
    first: usize,
    count: u32,
) -> Node
    ensures hot { result.hot ≡ bare_hot kind identifiers asked first count }
    ensures cold { IsBare result.cold }
{
    Node {
        hot: Hot {
            identifier: identifiers.own,
            other: identifiers.other,
            kind,
            need: Need::Mandatory,
            watched: false,
            asked,
            ascending: false,
            low: 1,
            high: 0,
            first,
            count,
        },
        cold: Cold {
            tag: None,
            items: Items::none(),
            conditions: Conditions::none(alloc),
            absent: Slots::none(),
            present: Slots::none(),
            default: None,
            implications: Vec::new(alloc),
        },
    }
}

/// A node of a kind whose contents octets spell the value alone.
pub(crate) fn simple_node(
    alloc: Global,
    kind: SimpleKind,
    items: Items,
    conditions: Conditions,
    tag: Option<Tag>,
) -> Node
    ensures node { (spots : List Spot) (k : ℕ) → IsNode result.hot result.cold spots k }
    ensures plan { (spots : List Spot) → (spot_of result.hot result.cold spots).plan
        ≡ plans.plan (own_tags tag) false
        (plans.simple (views.kind_view kind items) (map condition_view conditions.list.items)) }
{
    with_plain(asking_node(alloc, kind, items, conditions, tag))
}

/// The node before it is said which numbers are plain there.
fn asking_node(
    alloc: Global,
    kind: SimpleKind,
    items: Items,
    conditions: Conditions,
    tag: Option<Tag>,
) -> Node
    ensures node { (spots : List Spot) (k : ℕ) → IsNode result.hot result.cold spots k }
    ensures plan { (spots : List Spot) → (spot_of result.hot result.cold spots).plan
        ≡ plans.plan (own_tags tag) false
        (plans.simple (views.kind_view kind items) (map condition_view conditions.list.items)) }
{
    let asked = !conditions.list.is_empty();
    let mut node = bare(
        alloc,
        Kind::Simple(kind),
        identifiers_of(tag, false),
        asked,
        0,
        0,
    );
    node.cold.tag = tag;
    node.cold.items = items;
    node.cold.conditions = conditions;
    node
}

/// The node with the numbers that are plain there.
fn with_plain(node: Node) -> Node
    ensures node { (spots : List Spot) (k : ℕ) → IsNode node.hot node.cold spots k →
        IsNode result.hot result.cold spots k }
    ensures spot { (spots : List Spot) → spot_of result.hot result.cold spots ≡ spot_of node.hot node.cold spots }
{
    let plain = plain_interval(&node.hot, &node.cold);
    Node {
        hot: with_interval(node.hot, plain),
        cold: node.cold,
    }
}

/// A node whose parts are so many nodes from the first on, and whether they ascend.
pub(crate) fn group_node(
    alloc: Global,
    group: Group,
    tag: Option<Tag>,
    first: usize,
    count: u32,
    ascending: bool,
) -> Node
    ensures node { (spots : List Spot) (k : ℕ) → first + count ≤ k → count ≤ most_components
        → (ascending ≡ true → ascend None (parts_between spots first count) ≡ true) →
        IsNode result.hot result.cold spots k }
    ensures plan { (spots : List Spot) → (spot_of result.hot result.cold spots).plan
        ≡ plans.plan (own_tags tag) true (body_of_group group (parts_between spots first count)) }
{
    let mut node = bare(
        alloc,
        group.kind(),
        identifiers_of(tag, true),
        false,
        first,
        count,
    );
    node.cold.tag = tag;
    node.hot.ascending = ascending;
    node
}

/// The node as a component of which this is said.
pub(crate) fn with_side(node: Node, side: PartSide) -> Node
    ensures node { (spots : List Spot) (k : ℕ) → IsNode node.hot node.cold spots k →
        IsNode result.hot result.cold spots k }
    ensures spot { (spots : List Spot) → spot_of result.hot result.cold spots
        ≡ record { side = part_side_view side; plan = (spot_of node.hot node.cold spots).plan } }
{
    let mut node = node;
    node.hot.need = need_of(&side.absent);
    node.hot.watched = is_watched(&side);
    node.cold.absent = slots_of(&side.absent);
    node.cold.present = side.present;
    node.cold.default = side.default;
    node.hot = with_interval(node.hot, plain_interval(&node.hot, &node.cold));
    node
}

/// What the absence of a component means, by the slots that fail then; without slots the component has to be there.
fn need_of(absent: &Option<Slots>) -> Need
    ensures { views.absence_of result (slots_of absent.now) ≡ absent.now }
{
    match absent {
        None => Need::Mandatory,
        Some(slots) if *slots == Slots::none() => Need::Free,
        Some(_) => Need::Costs,
    }
}

/// The slots, or the empty set where none are given.
fn slots_of(slots: &Option<Slots>) -> Slots
    ensures { result ≡ slots_of slots.now }
{
    match slots {
        None => Slots::none(),
        Some(slots) => *slots,
    }
}

/// Whether presence counts: there is a default, or something fails then.
fn is_watched(side: &PartSide) -> bool
    ensures { result ≡ false → (is_none side.now.default ≡ true) × (side.now.present ≡ none) }
{
    side.default.is_some() || side.present != Slots::none()
}

/// The node, at which these numbers are plain.
fn with_interval(hot: Hot, plain: Interval) -> Hot
    ensures { result ≡ plain_hot hot plain.low plain.high }
{
    Hot {
        low: plain.low,
        high: plain.high,
        ..hot
    }
}
