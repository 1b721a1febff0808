//! What is at the front of octets, seen from a node.
ghost use Rattle.std.specs.Prelude.{◌≡◌, ◌<◌, ◌≤◌, true, length, vec_len, option_map, IfSome};
ghost use Rattle.guard_model.specs.Tags.{same_tag};
ghost use Rattle.guard_der.specs.Reading.{same_form};
ghost use Rattle.guard_tables.specs.NodesView.{spots_in};
ghost use Rattle.guard_tables.specs.Plan.{body_in, form_in, tags_in};
ghost use Rattle.guard_tables.specs.TableNodes.{body_at, spot_at};
ghost use Rattle.guard_reader.specs.Fronts.{all_inside, alone, begins, body_front, element_in, far_front, front};
ghost use Rattle.guard_reader.specs.Fronts.{front_cut, front_of, head_front, innermost, parts_front, after_one};
ghost use Rattle.guard_reader.specs.Octets.{split};
ghost use Rattle.guard_reader.specs.inside.FrontViews.{front_view};
ghost use Rattle.guard_reader.specs.inside.NodeParts.{IsChoice};

use crate::header::split_after;
use crate::high_tags::is_spelled;
use crate::layers::{has_layers, has_two_tags, is_choice, outermost, tag_round};
use guard_der::header;
use guard_model::Tag;
use guard_tables::{Kind, Nodes};

/// What is at the front of octets, as a node sees it.
#[derive(Clone, Copy)]
pub enum Front<'a> {
    /// An element of the node: what is inside its outermost tag, of a CHOICE without a tag the whole element; and the
    /// octets after the element.
    Here(&'a [u8], &'a [u8]),
    /// The end, or an element with another tag.
    Elsewhere,
    /// An element with the node's tag in the other form, or none.
    Broken,
}

/// Whether the first of the octets is this one. No octet is 256.
#[inline(always)]
pub fn begins(octet: u16, octets: &[u8]) -> bool
    ensures same { result ≡ begins octet octets.now }
    ensures small { result ≡ true → octet < 256 }
{
    match octets {
        [first, ..] => u16::from(*first) == octet,
        [] => false,
    }
}

/// What is at the front of the octets, seen from the node at this place. Condition: the node is there.
#[cycle(fronts)]
#[inline(always)]
pub fn front_at<'a>(table: &Nodes, at: usize, octets: &'a [u8]) -> Front<'a>
    requires { at < vec_len table.now.hots }
    ensures { front_view result ≡ front (spot_at (spots_in table.now) at).plan octets.now }
{
    let node = &table.hots[at];
    if begins(node.identifier, octets) {
        return cut_off(octets);
    }
    if node.identifier == 256 {
        return far_front(table, at, octets);
    }
    if begins(node.other, octets) {
        return Front::Broken;
    }
    Front::Elsewhere
}

/// What is at the front, where its one identifier octet was read and is the node's.
#[inline(always)]
pub fn cut_off(octets: &[u8]) -> Front<'_>
    ensures { front_view result ≡ front_cut (split (after_one octets.now)) }
{
    match split_after(octets) {
        Some((inside, rest)) => Front::Here(inside, rest),
        None => Front::Broken,
    }
}

/// What is at the front, seen from a node that has no identifier octet of its own.
#[cycle(fronts)]
#[cold]
#[inline(never)]
fn far_front<'a>(table: &Nodes, at: usize, octets: &'a [u8]) -> Front<'a>
    requires { at < vec_len table.now.hots }
    ensures { front_view result
        ≡ far_front (tags_in (spot_at (spots_in table.now) at).plan) (form_in (spot_at (spots_in table.now) at).plan)
        octets.now (body_front (body_at (spots_in table.now) at) octets.now) }
{
    let outside = outermost(table, at);
    match outside.tag {
        Some(tag) => head_front(&tag, outside.constructed, octets),
        None => untagged(table, at, octets),
    }
}

/// What is at the front, seen from a node with this tag, of any number, in this form.
fn head_front<'a>(tag: &Tag, constructed: bool, octets: &'a [u8]) -> Front<'a>
    ensures { front_view result ≡ head_front tag.now constructed octets.now }
{
    match after_spelled(tag, constructed, octets) {
        Some(tail) => cut_off(tail),
        None => headed_front(tag, constructed, octets),
    }
}

/// What is left after the first of two identifier octets that spell a tag in this form; None where they don't, and
/// where the tag takes one octet or more than two.
#[inline(always)]
#[tactic(auto, using(crate::proofs::HighTags::spelled_there))]
fn after_spelled<'a>(tag: &Tag, constructed: bool, octets: &'a [u8]) -> Option<&'a [u8]>
    ensures high { IfSome result (λ r. 31 ≤ tag.now.number) }
    ensures same { IfSome result (λ r. front_cut (split (after_one r.now))
        ≡ head_front tag.now constructed octets.now) }
{
    match octets {
        [first, number, ..] if is_spelled(tag, constructed, *first, *number) => Some(&octets[1..]),
        _ => None,
    }
}

/// What follows the first identifier octet of an element with the node's outermost tag; None unless that tag has two
/// octets, which stand there. Condition: the node is there.
#[inline(always)]
pub fn after_first<'a>(table: &Nodes, at: usize, octets: &'a [u8]) -> Option<&'a [u8]>
    requires { at < vec_len table.now.hots }
    ensures { IfSome result (λ r. front (spot_at (spots_in table.now) at).plan octets.now
        ≡ front_cut (split (after_one r.now))) }
{
    let outside = outermost(table, at);
    match outside.tag {
        Some(tag) => after_spelled(&tag, outside.constructed, octets),
        None => None,
    }
}

/// What is at the front for an element with this tag, by the header that is there.
#[tactic(auto, unfolding(crate::specs::Fronts::head_front))]
fn headed_front<'a>(tag: &Tag, constructed: bool, octets: &'a [u8]) -> Front<'a>
    ensures { front_view result ≡ head_front tag.now constructed octets.now }
{
    if octets.is_empty() {
        return Front::Elsewhere;
    }
    let Ok(head) = header(octets, 0) else {
        return Front::Broken;
    };
    if !are_same(tag, &head.tag) {
        return Front::Elsewhere;
    }
    if !is_in_form(head.constructed, constructed) {
        return Front::Broken;
    }
    Front::Here(&octets[head.contents..head.end], &octets[head.end..])
}

fn are_same(tag: &Tag, other: &Tag) -> bool
    ensures { result ≡ same_tag tag.now other.now }
{
    tag == other
}

fn is_in_form(constructed: bool, wanted: bool) -> bool
    ensures { result ≡ same_form constructed wanted }
{
    constructed == wanted
}

/// What is at the front, seen from a node that has no tag: for a CHOICE the element of an alternative.
#[cycle(fronts)]
fn untagged<'a>(table: &Nodes, at: usize, octets: &'a [u8]) -> Front<'a>
    requires { at < vec_len table.now.hots }
    ensures { front_view result ≡ body_front (body_at (spots_in table.now) at) octets.now }
{
    let node = &table.hots[at];
    if has_layers(node.kind) {
        return untagged(table, node.first, octets);
    }
    if is_choice(node.kind) {
        return alternatives(table, at, octets);
    }
    Front::Elsewhere
}

/// What is at the front, seen from the first alternative that has its tag.
#[cycle(fronts)]
fn alternatives<'a>(table: &Nodes, at: usize, octets: &'a [u8]) -> Front<'a>
    requires room { at < vec_len table.now.hots }
    requires kind { IsChoice table.now at }
    ensures { front_view result ≡ body_front (body_at (spots_in table.now) at) octets.now }
{
    let node = &table.hots[at];
    let first = node.first;
    for k in first..first + node.count as usize {
        match front_at(table, k, octets) {
            Front::Here(_, rest) => return Front::Here(front_of(octets, rest), rest),
            Front::Broken => return Front::Broken,
            Front::Elsewhere => {}
        }
    }
    Front::Elsewhere
}

/// What is inside the outermost tag of an element with nothing after it; None where anything else is there.
#[inline(always)]
pub fn alone(front: Front<'_>) -> Option<&[u8]>
    ensures { option_map (λ inside. inside.now) result ≡ alone (front_view front.entry) }
{
    match front {
        Front::Here(inside, []) => Some(inside),
        _ => None,
    }
}

/// What is inside the outermost tag of an element, and what follows it; None where no element of the node is there.
#[inline(always)]
pub fn element(front: Front<'_>) -> Option<(&[u8], &[u8])>
    ensures { option_map (λ p. (p.0.now, p.1.now)) result ≡ element_in (front_view front.entry) }
{
    match front {
        Front::Here(inside, rest) => Some((inside, rest)),
        Front::Elsewhere => None,
        Front::Broken => None,
    }
}

/// What is inside the last tag of a node, from what is inside its outermost one; None where a tag between isn't spelled
/// as it should be, or something follows inside it. Condition: the node is there.
#[cold]
#[inline(never)]
pub fn innermost<'a>(table: &Nodes, at: usize, octets: &'a [u8]) -> Option<&'a [u8]>
    requires { at < vec_len table.now.hots }
    ensures { option_map (λ inside. inside.now) result
        ≡ innermost (tags_in (spot_at (spots_in table.now) at).plan) (form_in (spot_at (spots_in table.now) at).plan)
        octets.now }
{
    let node = &table.hots[at];
    if !has_layers(node.kind) {
        return Some(octets);
    }
    let first = node.first;
    let round = tag_round(node.kind, table.colds[at].tag);
    if has_two_tags(round, outermost(table, first)) {
        return match alone(front_at(table, first, octets)) {
            Some(inside) => innermost(table, first, inside),
            None => None,
        };
    }
    innermost(table, first, octets)
}

/// The octets without those at their end, which are as many as are left. Condition: not more are left than there are.
pub fn front_of<'a>(octets: &'a [u8], rest: &[u8]) -> &'a [u8]
    requires { length rest.now ≤ length octets.now }
    ensures { result.now ≡ front_of octets.now rest.now }
{
    &octets[..octets.len() - rest.len()]
}
