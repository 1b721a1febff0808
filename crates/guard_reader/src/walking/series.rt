//! Components of a SEQUENCE, and of a SET in which they ascend by their tags; and what is said of components.
ghost use Rattle.std.specs.Prelude.{◌≡◌, ◌+◌, ◌<◌, ◌≤◌, List, ℕ, true, false, get_or, nat_eq, vec_len, option_map};
ghost use Rattle.guard_tables.specs.declared.node.Cold.{Cold};
ghost use Rattle.guard_tables.specs.NodesView.{spots_in};
ghost use Rattle.guard_tables.specs.Slots.{added};
ghost use Rattle.guard_tables.specs.TableNodes.{parts_between, spot_at};
ghost use Rattle.guard_reader.specs.Fronts.{after_one, begins, front_cut};
ghost use Rattle.guard_reader.specs.Octets.{split};
ghost use Rattle.guard_reader.specs.Judging.{fields_judged, present_part, absent_part, part_at, watched};
ghost use Rattle.guard_reader.specs.inside.Answers.{Answers};
ghost use Rattle.guard_reader.specs.inside.NodeParts.{IsAt, pass_at, sight_at};

use crate::conditions::is_default;
use crate::element_fronts::{Front, after_first, begins, front_at};
use crate::header::split_after;
use crate::plain::{begins_plainly, is_plain};
use crate::walking::within_node;
use guard_tables::{Hot, Need, Nodes, Slots};

/// Whether all the octets are so many components from the first node on, one after the other; the slots of what they
/// don't pass are added to those that fail. Condition: these nodes are there.
#[cycle(walking)]
#[inline(never)]
pub fn series(table: &Nodes, first: usize, count: usize, inside: &[u8], failed: &mut Slots) -> bool
    requires { first + count ≤ vec_len table.now.hots }
    ensures { Answers result failed.new
        (fields_judged (parts_between (spots_in table.now) first count) inside.now failed.old) }
{
    fields(table, first, count, inside, failed)
}

/// What `series` answers, by the same conditions: compiled into its caller.
#[cycle(walking)]
#[inline(always)]
pub fn fields(table: &Nodes, first: usize, count: usize, inside: &[u8], failed: &mut Slots) -> bool
    requires { first + count ≤ vec_len table.now.hots }
    ensures { Answers result failed.new
        (fields_judged (parts_between (spots_in table.now) first count) inside.now failed.old) }
{
    let hots = table.hots.as_slice();
    let mut rest = inside;
    for k in first..first + count {
        let node = &hots[k];
        if begins(node.identifier, rest) {
            let Some(next) = begun_part(table, k, node, rest, failed) else {
                return false;
            };
            rest = next;
            continue;
        }
        if node.identifier == 256 {
            // A loop of its own has what this one would have to make room for at each component.
            return far_fields(table, k, first + count - k, rest, failed);
        }
        let Some(next) = other_part(table, k, node, rest, failed) else {
            return false;
        };
        rest = next;
    }
    rest.is_empty()
}

/// What `series` answers, where the first component has no identifier octet of its own.
#[cycle(walking)]
#[inline(never)]
fn far_fields(table: &Nodes, first: usize, count: usize, inside: &[u8], failed: &mut Slots) -> bool
    requires { first + count ≤ vec_len table.now.hots }
    ensures { Answers result failed.new
        (fields_judged (parts_between (spots_in table.now) first count) inside.now failed.old) }
{
    let mut rest = inside;
    for k in first..first + count {
        let Some(next) = part(table, k, rest, failed) else {
            return false;
        };
        rest = next;
    }
    rest.is_empty()
}

/// What is left after a component that may come next; None where it isn't lawful, or isn't there and has to be.
#[cycle(walking)]
#[inline(always)]
fn part<'a>(table: &Nodes, at: usize, octets: &'a [u8], failed: &mut Slots) -> Option<&'a [u8]>
    requires { at < vec_len table.now.hots }
    ensures { option_map (λ r. (failed.new, r.now)) result
        ≡ part_at (spot_at (spots_in table.now) at).side (sight_at (spots_in table.now) at octets.now)
        (pass_at (spots_in table.now) at) octets.now failed.old }
{
    let node = &table.hots[at];
    if node.identifier == 256 {
        return far_part(table, at, octets, failed);
    }
    near_part(table, at, node, octets, failed)
}

/// What `part` answers for a component with an identifier octet of its own.
#[cycle(walking)]
#[inline(always)]
fn near_part<'a>(
    table: &Nodes,
    at: usize,
    node: &Hot,
    octets: &'a [u8],
    failed: &mut Slots,
) -> Option<&'a [u8]>
    requires room { at < vec_len table.now.hots }
    requires node { IsAt table.now at node.now }
    requires near { nat_eq node.now.identifier 256 ≡ false }
    ensures { option_map (λ r. (failed.new, r.now)) result
        ≡ part_at (spot_at (spots_in table.now) at).side (sight_at (spots_in table.now) at octets.now)
        (pass_at (spots_in table.now) at) octets.now failed.old }
{
    if begins(node.identifier, octets) {
        return begun_part(table, at, node, octets, failed);
    }
    other_part(table, at, node, octets, failed)
}

/// What `part` answers before octets that don't begin with the component's identifier octet.
#[inline(always)]
fn other_part<'a>(
    table: &Nodes,
    at: usize,
    node: &Hot,
    octets: &'a [u8],
    failed: &mut Slots,
) -> Option<&'a [u8]>
    requires room { at < vec_len table.now.hots }
    requires node { IsAt table.now at node.now }
    requires near { nat_eq node.now.identifier 256 ≡ false }
    requires away { begins node.now.identifier octets.now ≡ false }
    ensures { option_map (λ r. (failed.new, r.now)) result
        ≡ part_at (spot_at (spots_in table.now) at).side (sight_at (spots_in table.now) at octets.now)
        (pass_at (spots_in table.now) at) octets.now failed.old }
{
    if begins(node.other, octets) {
        return None;
    }
    if !absent_node(table, at, node, failed) {
        return None;
    }
    Some(octets)
}

/// What `part` answers where the octets begin with the component's identifier octet.
#[cycle(walking)]
#[inline(always)]
fn begun_part<'a>(
    table: &Nodes,
    at: usize,
    node: &Hot,
    octets: &'a [u8],
    failed: &mut Slots,
) -> Option<&'a [u8]>
    requires room { at < vec_len table.now.hots }
    requires node { IsAt table.now at node.now }
    requires octet { node.now.identifier < 256 }
    requires begun { begins node.now.identifier octets.now ≡ true }
    ensures { option_map (λ r. (failed.new, r.now)) result
        ≡ part_at (spot_at (spots_in table.now) at).side (sight_at (spots_in table.now) at octets.now)
        (pass_at (spots_in table.now) at) octets.now failed.old }
{
    if begins_plainly(node, octets) {
        return Some(&octets[3..]);
    }
    cut_part(table, at, node, octets, failed)
}

/// What `part` answers for a component of which one identifier octet is left to read.
#[cycle(walking)]
#[inline(always)]
fn cut_part<'a>(
    table: &Nodes,
    at: usize,
    node: &Hot,
    octets: &'a [u8],
    failed: &mut Slots,
) -> Option<&'a [u8]>
    requires room { at < vec_len table.now.hots }
    requires node { IsAt table.now at node.now }
    ensures { (os : List ℕ) → option_map (λ r. (failed.new, r.now)) result
        ≡ part_at (spot_at (spots_in table.now) at).side (front_cut (split (after_one octets.now)))
        (pass_at (spots_in table.now) at) os failed.old }
{
    match split_after(octets) {
        Some((inside, rest)) => {
            if !present_node(table, at, node, inside, failed) {
                return None;
            }
            Some(rest)
        }
        None => None,
    }
}

/// What `part` answers for a component without an identifier octet of its own.
#[cycle(walking)]
#[inline(always)]
fn far_part<'a>(table: &Nodes, at: usize, octets: &'a [u8], failed: &mut Slots) -> Option<&'a [u8]>
    requires { at < vec_len table.now.hots }
    ensures { option_map (λ r. (failed.new, r.now)) result
        ≡ part_at (spot_at (spots_in table.now) at).side (sight_at (spots_in table.now) at octets.now)
        (pass_at (spots_in table.now) at) octets.now failed.old }
{
    if let Some(tail) = after_first(table, at, octets) {
        return cut_part(table, at, &table.hots[at], tail, failed);
    }
    seen_part(table, at, octets, failed)
}

/// What `part` answers for a component without an identifier octet of its own, by what is at the front.
#[cycle(walking)]
#[cold]
#[inline(never)]
fn seen_part<'a>(table: &Nodes, at: usize, octets: &'a [u8], failed: &mut Slots) -> Option<&'a [u8]>
    requires { at < vec_len table.now.hots }
    ensures { option_map (λ r. (failed.new, r.now)) result
        ≡ part_at (spot_at (spots_in table.now) at).side (sight_at (spots_in table.now) at octets.now)
        (pass_at (spots_in table.now) at) octets.now failed.old }
{
    match front_at(table, at, octets) {
        Front::Here(inside, rest) => {
            if !present(table, at, inside, failed) {
                return None;
            }
            Some(rest)
        }
        Front::Elsewhere => {
            if !absent(table, at, failed) {
                return None;
            }
            Some(octets)
        }
        Front::Broken => None,
    }
}

/// Whether what is inside the outermost tag of a component is lawful there and no default; the slots of what fails are
/// added to those that fail. Condition: the component's node is there.
#[cycle(walking)]
#[inline(always)]
pub fn present(table: &Nodes, at: usize, inside: &[u8], failed: &mut Slots) -> bool
    requires { at < vec_len table.now.hots }
    ensures { Answers result failed.new
        (present_part (spot_at (spots_in table.now) at).side (pass_at (spots_in table.now) at) inside.now failed.old) }
{
    present_node(table, at, &table.hots[at], inside, failed)
}

/// What `present` answers where the component's node was looked up.
#[cycle(walking)]
#[inline(always)]
fn present_node(table: &Nodes, at: usize, node: &Hot, inside: &[u8], failed: &mut Slots) -> bool
    requires room { at < vec_len table.now.hots }
    requires node { IsAt table.now at node.now }
    ensures { Answers result failed.new
        (present_part (spot_at (spots_in table.now) at).side (pass_at (spots_in table.now) at) inside.now failed.old) }
{
    if is_plain(node, inside) {
        return true;
    }
    check(table, at, node, inside, failed) && within_node(table, at, node, inside, failed)
}

/// Whether the octets inside the outermost tag aren't those of the default; the slots of the component's presence are
/// added to those that fail.
#[inline(always)]
fn check(table: &Nodes, at: usize, node: &Hot, inside: &[u8], failed: &mut Slots) -> bool
    requires room { at < vec_len table.now.hots }
    requires node { IsAt table.now at node.now }
    ensures { Answers result failed.new (watched (spot_at (spots_in table.now) at).side inside.now failed.old) }
{
    if !node.watched {
        return true;
    }
    watch(table, at, inside, failed)
}

/// What `check` answers for a node whose presence counts.
#[cold]
#[inline(never)]
fn watch(table: &Nodes, at: usize, inside: &[u8], failed: &mut Slots) -> bool
    requires { at < vec_len table.now.hots }
    ensures { Answers result failed.new (watched (spot_at (spots_in table.now) at).side inside.now failed.old) }
{
    let cold = &table.colds[at];
    if is_default(&cold.default, inside) {
        return false;
    }
    failed.add(&cold.present);
    true
}

/// Whether a component may be absent; the slots of its absence are added to those that fail. Condition: the component's
/// node is there.
#[inline(always)]
pub fn absent(table: &Nodes, at: usize, failed: &mut Slots) -> bool
    requires { at < vec_len table.now.hots }
    ensures { Answers result failed.new
        (absent_part (spot_at (spots_in table.now) at).side.absent failed.old) }
{
    absent_node(table, at, &table.hots[at], failed)
}

/// What `absent` answers where the component's node was looked up.
#[inline(always)]
fn absent_node(table: &Nodes, at: usize, node: &Hot, failed: &mut Slots) -> bool
    requires room { at < vec_len table.now.hots }
    requires node { IsAt table.now at node.now }
    ensures { Answers result failed.new
        (absent_part (spot_at (spots_in table.now) at).side.absent failed.old) }
{
    match node.need {
        Need::Free => true,
        Need::Mandatory => false,
        Need::Costs => {
            cost(table, at, failed);
            true
        }
    }
}

/// Adds the slots of a component's absence to those that fail. The node is looked up here, so that the loop over
/// components keeps no place of it.
#[cold]
#[inline(never)]
fn cost(table: &Nodes, at: usize, failed: &mut Slots)
    requires { at < vec_len table.now.hots }
    ensures { (cold : Cold) × (cold ≡ get_or table.now.colds.items at cold)
        × (failed.new ≡ added failed.old cold.absent) }
{
    let cold = &table.colds[at];
    failed.add(&cold.absent);
}
