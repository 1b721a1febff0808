//! The walk over the octets of a message by the nodes of a table.
ghost use Rattle.std.specs.Prelude.{◌≡◌, ◌<◌, vec_len, option_map};
ghost use Rattle.guard_tables.specs.declared.slots.Slots.{Slots};
ghost use Rattle.guard_tables.specs.NodesView.{spots_in, root_of};
ghost use Rattle.guard_tables.specs.Slots.{none};
ghost use Rattle.guard_tables.specs.TableNodes.{body_at};
ghost use Rattle.guard_reader.specs.Judging.{contents_judged, message_judged};
ghost use Rattle.guard_reader.specs.inside.Answers.{Answers};
ghost use Rattle.guard_reader.specs.inside.NodeParts.{IsAsked, IsAt, IsFormula, pass_at};

mod choices;
mod lists;
pub mod series;
mod sets;

use crate::conditions::add_implied;
use crate::element_fronts::{alone, begins, cut_off, front_at, innermost};
use crate::layers::has_layers;
use crate::simple::simple;
use crate::whole::{mark_whole, size_of};
use choices::choice;
use guard_tables::{Hot, Kind, Nodes, Slots};
use lists::{items, set_of};
use series::{fields, series};
use sets::set;

/// If the octets are the encoding of a value, the slots of all that is asked of it and that it doesn't pass. None where
/// the octets are the encoding of no value.
#[inline(always)]
pub fn failures(table: &Nodes, octets: &[u8]) -> Option<Slots>
    ensures { result ≡ message_judged (root_of table.now) octets.now }
{
    let mut failed = Slots::none();
    if decide(table, octets, &mut failed) {
        return Some(failed);
    }
    None
}

/// Whether the octets are the encoding of a value; if so, `failed` has the slots of what that value doesn't pass.
#[inline(always)]
fn decide(table: &Nodes, octets: &[u8], failed: &mut Slots) -> bool
    requires { failed.old ≡ none }
    ensures { Answers result failed.new (message_judged (root_of table.now) octets.now) }
{
    let top = &table.hots[table.hots.len() - 1];
    match top.kind {
        Kind::Series if begins(top.identifier, octets) => match alone(cut_off(octets)) {
            Some(inside) => fields(table, top.first, top.count as usize, inside, failed),
            None => false,
        },
        _ => decide_by_front(table, octets, failed),
    }
}

/// What `decide` answers for a message of any kind, by what is at the front.
#[inline(never)]
#[tactic(auto, unfolding(crate::specs::Judging::message_judged))]
fn decide_by_front(table: &Nodes, octets: &[u8], failed: &mut Slots) -> bool
    requires { failed.old ≡ none }
    ensures { Answers result failed.new (message_judged (root_of table.now) octets.now) }
{
    let top = table.hots.len() - 1;
    match alone(front_at(table, top, octets)) {
        Some(inside) => within_tag(table, top, inside, failed),
        None => false,
    }
}

/// Whether what is inside the outermost tag of a node, without a tag the whole element, is lawful there; the slots of
/// what fails are added to those that fail.
#[cycle(walking)]
#[inline(always)]
fn within_tag(table: &Nodes, at: usize, inside: &[u8], failed: &mut Slots) -> bool
    requires { at < vec_len table.now.hots }
    ensures { Answers result failed.new (pass_at (spots_in table.now) at inside.now failed.old) }
{
    within_node(table, at, &table.hots[at], inside, failed)
}

/// What `within_tag` answers for a node that was looked up.
#[cycle(walking)]
#[inline(always)]
fn within_node(table: &Nodes, at: usize, node: &Hot, inside: &[u8], failed: &mut Slots) -> bool
    requires room { at < vec_len table.now.hots }
    requires node { IsAt table.now at node.now }
    ensures { Answers result failed.new (pass_at (spots_in table.now) at inside.now failed.old) }
{
    if has_layers(node.kind) {
        return layered(table, at, inside, failed);
    }
    node_contents(table, at, node, inside, failed)
}

/// What `within_tag` answers for a node that has another one inside.
#[cycle(walking)]
#[cold]
#[inline(never)]
fn layered(table: &Nodes, at: usize, inside: &[u8], failed: &mut Slots) -> bool
    requires { at < vec_len table.now.hots }
    ensures { Answers result failed.new (pass_at (spots_in table.now) at inside.now failed.old) }
{
    match innermost(table, at, inside) {
        Some(octets) => contents(table, at, octets, failed),
        None => false,
    }
}

/// Whether contents octets are lawful for a node; the slots of what fails are added to those that fail.
#[cycle(walking)]
#[inline(always)]
fn contents(table: &Nodes, at: usize, inside: &[u8], failed: &mut Slots) -> bool
    requires { at < vec_len table.now.hots }
    ensures { Answers result failed.new (contents_judged (body_at (spots_in table.now) at) inside.now failed.old) }
{
    node_contents(table, at, &table.hots[at], inside, failed)
}

/// What `contents` answers for a node that was looked up.
#[cycle(walking)]
#[inline(always)]
fn node_contents(table: &Nodes, at: usize, node: &Hot, inside: &[u8], failed: &mut Slots) -> bool
    requires room { at < vec_len table.now.hots }
    requires node { IsAt table.now at node.now }
    ensures { Answers result failed.new (contents_judged (body_at (spots_in table.now) at) inside.now failed.old) }
{
    match node.kind {
        Kind::List => items(table, node.first, inside, failed),
        Kind::Series => series(table, node.first, node.count as usize, inside, failed),
        Kind::Simple(kind) => simple(&table.colds[at], kind, inside, failed),
        Kind::Asked => asked(table, at, inside, failed),
        Kind::Formula => formula(table, at, inside, failed),
        Kind::SetOf => set_of(table, node.first, inside, failed),
        Kind::Choice => choice(table, at, inside, failed),
        Kind::Set => set(table, at, inside, failed),
        // What is inside the last tag has the same contents.
        Kind::Wrapper => inner_contents(table, node.first, inside, failed),
    }
}

/// What `contents` answers for the node that is inside another one. That call of `contents` stands here alone, so that
/// each other one can be compiled into its caller.
#[cycle(walking)]
#[cold]
#[inline(never)]
fn inner_contents(table: &Nodes, at: usize, inside: &[u8], failed: &mut Slots) -> bool
    requires { at < vec_len table.now.hots }
    ensures { Answers result failed.new (contents_judged (body_at (spots_in table.now) at) inside.now failed.old) }
{
    contents(table, at, inside, failed)
}

/// What `contents` answers for a node with conditions on the whole value of its inner node, which has parts.
#[cycle(walking)]
#[cold]
#[inline(never)]
fn asked(table: &Nodes, at: usize, inside: &[u8], failed: &mut Slots) -> bool
    requires room { at < vec_len table.now.hots }
    requires kind { IsAsked table.now at }
    ensures { Answers result failed.new (contents_judged (body_at (spots_in table.now) at) inside.now failed.old) }
{
    let node = &table.hots[at];
    if !contents(table, node.first, inside, failed) {
        return false;
    }
    let size = size_of(table, node.first, inside);
    mark_whole(&table.colds[at].conditions.list, size, inside, failed);
    true
}

/// What `contents` answers for a node with formulas over what its inner node asks.
#[cycle(walking)]
#[cold]
#[inline(never)]
fn formula(table: &Nodes, at: usize, inside: &[u8], failed: &mut Slots) -> bool
    requires room { at < vec_len table.now.hots }
    requires kind { IsFormula table.now at }
    ensures { Answers result failed.new (contents_judged (body_at (spots_in table.now) at) inside.now failed.old) }
{
    let node = &table.hots[at];
    let mut inner = Slots::none();
    if !contents(table, node.first, inside, &mut inner) {
        return false;
    }
    let cold = &table.colds[at];
    add_implied(&cold.implications, &inner, failed);
    true
}
