//! Elements of a SEQUENCE OF and SET OF.
ghost use Rattle.std.specs.Prelude.{◌<◌, [], vec_len};
ghost use Rattle.guard_tables.specs.NodesView.{spots_in};
ghost use Rattle.guard_reader.specs.Judging.{elements, ordered};
ghost use Rattle.guard_reader.specs.inside.Answers.{Answers};
ghost use Rattle.guard_reader.specs.inside.NodeParts.{pass_at, sight_at};

use crate::element_fronts::{element, front_at, front_of};
use crate::order::descends;
use crate::plain::{after_one_plain, after_plain, is_plain};
use crate::walking::within_tag;
use guard_tables::{Kind, Nodes, Slots};

/// Whether all the octets are elements of the node; the slots of what they don't pass are added to those that fail. One
/// plain number needs no call. Condition: the node is there.
#[cycle(walking)]
#[inline(always)]
pub fn items(table: &Nodes, first: usize, octets: &[u8], failed: &mut Slots) -> bool
    requires { first < vec_len table.now.hots }
    ensures { Answers result failed.new
        (elements (sight_at (spots_in table.now) first) (pass_at (spots_in table.now) first) octets.now failed.old) }
{
    let rest = after_one_plain(table, first, octets);
    if rest.is_empty() {
        return true;
    }
    list(table, first, rest, failed)
}

/// Whether all the octets are elements of the node; the slots of what they don't pass are added to those that fail.
#[cycle(walking)]
#[inline(never)]
fn list(table: &Nodes, first: usize, octets: &[u8], failed: &mut Slots) -> bool
    requires { first < vec_len table.now.hots }
    ensures { Answers result failed.new
        (elements (sight_at (spots_in table.now) first) (pass_at (spots_in table.now) first) octets.now failed.old) }
{
    let mut at = first;
    let mut rest = after_plain(table, at, octets);
    while !rest.is_empty() {
        let item = &table.hots[at];
        let Some((content, next)) = element(front_at(table, at, rest)) else {
            return false;
        };
        let is_last = next.is_empty();
        match item.kind {
            Kind::List if is_last => {
                at = item.first;
                rest = after_plain(table, at, content);
            }
            _ => {
                if !within_tag(table, at, content, failed) {
                    return false;
                }
                rest = after_plain(table, at, next);
            }
        }
    }
    true
}

/// Whether all the octets are elements of a SET OF, none of which descends to the next (X.690 11.6); the slots of what
/// they don't pass are added to those that fail. Condition: the elements' node is there.
#[cycle(walking)]
#[inline(never)]
pub fn set_of(table: &Nodes, first: usize, octets: &[u8], failed: &mut Slots) -> bool
    requires { first < vec_len table.now.hots }
    ensures { Answers result failed.new
        (ordered (sight_at (spots_in table.now) first) (pass_at (spots_in table.now) first) [] octets.now failed.old) }
{
    let mut before = &octets[..0];
    let mut rest = octets;
    while !rest.is_empty() {
        let Some((content, next)) = element(front_at(table, first, rest)) else {
            return false;
        };
        if !item(table, first, content, failed) {
            return false;
        }
        let element = front_of(rest, next);
        if descends(before, element) {
            return false;
        }
        before = element;
        rest = next;
    }
    true
}

/// What `within_tag` answers for one element. A plain number needs no call.
#[cycle(walking)]
#[inline(always)]
fn item(table: &Nodes, at: usize, inside: &[u8], failed: &mut Slots) -> bool
    requires { at < vec_len table.now.hots }
    ensures { Answers result failed.new (pass_at (spots_in table.now) at inside.now failed.old) }
{
    if is_plain(&table.hots[at], inside) {
        return true;
    }
    within_tag(table, at, inside, failed)
}
