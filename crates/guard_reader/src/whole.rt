//! What is asked of a value that has parts as a whole: its size, and that it is one single value.
ghost use Rattle.std.specs.Prelude.{◌≡◌, ◌<◌, pos, map, vec_len};
ghost use Rattle.guard_integers.specs.Integers.{holds};
ghost use Rattle.guard_tables.specs.Marking.{some_passes, test_passes, conditions_marked};
ghost use Rattle.guard_tables.specs.NodesView.{spots_in};
ghost use Rattle.guard_tables.specs.NodeViews.{condition_view, test_view};
ghost use Rattle.guard_tables.specs.TableNodes.{body_at};
ghost use Rattle.guard_reader.specs.Judging.{element_count, size_in, whole_facts};
ghost use Rattle.guard_reader.specs.inside.NodeParts.{sight_at};

use crate::conditions::are_same;
use crate::element_fronts::{element, front_at};
use guard_integers::IntSet;
use guard_tables::{Condition, Kind, Nodes, Slots, Test};

/// The number of elements of a SEQUENCE OF or SET OF, whose octets are meant to be lawful; None of another kind.
/// Condition: the node is there.
pub fn size_of(table: &Nodes, at: usize, inside: &[u8]) -> Option<usize>
    requires { at < vec_len table.now.hots }
    ensures { result ≡ size_in (body_at (spots_in table.now) at) inside.now }
{
    let node = &table.hots[at];
    match node.kind {
        Kind::Simple(_) => None,
        Kind::Series => None,
        Kind::Set => None,
        Kind::Choice => None,
        Kind::List => Some(count(table, node.first, inside)),
        Kind::SetOf => Some(count(table, node.first, inside)),
        Kind::Wrapper => size_of(table, node.first, inside),
        Kind::Asked => size_of(table, node.first, inside),
        Kind::Formula => size_of(table, node.first, inside),
    }
}

/// How many elements of this node the octets have, one after the other.
fn count(table: &Nodes, at: usize, octets: &[u8]) -> usize
    requires { at < vec_len table.now.hots }
    ensures { result ≡ element_count (sight_at (spots_in table.now) at) octets.now }
{
    let mut count = 0;
    let mut rest = octets;
    while !rest.is_empty() {
        let Some((_, next)) = element(front_at(table, at, rest)) else {
            return count;
        };
        count += 1;
        rest = next;
    }
    count
}

/// Adds the slots of each condition that the whole value doesn't pass, by its size and its contents octets.
pub fn mark_whole(conditions: &[Condition], size: Option<usize>, inside: &[u8], failed: &mut Slots)
    ensures { failed.new ≡ conditions_marked (map condition_view conditions.now)
        (whole_facts size inside.now) failed.old }
{
    for condition in conditions {
        if !passes(&condition.test, size, inside) {
            failed.add(&condition.slots);
        }
    }
}

fn passes(test: &Test, size: Option<usize>, inside: &[u8]) -> bool
    ensures { result ≡ test_passes (test_view test.now) (whole_facts size inside.now) }
{
    match test {
        Test::Numbers(_) => false,
        Test::Sizes(set) => has_size(set, size),
        Test::Stored(octets) => are_same(octets, inside),
        Test::Spelled(_) => true,
    }
}

/// Whether there is a size, and it is one of the set.
fn has_size(set: &IntSet, size: Option<usize>) -> bool
    ensures { result ≡ some_passes (λ n. holds set.now (pos n)) size }
{
    match size {
        Some(size) => set.has(size as i128),
        None => false,
    }
}
