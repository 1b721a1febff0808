//! Elements of a CHOICE.
ghost use Rattle.std.specs.Prelude.{◌≡◌, ◌<◌, vec_len, None};
ghost use Rattle.guard_tables.specs.NodesView.{spots_in};
ghost use Rattle.guard_tables.specs.Slots.{added};
ghost use Rattle.guard_tables.specs.TableNodes.{body_at, spot_at};
ghost use Rattle.guard_reader.specs.Fronts.{here};
ghost use Rattle.guard_reader.specs.Judging.{chosen_at, contents_judged};
ghost use Rattle.guard_reader.specs.inside.Answers.{Answers};
ghost use Rattle.guard_reader.specs.inside.NodeParts.{IsChoice, pass_at};

use crate::element_fronts::{Front, front_at};
use crate::plain::is_plain;
use crate::walking::within_tag;
use guard_tables::{Nodes, Slots};

/// Whether the octets are an element of the first alternative that has its tag, and nothing after it; the slots of what
/// its value doesn't pass are added to those that fail. Condition: the node at this place is a CHOICE.
#[cycle(walking)]
#[inline(never)]
pub fn choice(table: &Nodes, at: usize, octets: &[u8], failed: &mut Slots) -> bool
    requires room { at < vec_len table.now.hots }
    requires kind { IsChoice table.now at }
    ensures { Answers result failed.new (contents_judged (body_at (spots_in table.now) at) octets.now failed.old) }
{
    let node = &table.hots[at];
    let first = node.first;
    for k in first..first + node.count as usize {
        match front_at(table, k, octets) {
            Front::Here(inside, rest) => return chosen(table, k, inside, rest, failed),
            Front::Broken => return false,
            Front::Elsewhere => {}
        }
    }
    false
}

/// Whether what is inside the outermost tag of the chosen alternative is lawful, with nothing after it.
#[cycle(walking)]
#[inline(always)]
fn chosen(table: &Nodes, at: usize, inside: &[u8], rest: &[u8], failed: &mut Slots) -> bool
    requires { at < vec_len table.now.hots }
    ensures { Answers result failed.new (chosen_at (spot_at (spots_in table.now) at).side (here inside.now rest.now)
        (pass_at (spots_in table.now) at) failed.old None) }
{
    if !rest.is_empty() {
        return false;
    }
    if is_plain(&table.hots[at], inside) {
        return true;
    }
    choose(table, at, failed);
    within_tag(table, at, inside, failed)
}

/// Adds the slots that fail where an alternative is the chosen one.
#[inline(always)]
fn choose(table: &Nodes, at: usize, failed: &mut Slots)
    requires { at < vec_len table.now.hots }
    ensures { failed.new ≡ added failed.old (spot_at (spots_in table.now) at).side.present }
{
    if table.hots[at].watched {
        cost(&table.colds[at].present, failed);
    }
}

#[cold]
#[inline(never)]
fn cost(slots: &Slots, failed: &mut Slots)
    ensures { failed.new ≡ added failed.old slots.now }
{
    failed.add(slots);
}
