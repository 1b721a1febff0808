//! Components of a SET.
ghost use Rattle.std.specs.Prelude.{◌≡◌, ◌<◌, vec_len};
ghost use Rattle.guard_tables.specs.NodesView.{spots_in};
ghost use Rattle.guard_tables.specs.TableNodes.{body_at};
ghost use Rattle.guard_reader.specs.Judging.{contents_judged};
ghost use Rattle.guard_reader.specs.inside.Answers.{Answers};
ghost use Rattle.guard_reader.specs.inside.NodeParts.{IsSet};

use crate::set_members::{
    absences, advance, is_read, member, next_tag, passed, rank_of, with_read,
};
use crate::walking::series::{present, series};
use guard_model::Tag;
use guard_tables::{Nodes, Slots};

/// Whether all the octets are components of a SET in ascending order of tags (X.690 8.11, 10.3); the slots of what they
/// don't pass are added to those that fail. Condition: the node at this place is a SET.
#[cycle(walking)]
#[inline(never)]
pub fn set(table: &Nodes, at: usize, octets: &[u8], failed: &mut Slots) -> bool
    requires room { at < vec_len table.now.hots }
    requires kind { IsSet table.now at }
    ensures { Answers result failed.new (contents_judged (body_at (spots_in table.now) at) octets.now failed.old) }
{
    let node = &table.hots[at];
    if node.ascending {
        // The order of their tags is that of the components, so each is present or absent where its turn is.
        return series(table, node.first, node.count as usize, octets, failed);
    }
    members(table, at, octets, failed)
}

/// What `set` answers for components that aren't listed in the order of their tags, or of which one may begin with
/// several tags.
#[cycle(walking)]
#[inline(never)]
fn members(table: &Nodes, at: usize, octets: &[u8], failed: &mut Slots) -> bool
    requires room { at < vec_len table.now.hots }
    requires kind { IsSet table.now at }
    ensures { Answers result failed.new (contents_judged (body_at (spots_in table.now) at) octets.now failed.old) }
{
    let node = &table.hots[at];
    let first = node.first;
    let count = node.count as usize;
    let mut read = 0;
    // Components come in the order of their tags, so those before the last one are seldom looked at again.
    let mut below = 0;
    let mut floor = 0;
    let mut last: Option<Tag> = None;
    let mut rest = octets;
    while !rest.is_empty() {
        let Some(tag) = next_tag(last, rest) else {
            return false;
        };
        let start = passed(table, first, below, floor, rest);
        let Some((place, inside, next)) = member(table, first, count, start, rest) else {
            return false;
        };
        if is_read(read, place) {
            return false;
        }
        if !present(table, first + place, inside, failed) {
            return false;
        }
        read = with_read(read, place);
        floor = rank_of(rest);
        below = advance(table, first, count, start, floor);
        last = Some(tag);
        rest = next;
    }
    absences(table, first, count, read, failed)
}
