//! Components of a SET: which one is next, and which were read.
ghost use Rattle.std.specs.Prelude.{◌≡◌, ◌+◌, ◌%◌, ◌<◌, ◌≤◌, ◌||◌, slice_index, ℕ, List, true};
ghost use Rattle.std.specs.Prelude.{length, nat_eq, vec_len, IfSome, Some, option_map};
ghost use Rattle.std.specs.Int.{bit_at};
ghost use Rattle.guard_tables.specs.NodesView.{spots_in};
ghost use Rattle.guard_tables.specs.TableNodes.{parts_between};
ghost use Rattle.guard_reader.specs.Judging.{absences_at, tag_after, tag_at};
ghost use Rattle.guard_reader.specs.Fronts.{after_one, elsewhere};
ghost use Rattle.guard_reader.specs.Octets.{split};
ghost use Rattle.std.specs.Option.{is_some};
ghost use Rattle.guard_reader.specs.inside.Answers.{Answers};
ghost use Rattle.guard_reader.specs.inside.Members.{AreRead, member_found};
ghost use Rattle.guard_reader.specs.inside.NodeParts.{sight_at};
ghost use Rattle.guard_reader.specs.inside.Ranks.{AreBelow, IsBelow, IsLow, rank, rank_of};

use crate::element_fronts::{Front, front_at};
use crate::header::split_after;
use crate::walking::series::absent;
use guard_der::{class_of, follows, header};
use guard_model::Tag;
use guard_tables::{Nodes, Slots};

/// The tag of the element at the front; None where none is there, or its tag doesn't come after `last`, that of the one
/// before.
pub fn next_tag(last: Option<Tag>, octets: &[u8]) -> Option<Tag>
    ensures { result ≡ tag_after last (tag_at octets.now) }
{
    match front_tag(octets) {
        Some(tag) => tag_after(last, tag),
        None => None,
    }
}

/// The tag of the element at the front; None where none is there.
#[inline(always)]
fn front_tag(octets: &[u8]) -> Option<Tag>
    ensures { result ≡ tag_at octets.now }
{
    if octets.is_empty() {
        return None;
    }
    if octets[0] % 32 == 31 {
        return far_tag(octets);
    }
    low_tag(octets)
}

/// The tag of the element at the front, of a number from 31 on.
#[cold]
#[inline(never)]
fn far_tag(octets: &[u8]) -> Option<Tag>
    ensures { result ≡ tag_at octets.now }
{
    match header(octets, 0) {
        Ok(head) => Some(head.tag),
        Err(_) => None,
    }
}

/// The tag of the element at the front, of a number up to 30, which is in the first octet (X.690 8.1.2).
#[inline(always)]
fn low_tag(octets: &[u8]) -> Option<Tag>
    requires some { 0 < length octets.now }
    requires low { slice_index octets.now 0 % 32 < 31 }
    ensures { result ≡ tag_at octets.now }
{
    if !is_whole(octets) {
        return None;
    }
    let first = octets[0];
    Some(Tag {
        class: class_of(first),
        number: u32::from(first % 32),
    })
}

/// Whether the length after an identifier octet is lawful, and so many octets are there.
#[inline(always)]
fn is_whole(octets: &[u8]) -> bool
    ensures { result ≡ is_some (split (after_one octets.now)) }
{
    split_after(octets).is_some()
}

fn tag_after(last: Option<Tag>, tag: Tag) -> Option<Tag>
    ensures { result ≡ tag_after last (Some tag) }
{
    if follows(last, tag) {
        return Some(tag);
    }
    None
}

/// The order of a first octet whatever its form: tags of one octet ascend with it (X.690 8.1.2).
#[inline(always)]
fn rank(octet: u8) -> u8
    ensures { result ≡ rank octet }
{
    octet & 0xDF
}

/// The order of the first of some octets whatever its form; 0 where there is none.
#[inline(always)]
pub fn rank_of(octets: &[u8]) -> u8
    ensures { result ≡ rank_of octets.now }
{
    match octets {
        [first, ..] => rank(*first),
        [] => 0,
    }
}

/// How many components, from the first on, are surely not at the front: those whose ranks are at most the floor, where
/// the octets' rank is above it.
#[inline(always)]
pub fn passed(table: &Nodes, first: usize, below: usize, floor: u8, octets: &[u8]) -> usize
    requires room { first + below ≤ vec_len table.now.hots }
    requires passed { AreBelow table.now first below floor }
    ensures few { result ≤ below }
    ensures elsewhere { (k : ℕ) → first ≤ k → k < first + result →
        sight_at (spots_in table.now) k octets.now ≡ elsewhere }
    ensures passed { AreBelow table.now first result (rank_of octets.now) }
{
    let here = rank_of(octets);
    if here <= floor {
        return 0;
    }
    below
}

/// How many components, from the first on, have ranks of at most the floor; so many have.
pub fn advance(table: &Nodes, first: usize, count: usize, below: usize, floor: u8) -> usize
    requires room { first + count ≤ vec_len table.now.hots }
    requires few { below ≤ count }
    requires passed { AreBelow table.now first below floor }
    ensures few { result ≤ count }
    ensures passed { AreBelow table.now first result floor }
{
    let mut at = below;
    while at < count {
        if !is_below(table, first + at, floor) {
            return at;
        }
        at += 1;
    }
    at
}

/// Whether a node has an identifier octet of at most this rank.
#[inline(always)]
fn is_below(table: &Nodes, at: usize, floor: u8) -> bool
    requires { at < vec_len table.now.hots }
    ensures { result ≡ true → IsBelow table.now at floor }
{
    let node = &table.hots[at];
    if !is_low(node.identifier, floor) {
        return false;
    }
    is_low(node.other, floor)
}

#[inline(always)]
fn is_low(octet: u16, floor: u8) -> bool
    ensures { result ≡ true → IsLow octet floor }
{
    if octet >= 256 {
        return false;
    }
    rank(octet as u8) <= floor
}

/// The component that is at the front: its place among so many from the first on, what is inside its outermost tag, and
/// what follows it; None where none of them is there. Conditions: these nodes are there, and the first of them, as many
/// as are passed, aren't at the front.
pub fn member<'a>(
    table: &Nodes,
    first: usize,
    count: usize,
    passed: usize,
    octets: &'a [u8],
) -> Option<(usize, &'a [u8], &'a [u8])>
    requires room { first + count ≤ vec_len table.now.hots }
    requires few { passed ≤ count }
    requires elsewhere { (k : ℕ) → first ≤ k → k < first + passed →
        sight_at (spots_in table.now) k octets.now ≡ elsewhere }
    ensures found { option_map (λ m. (m.0, m.1.now, m.2.now)) result
        ≡ member_found (parts_between (spots_in table.now) first count) 0 octets.now }
    ensures place { IfSome result (λ m. m.0 < count) }
    ensures shorter { IfSome result (λ m. length m.2.now < length octets.now) }
{
    for k in first + passed..first + count {
        match front_at(table, k, octets) {
            Front::Here(inside, rest) => return Some((k - first, inside, rest)),
            Front::Broken => return None,
            Front::Elsewhere => {}
        }
    }
    None
}

/// Whether the component at a place was read, by the bits of those that were. Condition: the place is less than 64.
pub fn is_read(read: u64, place: usize) -> bool
    requires { place < 64 }
    ensures { result ≡ nat_eq (bit_at read place) 1 }
{
    (read >> place) & 1 == 1
}

/// The bits of the components that were read, with that of the one at this place. Condition: the place is less than 64.
pub fn with_read(read: u64, place: usize) -> u64
    requires { place < 64 }
    ensures { (i : ℕ) → i < 64 → nat_eq (bit_at result i) 1 ≡ (nat_eq place i || nat_eq (bit_at read i) 1) }
{
    read | (1 << place)
}

/// Whether the components that weren't read may be absent; the slots of their absence are added to those that fail.
/// Conditions: these nodes are there, and there are at most 64.
pub fn absences(table: &Nodes, first: usize, count: usize, read: u64, failed: &mut Slots) -> bool
    requires room { first + count ≤ vec_len table.now.hots }
    requires few { count ≤ 64 }
    ensures { (places : List ℕ) → AreRead read places
        → Answers result failed.new (absences_at 0 (parts_between (spots_in table.now) first count) places failed.old) }
{
    for k in first..first + count {
        let was_read = is_read(read, k - first);
        if was_read {
            continue;
        }
        if !absent(table, k, failed) {
            return false;
        }
    }
    true
}
