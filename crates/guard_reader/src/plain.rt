//! Numbers of one or two octets that fail nothing, by which most elements are passed over.
ghost use Rattle.std.specs.Prelude.{◌≡◌, ◌<◌, ◌≤◌, ◌&&◌, ◌||◌, ◌⊎◌, ◌∷◌, [], pos, negsuc, true, length, vec_len};
ghost use Rattle.std.specs.Int.Signed.{le_z, lt_z};
ghost use Rattle.guard_der.specs.Octets.{twos_complement};
ghost use Rattle.guard_tables.specs.declared.slots.Slots.{Slots};
ghost use Rattle.guard_tables.specs.NodesView.{spots_in};
ghost use Rattle.guard_reader.specs.Judging.{elements};
ghost use Rattle.guard_reader.specs.inside.Answers.{IsSmall, IsOne, IsTwo};
ghost use Rattle.guard_reader.specs.inside.NodeParts.{pass_at, sight_at};

use guard_tables::{Hot, Nodes};

/// Whether contents of one or two octets spell a number that is plain at the node, one that is lawful there and fails
/// nothing. The answer may be no for one that is.
#[inline(always)]
pub fn is_plain(node: &Hot, inside: &[u8]) -> bool
    ensures { result ≡ true → IsSmall node.now.low node.now.high inside.now }
{
    match inside {
        [a] => is_plain_octet(node, *a),
        [a, b] => are_plain_octets(node, *a, *b),
        _ => false,
    }
}

#[inline(always)]
fn is_plain_octet(node: &Hot, a: u8) -> bool
    ensures { result ≡ true → IsSmall node.now.low node.now.high (a ∷ []) }
{
    is_within(node, small(a))
}

#[inline(always)]
#[tactic(auto, using(crate::proofs::Small::wide_right))]
fn are_plain_octets(node: &Hot, a: u8, b: u8) -> bool
    ensures { result ≡ true → IsSmall node.now.low node.now.high (a ∷ b ∷ []) }
{
    let number = middle(a, b);
    is_within(node, number) && is_wide(number)
}

#[inline(always)]
fn is_within(node: &Hot, number: i32) -> bool
    ensures { result ≡ (le_z node.now.low number && le_z number node.now.high) }
{
    node.low <= number && number <= node.high
}

/// Whether a number needs more than one octet.
#[inline(always)]
fn is_wide(number: i32) -> bool
    ensures { result ≡ (lt_z number (negsuc 127) || lt_z (pos 127) number) }
{
    number < -128 || number > 127
}

/// The number that one octet spells.
#[inline(always)]
#[tactic(auto, unfolding(guard_der::specs::Octets::twos_complement))]
fn small(a: u8) -> i32
    ensures { result ≡ twos_complement (a ∷ []) }
{
    i32::from(a.cast_signed())
}

/// The number that two octets spell.
#[inline(always)]
#[tactic(auto, unfolding(guard_der::specs::Octets::twos_complement))]
fn middle(a: u8, b: u8) -> i32
    ensures { result ≡ twos_complement (a ∷ b ∷ []) }
{
    i32::from(i16::from_be_bytes([a, b]))
}

/// What is left of the elements of a list after the plain numbers at the front. Condition: the elements' node is there.
#[inline(always)]
pub fn after_plain<'a>(table: &Nodes, at: usize, octets: &'a [u8]) -> &'a [u8]
    requires { at < vec_len table.now.hots }
    ensures shorter { length result.now ≤ length octets.now }
    ensures same { (m : Slots) →
        elements (sight_at (spots_in table.now) at) (pass_at (spots_in table.now) at) result.now m
        ≡ elements (sight_at (spots_in table.now) at) (pass_at (spots_in table.now) at) octets.now m }
{
    let node = &table.hots[at];
    let mut rest = octets;
    while !rest.is_empty() {
        let size = plain_size(node, rest);
        if size == 0 {
            return rest;
        }
        rest = &rest[size..];
    }
    rest
}

/// What is left of the elements of a list after one plain number at the front, if there is one. Condition: the
/// elements' node is there.
#[inline(always)]
pub fn after_one_plain<'a>(table: &Nodes, at: usize, octets: &'a [u8]) -> &'a [u8]
    requires { at < vec_len table.now.hots }
    ensures { (m : Slots) →
        elements (sight_at (spots_in table.now) at) (pass_at (spots_in table.now) at) result.now m
        ≡ elements (sight_at (spots_in table.now) at) (pass_at (spots_in table.now) at) octets.now m }
{
    let node = &table.hots[at];
    let size = plain_size(node, octets);
    if size == 0 {
        return octets;
    }
    &octets[size..]
}

/// How many octets a plain number of one or two octets at the front takes; 0 where there is none.
#[inline(always)]
fn plain_size(node: &Hot, octets: &[u8]) -> usize
    ensures one { result ≡ 3 → IsOne node.now.identifier node.now.low node.now.high octets.now }
    ensures two { result ≡ 4 → IsTwo node.now.identifier node.now.low node.now.high octets.now }
    ensures other { (result ≡ 0) ⊎ ((result ≡ 3) ⊎ (result ≡ 4)) }
{
    if octets.len() < 3 || u16::from(octets[0]) != node.identifier {
        return 0;
    }
    if octets[1] == 1 && is_plain_octet(node, octets[2]) {
        return 3;
    }
    if octets[1] == 2 && octets.len() >= 4 && are_plain_octets(node, octets[2], octets[3]) {
        return 4;
    }
    0
}

/// Whether an element is at the front whose contents are one octet and a plain number.
#[inline(always)]
pub fn begins_plainly(node: &Hot, octets: &[u8]) -> bool
    ensures { result ≡ true → IsOne node.now.identifier node.now.low node.now.high octets.now }
{
    octets.len() >= 3
        && u16::from(octets[0]) == node.identifier
        && octets[1] == 1
        && is_plain_octet(node, octets[2])
}
