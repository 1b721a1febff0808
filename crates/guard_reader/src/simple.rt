//! Kinds whose contents octets spell the value alone.
ghost use Rattle.std.specs.Prelude.{◌≡◌, ℤ, List, pos, length, map, Some, None, [], true, if◌then◌else◌, IfSome};
ghost use Rattle.std.specs.List.{list_all};
ghost use Rattle.std.specs.Option.{is_none};
ghost use Rattle.std.specs.Str.{is_utf8, chars};
ghost use Rattle.guard_der.specs.Simple.{simple_fault, simple_value, bits_fault, bits_of, is_text, characters_of};
ghost use Rattle.guard_eval.specs.Elements.{size_of, is_in_some};
ghost use Rattle.guard_integers.specs.Integers.{holds};
ghost use Rattle.guard_tables.specs.Marking.{Facts, facts, number_in, characters_in, some_passes};
ghost use Rattle.guard_tables.specs.Marking.{test_passes, conditions_marked};
ghost use Rattle.guard_tables.specs.NodeViews.{kind_view, condition_view, test_view};
ghost use Rattle.guard_model.specs.AbstractType.{characters};
ghost use Rattle.guard_tables.specs.declared.slots.Slots.{Slots};
ghost use Rattle.guard_tables.specs.Plan.{simple, spelled};
ghost use Rattle.guard_tables.specs.Slots.{added};
ghost use Rattle.guard_tables.specs.TableNodes.{conditions_of};
ghost use Rattle.guard_reader.specs.inside.Answers.{Answers};
ghost use Rattle.guard_reader.specs.inside.AtOnce.{PassesAtOnce};
ghost use Rattle.guard_reader.specs.Judging.{contents_judged};

use crate::conditions::{are_same, has_one};
use crate::contents::is_lawful;
use crate::kind_alphabets::{are_octets_in, has_one_octet, has_ranges};
use crate::texts::count_utf8;
use guard_der::bits::count_bits;
use guard_der::integers::twos_complement;
use guard_eval::are_permitted;
use guard_integers::IntSet;
use guard_model::CharKind;
use guard_tables::{Cold, Condition, Conditions, Items, SimpleKind, Slots, Test};

/// Whether contents octets are lawful for a simple kind; the slots of what their value doesn't pass are added to those
/// that fail.
#[inline(never)]
#[tactic(auto, unfolding(crate::specs::Judging::contents_judged))]
pub fn simple(cold: &Cold, kind: SimpleKind, inside: &[u8], failed: &mut Slots) -> bool
    ensures { Answers result failed.new
        (contents_judged (simple (kind_view kind cold.now.items) (conditions_of cold.now)) inside.now
        failed.old) }
{
    if is_spelled_at_once(&cold.conditions.list, kind, inside) {
        return true;
    }
    if !is_lawful(kind, &cold.items, inside) {
        return false;
    }
    mark(&cold.conditions, kind, &cold.items, inside, failed);
    true
}

/// Whether all that is asked of a string is that its characters lie in ranges of its kind's alphabet, and they do: then
/// one pass over the octets tells both that they are lawful and that nothing fails.
fn is_spelled_at_once(conditions: &[Condition], kind: SimpleKind, inside: &[u8]) -> bool
    ensures { (items : List ℤ) (m : Slots) → result ≡ true
        → contents_judged (simple (kind_view kind items) (map condition_view conditions.now)) inside.now m ≡ Some m }
{
    match kind {
        SimpleKind::Characters(kind) => are_spelled_at_once(conditions, kind, inside),
        _ => false,
    }
}

fn are_spelled_at_once(conditions: &[Condition], kind: CharKind, inside: &[u8]) -> bool
    ensures { (m : Slots) → result ≡ true
        → contents_judged (simple (characters kind) (map condition_view conditions.now)) inside.now m ≡ Some m }
{
    match conditions {
        [only] => passes_at_once(&only.test, kind, inside),
        _ => false,
    }
}

fn passes_at_once(test: &Test, kind: CharKind, inside: &[u8]) -> bool
    ensures { result ≡ true → PassesAtOnce (test_view test.now) kind inside.now }
{
    match test {
        Test::Spelled(alphabet) => lies_in(alphabet.ranges(), kind, inside),
        _ => false,
    }
}

fn lies_in(ranges: &[(u32, u32)], kind: CharKind, inside: &[u8]) -> bool
    ensures { result ≡ true → PassesAtOnce (spelled (is_in_some ranges.now)) kind inside.now }
{
    if !has_one_octet(kind) {
        return false;
    }
    if !has_ranges(kind, ranges) {
        return false;
    }
    are_octets_in(ranges, inside)
}

/// Marks the slots of each condition that doesn't hold: at once, where all are on the number that the contents spell.
fn mark(conditions: &Conditions, kind: SimpleKind, items: &Items, inside: &[u8], failed: &mut Slots)
    requires { is_none (simple_fault (kind_view kind items.now) inside.now) ≡ true }
    ensures { failed.new ≡ conditions_marked (map condition_view conditions.now.list.items)
        (facts (simple_value (kind_view kind items.now) inside.now) (Some inside.now)) failed.old }
{
    match failed_at(conditions, number_of(kind, items, inside)) {
        Some(slots) => failed.add(&slots),
        None => mark_each(&conditions.list, kind, items, inside, failed),
    }
}

/// What the conditions fail for a number, where there is one and all of them are on numbers.
fn failed_at(conditions: &Conditions, number: Option<i128>) -> Option<Slots>
    ensures { IfSome result (λ slots. (f : Facts) (m : Slots) → f.number ≡ number
        → conditions_marked (map condition_view conditions.now.list.items) f m ≡ added m slots) }
{
    match number {
        Some(number) => conditions.failed_at(number),
        None => None,
    }
}

/// Marks the slots of each condition that doesn't hold, one after the other.
fn mark_each(
    conditions: &[Condition],
    kind: SimpleKind,
    items: &Items,
    inside: &[u8],
    failed: &mut Slots,
)
    requires { is_none (simple_fault (kind_view kind items.now) inside.now) ≡ true }
    ensures { failed.new ≡ conditions_marked (map condition_view conditions.now)
        (facts (simple_value (kind_view kind items.now) inside.now) (Some inside.now)) failed.old }
{
    for condition in conditions {
        if !passes(&condition.test, kind, items, inside) {
            failed.add(&condition.slots);
        }
    }
}

fn passes(test: &Test, kind: SimpleKind, items: &Items, inside: &[u8]) -> bool
    requires { is_none (simple_fault (kind_view kind items.now) inside.now) ≡ true }
    ensures { result ≡ test_passes (test_view test.now)
        (facts (simple_value (kind_view kind items.now) inside.now) (Some inside.now)) }
{
    match test {
        Test::Numbers(set) => has_one(set, number_of(kind, items, inside)),
        Test::Sizes(set) => is_sized(set, kind, items, inside),
        Test::Stored(octets) => are_same(octets, inside),
        Test::Spelled(alphabet) => is_spelled(alphabet.ranges(), kind, items, inside),
    }
}

/// The number that the contents octets of an INTEGER or ENUMERATED spell; None of another kind.
fn number_of(kind: SimpleKind, items: &Items, inside: &[u8]) -> Option<i128>
    requires { is_none (simple_fault (kind_view kind items.now) inside.now) ≡ true }
    ensures { result ≡ number_in (simple_value (kind_view kind items.now) inside.now) }
{
    match kind {
        SimpleKind::Boolean => None,
        SimpleKind::Integer => Some(twos_complement(inside)),
        SimpleKind::Enumerated => Some(twos_complement(inside)),
        SimpleKind::BitString => None,
        SimpleKind::NamedBits => None,
        SimpleKind::OctetString => None,
        SimpleKind::Null => None,
        SimpleKind::ObjectIdentifier => None,
        SimpleKind::Characters(_) => None,
    }
}

/// Whether the size in bits, octets or characters is one of the set (X.680 51.5); other kinds have none.
fn is_sized(set: &IntSet, kind: SimpleKind, items: &Items, inside: &[u8]) -> bool
    requires { is_none (simple_fault (kind_view kind items.now) inside.now) ≡ true }
    ensures { result ≡ some_passes (λ n. holds set.now (pos n))
        (size_of (simple_value (kind_view kind items.now) inside.now)) }
{
    match kind {
        SimpleKind::Boolean => false,
        SimpleKind::Integer => false,
        SimpleKind::Enumerated => false,
        SimpleKind::BitString => has_bits(set, inside),
        SimpleKind::NamedBits => has_bits(set, inside),
        SimpleKind::OctetString => set.has(inside.len() as i128),
        SimpleKind::Null => false,
        SimpleKind::ObjectIdentifier => false,
        SimpleKind::Characters(kind) => set.has(count(kind, inside) as i128),
    }
}

/// Whether the number of bits is one of the set. The first octet is the number of bits that are unused.
fn has_bits(set: &IntSet, inside: &[u8]) -> bool
    ensures { result ≡ some_passes (λ n. holds set.now (pos n)) (size_of (bits_of inside.now)) }
{
    match inside {
        [unused, octets @ ..] => set.has(count_bits(octets, *unused)),
        [] => set.has(0),
    }
}

/// How many characters the octets of a string of this kind spell.
fn count(kind: CharKind, inside: &[u8]) -> usize
    requires { is_text kind inside.now ≡ true }
    ensures { result ≡ length (characters_of kind inside.now) }
{
    match kind {
        CharKind::Utf8 => count_utf8(inside),
        CharKind::Numeric => inside.len(),
        CharKind::Printable => inside.len(),
        CharKind::Ia5 => inside.len(),
        CharKind::Visible => inside.len(),
    }
}

/// Whether all characters lie in one of the ranges; kinds without characters have none that doesn't.
fn is_spelled(ranges: &[(u32, u32)], kind: SimpleKind, items: &Items, inside: &[u8]) -> bool
    requires { is_none (simple_fault (kind_view kind items.now) inside.now) ≡ true }
    ensures { result ≡ list_all (is_in_some ranges.now)
        (characters_in (simple_value (kind_view kind items.now) inside.now)) }
{
    match kind {
        SimpleKind::Boolean => true,
        SimpleKind::Integer => true,
        SimpleKind::Enumerated => true,
        SimpleKind::BitString => true,
        SimpleKind::NamedBits => true,
        SimpleKind::OctetString => true,
        SimpleKind::Null => true,
        SimpleKind::ObjectIdentifier => true,
        SimpleKind::Characters(kind) => are_spelled(ranges, kind, inside),
    }
}

fn are_spelled(ranges: &[(u32, u32)], kind: CharKind, inside: &[u8]) -> bool
    requires { is_text kind inside.now ≡ true }
    ensures { result ≡ list_all (is_in_some ranges.now) (characters_of kind inside.now) }
{
    match kind {
        CharKind::Utf8 => are_spelled_utf8(ranges, inside),
        CharKind::Numeric => are_octets_in(ranges, inside),
        CharKind::Printable => are_octets_in(ranges, inside),
        CharKind::Ia5 => are_octets_in(ranges, inside),
        CharKind::Visible => are_octets_in(ranges, inside),
    }
}

fn are_spelled_utf8(ranges: &[(u32, u32)], inside: &[u8]) -> bool
    requires { is_utf8 inside.now ≡ true }
    ensures { result ≡ list_all (is_in_some ranges.now) (chars inside.now) }
{
    match str::from_utf8(inside) {
        Ok(text) => are_permitted(ranges, text),
        Err(_) => false,
    }
}
