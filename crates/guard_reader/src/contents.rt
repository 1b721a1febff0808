//! Which contents octets are lawful for a simple kind.
ghost use Rattle.std.specs.Prelude.{◌≡◌, ◌∷◌, map, pos, [], if◌then◌else◌};
ghost use Rattle.std.specs.Option.{is_none};
ghost use Rattle.guard_der.specs.Simple.{simple_fault, boolean_fault, integer_fault, null_fault, bits_fault};
ghost use Rattle.guard_der.specs.Simple.{enumerated_fault, object_id_fault, is_text};
ghost use Rattle.guard_tables.specs.NodeViews.{kind_view, unnamed};

use crate::kind_alphabets::are_characters;
use crate::object_id::is_object_identifier;
use crate::texts::is_spelled_utf8;
use guard_der::bits::{has_no_trailing_zero, has_proper_end, has_zero_end};
use guard_der::integers::{fault_of_integer, twos_complement};
use guard_model::CharKind;
use guard_tables::{Items, SimpleKind};

/// Whether contents octets are lawful for the kind; the items are those of an ENUMERATED.
pub fn is_lawful(kind: SimpleKind, items: &Items, inside: &[u8]) -> bool
    ensures { result ≡ is_none (simple_fault (kind_view kind items.now) inside.now) }
{
    match kind {
        SimpleKind::Boolean => is_boolean(inside),
        SimpleKind::Integer => is_integer(inside),
        SimpleKind::Enumerated => is_enumerated(items, inside),
        SimpleKind::BitString => is_bit_string(false, inside),
        SimpleKind::NamedBits => is_bit_string(true, inside),
        SimpleKind::OctetString => true,
        SimpleKind::Null => inside.is_empty(),
        SimpleKind::ObjectIdentifier => is_object_identifier(inside),
        SimpleKind::Characters(kind) => is_text(kind, inside),
    }
}

/// Whether contents octets are those of a BOOLEAN: 00 or FF (X.690 8.2, 11.1).
fn is_boolean(inside: &[u8]) -> bool
    ensures { result ≡ is_none (boolean_fault inside.now) }
{
    match inside {
        [octet] => *octet == 0 || *octet == 0xFF,
        _ => false,
    }
}

/// Whether contents octets are those of an INTEGER: the shortest two's complement, of at most sixteen octets (X.690
/// 8.3).
fn is_integer(inside: &[u8]) -> bool
    ensures { result ≡ is_none (integer_fault inside.now) }
{
    fault_of_integer(inside).is_none()
}

/// Whether contents octets spell the number of an item of an ENUMERATED (X.690 8.4).
fn is_enumerated(items: &Items, inside: &[u8]) -> bool
    ensures { result ≡ is_none (enumerated_fault (map unnamed items.now) inside.now) }
{
    is_integer(inside) && items.has(twos_complement(inside))
}

/// Whether contents octets are those of a BIT STRING: the first octet is the count of unused bits, which are zero
/// (X.690 8.6.2, 11.2.1); where bits are named the last one isn't (11.2.2).
fn is_bit_string(named: bool, inside: &[u8]) -> bool
    ensures { result ≡ is_none (bits_fault (if named then unnamed (pos 0) ∷ [] else []) inside.now) }
{
    match inside {
        [unused, octets @ ..] => are_bits(named, octets, *unused),
        [] => false,
    }
}

fn are_bits(named: bool, octets: &[u8], unused: u8) -> bool
    ensures { result ≡ is_none (bits_fault (if named then unnamed (pos 0) ∷ [] else []) (unused ∷ octets.now)) }
{
    if !has_proper_end(octets, unused) {
        return false;
    }
    if !has_zero_end(octets, unused) {
        return false;
    }
    !named || has_no_trailing_zero(octets, unused)
}

/// Whether contents octets are those of a character string: UTF-8, or an octet of the kind's alphabet for each
/// character (X.690 8.23).
fn is_text(kind: CharKind, inside: &[u8]) -> bool
    ensures { result ≡ is_text kind inside.now }
{
    match kind {
        CharKind::Utf8 => is_spelled_utf8(inside),
        CharKind::Numeric => are_characters(kind, inside),
        CharKind::Printable => are_characters(kind, inside),
        CharKind::Ia5 => are_characters(kind, inside),
        CharKind::Visible => are_characters(kind, inside),
    }
}
