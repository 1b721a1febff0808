//! Values without a value inside.
ghost use Rattle.std.specs.Prelude.{◌≡◌, ◌&&◌, map, chars, if◌then◌else◌, Some, None, option_map, string_bytes};
ghost use Rattle.guard_model.specs.Answer.{Gives};
ghost use Rattle.guard_model.specs.TypeView.{kind_view, named_view};
ghost use Rattle.guard_model.specs.ValueView.{value_view};
ghost use Rattle.guard_model.specs.Alphabets.{fits_characters};
ghost use Rattle.guard_syntax.specs.Views.{arc_view};
ghost use Rattle.guard_values.specs.NamedBits.{bits_kept};
ghost use Rattle.guard_values.specs.Simple.{boolean_value, null_value, bits_value, characters_value};
ghost use Rattle.guard_values.specs.Strings as written;
ghost use Rattle.std.specs.Str.{is_utf8};
ghost use Rattle.guard_values.specs.inside.Reading.{answered, read_integer, read_text, read_arcs};
ghost use Rattle.guard_values.specs.Views.{named};
ghost use Rattle.guard_model.specs.AbstractValue.{octet_string};

use crate::fault::ValueFault;
use crate::named_bits::bits_kept;
use crate::object_identifiers::object_identifier;
use crate::strings::{binary_digits, bit_string, hexadecimal_bits, octets_of_bits, quoted};
use guard_model::{CharKind, Kind, Named, Site, Value};
use guard_syntax::{ArcTree, NumberTree, StringKind};
use std::alloc::Global;
use std::sync::{ArcSlice, ArcStr};

/// TRUE or FALSE.
pub fn boolean(kind: &Kind, site: Site, truth: bool) -> Result<Value, ValueFault>
    ensures { Gives value_view named result
        (answered (ValueFault.WrongNotation site) (boolean_value (kind_view kind.now) truth)) }
{
    match kind {
        Kind::Bool => Ok(Value::Bool(truth)),
        _ => Err(ValueFault::WrongNotation(site)),
    }
}

/// NULL.
pub fn null(kind: &Kind, site: Site) -> Result<Value, ValueFault>
    ensures { Gives value_view named result
        (answered (ValueFault.WrongNotation site) (null_value (kind_view kind.now))) }
{
    match kind {
        Kind::Null => Ok(Value::Null),
        _ => Err(ValueFault::WrongNotation(site)),
    }
}

/// A number, which is written at the place with these digits, perhaps after a minus sign.
pub fn integer(
    kind: &Kind,
    site: Site,
    minus: bool,
    place: Site,
    digits: &[u8],
) -> Result<Value, ValueFault>
    ensures { Gives value_view named result
        (read_integer site (kind_view kind.now) (record { site = place; minus = minus; digits = digits.now })) }
{
    let number = NumberTree {
        site: place,
        minus,
        digits,
    };
    match kind {
        Kind::Int(_) => match number.integer() {
            Some(value) => Ok(Value::Int(value)),
            None => Err(ValueFault::TooLarge(place)),
        },
        _ => Err(ValueFault::WrongNotation(site)),
    }
}

/// Arcs.
pub fn arcs(alloc: Global, kind: &Kind, site: Site, arcs: &[ArcTree]) -> Result<Value, ValueFault>
    ensures { Gives value_view named result (read_arcs site (kind_view kind.now) (map arc_view arcs.now)) }
{
    match kind {
        Kind::Oid => object_identifier(alloc, site, arcs),
        _ => Err(ValueFault::WrongNotation(site)),
    }
}

/// A string.
pub fn text(
    alloc: Global,
    kind: &Kind,
    site: Site,
    string: StringKind,
    spelling: &[u8],
) -> Result<Value, ValueFault>
    ensures { Gives value_view named result (read_text site (kind_view kind.now) string spelling.now) }
{
    match (kind, string) {
        (Kind::Bits(names), StringKind::Bits) => bits(alloc, names.as_slice(), spelling),
        (Kind::Bits(names), StringKind::Hexadecimal) => bits_of_digits(
            alloc,
            names.as_slice(),
            spelling,
        ),
        (Kind::Octets, StringKind::Bits) => octets(alloc, spelling),
        (Kind::Octets, StringKind::Hexadecimal) => hexadecimal_octets(alloc, spelling),
        (Kind::Chars(kind), StringKind::Characters) => characters(alloc, *kind, site, spelling),
        _ => Err(ValueFault::WrongNotation(site)),
    }
}

fn bits(alloc: Global, names: &[Named], spelling: &[u8]) -> Result<Value, ValueFault>
    ensures { Gives value_view named result
        (Ok (bits_value (bits_kept (map named_view names.now) (written.binary_digits spelling.now)))) }
{
    let bits = binary_digits(alloc, spelling)?;
    bit_string(alloc, bits_kept(names, &bits))
}

fn bits_of_digits(alloc: Global, names: &[Named], spelling: &[u8]) -> Result<Value, ValueFault>
    ensures { Gives value_view named result
        (Ok (bits_value (bits_kept (map named_view names.now) (written.hexadecimal_bits spelling.now)))) }
{
    let bits = hexadecimal_bits(alloc, spelling)?;
    bit_string(alloc, bits_kept(names, &bits))
}

fn octets(alloc: Global, spelling: &[u8]) -> Result<Value, ValueFault>
    ensures { Gives value_view named result
        (Ok (octet_string (written.octets_of_bits (written.binary_digits spelling.now)))) }
{
    let bits = binary_digits(alloc, spelling)?;
    let octets = octets_of_bits(alloc, &bits)?;
    Ok(Value::Octets(ArcSlice::from_vec(octets)?))
}

fn hexadecimal_octets(alloc: Global, spelling: &[u8]) -> Result<Value, ValueFault>
    ensures { Gives value_view named result
        (Ok (octet_string (written.octets_of_bits (written.hexadecimal_bits spelling.now)))) }
{
    let bits = hexadecimal_bits(alloc, spelling)?;
    let octets = octets_of_bits(alloc, &bits)?;
    Ok(Value::Octets(ArcSlice::from_vec(octets)?))
}

/// A string in double quotes, of characters of the kind's alphabet.
fn characters(
    alloc: Global,
    kind: CharKind,
    site: Site,
    spelling: &[u8],
) -> Result<Value, ValueFault>
    ensures { Gives value_view named result
        (answered (ValueFault.BadCharacter site) (characters_value kind (written.quoted spelling.now))) }
{
    match text_of(kind, quoted(alloc, spelling)?) {
        Some(text) => Ok(Value::Chars(ArcStr::from_string(text)?)),
        None => Err(ValueFault::BadCharacter(site)),
    }
}

/// The text that octets spell, where all its characters are of the kind's alphabet.
fn text_of(kind: CharKind, octets: Vec<u8>) -> Option<String>
    ensures { option_map string_bytes result
        ≡ (if is_utf8 octets.items && fits_characters kind (chars octets.items) then Some octets.items else None) }
{
    let Ok(text) = String::from_utf8(octets) else {
        return None;
    };
    if kind.has_all(&text) {
        Some(text)
    } else {
        None
    }
}
