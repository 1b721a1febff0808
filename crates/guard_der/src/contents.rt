//! Contents octets of the simple kinds (X.690 8.2 to 8.8, 8.19, 8.23): the value that they say, or what is wrong with
//! them. Each reader is given the offset of the element, where its faults are named.
ghost use Rattle.std.specs.Prelude.{◌≡◌, map};
ghost use Rattle.guard_model.specs.AbstractValue as abstract;
ghost use Rattle.guard_model.specs.Answer.{Gives};
ghost use Rattle.guard_model.specs.TypeView.{kind_view, named_view};
ghost use Rattle.guard_model.specs.ValueView.{value_view};
ghost use Rattle.guard_der.specs.Octets.{twos_complement as twos_read};
ghost use Rattle.guard_der.specs.Simple.{boolean_fault, boolean_of, integer_fault, bits_fault, bits_of, null_fault};
ghost use Rattle.guard_der.specs.Simple.{enumerated_fault, characters_fault, characters_of, simple_fault, simple_value};
ghost use Rattle.guard_der.specs.Reading.{unless_fault};
ghost use Rattle.guard_der.specs.inside.Faults.{fault_of};

use crate::bits::{ends_as_named, has_proper_end, has_zero_end};
use crate::breach::Code;
use crate::characters::text_of;
use crate::faults::{Fault, fault_at};
use crate::integers::{fault_of_integer, twos_complement};
use crate::object_id::object_identifier;
use guard_model::{Bits, CharKind, Kind, Named, NamedList, Path, Value};
use std::alloc::Global;
use std::sync::{ArcSlice, ArcStr};

/// The value that contents octets of a simple kind say, or what is wrong with them, at the offset `at`. The path of a
/// fault is made empty.
pub fn value_of_simple(
    alloc: Global,
    path: &mut Path,
    kind: &Kind,
    at: usize,
    octets: &[u8],
) -> Result<Value, Fault>
    ensures { Gives value_view (fault_of path.new.items) result (unless_fault at
        (simple_fault (kind_view kind.now) octets.now) (simple_value (kind_view kind.now) octets.now)) }
{
    match kind {
        Kind::Bool => boolean(path, at, octets),
        Kind::Int(_) => integer(path, at, octets),
        Kind::Bits(names) => bit_string(alloc, path, names.as_slice(), at, octets),
        Kind::Octets => Ok(Value::Octets(ArcSlice::from_slice(alloc, octets)?)),
        Kind::Null => null(path, at, octets),
        Kind::Oid => object_identifier(alloc, path, at, octets),
        Kind::Enumerated(items) => enumerated(path, items, at, octets),
        Kind::Chars(characters) => text(alloc, path, *characters, at, octets),
        _ => Ok(Value::Null),
    }
}

/// The value of a BOOLEAN: FALSE is 00, TRUE is FF (X.690 8.2, 11.1).
fn boolean(path: &mut Path, at: usize, octets: &[u8]) -> Result<Value, Fault>
    ensures { Gives value_view (fault_of path.new.items) result
        (unless_fault at (boolean_fault octets.now) (abstract.boolean (boolean_of octets.now))) }
{
    match octets {
        [0] => Ok(Value::Bool(false)),
        [0xFF] => Ok(Value::Bool(true)),
        _ => Err(fault_at(path, Code::BooleanContents, at)),
    }
}

/// The value of a NULL, which has no contents (X.690 8.8.2).
fn null(path: &mut Path, at: usize, octets: &[u8]) -> Result<Value, Fault>
    ensures { Gives value_view (fault_of path.new.items) result
        (unless_fault at (null_fault octets.now) abstract.null) }
{
    match octets {
        [] => Ok(Value::Null),
        _ => Err(fault_at(path, Code::NullContents, at)),
    }
}

/// The value of a BIT STRING. The first octet is the count of unused bits, which are zero (X.690 8.6.2, 11.2.1); where
/// bits are named, the last one isn't (11.2.2).
fn bit_string(
    alloc: Global,
    path: &mut Path,
    names: &[Named],
    at: usize,
    octets: &[u8],
) -> Result<Value, Fault>
    ensures { Gives value_view (fault_of path.new.items) result
        (unless_fault at (bits_fault (map named_view names.now) octets.now) (bits_of octets.now)) }
{
    let [unused, rest @ ..] = octets else {
        return Err(fault_at(path, Code::BitStringContents, at));
    };
    if !has_proper_end(rest, *unused) {
        return Err(fault_at(path, Code::BitStringContents, at));
    }
    if !has_zero_end(rest, *unused) {
        return Err(fault_at(path, Code::UnusedBits, at));
    }
    if !ends_as_named(names, rest, *unused) {
        return Err(fault_at(path, Code::TrailingZeroBit, at));
    }
    Ok(Value::Bits(Bits {
        octets: ArcSlice::from_slice(alloc, rest)?,
        unused: *unused,
    }))
}

/// The value of a character string: UTF-8 for UTF8String, else one octet a character (X.690 8.23).
fn text(
    alloc: Global,
    path: &mut Path,
    kind: CharKind,
    at: usize,
    octets: &[u8],
) -> Result<Value, Fault>
    ensures { Gives value_view (fault_of path.new.items) result
        (unless_fault at (characters_fault kind octets.now) (abstract.characters (characters_of kind octets.now))) }
{
    match text_of(kind, octets) {
        Some(text) => Ok(Value::Chars(ArcStr::from_str(alloc, text)?)),
        None => Err(fault_at(path, Code::Characters, at)),
    }
}

fn integer(path: &mut Path, at: usize, octets: &[u8]) -> Result<Value, Fault>
    ensures { Gives value_view (fault_of path.new.items) result
        (unless_fault at (integer_fault octets.now) (abstract.integer (twos_read octets.now))) }
{
    match fault_of_integer(octets) {
        Some(code) => Err(fault_at(path, code, at)),
        None => Ok(Value::Int(twos_complement(octets))),
    }
}

/// The value of an ENUMERATED: an INTEGER that is the number of an item (X.690 8.4).
fn enumerated(path: &mut Path, items: &NamedList, at: usize, octets: &[u8]) -> Result<Value, Fault>
    ensures { Gives value_view (fault_of path.new.items) result
        (unless_fault at (enumerated_fault items.now octets.now) (abstract.enumerated (twos_read octets.now))) }
{
    match fault_of_integer(octets) {
        Some(code) => Err(fault_at(path, code, at)),
        None => {
            let number = twos_complement(octets);
            if items.has_number(number) {
                Ok(Value::Enumerated(number))
            } else {
                Err(fault_at(path, Code::UnknownEnumeration, at))
            }
        }
    }
}
