//! A BIT STRING with named bits: names in braces, and values without trailing zero bits (X.680 22.4 to 22.7).
ghost use Rattle.std.specs.Prelude.{◌≡◌, ◌-◌, ◌%◌, ◌^◌, map, IfOk, Ok};
ghost use Rattle.guard_model.specs.Answer.{Gives};
ghost use Rattle.guard_model.specs.inside.Each.{each};
ghost use Rattle.guard_model.specs.TypeView.{named_view};
ghost use Rattle.guard_model.specs.ValueView.{value_view};
ghost use Rattle.guard_syntax.specs.Trees.{entries_of};
ghost use Rattle.guard_syntax.specs.Views.{entry_view, name_view};
ghost use Rattle.guard_values.specs.NamedBits as named_bits;
ghost use Rattle.guard_values.specs.NamedBits.{bits_to_last};
ghost use Rattle.guard_values.specs.Simple.{bits_value};
ghost use Rattle.guard_values.specs.Strings.{octets_of_bits};
ghost use Rattle.guard_values.specs.inside.Reading.{kept_read, read_named_bits, read_place};
ghost use Rattle.guard_values.specs.Views.{named};

use crate::fault::ValueFault;
use crate::strings::bits_in;
use guard_model::{Named, NamedList, Site, Value};
use guard_syntax::{EntryTree, ValueForm};
use std::alloc::{AllocError, Global};

/// The value of names in braces: ones at the bits that are named, and zeros before the last of them; or NULL where nothing
/// is sorted, so that faults are found and no octets made. Without named bits there is no such form.
pub fn value_of_names(
    alloc: Global,
    sorted: bool,
    names: &NamedList,
    site: Site,
    entries: &[EntryTree],
) -> Result<Value, ValueFault>
    ensures { Gives value_view named result
        (kept_read sorted (read_named_bits site names.now (entries_of (map entry_view entries.now)))) }
{
    if names.is_empty() {
        return Err(ValueFault::WrongNotation(site));
    }
    let places = places(alloc, names, entries)?;
    if !sorted {
        return Ok(Value::Null);
    }
    ones_at(alloc, &places)
}

/// The bits that entries name, in written order.
fn places(alloc: Global, names: &NamedList, entries: &[EntryTree]) -> Result<Vec<u16>, ValueFault>
    ensures { Gives (λ v. v.items) named result (each (read_place names.now) (map entry_view entries.now)) }
{
    let mut places = Vec::with_capacity(alloc, entries.len())?;
    for entry in entries {
        let place = place(names, entry)?;
        places.push(place)?;
    }
    Ok(places)
}

/// The bit that an entry names.
fn place(names: &NamedList, entry: &EntryTree) -> Result<u16, ValueFault>
    ensures { Gives (λ n. n) named result (read_place names.now (entry_view entry.now)) }
{
    let Some(name) = name_alone(entry) else {
        return Err(ValueFault::WrongNotation(entry.site()));
    };
    match named_bit(name, names) {
        Some(place) => Ok(place),
        None => Err(ValueFault::UnknownName(entry.site())),
    }
}

fn name_alone<'a>(entry: &EntryTree<'a>) -> Option<&'a [u8]>
    ensures { name_view result ≡ named_bits.name_alone (entry_view entry.now).name (entry_view entry.now).value }
{
    match entry {
        EntryTree::Alone(value) => match &value.form {
            ValueForm::Reference(name) => Some(*name),
            _ => None,
        },
        EntryTree::Named(_, _) => None,
    }
}

/// The place of the bit with this name, from 0.
fn named_bit(name: &[u8], names: &NamedList) -> Option<u16>
    ensures { result ≡ named_bits.named_bit names.now name.now }
{
    match names.number_named(name) {
        Some(number) => u16::try_from(number).ok(),
        None => None,
    }
}

/// The BIT STRING with ones at these places, and zeros before the last of them.
fn ones_at(alloc: Global, places: &[u16]) -> Result<Value, ValueFault>
    ensures { Gives value_view named result (Ok (bits_value (named_bits.ones_at places.now))) }
{
    bits_in(octets_at(alloc, places)?, bits_to_last(places))
}

/// These bits in octets: as many as the last of them needs, and zeros at all other places.
fn octets_at(alloc: Global, places: &[u16]) -> Result<Vec<u8>, AllocError>
    ensures { IfOk result (λ v. v.items ≡ octets_of_bits (named_bits.ones_at places.now)) }
{
    let mut octets = Vec::from_elem(alloc, 0u8, bits_to_last(places).div_ceil(8))?;
    for place in places {
        octets[usize::from(*place / 8)] |= bit_of_octet(*place);
    }
    Ok(octets)
}

/// The bit at this place in its octet, where the first one is the highest.
fn bit_of_octet(place: u16) -> u8
    ensures { result ≡ 2 ^ (7 - place % 8) }
{
    1 << (7 - place % 8)
}

fn bits_to_last(places: &[u16]) -> usize
    ensures { result ≡ bits_to_last places.now }
{
    let mut count = 0;
    for place in places {
        if usize::from(*place) >= count {
            count = usize::from(*place) + 1;
        }
    }
    count
}

/// The bits of a string that are kept. Where bits are named, trailing zero bits have no part in a value (22.7).
pub fn bits_kept<'a>(names: &[Named], bits: &'a [u8]) -> &'a [u8]
    ensures { result.now ≡ named_bits.bits_kept (map named_view names.now) bits.now }
{
    if names.is_empty() {
        bits
    } else {
        to_last_one(bits)
    }
}

/// The bits up to the last one that is one.
fn to_last_one(bits: &[u8]) -> &[u8]
    ensures { result.now ≡ named_bits.to_last_one bits.now }
{
    let mut count = bits.len();
    while count > 0 {
        if bits[count - 1] != 0 {
            return &bits[..count];
        }
        count -= 1;
    }
    &[]
}
