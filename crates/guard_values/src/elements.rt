//! Elements of OF types: their number, their order and their encodings.
ghost use Rattle.std.specs.Prelude.{◌≡◌, [], ◌∷◌, map, IsTrue, IfOk, Some, if◌then◌else◌};
ghost use Rattle.guard_model.specs.Answer.{Gives};
ghost use Rattle.guard_model.specs.TypeView.{type_view};
ghost use Rattle.guard_model.specs.ValueView.{value_view};
ghost use Rattle.guard_der.specs.Der.{der};
ghost use Rattle.guard_der.specs.Fits.{fits};
ghost use Rattle.guard_syntax.specs.Trees.{entries_of};
ghost use Rattle.guard_syntax.specs.Views as trees;
ghost use Rattle.guard_values.specs.Arrangement.{AreEncodings, encoded_value};
ghost use Rattle.guard_values.specs.Forms.{are_too_few_arcs};
ghost use Rattle.guard_values.specs.inside.Reading as reading;
ghost use Rattle.guard_values.specs.inside.Reading.{limited};
ghost use Rattle.guard_values.specs.Views.{named, encoded_view};

use crate::arrangement::{Encoded, arranged};
use crate::fault::ValueFault;
use guard_der::{EncodeFault, encode};
use guard_model::{MOST_ITEMS, Site, Ty, Value};
use guard_syntax::{EntryTree, ValueForm};
use std::alloc::Global;
use std::sync::ArcSlice;

/// How many octets are left for the elements after this entry's, which has so many: where nothing is sorted they aren't
/// counted, and as many are left as before.
pub fn room_after(
    sorted: bool,
    entry: &EntryTree,
    room: usize,
    length: Option<usize>,
) -> Result<usize, ValueFault>
    ensures { Gives (λ n. n) named result (if sorted then reading.room_without
        (reading.site_of (trees.entry_view entry.now).value) room length else Ok room) }
{
    if sorted {
        room_without(entry, room, length)
    } else {
        Ok(room)
    }
}

/// How many octets are left after an element with so many, or with more than an encoding may have.
pub fn room_without(
    entry: &EntryTree,
    room: usize,
    length: Option<usize>,
) -> Result<usize, ValueFault>
    ensures { Gives (λ n. n) named result
        (reading.room_without (reading.site_of (trees.entry_view entry.now).value) room length) }
{
    let Some(length) = length else {
        return Err(ValueFault::TooLarge(entry.value_site()));
    };
    if length > room {
        return Err(ValueFault::TooLarge(entry.value_site()));
    }
    Ok(room - length)
}

/// What a list has of an element: the value, or NULL where nothing is kept.
pub fn kept(sorted: bool, value: Value) -> Value
    ensures { value_view result ≡ reading.kept sorted (value_view value) }
{
    if sorted { value } else { Value::Null }
}

/// A value of a SEQUENCE OF.
pub fn listed(site: Site, elements: Vec<Value>) -> Result<Value, ValueFault>
    ensures { Gives value_view named result (reading.listed site (map value_view elements.items)) }
{
    if elements.len() > MOST_ITEMS {
        return Err(ValueFault::TooLarge(site));
    }
    let shared = ArcSlice::from_vec(elements)?;
    Ok(Value::Items(shared))
}

/// A value of a SET OF: its elements as their encodings ascend.
pub fn listed_set(
    alloc: Global,
    site: Site,
    ty: &Ty,
    elements: Vec<Encoded>,
) -> Result<Value, ValueFault>
    requires { AreEncodings (type_view ty.now) (map encoded_view elements.items) }
    ensures { Gives value_view named result
        (reading.listed_set site (type_view ty.now) (map encoded_value (map encoded_view elements.items))) }
{
    if elements.len() > MOST_ITEMS {
        return Err(ValueFault::TooLarge(site));
    }
    let shared = ArcSlice::from_vec(arranged(alloc, elements)?)?;
    Ok(Value::Items(shared))
}

/// The value at the site with its encoding, of at most 1,048,576 octets.
pub fn encoded(alloc: Global, ty: &Ty, site: Site, value: Value) -> Result<Encoded, ValueFault>
    requires { IsTrue (fits (type_view ty.now) (value_view value)) }
    ensures encoding { IfOk result (λ e. der (type_view ty.now) (value_view e.value) ≡ Some e.octets.items) }
    ensures given { Gives (λ e. value_view e.value) named result (limited site (type_view ty.now) (value_view value)) }
{
    let octets = encoding(alloc, ty, site, &value)?;
    Ok(Encoded { octets, value })
}

/// The encoding of the value at the site, of at most 1,048,576 octets.
fn encoding(alloc: Global, ty: &Ty, site: Site, value: &Value) -> Result<Vec<u8>, ValueFault>
    requires { IsTrue (fits (type_view ty.now) (value_view value.now)) }
    ensures encoding { IfOk result (λ octets. der (type_view ty.now) (value_view value.now) ≡ Some octets.items) }
    ensures given { Gives (λ octets. value_view value.now) named result
        (limited site (type_view ty.now) (value_view value.now)) }
{
    match encode(alloc, ty, value) {
        Ok(octets) => Ok(octets),
        Err(EncodeFault::TooLong) => Err(ValueFault::TooLarge(site)),
        Err(EncodeFault::OutOfMemory) => Err(ValueFault::OutOfMemory),
    }
}

/// Nothing, or one number without a minus sign, looks like an object identifier with too few arcs.
pub fn object_identifier_fault(site: Site, entries: &[EntryTree]) -> ValueFault
    ensures { result ≡ (if are_too_few_arcs (entries_of (map trees.entry_view entries.now)) then ValueFault.BadObjectId
        site else ValueFault.WrongNotation site) }
{
    if are_too_few_arcs(entries) {
        ValueFault::BadObjectId(site)
    } else {
        ValueFault::WrongNotation(site)
    }
}

fn are_too_few_arcs(entries: &[EntryTree]) -> bool
    ensures { result ≡ are_too_few_arcs (entries_of (map trees.entry_view entries.now)) }
{
    match entries {
        [] => true,
        [entry] => is_arc(entry),
        _ => false,
    }
}

/// A number without a minus sign, and without a name before it.
fn is_arc(entry: &EntryTree) -> bool
    ensures { result ≡ are_too_few_arcs (entries_of (trees.entry_view entry.now ∷ [])) }
{
    match entry {
        EntryTree::Alone(value) => match &value.form {
            ValueForm::Integer(minus, _, _) => !*minus,
            _ => false,
        },
        EntryTree::Named(_, _) => false,
    }
}
