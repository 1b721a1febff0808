//! The text of a value in ASN.1 value notation.
ghost use Rattle.std.specs.Prelude.{◌≡◌, ◌++◌, OnOk, decimal, map, option_map};
ghost use Rattle.std.specs.Fmt.{signed_decimal};
ghost use Rattle.guard_model.specs.declared.site.Step.TheVariants.{Component};
ghost use Rattle.guard_model.specs.TypeView.{type_view, named_view};
ghost use Rattle.guard_model.specs.ValueView.{value_view, fields_view, items_view};
ghost use Rattle.guard_report.specs.Layouts.{inside, in_braces};
ghost use Rattle.guard_report.specs.Strings.{name_of};
ghost use Rattle.guard_report.specs.Text.{part_name, type_within};
ghost use Rattle.guard_report.specs.ValueText.{value_octets, field_texts, element_texts, boolean_text, item_text};
ghost use Rattle.guard_report.specs.ValueText.{arcs_text, items_known, bits_known, characters_known};

use super::characters::add_characters;
use super::layout::{Layout, add_before_part, add_closing};
use super::path::{add_part_name, element_type, part_type};
use super::strings::{add_bits, add_hexadecimal, name_of};
use super::words::add;
use guard_model::{CharKind, Kind, Named, OutOfMemory, Ty, Value};
use itoa::Buffer;
use std::alloc::Global;
use std::sync::Arc;

/// Appends the value in ASN.1 value notation, with the names that its type has, where one is known.
#[cycle(values)]
pub(crate) fn add_value(
    alloc: Global,
    text: &mut Vec<u8>,
    layout: Layout,
    ty: Option<&Ty>,
    value: &Value,
) -> Result<(), OutOfMemory>
    ensures { OnOk result (text.new.items
        ≡ text.old.items ++ value_octets layout (option_map (λ ty. type_view ty.now) ty.entry) (value_view value.now)) }
{
    match value {
        Value::Bool(truth) => add_truth(text, *truth),
        Value::Int(number) => add_integer(text, *number),
        Value::Enumerated(number) => add_item(text, items_known(ty), *number),
        Value::Null => add(text, b"NULL"),
        Value::Bits(bits) => add_bits(alloc, text, bits_known(ty), bits),
        Value::Octets(octets) => add_hexadecimal(text, octets),
        Value::Oid(arcs) => add_arcs(text, arcs),
        Value::Chars(string) => add_characters(text, characters_known(ty), string),
        Value::Fields(fields) => add_fields(alloc, text, layout, ty, fields),
        Value::Items(items) => add_elements(alloc, text, layout, element_type(ty), items),
        Value::Chosen(place, inner) => {
            add_part(alloc, text, layout, ty, usize::from(*place), b": ", inner)
        }
    }
}

/// Appends the components that are there, each with its name, in braces.
#[cycle(values)]
fn add_fields(
    alloc: Global,
    text: &mut Vec<u8>,
    layout: Layout,
    ty: Option<&Ty>,
    fields: &[Arc<Option<Value>>],
) -> Result<(), OutOfMemory>
    ensures { OnOk result (text.new.items ≡ text.old.items ++ in_braces layout
        (field_texts (inside layout) (option_map (λ ty. type_view ty.now) ty.entry) 0 (fields_view fields.now))) }
{
    add(text, b"{")?;
    let mut is_first = true;
    for (place, field) in fields.iter().enumerate() {
        if let Some(value) = field.as_ref() {
            add_before_part(text, layout.inside(), is_first)?;
            add_part(alloc, text, layout.inside(), ty, place, b" ", value)?;
            is_first = false;
        }
    }
    add_closing(text, layout, is_first)
}

/// Appends the elements in braces.
#[cycle(values)]
fn add_elements(
    alloc: Global,
    text: &mut Vec<u8>,
    layout: Layout,
    ty: Option<&Ty>,
    items: &[Value],
) -> Result<(), OutOfMemory>
    ensures { OnOk result (text.new.items ≡ text.old.items ++ in_braces layout
        (element_texts (inside layout) (option_map (λ ty. type_view ty.now) ty.entry) (items_view items.now))) }
{
    add(text, b"{")?;
    let mut is_first = true;
    for item in items {
        add_before_part(text, layout.inside(), is_first)?;
        add_value(alloc, text, layout.inside(), ty, item)?;
        is_first = false;
    }
    add_closing(text, layout, is_first)
}

/// Appends the name of the component or alternative at this place of the type, the mark after it, and its value.
#[cycle(values)]
fn add_part(
    alloc: Global,
    text: &mut Vec<u8>,
    layout: Layout,
    ty: Option<&Ty>,
    place: usize,
    mark: &[u8],
    value: &Value,
) -> Result<(), OutOfMemory>
    ensures { let t = option_map (λ ty. type_view ty.now) ty.entry in
        OnOk result (text.new.items ≡ text.old.items ++ (part_name t place ++ mark.now
        ++ value_octets layout (type_within t (Component place)) (value_view value.now))) }
{
    add_part_name(text, ty, place)?;
    add(text, mark)?;
    add_value(alloc, text, layout, part_type(ty, place), value)
}

// ---- simple values

fn add_truth(text: &mut Vec<u8>, truth: bool) -> Result<(), OutOfMemory>
    ensures { OnOk result (text.new.items ≡ text.old.items ++ boolean_text truth) }
{
    if truth {
        add(text, b"TRUE")
    } else {
        add(text, b"FALSE")
    }
}

fn add_integer(text: &mut Vec<u8>, number: i128) -> Result<(), OutOfMemory>
    ensures { OnOk result (text.new.items ≡ text.old.items ++ signed_decimal number) }
{
    let mut buffer = Buffer::new();
    add(text, buffer.format(number).as_bytes())
}

/// Appends an item by its name, or its number where there is none.
fn add_item(text: &mut Vec<u8>, items: &[Named], number: i128) -> Result<(), OutOfMemory>
    ensures { OnOk result (text.new.items
        ≡ text.old.items ++ item_text (name_of (map named_view items.now) number) number) }
{
    match name_of(items, number) {
        Some(name) => add(text, name.as_bytes()),
        None => add_integer(text, number),
    }
}

/// Appends the arcs of an object identifier.
fn add_arcs(text: &mut Vec<u8>, arcs: &[u128]) -> Result<(), OutOfMemory>
    ensures { OnOk result (text.new.items ≡ text.old.items ++ arcs_text arcs.now) }
{
    let [first, others @ ..] = arcs else {
        return add(text, b"{}");
    };
    add(text, b"{")?;
    add_arc(text, *first)?;
    for arc in others {
        add(text, b" ")?;
        add_arc(text, *arc)?;
    }
    add(text, b"}")
}

fn add_arc(text: &mut Vec<u8>, arc: u128) -> Result<(), OutOfMemory>
    ensures { OnOk result (text.new.items ≡ text.old.items ++ decimal arc) }
{
    let mut buffer = Buffer::new();
    add(text, buffer.format(arc).as_bytes())
}

// ---- what the type knows

/// The items of an ENUMERATED (X.680 clause 20); none where no type is known, or of another one.
pub fn items_known(ty: Option<&Ty>) -> &[Named]
    ensures { map named_view result.now ≡ items_known (option_map (λ ty. type_view ty.now) ty.entry) }
{
    let Some(ty) = ty else { return &[] };
    match &ty.kind {
        Kind::Enumerated(items) => items.as_slice(),
        _ => &[],
    }
}

/// The named bits of a BIT STRING; none where no type is known, or of another one.
fn bits_known(ty: Option<&Ty>) -> &[Named]
    ensures { map named_view result.now ≡ bits_known (option_map (λ ty. type_view ty.now) ty.entry) }
{
    let Some(ty) = ty else { return &[] };
    match &ty.kind {
        Kind::Bits(names) => names.as_slice(),
        _ => &[],
    }
}

/// The kind of a character string; None where no type is known, or of another one.
fn characters_known(ty: Option<&Ty>) -> Option<CharKind>
    ensures { result ≡ characters_known (option_map (λ ty. type_view ty.now) ty.entry) }
{
    match &ty?.kind {
        Kind::Chars(kind) => Some(*kind),
        _ => None,
    }
}
