//! A value as JSON.
ghost use Rattle.std.specs.Prelude.{◌≡◌, ◌++◌, ◌∷◌, [], IfOk, OnOk, decimal, map, option_map, string_bytes};
ghost use Rattle.std.specs.Prelude.{◌-◌, ◌*◌, chars, flat_map, length, Some};
ghost use Rattle.std.specs.Str.{encode_utf8_all};
ghost use Rattle.std.specs.Fmt.{signed_decimal};
ghost use Rattle.std.specs.Arc.{arc_slice_items};
ghost use Rattle.hex.specs.Hex.{encode_upper};
ghost use Rattle.json.specs.Print.{IsPrintable};
ghost use Rattle.json.specs.Reads.{token_of};
ghost use Rattle.json.specs.Token.{begin_array, begin_object, end_array, end_object, key, number, string};
ghost use Rattle.guard_model.specs.declared.site.Step.TheVariants.{Component};
ghost use Rattle.guard_model.specs.TypeView.{type_view, named_view};
ghost use Rattle.guard_model.specs.ValueView.{value_view, fields_view, items_view};
ghost use Rattle.guard_report.specs.Strings.{name_of};
ghost use Rattle.guard_report.specs.Text.{element_type, type_within};
ghost use Rattle.guard_report.specs.ValueText.{part_name};
ghost use Rattle.guard_messages.specs.ValueJson.{ascii_text, bits_json, dotted, elements_json, escaped_unit, in_ascii};
ghost use Rattle.guard_messages.specs.ValueJson.{item_json, members_json, value_json};

use guard_model::{Bits, Named, OutOfMemory, Ty, Value};
use guard_report::{add, component_at, element_type, items_known, name_of, part_type};
use itoa::Buffer;
use json::{Token, Writer};
use std::alloc::Global;
use std::str::from_utf8;
use std::sync::Arc;

/// The text of a value of the type, in ASCII alone.
pub fn value_json(alloc: Global, ty: &Ty, value: &Value) -> Result<Vec<u8>, OutOfMemory>
    ensures { IfOk result (λ text. text.items
        ≡ ascii_text (value_json (Some (type_view ty.now)) (value_view value.now))) }
{
    let mut writer = Writer::new(Vec::new(alloc));
    add_value(alloc, &mut writer, Some(ty), value)?;
    let text = writer.into_inner();
    match from_utf8(&text) {
        Ok(text) => in_ascii(alloc, text),
        Err(_) => unreachable!(),
    }
}

/// The text in ASCII alone. Characters that ASCII doesn't print are escaped.
fn in_ascii(alloc: Global, text: &str) -> Result<Vec<u8>, OutOfMemory>
    ensures { IfOk result (λ out. out.items ≡ flat_map in_ascii (chars text.now)) }
{
    let mut out = Vec::new(alloc);
    for character in text.chars() {
        add_in_ascii(alloc, &mut out, character)?;
    }
    Ok(out)
}

fn add_in_ascii(alloc: Global, out: &mut Vec<u8>, character: char) -> Result<(), OutOfMemory>
    ensures { OnOk result (out.new.items ≡ out.old.items ++ in_ascii character) }
{
    let code = u32::from(character);
    if code < 0x7f {
        return add(out, &[code as u8]);
    }
    if code < 0x10000 {
        return add_unit(alloc, out, code as u16);
    }
    let above = code - 0x10000;
    add_unit(alloc, out, (0xd800 + above / 0x400) as u16)?;
    add_unit(alloc, out, (0xdc00 + above % 0x400) as u16)
}

/// Adds a unit of UTF-16 as an escape.
fn add_unit(alloc: Global, out: &mut Vec<u8>, unit: u16) -> Result<(), OutOfMemory>
    ensures { OnOk result (out.new.items ≡ out.old.items ++ escaped_unit unit) }
{
    let digits = hex::encode(alloc, unit.to_be_bytes().as_slice())?;
    add(out, b"\\u")?;
    add(out, digits.as_bytes())
}

/// Writes the value, with the names that its type has, where one is known.
#[cycle(values)]
fn add_value(
    alloc: Global,
    writer: &mut Writer,
    ty: Option<&Ty>,
    value: &Value,
) -> Result<(), OutOfMemory>
    ensures tokens { OnOk result (writer.new.tokens ≡ writer.old.tokens
        ++ value_json (option_map (λ ty. type_view ty.now) ty.entry) (value_view value.now)) }
    ensures before { writer.new.before ≡ writer.old.before }
{
    match value {
        Value::Bool(truth) => put(writer, Token::Bool(*truth)),
        Value::Int(number) => put_integer(writer, *number),
        Value::Enumerated(number) => put_item(writer, items_known(ty), *number),
        Value::Null => put(writer, Token::Null),
        Value::Bits(bits) => put_bits(alloc, writer, bits),
        Value::Octets(octets) => put_octets(alloc, writer, octets),
        Value::Oid(arcs) => put_arcs(alloc, writer, arcs),
        Value::Chars(string) => put_characters(writer, string),
        Value::Fields(fields) => add_fields(alloc, writer, ty, fields),
        Value::Items(items) => add_items(alloc, writer, element_type(ty), items),
        Value::Chosen(place, inner) => add_chosen(alloc, writer, ty, usize::from(*place), inner),
    }
}

/// Writes an object of the components that are there.
#[cycle(values)]
fn add_fields(
    alloc: Global,
    writer: &mut Writer,
    ty: Option<&Ty>,
    fields: &[Arc<Option<Value>>],
) -> Result<(), OutOfMemory>
    ensures tokens { OnOk result (writer.new.tokens ≡ writer.old.tokens
        ++ begin_object ∷ (members_json (option_map (λ ty. type_view ty.now) ty.entry) 0 (fields_view fields.now)
        ++ end_object ∷ [])) }
    ensures before { writer.new.before ≡ writer.old.before }
{
    put(writer, Token::BeginObject)?;
    for (place, field) in fields.iter().enumerate() {
        if let Some(value) = field.as_ref() {
            add_member(alloc, writer, ty, place, value)?;
        }
    }
    put(writer, Token::EndObject)?;
    Ok(())
}

/// Writes an array of the elements, each of this type, where one is known.
#[cycle(values)]
fn add_items(
    alloc: Global,
    writer: &mut Writer,
    ty: Option<&Ty>,
    items: &[Value],
) -> Result<(), OutOfMemory>
    ensures tokens { OnOk result (writer.new.tokens ≡ writer.old.tokens
        ++ begin_array ∷ (elements_json (option_map (λ ty. type_view ty.now) ty.entry) (items_view items.now)
        ++ end_array ∷ [])) }
    ensures before { writer.new.before ≡ writer.old.before }
{
    put(writer, Token::BeginArray)?;
    for item in items {
        add_value(alloc, writer, ty, item)?;
    }
    put(writer, Token::EndArray)?;
    Ok(())
}

/// Writes an object of the alternative at this place of the type.
#[cycle(values)]
fn add_chosen(
    alloc: Global,
    writer: &mut Writer,
    ty: Option<&Ty>,
    place: usize,
    value: &Value,
) -> Result<(), OutOfMemory>
    ensures tokens { let t = option_map (λ ty. type_view ty.now) ty.entry in
        OnOk result (writer.new.tokens ≡ writer.old.tokens ++ begin_object ∷ key (part_name t place)
        ∷ (value_json (type_within t (Component place)) (value_view value.now) ++ end_object ∷ [])) }
    ensures before { writer.new.before ≡ writer.old.before }
{
    put(writer, Token::BeginObject)?;
    add_member(alloc, writer, ty, place, value)?;
    put(writer, Token::EndObject)?;
    Ok(())
}

/// Writes the name of the component or alternative at this place of the type, and its value.
#[cycle(values)]
fn add_member(
    alloc: Global,
    writer: &mut Writer,
    ty: Option<&Ty>,
    place: usize,
    value: &Value,
) -> Result<(), OutOfMemory>
    ensures tokens { let t = option_map (λ ty. type_view ty.now) ty.entry in
        OnOk result (writer.new.tokens ≡ writer.old.tokens ++ key (part_name t place)
        ∷ value_json (type_within t (Component place)) (value_view value.now)) }
    ensures before { writer.new.before ≡ writer.old.before }
{
    put_part_name(writer, ty, place)?;
    add_value(alloc, writer, part_type(ty, place), value)?;
    Ok(())
}

// ---- tokens

/// Writes a token.
fn put(writer: &mut Writer, token: Token<'_>) -> Result<(), OutOfMemory>
    requires { IsPrintable (token_of token) }
    ensures tokens { OnOk result (writer.new.tokens ≡ writer.old.tokens ++ token_of token.entry ∷ []) }
    ensures before { writer.new.before ≡ writer.old.before }
{
    writer.token(token)?;
    Ok(())
}

/// Writes the name of the component or alternative at this place of the type, or its number where there is none.
fn put_part_name(writer: &mut Writer, ty: Option<&Ty>, place: usize) -> Result<(), OutOfMemory>
    ensures tokens { OnOk result (writer.new.tokens ≡ writer.old.tokens
        ++ key (part_name (option_map (λ ty. type_view ty.now) ty.entry) place) ∷ []) }
    ensures before { writer.new.before ≡ writer.old.before }
{
    match component_at(ty, place) {
        Some(comp) => put(writer, Token::Key(&comp.name)),
        None => {
            let mut buffer = Buffer::new();
            put(writer, Token::Key(buffer.format(place)))
        }
    }
}

fn put_integer(writer: &mut Writer, value: i128) -> Result<(), OutOfMemory>
    ensures tokens { OnOk result (writer.new.tokens ≡ writer.old.tokens ++ number (signed_decimal value) ∷ []) }
    ensures before { writer.new.before ≡ writer.old.before }
{
    let mut buffer = Buffer::new();
    put(writer, Token::Number(buffer.format(value)))
}

/// Writes an item by its name, or its number where there is none.
fn put_item(writer: &mut Writer, items: &[Named], number: i128) -> Result<(), OutOfMemory>
    ensures tokens { OnOk result (writer.new.tokens ≡ writer.old.tokens
        ++ item_json (name_of (map named_view items.now) number) number ∷ []) }
    ensures before { writer.new.before ≡ writer.old.before }
{
    match name_of(items, number) {
        Some(name) => put(writer, Token::String(name)),
        None => put_integer(writer, number),
    }
}

fn put_characters(writer: &mut Writer, text: &str) -> Result<(), OutOfMemory>
    ensures tokens { OnOk result (writer.new.tokens
        ≡ writer.old.tokens ++ string (encode_utf8_all (chars text.now)) ∷ []) }
    ensures before { writer.new.before ≡ writer.old.before }
{
    put(writer, Token::String(text))
}

/// Writes the octets in hexadecimal.
fn put_octets(alloc: Global, writer: &mut Writer, octets: &[u8]) -> Result<(), OutOfMemory>
    ensures tokens { OnOk result (writer.new.tokens ≡ writer.old.tokens ++ string (encode_upper octets.now) ∷ []) }
    ensures before { writer.new.before ≡ writer.old.before }
{
    let digits = hex::encode_upper(alloc, octets)?;
    put(writer, Token::String(&digits))
}

/// Writes an object of the octets and the number of bits.
fn put_bits(alloc: Global, writer: &mut Writer, bits: &Bits) -> Result<(), OutOfMemory>
    ensures tokens { OnOk result (writer.new.tokens ≡ writer.old.tokens
        ++ bits_json (arc_slice_items bits.now.octets) bits.now.unused) }
    ensures before { writer.new.before ≡ writer.old.before }
{
    put(writer, Token::BeginObject)?;
    put(writer, Token::Key("value"))?;
    put_octets(alloc, writer, bits.octets.as_slice())?;
    put(writer, Token::Key("length"))?;
    put_length(writer, bits.octets.as_slice(), bits.unused)?;
    put(writer, Token::EndObject)?;
    Ok(())
}

/// Writes how many bits the octets have, without the unused ones.
fn put_length(writer: &mut Writer, octets: &[u8], unused: u8) -> Result<(), OutOfMemory>
    ensures tokens { OnOk result (writer.new.tokens ≡ writer.old.tokens
        ++ number (decimal (8 * length octets.now - unused)) ∷ []) }
    ensures before { writer.new.before ≡ writer.old.before }
{
    let bits = (8 * octets.len() as u128).saturating_sub(u128::from(unused));
    let mut buffer = Buffer::new();
    put(writer, Token::Number(buffer.format(bits)))
}

/// Writes the arcs of an object identifier.
fn put_arcs(alloc: Global, writer: &mut Writer, arcs: &[u128]) -> Result<(), OutOfMemory>
    ensures tokens { OnOk result (writer.new.tokens ≡ writer.old.tokens ++ string (dotted arcs.now) ∷ []) }
    ensures before { writer.new.before ≡ writer.old.before }
{
    let text = dotted(alloc, arcs)?;
    put(writer, Token::String(&text))
}

/// The arcs with dots between them.
fn dotted(alloc: Global, arcs: &[u128]) -> Result<String, OutOfMemory>
    ensures { IfOk result (λ text. string_bytes text ≡ dotted arcs.now) }
{
    let mut text = String::new(alloc);
    let [first, others @ ..] = arcs else {
        return Ok(text);
    };
    add_arc(&mut text, *first)?;
    for arc in others {
        text.push_str(".")?;
        add_arc(&mut text, *arc)?;
    }
    Ok(text)
}

fn add_arc(text: &mut String, arc: u128) -> Result<(), OutOfMemory>
    ensures { OnOk result (string_bytes text.new ≡ string_bytes text.old ++ decimal arc) }
{
    let mut buffer = Buffer::new();
    text.push_str(buffer.format(arc))?;
    Ok(())
}
