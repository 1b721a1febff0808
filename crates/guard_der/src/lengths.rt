//! How many octets the encoding of a value has, counted without writing it.
ghost use Rattle.std.specs.Prelude.{◌≡◌, ◌+◌, ◌<◌, ◌≤◌, false, length, map, chars, not, ◌&&◌, IsTrue, IfOk, IfSome, Some};
ghost use Rattle.guard_model.specs.Alphabets.{fits_characters};
ghost use Rattle.guard_model.specs.TypeView.{type_view, kind_view, component_view, components_of, presence_view};
ghost use Rattle.guard_model.specs.ValueView.{value_view, field_view, fields_view, items_view};
ghost use Rattle.guard_der.specs.Contents.{arcs_octets, character_octets};
ghost use Rattle.guard_der.specs.Der.{der, contents_octets, parts_of, alternative_octets, item_encodings};
ghost use Rattle.guard_der.specs.Element.{identifier_octets, length_octets};
ghost use Rattle.guard_der.specs.Encoding.{longest_encoding, short, short_length, header_length, length_in};
ghost use Rattle.guard_der.specs.Fits.{fits, fits_kind, fits_fields, fits_alternative, every_fits, fits_field};
ghost use Rattle.guard_der.specs.Fits.{fits_arcs};
ghost use Rattle.guard_der.specs.Octets.{base_128, fewest, signed_octets};
ghost use Rattle.guard_der.specs.ProperConstraints.{is_short};
ghost use Rattle.guard_der.specs.inside.EncodingSteps.{part_of, all_joined, sequence_octets};

use crate::encoding::LONGEST_ENCODING;
use crate::fitting::fits;
use crate::presence::is_left_out;
use guard_model::{CharKind, Comp, Kind, OutOfMemory, Presence, Tag, Ty, Value};
use std::alloc::Global;
use std::sync::Arc;

/// How many octets the encoding of the value has (X.690 clauses 8, 10 and 11), where it has at most 1,048,576; else
/// None. It takes no memory. Condition: the value is one of the type's, constraints aside, which `fits` tests.
#[cycle(lengths)]
pub fn encoded_length(ty: &Ty, value: &Value) -> Option<usize>
    requires { IsTrue (fits (type_view ty.now) (value_view value.now)) }
    ensures { result ≡ short_length (der (type_view ty.now) (value_view value.now)) }
{
    let contents = contents_length(&ty.kind, value)?;
    length_in(&ty.tags, contents)
}

/// Whether the value is one of the type's, constraints aside, and its encoding has more than 1,048,576 octets. The
/// characters of a string are looked at only where it is long. OutOfMemory is the only error.
pub fn is_too_long(alloc: Global, ty: &Ty, value: &Value) -> Result<bool, OutOfMemory>
    ensures { IfOk result (λ b. b ≡ (fits (type_view ty.now) (value_view value.now)
        && not (is_short (der (type_view ty.now) (value_view value.now))))) }
{
    if is_short_text(ty, value) {
        return Ok(false);
    }
    if !fits(alloc, ty, value)? {
        return Ok(false);
    }
    Ok(encoded_length(ty, value).is_none())
}

/// Whether this is a character string which, if it is one of the type's, has an encoding of at most 1,048,576 octets.
fn is_short_text(ty: &Ty, value: &Value) -> bool
    ensures { IsTrue result → IsTrue (fits (type_view ty.now) (value_view value.now))
        → IsTrue (is_short (der (type_view ty.now) (value_view value.now))) }
{
    match text_contents(&ty.kind, value) {
        Some(contents) => length_in(&ty.tags, contents).is_some(),
        None => false,
    }
}

/// How many contents octets a character string has, if it fits the kind. None of other values.
fn text_contents(kind: &Kind, value: &Value) -> Option<usize>
    ensures short { IfSome result (λ n. IsTrue (fits_kind (kind_view kind.now) (value_view value.now))
        → short_length (contents_octets (kind_view kind.now) (value_view value.now)) ≡ Some n) }
    ensures bound { IfSome result (λ n. n ≤ longest_encoding) }
{
    match (kind, value) {
        (Kind::Chars(kind), Value::Chars(text)) => characters_length(*kind, text),
        _ => None,
    }
}

/// How many octets the text has, if each character is in the kind's alphabet.
fn characters_length(kind: CharKind, text: &str) -> Option<usize>
    ensures short { IfSome result (λ n. IsTrue (fits_characters kind (chars text.now))
        → short (length (character_octets kind (chars text.now))) ≡ Some n) }
    ensures bound { IfSome result (λ n. n ≤ longest_encoding) }
{
    within(text.len())
}

/// How many contents octets the value has (X.690 clauses 8, 10 and 11), where it has at most 1,048,576; else None. It
/// takes no memory. Condition: the value is one of a type of the kind, constraints aside, which `fits` tests.
#[cycle(lengths)]
pub fn contents_length(kind: &Kind, value: &Value) -> Option<usize>
    requires { IsTrue (fits_kind (kind_view kind.now) (value_view value.now)) }
    ensures { result ≡ short_length (contents_octets (kind_view kind.now) (value_view value.now)) }
{
    match (kind, value) {
        (Kind::Bool, Value::Bool(_)) => within(1),
        (Kind::Int(_), Value::Int(number)) => within(integer_length(*number)),
        (Kind::Bits(_), Value::Bits(bits)) => within(bits.octets.len() + 1),
        (Kind::Octets, Value::Octets(octets)) => within(octets.len()),
        (Kind::Null, Value::Null) => within(0),
        (Kind::Oid, Value::Oid(arcs)) => arcs_length(arcs),
        (Kind::Enumerated(_), Value::Enumerated(number)) => within(integer_length(*number)),
        (Kind::Chars(kind), Value::Chars(text)) => text_length(*kind, text),
        (Kind::Sequence(comps), Value::Fields(fields)) => parts_length(comps, fields),
        (Kind::Set(comps), Value::Fields(fields)) => parts_length(comps, fields),
        (Kind::Choice(alternatives), Value::Chosen(at, value)) => {
            alternative_length(alternatives, usize::from(*at), value)
        }
        (Kind::SequenceOf(element), Value::Items(items)) => elements_length(element, items),
        (Kind::SetOf(element), Value::Items(items)) => elements_length(element, items),
        _ => None,
    }
}

/// What is sent of components has so many octets, in written order and in any other.
#[cycle(lengths)]
fn parts_length(comps: &[Comp], fields: &[Arc<Option<Value>>]) -> Option<usize>
    requires { IsTrue (fits_fields (components_of (map component_view comps.now)) (fields_view fields.now)) }
    ensures { result ≡ short_length
        (sequence_octets (parts_of (components_of (map component_view comps.now)) (fields_view fields.now))) }
{
    if comps.len() != fields.len() {
        return None;
    }
    let mut so_far = 0;
    for index in 0..comps.len() {
        let comp = &comps[index];
        let more = part_length(&comp.presence, &comp.ty, &fields[index])?;
        so_far = sum_within(so_far, more)?;
    }
    Some(so_far)
}

/// What is sent of one component has so many octets.
#[cycle(lengths)]
fn part_length(presence: &Presence, ty: &Ty, field: &Option<Value>) -> Option<usize>
    requires { IsTrue (fits_field (presence_view presence.now) (type_view ty.now) (field_view field.now)) }
    ensures { result ≡ short_length
        (sequence_octets (part_of (presence_view presence.now) (type_view ty.now) (field_view field.now))) }
{
    let Some(value) = field else {
        return Some(0);
    };
    if is_left_out(presence, value) {
        return Some(0);
    }
    encoded_length(ty, value)
}

#[cycle(lengths)]
fn alternative_length(alternatives: &[Comp], at: usize, value: &Value) -> Option<usize>
    requires { IsTrue
        (fits_alternative (components_of (map component_view alternatives.now)) at (value_view value.now)) }
    ensures { result ≡ short_length
        (alternative_octets (components_of (map component_view alternatives.now)) at (value_view value.now)) }
{
    if at >= alternatives.len() {
        return None;
    }
    encoded_length(&alternatives[at].ty, value)
}

#[cycle(lengths)]
fn elements_length(ty: &Ty, items: &[Value]) -> Option<usize>
    requires { IsTrue (every_fits (fits (type_view ty.now)) (items_view items.now)) }
    ensures { result ≡ short_length (all_joined (item_encodings (der (type_view ty.now)) (items_view items.now))) }
{
    let mut so_far = 0;
    for item in items {
        let more = encoded_length(ty, item)?;
        so_far = sum_within(so_far, more)?;
    }
    Some(so_far)
}

// ---- tags

/// How many octets so many contents octets have in their tags, the outermost first (X.690 8.1): those with the identifier
/// and length octets of each tag, where they are at most 1,048,576; else None. Condition: the contents are no more.
pub fn length_in(tags: &[Tag], contents: usize) -> Option<usize>
    requires { contents ≤ longest_encoding }
    ensures value { result ≡ length_in tags.now (Some contents) }
    ensures bound { IfSome result (λ n. n ≤ longest_encoding) }
{
    match tags {
        [] => Some(contents),
        [tag, inside @ ..] => {
            let inner = length_in(inside, contents)?;
            sum_within(inner, header_length(*tag, inner))
        }
    }
}

/// How many octets the identifier and the length have before so many octets.
fn header_length(tag: Tag, contents: usize) -> usize
    ensures { result ≡ header_length tag contents }
{
    identifier_length(tag) + length_length(contents)
}

#[tactic(auto, unfolding(crate::specs::Element::identifier_octets))]
fn identifier_length(tag: Tag) -> usize
    ensures value { result ≡ length (identifier_octets tag false) }
    ensures bound { result ≤ 20 }
{
    if tag.number < 31 {
        return 1;
    }
    base_128_length(u128::from(tag.number)) + 1
}

#[tactic(auto, unfolding(crate::specs::Element::length_octets, crate::specs::Octets::unsigned_octets))]
fn length_length(count: usize) -> usize
    ensures value { result ≡ length (length_octets count) }
    ensures bound { result ≤ 17 }
{
    if count < 128 {
        return 1;
    }
    digits(256, 256, 15, count as u128) + 1
}

// ---- simple kinds

#[tactic(auto, unfolding(crate::specs::Octets::signed_octets))]
fn integer_length(number: i128) -> usize
    ensures { result ≡ length (signed_octets number) }
{
    if number >= 0 {
        digits(256, 128, 15, number as u128)
    } else {
        digits(256, 128, 15, (-1 - number) as u128)
    }
}

/// How many octets the text has. Condition: each character is in the kind's alphabet.
fn text_length(kind: CharKind, text: &str) -> Option<usize>
    requires { IsTrue (fits_characters kind (chars text.now)) }
    ensures { result ≡ short (length (character_octets kind (chars text.now))) }
{
    within(text.len())
}

/// How many octets the subidentifiers have. Condition: an OBJECT IDENTIFIER may have these arcs.
fn arcs_length(arcs: &[u128]) -> Option<usize>
    requires { IsTrue (fits_arcs arcs.now) }
    ensures { result ≡ short (length (arcs_octets arcs.now)) }
{
    let [first, second, others @ ..] = arcs else {
        return Some(0);
    };
    let mut so_far = base_128_length(40 * *first + *second);
    for arc in others {
        so_far = sum_within(so_far, base_128_length(*arc))?;
    }
    Some(so_far)
}

#[tactic(auto, unfolding(crate::specs::Octets::base_128))]
fn base_128_length(number: u128) -> usize
    ensures value { result ≡ length (base_128 number) }
    ensures bound { result ≤ 19 }
{
    if number < 128 {
        return 1;
    }
    digits(128, 128, 17, number / 128) + 1
}

/// How many digits the number has to the base, the first of several below the limit: at most so many before the last.
#[tactic(auto, unfolding(crate::specs::Octets::fewest))]
fn digits(base: u128, limit: u128, more: u8, number: u128) -> usize
    requires some { 0 < base }
    ensures value { result ≡ length (fewest base limit more number) }
    ensures bound { result ≤ more + 1 }
{
    if more == 0 || number < limit {
        1
    } else {
        digits(base, limit, more - 1, number / base) + 1
    }
}

// ---- the limit

fn within(count: usize) -> Option<usize>
    ensures value { result ≡ short count }
    ensures bound { IfSome result (λ n. n ≤ longest_encoding) }
{
    if count <= LONGEST_ENCODING {
        Some(count)
    } else {
        None
    }
}

fn sum_within(so_far: usize, more: usize) -> Option<usize>
    requires { so_far ≤ longest_encoding }
    ensures value { result ≡ short (so_far + more) }
    ensures bound { IfSome result (λ n. n ≤ longest_encoding) }
{
    if more <= LONGEST_ENCODING - so_far {
        Some(so_far + more)
    } else {
        None
    }
}
