//! Where the encodings of a value's parts begin in the octets of a message.
ghost use Rattle.std.specs.Prelude.{◌≡◌, ◌≤◌, length, option_map, IfSome};
ghost use Rattle.guard_model.specs.TypeView.{type_view};
ghost use Rattle.guard_model.specs.ValueView.{value_view};
ghost use Rattle.guard_report.specs.Places.{header_there, inside_element, after_element, inside_tags, inside_value};
ghost use Rattle.guard_report.specs.Places.{is_set, has_tag, element_with, component_place, next_place};
ghost use Rattle.guard_report.specs.Text.{component_of};

use super::path::component_at;
use guard_der::{Header, header, is_left_out, outermost};
use guard_model::{Kind, MOST_COMPONENTS, Tag, Ty, Value};

/// The header of the element that begins at the offset; None without an offset, and where the octets have none there.
pub fn header_there(octets: &[u8], at: Option<usize>) -> Option<Header>
    ensures header { result ≡ header_there octets.now at }
    ensures within { IfSome at (λ at. IfSome result (λ h. (at ≤ h.end) × (h.end ≤ length octets.now))) }
{
    let at = at?;
    if octets.len() < at {
        return None;
    }
    header(octets, at).ok()
}

/// The offset of the contents of the element that begins at the offset `at`; None where none begins there.
fn inside_element(octets: &[u8], at: Option<usize>) -> Option<usize>
    ensures { result ≡ inside_element octets.now at }
{
    Some(header_there(octets, at)?.contents)
}

/// The offset after the element that begins at the offset `at`; None where none begins there.
pub fn after_element(octets: &[u8], at: Option<usize>) -> Option<usize>
    ensures { result ≡ after_element octets.now at }
{
    Some(header_there(octets, at)?.end)
}

fn inside_tags(octets: &[u8], tags: &[Tag], at: Option<usize>) -> Option<usize>
    ensures { result ≡ inside_tags octets.now tags.now at }
{
    let mut inner = at;
    for _tag in tags {
        inner = inside_element(octets, inner);
    }
    inner
}

/// The offset of the contents, inside all tags, of a value of the type whose encoding begins at the offset `at`; None
/// where no element begins there.
pub fn inside_value(octets: &[u8], ty: Option<&Ty>, at: Option<usize>) -> Option<usize>
    ensures { result ≡ inside_value octets.now (option_map (λ ty. type_view ty.now) ty.entry) at }
{
    match ty {
        Some(ty) => inside_tags(octets, &ty.tags, at),
        None => at,
    }
}

// ---- components

/// The offset of the encoding of the component at this place with this value; None where it isn't sent. `next` is the
/// offset of a SET's first element, or, in a SEQUENCE, of what comes after the elements that are sent before it.
pub fn component_place(
    octets: &[u8],
    ty: Option<&Ty>,
    place: usize,
    value: &Value,
    next: Option<usize>,
) -> Option<usize>
    ensures { let t = option_map (λ ty. type_view ty.now) ty.entry in
        result ≡ component_place octets.now (is_set t) (component_of t place) (value_view value.now) next }
{
    let comp = component_at(ty, place)?;
    if is_left_out(&comp.presence, value) {
        return None;
    }
    if is_set(ty) {
        element_with(octets, outermost(&comp.ty, value), MOST_COMPONENTS, next)
    } else {
        next
    }
}

/// The `next` of `component_place` for the component after one whose encoding begins at the offset `at`.
pub fn next_place(
    octets: &[u8],
    ty: Option<&Ty>,
    at: Option<usize>,
    next: Option<usize>,
) -> Option<usize>
    ensures { result ≡ next_place octets.now (is_set (option_map (λ ty. type_view ty.now) ty.entry)) at next }
{
    if is_set(ty) || at.is_none() {
        next
    } else {
        after_element(octets, at)
    }
}

fn is_set(ty: Option<&Ty>) -> bool
    ensures { result ≡ is_set (option_map (λ ty. type_view ty.now) ty.entry) }
{
    let Some(ty) = ty else { return false };
    match &ty.kind {
        Kind::Set(_) => true,
        _ => false,
    }
}

/// The offset of the first element with this tag, of so many elements from an offset on; None where there is none.
#[tactic(auto, using(crate::proofs::Tries::one_more_try))]
fn element_with(octets: &[u8], tag: Tag, tries: usize, from: Option<usize>) -> Option<usize>
    ensures { result ≡ element_with octets.now tag tries from }
{
    let mut at = from;
    for _ in 0..tries {
        if has_tag(tag, header_there(octets, at)) {
            return at;
        }
        at = after_element(octets, at);
    }
    None
}

fn has_tag(tag: Tag, header: Option<Header>) -> bool
    ensures { result ≡ has_tag tag header }
{
    match header {
        Some(header) => header.tag == tag,
        None => false,
    }
}
