//! The value that octets encode, or their breach.
ghost use Rattle.std.specs.Prelude.{◌≡◌, ◌+◌, ◌<◌, ◌≤◌, ◌^◌, [], length, map};
ghost use Rattle.std.specs.Prelude.{Some, None, Ok, Err, IfOk, IfErr, IfSome, IsTrue};
ghost use Rattle.std.specs.Arc.{arc_slice_items};
ghost use Rattle.guard_model.specs.Answer.{Gives};
ghost use Rattle.guard_model.specs.AbstractType.{type_of, no_constraints};
ghost use Rattle.guard_model.specs.AbstractValue.{AbstractValue};
ghost use Rattle.guard_model.specs.Slots.{all_absent};
ghost use Rattle.guard_model.specs.TypeView.{type_view, kind_view, component_view, components_of, presence_view};
ghost use Rattle.guard_model.specs.ValueView.{value_view, field_view, fields_view, items_view};
ghost use Rattle.guard_tagcheck.specs.FirstTags.{begins_with};
ghost use Rattle.guard_tagcheck.specs.Limits.{nesting, nesting_inside, deepest};
ghost use Rattle.guard_der.specs.Head.{head_of};
ghost use Rattle.guard_der.specs.Der.{der};
ghost use Rattle.guard_der.specs.Fits.{fits};
ghost use Rattle.guard_der.specs.Sound.{is_sound, is_proper, is_proper_kind, are_proper};
ghost use Rattle.guard_der.specs.Breach.{AbstractBreach, IsBreach};
ghost use Rattle.guard_der.specs.Reading.{alone_at, component_at, element_at, untagged_at, contents_at};
ghost use Rattle.guard_der.specs.Reading.{chosen_at, part_at, fields_at, item_alone, item_at, items_at, message_of};
ghost use Rattle.guard_der.specs.Reading.{sent_at, set_element_at, set_at};
ghost use Rattle.guard_der.specs.Views.{head_view, breach_of};
ghost use Rattle.guard_der.specs.inside.Faults.{fault_of};

mod set;

use crate::breach::{Breach, Code, DecodeFault};
use crate::contents::value_of_simple;
use crate::decoding::set::{completed, place_of};
use crate::faults::{Fault, due, end, fault_at, header_at_front, wrong_form};
use crate::forms::{is_constructed, is_form};
use crate::head::Head;
use crate::order::is_out_of_order;
use crate::presence::{is_left_out, not_sent};
use crate::tags::one_with;
use guard_model::{Comp, Kind, Path, Presence, Step, Tag, Ty, Value, absent_fields, set_field};
use guard_tagcheck::begins_with;
use std::alloc::Global;
use std::sync::{Arc, ArcSlice};

/// The value of the type whose encoding (X.690 clauses 8, 10 and 11) the octets are, all of them. Constraints aren't
/// looked at. Condition: the type is sound, which `sound` tests.
///
/// Where the octets encode no value of the type, the error is their breach: the first place at fault from left to
/// right, with one of the codes of `Code`. OutOfMemory may come in place of any answer.
pub fn decode(alloc: Global, ty: &Ty, octets: &[u8]) -> Result<Value, DecodeFault>
    requires { IsTrue (is_sound (type_view ty.now)) }
    // What is answered fits the type, and the octets are its encoding.
    ensures decoded { IfOk result (λ v. IsTrue (fits (type_view ty.now) (value_view v))
        × (der (type_view ty.now) (value_view v) ≡ Some octets.now)) }
    // A value whose encoding the octets are is answered, unless memory runs out.
    ensures only { (v : AbstractValue) → IsTrue (fits (type_view ty.now) v) →
        der (type_view ty.now) v ≡ Some octets.now → Gives value_view breach_of result (Ok v) }
    // A breach that is answered is the octets'.
    ensures breach { IfErr result (λ e. IfSome (breach_of e) (IsBreach (type_view ty.now) octets.now)) }
    // A breach of the octets is answered, unless memory runs out.
    ensures breach_only { (b : AbstractBreach) → IsBreach (type_view ty.now) octets.now b →
        Gives value_view breach_of result (Err b) }
{
    message(alloc, ty, octets)
}

#[tactic(auto, unfolding(crate::specs::Reading::message_of))]
fn message(alloc: Global, ty: &Ty, octets: &[u8]) -> Result<Value, DecodeFault>
    requires { IsTrue (is_sound (type_view ty.now)) }
    ensures { Gives value_view breach_of result (message_of (type_view ty.now) octets.now) }
{
    let mut path = Path::new();
    match alone(alloc, &mut path, &ty.tags, &ty.kind, 0, octets) {
        Ok(value) => Ok(value),
        Err(Fault::Breach(code, at)) => Err(DecodeFault::Breach(Breach { code, at, path })),
        Err(Fault::OutOfMemory) => Err(DecodeFault::OutOfMemory),
    }
}

/// One element of a kind with these tags, and nothing after it.
#[cycle(reading)]
#[tactic(auto, unfolding(crate::specs::Reading::alone_at))]
fn alone(
    alloc: Global,
    path: &mut Path,
    tags: &[Tag],
    kind: &Kind,
    at: usize,
    octets: &[u8],
) -> Result<Value, Fault>
    requires proper { IsTrue (is_proper (type_of tags.now (kind_view kind.now) no_constraints)) }
    requires depth { nesting (type_of tags.now (kind_view kind.now) no_constraints) ≤ 32 }
    requires room { at + length octets.now < 2 ^ 64 }
    ensures { Gives value_view (fault_of path.new.items) result (alone_at (begins_with (type_of tags.now (kind_view
        kind.now) no_constraints)) (element_at (type_of tags.now (kind_view kind.now) no_constraints)) at octets.now) }
{
    let head = due(path, tags, kind, at, octets)?;
    let value = element(alloc, path, tags, kind, at, head, octets)?;
    let size = head.size + head.contents;
    if size < octets.len() {
        return Err(fault_at(path, Code::TrailingOctets, at + size));
    }
    Ok(value)
}

/// An element of a kind with these tags, its header read and its tag accepted.
#[cycle(reading)]
fn element(
    alloc: Global,
    path: &mut Path,
    tags: &[Tag],
    kind: &Kind,
    at: usize,
    head: Head,
    octets: &[u8],
) -> Result<Value, Fault>
    requires proper { IsTrue (is_proper (type_of tags.now (kind_view kind.now) no_constraints)) }
    requires depth { nesting (type_of tags.now (kind_view kind.now) no_constraints) ≤ 32 }
    requires header { head_of octets.now ≡ Ok (head_view head) }
    requires room { at + length octets.now < 2 ^ 64 }
    ensures { Gives value_view (fault_of path.new.items) result
        (element_at (type_of tags.now (kind_view kind.now) no_constraints) at (head_view head) octets.now) }
{
    if tags.is_empty() {
        return untagged(alloc, path, kind, at, head, octets);
    }
    let (_, behind) = octets.split_at(head.size);
    let (inside, _) = behind.split_at(head.contents);
    if tags.len() == 1 {
        if !is_form(head.constructed, is_constructed(kind)) {
            return Err(wrong_form(path, at));
        }
        return contents(alloc, path, kind, at, at + head.size, inside);
    }
    if !head.constructed {
        return Err(fault_at(path, Code::WrongForm, at));
    }
    alone(alloc, path, &tags[1..], kind, at + head.size, inside)
}

/// An element of a kind without a tag.
#[cycle(reading)]
#[tactic(auto, unfolding(crate::specs::Reading::untagged_at))]
fn untagged(
    alloc: Global,
    path: &mut Path,
    kind: &Kind,
    at: usize,
    head: Head,
    octets: &[u8],
) -> Result<Value, Fault>
    requires proper { IsTrue (is_proper_kind (kind_view kind.now)) }
    requires depth { nesting_inside (kind_view kind.now) ≤ 32 }
    requires header { head_of octets.now ≡ Ok (head_view head) }
    requires room { at + length octets.now < 2 ^ 64 }
    ensures { Gives value_view (fault_of path.new.items) result
        (untagged_at (kind_view kind.now) at (head_view head) octets.now) }
{
    match kind {
        Kind::Choice(alternatives) => chosen(alloc, path, alternatives, at, head, octets),
        _ => Err(fault_at(path, Code::UnexpectedTag, at)),
    }
}

/// The alternative to which the tag belongs.
#[cycle(reading)]
fn chosen(
    alloc: Global,
    path: &mut Path,
    alternatives: &[Comp],
    at: usize,
    head: Head,
    octets: &[u8],
) -> Result<Value, Fault>
    requires proper { IsTrue (are_proper (components_of (map component_view alternatives.now))) }
    requires few { length alternatives.now ≤ 64 }
    requires depth { deepest (components_of (map component_view alternatives.now)) ≤ 31 }
    requires header { head_of octets.now ≡ Ok (head_view head) }
    requires room { at + length octets.now < 2 ^ 64 }
    ensures { Gives value_view (fault_of path.new.items)
        result (chosen_at (components_of (map component_view alternatives.now))
        (part_at (components_of (map component_view alternatives.now))) at (head_view head) octets.now) }
{
    let Some(place) = one_with(alternatives, head.tag) else {
        return Err(fault_at(path, Code::UnexpectedTag, at));
    };
    let ty = &alternatives[place].ty;
    match element(alloc, path, &ty.tags, &ty.kind, at, head, octets) {
        Ok(value) => Ok(Value::Chosen(place as u8, Arc::new(alloc, value)?)),
        Err(fault) => Err(fault.below(path, Step::Component(place as u8))),
    }
}

/// Contents octets from the offset `start`, of an element that begins at the offset `at`.
#[cycle(reading)]
#[tactic(auto, unfolding(crate::specs::Reading::contents_at, crate::specs::Reading::simple_at))]
fn contents(
    alloc: Global,
    path: &mut Path,
    kind: &Kind,
    at: usize,
    start: usize,
    octets: &[u8],
) -> Result<Value, Fault>
    requires proper { IsTrue (is_proper_kind (kind_view kind.now)) }
    requires depth { nesting_inside (kind_view kind.now) ≤ 31 }
    requires room { start + length octets.now < 2 ^ 64 }
    requires short { length octets.now < 2 ^ 32 }
    ensures { Gives value_view (fault_of path.new.items) result (contents_at (kind_view kind.now) at start octets.now) }
{
    match kind {
        Kind::Sequence(comps) => Ok(Value::Fields(components(alloc, path, comps, start, octets)?)),
        Kind::Set(comps) => Ok(Value::Fields(set_components(alloc, path, comps, start, octets)?)),
        Kind::Choice(_) => alone(alloc, path, &[], kind, start, octets),
        Kind::SequenceOf(element) => {
            Ok(Value::Items(items(alloc, path, element, false, start, octets)?))
        }
        Kind::SetOf(element) => Ok(Value::Items(items(alloc, path, element, true, start, octets)?)),
        _ => value_of_simple(alloc, path, kind, at, octets),
    }
}

/// The components of a SEQUENCE, all of the octets.
#[cycle(reading)]
fn components(
    alloc: Global,
    path: &mut Path,
    comps: &[Comp],
    start: usize,
    octets: &[u8],
) -> Result<ArcSlice<Arc<Option<Value>>>, Fault>
    requires proper { IsTrue (are_proper (components_of (map component_view comps.now))) }
    requires few { length comps.now ≤ 64 }
    requires depth { deepest (components_of (map component_view comps.now)) ≤ 31 }
    requires room { start + length octets.now < 2 ^ 64 }
    ensures { Gives (λ v. fields_view (arc_slice_items v)) (fault_of path.new.items) result
        (fields_at 0 (components_of (map component_view comps.now)) start octets.now) }
{
    let mut fields = Vec::with_capacity(alloc, comps.len())?;
    let mut at = start;
    let mut rest = octets;
    for (index, comp) in comps.iter().enumerate() {
        let (field, size) = component(
            alloc,
            path,
            &comp.ty,
            &comp.presence,
            index as u8,
            at,
            rest,
        )?;
        fields.push(Arc::new(alloc, field)?)?;
        let (_, behind) = rest.split_at(size);
        at += size;
        rest = behind;
    }
    end(path, at, rest)?;
    Ok(ArcSlice::from_vec(fields)?)
}

/// The component of this type and presence at this place of the list, and how many octets it takes.
#[cycle(reading)]
fn component(
    alloc: Global,
    path: &mut Path,
    ty: &Ty,
    presence: &Presence,
    index: u8,
    at: usize,
    octets: &[u8],
) -> Result<(Option<Value>, usize), Fault>
    requires proper { IsTrue (is_proper (type_view ty.now)) }
    requires depth { nesting (type_view ty.now) ≤ 31 }
    requires room { at + length octets.now < 2 ^ 64 }
    ensures within { IfOk result (λ x. x.1 ≤ length octets.now) }
    ensures given { Gives (λ x. (field_view x.0, x.1)) (fault_of path.new.items) result (component_at index
        (presence_view presence.now) (begins_with (type_view ty.now)) (element_at (type_view ty.now)) at octets.now) }
{
    if octets.is_empty() {
        let missing = fault_at(path, Code::MissingComponent, at).below(
            path,
            Step::Component(index),
        );
        return Ok((not_sent(presence, missing)?, 0));
    }
    let head = header_at_front(path, at, octets)?;
    if !begins_with(ty, head.tag) {
        let stray = fault_at(path, Code::UnexpectedTag, at);
        return Ok((not_sent(presence, stray)?, 0));
    }
    let value = sent(alloc, path, ty, presence, index, at, head, octets)?;
    Ok((Some(value), head.size + head.contents))
}

/// The component at this place of the list where its element is there: its header is read, its tag accepted.
#[cycle(reading)]
fn sent(
    alloc: Global,
    path: &mut Path,
    ty: &Ty,
    presence: &Presence,
    index: u8,
    at: usize,
    head: Head,
    octets: &[u8],
) -> Result<Value, Fault>
    requires proper { IsTrue (is_proper (type_view ty.now)) }
    requires depth { nesting (type_view ty.now) ≤ 31 }
    requires header { head_of octets.now ≡ Ok (head_view head) }
    requires room { at + length octets.now < 2 ^ 64 }
    ensures { Gives value_view (fault_of path.new.items) result
        (sent_at index (presence_view presence.now) (element_at (type_view ty.now)) at (head_view head) octets.now) }
{
    match element(alloc, path, &ty.tags, &ty.kind, at, head, octets) {
        Ok(value) => {
            if is_left_out(presence, &value) {
                return Err(fault_at(path, Code::DefaultPresent, at).below(
                    path,
                    Step::Component(index),
                ));
            }
            Ok(value)
        }
        Err(fault) => Err(fault.below(path, Step::Component(index))),
    }
}

/// The elements of an OF type, all of the octets. Those of a SET OF are `ordered` (X.690 11.6).
#[cycle(reading)]
fn items(
    alloc: Global,
    path: &mut Path,
    ty: &Ty,
    ordered: bool,
    start: usize,
    octets: &[u8],
) -> Result<ArcSlice<Value>, Fault>
    requires proper { IsTrue (is_proper (type_view ty.now)) }
    requires depth { nesting (type_view ty.now) ≤ 31 }
    requires room { start + length octets.now < 2 ^ 64 }
    requires short { length octets.now < 2 ^ 32 }
    ensures { Gives (λ v. items_view (arc_slice_items v)) (fault_of path.new.items) result
        (items_at (length octets.now) ordered (begins_with (type_view ty.now)) (element_at (type_view ty.now)) 0 []
        start octets.now) }
{
    let mut items = Vec::new(alloc);
    let mut at = start;
    let mut before: &[u8] = &[];
    let mut rest = octets;
    while !rest.is_empty() {
        let (value, size) = item(
            alloc,
            path,
            ty,
            ordered,
            items.len() as u32,
            before,
            at,
            rest,
        )?;
        items.push(value)?;
        let (front, behind) = rest.split_at(size);
        at += size;
        before = front;
        rest = behind;
    }
    Ok(ArcSlice::from_vec(items)?)
}

/// The element at this place of the list, where the octets of the one before it are these; and how many octets it has.
#[cycle(reading)]
fn item(
    alloc: Global,
    path: &mut Path,
    ty: &Ty,
    ordered: bool,
    index: u32,
    before: &[u8],
    at: usize,
    octets: &[u8],
) -> Result<(Value, usize), Fault>
    requires proper { IsTrue (is_proper (type_view ty.now)) }
    requires depth { nesting (type_view ty.now) ≤ 31 }
    requires room { at + length octets.now < 2 ^ 64 }
    ensures some { IfOk result (λ x. 1 ≤ x.1) }
    ensures within { IfOk result (λ x. x.1 ≤ length octets.now) }
    ensures given { Gives (λ x. (value_view x.0, x.1)) (fault_of path.new.items) result (item_at ordered
        (begins_with (type_view ty.now)) (element_at (type_view ty.now)) index before.now at octets.now) }
{
    match next_item(alloc, path, ty, ordered, before, at, octets) {
        Ok((value, size)) => Ok((value, size)),
        Err(fault) => Err(fault.below(path, Step::Element(index))),
    }
}

/// The next element of a list, where the octets of the one before it are these; and how many octets it has. The path of
/// a fault begins at the element.
#[cycle(reading)]
fn next_item(
    alloc: Global,
    path: &mut Path,
    ty: &Ty,
    ordered: bool,
    before: &[u8],
    at: usize,
    octets: &[u8],
) -> Result<(Value, usize), Fault>
    requires proper { IsTrue (is_proper (type_view ty.now)) }
    requires depth { nesting (type_view ty.now) ≤ 31 }
    requires room { at + length octets.now < 2 ^ 64 }
    ensures some { IfOk result (λ x. 1 ≤ x.1) }
    ensures within { IfOk result (λ x. x.1 ≤ length octets.now) }
    ensures given { Gives (λ x. (value_view x.0, x.1)) (fault_of path.new.items) result
        (item_alone ordered (begins_with (type_view ty.now)) (element_at (type_view ty.now)) before.now at octets.now) }
{
    let head = due(path, &ty.tags, &ty.kind, at, octets)?;
    let value = element(alloc, path, &ty.tags, &ty.kind, at, head, octets)?;
    let size = head.size + head.contents;
    let (front, _) = octets.split_at(size);
    if is_out_of_order(ordered, before, front) {
        return Err(fault_at(path, Code::SetOfOrder, at));
    }
    Ok((value, size))
}

/// The components of a SET, all of the octets.
#[cycle(reading)]
fn set_components(
    alloc: Global,
    path: &mut Path,
    comps: &[Comp],
    start: usize,
    octets: &[u8],
) -> Result<ArcSlice<Arc<Option<Value>>>, Fault>
    requires proper { IsTrue (are_proper (components_of (map component_view comps.now))) }
    requires few { length comps.now ≤ 64 }
    requires depth { deepest (components_of (map component_view comps.now)) ≤ 31 }
    requires room { start + length octets.now < 2 ^ 64 }
    ensures { Gives (λ v. fields_view (arc_slice_items v)) (fault_of path.new.items) result (set_at (length octets.now)
        (components_of (map component_view comps.now)) (part_at (components_of (map component_view comps.now)))
        (all_absent (components_of (map component_view comps.now))) None start octets.now) }
{
    let mut fields = absent_fields(alloc, comps)?;
    let mut before = None;
    let mut at = start;
    let mut rest = octets;
    while !rest.is_empty() {
        let (place, value, head) = set_component(alloc, path, comps, &fields, before, at, rest)?;
        let size = head.size + head.contents;
        set_field(&mut fields, place, Arc::new(alloc, Some(value))?);
        before = Some(head.tag);
        let (_, behind) = rest.split_at(size);
        at += size;
        rest = behind;
    }
    completed(alloc, path, comps, fields, at)
}

/// The element of a component of a SET: its place in the list, its value, its header.
#[cycle(reading)]
fn set_component(
    alloc: Global,
    path: &mut Path,
    comps: &[Comp],
    fields: &[Arc<Option<Value>>],
    before: Option<Tag>,
    at: usize,
    octets: &[u8],
) -> Result<(usize, Value, Head), Fault>
    requires proper { IsTrue (are_proper (components_of (map component_view comps.now))) }
    requires few { length comps.now ≤ 64 }
    requires depth { deepest (components_of (map component_view comps.now)) ≤ 31 }
    requires fields { length fields.now ≡ length comps.now }
    requires room { at + length octets.now < 2 ^ 64 }
    ensures place { IfOk result (λ x. x.0 < length comps.now) }
    ensures some { IfOk result (λ x. 1 ≤ x.2.size) }
    ensures within { IfOk result (λ x. x.2.size + x.2.contents ≤ length octets.now) }
    ensures given { Gives (λ x. (x.0, value_view x.1, head_view x.2))
        (fault_of path.new.items) result (set_element_at (components_of (map component_view comps.now))
        (part_at (components_of (map component_view comps.now))) (fields_view fields.now) before at octets.now) }
{
    let head = header_at_front(path, at, octets)?;
    let place = place_of(path, comps, fields, before, at, head.tag)?;
    let comp = &comps[place];
    let value = sent(
        alloc,
        path,
        &comp.ty,
        &comp.presence,
        place as u8,
        at,
        head,
        octets,
    )?;
    Ok((place, value, head))
}
