//! The parts of a message that stand whole before its breach.
ghost use Rattle.std.specs.Prelude.{◌≡◌, ◌≤◌, ◌++◌, ◌-◌, ◌^◌, ℕ, suc, length, map, option_map, Some};
ghost use Rattle.std.specs.Prelude.{string_bytes, IfOk, OnOk, IfSome, IsTrue};
ghost use Rattle.guard_model.specs.TypeView.{component_view, components_of, kind_view, type_view};
ghost use Rattle.guard_model.specs.ValueView.{value_view};
ghost use Rattle.guard_der.specs.Sound.{is_sound};
ghost use Rattle.guard_report.specs.Places.{inside_value};
ghost use Rattle.guard_report.specs.ValueText.{value_octets};
ghost use Rattle.guard_report.specs.declared.layout.Layout.TheVariants.{Line};
ghost use Rattle.guard_notes.specs.Marking.{columns};
ghost use Rattle.guard_messages.specs.PartsBefore.{AreLinesBefore, any_of, due_inside};
ghost use Rattle.guard_messages.specs.PartsBefore.{named_part, part_among, part_due, part_in_order, value_line};
ghost use Rattle.guard_messages.specs.PartsBefore.{spot_inside};
ghost use Rattle.guard_messages.specs.inside.Spots.{AddsPart, FollowsPart, HoldsSound, IsNumbered, StepsOver};
ghost use Rattle.guard_messages.specs.inside.Spots.{StepsTo, due_view, part_view, spot_in_view};

use guard_der::{DecodeFault, decode};
use guard_files::add;
use guard_model::{Comp, Kind, OutOfMemory, Tag, Ty, Value};
use guard_notes::columns;
use guard_report::{header_there, inside_value, part_text};
use guard_tagcheck::begins_with;
use std::alloc::{AllocError, Global};

/// More steps than types that can lie in one another.
const ENTERED: usize = 64;

/// What may begin at a place.
#[derive(Clone, Copy)]
pub enum Due<'a> {
    /// The message's own element.
    Message(&'a Ty),
    /// One of these components of a SEQUENCE, in their order.
    InOrder(&'a [Comp]),
    /// Any of these components of a SET, or of these alternatives.
    AnyOf(&'a [Comp]),
    /// The element of this number, from 0, of an OF type.
    Element(usize, &'a Ty),
    Nothing,
}

/// A place in the message, the text of the path to what it is in, and what may begin there.
#[derive(Drop)]
pub struct SpotIn<'a> {
    pub at: usize,
    pub way: String,
    pub due: Due<'a>,
}

/// A part, with the text of the path to it, and what may begin after it.
#[derive(Drop)]
pub struct Part<'a> {
    pub way: String,
    pub ty: &'a Ty,
    pub after: Due<'a>,
}

/// The lines of the parts that stand whole before the breach at this offset: each with its path and its value.
pub fn lines_before(
    alloc: Global,
    ty: &Ty,
    octets: &[u8],
    breach: usize,
) -> Result<Vec<u8>, OutOfMemory>
    requires { IsTrue (is_sound (type_view ty.now)) }
    ensures { IfOk result (λ lines. AreLinesBefore (type_view ty.now) octets.now breach lines.items) }
{
    let mut lines = Vec::new(alloc);
    let mut spot = SpotIn {
        at: 0,
        way: String::from_str(alloc, "$")?,
        due: Due::Message(ty),
    };
    for _ in 0..octets.len() + ENTERED {
        match next_spot(alloc, &mut lines, octets, breach, &spot)? {
            Some(next) => spot = next,
            None => return Ok(lines),
        }
    }
    Ok(lines)
}

/// Appends the line of the part at the spot, if it is whole, and answers the next spot; none where the lines end.
fn next_spot<'a>(
    alloc: Global,
    lines: &mut Vec<u8>,
    octets: &[u8],
    breach: usize,
    spot: &SpotIn<'a>,
) -> Result<Option<SpotIn<'a>>, OutOfMemory>
    requires sound { HoldsSound (due_view spot.now.due) }
    requires few { IsNumbered (2 ^ 64 - 2) (due_view spot.now.due) }
    ensures lines { IfOk result (λ next. StepsTo octets.now breach (spot_in_view spot.now) lines.old.items
        lines.new.items (option_map spot_in_view next)) }
    ensures sound { IfOk result (λ next. IfSome next (λ s. HoldsSound (due_view s.due))) }
    ensures few { (n : ℕ) → IsNumbered n (due_view spot.now.due)
        → IfOk result (λ next. IfSome next (λ s. IsNumbered (suc n) (due_view s.due))) }
{
    if spot.at >= breach {
        return Ok(None);
    }
    let Some(header) = header_there(octets, Some(spot.at)) else {
        return Ok(None);
    };
    match part_due(alloc, &spot.way, spot.due, header.tag)? {
        Some(part) => past_or_inside(alloc, lines, octets, breach, spot, header.end, part),
        None => Ok(None),
    }
}

/// The spot behind the part that begins at the spot and ends at this offset, where it is whole, and then appends its
/// line; else the spot inside the part.
fn past_or_inside<'a>(
    alloc: Global,
    lines: &mut Vec<u8>,
    octets: &[u8],
    breach: usize,
    spot: &SpotIn,
    end: usize,
    part: Part<'a>,
) -> Result<Option<SpotIn<'a>>, OutOfMemory>
    requires sound { IsTrue (is_sound (type_view part.ty.now)) }
    requires begins { spot.now.at ≤ end }
    requires ends { end ≤ length octets.now }
    ensures lines { IfOk result (λ next. StepsOver octets.now breach (spot_in_view spot.now) end
        (part_view part.entry) lines.old.items lines.new.items (option_map spot_in_view next)) }
    ensures due { IfOk result (λ next. IfSome next (λ s. FollowsPart (part_view part.entry) (due_view s.due))) }
{
    if end > breach {
        return Ok(inside(octets, spot.at, part));
    }
    if !add_line(alloc, lines, &part, &octets[spot.at..end])? {
        return Ok(inside(octets, spot.at, part));
    }
    Ok(Some(SpotIn {
        at: end,
        way: String::from_str(alloc, &spot.way)?,
        due: part.after,
    }))
}

/// The part that an element with this tag is.
fn part_due<'a>(
    alloc: Global,
    way: &str,
    due: Due<'a>,
    tag: Tag,
) -> Result<Option<Part<'a>>, AllocError>
    requires few { IsNumbered (2 ^ 64 - 2) (due_view due) }
    ensures part { IfOk result (λ part. option_map part_view part ≡ part_due way.now (due_view due.entry) tag) }
{
    match due {
        Due::Message(ty) => Ok(Some(Part {
            way: String::from_str(alloc, way)?,
            ty,
            after: Due::Nothing,
        })),
        Due::InOrder(comps) => part_in_order(alloc, way, comps, tag),
        Due::AnyOf(comps) => part_among(alloc, way, comps, tag),
        Due::Element(number, ty) => Ok(Some(Part {
            way: format!(in alloc; "{way}[{number}]")?,
            ty,
            after: Due::Element(number + 1, ty),
        })),
        Due::Nothing => Ok(None),
    }
}

/// The first of these components to which an element with this tag belongs; those behind it come after it.
fn part_in_order<'a>(
    alloc: Global,
    way: &str,
    comps: &'a [Comp],
    tag: Tag,
) -> Result<Option<Part<'a>>, AllocError>
    ensures { IfOk result (λ part. option_map part_view part
        ≡ part_in_order way.now (components_of (map component_view comps.now)) tag) }
{
    for (index, comp) in comps.iter().enumerate() {
        if begins_with(&comp.ty, tag) {
            let behind = Due::InOrder(&comps[index + 1..]);
            return Ok(Some(named_part(alloc, way, comp, behind)?));
        }
    }
    Ok(None)
}

/// The first of these components or alternatives to which an element with this tag belongs; all of them may come after
/// it.
fn part_among<'a>(
    alloc: Global,
    way: &str,
    comps: &'a [Comp],
    tag: Tag,
) -> Result<Option<Part<'a>>, AllocError>
    ensures { IfOk result (λ part. option_map part_view part ≡ part_among way.now
        (any_of (components_of (map component_view comps.now))) (components_of (map component_view comps.now)) tag) }
{
    for comp in comps {
        if begins_with(&comp.ty, tag) {
            return Ok(Some(named_part(alloc, way, comp, Due::AnyOf(comps))?));
        }
    }
    Ok(None)
}

fn named_part<'a>(
    alloc: Global,
    way: &str,
    comp: &'a Comp,
    after: Due<'a>,
) -> Result<Part<'a>, AllocError>
    ensures { IfOk result (λ part. part_view part
        ≡ named_part way.now (component_view comp.now).name (component_view comp.now).ty (due_view after.entry)) }
{
    let name = comp.name.as_str();
    Ok(Part {
        way: format!(in alloc; "{way}.{name}")?,
        ty: &comp.ty,
        after,
    })
}

/// Where the contents of the part begin, which begins at this offset; None where they don't.
fn inside<'a>(octets: &[u8], at: usize, part: Part<'a>) -> Option<SpotIn<'a>>
    ensures { option_map spot_in_view result
        ≡ spot_inside (part_view part.entry) (inside_value octets.now (Some (part_view part.entry).ty) (Some at)) }
{
    let at = inside_value(octets, Some(part.ty), Some(at))?;
    Some(SpotIn {
        at,
        way: part.way,
        due: due_inside(&part.ty.kind),
    })
}

/// What may begin in the contents of a value of the kind.
fn due_inside(kind: &Kind) -> Due<'_>
    ensures { due_view result ≡ due_inside (kind_view kind.now) }
{
    match kind {
        Kind::Sequence(comps) => Due::InOrder(comps),
        Kind::Set(comps) | Kind::Choice(comps) => Due::AnyOf(comps),
        Kind::SequenceOf(ty) | Kind::SetOf(ty) => Due::Element(0, ty),
        _ => Due::Nothing,
    }
}

/// Appends the path and the value of a part that these octets encode; false where they encode none.
fn add_line(
    alloc: Global,
    lines: &mut Vec<u8>,
    part: &Part,
    octets: &[u8],
) -> Result<bool, OutOfMemory>
    requires { IsTrue (is_sound (type_view part.now.ty.now)) }
    ensures { IfOk result (λ whole. AddsPart whole (part_view part.now) octets.now lines.old.items lines.new.items) }
{
    match decode(alloc, part.ty, octets) {
        Ok(value) => {
            add_value(alloc, lines, part, &value)?;
            Ok(true)
        }
        Err(DecodeFault::Breach(_breach)) => Ok(false),
        Err(DecodeFault::OutOfMemory) => Err(OutOfMemory),
    }
}

fn add_value(
    alloc: Global,
    lines: &mut Vec<u8>,
    part: &Part,
    value: &Value,
) -> Result<(), OutOfMemory>
    ensures { OnOk result (lines.new.items
        ≡ lines.old.items ++ value_line (part_view part.now) (value_view value.now)) }
{
    let shown = value_columns(alloc, part.ty, value)?;
    add(lines, b"  ")?;
    add(lines, part.way.as_bytes())?;
    add(lines, b" ")?;
    add(lines, shown.as_bytes())?;
    add(lines, b"\n")
}

/// The value on one line.
fn value_columns(alloc: Global, ty: &Ty, value: &Value) -> Result<String, OutOfMemory>
    ensures { IfOk result (λ text. string_bytes text
        ≡ columns (value_octets Line (Some (type_view ty.now)) (value_view value.now))) }
{
    let text = part_text(alloc, ty, value, &[])?.unwrap_or(Vec::new(alloc));
    Ok(columns(alloc, &text)?)
}
