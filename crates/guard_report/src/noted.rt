//! A value in value notation, with a part on each line, and on the line on which a part begins the place of its
//! encoding.
ghost use Rattle.std.specs.Prelude.{◌≡◌, ◌++◌, true, OnOk, codes, option_map};
ghost use Rattle.guard_model.specs.declared.site.Step.TheVariants.{Component};
ghost use Rattle.guard_model.specs.TypeView.{type_view};
ghost use Rattle.guard_model.specs.ValueView.{value_view, fields_view, items_view};
ghost use Rattle.guard_report.specs.Layouts.{deeper};
ghost use Rattle.guard_report.specs.Text.{part_name, type_within, element_type};
ghost use Rattle.guard_report.specs.Places.{inside_value};
ghost use Rattle.guard_report.specs.Shown.{note, is_on_one_line, none_there, is_no_item, last_end, before_line, closing_line};
ghost use Rattle.guard_report.specs.Shown.{lines_from, value_lines, field_lines, element_lines};
ghost use Rattle.guard_report.specs.inside.LineEnds.{end_text};

use super::layout::{Layout, add_new_line};
use super::path::{add_part_name, element_type, part_type};
use super::places::{after_element, component_place, inside_value, next_place};
use super::values::add_value;
use super::words::{add, add_number};
use guard_model::{OutOfMemory, Ty, Value};
use std::alloc::Global;
use std::sync::Arc;

/// Where a value is in the text, and where in the message.
#[derive(Clone, Copy)]
pub struct Spot {
    /// How many levels the value's line is indented.
    pub level: u8,
    /// The offset of the encoding of the part that begins on the value's line.
    pub line: Option<usize>,
    /// The offset of the value's encoding in the message; None where it isn't encoded.
    pub at: Option<usize>,
}

/// What the line still lacks that was written last.
#[derive(Clone, Copy)]
enum LineEnd {
    Nothing,
    /// A note of this place.
    Note(Option<usize>),
}

/// Appends the value, whose type may be known, but for what ends its last line.
#[cycle(noted)]
pub fn add_value_lines(
    alloc: Global,
    text: &mut Vec<u8>,
    octets: &[u8],
    spot: Spot,
    ty: Option<&Ty>,
    value: &Value,
) -> Result<(), OutOfMemory>
    ensures { OnOk result (text.new.items ≡ text.old.items ++ value_lines note octets.now spot.level spot.line spot.at
        (option_map (λ ty. type_view ty.now) ty.entry) (value_view value.now)) }
{
    match value {
        Value::Fields(fields) => add_field_lines(alloc, text, octets, spot, ty, fields),
        Value::Items(items) => add_element_lines(alloc, text, octets, spot, ty, items),
        Value::Chosen(place, inner) => {
            let at = inside_value(octets, ty, spot.at);
            let inside = Spot { at, ..spot };
            add_part_lines(
                alloc,
                text,
                octets,
                inside,
                ty,
                usize::from(*place),
                b": ",
                inner,
            )
        }
        _ => add_value(alloc, text, Layout::Lines(spot.level), ty, value),
    }
}

/// Appends the components that are there, each with its name, in braces.
#[cycle(noted)]
fn add_field_lines(
    alloc: Global,
    text: &mut Vec<u8>,
    octets: &[u8],
    spot: Spot,
    ty: Option<&Ty>,
    fields: &[Arc<Option<Value>>],
) -> Result<(), OutOfMemory>
    ensures { let t = option_map (λ ty. type_view ty.now) ty.entry in
        OnOk result (text.new.items ≡ text.old.items ++ (codes "{" ++ lines_from spot.level true (note spot.line)
        (field_lines note octets.now (deeper spot.level) (inside_value octets.now t spot.at) t 0
        (fields_view fields.now)))) }
{
    add(text, b"{")?;
    let level = spot.level.saturating_add(1);
    let mut next = inside_value(octets, ty, spot.at);
    let mut end = LineEnd::Note(spot.line);
    let mut is_first = true;
    for (place, field) in fields.iter().enumerate() {
        if let Some(value) = field.as_ref() {
            let at = component_place(octets, ty, place, value, next);
            add_before_line(text, level, is_first, end)?;
            let part = Spot {
                level,
                line: at,
                at,
            };
            add_part_lines(alloc, text, octets, part, ty, place, b" ", value)?;
            next = next_place(octets, ty, at, next);
            end = end_after(value, at);
            is_first = false;
        }
    }
    add_closing_line(text, spot.level, is_first, end)
}

/// Appends the elements in braces.
#[cycle(noted)]
fn add_element_lines(
    alloc: Global,
    text: &mut Vec<u8>,
    octets: &[u8],
    spot: Spot,
    ty: Option<&Ty>,
    items: &[Value],
) -> Result<(), OutOfMemory>
    ensures { let t = option_map (λ ty. type_view ty.now) ty.entry in
        OnOk result (text.new.items ≡ text.old.items ++ (codes "{" ++ lines_from spot.level true (note spot.line)
        (element_lines note octets.now (deeper spot.level) (inside_value octets.now t spot.at) (element_type t)
        (items_view items.now)))) }
{
    add(text, b"{")?;
    let level = spot.level.saturating_add(1);
    let element = element_type(ty);
    let mut next = inside_value(octets, ty, spot.at);
    let mut end = LineEnd::Note(spot.line);
    let mut is_first = true;
    for item in items {
        add_before_line(text, level, is_first, end)?;
        let part = Spot {
            level,
            line: next,
            at: next,
        };
        add_value_lines(alloc, text, octets, part, element, item)?;
        end = end_after(item, next);
        next = after_element(octets, next);
        is_first = false;
    }
    add_closing_line(text, spot.level, is_first, end)
}

/// Appends the name of the component or alternative at this place of the type, the mark after it, and its value.
#[cycle(noted)]
fn add_part_lines(
    alloc: Global,
    text: &mut Vec<u8>,
    octets: &[u8],
    spot: Spot,
    ty: Option<&Ty>,
    place: usize,
    mark: &[u8],
    value: &Value,
) -> Result<(), OutOfMemory>
    ensures { let t = option_map (λ ty. type_view ty.now) ty.entry in
        OnOk result (text.new.items ≡ text.old.items ++ (part_name t place ++ mark.now
        ++ value_lines note octets.now spot.level spot.line spot.at (type_within t (Component place))
        (value_view value.now))) }
{
    add_part_name(text, ty, place)?;
    add(text, mark)?;
    add_value_lines(alloc, text, octets, spot, part_type(ty, place), value)
}

// ---- lines

/// Appends what ends the last line of a value that begins there.
pub fn add_last_end(text: &mut Vec<u8>, value: &Value, at: Option<usize>) -> Result<(), OutOfMemory>
    ensures { OnOk result (text.new.items ≡ text.old.items ++ last_end note (value_view value.now) at) }
{
    add_line_end(text, end_after(value, at))
}

fn end_after(value: &Value, at: Option<usize>) -> LineEnd
    ensures { end_text note result ≡ last_end note (value_view value.now) at }
{
    if is_on_one_line(value) {
        LineEnd::Note(at)
    } else {
        LineEnd::Nothing
    }
}

/// Whether a value stands on one line, as each does but braces with parts in them.
fn is_on_one_line(value: &Value) -> bool
    ensures { result ≡ is_on_one_line (value_view value.now) }
{
    match value {
        Value::Fields(fields) => are_all_absent(fields),
        Value::Items(items) => is_no_item(items),
        Value::Chosen(_, inner) => is_on_one_line(inner),
        _ => true,
    }
}

fn are_all_absent(fields: &[Arc<Option<Value>>]) -> bool
    ensures { result ≡ none_there (fields_view fields.now) }
{
    for field in fields {
        if let Some(_) = field.as_ref() {
            return false;
        }
    }
    true
}

fn is_no_item(items: &[Value]) -> bool
    ensures { result ≡ is_no_item (items_view items.now) }
{
    match items {
        [] => true,
        [_, ..] => false,
    }
}

/// Appends what comes before a part: a comma if it isn't the first one, what ends that line, and its place.
fn add_before_line(
    text: &mut Vec<u8>,
    level: u8,
    is_first: bool,
    end: LineEnd,
) -> Result<(), OutOfMemory>
    ensures { OnOk result (text.new.items ≡ text.old.items ++ before_line level is_first (end_text note end)) }
{
    if !is_first {
        add(text, b",")?;
    }
    add_line_end(text, end)?;
    add_new_line(text, level)
}

/// Appends the brace that closes the whole; `is_empty` where no part is before it.
fn add_closing_line(
    text: &mut Vec<u8>,
    level: u8,
    is_empty: bool,
    end: LineEnd,
) -> Result<(), OutOfMemory>
    ensures { OnOk result (text.new.items ≡ text.old.items ++ closing_line level is_empty (end_text note end)) }
{
    if !is_empty {
        add_line_end(text, end)?;
        add_new_line(text, level)?;
    }
    add(text, b"}")
}

fn add_line_end(text: &mut Vec<u8>, end: LineEnd) -> Result<(), OutOfMemory>
    ensures { OnOk result (text.new.items ≡ text.old.items ++ end_text note end) }
{
    match end {
        LineEnd::Nothing => Ok(()),
        LineEnd::Note(Some(at)) => {
            add(text, b" -- ")?;
            add_number(text, at as u64)
        }
        LineEnd::Note(None) => add(text, b" -- default"),
    }
}
