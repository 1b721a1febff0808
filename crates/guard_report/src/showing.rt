//! A message as its value is written, each part with the place of its encoding; or its octets up to the breach.
ghost use Rattle.std.specs.Prelude.{◌≡◌, ◌++◌, codes, IsTrue, IfOk, OnOk, Some, None, option_map};
ghost use Rattle.guard_model.specs.AbstractValue.{AbstractValue};
ghost use Rattle.guard_model.specs.TypeView.{type_view};
ghost use Rattle.guard_model.specs.ValueView.{value_view};
ghost use Rattle.guard_der.specs.Breach.{AbstractBreach, IsBreach};
ghost use Rattle.guard_der.specs.Der.{der};
ghost use Rattle.guard_der.specs.Fits.{fits};
ghost use Rattle.guard_der.specs.Sound.{is_sound};
ghost use Rattle.guard_der.specs.Views.{breach_view};
ghost use Rattle.guard_report.specs.Shown.{shown_value, shown_undecodable, shown_view, value_shown, breach_shown};
ghost use Rattle.guard_report.specs.Shown.{digit_lines};

use super::noted::{Spot, add_last_end, add_value_lines};
use super::path::add_path;
use super::strings::digits_of;
use super::words::{add, add_number};
use guard_der::{Breach, DecodeFault, decode};
use guard_model::{OutOfMemory, Ty, Value};
use std::alloc::Global;

/// A message as it is shown, without a line feed at the end.
#[derive(Debug, Drop)]
pub enum Shown {
    /// The octets encode a value: the text of the value, each part on a line with the offset of its encoding.
    Value(Vec<u8>),
    /// The octets encode no value: the text of the octets up to the breach, and of the breach.
    Undecodable(Vec<u8>),
}

/// The octets as a value of the type, or up to their breach. Condition: the type is sound. OutOfMemory is the only
/// error.
pub fn shown_text(alloc: Global, ty: &Ty, octets: &[u8]) -> Result<Shown, OutOfMemory>
    requires { IsTrue (is_sound (type_view ty.now)) }
    // Where they encode a value of the type it is shown,
    ensures of_value { (v : AbstractValue) → IsTrue (fits (type_view ty.now) v)
        → der (type_view ty.now) v ≡ Some octets.now
        → IfOk result (λ shown. shown_view shown ≡ shown_value (value_shown (type_view ty.now) octets.now v)) }
    // and where they have a breach, it and what comes before it.
    ensures of_breach { (b : AbstractBreach) → IsBreach (type_view ty.now) octets.now b
        → IfOk result (λ shown. shown_view shown ≡ shown_undecodable (breach_shown (type_view ty.now) octets.now b)) }
{
    match decode(alloc, ty, octets) {
        Ok(value) => Ok(Shown::Value(value_shown(alloc, ty, octets, &value)?)),
        Err(DecodeFault::Breach(breach)) => {
            Ok(Shown::Undecodable(breach_shown(alloc, ty, octets, &breach)?))
        }
        Err(DecodeFault::OutOfMemory) => Err(OutOfMemory),
    }
}

fn value_shown(alloc: Global, ty: &Ty, octets: &[u8], value: &Value) -> Result<Vec<u8>, OutOfMemory>
    ensures { IfOk result (λ text. text.items ≡ value_shown (type_view ty.now) octets.now (value_view value.now)) }
{
    let mut text = Vec::new(alloc);
    let spot = Spot {
        level: 0,
        line: Some(0),
        at: Some(0),
    };
    add_value_lines(alloc, &mut text, octets, spot, Some(ty), value)?;
    add_last_end(&mut text, value, Some(0))?;
    Ok(text)
}

fn breach_shown(
    alloc: Global,
    ty: &Ty,
    octets: &[u8],
    breach: &Breach,
) -> Result<Vec<u8>, OutOfMemory>
    ensures { IfOk result (λ text. text.items ≡ breach_shown (type_view ty.now) octets.now (breach_view breach.now)) }
{
    let mut text = Vec::new(alloc);
    add(&mut text, b"'")?;
    add_digit_lines(&mut text, &octets[..breach.at.min(octets.len())])?;
    add(&mut text, b"'H\n-- ")?;
    add(&mut text, breach.code.name().as_bytes())?;
    add(&mut text, b" at ")?;
    add_number(&mut text, breach.at as u64)?;
    add(&mut text, b" ")?;
    add_path(&mut text, Some(ty), &breach.path)?;
    Ok(text)
}

/// Appends the octets in hexadecimal, 32 on a line.
fn add_digit_lines(text: &mut Vec<u8>, octets: &[u8]) -> Result<(), OutOfMemory>
    ensures { OnOk result (text.new.items ≡ text.old.items ++ digit_lines 0 octets.now) }
{
    for (place, octet) in octets.iter().enumerate() {
        if place != 0 && place % 32 == 0 {
            add(text, b"\n")?;
        }
        add(text, &digits_of(*octet))?;
    }
    Ok(())
}
