//! Names and numbers.
ghost use Rattle.std.specs.Prelude.{◌≡◌, ◌++◌, OnOk, decimal, option_map};
ghost use Rattle.guard_report.specs.Text.{name_or_number};

use guard_model::OutOfMemory;
use itoa::Buffer;

/// Appends the octets. OutOfMemory is the only error.
#[inline(always)]
pub fn add(text: &mut Vec<u8>, octets: &[u8]) -> Result<(), OutOfMemory>
    ensures { OnOk result (text.new.items ≡ text.old.items ++ octets.now) }
{
    text.extend_from_slice(octets)?;
    Ok(())
}

/// Appends the number in decimal. OutOfMemory is the only error. Each line begins with one, which is written without a
/// call.
#[inline(always)]
pub fn add_number(text: &mut Vec<u8>, number: u64) -> Result<(), OutOfMemory>
    ensures { OnOk result (text.new.items ≡ text.old.items ++ decimal number) }
{
    let mut buffer = Buffer::new();
    add(text, buffer.format(number).as_bytes())
}

/// Appends the name, or the number where there is none.
pub fn add_name(text: &mut Vec<u8>, name: Option<&str>, number: u64) -> Result<(), OutOfMemory>
    ensures { OnOk result (text.new.items
        ≡ text.old.items ++ name_or_number (option_map (λ name. name.now) name.entry) number) }
{
    match name {
        Some(name) => add(text, name.as_bytes()),
        None => add_number(text, number),
    }
}
