//! Octets at the end of a text and at the front of what is held, and room for octets.
ghost use Rattle.std.specs.Prelude.{◌≡◌, ◌≤◌, ◌++◌, IfOk, OnOk, codes, drop, length};

use guard_model::OutOfMemory;
use guard_report::add;
use std::alloc::Global;

/// Adds a line of this name, behind how it begins.
pub fn add_line(text: &mut Vec<u8>, start: &[u8], name: &str) -> Result<(), OutOfMemory>
    ensures { OnOk result (text.new.items ≡ text.old.items ++ (start.now ++ name.now ++ codes "\n")) }
{
    add(text, start)?;
    add(text, name.as_bytes())?;
    add(text, b"\n")
}

/// Drops so many octets at the front. Condition: there are as many. OutOfMemory is the only error.
pub fn drop_front(alloc: Global, octets: &mut Vec<u8>, count: usize) -> Result<(), OutOfMemory>
    requires { count ≤ length octets.old.items }
    ensures { OnOk result (octets.new.items ≡ drop count octets.old.items) }
{
    if count > 0 {
        *octets = Vec::from_slice(alloc, &octets[count..])?;
    }
    Ok(())
}

/// Room for so many octets. (A caller that sees so many zeros as a list runs the checker out of memory.)
pub(crate) fn room(alloc: Global, size: usize) -> Result<Vec<u8>, OutOfMemory>
    ensures { IfOk result (λ room. length room.items ≡ size) }
{
    Ok(vec![in alloc; 0u8; size]?)
}
