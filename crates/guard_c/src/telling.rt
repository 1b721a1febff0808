//! Texts come into buffers of C.
ghost use Rattle.guard_c.specs.Telling.{IsPut, Tells, said_view};
ghost use Rattle.std.specs.Prelude.{Ok};

use crate::status::Status;

/// Puts what was said into the buffer, as much of it as fits, and how long it is into `needed`: TooSmall where not all
/// of it fits. Where nothing was said, the answer is why.
pub(crate) fn tell(said: Result<Vec<u8>, Status>, out: &mut [u8], needed: &mut usize) -> Status
    ensures { Tells (said_view said) out.old out.new needed.new result }
{
    match said {
        Ok(text) => tell_text(&text, out, needed),
        Err(status) => {
            put(b"", out, needed);
            status
        }
    }
}

/// Puts the text into the buffer, as much of it as fits, and how long it is into `needed`: Done where all of it fits,
/// else TooSmall.
pub(crate) fn tell_text(text: &[u8], out: &mut [u8], needed: &mut usize) -> Status
    ensures { Tells (Ok text.now) out.old out.new needed.new result }
{
    put(text, out, needed);
    if text.len() <= out.len() {
        Status::Done
    } else {
        Status::TooSmall
    }
}

/// Puts as much of a text as fits at the front of the buffer, and how long it is into `needed`.
pub(crate) fn put(text: &[u8], out: &mut [u8], needed: &mut usize)
    ensures { IsPut text.now out.old out.new needed.new }
{
    let count = text.len().min(out.len());
    out[..count].copy_from_slice(&text[..count]);
    *needed = text.len();
}
