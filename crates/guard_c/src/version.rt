//! Which version this is.
ghost use Rattle.guard_c.specs.Statuses.{Answers};
ghost use Rattle.guard_c.specs.Telling.{Tells};
ghost use Rattle.std.specs.Prelude.{Ok, codes};

use crate::telling::tell_text;

/// Puts the version, as the program says it, into the buffer, as much of it as fits, and its length into `needed`. The
/// answer is the number of a `Status`: Done, or TooSmall. No memory is taken.
#[unsafe(no_mangle)]
pub extern "C" fn derguard_version(out: &mut [u8], needed: &mut usize) -> u32
    ensures { Answers result (Tells (Ok (codes "0.1.0")) out.old out.new needed.new) }
{
    tell_text(b"0.1.0", out, needed).number()
}
