//! Lines that take no memory.

ghost use Rattle.std.specs.Prelude.{◌≡◌, ◌+◌, ◌≤◌, ◌++◌, length};

use arrayvec::ArrayVec;

/// Room for a line of at most 256 octets: a number of 20 digits, three names of 63 octets and the words around them.
pub type ShortLine = ArrayVec<u8, 256>;

/// Appends the octets to a line that takes no memory. Condition: there is room for them.
pub fn append<const ROOM: usize>(line: &mut ArrayVec<u8, ROOM>, octets: &[u8])
    requires { length line.old.items + length octets.now ≤ ROOM }
    ensures { line.new.items ≡ line.old.items ++ octets.now }
{
    match line.try_extend_from_slice(octets) {
        Ok(()) => {}
        Err(_) => unreachable!(),
    }
}
