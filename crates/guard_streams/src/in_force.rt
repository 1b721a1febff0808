//! What is said of which policy is in force, by the number of its texts.
ghost use Rattle.std.specs.Prelude.{◌≡◌, ◌++◌, ◌+◌, ◌≤◌, length, OnOk};
ghost use Rattle.hex.specs.Hex.{encode_lower};
ghost use Rattle.guard_frames.specs.Calls.{EndsLine};
ghost use Rattle.guard_files.specs.Devices.{device_of};
ghost use Rattle.guard_streams.specs.InForce.{digest_note, kept_note};
ghost use Rattle.guard_streams.specs.inside.Putting.{Puts};

use arrayvec::ArrayVec;
use guard_files::add;
use guard_frames::{Failed, Sink, append, put_all};
use guard_model::OutOfMemory;

/// Puts the number of the texts of a policy that is in force from now on, in one call. Failed where the sink has failed,
/// which took a proper part of the line at most.
pub fn put_digest<E: Sink>(err: &mut E, digest: &[u8; 32]) -> Result<(), Failed>
    ensures { Puts (digest_note digest.now) result (device_of E.taken E.has_failed err.old err.new) }
{
    let mut line = ArrayVec::<u8, 82>::new();
    append_digest(&mut line, digest);
    put_all(err, line.as_slice())
}

/// Appends this line, without memory. Condition: there is room for its 82 octets.
pub fn append_digest<const ROOM: usize>(line: &mut ArrayVec<u8, ROOM>, digest: &[u8; 32])
    requires { length line.old.items + 82 ≤ ROOM }
    ensures appended { line.new.items ≡ line.old.items ++ digest_note digest.now }
    ensures ends { EndsLine line.new.items }
{
    append(line, b"derguard: digest ");
    append(line, digits_of(digest).as_slice());
    append(line, b"\n");
}

/// Adds that the policy of this number stays. It fails only where memory runs out.
pub fn add_kept(text: &mut Vec<u8>, digest: &[u8; 32]) -> Result<(), OutOfMemory>
    ensures { OnOk result (text.new.items ≡ text.old.items ++ kept_note digest.now) }
{
    add(text, b"derguard: the old policy stays, digest ")?;
    add(text, digits_of(digest).as_slice())?;
    add(text, b"\n")?;
    Ok(())
}

/// The number in hexadecimal digits.
pub fn digits_of(digest: &[u8; 32]) -> [u8; 64]
    ensures { result ≡ encode_lower digest.now }
{
    let mut digits = [0u8; 64];
    match hex::encode_to_slice(digest.as_slice(), &mut digits) {
        Ok(()) => digits,
        Err(_) => unreachable!(),
    }
}
