//! The frame of a number, of those that come in.
ghost use Rattle.std.specs.Prelude.{◌≡◌, ◌<◌, ◌≤◌, ℕ, None, length, take, IfOk, IfErr, IfSome};
ghost use Rattle.guard_files.specs.Devices.{source_of};
ghost use Rattle.guard_messages.specs.Numbered.{IsNumber, IsNth, HasFewer, StopsBefore};

use guard_files::next_frame;
use guard_frames::{MOST_READS, RunFault, Source};

/// The number that the word writes, from 1.
pub fn number_in(word: &str) -> Option<u64>
    ensures number { IfSome result (IsNumber word.now) }
    ensures none { result ≡ None → (n : ℕ) → IsNumber word.now n → ⊥ }
{
    match word.parse::<u64>() {
        Ok(number) if number > 0 => Some(number),
        _ => None,
    }
}

/// The size of the frame of this number, whose octets are the first ones in the room then; none where there are fewer
/// frames. Nothing is read behind it.
pub fn nth_frame<S: Source>(
    source: &mut S,
    room: &mut [u8],
    number: u64,
) -> Result<Option<usize>, RunFault>
    requires room { length room.old ≡ 1048580 }
    requires some { 0 < number }
    ensures frame { IfOk result (λ found. IfSome found (λ size. (size ≤ 1048580)
        × IsNth number (source_of S.tells S.takes S.has_failed source.old source.new) (take size room.new))) }
    ensures fewer { IfOk result (λ found. found ≡ None →
        HasFewer number (source_of S.tells S.takes S.has_failed source.old source.new)) }
    ensures stops { IfErr result (λ f. StopsBefore f number
        (source_of S.tells S.takes S.has_failed source.old source.new)) }
{
    let mut reads = MOST_READS;
    for _ in 0..number - 1 {
        let Some(_size) = next_frame(source, room, &mut reads)? else {
            return Ok(None);
        };
    }
    next_frame(source, room, &mut reads)
}
