//! All that a source gives.
ghost use Rattle.std.specs.Prelude.{IfOk, IfErr};
ghost use Rattle.guard_files.specs.Devices.{source_of};
ghost use Rattle.guard_files.specs.Intake.{IsRead, IsNotRead};

use crate::fault::Fault;
use crate::octets::room;
use crate::records::fill;
use guard_der::LONGEST_ENCODING;
use guard_frames::{MOST_READS, RunFault, Source};
use std::alloc::Global;

/// One octet more than a message may have.
const ROOM: usize = LONGEST_ENCODING + 1;

/// All that the source gives; of more than 1,048,576 octets the first 1,048,577. It is asked 2^40 times at most, and
/// not at all where there is no memory. It fails with F5 where the source does or was asked too often, and with
/// NoMemory.
pub fn read_all<S: Source>(alloc: Global, source: &mut S) -> Result<Vec<u8>, Fault>
    ensures read { IfOk result (λ octets.
        IsRead (source_of S.tells S.takes S.has_failed source.old source.new) octets.items) }
    ensures lost { IfErr result (IsNotRead (source_of S.tells S.takes S.has_failed source.old source.new)) }
{
    let mut octets = room(alloc, ROOM)?;
    let mut reads = MOST_READS;
    let Ok(count) = fill(source, octets.as_mut_slice(), 0, ROOM, &mut reads) else {
        return Err(Fault::Run(RunFault::ReadFailed));
    };
    octets.truncate(count);
    Ok(octets)
}
