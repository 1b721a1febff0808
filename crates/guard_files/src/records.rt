//! The records of many links, in one stream.
ghost use Rattle.std.specs.Prelude.{◌≡◌, ◌<◌, ◌≤◌, ◌⊎◌, ◌+◌, ◌-◌, ℕ, List, [], true, length};
ghost use Rattle.std.specs.Prelude.{take, drop, IfOk, IfErr, IfSome, OnErr, None};
ghost use Rattle.std.specs.Io.KnownBytes.{Consumes, IsAtEnd};
ghost use Rattle.guard_frames.specs.Totals.{WentUpBy};
ghost use Rattle.guard_files.specs.Records.{record_octets, of_link, IsBadHeader, IsLink, LeavesOpen};
ghost use Rattle.guard_files.specs.Records.Record.{end};
ghost use Rattle.guard_files.specs.Headers.{record_of, header_octets, IsGood, IsNone};
ghost use Rattle.guard_files.specs.declared.stop.Stop.TheVariants as stop;

use crate::octets::room;
use crate::stop::Stop;
use guard_frames::{Failed, Source};
use guard_model::OutOfMemory;
use std::alloc::Global;

/// How many links there are.
pub const LINKS: u16 = 16;

/// The most octets after a header.
pub const LONGEST_PIECE: usize = 1_048_576;

/// One octet of kind, two of link, four of length.
const HEADER: usize = 7;

/// What the header of a record says.
#[derive(Clone, Copy, Debug, PartialEq, Eq)]
pub enum Header {
    /// Octets of this link come after it, so many.
    Piece(u16, usize),
    /// The stream of this link ends.
    End(u16),
    /// The policy is to be read again.
    Reload,
}

/// What these octets say as a header; none where no record begins so.
fn header_in(octets: &[u8]) -> Option<Header>
    ensures there { IfSome result (λ h. IsGood h × (octets.now ≡ header_octets h)) }
    ensures bad { result ≡ None → length octets.now ≡ 7 → IsBadHeader octets.now }
{
    let [kind, above, link, n0, n1, n2, n3] = octets else {
        return None;
    };
    let link = u16::from_be_bytes([*above, *link]);
    let size = u32::from_be_bytes([*n0, *n1, *n2, *n3]) as usize;
    match (*kind, link, size) {
        (0, 0..LINKS, 0..=LONGEST_PIECE) => Some(Header::Piece(link, size)),
        (1, 0..LINKS, 0) => Some(Header::End(link)),
        (2, 0, 0) => Some(Header::Reload),
        _ => None,
    }
}

/// The number of a link that the word writes, from 0 to 15; none where it writes no such number.
pub fn link_in(word: &str) -> Option<u64>
    ensures number { IfSome result (IsLink word.now) }
    ensures none { result ≡ None → (link : ℕ) → IsLink word.now link → ⊥ }
{
    match word.parse::<u64>() {
        Ok(link) if link < LINKS as u64 => Some(link),
        _ => None,
    }
}

/// How many octets of the link the record with this header has, which are its first ones; none where it is the link's
/// end.
pub fn size_of_link(header: Header, link: u64) -> Option<usize>
    requires { IsGood header }
    ensures piece { IfSome result (λ n. (n ≤ 1048576) × ((room : List ℕ) → LeavesOpen link (record_of header room)
        × (take n room ≡ of_link link (record_of header room)))) }
    ensures end { result ≡ None → (room : List ℕ) → record_of header room ≡ end link }
{
    match header {
        Header::Piece(other, size) if u64::from(other) == link => Some(size),
        Header::End(other) if u64::from(other) == link => None,
        Header::Piece(_, _) | Header::End(_) | Header::Reload => Some(0),
    }
}

/// Room for the octets of one record.
pub fn new_room(alloc: Global) -> Result<Vec<u8>, OutOfMemory>
    ensures { IfOk result (λ room. length room.items ≡ 1048576) }
{
    room(alloc, LONGEST_PIECE)
}

/// The header of the next record, whose octets are the first ones in the room then; none where the source has ended.
/// Nothing is read of what follows the record. It fails with what `Stop` names. Condition: the room has 1,048,576
/// octets.
pub fn next_record<S: Source>(
    source: &mut S,
    room: &mut [u8],
    reads: &mut u64,
) -> Result<Option<Header>, Stop>
    requires { length room.old ≡ 1048576 }
    ensures record { IfOk result (λ found. IfSome found (λ h. IsGood h × (reads.new < reads.old)
        × Consumes (S.tells source.old) (S.tells source.new) (record_octets (record_of h room.new)))) }
    ensures end { IfOk result (λ found. found ≡ None →
        Consumes (S.tells source.old) (S.tells source.new) [] × IsAtEnd (S.tells source.new)) }
    ensures none { IfErr result (λ s. (rest : List ℕ) × Consumes (S.tells source.old) (S.tells source.new) rest
        × IsNone s rest (IsAtEnd (S.tells source.new)) (S.has_failed source.new) reads.new) }
    ensures counted { WentUpBy (S.takes source.old) (reads.old - reads.new) (S.takes source.new) }
    ensures fewer { reads.new ≤ reads.old }
{
    let count = fill(source, room, 0, HEADER, reads)?;
    if count == 0 {
        return Ok(None);
    }
    if count < HEADER {
        return Err(Stop::BadRecord);
    }
    let Some(header) = header_in(&room[..HEADER]) else {
        return Err(Stop::BadRecord);
    };
    if let Header::Piece(_, size) = header {
        let count = fill(source, room, 0, size, reads)?;
        if count < size {
            return Err(Stop::BadRecord);
        }
    }
    Ok(Some(header))
}

/// Fills so many octets of the room from this place on, or as many of them as the source has, and answers how many.
pub fn fill<S: Source>(
    source: &mut S,
    room: &mut [u8],
    from: usize,
    size: usize,
    reads: &mut u64,
) -> Result<usize, Stop>
    requires { from + size ≤ length room.old }
    ensures within { IfOk result (λ n. n ≤ size) }
    ensures kept { take from room.new ≡ take from room.old }
    ensures given { IfOk result (λ n. Consumes (S.tells source.old) (S.tells source.new)
        (take n (drop from room.new))) }
    ensures end { IfOk result (λ n. n < size → IsAtEnd (S.tells source.new)) }
    ensures lost { OnErr result ((part : List ℕ) × (length part < size)
        × Consumes (S.tells source.old) (S.tells source.new) part) }
    ensures failed { IfErr result (λ f. (f ≡ stop.ReadFailed) × ((S.has_failed source.new ≡ true) ⊎ (reads.new ≡ 0))) }
    ensures counted { WentUpBy (S.takes source.old) (reads.old - reads.new) (S.takes source.new) }
    ensures fewer { reads.new ≤ reads.old }
    ensures some { IfOk result (λ n. 0 < n → reads.new < reads.old) }
{
    let mut filled = 0;
    while filled < size {
        if *reads == 0 {
            return Err(Stop::ReadFailed);
        }
        *reads -= 1;
        let Ok(count) = take_more(source, room, from + filled, size - filled) else {
            return Err(Stop::ReadFailed);
        };
        if count == 0 {
            return Ok(filled);
        }
        filled += count;
    }
    Ok(filled)
}

/// Takes octets into the room from this place on, so many at most, and answers how many.
fn take_more<S: Source>(
    source: &mut S,
    room: &mut [u8],
    from: usize,
    most: usize,
) -> Result<usize, Failed>
    requires some { 0 < most }
    requires within { from + most ≤ length room.old }
    ensures within { IfOk result (λ n. n ≤ most) }
    ensures kept { take from room.new ≡ take from room.old }
    ensures given { IfOk result (λ n. Consumes (S.tells source.old) (S.tells source.new)
        (take n (drop from room.new))) }
    ensures end { IfOk result (λ n. n ≡ 0 → IsAtEnd (S.tells source.new)) }
    ensures none { OnErr result (Consumes (S.tells source.old) (S.tells source.new) []) }
    ensures failed { OnErr result (S.has_failed source.new ≡ true) }
    ensures counted { WentUpBy (S.takes source.old) 1 (S.takes source.new) }
{
    source.take(&mut room[from..from + most])
}
