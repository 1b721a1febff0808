//! All orders of the pieces of two links, with a new policy at each place: what comes of a link is what `run` gives of
//! its own stream.
use crate::devices::{Pieces, Room};
use crate::links::{Links, Record};
use guard_frames::{Event, Gateway, Kept, Unwatched, run};
use guard_policy::Policy;
use std::alloc::{AllocError, Global};

/// What two sinks took.
#[derive(Drop)]
struct Took {
    out: Vec<u8>,
    reports: Vec<u8>,
}

/// In how many orders each link gives what is expected, with the second policy at each place; or the first of these in
/// which one doesn't. The records are three pieces of each of two links.
pub fn each_order(alloc: Global, links: &Links, records: &[Record]) -> Result<String, AllocError> {
    let mut agreed = 0u32;
    for order in 0..64u8 {
        if order.count_ones() == 3 {
            for place in 0..=records.len() {
                if !agrees(alloc, links, &mixed(alloc, records, order)?, place)? {
                    return format!(in alloc; "order {order}, place {place}");
                }
                agreed = agreed.saturating_add(1);
            }
        }
    }
    format!(in alloc; "{agreed}")
}

/// The records in this order: each bit is the link whose next piece comes.
fn mixed<'a>(
    alloc: Global,
    records: &[Record<'a>],
    order: u8,
) -> Result<Vec<Record<'a>>, AllocError> {
    let (first, second) = (of_link(alloc, records, 0)?, of_link(alloc, records, 1)?);
    let (mut first, mut second) = (first.iter(), second.iter());
    let mut mixed = Vec::new(alloc);
    for step in 0..6u8 {
        let next = match order >> step & 1 {
            0 => first.next(),
            _ => second.next(),
        };
        if let Some(record) = next {
            mixed.push(*record)?;
        }
    }
    Ok(mixed)
}

/// The records of a link.
fn of_link<'a>(
    alloc: Global,
    records: &[Record<'a>],
    link: u16,
) -> Result<Vec<Record<'a>>, AllocError> {
    let mut found = Vec::new(alloc);
    for record in records {
        if record.link == link {
            found.push(*record)?;
        }
    }
    Ok(found)
}

/// Whether each link gives what is expected, where the second policy comes before the record at this place.
fn agrees(
    alloc: Global,
    links: &Links,
    records: &[Record],
    place: usize,
) -> Result<bool, AllocError> {
    match links.gateway(alloc)? {
        Some(mut gateway) => {
            if !takes(alloc, links, &mut gateway, records, place)? {
                return Ok(false);
            }
            give(alloc, links, &mut gateway, records, place)
        }
        None => Ok(false),
    }
}

/// Gives the gateway the records, with the second policy before the one at this place, and answers whether it takes
/// all.
fn takes(
    alloc: Global,
    links: &Links,
    gateway: &mut Gateway<Kept>,
    records: &[Record],
    place: usize,
) -> Result<bool, AllocError> {
    for (index, record) in records.iter().enumerate() {
        if index == place && !reload(alloc, links, gateway)? {
            return Ok(false);
        }
        if gateway
            .step(
                alloc,
                Event::Piece(record.link, record.octets),
                &mut Unwatched,
            )
            .is_err()
        {
            return Ok(false);
        }
    }
    Ok(true)
}

/// Whether the sinks of both links took what is expected.
fn give(
    alloc: Global,
    links: &Links,
    gateway: &mut Gateway<Kept>,
    records: &[Record],
    place: usize,
) -> Result<bool, AllocError> {
    Ok(
        gives(alloc, links, gateway, records, place, 0)?
            && gives(alloc, links, gateway, records, place, 1)?,
    )
}

fn reload(alloc: Global, links: &Links, gateway: &mut Gateway<Kept>) -> Result<bool, AllocError> {
    match links.policy(alloc, 1)? {
        Some(policy) => Ok(
            gateway
                .step(alloc, Event::Reload(policy), &mut Unwatched)
                .is_ok(),
        ),
        None => Ok(false),
    }
}

/// Whether the sinks of a link took what is expected.
fn gives(
    alloc: Global,
    links: &Links,
    gateway: &mut Gateway<Kept>,
    records: &[Record],
    place: usize,
    link: u16,
) -> Result<bool, AllocError> {
    let (first, others) = records.split_at(place.min(records.len()));
    let before = stream_of(alloc, first, link)?;
    let mut whole = Vec::from_slice(alloc, &before)?;
    whole.extend_from_slice(&stream_of(alloc, others, link)?)?;
    let Some(expected) = expected(alloc, links, &before, &whole)? else {
        return Ok(false);
    };
    match gateway.ends_mut(link) {
        Some(ends) => Ok(
            ends.out.octets() == expected.out.as_slice()
                && ends.reports.octets() == expected.reports.as_slice(),
        ),
        None => Ok(false),
    }
}

/// The pieces of this link among the records, joined.
fn stream_of(alloc: Global, records: &[Record], link: u16) -> Result<Vec<u8>, AllocError> {
    let mut stream = Vec::new(alloc);
    for record in records {
        if record.link == link {
            stream.extend_from_slice(record.octets)?;
        }
    }
    Ok(stream)
}

/// What the first policy gives of the frames that are whole before the second one comes, and that one of the others.
fn expected(
    alloc: Global,
    links: &Links,
    before: &[u8],
    whole: &[u8],
) -> Result<Option<Took>, AllocError> {
    let begun = given(alloc, links, 0, before)?;
    let skipped = given(alloc, links, 1, before)?;
    let all = given(alloc, links, 1, whole)?;
    match (&begun, &skipped, &all) {
        (Some(begun), Some(skipped), Some(all)) => joined(alloc, begun, skipped, all),
        _ => Ok(None),
    }
}

/// What was begun, and then what comes of all after what was skipped.
fn joined(
    alloc: Global,
    begun: &Took,
    skipped: &Took,
    all: &Took,
) -> Result<Option<Took>, AllocError> {
    let out = then(alloc, &begun.out, &all.out, &skipped.out)?;
    let reports = then(alloc, &begun.reports, &all.reports, &skipped.reports)?;
    Ok(Some(Took { out, reports }))
}

/// What the policy of this number gives of a stream; none where there is no such policy.
fn given(
    alloc: Global,
    links: &Links,
    number: u8,
    stream: &[u8],
) -> Result<Option<Took>, AllocError> {
    match links.policy(alloc, number)? {
        Some(policy) => Ok(Some(ran(alloc, &policy, stream))),
        None => Ok(None),
    }
}

/// What the policy gives of a stream.
fn ran(alloc: Global, policy: &Policy, stream: &[u8]) -> Took {
    let mut source = Pieces::whole(stream);
    let mut out = Room::ample(alloc);
    let mut reports = Room::ample(alloc);
    let _ = run(alloc, &mut source, &mut out, &mut reports, policy);
    Took {
        out: out.into_octets(),
        reports: reports.into_octets(),
    }
}

/// The first octets, and then those of `all` that come after the octets before them.
fn then(alloc: Global, first: &[u8], all: &[u8], before: &[u8]) -> Result<Vec<u8>, AllocError> {
    let mut octets = Vec::from_slice(alloc, first)?;
    octets.extend_from_slice(all.strip_prefix(before).unwrap_or(b"(none)"))?;
    Ok(octets)
}
