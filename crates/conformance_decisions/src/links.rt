//! What comes of the events of many links.
ghost use Rattle.std.specs.Prelude.{◌≤◌, length, IfOk};

use crate::arrays::{Array, Holds};
use crate::link_orders::each_order;
use crate::streams::shown;
use conformance_rows::{Layer, unknown};
use guard_frames::{Ends, Event, Gateway, Kept, Sink, StepFault, Unwatched, load_texts};
use guard_policy::Policy;
use std::alloc::{AllocError, Global};

/// The texts of modules, those of policies over them, and how many links there are.
#[derive(Drop)]
pub struct Links {
    modules: Vec<Vec<u8>>,
    policies: Vec<Vec<u8>>,
    links: u8,
    asked: Asked,
}

/// What the rows ask.
#[derive(Clone, Copy)]
enum Asked {
    /// The faults of the events, and what each link's sinks took, which are in memory.
    Events,
    /// As many orders of its pieces as there are in which each link gives what `run` gives of its own stream.
    Orders,
    /// The faults of the events, and what each link's sinks took, which are arrays.
    Arrays,
}

impl Links {
    /// The policy of this number; none where there is no such text, or where it says none.
    pub fn policy(&self, alloc: Global, number: u8) -> Result<Option<Policy>, AllocError> {
        let mut modules: Vec<&[u8]> = Vec::new(alloc);
        for module in &self.modules {
            modules.push(module.as_slice())?;
        }
        let Some(text) = self.policies.get(usize::from(number)) else {
            return Ok(None);
        };
        match load_texts(alloc, &modules, text) {
            Ok(policy) => Ok(Some(policy)),
            Err(_) => Ok(None),
        }
    }

    /// A gateway of so many links under the first policy; none where there is no such policy.
    pub fn gateway(&self, alloc: Global) -> Result<Option<Gateway<Kept>>, AllocError> {
        let Some(policy) = self.policy(alloc, 0)? else {
            return Ok(None);
        };
        let ends = sinks(alloc, self.links)?;
        match Gateway::new(alloc, policy, ends) {
            Ok(gateway) => Ok(Some(gateway)),
            Err(_) => Ok(None),
        }
    }

    /// What comes of the events that records say: the faults, and what the sinks of each link took.
    fn comes<S: Holds>(
        &self,
        alloc: Global,
        gateway: &mut Gateway<S>,
        records: &[Record],
    ) -> Result<String, AllocError> {
        let mut said = self.faults(alloc, gateway, records)?;
        for link in 0..self.links {
            add_ends(alloc, &mut said, gateway, link)?;
        }
        String::from_str(alloc, said.trim_end())
    }

    /// What comes of the events where the sinks of each link are arrays.
    fn comes_in_arrays(&self, alloc: Global, records: &[Record]) -> Result<String, AllocError> {
        let Some(policy) = self.policy(alloc, 0)? else {
            return String::from_str(alloc, "no gateway");
        };
        let ends = arrays(alloc, self.links)?;
        match Gateway::new(alloc, policy, ends) {
            Ok(mut gateway) => self.comes(alloc, &mut gateway, records),
            Err(_) => String::from_str(alloc, "no gateway"),
        }
    }

    /// The faults of the events that records say.
    fn faults<S: Sink>(
        &self,
        alloc: Global,
        gateway: &mut Gateway<S>,
        records: &[Record],
    ) -> Result<String, AllocError> {
        let mut said = String::new(alloc);
        for record in records {
            if let Err(fault) = self.step(alloc, gateway, record)? {
                write!(said, "{} {fault}; ", record.link)?;
            }
        }
        Ok(said)
    }

    /// What is answered to the event that a record says.
    fn step<S: Sink>(
        &self,
        alloc: Global,
        gateway: &mut Gateway<S>,
        record: &Record,
    ) -> Result<Result<(), StepFault>, AllocError> {
        let event = match record.kind {
            0 => Event::Piece(record.link, record.octets),
            1 => Event::End(record.link),
            number => match self.policy(alloc, number - 2)? {
                Some(policy) => Event::Reload(policy),
                None => return Ok(Ok(())),
            },
        };
        Ok(gateway.step(alloc, event, &mut Unwatched))
    }
}

/// Says what the sinks of a link took.
fn add_ends<S: Holds>(
    alloc: Global,
    said: &mut String,
    gateway: &mut Gateway<S>,
    link: u8,
) -> Result<(), AllocError> {
    let Some(ends) = gateway.ends_mut(u16::from(link)) else {
        return Ok(());
    };
    let out = shown(alloc, ends.out.held())?;
    let reports = shown(alloc, ends.reports.held())?;
    write!(said, "{link} <{out}> <{reports}> ")
}

/// So many pairs of sinks in memory.
fn sinks(alloc: Global, count: u8) -> Result<Vec<Ends<Kept>>, AllocError>
    ensures { IfOk result (λ ends. length ends.items ≤ 65535) }
{
    let mut ends = Vec::new(alloc);
    for _ in 0..count {
        ends.push(Ends {
            out: Kept::new(alloc),
            reports: Kept::new(alloc),
        })?;
    }
    Ok(ends)
}

/// So many pairs of sinks that are arrays.
fn arrays(alloc: Global, count: u8) -> Result<Vec<Ends<Array>>, AllocError>
    ensures { IfOk result (λ ends. length ends.items ≤ 65535) }
{
    let mut ends = Vec::new(alloc);
    for _ in 0..count {
        ends.push(Ends {
            out: Array::new(),
            reports: Array::new(),
        })?;
    }
    Ok(ends)
}

/// One event: its kind (0 a piece, 1 an end, from 2 on the policies in their order), the number of its link in two
/// octets, and octets after their length in four.
#[derive(Clone, Copy)]
pub struct Record<'a> {
    pub kind: u8,
    pub link: u16,
    pub octets: &'a [u8],
}

/// The first record, and what follows it.
fn first_record(octets: &[u8]) -> Option<(Record<'_>, &[u8])> {
    match octets {
        [kind, high, low, _, _, above, length, rest @ ..] => {
            let length = usize::from(u16::from_be_bytes([*above, *length]));
            let (octets, rest) = rest.split_at_checked(length)?;
            let record = Record {
                kind: *kind,
                link: u16::from_be_bytes([*high, *low]),
                octets,
            };
            Some((record, rest))
        }
        _ => None,
    }
}

/// The most events of a row.
const MOST_EVENTS: usize = 32;

/// The records that the octets are.
fn records_in(alloc: Global, octets: &[u8]) -> Result<Vec<Record<'_>>, AllocError> {
    let mut records = Vec::new(alloc);
    let mut rest = octets;
    for _ in 0..MOST_EVENTS {
        let Some((record, more)) = first_record(rest) else {
            break;
        };
        records.push(record)?;
        rest = more;
    }
    Ok(records)
}

impl Layer for Links {
    fn new(alloc: Global) -> Links {
        Links {
            modules: Vec::new(alloc),
            policies: Vec::new(alloc),
            links: 0,
            asked: Asked::Events,
        }
    }

    fn answer(&mut self, alloc: Global, input: &[u8]) -> Result<String, AllocError> {
        let records = records_in(alloc, input)?;
        match self.asked {
            Asked::Events => {}
            Asked::Orders => return each_order(alloc, self, &records),
            Asked::Arrays => return self.comes_in_arrays(alloc, &records),
        }
        let Some(mut gateway) = self.gateway(alloc)? else {
            return String::from_str(alloc, "no gateway");
        };
        self.comes(alloc, &mut gateway, &records)
    }

    /// `@modules` begins new lists, `@module TEXT` adds the text of a module, `@policy TEXT` that of a policy, and
    /// `@links OCTET` says how many links there are. `@ask orders`, `@ask arrays` and `@ask events` say what
    /// a row asks.
    fn set(&mut self, alloc: Global, name: &str, text: &[u8]) -> Result<String, AllocError> {
        match (name, text) {
            ("modules", _) => {
                self.modules.clear();
                self.policies.clear();
            }
            ("module", text) => self.modules.push(Vec::from_slice(alloc, text)?)?,
            ("policy", text) => self.policies.push(Vec::from_slice(alloc, text)?)?,
            ("links", [count]) => self.links = *count,
            ("ask", b"orders") => self.asked = Asked::Orders,
            ("ask", b"arrays") => self.asked = Asked::Arrays,
            ("ask", b"events") => self.asked = Asked::Events,
            _ => return unknown(alloc),
        }
        String::from_str(alloc, "ok")
    }
}
