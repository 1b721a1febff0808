//! What comes of streams under the policy that texts say.
use crate::devices::{Pieces, Room};
use crate::streams::shown;
use conformance_rows::{Layer, unknown};
use guard_frames::{TextsFault, Totals, run_texts};
use std::alloc::{AllocError, Global};

/// The texts of modules, and that of a policy.
#[derive(Drop)]
pub struct TextStreams {
    modules: Vec<Vec<u8>>,
    policy: Vec<u8>,
}

/// How a run ended, what went out, the reports, and how many octets it left in its source.
fn ending(
    alloc: Global,
    end: Result<Totals, TextsFault>,
    out: &[u8],
    reports: &[u8],
    left: usize,
) -> Result<String, AllocError> {
    let out = shown(alloc, out)?;
    let reports = shown(alloc, reports)?;
    match end {
        Ok(totals) => {
            let Totals {
                frames,
                passed,
                denied,
            } = totals;
            format!(in alloc; "{frames} {passed} {denied} <{out}> <{reports}> {left}")
        }
        Err(fault) => format!(in alloc; "{fault} <{out}> <{reports}> {left}"),
    }
}

impl Layer for TextStreams {
    fn new(alloc: Global) -> TextStreams {
        TextStreams {
            modules: Vec::new(alloc),
            policy: Vec::new(alloc),
        }
    }

    fn answer(&mut self, alloc: Global, input: &[u8]) -> Result<String, AllocError> {
        let mut modules: Vec<&[u8]> = Vec::new(alloc);
        for module in &self.modules {
            modules.push(module.as_slice())?;
        }
        let mut source = Pieces::whole(input);
        let mut out = Room::ample(alloc);
        let mut reports = Room::ample(alloc);
        let end = run_texts(
            alloc,
            &modules,
            &self.policy,
            &mut source,
            &mut out,
            &mut reports,
        );
        let left = source.left().len();
        ending(alloc, end, out.octets(), reports.octets(), left)
    }

    /// `@modules` begins a new list, `@module TEXT` adds the text of one, `@policy TEXT` is that of a policy.
    fn set(&mut self, alloc: Global, name: &str, text: &[u8]) -> Result<String, AllocError> {
        match name {
            "modules" => self.modules.clear(),
            "module" => self.modules.push(Vec::from_slice(alloc, text)?)?,
            "policy" => self.policy = Vec::from_slice(alloc, text)?,
            _ => return unknown(alloc),
        }
        String::from_str(alloc, "ok")
    }
}
