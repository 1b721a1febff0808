//! `guard_report`: the text of a verdict that is written in the row, under a policy.
use crate::verdicts::{counted, cut, keep_modules};
use crate::written_verdicts::verdict_of;
use conformance_rows::{Layer, text_of, unknown};
use guard_model::OutOfMemory;
use guard_policy::{Policy, Route};
use guard_report::verdict_text;
use guard_schema::Schema;
use std::alloc::{AllocError, Global};

#[derive(Drop)]
pub struct Reports {
    modules: Option<Schema>,
    policy: Option<Policy>,
}

impl Reports {
    fn load(&mut self, alloc: Global, text: &[u8]) -> Result<String, AllocError> {
        let Some(modules) = &self.modules else {
            return String::from_str(alloc, "no modules");
        };
        let loaded = Policy::load(alloc, text, modules);
        let said = counted(alloc, &loaded)?;
        self.policy = loaded.ok();
        Ok(said)
    }
}

impl Layer for Reports {
    fn new(_alloc: Global) -> Reports {
        Reports {
            modules: None,
            policy: None,
        }
    }

    /// `FROM TO MESSAGE` and a verdict.
    fn answer(&mut self, alloc: Global, input: &[u8]) -> Result<String, AllocError> {
        let (from, rest) = cut(text_of(input));
        let (to, rest) = cut(rest);
        let (message, written) = cut(rest);
        let route = Route {
            from: from.as_bytes(),
            to: to.as_bytes(),
            message: message.as_bytes(),
        };
        let Some(policy) = &self.policy else {
            return String::from_str(alloc, "no policy");
        };
        let Some(verdict) = verdict_of(alloc, written)? else {
            return String::from_str(alloc, "no verdict");
        };
        match verdict_text(alloc, &verdict, &route, policy) {
            Ok(text) => String::from_str(alloc, text_of(&text)),
            Err(OutOfMemory) => Err(AllocError),
        }
    }

    /// `@schema` with the texts of modules, `@policy` with the text of a policy over them.
    fn set(&mut self, alloc: Global, name: &str, text: &[u8]) -> Result<String, AllocError> {
        match name {
            "schema" => keep_modules(alloc, &mut self.modules, text),
            "policy" => self.load(alloc, text),
            _ => unknown(alloc),
        }
    }
}
