//! `Policy::load`, `verdict`, `verdict_text` and `line`: verdicts by policies that are read from their texts.
use conformance_rows::{Layer, octets_in, text_of, texts_of, unknown};
use guard_model::OutOfMemory;
use guard_policy::{Policy, PolicyFault, Route};
use guard_report::{line, verdict_text};
use guard_schema::Schema;
use std::alloc::{AllocError, Global};

#[derive(Drop)]
pub struct Verdicts {
    modules: Option<Schema>,
    policy: Option<Policy>,
    /// The number of the report line that the rows ask for, in place of the verdict's text.
    number: Option<u64>,
}

impl Verdicts {
    fn load(&mut self, alloc: Global, text: &[u8]) -> Result<String, AllocError> {
        let Some(modules) = &self.modules else {
            return String::from_str(alloc, "no modules");
        };
        let loaded = Policy::load(alloc, text, modules);
        let said = counted(alloc, &loaded)?;
        self.policy = loaded.ok();
        Ok(said)
    }
}

/// How many messages and rules the policy of a text has, or its first fault.
pub fn counted(alloc: Global, loaded: &Result<Policy, PolicyFault>) -> Result<String, AllocError> {
    match loaded {
        Ok(policy) => {
            let (messages, rules) = (policy.messages(), policy.rules());
            format!(in alloc; "ok: messages {messages}, rules {rules}")
        }
        Err(PolicyFault::OutOfMemory) => Err(AllocError),
        Err(fault) => format!(in alloc; "{fault}"),
    }
}

/// The modules of texts, separated by `====`, kept in place of those before them.
pub fn keep_modules(
    alloc: Global,
    kept: &mut Option<Schema>,
    text: &[u8],
) -> Result<String, AllocError> {
    match Schema::build(alloc, &texts_of(alloc, text)?) {
        Ok(modules) => *kept = Some(modules),
        Err(fault) => return format!(in alloc; "{fault}"),
    }
    String::from_str(alloc, "ok")
}

/// The first word, and what follows it.
pub fn cut(text: &str) -> (&str, &str) {
    text.split_once(' ').unwrap_or((text, ""))
}

/// The text of the verdict on the octets, or its line.
fn decided(
    alloc: Global,
    policy: &Policy,
    route: &Route,
    octets: &[u8],
    number: Option<u64>,
) -> Result<Vec<u8>, OutOfMemory> {
    let verdict = policy.verdict(alloc, route, octets)?;
    match number {
        Some(number) => line(alloc, number, route, &verdict, policy),
        None => verdict_text(alloc, &verdict, route, policy),
    }
}

impl Layer for Verdicts {
    fn new(_alloc: Global) -> Verdicts {
        Verdicts {
            modules: None,
            policy: None,
            number: None,
        }
    }

    /// `FROM TO MESSAGE` and octets.
    fn answer(&mut self, alloc: Global, input: &[u8]) -> Result<String, AllocError> {
        let (from, rest) = cut(text_of(input));
        let (to, rest) = cut(rest);
        let (message, digits) = cut(rest);
        let route = Route {
            from: from.as_bytes(),
            to: to.as_bytes(),
            message: message.as_bytes(),
        };
        let Some(policy) = &self.policy else {
            return String::from_str(alloc, "no policy");
        };
        let Some(octets) = octets_in(alloc, digits)? else {
            return String::from_str(alloc, "no octets");
        };
        match decided(alloc, policy, &route, &octets, self.number) {
            Ok(text) => String::from_str(alloc, text_of(&text)),
            Err(OutOfMemory) => Err(AllocError),
        }
    }

    /// `@schema` with the text of a module sets the modules, `@policy` with its text the policy over them; `@line N`
    /// asks for lines, `@line none` for texts of verdicts.
    fn set(&mut self, alloc: Global, name: &str, text: &[u8]) -> Result<String, AllocError> {
        match name {
            "schema" => return keep_modules(alloc, &mut self.modules, text),
            "policy" => return self.load(alloc, text),
            "line" => self.number = text_of(text).parse::<u64>().ok(),
            _ => return unknown(alloc),
        }
        String::from_str(alloc, "ok")
    }
}
