//! `module_files`, `Policy::load` and `Route::is_plain`: what the text of a policy says over modules, else its first
//! fault.
use crate::verdicts::{counted, keep_modules};
use conformance_rows::{Layer, text_of, unknown};
use guard_policy::{Policy, PolicyFault, Route, module_files};
use guard_schema::Schema;
use std::alloc::{AllocError, Global};

/// What the rows ask.
#[derive(Clone, Copy, Drop)]
enum Asked {
    /// How many messages and rules the policy of a text has.
    Load,
    /// The files of modules that a text lists.
    Files,
    /// Whether the sender, the receiver and the name of a message are names.
    Plain,
}

#[derive(Drop)]
pub struct Policies {
    asked: Asked,
    before: Vec<u8>,
    modules: Option<Schema>,
}

impl Policies {
    /// The text of a policy, with what is before it.
    fn whole(&self, alloc: Global, text: &[u8]) -> Result<Vec<u8>, AllocError> {
        let mut whole = Vec::from_slice(alloc, &self.before)?;
        whole.extend_from_slice(text)?;
        Ok(whole)
    }

    fn loaded(&self, alloc: Global, text: &[u8]) -> Result<String, AllocError> {
        match &self.modules {
            Some(modules) => counted(alloc, &Policy::load(alloc, text, modules)),
            None => String::from_str(alloc, "no modules"),
        }
    }
}

/// The files, separated by spaces.
fn listed(alloc: Global, text: &[u8]) -> Result<String, AllocError> {
    match module_files(alloc, text) {
        Ok(files) if files.is_empty() => String::from_str(alloc, "none"),
        Ok(files) => joined(alloc, &files),
        Err(PolicyFault::OutOfMemory) => Err(AllocError),
        Err(fault) => format!(in alloc; "{fault}"),
    }
}

fn joined(alloc: Global, names: &[String]) -> Result<String, AllocError> {
    let mut text = String::new(alloc);
    for name in names {
        if !text.is_empty() {
            text.push_str(" ")?;
        }
        text.push_str(name)?;
    }
    Ok(text)
}

/// Whether `FROM TO MESSAGE` are names.
fn plain(alloc: Global, text: &str) -> Result<String, AllocError> {
    let (from, rest) = text.split_once(' ').unwrap_or((text, ""));
    let (to, message) = rest.split_once(' ').unwrap_or((rest, ""));
    let route = Route {
        from: from.as_bytes(),
        to: to.as_bytes(),
        message: message.as_bytes(),
    };
    let answer = if route.is_plain() {
        "plain"
    } else {
        "not plain"
    };
    String::from_str(alloc, answer)
}

impl Layer for Policies {
    fn new(alloc: Global) -> Policies {
        Policies {
            asked: Asked::Load,
            before: Vec::new(alloc),
            modules: None,
        }
    }

    fn answer(&mut self, alloc: Global, input: &[u8]) -> Result<String, AllocError> {
        let text = self.whole(alloc, input)?;
        match self.asked {
            Asked::Load => self.loaded(alloc, &text),
            Asked::Files => listed(alloc, &text),
            Asked::Plain => plain(alloc, text_of(&text)),
        }
    }

    /// `@schema` with the text of a module sets the modules; `@before` what is before each text; `@ask load`,
    /// `@ask files` and `@ask plain`.
    fn set(&mut self, alloc: Global, name: &str, text: &[u8]) -> Result<String, AllocError> {
        match (name, text_of(text)) {
            ("schema", _) => return keep_modules(alloc, &mut self.modules, text),
            ("before", _) => self.before = Vec::from_slice(alloc, text)?,
            ("ask", "load") => self.asked = Asked::Load,
            ("ask", "files") => self.asked = Asked::Files,
            ("ask", "plain") => self.asked = Asked::Plain,
            _ => return unknown(alloc),
        }
        String::from_str(alloc, "ok")
    }
}
