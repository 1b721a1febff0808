//! How sites, paths and OutOfMemory print.
use conformance_rows::{Layer, not_read, text_of, unknown};
use guard_constraints::ConsFault;
use guard_der::{DecodeFault, EncodeFault};
use guard_model::{OutOfMemory, Path, PathText, Site, Step};
use guard_names::NameFault;
use guard_syntax::SyntaxFault;
use guard_tagging::TagFault;
use guard_values::ValueFault;
use std::alloc::{AllocError, Global};

#[derive(Drop)]
pub struct Printed;

/// `TEXT LINE COLUMN`
fn site_of(numbers: &str) -> Option<Site> {
    let (text, place) = numbers.split_once(' ')?;
    let (line, column) = place.split_once(' ')?;
    Some(Site {
        text: text.parse::<u32>().ok()?,
        line: line.parse::<u32>().ok()?,
        column: column.parse::<u32>().ok()?,
    })
}

/// `component 1` or `element 0`
fn step_of(words: &str) -> Option<Step> {
    match words.trim().split_once(' ')? {
        ("component", place) => Some(Step::Component(place.parse::<u8>().ok()?)),
        ("element", place) => Some(Step::Element(place.parse::<u32>().ok()?)),
        _ => None,
    }
}

/// Steps, separated by commas.
fn path_of(steps: &str) -> Option<Path> {
    let mut path = Path::new();
    for words in steps.split(',') {
        path.try_push(step_of(words)?).ok()?;
    }
    Some(path)
}

fn site_text(alloc: Global, numbers: &str) -> Result<String, AllocError> {
    match site_of(numbers) {
        Some(site) => format!(in alloc; "{site}"),
        None => not_read(alloc),
    }
}

fn path_text(alloc: Global, steps: &str) -> Result<String, AllocError> {
    match path_of(steps) {
        Some(path) => format!(in alloc; "{}", PathText(&path)),
        None => not_read(alloc),
    }
}

fn fault_text(alloc: Global, name: &str) -> Result<String, AllocError> {
    match name {
        "parse OutOfMemory" => format!(in alloc; "{}", SyntaxFault::OutOfMemory),
        "resolve OutOfMemory" => format!(in alloc; "{}", NameFault::OutOfMemory),
        "skeleton OutOfMemory" => format!(in alloc; "{}", TagFault::OutOfMemory),
        "value OutOfMemory" => format!(in alloc; "{}", ValueFault::OutOfMemory),
        "constraint OutOfMemory" => format!(in alloc; "{}", ConsFault::OutOfMemory),
        "copy OutOfMemory" => format!(in alloc; "{OutOfMemory}"),
        "encode OutOfMemory" => format!(in alloc; "{}", EncodeFault::OutOfMemory),
        "decode OutOfMemory" => format!(in alloc; "{}", DecodeFault::OutOfMemory),
        _ => not_read(alloc),
    }
}

impl Layer for Printed {
    fn new(_alloc: Global) -> Printed {
        Printed
    }

    fn answer(&mut self, alloc: Global, input: &[u8]) -> Result<String, AllocError> {
        match text_of(input).split_once(' ') {
            Some(("site", numbers)) => site_text(alloc, numbers),
            Some(("path", steps)) => path_text(alloc, steps),
            _ => fault_text(alloc, text_of(input)),
        }
    }

    fn set(&mut self, alloc: Global, _name: &str, _text: &[u8]) -> Result<String, AllocError> {
        unknown(alloc)
    }
}
