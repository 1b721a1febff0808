//! Verdicts as rows write them: `Undecodable Truncated 7 $.0`, `NotAllowed 0 1:3:18 $, 1 2:9:44 $.0[2]`. Rules and
//! components are written by their places, from 0.
use guard_der::{Breach, Code};
use guard_eval::Violation;
use guard_model::{Path, Site, Step};
use guard_policy::Verdict;
use std::alloc::{AllocError, Global};

const CODES: [(&str, Code); 23] = [
    ("Truncated", Code::Truncated),
    ("TagForm", Code::TagForm),
    ("IndefiniteLength", Code::IndefiniteLength),
    ("NonMinimalLength", Code::NonMinimalLength),
    ("LengthTooLarge", Code::LengthTooLarge),
    ("UnexpectedTag", Code::UnexpectedTag),
    ("MissingComponent", Code::MissingComponent),
    ("WrongForm", Code::WrongForm),
    ("BooleanContents", Code::BooleanContents),
    ("IntegerContents", Code::IntegerContents),
    ("IntegerTooLong", Code::IntegerTooLong),
    ("UnknownEnumeration", Code::UnknownEnumeration),
    ("NullContents", Code::NullContents),
    ("BitStringContents", Code::BitStringContents),
    ("UnusedBits", Code::UnusedBits),
    ("TrailingZeroBit", Code::TrailingZeroBit),
    ("ObjectIdContents", Code::ObjectIdContents),
    ("ObjectIdTooLong", Code::ObjectIdTooLong),
    ("Characters", Code::Characters),
    ("SetOrder", Code::SetOrder),
    ("SetOfOrder", Code::SetOfOrder),
    ("DefaultPresent", Code::DefaultPresent),
    ("TrailingOctets", Code::TrailingOctets),
];

/// The verdict that the text writes, if it writes one.
pub fn verdict_of(alloc: Global, text: &str) -> Result<Option<Verdict>, AllocError> {
    let (word, rest) = text.split_once(' ').unwrap_or((text, ""));
    match word {
        "NotAllowed" => not_allowed(alloc, rest),
        _ => Ok(verdict_of_one(word, rest)),
    }
}

/// A verdict that names one rule, one violation or one breach at most.
fn verdict_of_one(word: &str, rest: &str) -> Option<Verdict> {
    match word {
        "Pass" => Some(Verdict::Pass),
        "UnknownMessage" => Some(Verdict::UnknownMessage),
        "Undecodable" => Some(Verdict::Undecodable(breach_of(rest)?)),
        "OutsideType" => Some(Verdict::OutsideType(violation_of(rest)?)),
        "DeniedBy" => Some(Verdict::DeniedBy(rest.parse::<usize>().ok()?)),
        "NoRule" => Some(Verdict::NoRule),
        _ => None,
    }
}

fn not_allowed(alloc: Global, text: &str) -> Result<Option<Verdict>, AllocError> {
    match shortfalls_of(alloc, text)? {
        Some(shortfalls) => Ok(Some(Verdict::NotAllowed(shortfalls))),
        None => Ok(None),
    }
}

/// `NAME OFFSET PATH`
fn breach_of(text: &str) -> Option<Breach> {
    let (name, rest) = text.split_once(' ')?;
    let (at, path) = rest.split_once(' ')?;
    Some(Breach {
        code: code_of(name)?,
        at: at.parse::<usize>().ok()?,
        path: path_of(path)?,
    })
}

fn code_of(name: &str) -> Option<Code> {
    for (known, code) in &CODES {
        if *known == name {
            return Some(*code);
        }
    }
    None
}

/// `RULE SITE PATH`, and more of them, separated by commas.
fn shortfalls_of(alloc: Global, text: &str) -> Result<Option<Vec<(usize, Violation)>>, AllocError> {
    let mut shortfalls = Vec::new(alloc);
    for part in text.split(", ") {
        let Some(shortfall) = shortfall_of(part) else {
            return Ok(None);
        };
        shortfalls.push(shortfall)?;
    }
    Ok(Some(shortfalls))
}

fn shortfall_of(text: &str) -> Option<(usize, Violation)> {
    let (rule, violation) = text.split_once(' ')?;
    Some((rule.parse::<usize>().ok()?, violation_of(violation)?))
}

/// `SITE PATH`
fn violation_of(text: &str) -> Option<Violation> {
    let (site, path) = text.split_once(' ')?;
    Some(Violation {
        site: site_of(site)?,
        path: path_of(path)?,
    })
}

fn site_of(text: &str) -> Option<Site> {
    let (text, rest) = text.split_once(':')?;
    let (line, column) = rest.split_once(':')?;
    Some(Site {
        text: text.parse::<u32>().ok()?,
        line: line.parse::<u32>().ok()?,
        column: column.parse::<u32>().ok()?,
    })
}

/// `$.2[12].0`
fn path_of(text: &str) -> Option<Path> {
    let mut path = Path::new();
    let steps = text.strip_prefix('$')?;
    for step in steps.split('.') {
        add_steps(&mut path, step)?;
    }
    Some(path)
}

/// Adds the steps of `2[12]`, to a component and an element of it; there may be no component in front.
fn add_steps(path: &mut Path, text: &str) -> Option<()> {
    let (component, element) = text.split_once('[').unwrap_or((text, ""));
    if !component.is_empty() {
        let place = component.parse::<u8>().ok()?;
        path.try_push(Step::Component(place)).ok()?;
    }
    if !element.is_empty() {
        let place = element.strip_suffix(']')?.parse::<u32>().ok()?;
        path.try_push(Step::Element(place)).ok()?;
    }
    Some(())
}
