//! `header`: the header at an offset, or why none is there.
use conformance_rows::{Layer, not_read, octets_in, text_of, unknown};
use guard_der::{Header, header};
use guard_model::Class;
use std::alloc::{AllocError, Global};

#[derive(Drop)]
pub struct Headers;

/// `OCTETS at OFFSET`, or `OCTETS` for the offset 0.
fn parts_of(text: &str) -> (&str, usize) {
    match text.rsplit_once("at ") {
        Some((octets, offset)) => (octets, offset.parse::<usize>().unwrap_or(usize::MAX)),
        None => (text, 0),
    }
}

/// The class of a tag as it is written in front of its number.
fn class_text(class: Class) -> &'static str {
    match class {
        Class::Universal => "UNIVERSAL ",
        Class::Application => "APPLICATION ",
        Class::Context => "",
        Class::Private => "PRIVATE ",
    }
}

/// The tag, the form, and where the contents begin and end.
fn header_text(alloc: Global, header: &Header) -> Result<String, AllocError> {
    let class = class_text(header.tag.class);
    let number = header.tag.number;
    let form = if header.constructed {
        "constructed"
    } else {
        "primitive"
    };
    let Header { contents, end, .. } = header;
    format!(in alloc; "[{class}{number}] {form} {contents}..{end}")
}

impl Layer for Headers {
    fn new(_alloc: Global) -> Headers {
        Headers
    }

    fn answer(&mut self, alloc: Global, input: &[u8]) -> Result<String, AllocError> {
        let (digits, at) = parts_of(text_of(input));
        let Some(octets) = octets_in(alloc, digits)? else {
            return not_read(alloc);
        };
        if at > octets.len() {
            return not_read(alloc);
        }
        match header(&octets, at) {
            Ok(header) => header_text(alloc, &header),
            Err(breach) => format!(in alloc; "{breach}"),
        }
    }

    fn set(&mut self, alloc: Global, _name: &str, _text: &[u8]) -> Result<String, AllocError> {
        unknown(alloc)
    }
}
