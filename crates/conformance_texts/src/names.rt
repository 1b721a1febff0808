//! `guard_names`: the order of the definitions in a list of modules, or the fault of their names; what a name means;
//! and where a definition is.
use crate::answers::{definition, ends_of_order, order};
use crate::asking::{AsksNames, ask_names};
use crate::large::large;
use conformance_rows::{Layer, text_of, unknown};
use guard_names::Names;
use std::alloc::{AllocError, Global};

/// What the rows ask.
#[derive(Clone, Copy)]
enum Asked {
    /// The order of the definitions in these texts.
    Order,
    /// The definition that a name means in a module of the texts that are kept, by `MODULE NAME`.
    Meaning,
    /// The definition at this place of the order of the texts that are kept.
    Place,
    /// How many definitions there are in texts that a word makes, and the first and the last one in order.
    Large,
}

#[derive(Drop)]
pub struct NamesRows {
    asked: Asked,
    kept: String,
}

/// A row, and what it asks of names.
#[derive(Clone, Copy)]
struct Row<'a> {
    asked: Asked,
    input: &'a str,
}

impl AsksNames for Row<'_> {
    fn answer_on(&self, alloc: Global, names: &Names) -> Result<String, AllocError> {
        match self.asked {
            Asked::Order => order(alloc, names),
            Asked::Meaning => meaning(alloc, names, self.input),
            Asked::Place => at_place(alloc, names, self.input),
            Asked::Large => ends_of_order(alloc, names),
        }
    }
}

/// The definition that a name means, by `MODULE NAME`.
fn meaning(alloc: Global, names: &Names, input: &str) -> Result<String, AllocError> {
    let Some((module, name)) = input.split_once(' ') else {
        return String::from_str(alloc, "no name");
    };
    match names.find(module, name) {
        Some(id) => definition(alloc, names.home(id)),
        None => definition(alloc, None),
    }
}

/// The definition at this place of the order, from 0.
fn at_place(alloc: Global, names: &Names, input: &str) -> Result<String, AllocError> {
    let place = input.parse::<usize>().unwrap_or(usize::MAX);
    match names.order().get(place) {
        Some(id) => definition(alloc, names.home(*id)),
        None => definition(alloc, None),
    }
}

impl Layer for NamesRows {
    fn new(alloc: Global) -> NamesRows {
        NamesRows {
            asked: Asked::Order,
            kept: String::new(alloc),
        }
    }

    fn answer(&mut self, alloc: Global, input: &[u8]) -> Result<String, AllocError> {
        let row = Row {
            asked: self.asked,
            input: text_of(input),
        };
        match row.asked {
            Asked::Order => ask_names(alloc, row.input, &row),
            Asked::Meaning | Asked::Place => ask_names(alloc, &self.kept, &row),
            Asked::Large => ask_names(alloc, &large(alloc, row.input)?, &row),
        }
    }

    /// `@ask order`, `@ask large`; `@modules` with texts that are kept, `@ask meaning` and `@ask place` of them.
    fn set(&mut self, alloc: Global, name: &str, text: &[u8]) -> Result<String, AllocError> {
        match (name, text_of(text)) {
            ("ask", "order") => self.asked = Asked::Order,
            ("ask", "meaning") => self.asked = Asked::Meaning,
            ("ask", "place") => self.asked = Asked::Place,
            ("ask", "large") => self.asked = Asked::Large,
            ("modules", texts) => self.kept = String::from_str(alloc, texts)?,
            _ => return unknown(alloc),
        }
        String::from_str(alloc, "ok")
    }
}
