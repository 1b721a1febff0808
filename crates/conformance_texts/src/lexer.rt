//! `guard_lexer`: a text's tokens, each with its kind and its span or its site, or the text's fault.
use conformance_rows::{Layer, text_of, unknown};
use guard_lexer::{Token, tokens};
use std::alloc::{AllocError, Global};

/// What is shown of each token after its kind.
#[derive(Drop)]
enum Shown {
    Spans,
    Sites,
}

#[derive(Drop)]
pub struct Lexer {
    shown: Shown,
    /// The place of the texts in the list of texts.
    place: u32,
}

impl Lexer {
    /// The tokens, separated by semicolons.
    fn listed(&self, alloc: Global, found: &[Token]) -> Result<String, AllocError> {
        if found.is_empty() {
            return String::from_str(alloc, "no token");
        }
        let mut text = String::new(alloc);
        for token in found {
            if !text.is_empty() {
                text.push_str("; ")?;
            }
            text.push_str(&self.token(alloc, token)?)?;
        }
        Ok(text)
    }

    fn token(&self, alloc: Global, token: &Token) -> Result<String, AllocError> {
        let Token {
            kind,
            start,
            end,
            site,
        } = *token;
        match self.shown {
            Shown::Spans => format!(in alloc; "{kind:?} {start}-{end}"),
            Shown::Sites => format!(in alloc; "{kind:?} {site}"),
        }
    }
}

impl Layer for Lexer {
    fn new(_alloc: Global) -> Lexer {
        Lexer {
            shown: Shown::Spans,
            place: 1,
        }
    }

    fn answer(&mut self, alloc: Global, input: &[u8]) -> Result<String, AllocError> {
        match tokens(alloc, self.place, input) {
            Ok(found) => self.listed(alloc, &found),
            Err(fault) => format!(in alloc; "{fault}"),
        }
    }

    /// `@show spans`, `@show sites`, or `@place 3` for the texts' place.
    fn set(&mut self, alloc: Global, name: &str, text: &[u8]) -> Result<String, AllocError> {
        match (name, text_of(text)) {
            ("show", "spans") => self.shown = Shown::Spans,
            ("show", "sites") => self.shown = Shown::Sites,
            ("place", number) => self.place = number.parse::<u32>().unwrap_or(0),
            _ => return unknown(alloc),
        }
        String::from_str(alloc, "ok")
    }
}
