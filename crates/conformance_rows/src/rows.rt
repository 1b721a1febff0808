//! The lines of a file of rows.
use crate::escapes::octets_of;
use crate::layer::Layer;
use crate::tally::Tally;
use std::alloc::{AllocError, Global};
use std::rt::Files;
use std::{fs, io};

const NO_ESCAPE: &str = "(a backslash begins nothing)";

/// Where memory ran out. The rows below it are tried all the same.
const NO_MEMORY: &str = "OutOfMemory";

/// Reads a file of rows, prints each row whose answer isn't the expected one, with both, and then how many rows there
/// were, and adds them to the tally.
pub(crate) fn check_rows<R: Files + Print + AllocGlobal, L: Layer>(
    rt: &R,
    tally: &mut Tally,
    file: &str,
    layer: &mut L,
) -> io::Result<()> {
    let text = read(rt, file)?;
    let mut rows = Rows {
        file,
        before: Vec::new(rt.alloc()),
        read: 0,
        differing: 0,
    };
    for (index, line) in text.lines().enumerate() {
        rows.take(rt, layer, index.saturating_add(1), line)?;
    }
    tally.rows = tally.rows.saturating_add(rows.read);
    tally.differing = tally.differing.saturating_add(rows.differing);
    rows.close(rt)
}

/// The text of a file.
pub(crate) fn read<R: Files + AllocGlobal>(rt: &R, file: &str) -> io::Result<String> {
    if let Ok(text) = fs::read_to_string(rt, file) {
        return Ok(text);
    }
    let path = format!(in rt.alloc(); "data/{file}")?;
    fs::read_to_string(rt, path.as_str())
}

/// What has been read of a file.
#[derive(Drop)]
struct Rows<'a> {
    file: &'a str,
    /// The lines in front of the next row's input.
    before: Vec<u8>,
    read: u32,
    differing: u32,
}

impl Rows<'_> {
    /// Takes the next line.
    fn take<R: Files + Print + AllocGlobal, L: Layer>(
        &mut self,
        rt: &R,
        layer: &mut L,
        number: usize,
        line: &str,
    ) -> io::Result<()> {
        if line.is_empty() || line == "#" || line.starts_with("# ") {
            return Ok(());
        }
        if let Some(file) = line.strip_prefix("|< ") {
            let text = read(rt, file)?;
            self.before.extend_from_slice(text.as_bytes())?;
            return Ok(());
        }
        if let Some(text) = line.strip_prefix('|') {
            let text = text.strip_prefix(' ').unwrap_or(text);
            return match self.keep(rt.alloc(), text)? {
                true => Ok(()),
                false => self.differs(rt, number, line, NO_ESCAPE),
            };
        }
        let Some((input, expected)) = line.split_once("=>") else {
            return self.differs(rt, number, line, "(a row has =>)");
        };
        self.read = self.read.saturating_add(1);
        let answer = self.answer_to(rt.alloc(), layer, input.trim());
        self.before.clear();
        match answer {
            Ok(answer) => self.compare(rt, number, line, expected.trim(), &answer),
            Err(AllocError) => self.differs(rt, number, line, NO_MEMORY),
        }
    }

    /// Prints the row unless its answer is the one that is expected.
    fn compare<R: Print + AllocGlobal>(
        &mut self,
        rt: &R,
        number: usize,
        line: &str,
        expected: &str,
        answer: &str,
    ) -> io::Result<()> {
        match octets_of(rt.alloc(), expected)? {
            Some(expected) if expected.as_slice() == answer.as_bytes() => Ok(()),
            _ => self.differs(rt, number, line, answer),
        }
    }

    /// Keeps a line for the next row's input, and answers whether each backslash in it begins something.
    fn keep(&mut self, alloc: Global, text: &str) -> Result<bool, AllocError> {
        let Some(octets) = octets_of(alloc, text)? else {
            return Ok(false);
        };
        self.before.extend_from_slice(&octets)?;
        self.before.push(b'\n')?;
        Ok(true)
    }

    /// What the layer answers to an input, or why that is none.
    fn answer_to<L: Layer>(
        &mut self,
        alloc: Global,
        layer: &mut L,
        input: &str,
    ) -> Result<String, AllocError> {
        let (name, text) = match input.strip_prefix('@') {
            None => (None, input),
            Some(directive) => match directive.split_once(' ') {
                None => (Some(directive), ""),
                Some((name, text)) => (Some(name), text.trim_start()),
            },
        };
        let Some(octets) = octets_of(alloc, text)? else {
            return String::from_str(alloc, NO_ESCAPE);
        };
        self.before.extend_from_slice(&octets)?;
        match name {
            None => layer.answer(alloc, &self.before),
            Some(name) => layer.set(alloc, name, &self.before),
        }
    }

    /// Prints a row whose answer isn't the expected one.
    fn differs<R: Print>(
        &mut self,
        rt: &R,
        number: usize,
        line: &str,
        answer: &str,
    ) -> io::Result<()> {
        self.differing = self.differing.saturating_add(1);
        let file = self.file;
        println!(rt; "{file}:{number}: {line}")?;
        println!(rt; "    answered: {answer}")
    }

    /// Prints how many rows there were.
    fn close<R: Print>(&self, rt: &R) -> io::Result<()> {
        let file = self.file;
        let read = self.read;
        let differing = self.differing;
        if differing == 0 {
            println!(rt; "{file}: {read} rows")
        } else {
            println!(rt; "{file}: {read} rows, {differing} with another answer")
        }
    }
}
