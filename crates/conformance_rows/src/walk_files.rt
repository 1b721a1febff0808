//! Rows of other layers' files, and octets that are near theirs: whether two ways to judge them agree.
use crate::escapes::octets_of;
use crate::near::Compared;
use crate::rows::read;
use std::alloc::{AllocError, Global};
use std::io;
use std::rt::Files;

/// What comes above a row, and how a row is tried under it.
pub trait Subject: Drop {
    /// Sets for the rows below what the line `@NAME TEXT` names, if that is of use here.
    fn set(&mut self, alloc: Global, name: &str, text: &[u8]) -> Result<(), AllocError>;

    /// Tries the octets of a row and those near them, and answers whether the row has some.
    fn try_row(
        &self,
        alloc: Global,
        row: &[u8],
        compared: &mut Compared,
    ) -> Result<bool, AllocError>;
}

/// What has been read of a file.
#[derive(Drop)]
struct Walks<S: Subject> {
    subject: S,
    /// The lines in front of the next row.
    before: Vec<u8>,
    rows: u32,
    compared: Compared,
}

/// Tries the rows of a file, prints how many have octets and how many octet strings were tried, and where the answers
/// differ, and answers whether none do.
pub fn walk_file<R: Files + Print + AllocGlobal, S: Subject>(
    rt: &R,
    file: &str,
    subject: S,
) -> io::Result<bool> {
    let mut walks = Walks {
        subject,
        before: Vec::new(rt.alloc()),
        rows: 0,
        compared: Compared::new(rt.alloc()),
    };
    let text = read(rt, file)?;
    for line in text.lines() {
        walks.take(rt, line)?;
    }
    walks.close(rt, file)
}

impl<S: Subject> Walks<S> {
    /// Takes the next line.
    fn take<R: Files + AllocGlobal>(&mut self, rt: &R, line: &str) -> io::Result<()> {
        if line.is_empty() || line == "#" || line.starts_with("# ") {
            return Ok(());
        }
        if let Some(file) = line.strip_prefix("|< ") {
            self.before.extend_from_slice(read(rt, file)?.as_bytes())?;
            return Ok(());
        }
        if let Some(text) = line.strip_prefix('|') {
            self.add(rt.alloc(), text.strip_prefix(' ').unwrap_or(text))?;
            self.before.push(b'\n')?;
            return Ok(());
        }
        if let Some((input, _)) = line.split_once("=>") {
            self.take_input(rt.alloc(), input.trim())?;
            self.before.clear();
        }
        Ok(())
    }

    /// Adds what a text means to the lines in front of the next row.
    fn add(&mut self, alloc: Global, text: &str) -> Result<(), AllocError> {
        if let Some(octets) = octets_of(alloc, text)? {
            self.before.extend_from_slice(&octets)?;
        }
        Ok(())
    }

    fn take_input(&mut self, alloc: Global, input: &str) -> Result<(), AllocError> {
        let Some(directive) = input.strip_prefix('@') else {
            self.add(alloc, input)?;
            return self.take_row(alloc);
        };
        let (name, text) = directive.split_once(' ').unwrap_or((directive, ""));
        self.add(alloc, text.trim_start())?;
        self.subject.set(alloc, name, &self.before)
    }

    fn take_row(&mut self, alloc: Global) -> Result<(), AllocError> {
        if self
            .subject
            .try_row(alloc, &self.before, &mut self.compared)?
        {
            self.rows = self.rows.saturating_add(1);
        }
        Ok(())
    }

    /// Prints how many rows and octet strings there were, and answers whether all agree.
    fn close<R: Print>(&self, rt: &R, file: &str) -> io::Result<bool> {
        let rows = self.rows;
        let strings = self.compared.strings;
        let differing = self.compared.differing;
        let shown = self.compared.shown.as_str();
        println!(rt; "{file}: {rows} rows, {strings} octet strings, {differing} differ")?;
        print!(rt; "{shown}")?;
        Ok(differing == 0)
    }
}
