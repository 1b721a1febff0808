//! Devices that remember why they failed, and what the system said.
use guard_streams::{Failing, Says};
use std::alloc::{AllocError, Global};
use std::cell::Cell;
use std::io::{self, Read, Write};

/// Why something failed last.
pub type Last = Cell<Option<io::Error>>;

/// A reader or a writer that remembers why it failed last.
#[derive(Drop)]
pub struct Noting<'a, D> {
    pub inner: D,
    pub last: &'a Last,
}

impl<R: Read> Read for Noting<'_, R> {
    ghost remaining = { λ device. R.remaining device.inner };

    fn read(&mut self, buffer: &mut [u8]) -> io::Result<usize> {
        match self.inner.read(buffer) {
            Ok(count) => Ok(count),
            Err(e) => {
                self.last.set(Some(e));
                Err(e)
            }
        }
    }
}

impl<W: Write> Write for Noting<'_, W> {
    ghost contents = { λ device. W.contents device.inner };

    fn write(&mut self, octets: &[u8]) -> io::Result<usize> {
        match self.inner.write(octets) {
            Ok(count) => Ok(count),
            Err(e) => {
                self.last.set(Some(e));
                Err(e)
            }
        }
    }

    fn flush(&mut self) -> io::Result<()> {
        self.inner.flush()
    }
}

/// Why each of these failed last.
#[derive(Drop)]
pub struct System {
    pub input: Last,
    pub output: Last,
    pub file: Last,
}

impl System {
    /// Nothing has failed yet.
    pub fn new() -> System {
        System {
            input: Cell::new(None),
            output: Cell::new(None),
            file: Cell::new(None),
        }
    }
}

impl Says for System {
    fn said(&self, alloc: Global, failing: Failing) -> Result<Option<String>, AllocError> {
        let last = match failing {
            Failing::Input => self.input.get(),
            Failing::Output => self.output.get(),
            Failing::File => self.file.get(),
        };
        match last {
            Some(e) => Ok(Some(format!(in alloc; "{e}")?)),
            None => Ok(None),
        }
    }
}
