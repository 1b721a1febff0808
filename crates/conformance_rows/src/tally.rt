//! Files of rows, and how many rows they have in all.
use crate::layer::Layer;
use crate::rows::check_rows;
use std::io;
use std::rt::Files;

/// How many files were read, and how many rows in them.
#[derive(Drop)]
pub struct Tally {
    files: u32,
    pub(crate) rows: u32,
    pub(crate) differing: u32,
}

impl Tally {
    /// None yet.
    pub fn new() -> Tally {
        Tally {
            files: 0,
            rows: 0,
            differing: 0,
        }
    }

    /// Prints how many there are, and answers whether each row has the answer that is expected.
    pub fn close<R: Print>(&self, rt: &R) -> io::Result<bool> {
        let files = self.files;
        let rows = self.rows;
        let differing = self.differing;
        if differing == 0 {
            println!(rt; "{files} files, {rows} rows")?;
        } else {
            println!(rt; "{files} files, {rows} rows, {differing} with another answer")?;
        }
        Ok(differing == 0)
    }
}

/// Reads files of rows for one layer, which begins anew with each: prints each row whose answer isn't the expected
/// one, with both, and for each file how many rows it has.
///
/// The files are where the program runs, or there in the folder `data`.
pub fn check_files<R: Files + Print + AllocGlobal, L: Layer>(
    rt: &R,
    tally: &mut Tally,
    files: &[&str],
) -> io::Result<()> {
    for file in files {
        let mut layer = L::new(rt.alloc());
        check_rows(rt, tally, file, &mut layer)?;
        tally.files = tally.files.saturating_add(1);
    }
    Ok(())
}
