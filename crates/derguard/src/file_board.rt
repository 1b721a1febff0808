//! Counters that are shown in a file, at most once a second.
ghost use Rattle.std.specs.Prelude.{None};

use guard_streams::Board;
use std::alloc::Global;
use std::fs;
use std::time::{Duration, Instant};

/// How many seconds pass at least from one text to the next.
const PAUSE: u64 = 1;

/// The machine's files, of which nothing is known once they are written.
#[derive(Drop)]
pub struct FileBoard<'r> {
    rt: &'r HostRuntime,
    /// When counters were due last.
    last: Option<Instant>,
}

impl<'r> FileBoard<'r> {
    /// Nothing was shown yet.
    pub fn new(rt: &'r HostRuntime) -> FileBoard<'r> {
        FileBoard { rt, last: None }
    }
}

impl Board for FileBoard<'_> {
    ghost shown = { λ board. None };

    fn is_due(&mut self) -> bool {
        let Ok(now) = Instant::now(self.rt) else {
            return false;
        };
        if let Some(last) = self.last {
            if now.duration_since(last) < Duration::from_secs(PAUSE) {
                return false;
            }
        }
        self.last = Some(now);
        true
    }

    /// The text is written to a file beside the path, which then takes its place. A device, a folder or a link at the
    /// path stays, and the text isn't shown.
    fn show(&mut self, alloc: Global, path: &str, text: &[u8]) -> bool {
        if is_no_file(self.rt, path) {
            return false;
        }
        let Ok(beside) = format!(in alloc; "{path}.new") else {
            return false;
        };
        fs::write(self.rt, beside.as_str(), text).is_ok()
            && fs::rename(self.rt, beside.as_str(), path).is_ok()
    }
}

/// Whether something is at the path that is no regular file.
fn is_no_file(rt: &HostRuntime, path: &str) -> bool {
    match fs::symlink_metadata(rt, path) {
        Ok(found) => !found.is_file(),
        Err(_) => false,
    }
}
