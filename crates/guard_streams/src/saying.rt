//! What the system says of a device or a file that failed.
ghost use Rattle.std.specs.Prelude.{◌≡◌, string_bytes, IfOk};
ghost use Rattle.guard_streams.specs.Saying.{HasNoLineFeed, said_line, IsSaid, IsSaidOfRun, IsSaidOfFault};

use guard_files::Fault;
use guard_frames::RunFault;
use std::alloc::{AllocError, Global};

/// What may fail.
#[derive(Clone, Copy, Debug, PartialEq, Eq)]
pub enum Failing {
    /// Standard input.
    Input,
    /// Standard output.
    Output,
    /// The file that was read last.
    File,
}

/// What the system says.
pub trait Says {
    /// What it said when this failed last; nothing where it didn't say why. It fails only where memory runs out.
    fn said(&self, alloc: Global, failing: Failing) -> Result<Option<String>, AllocError>;
}

/// The line for a stream that wasn't guarded to its end, where a device failed and the system said why.
pub fn said_of_run<T: Says>(
    alloc: Global,
    fault: RunFault,
    system: &T,
) -> Result<String, AllocError>
    ensures { IfOk result (λ line. IsSaidOfRun fault (string_bytes line)) }
{
    match fault {
        RunFault::ReadFailed => line_said(alloc, Failing::Input, "standard input", system),
        RunFault::WriteFailed => line_said(alloc, Failing::Output, "standard output", system),
        RunFault::FrameTooLong | RunFault::TornFrame | RunFault::OutOfMemory => {
            Ok(String::new(alloc))
        }
    }
}

/// The line for a policy that can't be had, where a file can't be read and the system said why.
pub fn said_of_fault<T: Says>(
    alloc: Global,
    fault: &Fault,
    system: &T,
) -> Result<String, AllocError>
    ensures { IfOk result (λ line. IsSaidOfFault fault.now (string_bytes line)) }
{
    match fault {
        Fault::CannotRead(path, _) => line_said(alloc, Failing::File, path, system),
        Fault::TooLarge(_)
        | Fault::Schema(_)
        | Fault::Policy(_)
        | Fault::Run(_)
        | Fault::NoMemory => Ok(String::new(alloc)),
    }
}

/// `derguard: NAME: TEXT`, where the system said why this failed. Of a text of several lines it is the first one.
fn line_said<T: Says>(
    alloc: Global,
    failing: Failing,
    name: &str,
    system: &T,
) -> Result<String, AllocError>
    ensures { IfOk result (λ line. IsSaid name.now (string_bytes line)) }
{
    match system.said(alloc, failing)? {
        Some(text) => named(alloc, name, front(&text)),
        None => Ok(String::new(alloc)),
    }
}

fn named(alloc: Global, name: &str, text: &str) -> Result<String, AllocError>
    ensures { IfOk result (λ line. string_bytes line ≡ said_line name.now text.now) }
{
    let mut line = String::new(alloc);
    write!(line, "derguard: {name}: {text}\n")?;
    Ok(line)
}

/// The text before the first line feed.
fn front(text: &str) -> &str
    ensures { HasNoLineFeed result.now }
{
    match text.split_once('\n') {
        Some((front, _)) => front,
        None => text,
    }
}
