//! What goes to standard output and to standard error.
ghost use Rattle.std.specs.Prelude.{◌≡◌, ◌≤◌, ◌++◌, ℕ, List, true, length, IfOk, OnErr, codes, string_bytes};
ghost use Rattle.std.specs.Io.KnownBytes.{Appends};
ghost use Rattle.guard_frames.specs.FaultTexts.{run_text};
ghost use Rattle.guard_frames.specs.Prefix.{IsProperPrefix};
ghost use Rattle.guard_frames.specs.declared.running.RunFault.TheVariants.{ReadFailed, WriteFailed};
ghost use Rattle.guard_files.specs.Devices.{device_of};
ghost use Rattle.guard_files.specs.Explaining.{TellsWith};
ghost use Rattle.guard_files.specs.Faults.{IsText};
ghost use Rattle.guard_files.specs.Writing.{line_of, IsFaultLine, TellsOctets, TellsLine};
ghost use Rattle.guard_files.specs.Writing.{TellsNoMemory, TellsText, Tells, Writes};
ghost use Rattle.guard_files.specs.Remarked.{WritesRemarked, remarked_view};

use crate::answer::Remarked;
use crate::fault::Fault;
use guard_frames::{Failed, RunFault, ShortLine, Sink, append, put_all};
use std::alloc::{AllocError, Global};

/// What is reported where there is no memory to say anything else.
const NO_MEMORY: &[u8] = b"derguard: no-memory\n";

/// The status where a stream or a device failed, or memory ran out.
pub const FAILED: u8 = 3;

/// Writes the octets to standard output, and answers the status. Where standard output fails, that is reported, and the
/// status is 3.
pub fn write<O: Sink, E: Sink>(octets: &[u8], status: u8, out: &mut O, err: &mut E) -> u8
    ensures { Writes octets.now status (device_of O.taken O.has_failed out.old out.new)
        (device_of E.taken E.has_failed err.old err.new) result }
{
    match put_all(out, octets) {
        Ok(()) => status,
        Err(_) => tell_failed_write(err),
    }
}

/// Writes the octets to standard output, and then the remarks to standard error, and answers the status. Where one of
/// them fails the status is 3; a failure of standard output is reported, and nothing is remarked then.
pub fn write_remarked<O: Sink, E: Sink>(answer: &Remarked, out: &mut O, err: &mut E) -> u8
    ensures { WritesRemarked (remarked_view answer.now) (device_of O.taken O.has_failed out.old out.new)
        (device_of E.taken E.has_failed err.old err.new) result }
{
    match put_all(out, &answer.out) {
        Ok(()) => tell_line(&answer.remarks, answer.status, err),
        Err(_) => tell_failed_write(err),
    }
}

/// Reports a fault after `derguard: `, and answers its status. Where standard error fails, nothing more is written, and
/// the status is 3.
pub fn tell<E: Sink>(alloc: Global, fault: &Fault, err: &mut E) -> u8
    ensures { Tells fault.now (device_of E.taken E.has_failed err.old err.new) result }
{
    tell_with(alloc, fault, "", err)
}

/// Reports a fault after `derguard: `, and answers its status, or 3 where there was no memory to say it. It fails where
/// standard error does.
pub fn report<E: Sink>(alloc: Global, fault: &Fault, err: &mut E) -> Result<u8, Failed>
    ensures all { IfOk result (λ status. (line : List ℕ) × IsFaultLine fault.now line status
        × Appends (E.taken err.old) (E.taken err.new) line) }
    ensures part { OnErr result ((line : List ℕ) × (status : ℕ) × (part : List ℕ) × IsFaultLine fault.now line status
        × IsProperPrefix part line × Appends (E.taken err.old) (E.taken err.new) part) }
    ensures failed { OnErr result (E.has_failed err.new ≡ true) }
{
    let Ok(line) = fault_line(alloc, fault) else {
        put_all(err, NO_MEMORY)?;
        return Ok(FAILED);
    };
    put_all(err, line.as_bytes())?;
    Ok(fault.status())
}

/// Tells a fault with what comes after its line.
pub fn tell_with<E: Sink>(alloc: Global, fault: &Fault, note: &str, err: &mut E) -> u8
    ensures { TellsWith fault.now note.now (device_of E.taken E.has_failed err.old err.new) result }
{
    match lines_with(alloc, fault, note) {
        Ok(lines) => tell_line(lines.as_bytes(), fault.status(), err),
        Err(_) => tell_no_memory(err),
    }
}

fn lines_with(alloc: Global, fault: &Fault, note: &str) -> Result<String, AllocError>
    ensures { IfOk result (λ lines. (text : List ℕ) × IsText fault.now text
        × (string_bytes lines ≡ line_of text ++ note.now)) }
{
    let line = fault_line(alloc, fault)?;
    format!(in alloc; "{line}{note}")
}

fn fault_line(alloc: Global, fault: &Fault) -> Result<String, AllocError>
    ensures { IfOk result (λ line. (text : List ℕ) × IsText fault.now text × (string_bytes line ≡ line_of text)) }
{
    let text = fault.text(alloc)?;
    line(alloc, &text)
}

/// Reports a text after `derguard: `, with this status.
pub fn tell_text<E: Sink>(alloc: Global, text: &str, status: u8, err: &mut E) -> u8
    ensures { TellsText text.now status (device_of E.taken E.has_failed err.old err.new) result }
{
    match line(alloc, text) {
        Ok(line) => tell_line(line.as_bytes(), status, err),
        Err(_) => tell_no_memory(err),
    }
}

/// Tells that memory ran out, which takes none.
pub fn tell_no_memory<E: Sink>(err: &mut E) -> u8
    ensures { TellsNoMemory (device_of E.taken E.has_failed err.old err.new) result }
{
    tell_line(NO_MEMORY, FAILED, err)
}

/// Tells that what came in is no record.
pub fn tell_bad_record<E: Sink>(err: &mut E) -> u8
    ensures { TellsLine (codes "bad record") 3 (device_of E.taken E.has_failed err.old err.new) result }
{
    tell_short("bad record", err)
}

/// Tells that standard input failed.
pub fn tell_failed_read<E: Sink>(err: &mut E) -> u8
    ensures { TellsLine (run_text ReadFailed) 3 (device_of E.taken E.has_failed err.old err.new) result }
{
    tell_short(RunFault::ReadFailed.text(), err)
}

/// Tells that standard output failed.
pub fn tell_failed_write<E: Sink>(err: &mut E) -> u8
    ensures { TellsLine (run_text WriteFailed) 3 (device_of E.taken E.has_failed err.old err.new) result }
{
    tell_short(RunFault::WriteFailed.text(), err)
}

/// Reports a short text after `derguard: `, which takes no memory, with the status of what failed.
fn tell_short<E: Sink>(text: &str, err: &mut E) -> u8
    requires { length text.now ≤ 64 }
    ensures { TellsLine text.now 3 (device_of E.taken E.has_failed err.old err.new) result }
{
    let mut line = ShortLine::new();
    append(&mut line, b"derguard: ");
    append(&mut line, text.as_bytes());
    append(&mut line, b"\n");
    tell_line(line.as_slice(), FAILED, err)
}

fn line(alloc: Global, text: &str) -> Result<String, AllocError>
    ensures { IfOk result (λ line. string_bytes line ≡ line_of text.now) }
{
    format!(in alloc; "derguard: {text}\n")
}

/// Reports a line as it is, with this status.
pub fn tell_line<E: Sink>(line: &[u8], status: u8, err: &mut E) -> u8
    ensures { TellsOctets line.now status (device_of E.taken E.has_failed err.old err.new) result }
{
    match put_all(err, line) {
        Ok(()) => status,
        Err(_) => FAILED,
    }
}
