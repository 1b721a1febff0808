//! The members of lines.
ghost use Rattle.std.specs.Prelude.{◌≡◌};
ghost use Rattle.guard_json.specs.Members.{members_by, members_in, said_in, is_fault, link_in, link_fault_in, frame_in, outcome_in, route_in};
ghost use Rattle.guard_json.specs.inside.Drafting.{Adds};

use crate::cutting::{behind, is, is_code, is_number, up_to};
use crate::draft::Draft;
use crate::kinds::{LineKind, is_undecided};
use crate::verdicts::{add_verdict, add_verdicts};
use guard_policy::is_name;

/// Adds the members of a line, by its form.
pub fn add_members(draft: &mut Draft, line: &[u8])
    ensures { Adds draft.old draft.new (members_in line.now) }
{
    add_by_kind(draft, LineKind::of(line), line);
}

fn add_by_kind(draft: &mut Draft, kind: LineKind, line: &[u8])
    ensures { Adds draft.old draft.new (members_by kind line.now) }
{
    match kind {
        LineKind::Linked => add_link(draft, behind(b' ', line)),
        LineKind::Said => add_said(draft, behind(b' ', line)),
        LineKind::Numbered => add_frame(draft, line),
        LineKind::Bare => add_verdict(draft, line),
    }
}

/// Adds what comes after `derguard: `, a fault or a note.
fn add_said(draft: &mut Draft, said: &[u8])
    ensures { Adds draft.old draft.new (said_in said.now) }
{
    if is_fault(said) {
        draft.text("fault", said);
    } else {
        draft.text("note", said);
    }
}

fn is_fault(said: &[u8]) -> bool
    ensures { result ≡ is_fault said.now }
{
    is_code(up_to(b' ', said))
        || is(said, "no-memory")
        || is(said, "bad record")
        || said.starts_with(b"cannot read ")
}

/// Adds what comes after `link `: its number, and the line of a frame or a fault.
fn add_link(draft: &mut Draft, line: &[u8])
    ensures { Adds draft.old draft.new (link_in line.now) }
{
    let rest = behind(b' ', line);
    draft.number("link", up_to(b' ', line));
    if is_number(up_to(b' ', rest)) {
        add_frame(draft, rest);
    } else {
        add_link_fault(draft, rest);
    }
}

/// Adds the fault of a link.
fn add_link_fault(draft: &mut Draft, fault: &[u8])
    ensures { Adds draft.old draft.new (link_fault_in fault.now) }
{
    draft.only_where(is_code(up_to(b' ', fault)));
    draft.only_where(is_name(behind(b' ', fault)));
    draft.text("fault", fault);
}

/// Adds the line of a frame, which begins with its number.
fn add_frame(draft: &mut Draft, line: &[u8])
    ensures { Adds draft.old draft.new (frame_in line.now) }
{
    draft.number("frame", up_to(b' ', line));
    add_outcome(draft, behind(b' ', line));
}

/// Adds what became of a frame.
fn add_outcome(draft: &mut Draft, outcome: &[u8])
    ensures { Adds draft.old draft.new (outcome_in outcome.now) }
{
    if is_undecided(outcome) {
        draft.name("verdict", outcome);
    } else {
        add_route(draft, outcome);
    }
}

/// Adds the route of a message and what is said of it.
fn add_route(draft: &mut Draft, line: &[u8])
    ensures { Adds draft.old draft.new (route_in line.now) }
{
    let to = behind(b'>', line);
    let message = behind(b' ', to);
    draft.name("from", up_to(b'>', line));
    draft.name("to", up_to(b' ', to));
    draft.name("message", up_to(b' ', message));
    add_verdicts(draft, behind(b' ', message));
}
