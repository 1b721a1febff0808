//! Whether a policy and its modules are accepted.
ghost use Rattle.std.specs.Prelude.{◌≡◌, IfOk};
ghost use Rattle.guard_policy.specs.PolicyView.{policy_view};
ghost use Rattle.guard_files.specs.Devices.{device_of};
ghost use Rattle.guard_files.specs.Remarked.{remarked_view};
ghost use Rattle.guard_authors.specs.Checked.{asks_too_much, below_counts, checked, checking_view, ChecksPolicy};
ghost use Rattle.guard_authors.specs.Checked.{counts_text, remarked_status, remarks_text};

use crate::listing::{listing, strict_remarks};
use guard_files::{
    Files, Remarked, add, add_line, load_noted, tell_no_memory, tell_text, tell_with,
    write_remarked,
};
use guard_frames::Sink;
use guard_model::OutOfMemory;
use guard_policy::Policy;
use std::alloc::{AllocError, Global};

const NOT_ALONE: &str =
    "error: the argument '--digest' cannot be used with '--explain' or '--strict'\n\nFor more information, try \
        '--help'.";

/// What `check` is asked for: whether the policy at this path is accepted.
#[derive(Clone, Copy, Debug, PartialEq, Eq)]
pub struct Checking<'a> {
    pub policy: &'a str,
    /// Whether its messages are listed with their rules, or a fault is explained.
    pub explain: bool,
    /// Whether remarks count.
    pub strict: bool,
    /// Whether the number of its texts is written. Nothing else may be asked for then.
    pub digest: bool,
}

/// Writes how many messages and rules the policy has, and below it the number of its texts or its listing, where one of
/// them is asked for; and what is remarked of it to standard error, where that counts. It answers the status: 0; 1
/// where something is remarked; 2 where there is no policy at the path, or more is asked for than a number alone; 3
/// where a device failed or memory ran out.
pub fn check<F: Files, O: Sink, E: Sink>(
    alloc: Global,
    asked: &Checking,
    files: &mut F,
    out: &mut O,
    err: &mut E,
) -> u8
    ensures { ChecksPolicy (asks_too_much (checking_view asked.now)) (F.told files.old) (checking_view asked.now)
        (device_of O.taken O.has_failed out.old out.new)
        (device_of E.taken E.has_failed err.old err.new) result }
{
    if asks_too_much(asked) {
        return tell_text(alloc, NOT_ALONE, 2, err);
    }
    let (policy, digest) = match load_noted(alloc, asked.policy, asked.explain, files) {
        Ok(found) => found,
        Err(refusal) => return tell_with(alloc, &refusal.fault, &refusal.note, err),
    };
    match checked(alloc, asked, &policy, digest) {
        Ok(answer) => write_remarked(&answer, out, err),
        Err(_) => tell_no_memory(err),
    }
}

fn asks_too_much(asked: &Checking) -> bool
    ensures { result ≡ asks_too_much (checking_view asked.now) }
{
    asked.digest && (asked.explain || asked.strict)
}

fn checked(
    alloc: Global,
    asked: &Checking,
    policy: &Policy,
    digest: [u8; 32],
) -> Result<Remarked, OutOfMemory>
    ensures { IfOk result (λ r. remarked_view r ≡ checked (checking_view asked.now) (policy_view policy.now) digest) }
{
    let mut out = counts(alloc, policy)?;
    let below = below_counts(alloc, asked, policy, digest)?;
    add(&mut out, &below)?;
    let remarks = remarks_text(alloc, asked.strict, policy)?;
    let status = remarked_status(&remarks);
    Ok(Remarked {
        out,
        remarks,
        status,
    })
}

/// How many messages and rules the policy has.
fn counts(alloc: Global, policy: &Policy) -> Result<Vec<u8>, AllocError>
    ensures { IfOk result (λ out. out.items ≡ counts_text (policy_view policy.now)) }
{
    let (messages, rules) = (policy.messages(), policy.rules());
    let text = format!(in alloc; "ok: messages {messages}, rules {rules}\n")?;
    Ok(text.into_bytes())
}

fn below_counts(
    alloc: Global,
    asked: &Checking,
    policy: &Policy,
    digest: [u8; 32],
) -> Result<Vec<u8>, OutOfMemory>
    ensures { IfOk result (λ text. text.items
        ≡ below_counts (checking_view asked.now) (policy_view policy.now) digest) }
{
    let mut text = Vec::new(alloc);
    if asked.digest {
        let digits = hex::encode(alloc, digest.as_slice())?;
        add_line(&mut text, b"digest ", &digits)?;
    } else if asked.explain {
        text = listing(alloc, policy)?;
    }
    Ok(text)
}

fn remarks_text(alloc: Global, strict: bool, policy: &Policy) -> Result<Vec<u8>, OutOfMemory>
    ensures { IfOk result (λ text. text.items ≡ remarks_text strict (policy_view policy.now)) }
{
    if strict {
        strict_remarks(alloc, policy)
    } else {
        Ok(Vec::new(alloc))
    }
}

fn remarked_status(remarks: &[u8]) -> u8
    ensures { result ≡ remarked_status remarks.now }
{
    if remarks.is_empty() { 0 } else { 1 }
}
