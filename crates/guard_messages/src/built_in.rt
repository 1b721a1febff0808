//! Four messages, decided by the policy that is built in.
ghost use Rattle.std.specs.Prelude.{[], ◌∷◌, string_bytes, IfOk, IfErr, OnOk};
ghost use Rattle.guard_policy.specs.PolicyView.{policy_view};
ghost use Rattle.guard_files.specs.Answers.{answer_view};
ghost use Rattle.guard_files.specs.Reading.{SayNoneLoaded};
ghost use Rattle.guard_messages.specs.FirstRun.{IsFirst, IsFirstRun, IsNoFirst, sent, first_messages};
ghost use Rattle.guard_messages.specs.FirstRun.{first_module, first_policy};
ghost use Rattle.guard_messages.specs.Printing.{AreLines, AppendsLine};

use guard_files::{Answer, Fault, Refusal};
use guard_frames::load_texts;
use guard_model::OutOfMemory;
use guard_policy::{Policy, Route};
use guard_report::verdict_text;
use std::alloc::Global;

/// The module that is built in.
const MODULE: &str =
    "First DEFINITIONS EXPLICIT TAGS ::= BEGIN\nLevel ::= INTEGER (0..100)\nLow ::= INTEGER (0..9)\n\
        Ping ::= SEQUENCE { level INTEGER (0..100), urgent BOOLEAN }\nEND\n";

/// The policy that is built in.
const POLICY: &str =
    "modules = [\"first.asn1\"]\n[[message]]\nname = \"level\"\nmodule = \"First\"\ntype = \"Level\"\n[[message]]\n\
        name = \"ping\"\nmodule = \"First\"\ntype = \"Ping\"\n[[rule]]\nname = \"low\"\neffect = \"allow\"\n\
        from = \"a\"\nto = \"b\"\nmessage = \"level\"\nmodule = \"First\"\ntype = \"Low\"\n[[rule]]\n\
        name = \"ping\"\neffect = \"allow\"\nfrom = \"a\"\nto = \"b\"\nmessage = \"ping\"\nmodule = \"First\"\n\
        type = \"Ping\"\n";

/// The lines for the four messages, with status 0.
///
/// It refuses with Schema or Policy where the texts that are built in have a fault, which the run without words shows
/// that they haven't. NoMemory may come in place of any answer.
pub fn first_run(alloc: Global) -> Result<Answer, Refusal>
    ensures first { IfOk result (λ a. IsFirst (answer_view a)) }
    ensures none { IfErr result (λ r. IsNoFirst r.fault (string_bytes r.note)) }
{
    match first_lines(alloc) {
        Ok(out) => Ok(Answer { out, status: 0 }),
        Err(fault) => Err(Refusal::plain(alloc, fault)),
    }
}

fn first_lines(alloc: Global) -> Result<Vec<u8>, Fault>
    ensures first { IfOk result (λ out. IsFirstRun out.items) }
    ensures none { IfErr result (SayNoneLoaded (first_module ∷ []) first_policy) }
{
    let policy = load_texts(alloc, &[MODULE.as_bytes()], POLICY.as_bytes())?;
    Ok(decide_first(alloc, &policy)?)
}

/// A line for each of the four messages, with the text of its verdict.
fn decide_first(alloc: Global, policy: &Policy) -> Result<Vec<u8>, OutOfMemory>
    ensures { IfOk result (λ out. AreLines (policy_view policy.now) first_messages out.items) }
{
    let mut out = Vec::new(alloc);
    decide(alloc, policy, b"level", &[0x02, 0x01, 0x05], &mut out)?;
    decide(alloc, policy, b"level", &[0x02, 0x01, 0x14], &mut out)?;
    let good = [0x30, 0x06, 0x02, 0x01, 0x05, 0x01, 0x01, 0xFF];
    decide(alloc, policy, b"ping", &good, &mut out)?;
    let bad = [0x30, 0x06, 0x02, 0x01, 0x05, 0x01, 0x01, 0x01];
    decide(alloc, policy, b"ping", &bad, &mut out)?;
    Ok(out)
}

/// Adds the line for a message from `a` to `b`.
fn decide(
    alloc: Global,
    policy: &Policy,
    message: &[u8],
    octets: &[u8],
    out: &mut Vec<u8>,
) -> Result<(), OutOfMemory>
    ensures { OnOk result (AppendsLine (policy_view policy.now)
        (sent message.now octets.now) out.old.items out.new.items) }
{
    let route = Route {
        from: b"a",
        to: b"b",
        message,
    };
    let verdict = policy.verdict(alloc, &route, octets)?;
    let text = verdict_text(alloc, &verdict, &route, policy)?;
    out.extend_from_slice(&text)?;
    out.push(b'\n')?;
    Ok(())
}
