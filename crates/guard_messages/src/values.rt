//! The value of one message.
ghost use Rattle.std.specs.Prelude.{◌≡◌, ◌++◌, codes, IfOk, IsTrue, Some};
ghost use Rattle.guard_model.specs.TypeView.{type_view};
ghost use Rattle.guard_model.specs.ValueView.{value_view};
ghost use Rattle.guard_der.specs.Sound.{is_sound};
ghost use Rattle.guard_policy.specs.PolicyView.{policy_view, route_view};
ghost use Rattle.guard_policy.specs.Verdicts.{verdict_view};
ghost use Rattle.guard_report.specs.Text.{verdict_octets};
ghost use Rattle.guard_report.specs.Shown.{shown_view};
ghost use Rattle.guard_files.specs.Answers.{answer_view};
ghost use Rattle.guard_messages.specs.Shown.{on_a_line, shown_octets, shown_status, ComesBefore, ShowsJson};
ghost use Rattle.guard_messages.specs.Shown.{ShowsMessage};
ghost use Rattle.guard_messages.specs.ValueJson.{ascii_text, value_json};

use crate::parts_before::lines_before;
use crate::value_json::value_json;
use guard_der::laws::law_one_answer;
use guard_der::{DecodeFault, decode};
use guard_files::{Answer, add};
use guard_json::json_line;
use guard_model::{OutOfMemory, Ty, Value};
use guard_policy::{Policy, Route, Verdict};
use guard_report::{Shown, shown_text, verdict_text};
use std::alloc::Global;

/// What is shown of the octets of a message of this name.
pub fn show_octets(
    alloc: Global,
    policy: &Policy,
    message: &[u8],
    octets: &[u8],
    explain: bool,
) -> Result<Answer, OutOfMemory>
    ensures { IfOk result (λ a. ShowsMessage explain (policy_view policy.now) message.now octets.now (answer_view a)) }
{
    let Some(ty) = policy.declared(message) else {
        return ended(Vec::new(alloc), b"unknown-message", 1);
    };
    law_one_answer(ty, octets);
    let shown = shown_text(alloc, ty, octets)?;
    let lines = lines_of(alloc, ty, octets, explain)?;
    answer_of(lines, shown)
}

/// The lines that come before what is shown of the octets.
fn lines_of(alloc: Global, ty: &Ty, octets: &[u8], explain: bool) -> Result<Vec<u8>, OutOfMemory>
    requires { IsTrue (is_sound (type_view ty.now)) }
    ensures { IfOk result (λ lines. ComesBefore explain (type_view ty.now) octets.now lines.items) }
{
    if !explain {
        return Ok(Vec::new(alloc));
    }
    match decode(alloc, ty, octets) {
        Ok(_value) => Ok(Vec::new(alloc)),
        Err(DecodeFault::Breach(breach)) => lines_before(alloc, ty, octets, breach.at),
        Err(DecodeFault::OutOfMemory) => Err(OutOfMemory),
    }
}

/// The lines, the text and a line feed, with status 1 where there is no value.
fn answer_of(lines: Vec<u8>, shown: Shown) -> Result<Answer, OutOfMemory>
    ensures { IfOk result (λ a. (a.out.items ≡ lines.items ++ (shown_octets (shown_view shown) ++ codes "\n"))
        × (a.status ≡ shown_status (shown_view shown))) }
{
    match shown {
        Shown::Value(text) => ended(lines, &text, 0),
        Shown::Undecodable(text) => ended(lines, &text, 1),
    }
}

fn ended(lines: Vec<u8>, text: &[u8], status: u8) -> Result<Answer, OutOfMemory>
    ensures { IfOk result (λ a. (a.out.items ≡ lines.items ++ (text.now ++ codes "\n")) × (a.status ≡ status)) }
{
    let mut out = lines;
    add(&mut out, text)?;
    add(&mut out, b"\n")?;
    Ok(Answer { out, status })
}

// ---- as JSON

/// The value of the octets of a message on this route as JSON, or the line of the verdict that they have none.
pub fn show_json(
    alloc: Global,
    policy: &Policy,
    route: &Route,
    octets: &[u8],
) -> Result<Answer, OutOfMemory>
    ensures { IfOk result (λ a. ShowsJson (policy_view policy.now) (route_view route.now) octets.now (answer_view a)) }
{
    let Some(ty) = policy.declared(route.message) else {
        return without_value(alloc, policy, route, Verdict::UnknownMessage);
    };
    match decode(alloc, ty, octets) {
        Ok(value) => json_answer(alloc, ty, &value),
        Err(DecodeFault::Breach(breach)) => {
            without_value(alloc, policy, route, Verdict::Undecodable(breach))
        }
        Err(DecodeFault::OutOfMemory) => Err(OutOfMemory),
    }
}

/// A value of the type and a line feed, with status 0.
fn json_answer(alloc: Global, ty: &Ty, value: &Value) -> Result<Answer, OutOfMemory>
    ensures { IfOk result (λ a. (a.out.items
        ≡ ascii_text (value_json (Some (type_view ty.now)) (value_view value.now)) ++ codes "\n") × (a.status ≡ 0)) }
{
    let mut out = value_json(alloc, ty, value)?;
    add(&mut out, b"\n")?;
    Ok(Answer { out, status: 0 })
}

/// The text of the verdict on a line, with status 1.
fn without_value(
    alloc: Global,
    policy: &Policy,
    route: &Route,
    verdict: Verdict,
) -> Result<Answer, OutOfMemory>
    ensures { IfOk result (λ a. (a.out.items
        ≡ on_a_line (verdict_octets (policy_view policy.now) (route_view route.now) (verdict_view verdict)))
        × (a.status ≡ 1)) }
{
    let text = verdict_text(alloc, &verdict, route, policy)?;
    on_a_line(alloc, &text)
}

/// The line as an object and a line feed, with status 1.
pub fn on_a_line(alloc: Global, line: &[u8]) -> Result<Answer, OutOfMemory>
    ensures { IfOk result (λ a. (a.out.items ≡ on_a_line line.now) × (a.status ≡ 1)) }
{
    let mut out = json_line(alloc, line)?;
    add(&mut out, b"\n")?;
    Ok(Answer { out, status: 1 })
}
