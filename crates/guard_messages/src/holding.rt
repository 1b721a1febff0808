//! The message that octets are, or that a frame holds, and what is answered to it.
ghost use Rattle.std.specs.Prelude.{◌≡◌, codes, false, option_map, string_bytes, IfOk, IfErr};
ghost use Rattle.guard_policy.specs.PolicyView.{policy_view, route_view};
ghost use Rattle.guard_frames.specs.Bodies.{body_view};
ghost use Rattle.guard_files.specs.Answers.{answer_view};
ghost use Rattle.guard_files.specs.Explaining.{IsNoPolicyWith};
ghost use Rattle.guard_messages.specs.Decided.{OfHeld};
ghost use Rattle.guard_messages.specs.Deciding.{held_in, IsHeldShown};
ghost use Rattle.guard_messages.specs.Questions.{question_view, asked_route, spot_view};
ghost use Rattle.guard_messages.specs.Shown.{ShowsHeld, ShowsHeldJson, ShowsMessage};

use crate::question::{Question, Spot};
use crate::values::{on_a_line, show_json, show_octets};
use guard_files::{Answer, Fault, Files, Refusal, load_noted};
use guard_frames::{Body, read_body, route_of};
use guard_model::OutOfMemory;
use guard_policy::{Policy, Route};
use std::alloc::Global;

/// The message that the octets at the spot are, on this route, or that they hold as the body of a frame; none where they
/// aren't three names and a message.
pub fn held_in<'a>(route: Route<'a>, spot: &Spot, octets: &'a [u8]) -> Option<Body<'a>>
    ensures { option_map body_view result ≡ held_in (route_view route.entry) (spot_view spot.now) octets.now }
{
    match spot {
        Spot::Written(_) | Spot::Kept(_) => Some(Body {
            sender: route.from,
            receiver: route.to,
            name: route.message,
            message_octets: octets,
        }),
        Spot::Framed(_, _) => read_body(octets),
    }
}

/// The route that the words give.
pub fn route_asked<'a>(question: &Question<'a>) -> Route<'a>
    ensures { route_view result ≡ asked_route (question_view question.now) }
{
    Route {
        from: question.from.unwrap_or("").as_bytes(),
        to: question.to.unwrap_or("").as_bytes(),
        message: question.message.unwrap_or("").as_bytes(),
    }
}

/// What is answered where a frame isn't three names and a message.
pub fn bad_header(alloc: Global) -> Result<Answer, OutOfMemory>
    ensures { IfOk result (λ a. (a.out.items ≡ codes "bad-header\n") × (a.status ≡ 1)) }
{
    let out = Vec::from_slice(alloc, b"bad-header\n")?;
    Ok(Answer { out, status: 1 })
}

/// The value of a message that is held, under the policy at the path.
pub fn show_held<F: Files>(
    alloc: Global,
    question: &Question,
    held: Option<Body>,
    files: &mut F,
) -> Result<Answer, Refusal>
    ensures shown { IfOk result (λ a. IsHeldShown (question_view question.now) (F.told files.old)
        (option_map body_view held.entry) (answer_view a)) }
    ensures none { IfErr result (λ r. IsNoPolicyWith false (F.told files.old) (question_view question.now).policy
        r.fault (string_bytes r.note)) }
{
    let (policy, _) = load_noted(alloc, question.policy, false, files)?;
    match shown_answer(alloc, &policy, question, held) {
        Ok(answer) => Ok(answer),
        Err(_) => Err(Refusal::plain(alloc, Fault::NoMemory)),
    }
}

fn shown_answer(
    alloc: Global,
    policy: &Policy,
    question: &Question,
    held: Option<Body>,
) -> Result<Answer, OutOfMemory>
    ensures { IfOk result (λ a. ShowsHeld (question_view question.now).json (question_view question.now).explain
        (policy_view policy.now) (option_map body_view held.entry) (answer_view a)) }
{
    if question.json {
        as_json(alloc, policy, held)
    } else {
        in_notation(alloc, policy, held, question.explain)
    }
}

fn as_json(alloc: Global, policy: &Policy, held: Option<Body>) -> Result<Answer, OutOfMemory>
    ensures { IfOk result (λ a. ShowsHeldJson (policy_view policy.now) (option_map body_view held.entry)
        (answer_view a)) }
{
    match held {
        Some(body) => show_json(alloc, policy, &route_of(&body), body.message_octets),
        None => on_a_line(alloc, b"bad-header"),
    }
}

/// The value of the message as ASN.1 writes it.
fn in_notation(
    alloc: Global,
    policy: &Policy,
    held: Option<Body>,
    explain: bool,
) -> Result<Answer, OutOfMemory>
    ensures { IfOk result (λ a.
        OfHeld (λ route octets. ShowsMessage explain (policy_view policy.now) route.message octets)
        (option_map body_view held.entry) (answer_view a)) }
{
    match held {
        Some(body) => show_octets(alloc, policy, body.name, body.message_octets, explain),
        None => bad_header(alloc),
    }
}
