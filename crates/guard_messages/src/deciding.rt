//! What becomes of one message.
ghost use Rattle.std.specs.Prelude.{◌≡◌, map, option_map, string_bytes, IfOk, IfErr};
ghost use Rattle.guard_syntax.specs.ModuleViews.{module_view};
ghost use Rattle.guard_policy.specs.PolicyView.{policy_view, route_view};
ghost use Rattle.guard_policy.specs.Verdicts.{verdict_view};
ghost use Rattle.guard_frames.specs.Bodies.{body_view};
ghost use Rattle.guard_notes.specs.Sources.{sources};
ghost use Rattle.guard_files.specs.Answers.{answer_view};
ghost use Rattle.guard_files.specs.Explaining.{IsNoPolicyWith};
ghost use Rattle.guard_messages.specs.Decided.{verdict_status, IsVerdict, OfHeld};
ghost use Rattle.guard_messages.specs.Decided.{IsDecidedOver, IsHeldDecided};
ghost use Rattle.guard_messages.specs.Questions.{question_view, spot_view};
ghost use Rattle.guard_messages.specs.RuleTypes.{grounds_view};

use crate::header_notes::spot_note;
use crate::holding::bad_header;
use crate::question::{Question, Spot};
use crate::reasons::verdict_note;
use crate::rule_types::Grounds;
use guard_files::{Answer, Fault, Files, Loaded, Refusal, add, sources_of};
use guard_frames::{Body, route_of};
use guard_model::OutOfMemory;
use guard_policy::{Policy, Route, Verdict};
use guard_report::verdict_text;
use std::alloc::Global;

/// The verdict on the message that the octets at the spot hold, under the policy at the path; or why there is none. They
/// are explained where that is asked for.
pub fn decide_held<F: Files>(
    alloc: Global,
    question: &Question,
    spot: &Spot,
    held: Option<Body>,
    octets: &[u8],
    files: &mut F,
) -> Result<Answer, Refusal>
    ensures decided { IfOk result (λ a. IsHeldDecided (question_view question.now) (F.told files.old)
        (spot_view spot.now) (option_map body_view held.entry) octets.now (answer_view a)) }
    ensures none { IfErr result (λ r. IsNoPolicyWith (question_view question.now).explain (F.told files.old)
        (question_view question.now).policy r.fault (string_bytes r.note)) }
{
    let (mut texts, mut trees) = (None, Vec::new(alloc));
    let (path, explain) = (question.policy, question.explain);
    let loaded = Loaded::at(alloc, path, explain, files, &mut texts, &mut trees)?;
    match decided_over(alloc, path, explain, &loaded, spot, held, octets) {
        Ok(answer) => Ok(answer),
        Err(_) => Err(Refusal::plain(alloc, Fault::NoMemory)),
    }
}

/// The verdict under this policy of the path, and what explains it.
fn decided_over(
    alloc: Global,
    path: &str,
    explain: bool,
    loaded: &Loaded,
    spot: &Spot,
    held: Option<Body>,
    octets: &[u8],
) -> Result<Answer, OutOfMemory>
    ensures { IfOk result (λ a. IsDecidedOver explain
        (record {
          sources = sources path.now (map string_bytes loaded.now.texts.now.files.items)
              (map (λ text. text.items) loaded.now.texts.now.modules.items);
          modules = map module_view loaded.now.trees.now;
        })
        (policy_view loaded.now.policy) (spot_view spot.now) (option_map body_view held.entry) octets.now
        (answer_view a)) }
{
    let grounds = Grounds {
        sources: sources_of(path, loaded.texts),
        modules: loaded.trees,
    };
    let verdict = verdict_answer(alloc, explain, &grounds, &loaded.policy, held)?;
    let names = spot_note(alloc, explain, spot, held, octets)?;
    let mut out = verdict.out;
    add(&mut out, &names)?;
    Ok(Answer {
        out,
        status: verdict.status,
    })
}

fn verdict_answer(
    alloc: Global,
    explain: bool,
    grounds: &Grounds,
    policy: &Policy,
    held: Option<Body>,
) -> Result<Answer, OutOfMemory>
    ensures { IfOk result (λ a. OfHeld (IsVerdict explain (grounds_view grounds.now) (policy_view policy.now))
        (option_map body_view held.entry) (answer_view a)) }
{
    match held {
        Some(body) => verdict_on(
            alloc,
            explain,
            grounds,
            policy,
            &route_of(&body),
            body.message_octets,
        ),
        None => bad_header(alloc),
    }
}

/// The text of the verdict and a line feed, and what comes below it, with status 1 where the message doesn't pass.
fn verdict_on(
    alloc: Global,
    explain: bool,
    grounds: &Grounds,
    policy: &Policy,
    route: &Route,
    octets: &[u8],
) -> Result<Answer, OutOfMemory>
    ensures { IfOk result (λ a. IsVerdict explain (grounds_view grounds.now) (policy_view policy.now)
        (route_view route.now) octets.now (answer_view a)) }
{
    let verdict = policy.verdict(alloc, route, octets)?;
    let note = verdict_note(alloc, explain, grounds, policy, route, octets, &verdict)?;
    let mut out = verdict_text(alloc, &verdict, route, policy)?;
    add(&mut out, b"\n")?;
    add(&mut out, &note)?;
    Ok(Answer {
        out,
        status: status_of(&verdict),
    })
}

fn status_of(verdict: &Verdict) -> u8
    ensures { result ≡ verdict_status (verdict_view verdict.now) }
{
    match verdict {
        Verdict::Pass => 0,
        _ => 1,
    }
}
