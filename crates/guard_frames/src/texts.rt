//! From the texts of modules and of a policy to what comes of a stream.

ghost use Rattle.std.specs.Prelude.{◌≡◌, ◌⊎◌, true, map, Ok, IfOk, IfErr, IsErrOf};
ghost use Rattle.guard_model.specs.Answer.{Gives};
ghost use Rattle.guard_policy.specs.Policies.{AbstractPolicy};
ghost use Rattle.guard_policy.specs.PolicyView.{policy_view};
ghost use Rattle.std.specs.Io.KnownBytes.{IsAtEnd};
ghost use Rattle.guard_frames.specs.Added.{Moves};
ghost use Rattle.guard_frames.specs.Calls.{AsksLines};
ghost use Rattle.guard_frames.specs.Runs.{ReadToLimit};
ghost use Rattle.guard_frames.specs.Texts.{SayPolicy, SayNone, named, of_schema, of_policy, of_run};
ghost use Rattle.guard_frames.specs.RunsTexts.{RunsTexts, IsNoRun};
ghost use Rattle.guard_frames.specs.declared.running.RunFault.TheVariants.{WriteFailed, ReadFailed};
ghost use Rattle.guard_frames.specs.declared.texts.TextsFault.TheVariants.{Run};

use crate::devices::{Sink, Source};
use crate::guarding::run;
use crate::running::RunFault;
use crate::totals::Totals;
use guard_policy::{Policy, PolicyFault};
use guard_schema::{Schema, SchemaFault};
use std::alloc::Global;
use thiserror::Error;

/// Why texts say no policy, or why a run under the one that they say ended before its stream's end. A fault of a layer
/// prints as itself. OutOfMemory may come in place of any answer, and no other variant says it.
#[derive(Debug, Drop, Error)]
pub enum TextsFault {
    /// The modules' first fault.
    #[error("{0}")]
    Schema(SchemaFault),
    /// The first fault of the policy's text over the modules.
    #[error("{0}")]
    Policy(PolicyFault),
    /// Why the run ended.
    #[error("{0}")]
    Run(RunFault),
    #[error("OutOfMemory")]
    OutOfMemory,
}

impl From<SchemaFault> for TextsFault {
    ghost from_gives = { λ f e. e ≡ of_schema f };

    fn from(fault: SchemaFault) -> TextsFault {
        match fault {
            SchemaFault::OutOfMemory => TextsFault::OutOfMemory,
            fault => TextsFault::Schema(fault),
        }
    }
}

impl From<PolicyFault> for TextsFault {
    ghost from_gives = { λ f e. e ≡ of_policy f };

    fn from(fault: PolicyFault) -> TextsFault {
        match fault {
            PolicyFault::OutOfMemory => TextsFault::OutOfMemory,
            fault => TextsFault::Policy(fault),
        }
    }
}

impl From<RunFault> for TextsFault {
    ghost from_gives = { λ f e. e ≡ of_run f };

    fn from(fault: RunFault) -> TextsFault {
        match fault {
            RunFault::OutOfMemory => TextsFault::OutOfMemory,
            fault => TextsFault::Run(fault),
        }
    }
}

/// The policy that a text says over the modules of other texts.
///
/// # Errors
/// Schema with the first fault of the modules, or, where they have none, Policy with the first fault of the policy's
/// text. OutOfMemory may come in place of any answer.
pub fn load_texts(alloc: Global, modules: &[&[u8]], text: &[u8]) -> Result<Policy, TextsFault>
    // What is answered is what the texts say,
    ensures said { IfOk result (λ p. SayPolicy (map (λ t. t.now) modules.now) text.now (policy_view p)) }
    // and what they say is answered, unless memory runs out.
    ensures only { (p : AbstractPolicy) → SayPolicy (map (λ t. t.now) modules.now) text.now p →
        Gives policy_view named result (Ok p) }
    // A refusal says why they say none.
    ensures refused { IfErr result (SayNone (map (λ t. t.now) modules.now) text.now) }
{
    let schema = Schema::build(alloc, modules)?;
    Ok(Policy::load(alloc, text, &schema)?)
}

/// Guards one stream under the policy that a text says over the modules of other texts, as `run` does.
///
/// # Errors
/// Schema and Policy as `load_texts` says; nothing is read or written then. Run with why the run ended before the
/// stream's end. OutOfMemory only before anything is read.
pub fn run_texts<S: Source, O: Sink, R: Sink>(
    alloc: Global,
    modules: &[&[u8]],
    text: &[u8],
    source: &mut S,
    out: &mut O,
    reports: &mut R,
) -> Result<Totals, TextsFault>
    // What comes of the stream is what comes of it under the policy that the texts say, or they say none;
    ensures runs { Moves (S.tells source.old, S.tells source.new) (O.taken out.old, O.taken out.new)
        (R.taken reports.old, R.taken reports.new)
        (λ read added.
        RunsTexts (map (λ t. t.now) modules.now) text.now read (IsAtEnd (S.tells source.new)) result added) }
    ensures failed { IsErrOf result (Run WriteFailed) →
        (O.has_failed out.new ≡ true) ⊎ (R.has_failed reports.new ≡ true) }
    ensures unread { IsErrOf result (Run ReadFailed) → (S.has_failed source.new ≡ true)
        ⊎ ReadToLimit (S.takes source.old) (S.takes source.new) (S.tells source.old) (S.tells source.new) }
    // and where they say none, or there is no memory to begin, nothing is done.
    ensures untouched { IfErr result (λ f. IsNoRun f →
        (source.new ≡ source.old) × (out.new ≡ out.old) × (reports.new ≡ reports.old)) }
    // Each report line goes in one call.
    ensures lines { AsksLines (R.asked reports.old) (R.asked reports.new) }
{
    let policy = load_texts(alloc, modules, text)?;
    Ok(run(alloc, source, out, reports, &policy)?)
}
