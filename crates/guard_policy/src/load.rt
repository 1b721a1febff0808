//! Policies from their texts.
ghost use Rattle.std.specs.Prelude.{◌≡◌, ℕ, List, IfOk, IfErr, IfSome};
ghost use Rattle.toml.specs.View.{table_view};
ghost use Rattle.guard_policy.specs.Documents.{IsDocument};
ghost use Rattle.guard_policy.specs.Loads.{Loads, IsRefused};
ghost use Rattle.guard_policy.specs.Policies.{AbstractPolicy};
ghost use Rattle.guard_policy.specs.PolicyFaults.{named};
ghost use Rattle.guard_policy.specs.PolicyView.{policy_view};

use super::document::{Top, document, top_of};
use super::fault::PolicyFault;
use super::messages::messages_of;
use super::policy::Policy;
use super::rules::rules_of;
use super::types::module_names;
use guard_der::named_types::Types;
use std::alloc::Global;
use toml::Table;

impl Policy {
    /// The policy that a text says, over the types of a schema.
    ///
    /// The error is the first fault, Q1 to Q9: Toml, else that of the top, of a message, of a rule, of a message's
    /// table, in this order. OutOfMemory may come in place of any answer.
    pub fn load<S: Types>(alloc: Global, text: &[u8], schema: &S) -> Result<Policy, PolicyFault>
        // What is answered is what the text says,
        ensures loads { IfOk result (λ p. Loads text.now (S.types schema.now) (policy_view p)) }
        // and what it says is answered.
        ensures only { (p : AbstractPolicy) → Loads text.now (S.types schema.now) p
            → IfOk result (λ q. policy_view q ≡ p) }
        // A refusal names the first fault.
        ensures refused { IfErr result (λ f. IfSome (named f) (IsRefused text.now (S.types schema.now))) }
    {
        let top = document(alloc, text)?;
        policy_of(alloc, &top, schema)
    }
}

/// The policy that a document says, over the types of a schema.
fn policy_of<'a, S: Types>(
    alloc: Global,
    top: &'a Table,
    schema: &'a S,
) -> Result<Policy, PolicyFault>
    ensures loads { (text : List ℕ) → IsDocument text (table_view top.now)
        → IfOk result (λ p. Loads text (S.types schema.now) (policy_view p)) }
    ensures only { (text : List ℕ) (p : AbstractPolicy) → IsDocument text (table_view top.now)
        → Loads text (S.types schema.now) p → IfOk result (λ q. policy_view q ≡ p) }
    ensures refused { (text : List ℕ) → IsDocument text (table_view top.now)
        → IfErr result (λ f. IfSome (named f) (IsRefused text (S.types schema.now))) }
{
    let listed = top_of(alloc, top)?;
    let messages = messages_of(alloc, schema, &listed.messages)?;
    let rules = rules_of(alloc, schema, &messages, &listed.rules)?;
    let modules = module_names(alloc, schema)?;
    Policy::of_named(alloc, &messages, &rules, modules)
}
