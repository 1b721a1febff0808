//! The rules of a message.
ghost use Rattle.std.specs.Prelude.{◌≡◌, ◌++◌, OnOk, IfOk};
ghost use Rattle.guard_policy.specs.PolicyView.{policy_view, said_view};
ghost use Rattle.guard_messages.specs.Reasons.{message_rules, rule_line_of};

use guard_files::{add, add_said};
use guard_model::OutOfMemory;
use guard_policy::{Policy, SaidRule};
use std::alloc::Global;

/// A line for each rule of the message, in the order of the file. It fails only where memory runs out.
pub fn message_rules(alloc: Global, policy: &Policy, message: &[u8]) -> Result<Vec<u8>, OutOfMemory>
    ensures { IfOk result (λ text. text.items ≡ message_rules message.now (policy_view policy.now).rules) }
{
    let mut text = Vec::new(alloc);
    for number in 0..policy.rules() {
        let Some(rule) = policy.rule(number) else {
            unreachable!();
        };
        add_rule_of(&mut text, message, &rule)?;
    }
    Ok(text)
}

/// Adds the line of a rule of the message.
fn add_rule_of(text: &mut Vec<u8>, message: &[u8], rule: &SaidRule) -> Result<(), OutOfMemory>
    ensures { OnOk result (text.new.items ≡ text.old.items ++ rule_line_of message.now (said_view rule.now)) }
{
    if rule.message.as_bytes() == message {
        add_said(text, rule)?;
        add(text, b"\n")?;
    }
    Ok(())
}
