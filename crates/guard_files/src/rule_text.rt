//! The text of a rule.
ghost use Rattle.std.specs.Prelude.{◌≡◌, ◌++◌, OnOk};
ghost use Rattle.guard_policy.specs.PolicyView.{said_view};
ghost use Rattle.guard_files.specs.RuleText.{effect_text, said_text};

use guard_model::OutOfMemory;
use guard_policy::{Effect, SaidRule};
use guard_report::{add, add_route};

/// Adds a rule's route, its effect and its name.
pub fn add_said(text: &mut Vec<u8>, rule: &SaidRule) -> Result<(), OutOfMemory>
    ensures { OnOk result (text.new.items ≡ text.old.items ++ said_text (said_view rule.now)) }
{
    add(text, b"  ")?;
    add_route(text, &rule.route())?;
    add(text, effect_text(rule.effect))?;
    add(text, rule.name.as_bytes())
}

fn effect_text(effect: Effect) -> &'static [u8]
    ensures { result.now ≡ effect_text effect }
{
    match effect {
        Effect::Allow => b": allow ",
        Effect::Deny => b": deny ",
    }
}
