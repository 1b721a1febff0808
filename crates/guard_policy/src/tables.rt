//! The table of each message, made of its declared type and the types of its rules.
ghost use Rattle.std.specs.Prelude.{◌≡◌, All, map, option_map, IfOk, IsTrue};
ghost use Rattle.guard_der.specs.Sound.{is_sound};
ghost use Rattle.guard_model.specs.TypeView.{type_view};
ghost use Rattle.guard_tables.specs.Tables.{types_view, first_fault};
ghost use Rattle.guard_policy.specs.inside.Answers.{Meets};
ghost use Rattle.guard_policy.specs.inside.Keeping.{tabled_view, tabled};
ghost use Rattle.guard_policy.specs.Routing.{rules_named, IsRouted};
ghost use Rattle.guard_policy.specs.EntryFaults.{tables_fault};
ghost use Rattle.guard_policy.specs.Consistency.{types_for};
ghost use Rattle.guard_policy.specs.SaidView.{said_message_view, said_view};
ghost use Rattle.guard_policy.specs.inside.Said.{rules_view};
ghost use Rattle.guard_policy.specs.inside.Numbers.{AreNumbered};
ghost use Rattle.guard_policy.specs.PolicyFaults.{bad_table};

use super::fault::PolicyFault;
use super::kept::KeptMessage;
use super::made_tables::MadeTables;
use super::numbered::Numbered;
use super::policy::SaidRule;
use super::routing::Routing;
use super::said::SaidMessage;
use guard_model::Ty;
use std::alloc::{AllocError, Global};

/// Each message with its table, or the fault Table of the first whose type and those of its rules make none. Messages
/// whose types are the same, those of their rules among them, share a table. Condition: all types are sound.
pub(crate) fn keep_messages<'a>(
    alloc: Global,
    messages: &'a [SaidMessage<'a>],
    rules: &'a [SaidRule<'a>],
) -> Result<Vec<KeptMessage>, PolicyFault>
    requires messages_sound { All (λ m. IsTrue (is_sound m.ty)) (map said_message_view messages.now) }
    requires rules_sound { All (λ r. IsTrue (is_sound r.ty)) (map said_view rules.now) }
    ensures met { Meets (tables_fault (map said_view rules.now) 1 (map said_message_view messages.now)) result }
    ensures kept { IfOk result (λ kept. map tabled_view kept.items
        ≡ map (tabled (map said_view rules.now)) (map said_message_view messages.now)) }
    ensures routed { IfOk result (λ kept. All (IsRouted (map said_view rules.now)) kept.items) }
{
    let numbered = Numbered::of(alloc, rules)?;
    let mut made = MadeTables::none(alloc);
    let mut kept = Vec::with_capacity(alloc, messages.len())?;
    for (index, message) in messages.iter().enumerate() {
        let message = keep_message(alloc, index + 1, message, &numbered, rules, &mut made)?;
        kept.push(message)?;
    }
    Ok(kept)
}

/// The message of this number with its table, which may be one that was made before, and with the routing and the
/// numbers of its rules; or the fault of the table.
fn keep_message<'a>(
    alloc: Global,
    number: usize,
    message: &SaidMessage<'a>,
    numbered: &Numbered,
    rules: &'a [SaidRule<'a>],
    made: &mut MadeTables<'a>,
) -> Result<KeptMessage, PolicyFault>
    requires numbered { AreNumbered (map said_view rules.now) numbered.now }
    requires message_sound { IsTrue (is_sound (type_view message.now.ty.now)) }
    requires rules_sound { All (λ r. IsTrue (is_sound r.ty)) (map said_view rules.now) }
    ensures met { Meets (option_map (bad_table number)
        (first_fault (type_view message.now.ty.now)
        (types_for (message.now.name.now) (map said_view rules.now)))) result }
    ensures kept { IfOk result (λ kept. tabled_view kept
        ≡ tabled (map said_view rules.now) (said_message_view message.now)) }
    ensures routed { IfOk result (IsRouted (map said_view rules.now)) }
{
    let named = rules_named(alloc, message.name, numbered, rules)?;
    let types = types_of(alloc, &named)?;
    let type_names = type_names(alloc, message, &named)?;
    let table = made.table_of(alloc, number, type_names, message.ty, &types)?;
    let routing = Routing::of(alloc, &named)?;
    let name = String::from_str(alloc, message.name)?;
    let home = String::from_str(alloc, message.home)?;
    let type_name = String::from_str(alloc, message.type_name)?;
    let numbers = numbered.copy_of(alloc, message.name)?;
    Ok(KeptMessage {
        name,
        home,
        type_name,
        table,
        routing,
        numbers,
    })
}

/// The types of the rules, in order.
fn types_of<'a>(alloc: Global, rules: &[&SaidRule<'a>]) -> Result<Vec<&'a Ty>, AllocError>
    ensures { IfOk result (λ types. types_view types.items ≡ map (λ r. r.ty) (rules_view rules.now)) }
{
    let mut types = Vec::with_capacity(alloc, rules.len())?;
    for rule in rules {
        types.push(rule.ty)?;
    }
    Ok(types)
}

/// The names of the types of the message and of its rules, each after that of its module.
fn type_names<'a>(
    alloc: Global,
    message: &SaidMessage<'a>,
    rules: &[&SaidRule<'a>],
) -> Result<Vec<&'a str>, AllocError> {
    let mut names = Vec::new(alloc);
    names.push(message.home)?;
    names.push(message.type_name)?;
    for rule in rules {
        names.push(rule.home)?;
        names.push(rule.type_name)?;
    }
    Ok(names)
}

/// The rules of the message of this name, in order.
fn rules_named<'a>(
    alloc: Global,
    name: &str,
    numbered: &Numbered,
    rules: &'a [SaidRule<'a>],
) -> Result<Vec<&'a SaidRule<'a>>, AllocError>
    requires { AreNumbered (map said_view rules.now) numbered.now }
    ensures { IfOk result (λ named. rules_view named.items ≡ rules_named name.now (map said_view rules.now)) }
{
    let mut named = Vec::new(alloc);
    for number in numbered.rules(name) {
        if let Some(rule) = rules.get(*number) {
            named.push(rule)?;
        }
    }
    Ok(named)
}
