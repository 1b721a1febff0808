//! The messages and rules of a policy.
ghost use Rattle.std.specs.Prelude.{◌≡◌, All, IsTrue, IfOk, map, option_map};
ghost use Rattle.guard_model.specs.TypeView.{type_view};
ghost use Rattle.guard_der.specs.Sound.{is_sound};
ghost use Rattle.guard_policy.specs.inside.Answers.{Meets};
ghost use Rattle.guard_policy.specs.inside.Keeping.{AreDeclared};
ghost use Rattle.guard_policy.specs.EntryFaults.{tables_fault};
ghost use Rattle.guard_policy.specs.SaidView.{said_message_view, said_view};
ghost use Rattle.guard_policy.specs.inside.KeptRules.{messages_kept, rules_kept};

use super::fault::PolicyFault;
use super::kept::{Kept, KeptMessage, keep_rules};
use super::leads::Leads;
use super::passing::Passing;
use super::route::Route;
use super::said::SaidMessage;
use super::tables::keep_messages;
use super::verdict::Verdict;
use guard_model::{OutOfMemory, Ty};
use std::alloc::Global;

/// Whether a rule lets a value go or stops it.
#[derive(Clone, Copy, Debug, PartialEq, Eq)]
pub enum Effect {
    Allow,
    Deny,
}

/// A rule of a policy, as it says it.
#[derive(Clone, Copy)]
pub struct SaidRule<'a> {
    pub name: &'a str,
    pub effect: Effect,
    pub from: &'a str,
    pub to: &'a str,
    pub message: &'a str,
    /// The name of the module that assigns its type.
    pub home: &'a str,
    /// The name of its type in this module.
    pub type_name: &'a str,
    pub ty: &'a Ty,
}

/// A policy over a schema: messages and rules in file order, and the names of the schema's modules. All types are
/// sound, and those of a message and its rules make a table: no rule's type has other tags or another base than the
/// declared type of its message.
#[derive(Drop)]
pub struct Policy {
    pub(crate) kept: Kept,
    modules: Vec<String>,
}

impl Policy {
    ghost use Rattle.std.specs.Prelude.{string_bytes, length, All, IsTrue, IfOk, IfSome, List, ℕ};
    ghost use Rattle.guard_model.specs.AbstractType.{AbstractType};
    ghost use Rattle.guard_der.specs.Sound.{is_sound};
    ghost use Rattle.guard_policy.specs.inside.Answers.{Meets};
    ghost use Rattle.guard_policy.specs.EntryFaults.{tables_fault};
    ghost use Rattle.std.specs.Prelude.{slice_get};
    ghost use Rattle.guard_policy.specs.PolicyView.{policy_view};
    ghost use Rattle.guard_policy.specs.SaidView.{said_message_view, said_view};
    ghost use Rattle.guard_policy.specs.Policies.{declared_message, declared_type, message_name_of};
    ghost use Rattle.guard_policy.specs.Policies.{rule_name_of, module_name};
    ghost use Rattle.guard_policy.specs.inside.Listings.{numbers_for};
    ghost use Rattle.guard_policy.specs.inside.Keeping.{AreDeclared, IsFirst};
    ghost use Rattle.std.specs.Arc.{arc_value};
    ghost use Rattle.guard_tables.specs.TableView.{declared_of};

    /// A policy of messages and rules. Conditions: all types are sound, and the message that each rule speaks of is
    /// among the messages.
    ///
    /// The error is Table, with the number, from 1, of the first message whose type and those of its rules make no
    /// table. OutOfMemory may come in place of any answer.
    pub(crate) fn of_named(
        alloc: Global,
        messages: &[SaidMessage],
        rules: &[SaidRule],
        modules: Vec<String>,
    ) -> Result<Policy, PolicyFault>
        requires messages_sound { All (λ m. IsTrue (is_sound m.ty)) (map said_message_view messages.now) }
        requires rules_sound { All (λ r. IsTrue (is_sound r.ty)) (map said_view rules.now) }
        requires declared { AreDeclared (map said_message_view messages.now) (map said_view rules.now) }
        ensures made { IfOk result (λ p. policy_view p ≡ record {
          messages = map said_message_view messages.now;
          rules = map said_view rules.now;
          modules = map string_bytes modules.items;
        }) }
        ensures met { Meets (tables_fault (map said_view rules.now) 1 (map said_message_view messages.now)) result }
    {
        let kept = tabled(alloc, messages, rules)?;
        Ok(Policy { kept, modules })
    }

    /// How many messages the policy declares.
    pub fn messages(&self) -> usize
        ensures { result ≡ length (policy_view self.now).messages }
    {
        self.kept.messages.len()
    }

    /// How many rules the policy has.
    pub fn rules(&self) -> usize
        ensures { result ≡ length (policy_view self.now).rules }
    {
        self.kept.rules.len()
    }

    /// The name of a message by its place in file order, from 0; None where there is no message at this place.
    pub fn message_name(&self, message: usize) -> Option<&str>
        ensures { option_map (λ name. name.now) result ≡ message_name_of (policy_view self.now) message }
    {
        Some(self.kept.messages.get(message)?.name.as_str())
    }

    /// A rule by its number in file order, from 0; None where there is no rule of this number.
    pub fn rule(&self, number: usize) -> Option<SaidRule<'_>>
        ensures { option_map said_view result ≡ slice_get (policy_view self.now).rules number }
    {
        self.kept.rule(number)
    }

    /// The name of a rule by its number in file order, from 0; None where there is no rule of this number.
    pub fn rule_name(&self, rule: usize) -> Option<&str>
        ensures { option_map (λ name. name.now) result ≡ rule_name_of (policy_view self.now) rule }
    {
        Some(self.kept.rules.get(rule)?.name.as_str())
    }

    /// The message of this name, whose type is sound; None where the policy declares none.
    pub fn message(&self, name: &[u8]) -> Option<SaidMessage<'_>>
        ensures declared { option_map said_message_view result ≡ declared_message (policy_view self.now) name.now }
        ensures sound { IfSome result (λ m. IsTrue (is_sound (type_view m.ty.now))) }
    {
        let (kept, _) = self.found(name)?;
        Some(SaidMessage {
            name: &kept.name,
            home: &kept.home,
            type_name: &kept.type_name,
            ty: kept.table.declared(),
        })
    }

    /// The declared type of the message of this name; None where the policy declares no such message.
    pub fn declared(&self, message: &[u8]) -> Option<&Ty>
        ensures { option_map (λ ty. type_view ty.now) result ≡ declared_type (policy_view self.now) message.now }
    {
        let (ty, _) = self.listed(message)?;
        Some(ty)
    }

    /// The declared type of the message of this name, and the numbers of the rules that speak of it; None where the
    /// policy declares no such message.
    fn listed(&self, message: &[u8]) -> Option<(&Ty, &[usize])>
        ensures { option_map {U = AbstractType × List ℕ} (λ p. (type_view p.0.now, p.1.now)) result
            ≡ option_map {U = AbstractType × List ℕ} (λ t. (t, numbers_for message.now 0 (policy_view self.now).rules))
            (declared_type (policy_view self.now) message.now) }
    {
        let (message, numbers) = self.found(message)?;
        Some((message.table.declared(), numbers))
    }

    /// The message of this name, and the numbers of the rules that speak of it; None where the policy declares no such
    /// message.
    pub(crate) fn found(&self, message: &[u8]) -> Option<(&KeptMessage, &[usize])>
        ensures listed { option_map {U = AbstractType × List ℕ} (λ p. (declared_of (arc_value p.0.now.table), p.1.now)) result
            ≡ option_map {U = AbstractType × List ℕ} (λ t. (t, numbers_for message.now 0 (policy_view self.now).rules))
            (declared_type (policy_view self.now) message.now) }
        ensures first { IfSome result (λ p. IsFirst message.now self.now.kept.messages.items p.0.now) }
    {
        let listed = self.kept.index.find(message)?;
        let found = self.kept.messages.get(listed.place)?;
        Some((found, &listed.rules))
    }

    /// The name of the module at this place of the list of texts, from 1; None where there is no such place.
    pub fn module(&self, text: u32) -> Option<&str>
        ensures { option_map (λ name. name.now) result ≡ module_name (policy_view self.now) text }
    {
        if text == 0 {
            return None;
        }
        Some(self.modules.get(text as usize - 1)?.as_str())
    }
}

impl Policy {
    ghost use Rattle.std.specs.Prelude.{IfOk, ◌↔◌};
    ghost use Rattle.guard_policy.specs.PolicyView.{policy_view, route_view};
    ghost use Rattle.guard_policy.specs.Verdicts.{AbstractVerdict, verdict_view, pass};
    ghost use Rattle.guard_policy.specs.Decisions.{IsReason, Goes};

    /// What becomes of a message on its route, and why: the first verdict of `Verdict` that stands, which is Pass
    /// exactly where `passes` says so. OutOfMemory is the only error.
    pub fn verdict(
        &self,
        alloc: Global,
        route: &Route,
        octets: &[u8],
    ) -> Result<Verdict, OutOfMemory>
        // The answer is a reason,
        ensures reason { IfOk result (λ w. IsReason (policy_view self.now) (route_view route.now) octets.now
            (verdict_view w)) }
        // and the only one.
        ensures only { (w : AbstractVerdict) → IsReason (policy_view self.now) (route_view route.now) octets.now w
            → IfOk result (λ x. verdict_view x ≡ w) }
        // The verdict is to pass exactly where the message goes.
        ensures passes { IfOk result (λ w. (verdict_view w ≡ pass)
            ↔ Goes (policy_view self.now) (route_view route.now) octets.now) }
    {
        match self.look_at(route, octets) {
            Passing::Goes(_) => Ok(Verdict::Pass),
            Passing::Stopped(told) => self.reason_as_told(alloc, route, octets, told),
        }
    }
}

/// What is kept of messages and rules, where the types of each message and its rules make a table.
fn tabled(alloc: Global, messages: &[SaidMessage], rules: &[SaidRule]) -> Result<Kept, PolicyFault>
    requires messages_sound { All (λ m. IsTrue (is_sound m.ty)) (map said_message_view messages.now) }
    requires rules_sound { All (λ r. IsTrue (is_sound r.ty)) (map said_view rules.now) }
    requires declared { AreDeclared (map said_message_view messages.now) (map said_view rules.now) }
    ensures met { Meets (tables_fault (map said_view rules.now) 1 (map said_message_view messages.now)) result }
    ensures messages { IfOk result (λ kept. messages_kept kept ≡ map said_message_view messages.now) }
    ensures rules { IfOk result (λ kept. rules_kept kept ≡ map said_view rules.now) }
{
    let with_tables = keep_messages(alloc, messages, rules)?;
    let (index, without_types) = keep_rules(alloc, messages, rules)?;
    let leads = Leads::of(alloc, &index, &with_tables, rules)?;
    Ok(Kept {
        messages: with_tables,
        rules: without_types,
        index,
        leads,
    })
}
