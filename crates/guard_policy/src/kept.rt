//! What a policy keeps of messages and rules: each type once, in the table of its message.
ghost use Rattle.std.specs.Prelude.{◌≡◌, All, List, map, count_by, nat_lt, option_map, slice_get, IfOk};
ghost use Rattle.std.proofs.Props.{props};
ghost use Rattle.guard_model.specs.TypeView.{type_view};
ghost use Rattle.guard_policy.specs.Consistency.{IsConsistent};
ghost use Rattle.guard_policy.specs.KeptView.{kept_message_view, kept_rule_view, found_type};
ghost use Rattle.guard_policy.specs.inside.Listings.{IsIndex, listed_view};
ghost use Rattle.guard_policy.specs.SaidView.{said_message_view, said_view};
ghost use Rattle.guard_policy.specs.inside.Keeping.{type_place, IsSaid, ArePlaced, AreDeclared, tabled_view, tabled};
ghost use Rattle.guard_policy.specs.inside.Leads.{AreLeads};
ghost use Rattle.guard_policy.specs.Routing.{IsRouted};
ghost use Rattle.guard_policy.specs.declared.kept.KeptMessage.{KeptMessage};

use super::index::{Index, Listed};
use super::leads::Leads;
use super::policy::{Effect, SaidRule};
use super::routing::Routing;
use super::said::SaidMessage;
use guard_model::{OutOfMemory, Ty};
use guard_tables::Table;
use std::alloc::{AllocError, Global};
use std::sync::Arc;

/// A message, with the names of its declared type and of the module that assigns it, the table of this type and those of
/// its rules, which messages with the same types share, how routes lead to these, and the numbers of these rules.
#[derive(Drop)]
pub(crate) struct KeptMessage {
    pub name: String,
    pub home: String,
    pub type_name: String,
    pub table: Arc<Table>,
    pub routing: Routing,
    pub numbers: Vec<usize>,
}

/// Where the type of a rule is: in the table of the message at a place, at a place among its rules.
#[derive(Clone, Copy)]
pub(crate) struct TypePlace {
    pub message: usize,
    pub rule: usize,
}

/// A rule without its type.
#[derive(Drop)]
pub(crate) struct KeptRule {
    pub name: String,
    pub effect: Effect,
    pub from: String,
    pub to: String,
    pub message: String,
    pub home: String,
    pub type_name: String,
    pub ty: TypePlace,
}

/// Messages and rules in file order, how a message's name leads to both, and what the routes that rules give lead to.
#[derive(Drop)]
pub(crate) struct Kept {
    pub messages: Vec<KeptMessage>,
    pub rules: Vec<KeptRule>,
    pub index: Index,
    pub leads: Leads,
    pub ghost consistent: { IsConsistent (map kept_message_view messages.items)
        (map (kept_rule_view messages.items) rules.items) },
    pub ghost indexed: { IsIndex (map kept_message_view messages.items)
        (map (kept_rule_view messages.items) rules.items) index } by { Prim.hlevel props },
    pub ghost placed: { ArePlaced (map kept_message_view messages.items) rules.items } by { Prim.hlevel props },
    pub ghost routed: { All (IsRouted (map
        (kept_rule_view messages.items) rules.items)) messages.items } by { Prim.hlevel props },
    pub ghost led: { AreLeads index messages.items
        (map (kept_rule_view messages.items) rules.items) leads } by { Prim.hlevel props },
}

impl Kept {
    ghost use Rattle.guard_policy.specs.inside.KeptRules.{rules_kept};

    /// The rule of this number, from 0; None where there is none.
    pub fn rule(&self, number: usize) -> Option<SaidRule<'_>>
        ensures { option_map said_view result ≡ slice_get (rules_kept self.now) number }
    {
        let rule = self.rules.get(number)?;
        let Some(ty) = self.type_at(rule.ty) else {
            unreachable!();
        };
        Some(SaidRule {
            name: &rule.name,
            effect: rule.effect,
            from: &rule.from,
            to: &rule.to,
            message: &rule.message,
            home: &rule.home,
            type_name: &rule.type_name,
            ty,
        })
    }

    fn type_at(&self, place: TypePlace) -> Option<&Ty>
        ensures { option_map (λ ty. type_view ty.now) result ≡ found_type self.now.messages.items place }
    {
        self.messages.get(place.message)?.table.rule(place.rule)
    }
}

/// Each rule without its type, and how names lead to messages and rules. Condition: the message of each rule is among
/// the messages. OutOfMemory is the only error.
pub(crate) fn keep_rules(
    alloc: Global,
    messages: &[SaidMessage],
    rules: &[SaidRule],
) -> Result<(Index, Vec<KeptRule>), OutOfMemory>
    requires declared { AreDeclared (map said_message_view messages.now) (map said_view rules.now) }
    ensures index { IfOk result (λ kept. IsIndex (map said_message_view messages.now)
        (map said_view rules.now) kept.0) }
    // Together with the tables of the messages, what is kept are the rules.
    ensures rules { IfOk result (λ kept. (with_tables : List KeptMessage) →
        map tabled_view with_tables ≡ map (tabled (map said_view rules.now)) (map said_message_view messages.now) →
        map (kept_rule_view with_tables) kept.1.items ≡ map said_view rules.now) }
    ensures placed { IfOk result (λ kept. ArePlaced (map said_message_view messages.now) kept.1.items) }
{
    let index = Index::of(alloc, messages, rules)?;
    let mut kept = Vec::with_capacity(alloc, rules.len())?;
    for (number, rule) in rules.iter().enumerate() {
        let Some(listed) = index.find(rule.message.as_bytes()) else {
            unreachable!();
        };
        let ty = type_place(listed, number);
        kept.push(without_type(alloc, rule, ty)?)?;
    }
    Ok((index, kept))
}

/// Where the type of the rule of this number is kept; its message is listed so.
fn type_place(listed: &Listed, number: usize) -> TypePlace
    ensures { result ≡ type_place (listed_view listed.now) number }
{
    TypePlace {
        message: listed.place,
        rule: count_before(&listed.rules, number),
    }
}

/// How many of the numbers come before this one.
fn count_before(numbers: &[usize], number: usize) -> usize
    ensures { result ≡ count_by (λ n. nat_lt n number) numbers.now }
{
    numbers.iter().filter(|other| **other < number).count()
}

/// The rule without its type, which is at this place.
fn without_type(alloc: Global, rule: &SaidRule, ty: TypePlace) -> Result<KeptRule, AllocError>
    ensures { IfOk result (λ kept. IsSaid (said_view rule.now) kept × (kept.ty ≡ ty)) }
{
    let name = String::from_str(alloc, rule.name)?;
    let from = String::from_str(alloc, rule.from)?;
    let to = String::from_str(alloc, rule.to)?;
    let message = String::from_str(alloc, rule.message)?;
    let home = String::from_str(alloc, rule.home)?;
    let type_name = String::from_str(alloc, rule.type_name)?;
    Ok(KeptRule {
        name,
        effect: rule.effect,
        from,
        to,
        message,
        home,
        type_name,
        ty,
    })
}
