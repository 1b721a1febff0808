//! How a route leads to the rules of a message: by one look-up of the sender's name and one of the receiver's, however
//! many rules there are.
ghost use Rattle.std.specs.Prelude.{◌≡◌, ◌≢◌, ◌↔◌, ◌+◌, ◌<◌, ◌≤◌, length, IfOk, IsTrue};
ghost use Rattle.guard_tables.specs.Slots.{none, only, added};
ghost use Rattle.guard_policy.specs.PolicyView.{route_view};
ghost use Rattle.guard_policy.specs.SaidView.{said_view};
ghost use Rattle.guard_policy.specs.Routing.{slots_where, slots_meant, slots_for, given_by, has_effect, common};
ghost use Rattle.guard_policy.specs.Routing.{route_rules, AreParties, IsRouting};
ghost use Rattle.guard_policy.specs.inside.Said.{rules_view};

use super::policy::{Effect, SaidRule};
use super::route::{ANYONE, Route};
use super::route_octets::{NameOctets, OctetsOf};
use super::speaking::is_meant;
use guard_tables::Slots;
use indexmap::IndexMap;
use std::alloc::{AllocError, Global};

/// One of the two parties of a route.
#[derive(Clone, Copy)]
pub(crate) enum Side {
    Sender,
    Receiver,
}

/// For each sender, or for each receiver, the rules of one message that speak of it. What rules with `*` add is in each
/// set.
#[derive(Drop)]
pub(crate) struct Parties {
    named: IndexMap<NameOctets, Slots>,
    /// The rules for those parties that no rule names.
    others: Slots,
}

/// How a route leads to the rules of one message. A rule is known by its type's slot in the message's table.
#[derive(Drop)]
pub(crate) struct Routing {
    senders: Parties,
    receivers: Parties,
    allowing: Slots,
    denying: Slots,
}

/// The rules that speak of a route, by their effects.
#[derive(Clone, Copy)]
pub(crate) struct RouteRules {
    pub allowing: Slots,
    pub denying: Slots,
}

impl Parties {
    /// The senders, or the receivers, of these rules of a message.
    fn of(alloc: Global, side: Side, rules: &[&SaidRule]) -> Result<Parties, AllocError>
        requires few { length rules.now ≤ 255 }
        ensures { IfOk result (AreParties side (rules_view rules.now)) }
    {
        let mut named = IndexMap::new(alloc);
        for rule in rules {
            let name = given_by(side, rule).as_bytes();
            let slots = meant(side, name, rules);
            named.insert(NameOctets::of_name(alloc, name)?, slots)?;
        }
        Ok(Parties {
            named,
            others: meant(side, ANYONE.as_bytes(), rules),
        })
    }

    /// The rules that speak of the party of this name.
    fn rules(&self, name: &[u8]) -> &Slots
        ensures { result.now ≡ slots_for self.now name.now }
    {
        match self.named.get(OctetsOf { octets: name }) {
            Some(slots) => slots,
            None => &self.others,
        }
    }
}

impl Routing {
    /// The routing of the rules of a message. Condition: there are at most 255.
    pub fn of(alloc: Global, rules: &[&SaidRule]) -> Result<Routing, AllocError>
        requires few { length rules.now ≤ 255 }
        ensures { IfOk result (IsRouting (rules_view rules.now)) }
    {
        let senders = Parties::of(alloc, Side::Sender, rules)?;
        let receivers = Parties::of(alloc, Side::Receiver, rules)?;
        Ok(Routing {
            senders,
            receivers,
            allowing: of_effect(Effect::Allow, rules),
            denying: of_effect(Effect::Deny, rules),
        })
    }

    /// The rules that speak of the route.
    pub fn rules(&self, route: &Route) -> RouteRules
        ensures { result ≡ route_rules self.now (route_view route.now) }
    {
        let of_sender = self.senders.rules(route.from);
        let speaking = common(of_sender, self.receivers.rules(route.to));
        RouteRules {
            allowing: common(&speaking, &self.allowing),
            denying: common(&speaking, &self.denying),
        }
    }
}

impl RouteRules {
    ghost use Rattle.std.specs.Prelude.{◌≡◌, ◌↔◌, IsTrue};
    ghost use Rattle.guard_tables.specs.Slots.{none};

    /// Whether none of the rules allows anything.
    pub fn allow_nothing(&self) -> bool
        ensures { IsTrue result ↔ (self.now.allowing ≡ none) }
    {
        self.allowing == Slots::none()
    }
}

/// Whether the sets have a slot in common.
pub(crate) fn meets(first: &Slots, second: &Slots) -> bool
    ensures { IsTrue result ↔ (common first.now second.now ≢ none) }
{
    common(first, second) != Slots::none()
}

/// The slots that both sets have.
pub(crate) fn common(first: &Slots, second: &Slots) -> Slots
    ensures { result ≡ common first.now second.now }
{
    first.without(&first.without(second))
}

/// The rules that speak of this sender, or of this receiver.
fn meant(side: Side, name: &[u8], rules: &[&SaidRule]) -> Slots
    requires few { length rules.now ≤ 255 }
    ensures { result ≡ slots_meant side name.now (rules_view rules.now) }
{
    let mut slots = Slots::none();
    for (place, rule) in rules.iter().enumerate() {
        if is_meant(given_by(side, rule), name) {
            add_rule(&mut slots, place);
        }
    }
    slots
}

/// The rules with this effect.
fn of_effect(effect: Effect, rules: &[&SaidRule]) -> Slots
    requires few { length rules.now ≤ 255 }
    ensures { result ≡ slots_where (has_effect effect) (rules_view rules.now) }
{
    let mut slots = Slots::none();
    for (place, rule) in rules.iter().enumerate() {
        if has_effect(effect, rule) {
            add_rule(&mut slots, place);
        }
    }
    slots
}

/// Puts in the slot of the rule at this place.
fn add_rule(slots: &mut Slots, place: usize)
    requires few { place < 255 }
    ensures { slots.new ≡ added slots.old (only (place + 1)) }
{
    slots.add(&Slots::only(place as u8 + 1));
}

fn has_effect(effect: Effect, rule: &SaidRule) -> bool
    ensures { result ≡ has_effect effect (said_view rule.now) }
{
    rule.effect == effect
}

/// What a rule gives for its sender, or for its receiver.
fn given_by<'a>(side: Side, rule: &SaidRule<'a>) -> &'a str
    ensures { result.now ≡ given_by side (said_view rule.now) }
{
    match side {
        Side::Sender => rule.from,
        Side::Receiver => rule.to,
    }
}
