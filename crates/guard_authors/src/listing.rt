//! What is listed of a policy that is accepted.
ghost use Rattle.std.specs.Prelude.{◌≡◌, ◌++◌, codes, is_some, map, option_map, bytes_eq, IfOk, OnOk};
ghost use Rattle.std.specs.List.{list_any};
ghost use Rattle.guard_model.specs.SameType.{same_site};
ghost use Rattle.guard_model.specs.TypeView.{type_view, constraint_view, constraints_of};
ghost use Rattle.guard_policy.specs.PolicyView.{policy_view, route_view, said_view};
ghost use Rattle.guard_files.specs.Places.{places_in};
ghost use Rattle.guard_authors.specs.Listing.{begins, has_all_of, found_view, is_whole, found_rule, found_rules};
ghost use Rattle.guard_authors.specs.Listing.{denies_all_of, first_denier, may_let_pass, is_closed, barren_text};
ghost use Rattle.guard_authors.specs.Listing.{denied_text, closed_text, denier_of, remarks, rule_line};
ghost use Rattle.guard_authors.specs.Listing.{line_of_message, rule_lines, unused_line, message_lines};
ghost use Rattle.guard_authors.specs.Listing.{messages_lines, has_remark, is_told, told_lines, listing};
ghost use Rattle.guard_authors.specs.Listing.{no_message_text, strict_remarks};

use crate::parties::{add_case_lines, parties};
use guard_files::{add, add_said};
use guard_model::{Cons, OutOfMemory, Site, Ty};
use guard_policy::{Effect, Policy, Route, SaidRule, is_anyone};
use std::alloc::Global;

/// What the remarks rest on.
const LAST_LINE: &[u8] =
    b"  Looked at: integers, sizes and the places of constraints. A rule without a remark may let nothing pass \
        either.\n";

/// A rule, and what is found of it by itself.
#[derive(Clone, Copy)]
pub struct Found<'a> {
    pub rule: SaidRule<'a>,
    /// Integers and sizes show that its type has no value that the declared type has.
    pub barren: bool,
    /// Its type has all values of the declared type.
    pub whole: bool,
}

/// Each message with its rules in the order of the file, and of each rule what keeps it from letting anything pass. Its
/// one refusal is that memory ran out.
pub fn listing(alloc: Global, policy: &Policy) -> Result<Vec<u8>, OutOfMemory>
    ensures { IfOk result (λ text. text.items ≡ listing (policy_view policy.now)) }
{
    let mut text = told_lines(alloc, policy, false)?;
    add(&mut text, LAST_LINE)?;
    Ok(text)
}

/// What is remarked of the policy and no more. It fails only where memory runs out.
pub fn strict_remarks(alloc: Global, policy: &Policy) -> Result<Vec<u8>, OutOfMemory>
    ensures { IfOk result (λ text. text.items ≡ strict_remarks (policy_view policy.now)) }
{
    told_lines(alloc, policy, true)
}

fn told_lines(alloc: Global, policy: &Policy, strict: bool) -> Result<Vec<u8>, OutOfMemory>
    ensures { IfOk result (λ text. text.items ≡ told_lines strict (policy_view policy.now)) }
{
    let rules = found_rules(alloc, policy)?;
    let mut text = Vec::new(alloc);
    add(&mut text, no_message_text(policy.messages() == 0))?;
    add_messages(&mut text, policy, &rules, strict)?;
    let parties = parties(alloc, &rules)?;
    add_case_lines(&mut text, &parties)?;
    Ok(text)
}

// ---- what is found of a rule by itself

fn found_rules<'a>(alloc: Global, policy: &'a Policy) -> Result<Vec<Found<'a>>, OutOfMemory>
    ensures { IfOk result (λ found. map found_view found.items ≡ found_rules (policy_view policy.now)) }
{
    let mut found = Vec::new(alloc);
    for number in 0..policy.rules() {
        let Some(rule) = policy.rule(number) else {
            unreachable!();
        };
        found.push(found_rule(alloc, policy, number, rule)?)?;
    }
    Ok(found)
}

fn found_rule<'a>(
    alloc: Global,
    policy: &Policy,
    number: usize,
    rule: SaidRule<'a>,
) -> Result<Found<'a>, OutOfMemory>
    ensures { IfOk result (λ found. found_view found
        ≡ found_rule (policy_view policy.now) number (said_view rule.entry)) }
{
    let barren = policy.is_barren(alloc, number)?;
    let whole = is_whole(policy, &rule);
    Ok(Found {
        rule,
        barren,
        whole,
    })
}

fn is_whole(policy: &Policy, rule: &SaidRule) -> bool
    ensures { result ≡ is_whole (policy_view policy.now) (said_view rule.now) }
{
    match policy.declared(rule.message.as_bytes()) {
        Some(declared) => has_all_of(rule.ty, declared),
        None => false,
    }
}

/// Whether the constraints of the second type begin with those of the first.
fn has_all_of(wide: &Ty, narrow: &Ty) -> bool
    ensures { result ≡ has_all_of (type_view wide.now) (type_view narrow.now) }
{
    begins(&wide.cons, &narrow.cons)
}

fn begins(first: &[Cons], all: &[Cons]) -> bool
    ensures { result ≡ begins (places_in (constraints_of (map constraint_view first.now)))
        (places_in (constraints_of (map constraint_view all.now))) }
{
    let mut rest = all;
    for constraint in first {
        let [next, others @ ..] = rest else {
            return false;
        };
        if !is_same_site(&constraint.site, &next.site) {
            return false;
        }
        rest = others;
    }
    true
}

fn is_same_site(one: &Site, two: &Site) -> bool
    ensures { result ≡ same_site one.now two.now }
{
    one.text == two.text && one.line == two.line && one.column == two.column
}

// ---- what others do to it

/// On this route the second rule denies all that the first one allows.
fn denies_all_of(route: &Route, rule: &SaidRule, other: &Found) -> bool
    ensures { result ≡ denies_all_of (route_view route.now) (said_view rule.now) (found_view other.now) }
{
    other.rule.effect == Effect::Deny
        && other.rule.speaks_of(route)
        && (other.whole || has_all_of(other.rule.ty, rule.ty))
}

/// The name of the first rule that denies on this route all that the rule allows.
fn first_denier<'a>(route: &Route, rule: &SaidRule, rules: &[Found<'a>]) -> Option<&'a str>
    ensures { option_map (λ name. name.now) result
        ≡ first_denier (route_view route.now) (said_view rule.now) (map found_view rules.now) }
{
    for other in rules {
        if denies_all_of(route, rule, other) {
            return Some(other.rule.name);
        }
    }
    None
}

fn may_let_pass(rules: &[Found], route: &Route, found: &Found) -> bool
    ensures { result ≡ may_let_pass (map found_view rules.now) (route_view route.now) (found_view found.now) }
{
    found.rule.effect == Effect::Allow
        && found.rule.speaks_of(route)
        && !found.barren
        && !is_denied(route, &found.rule, rules)
}

fn is_denied(route: &Route, rule: &SaidRule, rules: &[Found]) -> bool
    ensures { result ≡ is_some (first_denier (route_view route.now) (said_view rule.now) (map found_view rules.now)) }
{
    first_denier(route, rule, rules).is_some()
}

/// Whether some rule may let something pass on this route.
fn is_open(rules: &[Found], route: &Route) -> bool
    ensures { result ≡ list_any (may_let_pass (map found_view rules.now) (route_view route.now))
        (map found_view rules.now) }
{
    for found in rules {
        if may_let_pass(rules, route, found) {
            return true;
        }
    }
    false
}

/// The rule names a sender and a receiver, and nothing can pass from the one to the other.
fn is_closed(rules: &[Found], rule: &SaidRule) -> bool
    ensures { result ≡ is_closed (map found_view rules.now) (said_view rule.now) }
{
    !is_anyone(rule.from) && !is_anyone(rule.to) && !is_open(rules, &rule.route())
}

/// The rule by which an allowing one is denied as a whole.
fn denier_of<'a>(rules: &[Found<'a>], rule: &SaidRule) -> Option<&'a str>
    ensures { option_map (λ name. name.now) result ≡ denier_of (map found_view rules.now) (said_view rule.now) }
{
    match rule.effect {
        Effect::Allow => first_denier(&rule.route(), rule, rules),
        Effect::Deny => None,
    }
}

// ---- the text

fn add_messages(
    text: &mut Vec<u8>,
    policy: &Policy,
    rules: &[Found],
    strict: bool,
) -> Result<(), OutOfMemory>
    ensures { OnOk result (text.new.items
        ≡ text.old.items ++ messages_lines strict (map found_view rules.now)
        (map (λ m. m.name) (policy_view policy.now).messages)) }
{
    for place in 0..policy.messages() {
        let Some(message) = policy.message_name(place) else {
            unreachable!();
        };
        add_message(text, rules, message, strict)?;
    }
    Ok(())
}

/// Adds the lines of a message.
fn add_message(
    text: &mut Vec<u8>,
    rules: &[Found],
    message: &str,
    strict: bool,
) -> Result<(), OutOfMemory>
    ensures { OnOk result (text.new.items
        ≡ text.old.items ++ message_lines strict (map found_view rules.now) message.now) }
{
    if has_rule(rules, message) {
        add_rules(text, rules, message, strict)
    } else {
        add_unused(text, message)
    }
}

fn add_unused(text: &mut Vec<u8>, message: &str) -> Result<(), OutOfMemory>
    ensures { OnOk result (text.new.items ≡ text.old.items ++ unused_line message.now) }
{
    add(text, b"  ")?;
    add(text, message.as_bytes())?;
    add(text, b": no rule speaks of it, so nothing can pass\n")
}

fn has_rule(rules: &[Found], message: &str) -> bool
    ensures { result ≡ list_any (λ f. bytes_eq f.rule.message message.now) (map found_view rules.now) }
{
    for found in rules {
        if found.rule.message == message {
            return true;
        }
    }
    false
}

fn add_rules(
    text: &mut Vec<u8>,
    rules: &[Found],
    message: &str,
    strict: bool,
) -> Result<(), OutOfMemory>
    ensures { OnOk result (text.new.items
        ≡ text.old.items ++ rule_lines strict (map found_view rules.now) message.now (map found_view rules.now)) }
{
    for found in rules {
        add_rule_of(text, rules, message, found, strict)?;
    }
    Ok(())
}

/// Adds the line of a rule if it speaks of the message and is told.
fn add_rule_of(
    text: &mut Vec<u8>,
    rules: &[Found],
    message: &str,
    found: &Found,
    strict: bool,
) -> Result<(), OutOfMemory>
    ensures { OnOk result (text.new.items
        ≡ text.old.items ++ line_of_message strict (map found_view rules.now) message.now (found_view found.now)) }
{
    if found.rule.message == message && is_told(rules, found, strict) {
        add_rule(text, rules, found)
    } else {
        Ok(())
    }
}

/// Whether its line is told: in any case, or strictly only where it is remarked.
fn is_told(rules: &[Found], found: &Found, strict: bool) -> bool
    ensures { result ≡ is_told strict (map found_view rules.now) (found_view found.now) }
{
    !strict || has_remark(rules, found)
}

fn has_remark(rules: &[Found], found: &Found) -> bool
    ensures { result ≡ has_remark (map found_view rules.now) (found_view found.now) }
{
    found.barren || denier_of(rules, &found.rule).is_some() || is_closed(rules, &found.rule)
}

/// Adds the line of a rule.
fn add_rule(text: &mut Vec<u8>, rules: &[Found], found: &Found) -> Result<(), OutOfMemory>
    ensures { OnOk result (text.new.items
        ≡ text.old.items ++ rule_line (map found_view rules.now) (found_view found.now)) }
{
    add_said(text, &found.rule)?;
    add_remarks(text, rules, found)?;
    add(text, b"\n")
}

fn add_remarks(text: &mut Vec<u8>, rules: &[Found], found: &Found) -> Result<(), OutOfMemory>
    ensures { OnOk result (text.new.items
        ≡ text.old.items ++ remarks (map found_view rules.now) (found_view found.now)) }
{
    add(text, barren_text(found.barren))?;
    add_denied(text, denier_of(rules, &found.rule))?;
    add(text, closed_text(is_closed(rules, &found.rule)))
}

fn add_denied(text: &mut Vec<u8>, by: Option<&str>) -> Result<(), OutOfMemory>
    ensures { OnOk result (text.new.items ≡ text.old.items ++ denied_text (option_map (λ name. name.now) by.entry)) }
{
    match by {
        Some(name) => add_denier(text, name),
        None => Ok(()),
    }
}

fn add_denier(text: &mut Vec<u8>, name: &str) -> Result<(), OutOfMemory>
    ensures { OnOk result (text.new.items ≡ text.old.items ++ (codes "; denied as a whole by " ++ name.now)) }
{
    add(text, b"; denied as a whole by ")?;
    add(text, name.as_bytes())
}

fn barren_text(barren: bool) -> &'static [u8]
    ensures { result.now ≡ barren_text barren }
{
    if barren {
        b"; its type has no value of the declared type"
    } else {
        b""
    }
}

/// Where there is no message at all.
fn no_message_text(none: bool) -> &'static [u8]
    ensures { result.now ≡ no_message_text none }
{
    if none {
        b"  no message is declared, so nothing can pass\n"
    } else {
        b""
    }
}

fn closed_text(closed: bool) -> &'static [u8]
    ensures { result.now ≡ closed_text closed }
{
    if closed {
        b"; nothing can pass on this route"
    } else {
        b""
    }
}
