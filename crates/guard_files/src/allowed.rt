//! The value of a message, and the rules that allow it.
ghost use Rattle.std.specs.Prelude.{◌≡◌, ◌&&◌, IfOk, IsTrue, Some};
ghost use Rattle.guard_model.specs.ValueView.{value_view};
ghost use Rattle.guard_model.specs.TypeView.{type_view};
ghost use Rattle.guard_der.specs.Fits.{fits};
ghost use Rattle.guard_der.specs.Sound.{is_sound};
ghost use Rattle.guard_der.specs.Der.{der};
ghost use Rattle.guard_policy.specs.Decisions.{allows, rules_of, speaks_of};
ghost use Rattle.guard_policy.specs.PolicyView.{policy_view, route_view, said_view};
ghost use Rattle.guard_policy.specs.inside.Applicable.{AreApplicable};
ghost use Rattle.guard_policy.specs.Policies.{declared_type};
ghost use Rattle.guard_files.specs.Allowed.{allowing, allowing_lines, OfValue, HasValue};

use crate::octets::add_line;
use guard_der::{DecodeFault, decode};
use guard_eval::member;
use guard_model::{OutOfMemory, Ty, Value};
use guard_policy::{Effect, Policy, Route, SaidRule};
use std::alloc::Global;

/// The rules that allow a value, in the order of the file: their numbers, and a line for each.
#[derive(Drop)]
pub struct Allowed {
    pub numbers: Vec<usize>,
    /// What explains that they pass it.
    pub lines: Vec<u8>,
}

/// Whether the rule speaks of the route and allows the value.
fn allows(route: &Route, value: &Value, rule: &SaidRule) -> bool
    requires sound { IsTrue (is_sound (said_view rule.now).ty) }
    requires fits { IsTrue (speaks_of (route_view route.now) (said_view rule.now))
        → IsTrue (fits (said_view rule.now).ty (value_view value.now)) }
    ensures { result ≡ (speaks_of (route_view route.now) (said_view rule.now)
        && allows (said_view rule.now) (value_view value.now)) }
{
    rule.speaks_of(route) && rule.effect == Effect::Allow && member(rule.ty, value)
}

/// The rules that allow the value on the route. It fails only where memory runs out.
fn allowing(
    alloc: Global,
    policy: &Policy,
    route: &Route,
    value: &Value,
) -> Result<Allowed, OutOfMemory>
    requires { AreApplicable (route_view route.now) (value_view value.now) (policy_view policy.now).rules }
    ensures numbers { IfOk result (λ found. found.numbers.items
        ≡ allowing (rules_of (policy_view policy.now) (route_view route.now)) (value_view value.now)) }
    ensures lines { IfOk result (λ found. found.lines.items
        ≡ allowing_lines (route_view route.now) (value_view value.now) (policy_view policy.now).rules) }
{
    let mut numbers = Vec::new(alloc);
    let mut lines = Vec::new(alloc);
    for number in 0..policy.rules() {
        let Some(rule) = policy.rule(number) else {
            unreachable!();
        };
        if allows(route, value, &rule) {
            numbers.push(number)?;
            add_line(&mut lines, b"  allowed by ", rule.name)?;
        }
    }
    Ok(Allowed { numbers, lines })
}

/// The declared type of the message, and the value of it that the octets encode.
///
/// Condition: the message is declared, and the octets encode a value of its type. OutOfMemory is the only error.
pub fn value_of<'a>(
    alloc: Global,
    policy: &'a Policy,
    message: &[u8],
    octets: &[u8],
) -> Result<(&'a Ty, Value), OutOfMemory>
    requires { HasValue (policy_view policy.now) message.now octets.now }
    ensures { IfOk result (λ p. (declared_type (policy_view policy.now) message.now ≡ Some (type_view p.0.now))
        × IsTrue (fits (type_view p.0.now) (value_view p.1))
        × (der (type_view p.0.now) (value_view p.1) ≡ Some octets.now)) }
{
    let Some(ty) = policy.declared(message) else {
        unreachable!()
    };
    match decode(alloc, ty, octets) {
        Ok(value) => Ok((ty, value)),
        Err(DecodeFault::Breach(_)) => unreachable!(),
        Err(DecodeFault::OutOfMemory) => Err(OutOfMemory),
    }
}

/// The rules that allow the value which the octets encode.
///
/// Condition: the message is declared, and the octets encode a value of its type. OutOfMemory is the only error.
pub fn allowing_octets(
    alloc: Global,
    policy: &Policy,
    route: &Route,
    octets: &[u8],
) -> Result<Allowed, OutOfMemory>
    requires { HasValue (policy_view policy.now) (route_view route.now).message octets.now }
    ensures numbers { IfOk result (λ found. OfValue (policy_view policy.now) (route_view route.now).message octets.now
        (λ t v. found.numbers.items ≡ allowing (rules_of (policy_view policy.now) (route_view route.now)) v)) }
    ensures lines { IfOk result (λ found. OfValue (policy_view policy.now) (route_view route.now).message octets.now
        (λ t v. found.lines.items ≡ allowing_lines (route_view route.now) v (policy_view policy.now).rules)) }
{
    let (_, value) = value_of(alloc, policy, route.message, octets)?;
    allowing(alloc, policy, route, &value)
}
