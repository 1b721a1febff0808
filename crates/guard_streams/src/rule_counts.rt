//! What is counted under one policy: how often each of its rules decided, and which texts it has.
ghost use Rattle.std.specs.Prelude.{◌≡◌, map, IfOk};
ghost use Rattle.guard_policy.specs.PolicyView.{policy_view, said_view};
ghost use Rattle.guard_streams.specs.Counters.{force_of, force_view, count_view, denies, fresh, some_more};

use guard_frames::{Reason, Why};
use guard_model::OutOfMemory;
use guard_policy::{Effect, Policy, SaidRule};
use std::alloc::{AllocError, Global};

/// A rule, and how often it decided what becomes of a frame. The number stays at the greatest of 64 bits.
#[derive(Drop)]
pub struct RuleCount {
    pub name: String,
    pub denies: bool,
    pub frames: u64,
}

/// The policy in force: the number of its texts, and its rules.
#[derive(Drop)]
pub struct InForce {
    pub digest: [u8; 32],
    pub rules: Vec<RuleCount>,
}

impl InForce {
    ghost use Rattle.std.specs.Prelude.{◌≡◌, map};
    ghost use Rattle.guard_streams.specs.Counters.{force_view, count_view, deny_one, allow_some};

    /// No policy.
    pub fn none(alloc: Global) -> InForce {
        InForce {
            digest: [0u8; 32],
            rules: Vec::new(alloc),
        }
    }

    /// The policy whose texts have this number, of whose rules none has decided anything. It fails only where memory
    /// runs out.
    pub fn of(alloc: Global, policy: &Policy, digest: [u8; 32]) -> Result<InForce, OutOfMemory>
        ensures { IfOk result (λ force. force_view force ≡ force_of (policy_view policy.now) digest) }
    {
        let rules = rules_of(alloc, policy)?;
        Ok(InForce { digest, rules })
    }

    /// One more frame stays, for this reason.
    pub fn stays(&mut self, why: Why)
        ensures { force_view self.new ≡ deny_one (force_view self.old) why }
    {
        if let Why::Decided(Reason::DeniedBy(rule)) = why {
            count_at(&mut self.rules, rule, 1);
        }
    }

    /// So many more frames go, by the rule of this number.
    pub fn goes(&mut self, rule: usize, frames: usize)
        ensures { force_view self.new ≡ allow_some (force_view self.old) rule frames }
    {
        count_at(&mut self.rules, rule, frames);
    }
}

/// The rules of the policy, in its order.
fn rules_of(alloc: Global, policy: &Policy) -> Result<Vec<RuleCount>, OutOfMemory>
    ensures { IfOk result (λ rules. map count_view rules.items ≡ map fresh (policy_view policy.now).rules) }
{
    let mut rules = Vec::with_capacity(alloc, policy.rules())?;
    for number in 0..policy.rules() {
        let Some(rule) = policy.rule(number) else {
            unreachable!()
        };
        rules.push(count_of(alloc, &rule)?)?;
    }
    Ok(rules)
}

/// A rule that has decided nothing.
fn count_of(alloc: Global, rule: &SaidRule) -> Result<RuleCount, AllocError>
    ensures { IfOk result (λ count. count_view count ≡ fresh (said_view rule.now)) }
{
    Ok(RuleCount {
        name: String::from_str(alloc, rule.name)?,
        denies: denies(rule.effect),
        frames: 0,
    })
}

/// Whether it is to deny.
fn denies(effect: Effect) -> bool
    ensures { result ≡ denies effect }
{
    match effect {
        Effect::Deny => true,
        Effect::Allow => false,
    }
}

/// The rule of this number, where there is one, has decided so many times more.
fn count_at(rules: &mut Vec<RuleCount>, number: usize, more: usize)
    ensures { map count_view rules.new.items ≡ some_more (map count_view rules.old.items) number more }
{
    if number >= rules.len() {
        return;
    }
    let rule = &mut rules[number];
    rule.frames = rule.frames.saturating_add(more as u64);
}
