//! The numbers of the rules of each message, gathered in one pass, so that the rules aren't gone through for each message.
ghost use Rattle.std.specs.Prelude.{◌≡◌, map, IfOk};
ghost use Rattle.guard_policy.specs.inside.Numbers.{AreNumbered, numbers_in};
ghost use Rattle.guard_policy.specs.SaidView.{said_view};

use super::policy::SaidRule;
use indexmap::IndexMap;
use std::alloc::{AllocError, Global};

/// The numbers of the rules that speak of each message, by its name.
#[derive(Drop)]
pub(crate) struct Numbered<'a> {
    named: IndexMap<&'a str, Vec<usize>>,
}

impl<'a> Numbered<'a> {
    /// The numbers of these rules.
    pub fn of(alloc: Global, rules: &'a [SaidRule<'a>]) -> Result<Numbered<'a>, AllocError>
        ensures { IfOk result (AreNumbered (map said_view rules.now)) }
    {
        let mut named = IndexMap::new(alloc);
        for (number, rule) in rules.iter().enumerate() {
            let before = named.insert(rule.message, Vec::new(alloc))?;
            let mut numbers = before.unwrap_or(Vec::new(alloc));
            numbers.push(number)?;
            named.insert(rule.message, numbers)?;
        }
        Ok(Numbered { named })
    }

    /// The numbers of the rules that speak of the message of this name, in order.
    pub fn rules(&self, name: &str) -> &[usize]
        ensures { result.now ≡ numbers_in self.now name.now }
    {
        match self.named.get(name) {
            Some(numbers) => numbers,
            None => &[],
        }
    }

    /// A copy of these numbers.
    pub fn copy_of(&self, alloc: Global, name: &str) -> Result<Vec<usize>, AllocError>
        ensures { IfOk result (λ numbers. numbers.items ≡ numbers_in self.now name.now) }
    {
        Ok(Vec::from_slice(alloc, self.rules(name))?)
    }
}
