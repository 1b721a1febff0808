//! Look-ups by the name of a message.
ghost use Rattle.std.specs.Prelude.{◌≡◌, map, option_map, IfOk};
ghost use Rattle.guard_policy.specs.inside.Listings.{IsIndex, found_in, listed_view};
ghost use Rattle.guard_policy.specs.SaidView.{said_message_view, said_view};

use super::numbered::Numbered;
use super::policy::SaidRule;
use super::route_octets::{NameOctets, OctetsOf};
use super::said::SaidMessage;
use indexmap::IndexMap;
use std::alloc::{AllocError, Global};

/// What the name of a message leads to.
#[derive(Drop)]
pub(crate) struct Listed {
    /// The place of the first message of this name.
    pub place: usize,
    /// The numbers of the rules that speak of the message.
    pub rules: Vec<usize>,
}

/// What each name of a message leads to.
#[derive(Drop)]
pub(crate) struct Index {
    listed: IndexMap<NameOctets, Listed>,
}

impl Index {
    /// The index of these messages and rules.
    pub fn of(
        alloc: Global,
        messages: &[SaidMessage],
        rules: &[SaidRule],
    ) -> Result<Index, AllocError>
        ensures { IfOk result (IsIndex (map said_message_view messages.now) (map said_view rules.now)) }
    {
        let numbered = Numbered::of(alloc, rules)?;
        let mut listed = IndexMap::new(alloc);
        for (place, message) in messages.iter().enumerate() {
            let name = message.name.as_bytes();
            if !listed.contains_key(OctetsOf { octets: name }) {
                let rules = numbered.copy_of(alloc, message.name)?;
                listed.insert(NameOctets::of_name(alloc, name)?, Listed { place, rules })?;
            }
        }
        Ok(Index { listed })
    }

    /// What the name leads to; None where no message has it.
    pub fn find(&self, name: &[u8]) -> Option<&Listed>
        ensures { option_map (λ listed. listed_view listed.now) result ≡ found_in self.now name.now }
    {
        self.listed.get(OctetsOf { octets: name })
    }
}
