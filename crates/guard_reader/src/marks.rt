//! Which types have the value of a message.
ghost use Rattle.std.specs.Prelude.{◌≡◌, ◌+◌, ◌&&◌, nat_lt};
ghost use Rattle.guard_tables.specs.Slots.{has};

use guard_tables::Slots;

/// What one pass tells of the value that octets encode: which of a table's types have it.
#[derive(Clone, Copy, Debug, PartialEq, Eq)]
pub struct Marks {
    /// The slots of the types that have the value: 0 of the declared type, i + 1 of rule i, counted from 0.
    pub members: Slots,
}

impl Marks {
    /// Whether the declared type has the value.
    pub fn of_type(&self) -> bool
        ensures { result ≡ has self.now.members 0 }
    {
        self.members.has(0)
    }

    /// Whether the type of this rule, counted from 0, has the value; false of a rule that isn't there. A message has at
    /// most 255 rules, so that the last one is rule 254.
    pub fn rule(&self, rule: u8) -> bool
        ensures { result ≡ (nat_lt rule 255 && has self.now.members (rule + 1)) }
    {
        if rule == 255 {
            return false;
        }
        self.members.has(rule + 1)
    }
}
