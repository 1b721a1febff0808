//! Sets of slots: one for each thing that is asked of a value.
ghost use Rattle.std.specs.Prelude.{◌≡◌, ◌<◌, nat_eq};
ghost use Rattle.std.specs.Int.{bit_at};
ghost use Rattle.guard_tables.specs.Slots.{none, only, added, below, without, low_bits, bits_without, has, IsLowest};
ghost use Rattle.guard_tables.specs.inside.SlotWords.{InWords, IsLowestBit};

/// A set of slots, which are numbered from 0 to 255.
#[derive(Clone, Copy, Debug, PartialEq, Eq)]
pub struct Slots {
    first: u64,
    second: u64,
    third: u64,
    fourth: u64,
}

impl Slots {
    /// The empty set.
    pub fn none() -> Slots
        ensures { result ≡ none }
    {
        Slots {
            first: 0,
            second: 0,
            third: 0,
            fourth: 0,
        }
    }

    /// The set of one slot.
    #[tactic(auto, unfolding(crate::specs::Slots::only, crate::specs::Slots::none))]
    pub fn only(slot: u8) -> Slots
        ensures { result ≡ only slot }
    {
        let mut slots = Slots::none();
        if slot < 64 {
            slots.first = 1 << slot;
        } else if slot < 128 {
            slots.second = 1 << (slot - 64);
        } else if slot < 192 {
            slots.third = 1 << (slot - 128);
        } else {
            slots.fourth = 1 << (slot - 192);
        }
        slots
    }

    /// The slots with numbers below this one: all 256 for 256 and more.
    #[tactic(auto, unfolding(crate::specs::Slots::below))]
    pub fn below(slot: u16) -> Slots
        ensures { result ≡ below slot }
    {
        Slots {
            first: low_bits(slot),
            second: low_bits(slot.saturating_sub(64)),
            third: low_bits(slot.saturating_sub(128)),
            fourth: low_bits(slot.saturating_sub(192)),
        }
    }

    /// The slots of this set that aren't in the other one.
    #[tactic(auto, unfolding(crate::specs::Slots::without))]
    pub fn without(&self, other: &Slots) -> Slots
        ensures { result ≡ without self.now other.now }
    {
        Slots {
            first: bits_without(self.first, other.first),
            second: bits_without(self.second, other.second),
            third: bits_without(self.third, other.third),
            fourth: bits_without(self.fourth, other.fourth),
        }
    }

    /// Puts all slots of the other set into this one.
    #[tactic(auto, unfolding(crate::specs::Slots::added))]
    pub fn add(&mut self, more: &Slots)
        ensures { self.new ≡ added self.old more.now }
    {
        self.first |= more.first;
        self.second |= more.second;
        self.third |= more.third;
        self.fourth |= more.fourth;
    }

    /// Whether the set has this slot.
    #[tactic(auto, unfolding(crate::specs::Slots::has))]
    pub fn has(&self, slot: u8) -> bool
        ensures { result ≡ has self.now slot }
    {
        if slot < 64 {
            is_set(self.first, slot)
        } else if slot < 128 {
            is_set(self.second, slot - 64)
        } else if slot < 192 {
            is_set(self.third, slot - 128)
        } else {
            is_set(self.fourth, slot - 192)
        }
    }

    /// The slot of the set that has the lowest number; None where the set is empty.
    pub fn lowest(&self) -> Option<u8>
        ensures { IsLowest self.now result }
    {
        if self.first != 0 {
            return Some(lowest_bit(self.first));
        }
        if self.second != 0 {
            return Some(64 + lowest_bit(self.second));
        }
        if self.third != 0 {
            return Some(128 + lowest_bit(self.third));
        }
        if self.fourth != 0 {
            return Some(192 + lowest_bit(self.fourth));
        }
        None
    }

    /// What proofs need to know of the words; it does nothing when it runs.
    pub(crate) fn law_words(&self)
        ensures { InWords self.now }
    {
        let _first = self.first;
        let _second = self.second;
        let _third = self.third;
    }
}

/// A word with its lowest bits set, so many of them; all where there are no more.
fn low_bits(count: u16) -> u64
    ensures { result ≡ low_bits count }
{
    if count < 64 {
        return (1 << count) - 1;
    }
    u64::MAX
}

/// The bits of a word that aren't in another.
fn bits_without(word: u64, other: u64) -> u64
    ensures { result ≡ bits_without word other }
{
    word & (word ^ other)
}

/// The place of the lowest bit that is set. Condition: one is.
fn lowest_bit(word: u64) -> u8
    requires { 0 < word }
    ensures { IsLowestBit word result }
{
    word.trailing_zeros() as u8
}

fn is_set(word: u64, bit: u8) -> bool
    requires { bit < 64 }
    ensures { result ≡ nat_eq (bit_at word bit) 1 }
{
    (word >> bit) & 1 == 1
}
