//! Names with their numbers, which are found by name and by number without looking at each of them.
ghost use Rattle.std.specs.Prelude.{◌≡◌, ℕ, ℤ, List, [], ◌∷◌, ◌++◌, ◌==◌, length, map, IfOk, OnOk};
ghost use Rattle.std.specs.Arc.{arc_value};
ghost use Rattle.std.specs.BTreeSet.{contains};
ghost use Rattle.std.specs.Cmp.Lexicographic.{pointwise};
ghost use Rattle.std.specs.Option.{option_or};
ghost use Rattle.std.specs.Ordering.{int_cmp};
ghost use Rattle.guard_model.specs.NamedLists.{is_item, named_view, number_named};
ghost use Rattle.guard_model.specs.SameType.{same_named};
ghost use Rattle.guard_model.specs.inside.NamedOrders.{number_at};
ghost use Rattle.guard_model.specs.inside.Spelled.{spelled, spelled_name, numbers_of};

use crate::memory::OutOfMemory;
use crate::ty::Named;
use std::alloc::Global;
use std::collections::{BTreeMap, BTreeSet};
use std::marker::Model;
use std::sync::Arc;

/// Names with their numbers, in written order.
#[derive(Debug, Drop)]
pub struct NamedList {
    entries: Vec<Named>,
    /// The number of each name: that of the first entry with it.
    numbers: BTreeMap<Vec<u8>, i128>,
    /// The numbers that entries have.
    known: BTreeSet<i128>,
    /// The names as octets, one after the other: two lists are compared in one run over them, and not name by name,
    /// each of which lies elsewhere in memory.
    spelling: Vec<u8>,
    /// The number of each entry, in written order.
    in_order: Vec<i128>,
}

impl Model for NamedList {
    ghost use Rattle.std.specs.Prelude.{List, map};
    ghost use Rattle.guard_model.specs.AbstractType.{NamedNumber};

    ghost Value = { List NamedNumber };

    ghost use Rattle.guard_model.specs.NamedLists.{named_view};
    ghost use Rattle.guard_model.specs.inside.NamedOrders.{AreFound};

    ghost view = { λ list. map named_view list.entries.items };

    ghost invariant = { λ list. AreFound list.numbers list.known list.spelling list.in_order
        (map named_view list.entries.items) };
}

impl NamedList {
    /// The list of these entries, which the copies of a type share. OutOfMemory is the only error.
    pub fn shared(alloc: Global, entries: Vec<Named>) -> Result<Arc<NamedList>, OutOfMemory>
        ensures { IfOk result (λ list. arc_value list ≡ map named_view entries.items) }
    {
        Ok(Arc::new(alloc, NamedList::from_vec(alloc, entries)?)?)
    }

    fn from_vec(alloc: Global, entries: Vec<Named>) -> Result<NamedList, OutOfMemory>
        ensures { IfOk result (λ list. list ≡ map named_view entries.items) }
    {
        let numbers = first_numbers(alloc, &entries)?;
        let known = all_numbers(alloc, &entries)?;
        let spelling = spelling(alloc, &entries)?;
        let in_order = numbers_in_order(alloc, &entries)?;
        Ok(NamedList {
            entries,
            numbers,
            known,
            spelling,
            in_order,
        })
    }

    /// The entries in written order.
    pub fn as_slice(&self) -> &[Named]
        ensures { map named_view result.now ≡ self.now }
    {
        &self.entries
    }

    pub fn is_empty(&self) -> bool
        ensures { result ≡ (length self.now == 0) }
    {
        self.entries.is_empty()
    }

    /// Whether both have the same names with the same numbers, in the same order.
    pub(crate) fn is_same(&self, other: &NamedList) -> bool
        ensures { result ≡ pointwise same_named self.now other.now }
    {
        self.spelling.as_slice() == other.spelling.as_slice()
            && self.in_order.as_slice() == other.in_order.as_slice()
    }

    /// The number of the first entry with this name, by a search in the order of names.
    pub fn number_named(&self, name: &[u8]) -> Option<i128>
        ensures { result ≡ number_named name.now self.now }
    {
        self.numbers.get(name).copied()
    }

    /// Whether an entry has this number, by a search in the order of numbers.
    pub fn has_number(&self, number: i128) -> bool
        ensures { result ≡ is_item number self.now }
    {
        self.known.contains(&number)
    }
}

/// The number of each name: that of the first entry with it.
fn first_numbers(alloc: Global, entries: &[Named]) -> Result<BTreeMap<Vec<u8>, i128>, OutOfMemory>
    ensures { IfOk result (λ numbers. (name : List ℕ) →
        number_at numbers name ≡ number_named name (map named_view entries.now)) }
{
    let mut numbers = BTreeMap::new(alloc);
    for entry in entries {
        put_first(alloc, &mut numbers, entry)?;
    }
    Ok(numbers)
}

/// Puts in the entry's number, where no entry before it has the name.
fn put_first(
    alloc: Global,
    numbers: &mut BTreeMap<Vec<u8>, i128>,
    entry: &Named,
) -> Result<(), OutOfMemory>
    ensures { OnOk result ((name : List ℕ) → number_at numbers.new name
        ≡ option_or (number_at numbers.old name) (number_named name (named_view entry.now ∷ []))) }
{
    let name = entry.name.as_bytes();
    if numbers.contains_key(name) {
        return Ok(());
    }
    numbers.insert(Vec::from_slice(alloc, name)?, entry.number)?;
    Ok(())
}

fn all_numbers(alloc: Global, entries: &[Named]) -> Result<BTreeSet<i128>, OutOfMemory>
    ensures { IfOk result (λ known. (z : ℤ) → contains int_cmp known z ≡ is_item z (map named_view entries.now)) }
{
    let mut known = BTreeSet::new(alloc);
    for entry in entries {
        known.insert(entry.number)?;
    }
    Ok(known)
}

/// The names one after the other, each spelled.
fn spelling(alloc: Global, entries: &[Named]) -> Result<Vec<u8>, OutOfMemory>
    ensures { IfOk result (λ octets. octets.items ≡ spelled (map named_view entries.now)) }
{
    let mut octets = Vec::new(alloc);
    for entry in entries {
        spell(&mut octets, entry.name.as_bytes())?;
    }
    Ok(octets)
}

/// Appends each octet of the name behind a 1, and 0 at its end: where one name ends is seen without its length.
fn spell(octets: &mut Vec<u8>, name: &[u8]) -> Result<(), OutOfMemory>
    ensures { OnOk result (octets.new.items ≡ octets.old.items ++ spelled_name name.now) }
{
    for octet in name {
        octets.push(1)?;
        octets.push(*octet)?;
    }
    octets.push(0)?;
    Ok(())
}

fn numbers_in_order(alloc: Global, entries: &[Named]) -> Result<Vec<i128>, OutOfMemory>
    ensures { IfOk result (λ numbers. numbers.items ≡ numbers_of (map named_view entries.now)) }
{
    let mut numbers = Vec::with_capacity(alloc, entries.len())?;
    for entry in entries {
        numbers.push(entry.number)?;
    }
    Ok(numbers)
}
