//! Named numbers (X.680 19.1), named bits (X.680 22.1), and the numbers of items (X.680 20).
ghost use Rattle.std.specs.Prelude.{◌≡◌, ◌≤◌, ◌<◌, ◌+◌, ◌^◌, ◌++◌, ℤ, [], length, map, IfOk};
ghost use Rattle.std.specs.List.{list_any};
ghost use Rattle.std.specs.Ordering.{int_eq};
ghost use Rattle.guard_model.specs.Answer.{Gives};
ghost use Rattle.guard_model.specs.inside.Each.{each};
ghost use Rattle.guard_model.specs.TypeView.{named_view};
ghost use Rattle.guard_syntax.specs.TypeViews as written;
ghost use Rattle.guard_syntax.specs.Views.{number_view};
ghost use Rattle.guard_tagging.specs.Enumerations.{free_from};
ghost use Rattle.guard_tagging.specs.Faults as faults;
ghost use Rattle.guard_tagging.specs.Named.{named, allowed};
ghost use Rattle.guard_syntax.specs.Numbers.{number_of};
ghost use Rattle.guard_tagging.specs.inside.ReadItems as reading;
ghost use Rattle.guard_tagging.specs.inside.ReadItems.{read_at, read_named, read_written, read_numbered, read_items};

use crate::fault::TagFault;
use crate::names::name_text;
use guard_model::{Named, Site};
use guard_syntax::{ItemTree, NamedTree, NumberTree};
use std::alloc::{AllocError, Global};
use std::collections::BTreeSet;

/// The greatest number of a named bit.
const GREATEST_BIT: i128 = 65535;

/// The named numbers of an INTEGER.
pub fn named_numbers(alloc: Global, trees: &[NamedTree]) -> Result<Vec<Named>, TagFault>
    ensures { Gives (λ v. map named_view v.items) named result (each read_named (map written.named_view trees.now)) }
{
    let mut numbers = Vec::with_capacity(alloc, trees.len())?;
    for tree in trees {
        let number = named_number(alloc, tree)?;
        numbers.push(number)?;
    }
    Ok(numbers)
}

fn named_number(alloc: Global, tree: &NamedTree) -> Result<Named, TagFault>
    ensures { Gives named_view named result (read_named (written.named_view tree.now)) }
{
    let number = number_at(tree.site, &tree.number)?;
    let name = name_text(alloc, tree.name)?;
    Ok(Named { name, number })
}

/// The named bits of a BIT STRING.
#[tactic(auto, unfolding(crate::specs::inside::ReadItems::read_bits))]
pub fn named_bits(alloc: Global, trees: &[NamedTree]) -> Result<Vec<Named>, TagFault>
    ensures { Gives (λ v. map named_view v.items) named result (reading.read_bits (map written.named_view trees.now)) }
{
    check_bits(trees)?;
    named_numbers(alloc, trees)
}

/// Ok where the number of each is one from 0 to 65,535; else NumberTooLarge at the first name whose number isn't.
fn check_bits(trees: &[NamedTree]) -> Result<(), TagFault>
    ensures { Gives (λ u. u) named result (allowed (reading.bits_fault (map written.named_view trees.now))) }
{
    for tree in trees {
        if !is_bit(&tree.number) {
            return Err(TagFault::NumberTooLarge(tree.site));
        }
    }
    Ok(())
}

/// Whether the number is one from 0 to 65,535.
fn is_bit(number: &NumberTree) -> bool
    ensures { result ≡ faults.is_bit (number_of (number_view number.now)) }
{
    match number.integer() {
        Some(number) => 0 <= number && number <= GREATEST_BIT,
        None => false,
    }
}

/// The number of the item or named number whose name is at the site; NumberTooLarge there where it is outside signed
/// 128 bits.
fn number_at(site: Site, tree: &NumberTree) -> Result<i128, TagFault>
    ensures { Gives (λ z. z) named result (read_at site (number_view tree.now)) }
{
    match tree.integer() {
        Some(number) => Ok(number),
        None => Err(TagFault::NumberTooLarge(site)),
    }
}

/// The items of an ENUMERATED with their numbers.
#[tactic(auto, unfolding(crate::specs::inside::ReadItems::read_items))]
pub fn items(alloc: Global, trees: &[ItemTree]) -> Result<Vec<Named>, TagFault>
    ensures { Gives (λ v. map named_view v.items) named result (read_items (map written.item_view trees.now)) }
{
    let written = written_numbers(alloc, trees)?;
    let taken = set_of(alloc, &written)?;
    numbered(alloc, trees, &taken)
}

/// The numbers that are written with items, in the order of the text.
fn written_numbers(alloc: Global, trees: &[ItemTree]) -> Result<Vec<i128>, TagFault>
    ensures { Gives (λ v. v.items) named result (read_written [] (map written.item_view trees.now)) }
{
    let mut numbers = Vec::new(alloc);
    for tree in trees {
        let own = own_number(tree)?;
        numbers = with_own(numbers, own)?;
    }
    Ok(numbers)
}

fn own_number(tree: &ItemTree) -> Result<Option<i128>, TagFault>
    ensures { Gives (λ own. own) named result (reading.read_own (written.item_view tree.now)) }
{
    match &tree.number {
        Some(number) => Ok(Some(number_at(tree.site, number)?)),
        None => Ok(None),
    }
}

fn with_own(numbers: Vec<i128>, own: Option<i128>) -> Result<Vec<i128>, AllocError>
    ensures { IfOk result (λ v. v.items ≡ numbers.items ++ reading.option_list own) }
{
    let mut numbers = numbers;
    if let Some(number) = own {
        numbers.push(number)?;
    }
    Ok(numbers)
}

fn set_of(alloc: Global, numbers: &[i128]) -> Result<BTreeSet<i128>, AllocError>
    ensures { IfOk result (λ set. (q : ℤ) → list_any (int_eq q) set.keys ≡ list_any (int_eq q) numbers.now) }
{
    let mut set = BTreeSet::new(alloc);
    for number in numbers {
        set.insert(*number)?;
    }
    Ok(set)
}

/// The items with their numbers. Those without a number get the first ones that are free, in their order.
fn numbered(
    alloc: Global,
    trees: &[ItemTree],
    taken: &BTreeSet<i128>,
) -> Result<Vec<Named>, TagFault>
    ensures { Gives (λ v. map named_view v.items) named result
        (read_numbered taken.now.keys (length trees.now) 0 [] (map written.item_view trees.now)) }
{
    let mut items = Vec::with_capacity(alloc, trees.len())?;
    let mut next = 0u128;
    for tree in trees {
        let (item, after) = item_of(alloc, tree, taken, trees.len(), next)?;
        items.push(item)?;
        next = after;
    }
    Ok(items)
}

/// An item with its number, and what the next one can get at least.
fn item_of(
    alloc: Global,
    tree: &ItemTree,
    taken: &BTreeSet<i128>,
    tries: usize,
    next: u128,
) -> Result<(Named, u128), TagFault>
    requires { next + tries < 2 ^ 126 }
    ensures gives { Gives (λ x. (named_view x.0, x.1)) named result
        (reading.read_item taken.now.keys tries next (written.item_view tree.now)) }
    ensures small { IfOk result (λ x. x.1 ≤ next + tries + 1) }
{
    let (number, after) = number_of(tree, taken, tries, next)?;
    let name = name_text(alloc, tree.name)?;
    Ok((Named { name, number }, after))
}

/// The number of an item where those before it got numbers below `next`, and what the next one can get at least.
fn number_of(
    tree: &ItemTree,
    taken: &BTreeSet<i128>,
    tries: usize,
    next: u128,
) -> Result<(i128, u128), TagFault>
    requires { next + tries < 2 ^ 126 }
    ensures gives { Gives (λ x. x) named result
        (reading.read_number taken.now.keys tries next tree.now.site (written.item_number_view tree.now.number)) }
    ensures small { IfOk result (λ x. x.1 ≤ next + tries + 1) }
{
    match &tree.number {
        Some(number) => Ok((number_at(tree.site, number)?, next)),
        None => {
            let free = first_free(taken, tries, next);
            Ok((free as i128, free + 1))
        }
    }
}

/// The first number from this one on that isn't taken. Where no more numbers are taken than there are tries it is
/// found.
fn first_free(taken: &BTreeSet<i128>, tries: usize, from: u128) -> u128
    requires { from + tries < 2 ^ 126 }
    ensures first { result ≡ free_from taken.now.keys tries from }
    ensures small { result ≤ from + tries }
{
    let mut number = from;
    for tried in 0..tries {
        if !taken.contains(&(number as i128)) {
            return number;
        }
        number += 1;
    }
    number
}
