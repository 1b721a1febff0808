//! Permitted alphabets (X.680 51.7). What is written inside FROM is first taken apart into strings and ranges, which
//! says whether it has the form that this profile takes; then their characters are looked at. A character is its code.
ghost use Rattle.std.specs.Prelude.{◌≡◌, [], ◌++◌, map, chars, IfOk, Some, option_map};
ghost use Rattle.guard_model.specs.AbstractType as abstract;
ghost use Rattle.guard_model.specs.Answer.{Gives};
ghost use Rattle.guard_model.specs.TypeView.{type_view, constraint_view};
ghost use Rattle.guard_syntax.specs.Trees.{united_of};
ghost use Rattle.guard_syntax.specs.Views as trees;
ghost use Rattle.guard_syntax.specs.SetViews as sets;
ghost use Rattle.guard_constraints.specs.PermittedAlphabets as alphabets;
ghost use Rattle.guard_constraints.specs.inside.Reading.{gathered, read_alphabet};
ghost use Rattle.guard_constraints.specs.Views.{named, code_view, item_view};

use crate::fault::ConsFault;
use guard_model::{CharKind, Cons, Kind, Rule, Site, Ty};
use guard_syntax::{
    ConsTree, DifferenceTree, ElementForm, ElementTree, EndForm, EndTree, IntersectionTree,
    JoinedDifference, JoinedIntersection, RangeTree, SetTree, StringKind, ValueForm, ValueTree,
};
use guard_values::{ValueFault, quoted};
use std::alloc::{AllocError, Global};
use std::sync::ArcSlice;

/// The code of MIN.
const LEAST_CODE: u32 = 0;

/// The code of MAX.
const GREATEST_CODE: u32 = 0x10FFFF;

/// An end of a range of characters.
#[derive(Clone, Copy)]
pub enum End {
    /// MIN or MAX.
    Open,
    /// The character of a string, and where that is.
    Character(Site, u32),
}

/// What is in the union inside FROM.
#[derive(Drop)]
pub enum Item {
    /// The characters of a string, and where it is.
    All(Site, Vec<u32>),
    /// Those between two ends, both in.
    Between(End, End),
}

/// The strings of the permitted characters. `site` is that of the word FROM.
pub fn alphabet(alloc: Global, tree: &ConsTree, site: Site, ty: &Ty) -> Result<Cons, ConsFault>
    ensures { Gives constraint_view named result
        (read_alphabet (type_view ty.now) site (sets.constraint_view tree.now)) }
{
    let Kind::Chars(kind) = &ty.kind else {
        return Err(ConsFault::NotApplicable(site));
    };
    let items = in_set(alloc, &tree.set, site, Vec::new(alloc))?;
    if let Some(bad) = first_bad(*kind, &items) {
        return Err(ConsFault::Value(ValueFault::BadCharacter(bad)));
    }
    let ranges = ranges_of(alloc, &items)?;
    Ok(Cons {
        site,
        rule: Rule::Alphabet(ArcSlice::from_vec(ranges)?),
    })
}

// ---- the form: what is written there, after the items before it

#[cycle(alphabet_forms)]
#[tactic(auto, using(crate::proofs::CodeSteps::AlphabetForms::items_of_set_alone), unfolding(crate::specs::PermittedAlphabets::items_of))]
fn in_set(
    alloc: Global,
    set: &SetTree,
    site: Site,
    items: Vec<Item>,
) -> Result<Vec<Item>, ConsFault>
    ensures { Gives (λ v. map item_view v.items) named result
        (gathered site (map item_view items.items) (alphabets.items_of (sets.set_view set.now))) }
{
    match set {
        SetTree::AllExcept(_, _) => Err(ConsFault::AlphabetForm(site)),
        SetTree::Alone(element) => in_element(alloc, element, site, items),
        SetTree::Union(first, others) => {
            let items = in_intersection(alloc, first, site, items)?;
            in_united(alloc, others, site, items)
        }
    }
}

#[cycle(alphabet_forms)]
fn in_united(
    alloc: Global,
    others: &[JoinedIntersection],
    site: Site,
    items: Vec<Item>,
) -> Result<Vec<Item>, ConsFault>
    ensures { Gives (λ v. map item_view v.items) named result (gathered site (map item_view items.items)
        (alphabets.items_of_united (united_of (map sets.joined_intersection_view others.now)))) }
{
    let mut all = items;
    for other in others {
        all = in_intersection(alloc, &other.part, site, all)?;
    }
    Ok(all)
}

/// Neither an intersection nor EXCEPT is part of an alphabet.
#[cycle(alphabet_forms)]
#[tactic(auto, unfolding(crate::specs::PermittedAlphabets::items_of))]
fn in_intersection(
    alloc: Global,
    tree: &IntersectionTree,
    site: Site,
    items: Vec<Item>,
) -> Result<Vec<Item>, ConsFault>
    ensures { Gives (λ v. map item_view v.items) named result (gathered site (map item_view items.items)
        (alphabets.items_of_intersection (sets.intersection_view tree.now))) }
{
    match tree {
        IntersectionTree::Single(element) => in_element(alloc, element, site, items),
        IntersectionTree::Differences(first, others) => {
            let others: &[JoinedDifference] = others;
            if !others.is_empty() {
                return Err(ConsFault::AlphabetForm(site));
            }
            in_difference(alloc, first, site, items)
        }
    }
}

#[cycle(alphabet_forms)]
#[tactic(auto, unfolding(crate::specs::PermittedAlphabets::items_of))]
fn in_difference(
    alloc: Global,
    tree: &DifferenceTree,
    site: Site,
    items: Vec<Item>,
) -> Result<Vec<Item>, ConsFault>
    ensures { Gives (λ v. map item_view v.items) named result
        (gathered site (map item_view items.items) (alphabets.items_of_difference (sets.difference_view tree.now))) }
{
    if tree.except.is_some() {
        return Err(ConsFault::AlphabetForm(site));
    }
    in_element(alloc, &tree.element, site, items)
}

#[cycle(alphabet_forms)]
#[tactic(auto, unfolding(crate::specs::PermittedAlphabets::items_of))]
fn in_element(
    alloc: Global,
    tree: &ElementTree,
    site: Site,
    items: Vec<Item>,
) -> Result<Vec<Item>, ConsFault>
    ensures { Gives (λ v. map item_view v.items) named result
        (gathered site (map item_view items.items) (alphabets.items_of_element (sets.element_view tree.now))) }
{
    match &tree.form {
        ElementForm::Parentheses(set) => in_set(alloc, set, site, items),
        ElementForm::Value(tree) => with_item(site, items, item_of_value(alloc, tree)?),
        ElementForm::Range(range) => with_item(site, items, item_of_range(alloc, range)?),
        _ => Err(ConsFault::AlphabetForm(site)),
    }
}

fn with_item(site: Site, items: Vec<Item>, item: Option<Item>) -> Result<Vec<Item>, ConsFault>
    ensures { Gives (λ v. map item_view v.items) named result
        (gathered site (map item_view items.items) (alphabets.item_alone (option_map item_view item))) }
{
    let Some(item) = item else {
        return Err(ConsFault::AlphabetForm(site));
    };
    let mut all = items;
    all.push(item)?;
    Ok(all)
}

/// A string in double quotes.
fn item_of_value(alloc: Global, tree: &ValueTree) -> Result<Option<Item>, AllocError>
    ensures { IfOk result (λ found. option_map item_view found ≡ alphabets.item_of_value (trees.value_view tree.now)) }
{
    let ValueForm::Text(StringKind::Characters, spelling) = &tree.form else {
        return Ok(None);
    };
    match quoted_codes(alloc, spelling)? {
        Some(codes) => Ok(Some(Item::All(tree.site, codes))),
        None => Ok(None),
    }
}

/// A range of characters without `<`.
fn item_of_range(alloc: Global, range: &RangeTree) -> Result<Option<Item>, AllocError>
    ensures { IfOk result (λ found. option_map item_view found ≡ alphabets.item_of_range (sets.range_view range.now)) }
{
    if range.above_low || range.below_high {
        return Ok(None);
    }
    let low = code_end(alloc, &range.low)?;
    let high = code_end(alloc, &range.high)?;
    match (low, high) {
        (Some(low), Some(high)) => Ok(Some(Item::Between(low, high))),
        _ => Ok(None),
    }
}

/// MIN, MAX, or a string of one character.
fn code_end(alloc: Global, end: &Option<EndTree>) -> Result<Option<End>, AllocError>
    ensures { IfOk result (λ found. option_map code_view found ≡ alphabets.code_end (sets.end_or_view end.now)) }
{
    let Some(end) = end else {
        return Ok(Some(End::Open));
    };
    let EndForm::Characters(spelling) = end.form else {
        return Ok(None);
    };
    match quoted_codes(alloc, spelling)? {
        Some(codes) => Ok(character_end(end.site, &codes)),
        None => Ok(None),
    }
}

/// The character of a string that has one.
fn character_end(site: Site, codes: &[u32]) -> Option<End>
    ensures { option_map code_view result
        ≡ option_map (alphabets.character site) (alphabets.one_alone (Some codes.now)) }
{
    if codes.len() == 1 {
        Some(End::Character(site, codes[0]))
    } else {
        None
    }
}

/// The characters that are quoted; the octets of a module text are UTF-8.
fn quoted_codes(alloc: Global, spelling: &[u8]) -> Result<Option<Vec<u32>>, AllocError>
    ensures { IfOk result (λ found. option_map (λ v. v.items) found ≡ alphabets.quoted_codes spelling.now) }
{
    let octets = quoted(alloc, spelling)?;
    let Ok(text) = str::from_utf8(&octets) else {
        return Ok(None);
    };
    Ok(Some(codes_of(alloc, text)?))
}

fn codes_of(alloc: Global, text: &str) -> Result<Vec<u32>, AllocError>
    ensures { IfOk result (λ v. v.items ≡ chars text.now) }
{
    let mut codes = Vec::new(alloc);
    for character in text.chars() {
        codes.push(u32::from(character))?;
    }
    Ok(codes)
}

// ---- the characters

/// The first string with a character that isn't of the alphabet.
fn first_bad(kind: CharKind, items: &[Item]) -> Option<Site>
    ensures { result ≡ alphabets.first_bad (abstract.characters kind) (map item_view items.now) }
{
    for item in items {
        if let Some(site) = bad_item(kind, item) {
            return Some(site);
        }
    }
    None
}

fn bad_item(kind: CharKind, item: &Item) -> Option<Site>
    ensures { result ≡ alphabets.bad_item (abstract.characters kind) (item_view item.now) }
{
    match item {
        Item::All(site, codes) => {
            if are_of_alphabet(kind, codes) {
                None
            } else {
                Some(*site)
            }
        }
        Item::Between(low, high) => bad_end(kind, low).or(bad_end(kind, high)),
    }
}

fn are_of_alphabet(kind: CharKind, codes: &[u32]) -> bool
    ensures { result ≡ alphabets.are_of_alphabet (abstract.characters kind) codes.now }
{
    for code in codes {
        if !kind.has(*code) {
            return false;
        }
    }
    true
}

fn bad_end(kind: CharKind, end: &End) -> Option<Site>
    ensures { result ≡ alphabets.bad_end (abstract.characters kind) (code_view end.now) }
{
    match end {
        End::Character(site, code) if !kind.has(*code) => Some(*site),
        _ => None,
    }
}

/// Ranges of codes, both ends in, in written order.
fn ranges_of(alloc: Global, items: &[Item]) -> Result<Vec<(u32, u32)>, AllocError>
    ensures { IfOk result (λ v. v.items ≡ alphabets.ranges_of (map item_view items.now)) }
{
    let mut ranges = Vec::new(alloc);
    for item in items {
        add_ranges(&mut ranges, item)?;
    }
    Ok(ranges)
}

fn add_ranges(ranges: &mut Vec<(u32, u32)>, item: &Item) -> Result<(), AllocError>
    ensures { IfOk result (λ u. ranges.new.items ≡ ranges.old.items ++ alphabets.ranges_of_item (item_view item.now)) }
{
    match item {
        Item::All(_, codes) => add_characters(ranges, codes),
        Item::Between(low, high) => {
            ranges.push((code_at(LEAST_CODE, low), code_at(GREATEST_CODE, high)))?;
            Ok(())
        }
    }
}

/// Each character is a range of its own.
fn add_characters(ranges: &mut Vec<(u32, u32)>, codes: &[u32]) -> Result<(), AllocError>
    ensures { IfOk result (λ u. ranges.new.items ≡ ranges.old.items ++ map alphabets.alone codes.now) }
{
    for code in codes {
        ranges.push((*code, *code))?;
    }
    Ok(())
}

/// The code of an end: of MIN or MAX, or of the character.
fn code_at(free: u32, end: &End) -> u32
    ensures { result ≡ alphabets.code_at free (code_view end.now) }
{
    match end {
        End::Open => free,
        End::Character(_, code) => *code,
    }
}
