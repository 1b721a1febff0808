//! Names and numbers that are there twice in one list.
ghost use Rattle.std.specs.Prelude.{◌≡◌, ◌||◌, ℕ, Bool, not, [], Some, length, map, IfOk, OnOk, string_bytes};
ghost use Rattle.guard_model.specs.TypeView as model;
ghost use Rattle.guard_syntax.specs.TypeViews as written;
ghost use Rattle.guard_syntax.specs.Views.{number_view};
ghost use Rattle.guard_tagging.specs.Faults.{repeated};
ghost use Rattle.guard_tagging.specs.inside.ReadNames.{text_octets, read_places, named_place, item_place};
ghost use Rattle.guard_tagging.specs.inside.ReadNames.{signed_key, near_number, has_number, same_key};
ghost use Rattle.guard_tagging.specs.inside.Views.{place_view};

use guard_lexer::magnitude;
use guard_model::{Comp, Site};
use guard_syntax::{ItemTree, NamedTree, NumberTree};
use std::alloc::{AllocError, Global};
use std::collections::BTreeSet;

/// A name, its site, and its number where it has one: whether that is below 0, and how far from 0, or from -1, it is.
#[derive(Clone, Copy)]
pub struct Placed<'a> {
    pub site: Site,
    pub name: &'a [u8],
    pub number: Option<(bool, u128)>,
}

/// The site of the first entry that has the name or the number of one before it; None where there is no such one.
pub fn first_repeated(alloc: Global, all: &[Placed]) -> Result<Option<Site>, AllocError>
    ensures { IfOk result (λ site. site ≡ repeated [] (map place_view all.now)) }
{
    let mut names = BTreeSet::new(alloc);
    let mut numbers = BTreeSet::new(alloc);
    for placed in all {
        let is_new_name = names.insert(placed.name)?;
        let is_new_number = insert_number(&mut numbers, placed.number)?;
        if !is_new_name || !is_new_number {
            return Ok(Some(placed.site));
        }
    }
    Ok(None)
}

/// Whether none of the numbers is equal to this one, which then goes in.
fn insert_number(
    numbers: &mut BTreeSet<(bool, u128)>,
    number: Option<(bool, u128)>,
) -> Result<bool, AllocError>
    ensures new { IfOk result (λ new. new ≡ not (has_number numbers.old.keys number)) }
    ensures after { OnOk result ((q : Bool × ℕ) →
        has_number numbers.new.keys (Some q) ≡ (has_number numbers.old.keys (Some q) || same_key (Some q) number)) }
{
    match number {
        Some(number) => Ok(numbers.insert(number)?),
        None => Ok(true),
    }
}

/// The name as text. Names are letters, digits and hyphens, of which nothing is lost.
#[tactic(auto, unfolding(crate::specs::inside::ReadNames::text_octets))]
pub fn name_text(alloc: Global, octets: &[u8]) -> Result<String, AllocError>
    ensures { IfOk result (λ text. string_bytes text ≡ text_octets octets.now) }
{
    String::from_utf8_lossy(alloc, octets)
}

/// The names of components, each at its site. Condition: there are as many sites as components.
pub fn component_places<'a>(
    alloc: Global,
    sites: &[Site],
    comps: &'a [Comp],
) -> Result<Vec<Placed<'a>>, AllocError>
    requires { length sites.now ≡ length comps.now }
    ensures { IfOk result (λ v. map place_view v.items ≡ read_places sites.now (map model.component_view comps.now)) }
{
    let mut places = Vec::with_capacity(alloc, comps.len())?;
    for (index, comp) in comps.iter().enumerate() {
        places.push(Placed {
            site: sites[index],
            name: comp.name.as_str().as_bytes(),
            number: None,
        })?;
    }
    Ok(places)
}

/// The names of named numbers or named bits, with their sites and numbers.
pub fn named_places<'a>(
    alloc: Global,
    trees: &[NamedTree<'a>],
) -> Result<Vec<Placed<'a>>, AllocError>
    ensures { IfOk result (λ v. map place_view v.items ≡ map named_place (map written.named_view trees.now)) }
{
    let mut places = Vec::with_capacity(alloc, trees.len())?;
    for tree in trees {
        places.push(Placed {
            site: tree.site,
            name: tree.name,
            number: Some(key(&tree.number)),
        })?;
    }
    Ok(places)
}

/// The names of items, with their sites and the numbers that are written.
pub fn item_places<'a>(alloc: Global, trees: &[ItemTree<'a>]) -> Result<Vec<Placed<'a>>, AllocError>
    ensures { IfOk result (λ v. map place_view v.items ≡ map item_place (map written.item_view trees.now)) }
{
    let mut places = Vec::with_capacity(alloc, trees.len())?;
    for tree in trees {
        places.push(item_placed(tree))?;
    }
    Ok(places)
}

fn item_placed<'a>(tree: &ItemTree<'a>) -> Placed<'a>
    ensures { place_view result ≡ item_place (written.item_view tree.now) }
{
    let number = match &tree.number {
        Some(number) => Some(key(number)),
        None => None,
    };
    Placed {
        site: tree.site,
        name: tree.name,
        number,
    }
}

/// A key by which integers are compared: whether the integer is below 0, and how far from 0, or from -1, it is. One
/// with more than 128 bits, which no token has, has the key of the greatest.
fn key(number: &NumberTree) -> (bool, u128)
    ensures { signed_key result ≡ near_number (number_view number.now) }
{
    let size = magnitude(number.digits).unwrap_or(u128::MAX);
    if number.minus && size > 0 {
        (true, size - 1)
    } else {
        (false, size)
    }
}
