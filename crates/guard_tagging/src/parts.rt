//! The components of a list, as they are read.
ghost use Rattle.std.specs.Prelude.{◌≡◌, ◌++◌, length, map, min, replicate, IfOk};
ghost use Rattle.guard_model.specs.Answer.{Gives};
ghost use Rattle.guard_model.specs.Components.{components_in};
ghost use Rattle.guard_model.specs.TypeView as model;
ghost use Rattle.guard_tagging.specs.Named.{named};
ghost use Rattle.guard_tagging.specs.inside.NodeViews.{made_view};
ghost use Rattle.guard_tagging.specs.inside.PartViews.{parts_view};
ghost use Rattle.guard_tagging.specs.inside.ReadParts as reading;
ghost use Rattle.guard_tagging.specs.Tagging as tagging;

use crate::fault::TagFault;
use crate::made::{Made, Parts};
use crate::names::{component_places, first_repeated, name_text};
use crate::taken::{check_taken, none_refused};
use guard_model::{Class, Comp, Kind, MOST_COMPONENTS, Presence, Site, Tag, Ty};
use std::alloc::{AllocError, Global};
use std::sync::ArcStr;

/// No components yet; `before` is the number of types before them.
pub fn no_parts(alloc: Global, before: usize) -> Parts
    ensures { parts_view result ≡ reading.no_parts before }
{
    Parts {
        sites: Vec::new(alloc),
        comps: Vec::new(alloc),
        deepest: 0,
        nodes: before,
        refused: none_refused(),
    }
}

/// The tag of the next component, in a list that is tagged automatically: its number is the component's place. A longer
/// list than is allowed is refused, and at its end one tag is as good as another.
pub fn next_tag(automatic: bool, parts: &Parts) -> Option<Tag>
    ensures { result ≡ reading.next_tag automatic (parts_view parts.now) }
{
    if automatic {
        Some(place_tag(parts.comps.len()))
    } else {
        None
    }
}

fn place_tag(place: usize) -> Tag
    ensures { result ≡ tagging.automatic_tag (min place 64) }
{
    Tag {
        class: Class::Context,
        number: place.min(MOST_COMPONENTS) as u32,
    }
}

/// The parts with one component more.
pub fn with_component(
    alloc: Global,
    parts: Box<Parts>,
    site: Site,
    name: &[u8],
    made: Box<Made>,
    presence: Presence,
) -> Result<Box<Parts>, AllocError>
    ensures { IfOk result (λ v. parts_view v.value ≡ reading.with_component (parts_view parts.value) site name.now
        (made_view made.value) (model.presence_view presence)) }
{
    let Made { ty, nesting, nodes } = Box::into_inner(made);
    let comp = comp_of(alloc, name, ty, presence)?;
    pushed(alloc, parts, site, comp, nesting, nodes)
}

fn comp_of(alloc: Global, name: &[u8], ty: Ty, presence: Presence) -> Result<Comp, AllocError>
    ensures { IfOk result (λ comp. model.component_view comp
        ≡ reading.named_component name.now (model.type_view ty) (model.presence_view presence)) }
{
    let name = ArcStr::from_string(name_text(alloc, name)?)?;
    Ok(Comp { name, ty, presence })
}

/// The parts with this component, which is nested so deep.
fn pushed(
    alloc: Global,
    parts: Box<Parts>,
    site: Site,
    comp: Comp,
    nesting: usize,
    nodes: usize,
) -> Result<Box<Parts>, AllocError>
    ensures { IfOk result (λ v. parts_view v.value
        ≡ reading.pushed (parts_view parts.value) site (model.component_view comp) nesting nodes) }
{
    let Parts {
        mut sites,
        mut comps,
        deepest,
        refused,
        ..
    } = Box::into_inner(parts);
    sites.push(site)?;
    comps.push(comp)?;
    Ok(Box::new(
        alloc,
        Parts {
            sites,
            comps,
            deepest: deepest.max(nesting),
            nodes,
            refused,
        },
    )?)
}

/// The parts with what COMPONENTS OF puts in at its word: the components of the SEQUENCE or SET.
pub fn with_list(
    alloc: Global,
    parts: Box<Parts>,
    site: Site,
    made: Box<Made>,
) -> Result<Box<Parts>, AllocError>
    ensures { IfOk result (λ v. parts_view v.value
        ≡ reading.with_list (parts_view parts.value) site (made_view made.value)) }
{
    let Made { ty, nesting, nodes } = Box::into_inner(made);
    let put_in = comps_in(alloc, ty.kind);
    appended(alloc, parts, site, put_in, nesting.saturating_sub(1), nodes)
}

/// The parts with all these components at one site, of which the deepest is nested so deep.
fn appended(
    alloc: Global,
    parts: Box<Parts>,
    site: Site,
    put_in: Vec<Comp>,
    nesting: usize,
    nodes: usize,
) -> Result<Box<Parts>, AllocError>
    ensures { IfOk result (λ v. parts_view v.value
        ≡ reading.appended (parts_view parts.value) site (map model.component_view put_in.items) nesting nodes) }
{
    let Parts {
        sites,
        mut comps,
        deepest,
        refused,
        ..
    } = Box::into_inner(parts);
    let mut put_in = put_in;
    let sites = with_sites(sites, site, put_in.len())?;
    comps.append(&mut put_in)?;
    Ok(Box::new(
        alloc,
        Parts {
            sites,
            comps,
            deepest: deepest.max(nesting),
            nodes,
            refused,
        },
    )?)
}

/// The components of a SEQUENCE or SET.
fn comps_in(alloc: Global, kind: Kind) -> Vec<Comp>
    ensures { map model.component_view result.items ≡ reading.listed (components_in (model.kind_view kind)) }
{
    match kind {
        Kind::Sequence(comps) => comps,
        Kind::Set(comps) => comps,
        Kind::Choice(comps) => comps,
        _ => Vec::new(alloc),
    }
}

/// The sites, and after them `count` times this one.
fn with_sites(sites: Vec<Site>, site: Site, count: usize) -> Result<Vec<Site>, AllocError>
    ensures { IfOk result (λ v. v.items ≡ sites.items ++ replicate count site) }
{
    let mut sites = sites;
    for added in 0..count {
        sites.push(site)?;
    }
    Ok(sites)
}

/// Ok where a list takes in nothing that it may not, its names differ, and it has 64 parts at most; else the first of
/// these faults in this order.
#[tactic(auto, unfolding(crate::specs::inside::ReadParts::check_list))]
pub fn check_list(alloc: Global, site: Site, parts: &Parts) -> Result<(), TagFault>
    ensures { Gives (λ u. u) named result (reading.check_list site (parts_view parts.now)) }
{
    check_taken(parts.refused)?;
    let places = component_places(alloc, &parts.sites, &parts.comps)?;
    match first_repeated(alloc, &places)? {
        Some(name) => Err(TagFault::DuplicateName(name)),
        None if parts.comps.len() > MOST_COMPONENTS => Err(TagFault::TooManyComponents(site)),
        None => Ok(()),
    }
}
