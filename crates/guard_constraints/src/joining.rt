//! What sets of the notation join: unions, intersections and differences (X.680 50.1).
ghost use Rattle.std.specs.Prelude.{◌≡◌, ◌∷◌, map, IfOk};
ghost use Rattle.guard_model.specs.AbstractType as abstract;
ghost use Rattle.guard_model.specs.TypeView.{constraint_view, constraints_of};
ghost use Rattle.guard_constraints.specs.Denotes as denotes;
ghost use Rattle.guard_constraints.specs.inside.Reading as reading;

use guard_model::{Cons, Rule, Site};
use std::alloc::{AllocError, Global};
use std::sync::{Arc, ArcSlice};

/// What the parts of a set are joined to: `|` makes a union, `^` an intersection.
#[derive(Clone, Copy)]
pub enum Join {
    Union,
    Intersection,
}

pub fn all_except(alloc: Global, site: Site, other: Cons) -> Result<Cons, AllocError>
    ensures { IfOk result (λ c. constraint_view c ≡ abstract.at site (abstract.all_except (constraint_view other))) }
{
    let other = Arc::new(alloc, other)?;
    Ok(Cons {
        site,
        rule: Rule::Other(other),
    })
}

/// The first one with those joined to it. Alone it is itself.
pub fn joined(
    alloc: Global,
    join: Join,
    site: Site,
    first: Cons,
    others: Vec<Cons>,
) -> Result<Cons, AllocError>
    ensures { IfOk result (λ c. constraint_view c ≡ denotes.joined (reading.joined_by join) site (constraint_view first)
        (constraints_of (map constraint_view others.items))) }
{
    let joined_parts: &[Cons] = &others;
    if joined_parts.is_empty() {
        return Ok(first);
    }
    let all = with_first(alloc, first, others)?;
    of_all(join, site, all)
}

fn with_first(alloc: Global, first: Cons, others: Vec<Cons>) -> Result<Vec<Cons>, AllocError>
    ensures { IfOk result (λ v. v.items ≡ first ∷ others.items) }
{
    let mut others = others;
    let mut all = Vec::new(alloc);
    all.push(first)?;
    all.append(&mut others)?;
    Ok(all)
}

fn of_all(join: Join, site: Site, all: Vec<Cons>) -> Result<Cons, AllocError>
    ensures { IfOk result (λ c. constraint_view c
        ≡ abstract.at site (reading.joined_by join (constraints_of (map constraint_view all.items)))) }
{
    let all = ArcSlice::from_vec(all)?;
    match join {
        Join::Union => Ok(Cons {
            site,
            rule: Rule::Any(all),
        }),
        Join::Intersection => Ok(Cons {
            site,
            rule: Rule::Both(all),
        }),
    }
}

/// The one without what the other has.
pub fn except(alloc: Global, site: Site, all: Cons, less: Cons) -> Result<Cons, AllocError>
    ensures { IfOk result (λ c. constraint_view c
        ≡ abstract.at site (abstract.except (constraint_view all) (constraint_view less))) }
{
    let all = Arc::new(alloc, all)?;
    let less = Arc::new(alloc, less)?;
    Ok(Cons {
        site,
        rule: Rule::Minus(all, less),
    })
}
