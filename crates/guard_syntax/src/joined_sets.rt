//! Unions and intersections of what was read, where an element alone takes the room of an element, and where they begin.
ghost use Rattle.std.specs.Prelude.{◌≡◌, map, IfOk};
ghost use Rattle.guard_syntax.specs.SetViews.{site_of_intersection, site_of_set, intersection_of, set_of};
ghost use Rattle.guard_syntax.specs.SetViews.{difference_view, joined_difference_view, intersection_view};
ghost use Rattle.guard_syntax.specs.SetViews.{joined_intersection_view, set_view};

use crate::tree::{
    DifferenceTree, IntersectionTree, JoinedDifference, JoinedIntersection, SetTree,
};
use guard_model::Site;
use std::alloc::{AllocError, Global};
use std::boxed::Box;

/// The intersection of a difference and those joined to it.
pub fn joined_to_difference<'a>(
    alloc: Global,
    first: DifferenceTree<'a>,
    others: Vec<JoinedDifference<'a>>,
) -> Result<IntersectionTree<'a>, AllocError>
    ensures { IfOk result (λ i. intersection_view i
        ≡ intersection_of (difference_view first.entry) (map joined_difference_view others.entry.items)) }
{
    if !others.is_empty() || first.except.is_some() {
        return Ok(IntersectionTree::Differences(Box::new(alloc, first)?, others));
    }
    Ok(IntersectionTree::Single(first.element))
}

/// The set that is the union of an intersection and those joined to it.
pub fn joined_to_intersection<'a>(
    alloc: Global,
    first: IntersectionTree<'a>,
    others: Vec<JoinedIntersection<'a>>,
) -> Result<SetTree<'a>, AllocError>
    ensures { IfOk result (λ s. set_view s
        ≡ set_of (intersection_view first.entry) (map joined_intersection_view others.entry.items)) }
{
    if !others.is_empty() {
        return Ok(SetTree::Union(Box::new(alloc, first)?, others));
    }
    match first {
        IntersectionTree::Single(element) => Ok(SetTree::Alone(element)),
        IntersectionTree::Differences(_, _) => Ok(SetTree::Union(Box::new(alloc, first)?, others)),
    }
}

impl<'a> SetTree<'a> {
    /// The site of the first token.
    pub fn site(&self) -> Site
        ensures { result ≡ site_of_set (set_view self.now) }
    {
        match self {
            SetTree::AllExcept(site, _) => *site,
            SetTree::Alone(element) => element.site,
            SetTree::Union(first, _) => first.site(),
        }
    }
}

impl<'a> IntersectionTree<'a> {
    /// The site of the first token.
    pub fn site(&self) -> Site
        ensures { result ≡ site_of_intersection (intersection_view self.now) }
    {
        match self {
            IntersectionTree::Single(element) => element.site,
            IntersectionTree::Differences(first, _) => first.element.site,
        }
    }
}
