//! What the search finds: the site of a constraint, while the path to the part that fails it is written into one place
//! as the calls return, so that what each of them hands up is small.
ghost use Rattle.std.specs.Prelude.{◌≡◌, ◌∷◌, take, Some};
ghost use Rattle.guard_model.specs.declared.site.Step.TheVariants.{Component, Element};
ghost use Rattle.guard_eval.specs.Violations.{here, unless};
ghost use Rattle.guard_eval.specs.inside.Failures.{found_by, under};

use guard_model::{DEEPEST_NESTING, Path, Site, Step};

/// The site of a constraint that the value itself fails; the path is made empty.
pub fn here(path: &mut Path, site: Site) -> Site
    ensures { found_by path.new.items (Some result) ≡ here site }
{
    path.clear();
    site
}

/// The site of a constraint, with an empty path, where it doesn't hold; None where it holds.
pub fn unless(path: &mut Path, holds: bool, site: Site) -> Option<Site>
    ensures { found_by path.new.items result ≡ unless holds site }
{
    if holds { None } else { Some(here(path, site)) }
}

/// The site, with the path from the value whose component or alternative at this place fails the constraint.
pub fn under_component(path: &mut Path, site: Site, at: usize) -> Site
    ensures { found_by path.new.items (Some result) ≡ under (Component at) (found_by path.old.items (Some site)) }
{
    step_before(path, Step::Component(u8::try_from(at).unwrap_or(u8::MAX)));
    site
}

/// The site, with the path from the list whose element at this place fails the constraint.
pub fn under_element(path: &mut Path, site: Site, at: usize) -> Site
    ensures { found_by path.new.items (Some result) ≡ under (Element at) (found_by path.old.items (Some site)) }
{
    step_before(path, Step::Element(u32::try_from(at).unwrap_or(u32::MAX)));
    site
}

/// Puts a step in front of the path, which has room for the deepest nesting, so that in types within the limits nothing
/// is cut off.
fn step_before(path: &mut Path, step: Step)
    ensures { path.new.items ≡ step ∷ take 31 path.old.items }
{
    path.truncate(DEEPEST_NESTING - 1);
    path.insert(0, step);
}
