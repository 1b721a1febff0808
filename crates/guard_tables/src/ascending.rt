//! Whether components have tags that ascend: mostly so, by automatic tags or as they are written.
ghost use Rattle.std.specs.Prelude.{◌≡◌, map, None};
ghost use Rattle.guard_model.specs.TypeView.{type_view, component_view, components_of};
ghost use Rattle.guard_tables.specs.TableNodes.{outer_tag};
ghost use Rattle.guard_tables.specs.Tables.{tags_of};
ghost use Rattle.guard_tables.specs.inside.Ascending.{components_ascend};

use guard_der::follows;
use guard_model::{Comp, Tag, Ty};

/// Whether each component has an outermost tag that comes after that of the one before.
pub(crate) fn ascend(comps: &[Comp]) -> bool
    ensures { result ≡ components_ascend None (components_of (map component_view comps.now)) }
{
    let mut last: Option<Tag> = None;
    for comp in comps {
        let Some(tag) = outer_tag(&comp.ty) else {
            return false;
        };
        if !follows(last, tag) {
            return false;
        }
        last = Some(tag);
    }
    true
}

/// The outermost tag of a type; None where it has no tag, as a CHOICE may.
fn outer_tag(ty: &Ty) -> Option<Tag>
    ensures { result ≡ outer_tag (tags_of (type_view ty.now)) }
{
    if let Some(tag) = ty.tags.first() {
        return Some(*tag);
    }
    None
}
