//! Types that constrain nothing: all values that fit them keep them.
ghost use Rattle.std.specs.Prelude.{IsTrue, map};
ghost use Rattle.guard_model.specs.TypeView.{type_view, kind_view, component_view, components_of};
ghost use Rattle.guard_eval.specs.inside.Together.{is_free, has_free_parts, are_free};

use guard_model::{Comp, Kind, Ty};

/// True where neither the type nor a type inside it has a constraint, and there are no more of them than are left to be
/// looked at: so a large type isn't walked for the sake of a few values.
#[cycle(free_types)]
pub fn is_free(ty: &Ty, left: &mut usize) -> bool
    ensures { IsTrue result → IsTrue (is_free (type_view ty.now)) }
{
    if *left == 0 || !ty.cons.is_empty() {
        return false;
    }
    *left -= 1;
    has_free_parts(&ty.kind, left)
}

#[cycle(free_types)]
fn has_free_parts(kind: &Kind, left: &mut usize) -> bool
    ensures { IsTrue result → IsTrue (has_free_parts (kind_view kind.now)) }
{
    match kind {
        Kind::Sequence(comps) => are_free(comps, left),
        Kind::Set(comps) => are_free(comps, left),
        Kind::Choice(comps) => are_free(comps, left),
        Kind::SequenceOf(ty) => is_free(ty, left),
        Kind::SetOf(ty) => is_free(ty, left),
        _ => true,
    }
}

#[cycle(free_types)]
fn are_free(comps: &[Comp], left: &mut usize) -> bool
    ensures { IsTrue result → IsTrue (are_free (components_of (map component_view comps.now))) }
{
    for comp in comps {
        if !is_free(&comp.ty, left) {
            return false;
        }
    }
    true
}
