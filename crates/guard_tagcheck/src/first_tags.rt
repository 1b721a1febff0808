//! The tags with which an encoding of a type may begin.
ghost use Rattle.std.specs.Prelude.{◌≡◌, map};
ghost use Rattle.guard_model.specs.TypeView.{type_view, component_view, components_of};
ghost use Rattle.guard_model.specs.Tags.{same_tag};
ghost use Rattle.guard_tagcheck.specs.FirstTags.{begins_with, one_begins_with};
ghost use Rattle.guard_tagcheck.specs.Search.{share_tag, one_shares_tag};

use guard_model::{Comp, Kind, Tag, Ty};

/// Whether an encoding of either type may begin with the same tag. This takes as many steps as there are pairs of a
/// first tag of the one type and a first tag of the other, and no memory.
#[cycle(sharing)]
pub(crate) fn share_tag(a: &Ty, b: &Ty) -> bool
    ensures { result ≡ share_tag (type_view a.now) (type_view b.now) }
{
    if let Some(tag) = a.tags.first() {
        return begins_with(b, *tag);
    }
    match &a.kind {
        Kind::Choice(alternatives) => one_shares_tag(alternatives, b),
        _ => false,
    }
}

#[cycle(sharing)]
fn one_shares_tag(alternatives: &[Comp], b: &Ty) -> bool
    ensures { result ≡ one_shares_tag (components_of (map component_view alternatives.now)) (type_view b.now) }
{
    for alternative in alternatives {
        if share_tag(&alternative.ty, b) {
            return true;
        }
    }
    false
}

/// Whether an encoding of the type may begin with this tag: its outermost one, or, of a CHOICE without a tag, a first
/// tag of one of the alternatives (X.680 29.3).
#[cycle(beginning)]
pub fn begins_with(ty: &Ty, tag: Tag) -> bool
    ensures { result ≡ begins_with (type_view ty.now) tag }
{
    if let Some(first) = ty.tags.first() {
        return is_same_tag(*first, tag);
    }
    match &ty.kind {
        Kind::Choice(alternatives) => one_begins_with(alternatives, tag),
        _ => false,
    }
}

/// Whether an encoding of one of these components or alternatives may begin with this tag; false where there are none.
#[cycle(beginning)]
pub fn one_begins_with(alternatives: &[Comp], tag: Tag) -> bool
    ensures { result ≡ one_begins_with (components_of (map component_view alternatives.now)) tag }
{
    for alternative in alternatives {
        if begins_with(&alternative.ty, tag) {
            return true;
        }
    }
    false
}

fn is_same_tag(a: Tag, b: Tag) -> bool
    ensures { result ≡ same_tag a b }
{
    a == b
}
