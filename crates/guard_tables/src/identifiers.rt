//! Identifier octets (X.690 8.1.2).
ghost use Rattle.std.specs.Prelude.{◌≡◌, ◌≤◌, ◌<◌};
ghost use Rattle.guard_model.specs.Tags.{class_rank};
ghost use Rattle.guard_tables.specs.NodeViews.{octet_of, identifier_of, other_of};
ghost use Rattle.guard_tables.specs.TableNodes.{own_tags};

use guard_model::{Class, Tag};

/// The identifier octet of a node, and the one of the other form; 256 where there is none.
#[derive(Clone, Copy)]
pub(crate) struct Identifiers {
    pub own: u16,
    pub other: u16,
}

/// The identifier octets of a node with this tag and form.
pub(crate) fn identifiers_of(tag: Option<Tag>, constructed: bool) -> Identifiers
    ensures own { result.own ≡ identifier_of (own_tags tag) constructed }
    ensures other { result.other ≡ other_of (own_tags tag) constructed }
{
    match tag {
        Some(tag) if tag.number < 31 => Identifiers {
            own: octet(tag, constructed),
            other: octet(tag, !constructed),
        },
        _ => Identifiers {
            own: 256,
            other: 256,
        },
    }
}

fn octet(tag: Tag, constructed: bool) -> u16
    requires { tag.number < 31 }
    ensures { result ≡ octet_of tag constructed }
{
    let form = if constructed { 32 } else { 0 };
    64 * rank(tag.class) + form + tag.number as u16
}

fn rank(class: Class) -> u16
    ensures value { result ≡ class_rank class }
    ensures bound { result ≤ 3 }
{
    match class {
        Class::Universal => 0,
        Class::Application => 1,
        Class::Context => 2,
        Class::Private => 3,
    }
}
