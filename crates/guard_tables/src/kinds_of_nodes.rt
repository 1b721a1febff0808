//! What a node keeps of a simple kind.
ghost use Rattle.std.specs.Prelude.{◌≡◌, false};
ghost use Rattle.guard_der.specs.Der as der;
ghost use Rattle.guard_model.specs.TypeView.{kind_view};
ghost use Rattle.guard_tables.specs.Lay.{nameless};
ghost use Rattle.guard_tables.specs.NodeViews as views;
ghost use Rattle.guard_tables.specs.inside.Assembled.{item_numbers};

use crate::node::SimpleKind;
use guard_model::Kind;

/// The kind of node for a kind that has no parts.
pub(crate) fn simple_kind(kind: &Kind) -> SimpleKind
    requires { der.is_constructed (kind_view kind.now) ≡ false }
    ensures { views.kind_view result (item_numbers (kind_view kind.now)) ≡ nameless (kind_view kind.now) }
{
    match kind {
        Kind::Bool => SimpleKind::Boolean,
        Kind::Int(_) => SimpleKind::Integer,
        Kind::Bits(names) if names.is_empty() => SimpleKind::BitString,
        Kind::Bits(_) => SimpleKind::NamedBits,
        Kind::Octets => SimpleKind::OctetString,
        Kind::Oid => SimpleKind::ObjectIdentifier,
        Kind::Enumerated(_) => SimpleKind::Enumerated,
        Kind::Chars(kind) => SimpleKind::Characters(*kind),
        // NULL alone is left
        _ => SimpleKind::Null,
    }
}
