//! Kinds and universal tags (X.680 8.4), and what is written after a component.
ghost use Rattle.std.specs.Prelude.{◌≡◌, map, IfOk};
ghost use Rattle.guard_model.specs.TypeView as model;
ghost use Rattle.guard_syntax.specs.TypeViews as written;
ghost use Rattle.guard_tagging.specs.Types as types;

use guard_model::{CharKind, Class, Comp, Kind, Presence, Tag, Ty};
use guard_syntax::{Collection, PlainType, PresenceTree};

/// A tag of the universal class.
pub fn universal(number: u32) -> Tag
    ensures { result ≡ types.universal_tag number }
{
    Tag {
        class: Class::Universal,
        number,
    }
}

/// The number of the universal tag of a type that is written with words alone (X.680 8.4).
pub fn plain_number(plain: PlainType) -> u32
    ensures { result ≡ types.plain_number plain }
{
    match plain {
        PlainType::Boolean => 1,
        PlainType::OctetString => 4,
        PlainType::Null => 5,
        PlainType::ObjectIdentifier => 6,
        PlainType::Utf8String => 12,
        PlainType::NumericString => 18,
        PlainType::PrintableString => 19,
        PlainType::Ia5String => 22,
        PlainType::VisibleString => 26,
    }
}

/// The number of the universal tag of SEQUENCE and SEQUENCE OF, or of SET and SET OF (X.680 8.4).
pub fn collection_number(collection: Collection) -> u32
    ensures { result ≡ types.collection_number collection }
{
    match collection {
        Collection::Sequence => 16,
        Collection::Set => 17,
    }
}

/// The kind of a type that is written with words alone.
pub fn plain_kind(plain: PlainType) -> Kind
    ensures { model.kind_view result ≡ types.plain_kind plain }
{
    match plain {
        PlainType::Boolean => Kind::Bool,
        PlainType::OctetString => Kind::Octets,
        PlainType::Null => Kind::Null,
        PlainType::ObjectIdentifier => Kind::Oid,
        PlainType::Utf8String => Kind::Chars(CharKind::Utf8),
        PlainType::NumericString => Kind::Chars(CharKind::Numeric),
        PlainType::PrintableString => Kind::Chars(CharKind::Printable),
        PlainType::Ia5String => Kind::Chars(CharKind::Ia5),
        PlainType::VisibleString => Kind::Chars(CharKind::Visible),
    }
}

/// SEQUENCE or SET with these components.
pub fn structure_kind(collection: Collection, comps: Vec<Comp>) -> Kind
    ensures { model.kind_view result
        ≡ types.structure_kind collection (model.components_of (map model.component_view comps.items)) }
{
    match collection {
        Collection::Sequence => Kind::Sequence(comps),
        Collection::Set => Kind::Set(comps),
    }
}

/// SEQUENCE OF or SET OF this type.
pub fn of_kind(collection: Collection, element: Box<Ty>) -> Kind
    ensures { model.kind_view result ≡ types.of_kind collection (model.type_view element.value) }
{
    match collection {
        Collection::Sequence => Kind::SequenceOf(element),
        Collection::Set => Kind::SetOf(element),
    }
}

/// What a component's presence is by what is written after its type. A default is pending, since its value isn't known
/// yet.
pub fn presence_of(presence: &PresenceTree) -> Presence
    ensures { model.presence_view result ≡ types.presence_of (written.presence_view presence.now) }
{
    match presence {
        PresenceTree::Mandatory => Presence::Mandatory,
        PresenceTree::Optional => Presence::Optional,
        PresenceTree::Default(_) => Presence::Pending,
    }
}
