//! What names say: those of a type's own list, and visible ones.
ghost use Rattle.std.specs.Prelude.{◌≡◌, true, IsTrue, IfOk, option_map};
ghost use Rattle.guard_model.specs.Answer.{Gives};
ghost use Rattle.guard_model.specs.Kinds.{kind_of};
ghost use Rattle.guard_model.specs.TypeView.{type_view, kind_view};
ghost use Rattle.guard_model.specs.ValueView.{value_view};
ghost use Rattle.guard_model.specs.Limits.{fits_128_bits};
ghost use Rattle.guard_der.specs.Sound.{is_proper};
ghost use Rattle.guard_values.specs.KeptLengths.{contents_length};
ghost use Rattle.guard_values.specs.Meanings as meanings;
ghost use Rattle.guard_values.specs.Meanings.{AreFitting};
ghost use Rattle.guard_values.specs.Simple.{numbered_value};
ghost use Rattle.guard_values.specs.inside.Lengths.{HasContents};
ghost use Rattle.guard_values.specs.inside.Reading.{read_reference, read_visible, kept_read, answered};
ghost use Rattle.guard_values.specs.Views.{named, known_value_view, visible_view, values_of};

use crate::elements::kept;
use crate::fault::ValueFault;
use crate::lengths::{Counted, measured};
use crate::scope::{KnownValue, ModuleScope, VisibleValue};
use guard_model::{Kind, Site, Ty, Value};
use std::alloc::Global;
use std::sync::Arc;

/// The value of a name, its contents counted; or NULL where nothing is sorted, so that its faults are found alone.
pub fn reference(
    scope: ModuleScope,
    sorted: bool,
    ty: &Ty,
    site: Site,
    name: &[u8],
) -> Result<Counted, ValueFault>
    requires proper { IsTrue (is_proper (type_view ty.now)) }
    requires fitting { AreFitting (values_of scope) }
    ensures given { Gives (λ c. value_view c.value) named result
        (kept_read sorted (read_reference (values_of scope.entry) (type_view ty.now) site name.now)) }
    ensures counted { sorted ≡ true → IfOk result (HasContents (kind_of (type_view ty.now))) }
{
    let counted = copied_reference(scope, ty, site, name)?;
    Ok(Counted {
        value: kept(sorted, counted.value),
        length: counted.length,
    })
}

/// The value of a name, its contents counted. A name of the type's own list comes before a visible one.
fn copied_reference(
    scope: ModuleScope,
    ty: &Ty,
    site: Site,
    name: &[u8],
) -> Result<Counted, ValueFault>
    requires proper { IsTrue (is_proper (type_view ty.now)) }
    requires fitting { AreFitting (values_of scope) }
    ensures given { Gives (λ c. value_view c.value) named result
        (read_reference (values_of scope.entry) (type_view ty.now) site name.now) }
    ensures counted { IfOk result (HasContents (kind_of (type_view ty.now))) }
{
    match own_number(&ty.kind, name) {
        Some(number) => measured(true, ty, numbered(&ty.kind, site, number)),
        None => visible_copy(ty, site, scope.meaning(name)),
    }
}

/// The value of a name as a share, its contents counted: that of a visible one is the one that is known, of which nothing
/// is copied or counted.
pub fn shared_reference(
    alloc: Global,
    scope: ModuleScope,
    ty: &Ty,
    site: Site,
    name: &[u8],
) -> Result<KnownValue, ValueFault>
    requires proper { IsTrue (is_proper (type_view ty.now)) }
    requires fitting { AreFitting (values_of scope) }
    ensures given { Gives known_value_view named result
        (read_reference (values_of scope.entry) (type_view ty.now) site name.now) }
    ensures counted { IfOk result (λ k. k.length ≡ contents_length (type_view ty.now) (known_value_view k)) }
{
    match own_number(&ty.kind, name) {
        Some(number) => {
            let counted = measured(true, ty, numbered(&ty.kind, site, number))?;
            let value = Arc::new(alloc, counted.value)?;
            Ok(KnownValue {
                value,
                length: counted.length,
            })
        }
        None => visible(ty, site, scope.meaning(name)),
    }
}

/// The number with this name in the type's own list.
fn own_number(kind: &Kind, name: &[u8]) -> Option<i128>
    ensures { result ≡ meanings.own_number (kind_view kind.now) name.now }
{
    match kind {
        Kind::Int(numbers) => numbers.number_named(name),
        Kind::Enumerated(items) => items.number_named(name),
        _ => None,
    }
}

/// The value of a named number or item. Each number of this type is within the limits.
fn numbered(kind: &Kind, site: Site, number: i128) -> Result<Value, ValueFault>
    ensures { Gives value_view named result
        (answered (ValueFault.TooLarge site) (numbered_value (kind_view kind.now) number)) }
{
    if !is_in_range(number) {
        return Err(ValueFault::TooLarge(site));
    }
    match kind {
        Kind::Enumerated(_) => Ok(Value::Enumerated(number)),
        _ => Ok(Value::Int(number)),
    }
}

fn is_in_range(number: i128) -> bool
    ensures { result ≡ fits_128_bits number }
{
    number >= i128::MIN
}

/// A copy of a visible value, where its type has the same base, its contents counted.
fn visible_copy(ty: &Ty, site: Site, value: Option<VisibleValue>) -> Result<Counted, ValueFault>
    ensures given { Gives (λ c. value_view c.value) named result
        (read_visible site (type_view ty.now) (option_map visible_view value.entry)) }
    ensures counted { IfOk result (HasContents (kind_of (type_view ty.now))) }
{
    let shared = visible(ty, site, value)?;
    Ok(Counted {
        value: shared.value.copy()?,
        length: shared.length,
    })
}

/// A visible value, where its type has the same base, its contents counted: types of the same base give a value the same
/// contents, and differ in the tags around them.
fn visible(ty: &Ty, site: Site, visible: Option<VisibleValue>) -> Result<KnownValue, ValueFault>
    ensures given { Gives known_value_view named result
        (read_visible site (type_view ty.now) (option_map visible_view visible.entry)) }
    ensures counted { IfOk result (λ k. k.length ≡ contents_length (type_view ty.now) (known_value_view k)) }
{
    let Some(visible) = visible else {
        return Err(ValueFault::UnknownName(site));
    };
    if !ty.same_base(visible.ty) {
        return Err(ValueFault::WrongNotation(site));
    }
    let value = visible.value.clone()?;
    Ok(KnownValue {
        value,
        length: visible.length,
    })
}
