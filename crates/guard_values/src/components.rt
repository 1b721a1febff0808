//! Components of a SEQUENCE or SET, and alternatives of a CHOICE: one slot for the value of each.
ghost use Rattle.std.specs.Prelude.{◌≡◌, ◌&&◌, nat_lt, ◌<◌, length, map, option_map, IsTrue, IfOk, IfSome, None};
ghost use Rattle.std.specs.Arc.{arc_value};
ghost use Rattle.guard_model.specs.Answer.{Gives};
ghost use Rattle.guard_der.specs.Sound.{is_proper, is_proper_kind, are_proper};
ghost use Rattle.guard_model.specs.TypeView.{component_view, components_of, presence_view, type_view, kind_view};
ghost use Rattle.guard_syntax.specs.Views.{name_view};
ghost use Rattle.guard_model.specs.ValueView.{slot_view, fields_view};
ghost use Rattle.guard_values.specs.Places as places;
ghost use Rattle.guard_values.specs.inside.Reading as reading;
ghost use Rattle.guard_values.specs.Views.{named, located_view};

use crate::fault::ValueFault;
use guard_model::{Comp, Kind, Presence, Site, Ty, Value, set_field};
use std::alloc::Global;
use std::sync::Arc;

/// The first component or alternative with this name: its place in the list, from 0, and its type. None where none has
/// the name.
pub fn located<'a>(name: &[u8], comps: &'a [Comp]) -> Option<(usize, &'a Ty)>
    ensures found { option_map located_view result
        ≡ places.located name.now (components_of (map component_view comps.now)) }
    ensures within { IfSome result (λ x. x.0 < length comps.now) }
{
    for index in 0..comps.len() {
        if name == comps[index].name.as_str().as_bytes() {
            return Some((index, &comps[index].ty));
        }
    }
    None
}

/// Where the value of an entry with this name goes: each place takes one, and in a SEQUENCE none before the next one.
pub fn placed<'a>(
    ordered: bool,
    next: usize,
    fields: &[Arc<Option<Value>>],
    site: Site,
    found: Option<(usize, &'a Ty)>,
) -> Result<(usize, &'a Ty), ValueFault>
    requires { IfSome found (λ x. x.0 < length fields.now) }
    ensures place { IfOk result (λ x. x.0 < length fields.now) }
    ensures given { Gives located_view named result
        (reading.placed ordered next (fields_view fields.now) site (option_map located_view found.entry)) }
{
    let Some((place, ty)) = found else {
        return Err(ValueFault::UnknownName(site));
    };
    if fields[place].is_some() {
        return Err(ValueFault::RepeatedComponent(site));
    }
    if is_late(ordered, place, next) {
        return Err(ValueFault::OutOfOrder(site));
    }
    Ok((place, ty))
}

/// Where the value of an entry goes, and its type. An entry for a component has a name.
pub fn place_of<'a>(
    ordered: bool,
    comps: &'a [Comp],
    next: usize,
    fields: &[Arc<Option<Value>>],
    site: Site,
    name: Option<&[u8]>,
) -> Result<(usize, &'a Ty), ValueFault>
    requires proper { IsTrue (are_proper (components_of (map component_view comps.now))) }
    requires count { length fields.now ≡ length comps.now }
    ensures within { IfOk result (λ x. x.0 < length comps.now) }
    ensures proper { IfOk result (λ x. IsTrue (is_proper (type_view x.1.now))) }
    ensures given { Gives located_view named result (reading.place_at ordered
        (components_of (map component_view comps.now)) next (fields_view fields.now) site (name_view name.entry)) }
{
    let Some(name) = name else {
        return Err(ValueFault::WrongNotation(site));
    };
    placed(ordered, next, fields, site, located(name, comps))
}

/// The alternative with this name: its place, and its type.
pub fn alternative<'a>(kind: &'a Kind, site: Site, name: &[u8]) -> Result<(u8, &'a Ty), ValueFault>
    requires { IsTrue (is_proper_kind (kind_view kind.now)) }
    ensures proper { IfOk result (λ x. IsTrue (is_proper (type_view x.1.now))) }
    ensures given { Gives located_view named result (reading.alternative site (kind_view kind.now) name.now) }
{
    let Kind::Choice(alternatives) = kind else {
        return Err(ValueFault::WrongNotation(site));
    };
    match located(name, alternatives) {
        Some((place, ty)) => Ok((place as u8, ty)),
        None => Err(ValueFault::UnknownName(site)),
    }
}

/// In a SEQUENCE: a place before the next one.
fn is_late(ordered: bool, place: usize, next: usize) -> bool
    ensures { result ≡ (ordered && nat_lt place next) }
{
    ordered && place < next
}

/// The components without an entry: absent, or their default.
pub fn completed(
    alloc: Global,
    site: Site,
    comps: &[Comp],
    mut fields: Vec<Arc<Option<Value>>>,
) -> Result<Vec<Arc<Option<Value>>>, ValueFault>
    requires { length fields.items ≡ length comps.now }
    ensures { Gives (λ v. fields_view v.items) named result
        (reading.completed site (components_of (map component_view comps.now)) (fields_view fields.items)) }
{
    for (index, comp) in comps.iter().enumerate() {
        if fields[index].is_none() {
            let slot = left_out(alloc, site, &comp.presence, &fields[index])?;
            set_field(&mut fields, index, slot);
        }
    }
    Ok(fields)
}

/// The slot of a component without an entry: the one that holds nothing stays where the component may be absent.
fn left_out(
    alloc: Global,
    site: Site,
    presence: &Presence,
    nothing: &Arc<Option<Value>>,
) -> Result<Arc<Option<Value>>, ValueFault>
    requires { arc_value nothing.now ≡ None }
    ensures { Gives slot_view named result (reading.settled site (presence_view presence.now) None) }
{
    match presence {
        Presence::Optional => Ok(nothing.clone()?),
        Presence::Default(value) => Ok(Arc::new(alloc, Some(value.copy()?))?),
        Presence::Mandatory => Err(ValueFault::MissingComponent(site)),
        Presence::Pending => Err(ValueFault::MissingComponent(site)),
    }
}
