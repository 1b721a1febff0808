//! The components of a SET that were read so far: one slot for each.
ghost use Rattle.std.specs.Prelude.{◌≡◌, ◌<◌, ◌≤◌, length, map, IfOk};
ghost use Rattle.std.specs.Arc.{arc_slice_items};
ghost use Rattle.guard_model.specs.Answer.{Gives};
ghost use Rattle.guard_model.specs.TypeView.{component_view, components_of};
ghost use Rattle.guard_model.specs.ValueView.{fields_view};
ghost use Rattle.guard_der.specs.Reading.{completed, placed_at};
ghost use Rattle.guard_der.specs.inside.Faults.{fault_of};

use crate::breach::Code;
use crate::faults::{Fault, fault_at};
use crate::presence::not_sent;
use crate::tags::{follows, one_with};
use guard_model::{Comp, Path, Step, Tag, Value, set_field};
use std::alloc::Global;
use std::sync::{Arc, ArcSlice};

/// The place, from 0, of the component of a SET to which an element with this tag belongs. UnexpectedTag where it is of
/// none, or of one that was read already; SetOrder where its tag isn't above `before`, the tag of the element before
/// it. Condition: there are at most 64 components and as many fields.
pub fn place_of(
    path: &mut Path,
    comps: &[Comp],
    fields: &[Arc<Option<Value>>],
    before: Option<Tag>,
    at: usize,
    tag: Tag,
) -> Result<usize, Fault>
    requires few { length comps.now ≤ 64 }
    requires fields { length fields.now ≡ length comps.now }
    ensures within { IfOk result (λ i. i < length comps.now) }
    ensures given { Gives (λ i. i) (fault_of path.new.items) result
        (placed_at (components_of (map component_view comps.now)) (fields_view fields.now) before at tag) }
{
    let Some(place) = one_with(comps, tag) else {
        return Err(fault_at(path, Code::UnexpectedTag, at));
    };
    if !follows(before, tag) {
        return Err(fault_at(path, Code::SetOrder, at).below(path, Step::Component(place as u8)));
    }
    if fields[place].is_some() {
        return Err(fault_at(path, Code::UnexpectedTag, at));
    }
    Ok(place)
}

/// The fields of a SET whose elements were all read: a component that wasn't sent is absent or has its default.
/// MissingComponent at the offset `at` where a mandatory one wasn't. Condition: there are at most 64 components and as
/// many fields.
pub fn completed(
    alloc: Global,
    path: &mut Path,
    comps: &[Comp],
    mut fields: Vec<Arc<Option<Value>>>,
    at: usize,
) -> Result<ArcSlice<Arc<Option<Value>>>, Fault>
    requires few { length comps.now ≤ 64 }
    requires fields { length fields.items ≡ length comps.now }
    ensures { Gives (λ v. fields_view (arc_slice_items v)) (fault_of path.new.items) result
        (completed 0 (components_of (map component_view comps.now)) (fields_view fields.items) at) }
{
    for (index, comp) in comps.iter().enumerate() {
        if fields[index].is_none() {
            let missing = fault_at(path, Code::MissingComponent, at).below(
                path,
                Step::Component(index as u8),
            );
            let field = not_sent(&comp.presence, missing)?;
            set_field(&mut fields, index, Arc::new(alloc, field)?);
        }
    }
    Ok(ArcSlice::from_vec(fields)?)
}
