//! One slot for each component of a SEQUENCE or SET, which holds its value or nothing.
ghost use Rattle.std.specs.Prelude.{◌≡◌, ◌<◌, length, map, set, IfOk};
ghost use Rattle.guard_model.specs.Slots.{all_absent};
ghost use Rattle.guard_model.specs.TypeView.{component_view, components_of};
ghost use Rattle.guard_model.specs.ValueView.{fields_view};

use crate::memory::OutOfMemory;
use crate::ty::Comp;
use crate::value::Value;
use std::alloc::Global;
use std::sync::Arc;

/// A slot for each component, in the order of the list, each of which holds None: it is one that all of them share.
/// OutOfMemory is its only error.
pub fn absent_fields(alloc: Global, comps: &[Comp]) -> Result<Vec<Arc<Option<Value>>>, OutOfMemory>
    ensures count { IfOk result (λ v. length v.items ≡ length comps.now) }
    ensures absent { IfOk result (λ v. fields_view v.items
        ≡ all_absent (components_of (map component_view comps.now))) }
{
    let nothing = Arc::new(alloc, None)?;
    let mut fields = Vec::with_capacity(alloc, comps.len())?;
    for _comp in comps {
        fields.push(nothing.clone()?)?;
    }
    Ok(fields)
}

/// Puts this in the slot at this place, from 0: the component's value, or None where the component is absent. The other
/// slots stay. Condition: the place is less than the number of slots.
pub fn set_field(fields: &mut Vec<Arc<Option<Value>>>, place: usize, field: Arc<Option<Value>>)
    requires { place < length fields.old.items }
    ensures { fields.new.items ≡ set fields.old.items place field }
{
    fields[place] = field;
}
