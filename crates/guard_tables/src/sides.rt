//! What is said of a component or an alternative beside its type.
ghost use Rattle.std.specs.Prelude.{◌≡◌, option_map, IsTrue, IfOk};
ghost use Rattle.guard_model.specs.AbstractType as type;
ghost use Rattle.guard_model.specs.Kinds.{kind_of};
ghost use Rattle.guard_model.specs.TypeView.{type_view, kind_view, presence_view};
ghost use Rattle.guard_model.specs.ValueView.{value_view};
ghost use Rattle.guard_der.specs.Fits.{fits, fits_kind};
ghost use Rattle.guard_der.specs.Sound.{is_sound, is_proper_presence};
ghost use Rattle.guard_tables.specs.Apt.{IsApt, AreApt};
ghost use Rattle.guard_tables.specs.Demands.{meets};
ghost use Rattle.guard_tables.specs.Lay.{default_octets, side_for, side_chosen, lay};
ghost use Rattle.guard_tables.specs.Marking.{type_marked};
ghost use Rattle.guard_tables.specs.inside.DemandViews.{demand_view, slot_demands_view};
ghost use Rattle.guard_tables.specs.inside.SideViews.{part_side_view};

use crate::demands::{Demand, SlotDemand};
use crate::encoded::if_short;
use crate::slots::Slots;
use guard_der::{encode_contents, encode_tagged, is_constructed};
use guard_eval::{holds_on_kind, proper_member};
use guard_model::{Kind, OutOfMemory, Presence, Ty, Value};
use std::alloc::Global;

/// What is said of a part: of a component, or of an alternative.
#[derive(Drop)]
pub struct PartSide {
    /// The slots that fail where the part isn't there; None where it has to be there.
    pub absent: Option<Slots>,
    /// The slots that fail where the part is there.
    pub present: Slots,
    /// The octets of the part's default inside the outermost tag; None where it has no default.
    pub default: Option<Vec<u8>>,
}

/// What is said of a component of which all this is asked. A default that isn't sent fails what it fails where it is
/// there. Conditions: the type is sound, a default is one that the type may have, and each demand may be made of its
/// values.
pub(crate) fn side_for(
    alloc: Global,
    ty: &Ty,
    presence: &Presence,
    demands: &[SlotDemand<'_>],
    absent: Slots,
    present: Slots,
) -> Result<PartSide, OutOfMemory>
    requires sound { IsTrue (is_sound (type_view ty.now)) }
    requires proper { IsTrue (is_proper_presence (type_view ty.now) (presence_view presence.now)) }
    requires apt { AreApt (kind_of (type_view ty.now)) (slot_demands_view demands.now) }
    ensures { IfOk result (λ s. part_side_view s ≡ side_for (type_view ty.now) (presence_view presence.now)
        (lay (type_view ty.now) (slot_demands_view demands.now)) absent present) }
{
    match presence {
        Presence::Mandatory => Ok(mandatory(present)),
        Presence::Optional => Ok(PartSide {
            absent: Some(absent),
            present,
            default: None,
        }),
        Presence::Default(value) => Ok(PartSide {
            absent: Some(failed_by(ty, value, demands, present)),
            present,
            default: default_octets(alloc, ty, value)?,
        }),
        Presence::Pending => Ok(mandatory(present)),
    }
}

/// What is said of an alternative.
pub(crate) fn side_chosen(present: Slots) -> PartSide
    ensures { part_side_view result ≡ side_chosen present }
{
    mandatory(present)
}

fn mandatory(present: Slots) -> PartSide
    ensures { part_side_view result ≡ side_chosen present }
{
    PartSide {
        absent: None,
        present,
        default: None,
    }
}

/// What has failed once the value has passed, where `present` had failed before: the slots of those demands that it
/// doesn't meet.
fn failed_by(ty: &Ty, value: &Value, demands: &[SlotDemand<'_>], present: Slots) -> Slots
    requires sound { IsTrue (is_sound (type_view ty.now)) }
    requires fits { IsTrue (fits (type_view ty.now) (value_view value.now)) }
    requires apt { AreApt (kind_of (type_view ty.now)) (slot_demands_view demands.now) }
    ensures { result ≡ type_marked (type_view ty.now) (lay (type_view ty.now) (slot_demands_view demands.now))
        (value_view value.now) present }
{
    present.law_words();
    let mut failed = present;
    for slot_demand in demands {
        slot_demand.slots.law_words();
        if !is_met(slot_demand.demand, &ty.kind, value) {
            failed.add(&slot_demand.slots);
        }
    }
    failed
}

/// Whether the value meets the demand. Conditions: the demand is one that may be made of values of this kind, and the
/// value fits the kind.
pub(crate) fn is_met(demand: Demand<'_>, kind: &Kind, value: &Value) -> bool
    requires apt { IsApt (kind_view kind.now) (demand_view demand) }
    requires fits { IsTrue (fits_kind (kind_view kind.now) (value_view value.now)) }
    ensures { result ≡ meets (demand_view demand.entry) (value_view value.now) }
{
    match demand {
        Demand::Type(own) => proper_member(own, value),
        Demand::Constraint(own, constraint) => holds_on_kind(constraint, own, value),
    }
}

/// The octets of a default inside the outermost tag; None where a length in them would need more than four octets.
fn default_octets(alloc: Global, ty: &Ty, value: &Value) -> Result<Option<Vec<u8>>, OutOfMemory>
    requires { IsTrue (fits (type_view ty.now) (value_view value.now)) }
    ensures { IfOk result (λ o. option_map (λ v. v.items) o
        ≡ default_octets (type_view ty.now) (value_view value.now)) }
{
    let Some(contents) = if_short(encode_contents(alloc, &ty.kind, value))? else {
        return Ok(None);
    };
    let [_, inner @ ..] = &*ty.tags else {
        return Ok(Some(contents));
    };
    if_short(encode_tagged(alloc, inner, is_constructed(&ty.kind), contents))
}
