//! Whether a component is sent, by its presence.
ghost use Rattle.std.specs.Prelude.{◌≡◌, ◌≢◌, List, [], None, Some};
ghost use Rattle.guard_model.specs.Answer.{Gives};
ghost use Rattle.guard_model.specs.TypeView.{presence_view};
ghost use Rattle.guard_model.specs.ValueView.{value_view, field_view};
ghost use Rattle.guard_der.specs.Breach.{AbstractBreach};
ghost use Rattle.guard_der.specs.Der.{is_left_out as left_out};
ghost use Rattle.guard_der.specs.Reading.{not_sent as unsent};
ghost use Rattle.guard_model.specs.declared.site.Step.{Step};
ghost use Rattle.guard_der.specs.inside.Faults.{fault_of};

use crate::faults::Fault;
use guard_model::{Presence, Value};

/// Whether a component of this presence and value is left out of the encoding: it has a default, and the value is that
/// default (X.690 11.5).
pub fn is_left_out(presence: &Presence, value: &Value) -> bool
    ensures { result ≡ left_out (presence_view presence.now) (value_view value.now) }
{
    match presence {
        Presence::Default(default) => default.same(value),
        Presence::Mandatory => false,
        Presence::Optional => false,
        Presence::Pending => false,
    }
}

/// What a component has that isn't sent: its default, or no value; or this fault, if it is mandatory. Condition: the
/// fault isn't that memory ran out.
pub fn not_sent(presence: &Presence, fault: Fault) -> Result<Option<Value>, Fault>
    requires named { fault_of [] fault ≢ None }
    ensures { (steps : List Step) (b : AbstractBreach) → fault_of steps fault ≡ Some b →
        Gives field_view (fault_of steps) result (unsent (presence_view presence.now) b) }
{
    match presence {
        Presence::Mandatory => Err(fault),
        Presence::Optional => Ok(None),
        Presence::Pending => Ok(None),
        Presence::Default(value) => Ok(Some(value.copy()?)),
    }
}
