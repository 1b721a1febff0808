//! Faults at an offset, on their way out. The path to a fault is written into one place as the calls return, so that
//! what each of them hands up is small.
ghost use Rattle.std.specs.Prelude.{◌≡◌, Some};
ghost use Rattle.guard_model.specs.Answer.{Gives};
ghost use Rattle.guard_model.specs.AbstractType.{type_of, no_constraints};
ghost use Rattle.guard_model.specs.AbstractValue.{no_fields};
ghost use Rattle.guard_model.specs.TypeView.{kind_view};
ghost use Rattle.guard_tagcheck.specs.FirstTags.{begins_with};
ghost use Rattle.guard_der.specs.Head.{head_of};
ghost use Rattle.guard_der.specs.Reading.{due_at, end_at, fault, located};
ghost use Rattle.guard_der.specs.Views.{head_view};
ghost use Rattle.guard_der.specs.inside.Faults.{fault_of};
ghost use Rattle.guard_der.specs.declared.breach.Code.TheVariants.{WrongForm};
ghost use Rattle.guard_der.specs.declared.faults.Fault.TheVariants.{OutOfMemory};

use crate::breach::Code;
use crate::head::{Head, head_at_front};
use crate::tags::begins_in;
use guard_model::{Kind, Path, Step, Tag};
use std::alloc::{AllocError, AllocFailed};

/// Why there is no value, without the path.
#[derive(Clone, Copy)]
pub enum Fault {
    /// What is wrong, and at which offset.
    Breach(Code, usize),
    OutOfMemory,
}

impl Fault {
    ghost use Rattle.std.specs.Prelude.{◌≡◌, ◌<◌, length, IfSome, option_map};
    ghost use Rattle.guard_der.specs.Breach.{below};
    ghost use Rattle.guard_der.specs.inside.Faults.{fault_of};

    /// The fault of a value inside, with the path from the value round it. Condition: the path has room for a step.
    pub fn below(self, path: &mut Path, step: Step) -> Fault
        requires { IfSome (fault_of path.old.items self) (λ b. length b.path < 32) }
        ensures { fault_of path.new.items result ≡ option_map (below step) (fault_of path.old.items self) }
    {
        match self {
            Fault::Breach(code, at) => {
                path.insert(0, step);
                Fault::Breach(code, at)
            }
            Fault::OutOfMemory => Fault::OutOfMemory,
        }
    }
}

impl From<guard_model::OutOfMemory> for Fault {
    ghost from_gives = { λ _ e. e ≡ OutOfMemory };

    fn from(_e: guard_model::OutOfMemory) -> Fault {
        Fault::OutOfMemory
    }
}

impl From<AllocError> for Fault {
    ghost from_gives = { λ _ e. e ≡ OutOfMemory };

    fn from(_e: AllocError) -> Fault {
        Fault::OutOfMemory
    }
}

impl<T: Drop> From<AllocFailed<T>> for Fault {
    ghost from_gives = { λ _ e. e ≡ OutOfMemory };

    fn from(_e: AllocFailed<T>) -> Fault {
        Fault::OutOfMemory
    }
}

/// The header at the front of the octets, or its fault, at the offset `at` and with an empty path.
pub fn header_at_front(path: &mut Path, at: usize, octets: &[u8]) -> Result<Head, Fault>
    ensures { Gives head_view (fault_of path.new.items) result (located at (head_of octets.now)) }
{
    match head_at_front(octets) {
        Ok(head) => Ok(head),
        Err(code) => Err(fault_at(path, code, at)),
    }
}

/// The header at the front, where an element of a kind with these tags is due.
#[tactic(auto, unfolding(crate::specs::Reading::due_at))]
pub fn due(
    path: &mut Path,
    tags: &[Tag],
    kind: &Kind,
    at: usize,
    octets: &[u8],
) -> Result<Head, Fault>
    ensures { Gives head_view (fault_of path.new.items) result
        (due_at (begins_with (type_of tags.now (kind_view kind.now) no_constraints)) at octets.now) }
{
    let head = header_at_front(path, at, octets)?;
    if begins_in(tags, kind, head.tag) {
        Ok(head)
    } else {
        Err(fault_at(path, Code::UnexpectedTag, at))
    }
}

/// Ok where there are no octets, since no element is due; else the fault of the header there, or UnexpectedTag.
#[tactic(auto, unfolding(crate::specs::Reading::end_at, crate::specs::Reading::due_at))]
pub fn end(path: &mut Path, at: usize, octets: &[u8]) -> Result<(), Fault>
    ensures { Gives (λ x. no_fields) (fault_of path.new.items) result (end_at at octets.now) }
{
    if octets.is_empty() {
        return Ok(());
    }
    header_at_front(path, at, octets)?;
    Err(fault_at(path, Code::UnexpectedTag, at))
}

/// The fault of this code at this offset, with an empty path.
pub fn fault_at(path: &mut Path, code: Code, at: usize) -> Fault
    ensures { fault_of path.new.items result ≡ Some (fault code at) }
{
    path.clear();
    Fault::Breach(code, at)
}

/// The fault that an element is primitive in place of constructed, or the other way round, with an empty path.
pub fn wrong_form(path: &mut Path, at: usize) -> Fault
    ensures { fault_of path.new.items result ≡ Some (fault WrongForm at) }
{
    fault_at(path, Code::WrongForm, at)
}
