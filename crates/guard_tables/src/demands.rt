//! What is asked of the values at a node, and what that comes down to there.
ghost use Rattle.std.specs.Prelude.{◌≡◌, ◌++◌, ◌∷◌, [], OnOk};

use crate::slots::Slots;
use guard_model::{Cons, Kind, OutOfMemory, Ty, Value};

/// What may be asked of a value.
#[derive(Clone, Copy)]
pub enum Demand<'a> {
    /// Membership in this type.
    Type(&'a Ty),
    /// Membership in a constraint on a type of this kind.
    Constraint(&'a Kind, &'a Cons),
}

/// A demand, with the slots that fail where it isn't met.
#[derive(Clone, Copy)]
pub struct SlotDemand<'a> {
    pub slots: Slots,
    pub demand: Demand<'a>,
}

/// A test of the value itself, or a demand on one of its parts.
#[derive(Clone, Copy)]
pub enum Atom<'a> {
    /// On BOOLEAN, INTEGER, ENUMERATED and NULL a constraint of any form is one set of values.
    Scalar(&'a Kind, &'a Cons),
    /// The value is this one.
    Equals(&'a Value),
    /// The size is one of the numbers that this constraint on INTEGER has.
    Sized(&'a Cons),
    /// Each character lies in one of these ranges.
    Spelled(&'a [(u32, u32)]),
    /// Each element meets this.
    Each(Demand<'a>),
    /// The component or the chosen alternative at this place, if it is there, meets this.
    Within(usize, Demand<'a>),
    /// The component at this place is there, or the alternative there is the chosen one.
    Sent(usize),
    /// The component at this place isn't there, or the alternative there isn't the chosen one.
    Unsent(usize),
}

/// A test or a demand on a part, with the slots that fail where it doesn't pass.
#[derive(Clone, Copy)]
pub struct Term<'a> {
    pub slots: Slots,
    pub atom: Atom<'a>,
}

/// Adds a term with these slots.
pub(crate) fn push<'a>(
    terms: &mut Vec<Term<'a>>,
    slots: Slots,
    atom: Atom<'a>,
) -> Result<(), OutOfMemory>
    ensures { OnOk result (terms.new.items ≡ terms.old.items ++ record { slots = slots; atom = atom.entry } ∷ []) }
{
    terms.push(Term { slots, atom })?;
    Ok(())
}
