//! What is noted of a type while its constraints are read.
ghost use Rattle.std.specs.Prelude.{◌≡◌};
ghost use Rattle.guard_model.specs.AbstractType.{AbstractType};
ghost use Rattle.guard_values.specs.declared.scope.Known.{Known};
ghost use Rattle.guard_constraints.specs.Noted.{AreAgreed};
ghost use Rattle.guard_constraints.specs.inside.Bounds.{Grows};

use std::alloc::Global;
use std::collections::BTreeSet;

/// What is noted of a type while its constraints are read, for those that follow and for references to it.
#[derive(Drop)]
pub struct Noted {
    /// Places in `known` of types that are found to have the base of the type, which aren't compared with it again.
    pub agreed: BTreeSet<usize>,
    /// A number of octets that the contents of no single value in the type's own constraints exceed; None where none is
    /// known.
    pub bound: Option<usize>,
}

impl Noted {
    /// No type is compared yet, and this is such a number for the constraints that the type has: `Some(0)` for a type
    /// without any.
    pub fn new(alloc: Global, bound: Option<usize>) -> Noted
        ensures bound { result.bound ≡ bound }
        ensures agreed { (known : Known) (t : AbstractType) → AreAgreed known t result.agreed }
    {
        Noted {
            agreed: BTreeSet::new(alloc),
            bound,
        }
    }
}

/// Notes a single value whose contents are so many octets. Where they aren't counted, no number is known from then on.
pub fn raise(noted: &mut Noted, length: Option<usize>)
    ensures agreed { noted.new.agreed ≡ noted.old.agreed }
    ensures grows { Grows noted.old.bound noted.new.bound }
    ensures holds { Grows length noted.new.bound }
{
    noted.bound = larger(noted.bound, length);
}

fn larger(first: Option<usize>, second: Option<usize>) -> Option<usize>
    ensures first { Grows first result }
    ensures second { Grows second result }
{
    match (first, second) {
        (Some(first), Some(second)) => Some(first.max(second)),
        _ => None,
    }
}
