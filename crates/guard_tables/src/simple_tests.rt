//! Tests of a number, a size or characters, as the nodes have them.
ghost use Rattle.std.specs.Prelude.{◌≡◌, [], pos, ◌&&◌, IfOk, IsTrue};
ghost use Rattle.guard_model.specs.AbstractType as type;
ghost use Rattle.guard_model.specs.AbstractType.{AbstractKind};
ghost use Rattle.guard_model.specs.AbstractValue as abstract;
ghost use Rattle.guard_model.specs.Kinds.{is_integer};
ghost use Rattle.guard_model.specs.Limits.{fits_128_bits};
ghost use Rattle.guard_model.specs.TypeView.{constraint_view};
ghost use Rattle.guard_eval.specs.Elements.{is_in_some};
ghost use Rattle.guard_eval.specs.Member.{holds};
ghost use Rattle.guard_tables.specs.Lay.{no_value};
ghost use Rattle.guard_tables.specs.Plan.{numbers, sizes, spelled};
ghost use Rattle.guard_tables.specs.NodeViews.{test_view};

use crate::alphabet::Alphabet;
use crate::node::Test;
use guard_eval::numbers_of;
use guard_integers::IntSet;
use guard_model::{Cons, OutOfMemory};
use std::alloc::Global;

/// The test that a number is one that the constraint on an INTEGER has.
pub(crate) fn number_test(alloc: Global, constraint: &Cons) -> Result<Test, OutOfMemory>
    ensures { IfOk result (λ t. (kind : AbstractKind) → IsTrue (is_integer kind) → test_view t
        ≡ numbers (λ z. fits_128_bits z && holds (constraint_view constraint.now) kind (abstract.integer z))) }
{
    Ok(Test::Numbers(numbers_of(alloc, constraint)?))
}

/// The test that a size is one of the numbers that the constraint has.
pub(crate) fn size_test(alloc: Global, constraint: &Cons) -> Result<Test, OutOfMemory>
    ensures { IfOk result (λ t. test_view t ≡ sizes (λ n. fits_128_bits (pos n)
        && holds (constraint_view constraint.now) (type.integer []) (abstract.integer (pos n)))) }
{
    Ok(Test::Sizes(numbers_of(alloc, constraint)?))
}

/// The test that each character lies in one of these ranges.
pub(crate) fn spelling_test(alloc: Global, ranges: &[(u32, u32)]) -> Result<Test, OutOfMemory>
    ensures { IfOk result (λ t. test_view t ≡ spelled (is_in_some ranges.now)) }
{
    Ok(Test::Spelled(Alphabet::of(alloc, ranges)?))
}

/// The test that no value passes.
pub(crate) fn no_value(alloc: Global) -> Test
    ensures { test_view result ≡ no_value }
{
    Test::Numbers(IntSet::none(alloc))
}
