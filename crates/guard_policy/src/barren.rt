//! Rules that no value of their message's declared type is under, as far as integers and sizes tell.
ghost use Rattle.std.specs.Prelude.{◌≡◌, ◌&&◌, ◌↔◌, ◌^◌, ◌-◌, ℤ, pos, int_le, false, map, IfOk, IsTrue};
ghost use Rattle.guard_integers.specs.Integers.{holds};
ghost use Rattle.guard_model.specs.Limits.{fits_128_bits};
ghost use Rattle.guard_model.specs.TypeView.{type_view, kind_view, component_view, components_of};
ghost use Rattle.guard_policy.specs.Barren.{demand_has_number, have_no_number, demand_may_have_size};
ghost use Rattle.guard_policy.specs.Barren.{have_no_size, kind_has_no_value};
ghost use Rattle.guard_policy.specs.Barren.{some_has_no_value, is_barren};
ghost use Rattle.guard_policy.specs.inside.Asked.{demands_view};
ghost use Rattle.guard_tables.specs.inside.DemandViews.{demand_view};

use super::asked::demands_within;
use super::policy::Policy;
use super::sizes::{sizes_of, sizes_of_all};
use guard_eval::{is_optional, numbers_of, numbers_of_type};
use guard_integers::IntSet;
use guard_model::{Comp, Kind, OutOfMemory, Ty};
use guard_tables::Demand;
use std::alloc::Global;

impl Policy {
    ghost use Rattle.guard_policy.specs.Barren.{is_barren_rule};
    ghost use Rattle.guard_policy.specs.PolicyView.{policy_view};

    /// Whether integers and sizes alone show that no value of the declared type of a rule's message is of the rule's
    /// type. The rule is given by its number, from 0; a number that is no rule's isn't barren.
    ///
    /// The answer is exact for an INTEGER, whose constraints are all looked at. For strings and lists only SIZE is
    /// looked at, and for SEQUENCE and SET each component that isn't OPTIONAL, with what WITH COMPONENTS asks of it
    /// unless a union or an exception says so. Other kinds, PRESENT and ABSENT aren't looked at: the answer is false.
    /// OutOfMemory is the only error.
    pub fn is_barren(&self, alloc: Global, rule: usize) -> Result<bool, OutOfMemory>
        ensures { IfOk result (λ barren. barren ≡ is_barren_rule (policy_view self.now) rule) }
    {
        let Some(rule) = self.rule(rule) else {
            return Ok(false);
        };
        let Some(declared) = self.declared(rule.message.as_bytes()) else {
            return Ok(false);
        };
        is_barren(alloc, declared, rule.ty)
    }
}

/// Whether integers and sizes alone show that no value is a member of both.
fn is_barren(alloc: Global, declared: &Ty, ty: &Ty) -> Result<bool, OutOfMemory>
    ensures { IfOk result (λ barren. barren ≡ is_barren (type_view declared.now) (type_view ty.now)) }
{
    let mut demands = Vec::new(alloc);
    demands.push(Demand::Type(declared))?;
    demands.push(Demand::Type(ty))?;
    kind_has_no_value(alloc, &declared.kind, &demands)
}

/// Whether integers and sizes alone show that no value of this kind meets all demands.
#[cycle(barren)]
fn kind_has_no_value(alloc: Global, kind: &Kind, demands: &[Demand]) -> Result<bool, OutOfMemory>
    ensures { IfOk result (λ none. none ≡ kind_has_no_value (kind_view kind.now) (demands_view demands.now)) }
{
    match kind {
        Kind::Int(_) => have_no_number(alloc, demands),
        Kind::Bits(_) => have_no_size(alloc, demands),
        Kind::Octets => have_no_size(alloc, demands),
        Kind::Chars(_) => have_no_size(alloc, demands),
        Kind::SequenceOf(_) => have_no_size(alloc, demands),
        Kind::SetOf(_) => have_no_size(alloc, demands),
        Kind::Sequence(components) => some_has_no_value(alloc, components, demands),
        Kind::Set(components) => some_has_no_value(alloc, components, demands),
        _ => Ok(false),
    }
}

/// Whether one of the components, unless it is OPTIONAL, has no value.
#[cycle(barren)]
fn some_has_no_value(
    alloc: Global,
    components: &[Comp],
    demands: &[Demand],
) -> Result<bool, OutOfMemory>
    ensures { IfOk result (λ none. none ≡ some_has_no_value 0 (components_of (map component_view components.now))
        (demands_view demands.now)) }
{
    for (place, component) in components.iter().enumerate() {
        if !is_optional(&component.presence) {
            let inner = demands_within(alloc, place, demands)?;
            if kind_has_no_value(alloc, &component.ty.kind, &inner)? {
                return Ok(true);
            }
        }
    }
    Ok(false)
}

// ---- integers and sizes

/// Whether no integer meets all demands.
fn have_no_number(alloc: Global, demands: &[Demand]) -> Result<bool, OutOfMemory>
    ensures { IfOk result (λ none. none ≡ have_no_number (demands_view demands.now)) }
{
    let mut left = IntSet::all(alloc)?;
    for demand in demands {
        left = left.intersection(alloc, &numbers_met(alloc, *demand)?)?;
    }
    Ok(is_empty(&left))
}

/// The integers that meet the demand; all of them for a constraint on a kind other than INTEGER.
fn numbers_met(alloc: Global, demand: Demand) -> Result<IntSet, OutOfMemory>
    ensures { IfOk result (λ set. (z : ℤ)
        → holds set z ≡ (fits_128_bits z && demand_has_number z (demand_view demand.entry))) }
{
    match demand {
        Demand::Type(ty) => numbers_of_type(alloc, ty),
        Demand::Constraint(kind, constraint) if kind.is_integer() => numbers_of(alloc, constraint),
        Demand::Constraint(_, _) => IntSet::all(alloc),
    }
}

/// Whether no size is one that all may have.
fn have_no_size(alloc: Global, demands: &[Demand]) -> Result<bool, OutOfMemory>
    ensures { IfOk result (λ none. none ≡ have_no_size (demands_view demands.now)) }
{
    let mut left = IntSet::range(alloc, 0, i128::MAX)?;
    for demand in demands {
        left = left.intersection(alloc, &sizes_met(alloc, *demand)?)?;
    }
    Ok(is_empty(&left))
}

/// The sizes that values which meet the demand may have.
fn sizes_met(alloc: Global, demand: Demand) -> Result<IntSet, OutOfMemory>
    ensures { IfOk result (λ set. (z : ℤ)
        → holds set z ≡ (fits_128_bits z && demand_may_have_size z (demand_view demand.entry))) }
{
    match demand {
        Demand::Type(ty) => sizes_of_all(alloc, &ty.cons),
        Demand::Constraint(_, constraint) => sizes_of(alloc, constraint),
    }
}

/// Whether the set has no integer.
fn is_empty(set: &IntSet) -> bool
    ensures { IsTrue result ↔ ((z : ℤ) → holds set.now z ≡ false) }
{
    !set.has(i128::MIN) && reaches_all(set.alike_to(i128::MIN))
}

/// Whether no integer is above this one.
fn reaches_all(number: i128) -> bool
    ensures { result ≡ int_le (pos (2 ^ 127 - 1)) number }
{
    i128::MAX <= number
}
