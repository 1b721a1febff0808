//! Ranges of integers (X.680 51.4).
ghost use Rattle.std.specs.Prelude.{◌≡◌, IsTrue};
ghost use Rattle.guard_model.specs.Answer.{Gives};
ghost use Rattle.guard_model.specs.TypeView.{type_view, constraint_view};
ghost use Rattle.guard_model.specs.ValueView as values;
ghost use Rattle.guard_der.specs.Sound.{is_sound};
ghost use Rattle.guard_syntax.specs.Views as trees;
ghost use Rattle.guard_syntax.specs.SetViews.{end_view, end_or_view, range_view};
ghost use Rattle.guard_values.specs.Views.{meaning_of, AreKnownFitting};
ghost use Rattle.guard_constraints.specs.RangeEnds as ends;
ghost use Rattle.guard_constraints.specs.inside.Reading.{read_range, read_limit, read_end, integer_in};
ghost use Rattle.guard_constraints.specs.Views.{named};

use crate::fault::ConsFault;
use crate::written_values::written_value;
use guard_model::{Cons, Limit, Rule, Site, Ty, Value};
use guard_syntax::{EndForm, EndTree, RangeTree, StringKind, ValueForm, ValueTree};
use guard_values::{Scope, ValueFault};
use std::alloc::Global;

/// The integers between two ends.
pub fn range(
    alloc: Global,
    scope: Scope,
    tree: &RangeTree,
    site: Site,
    ty: &Ty,
) -> Result<Cons, ConsFault>
    requires sound { IsTrue (is_sound (type_view ty.now)) }
    requires fitting { AreKnownFitting scope.known.now }
    ensures { Gives constraint_view named result
        (read_range (meaning_of scope.entry) (type_view ty.now) site (range_view tree.now)) }
{
    if !ty.kind.is_integer() {
        return Err(ConsFault::NotApplicable(site));
    }
    if !has_proper_ends(tree) {
        return Err(ConsFault::ExclusiveLimit(site));
    }
    let low = limit(alloc, scope, &tree.low, tree.above_low, ty)?;
    let high = limit(alloc, scope, &tree.high, tree.below_high, ty)?;
    Ok(Cons {
        site,
        rule: Rule::Range(low, high),
    })
}

/// `<` is at neither MIN nor MAX.
fn has_proper_ends(tree: &RangeTree) -> bool
    ensures { result ≡ ends.has_proper_ends (range_view tree.now) }
{
    let leaves_min_out = tree.above_low && tree.low.is_none();
    let leaves_max_out = tree.below_high && tree.high.is_none();
    !leaves_min_out && !leaves_max_out
}

/// What an end limits: where `<` is at it, it is outside.
fn limit(
    alloc: Global,
    scope: Scope,
    end: &Option<EndTree>,
    outside: bool,
    ty: &Ty,
) -> Result<Limit, ConsFault>
    requires sound { IsTrue (is_sound (type_view ty.now)) }
    requires fitting { AreKnownFitting scope.known.now }
    ensures { Gives (λ l. l) named result
        (read_limit (meaning_of scope.entry) (type_view ty.now) outside (end_or_view end.now)) }
{
    let Some(end) = end else {
        return Ok(Limit::Free);
    };
    let number = number_at(alloc, scope, end, ty)?;
    if outside {
        Ok(Limit::Past(number))
    } else {
        Ok(Limit::At(number))
    }
}

/// The integer that an end is.
fn number_at(alloc: Global, scope: Scope, end: &EndTree, ty: &Ty) -> Result<i128, ConsFault>
    requires sound { IsTrue (is_sound (type_view ty.now)) }
    requires fitting { AreKnownFitting scope.known.now }
    ensures { Gives (λ n. n) named result (read_end (meaning_of scope.entry) (type_view ty.now) (end_view end.now)) }
{
    let number = written_value(alloc, scope, &value_of_end(end), ty)?;
    integer_in(end.site, &number.value)
}

/// The integer that a value of INTEGER is.
fn integer_in(site: Site, value: &Value) -> Result<i128, ConsFault>
    ensures { Gives (λ n. n) named result (integer_in site (values.value_view value.now)) }
{
    match value {
        Value::Int(number) => Ok(*number),
        _ => Err(ConsFault::Value(ValueFault::WrongNotation(site))),
    }
}

/// An end as the tree of a value.
fn value_of_end<'a>(end: &EndTree<'a>) -> ValueTree<'a>
    ensures { trees.value_view result ≡ ends.value_of_end (end_view end.now) }
{
    let form = match end.form {
        EndForm::Integer(number) => { ValueForm::Integer(number.minus, number.site, number.digits) }
        EndForm::Reference(name) => ValueForm::Reference(name),
        EndForm::Characters(spelling) => ValueForm::Text(StringKind::Characters, spelling),
    };
    ValueTree {
        site: end.site,
        form,
    }
}
