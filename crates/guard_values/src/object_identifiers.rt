//! What object identifiers say (X.680 clause 32).
ghost use Rattle.std.specs.Prelude.{◌≡◌, map};
ghost use Rattle.guard_model.specs.Answer.{Gives};
ghost use Rattle.guard_model.specs.inside.Each.{each};
ghost use Rattle.guard_model.specs.ValueView.{value_view};
ghost use Rattle.guard_syntax.specs.Views.{arc_view};
ghost use Rattle.guard_values.specs.ObjectIdentifiers as written;
ghost use Rattle.guard_values.specs.ObjectIdentifiers.{arc_numbers, too_large_arc, large_second};
ghost use Rattle.guard_values.specs.inside.Reading.{read_arc, limited_arcs, unless_large};
ghost use Rattle.guard_values.specs.Views.{named};

use crate::fault::ValueFault;
use guard_lexer::magnitude;
use guard_model::{Site, Value};
use guard_syntax::ArcTree;
use std::alloc::Global;
use std::sync::ArcSlice;

/// The object identifier whose first token is at the site.
pub fn object_identifier(alloc: Global, site: Site, trees: &[ArcTree]) -> Result<Value, ValueFault>
    ensures { Gives value_view named result
        (limited_arcs site (too_large_arc (map arc_view trees.now)) (arc_numbers (map arc_view trees.now))) }
{
    let arcs = arcs(alloc, trees)?;
    check_second(trees, &arcs)?;
    if !are_arcs(&arcs) {
        return Err(ValueFault::BadObjectId(site));
    }
    Ok(Value::Oid(ArcSlice::from_vec(arcs)?))
}

/// The arcs, each of at most 128 bits.
fn arcs(alloc: Global, trees: &[ArcTree]) -> Result<Vec<u128>, ValueFault>
    ensures { Gives (λ v. v.items) named result (each read_arc (map arc_view trees.now)) }
{
    let mut arcs = Vec::with_capacity(alloc, trees.len())?;
    for tree in trees {
        let arc = arc_of(tree)?;
        arcs.push(arc)?;
    }
    Ok(arcs)
}

fn arc_of(tree: &ArcTree) -> Result<u128, ValueFault>
    ensures { Gives (λ n. n) named result (read_arc (arc_view tree.now)) }
{
    match magnitude(tree.number) {
        Some(arc) => Ok(arc),
        None => Err(ValueFault::TooLarge(tree.site)),
    }
}

/// Under the arc 2 the second one and 80 are within 128 bits together (X.690 8.19.4).
fn check_second(trees: &[ArcTree], arcs: &[u128]) -> Result<(), ValueFault>
    requires { arcs.now ≡ arc_numbers (map arc_view trees.now) }
    ensures { Gives (λ u. u) named result (unless_large (large_second (map arc_view trees.now))) }
{
    if let [_, second, ..] = trees {
        if let [first, arc, ..] = arcs {
            if *first == 2 && *arc > u128::MAX - 80 {
                return Err(ValueFault::TooLarge(second.site));
            }
        }
    }
    Ok(())
}

/// Two or more, the first 0 to 2, the second up to 39 under 0 and 1.
fn are_arcs(arcs: &[u128]) -> bool
    ensures { result ≡ written.are_arcs arcs.now }
{
    match arcs {
        [first, second, ..] => *first <= 2 && (*first == 2 || *second <= 39),
        _ => false,
    }
}
