//! The elements of a SET OF in the order of their encodings (X.690 11.6).
ghost use Rattle.std.specs.Prelude.{◌≡◌, map, IfOk};
ghost use Rattle.std.specs.Ordering.{is_lt};
ghost use Rattle.guard_model.specs.ValueView.{value_view};
ghost use Rattle.guard_der.specs.Fits.{descends};
ghost use Rattle.guard_values.specs.Arrangement.{arranged_encodings, encoded_value};
ghost use Rattle.guard_values.specs.Views.{encoded_view};

use guard_der::order::descends;
use guard_model::Value;
use std::alloc::{AllocError, Global};
use std::cmp::Ordering;

/// A value with its encoding.
#[derive(Drop)]
pub struct Encoded {
    pub octets: Vec<u8>,
    pub value: Value,
}

/// The values as their encodings ascend.
pub fn arranged(alloc: Global, mut elements: Vec<Encoded>) -> Result<Vec<Value>, AllocError>
    ensures { IfOk result (λ v. map value_view v.items
        ≡ map encoded_value (arranged_encodings (map encoded_view elements.items))) }
{
    elements.sort_by(|one, other| order(&one.octets, &other.octets))?;
    values_of(alloc, elements)
}

fn values_of(alloc: Global, elements: Vec<Encoded>) -> Result<Vec<Value>, AllocError>
    ensures { IfOk result (λ v. map value_view v.items ≡ map encoded_value (map encoded_view elements.items)) }
{
    let mut values = Vec::with_capacity(alloc, elements.len())?;
    for element in elements {
        values.push(element.value)?;
    }
    Ok(values)
}

/// The order of encodings, octet by octet, the shorter one padded with zero octets.
fn order(one: &[u8], other: &[u8]) -> Ordering
    ensures { is_lt result ≡ descends other.now one.now }
{
    if descends(other, one) {
        Ordering::Less
    } else if descends(one, other) {
        Ordering::Greater
    } else {
        Ordering::Equal
    }
}
