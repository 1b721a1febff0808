//! Equality of values.
ghost use Rattle.std.specs.Prelude.{◌≡◌, ◌&&◌, nat_eq};
ghost use Rattle.std.specs.Arc.{arc_slice_items};
ghost use Rattle.std.specs.Bool.{Decides};
ghost use Rattle.guard_model.specs.Same.{same, same_fields, same_items, same_numbers};
ghost use Rattle.guard_model.specs.ValueView.{value_view, fields_view, items_view};

use crate::value::{Bits, Value};
use std::sync::Arc;

impl Value {
    /// Whether both mean the same abstract value: they have the same form, and their parts are the same one by one.
    pub fn same(&self, other: &Value) -> bool
        ensures test { result ≡ same (value_view self.now) (value_view other.now) }
        ensures equal { Decides result (value_view self.now ≡ value_view other.now) }
    {
        self.equals(other)
    }

    #[cycle(same)]
    fn equals(&self, other: &Value) -> bool
        ensures { result ≡ same (value_view self.now) (value_view other.now) }
    {
        match (self, other) {
            (Value::Bool(one), Value::Bool(two)) => one == two,
            (Value::Int(one), Value::Int(two)) => one == two,
            (Value::Enumerated(one), Value::Enumerated(two)) => one == two,
            (Value::Null, Value::Null) => true,
            (Value::Bits(one), Value::Bits(two)) => one.is_same(two),
            (Value::Octets(one), Value::Octets(two)) => one == two,
            (Value::Oid(one), Value::Oid(two)) => one == two,
            (Value::Chars(one), Value::Chars(two)) => one == two,
            (Value::Fields(one), Value::Fields(two)) => are_same_fields(one, two),
            (Value::Items(one), Value::Items(two)) => are_same_items(one, two),
            (Value::Chosen(at, one), Value::Chosen(place, two)) => at == place && one.equals(two),
            _ => false,
        }
    }
}

impl Bits {
    fn is_same(&self, other: &Bits) -> bool
        ensures { result
            ≡ (nat_eq self.now.unused other.now.unused
            && same_numbers (arc_slice_items self.now.octets) (arc_slice_items other.now.octets)) }
    {
        self.unused == other.unused && self.octets == other.octets
    }
}

#[cycle(same)]
fn are_same_fields(fields: &[Arc<Option<Value>>], others: &[Arc<Option<Value>>]) -> bool
    ensures { result ≡ same_fields (fields_view fields.now) (fields_view others.now) }
{
    if fields.len() != others.len() {
        return false;
    }
    for (field, other) in fields.iter().zip(others) {
        let agree = match (field.as_ref(), other.as_ref()) {
            (Some(one), Some(two)) => one.equals(two),
            (None, None) => true,
            _ => false,
        };
        if !agree {
            return false;
        }
    }
    true
}

#[cycle(same)]
fn are_same_items(items: &[Value], others: &[Value]) -> bool
    ensures { result ≡ same_items (items_view items.now) (items_view others.now) }
{
    if items.len() != others.len() {
        return false;
    }
    for (item, other) in items.iter().zip(others) {
        if !item.equals(other) {
            return false;
        }
    }
    true
}
