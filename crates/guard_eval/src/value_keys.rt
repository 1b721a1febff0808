//! Keys by which a value is found among many: the first octets of a way to write it down. Values that differ may have
//! one key, so a value that is found by its key is still to be asked.
use arrayvec::ArrayVec;
use guard_model::Value;
use std::sync::Arc;

/// So many octets of a value are written down at most.
const MOST: usize = 256;

/// The first octets of a value that is written down.
pub type Key = ArrayVec<u8, MOST>;

/// The value's key.
pub fn key_of(value: &Value) -> Key {
    let mut key = ArrayVec::new();
    write(&mut key, value);
    key
}

#[cycle(keys)]
fn write(key: &mut Key, value: &Value) {
    match value {
        Value::Bool(truth) => put(key, u8::from(*truth)),
        Value::Int(number) => write_number(key, &number.to_be_bytes()),
        Value::Enumerated(number) => write_number(key, &number.to_be_bytes()),
        Value::Null => (),
        Value::Bits(bits) => write_octets(key, &bits.octets),
        Value::Octets(octets) => write_octets(key, octets),
        Value::Oid(arcs) => write_arcs(key, arcs),
        Value::Chars(text) => write_octets(key, text.as_bytes()),
        Value::Fields(fields) => write_fields(key, fields),
        Value::Items(items) => write_items(key, items),
        Value::Chosen(place, chosen) => {
            put(key, *place);
            write(key, chosen);
        }
    }
}

/// Writes the slots in order, each after whether it holds a value.
#[cycle(keys)]
fn write_fields(key: &mut Key, fields: &[Arc<Option<Value>>]) {
    for field in fields {
        if key.is_full() {
            return;
        }
        match field.as_ref() {
            Some(value) => {
                put(key, 1);
                write(key, value);
            }
            None => put(key, 0),
        }
    }
}

/// Writes the elements in order after their number.
#[cycle(keys)]
fn write_items(key: &mut Key, items: &[Value]) {
    write_number(key, &items.len().to_be_bytes());
    for item in items {
        if key.is_full() {
            return;
        }
        write(key, item);
    }
}

fn write_arcs(key: &mut Key, arcs: &[u128]) {
    for arc in arcs {
        if key.is_full() {
            return;
        }
        write_number(key, &arc.to_be_bytes());
    }
}

/// Writes the octets after their number.
fn write_octets(key: &mut Key, octets: &[u8]) {
    write_number(key, &octets.len().to_be_bytes());
    for octet in octets {
        if key.is_full() {
            return;
        }
        put(key, *octet);
    }
}

/// Writes a number of these octets, the highest first: how many of them are left out at the front as they are zero, and
/// the others.
fn write_number(key: &mut Key, octets: &[u8]) {
    let zeros = octets
        .iter()
        .position(|octet| *octet != 0)
        .unwrap_or(octets.len());
    put(key, u8::try_from(zeros).unwrap_or(u8::MAX));
    for (place, octet) in octets.iter().enumerate() {
        if place >= zeros {
            put(key, *octet);
        }
    }
}

/// Puts an octet behind the others where there is room.
fn put(key: &mut Key, octet: u8) {
    if !key.is_full() {
        key.push(octet);
    }
}
