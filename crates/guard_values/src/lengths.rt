//! How many octets the encoding of a value has, counted while the value is read: a component that isn't written adds
//! nothing, and is compared with no default.
ghost use Rattle.std.specs.Prelude.{◌≡◌, ◌+◌, ◌≤◌, List, true, IsTrue, IfOk, IfSome};
ghost use Rattle.guard_model.specs.AbstractType.{NamedNumber, bit_string};
ghost use Rattle.guard_model.specs.AbstractValue.{AbstractValue};
ghost use Rattle.guard_model.specs.Answer.{Gives};
ghost use Rattle.guard_model.specs.Kinds.{kind_of};
ghost use Rattle.guard_model.specs.TypeView.{type_view, presence_view};
ghost use Rattle.guard_model.specs.ValueView.{value_view};
ghost use Rattle.guard_der.specs.Der.{is_left_out as left_out};
ghost use Rattle.guard_der.specs.Encoding.{longest_encoding, short, length_in};
ghost use Rattle.guard_der.specs.Fits.{fits};
ghost use Rattle.guard_values.specs.inside.Lengths as lengths;
ghost use Rattle.guard_values.specs.inside.Lengths.{IsCounted, HasContents};
ghost use Rattle.guard_values.specs.inside.Reading.{Read};
ghost use Rattle.guard_values.specs.Views.{named};

use crate::fault::ValueFault;
use guard_der::{LONGEST_ENCODING, contents_length, is_left_out, length_in};
use guard_model::{Presence, Tag, Ty, Value};

/// A value that is read, and how many octets its encoding or its contents have; None where there are more than an
/// encoding may have. Where what is read counts for its faults alone, the number means nothing.
#[derive(Drop)]
pub struct Counted {
    pub value: Value,
    pub length: Option<usize>,
}

/// A value that is read without a written value inside, its contents counted as a whole; or the fault.
pub fn measured(
    sorted: bool,
    ty: &Ty,
    read: Result<Value, ValueFault>,
) -> Result<Counted, ValueFault>
    requires { sorted ≡ true → IfOk read (λ v. IsTrue (fits (type_view ty.now) (value_view v))) }
    ensures given { (answer : Read AbstractValue) → Gives value_view named read answer
        → Gives (λ c. value_view c.value) named result answer }
    ensures counted { sorted ≡ true → IfOk result (HasContents (kind_of (type_view ty.now))) }
{
    let value = read?;
    let length = if sorted {
        contents_length(&ty.kind, &value)
    } else {
        None
    };
    Ok(Counted { value, length })
}

/// A BIT STRING, its contents counted; or the fault.
pub fn bits_counted(read: Result<Value, ValueFault>) -> Result<Counted, ValueFault>
    ensures given { (answer : Read AbstractValue) → Gives value_view named read answer
        → Gives (λ c. value_view c.value) named result answer }
    ensures counted { (names : List NamedNumber) → IfOk result (HasContents (bit_string names)) }
{
    let value = read?;
    let length = match &value {
        Value::Bits(bits) => sum_within(bits.octets.len(), 1),
        _ => None,
    };
    Ok(Counted { value, length })
}

/// How many contents octets components have with one more: one that is its default is left out (X.690 11.5).
pub fn with_part(
    sorted: bool,
    so_far: Option<usize>,
    presence: &Presence,
    counted: &Counted,
) -> Option<usize>
    ensures { sorted ≡ true → result ≡ lengths.with_part (left_out (presence_view presence.now)
        (value_view counted.now.value)) so_far counted.now.length }
{
    if !sorted || is_left_out(presence, &counted.value) {
        return so_far;
    }
    sum_within(counted.length?, so_far?)
}

/// The value whose contents are counted, with the octets of its encoding in place of those; or the fault.
pub fn in_tags(ty: &Ty, read: Result<Counted, ValueFault>) -> Result<Counted, ValueFault>
    ensures given { (answer : Read AbstractValue) → Gives (λ c. value_view c.value) named read answer
        → Gives (λ c. value_view c.value) named result answer }
    ensures counted { IfOk read (HasContents (kind_of (type_view ty.now))) → IfOk result (IsCounted (type_view ty.now)) }
{
    let contents = read?;
    let length = tagged_length(&ty.tags, contents.length);
    Ok(Counted {
        value: contents.value,
        length,
    })
}

/// How many octets so many contents octets have in their tags. None where they are more than an encoding may have.
pub fn tagged_length(tags: &[Tag], contents: Option<usize>) -> Option<usize>
    ensures { IfSome contents (λ n. n ≤ longest_encoding) → result ≡ length_in tags.now contents }
{
    let contents = contents?;
    if contents > LONGEST_ENCODING {
        return None;
    }
    length_in(tags, contents)
}

/// The sum, where an encoding may have so many octets.
fn sum_within(so_far: usize, more: usize) -> Option<usize>
    ensures value { result ≡ short (so_far + more) }
    ensures bound { IfSome result (λ n. n ≤ longest_encoding) }
{
    if more <= LONGEST_ENCODING && so_far <= LONGEST_ENCODING - more {
        Some(so_far + more)
    } else {
        None
    }
}
