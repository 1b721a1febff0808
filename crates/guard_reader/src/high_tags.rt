//! Identifier octets of tags with numbers from 31 to 127, which are two (X.690 8.1.2.4).
ghost use Rattle.std.specs.Prelude.{◌≡◌, ◌+◌, ◌*◌, true};
ghost use Rattle.guard_model.specs.Tags.{class_rank};
ghost use Rattle.guard_der.specs.Element.{form_bit};
ghost use Rattle.guard_reader.specs.inside.HighTags.{IsSpelled};

use guard_model::{Class, Tag};

/// Whether these octets spell the tag in this form; of numbers that take more octets the answer is no.
#[inline(always)]
pub fn is_spelled(tag: &Tag, constructed: bool, first: u8, number: u8) -> bool
    ensures { result ≡ true → IsSpelled tag.now constructed first number }
{
    number >= 31
        && number < 128
        && u32::from(number) == tag.number
        && first == leading(tag.class, constructed)
}

/// The first identifier octet of a tag with a number from 31 on (X.690 8.1.2.4).
#[inline(always)]
fn leading(class: Class, constructed: bool) -> u8
    ensures { result ≡ 64 * class_rank class + form_bit constructed + 31 }
{
    let form = if constructed { 32 } else { 0 };
    match class {
        Class::Universal => form + 31,
        Class::Application => form + 95,
        Class::Context => form + 159,
        Class::Private => form + 223,
    }
}
