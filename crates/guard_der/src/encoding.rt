//! The encoding of a value.
ghost use Rattle.std.specs.Prelude.{◌≡◌, IsTrue};
ghost use Rattle.guard_model.specs.Answer.{Gives};
ghost use Rattle.guard_model.specs.TypeView.{type_view, kind_view};
ghost use Rattle.guard_model.specs.ValueView.{value_view};
ghost use Rattle.guard_der.specs.Der.{contents_octets};
ghost use Rattle.guard_der.specs.Element.{tagged};
ghost use Rattle.guard_der.specs.Fits.{fits, fits_kind};
ghost use Rattle.guard_der.specs.Encoding.{refusal, encoding_of, or_too_long};
ghost use Rattle.guard_der.specs.declared.encoding.EncodeFault.TheVariants.{OutOfMemory as WantOfMemory};

mod element;
mod first_tag;
mod octets;
mod parts;
mod simple;
pub(crate) mod values;

pub use first_tag::outermost;
use guard_model::{Kind, Tag, Ty, Value};
use std::alloc::{AllocError, AllocFailed, Global};
use thiserror::Error;

/// Why a value gives no encoding.
#[derive(Clone, Copy, Debug, PartialEq, Eq, Error)]
pub enum EncodeFault {
    /// The encoding would have more than 1,048,576 octets, or a length in it would need more than four.
    #[error("TooLong")]
    TooLong,
    /// A growth was refused. This may be answered instead of anything else.
    #[error("OutOfMemory")]
    OutOfMemory,
}

/// The most octets that an encoding made by `encode` may have.
pub const LONGEST_ENCODING: usize = 1_048_576;

/// The encoding of the value (X.690 clauses 8, 10 and 11). Condition: the value is one of the type's, constraints
/// aside, which `fits` tests. TooLong exactly where the encoding has more than 1,048,576 octets, or a length in it
/// would need more than four; OutOfMemory where a growth is refused.
pub fn encode(alloc: Global, ty: &Ty, value: &Value) -> Result<Vec<u8>, EncodeFault>
    requires { IsTrue (fits (type_view ty.now) (value_view value.now)) }
    // The octets of the value's encoding where it is short enough, else TooLong, unless memory runs out.
    ensures exact { Gives (λ v. v.items) refusal result (encoding_of (type_view ty.now) (value_view value.now)) }
{
    let octets = values::encoding(alloc, ty, value)?;
    if octets.len() > LONGEST_ENCODING {
        return Err(EncodeFault::TooLong);
    }
    Ok(octets)
}

/// The contents octets of a value (X.690 8.1.4), without a limit on how many they are. Condition: the value is one of
/// the kind's, constraints aside. TooLong exactly where a length in them would need more than four octets; OutOfMemory
/// where a growth is refused.
pub fn encode_contents(alloc: Global, kind: &Kind, value: &Value) -> Result<Vec<u8>, EncodeFault>
    requires { IsTrue (fits_kind (kind_view kind.now) (value_view value.now)) }
    ensures exact { Gives (λ v. v.items) refusal result
        (or_too_long (contents_octets (kind_view kind.now) (value_view value.now))) }
{
    values::contents(alloc, kind, value)
}

/// Contents octets in their tags, the outermost first, each but the last a wrapper (X.690 8.14). Without a tag nothing
/// is added. TooLong exactly where a length would need more than four octets; OutOfMemory where a growth is refused.
pub fn encode_tagged(
    alloc: Global,
    tags: &[Tag],
    constructed: bool,
    contents: Vec<u8>,
) -> Result<Vec<u8>, EncodeFault>
    ensures exact { Gives (λ v. v.items) refusal result (or_too_long (tagged tags.now constructed contents.items)) }
{
    element::tagged(alloc, tags, constructed, contents)
}

impl From<guard_model::OutOfMemory> for EncodeFault {
    ghost from_gives = { λ _ e. e ≡ WantOfMemory };

    fn from(_e: guard_model::OutOfMemory) -> EncodeFault {
        EncodeFault::OutOfMemory
    }
}

impl From<AllocError> for EncodeFault {
    ghost from_gives = { λ _ e. e ≡ WantOfMemory };

    fn from(_e: AllocError) -> EncodeFault {
        EncodeFault::OutOfMemory
    }
}

impl<T: Drop> From<AllocFailed<T>> for EncodeFault {
    ghost from_gives = { λ _ e. e ≡ WantOfMemory };

    fn from(_e: AllocFailed<T>) -> EncodeFault {
        EncodeFault::OutOfMemory
    }
}
