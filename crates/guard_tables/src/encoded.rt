//! Octets that are stored in nodes.
ghost use Rattle.std.specs.Prelude.{◌≡◌, ℕ, List, Option, option_map, IfOk};
ghost use Rattle.guard_model.specs.Answer.{Gives};
ghost use Rattle.guard_der.specs.Encoding.{refusal, or_too_long};

use guard_der::EncodeFault;
use guard_model::OutOfMemory;

/// The octets that were encoded; None where a length in them would need more than four octets.
pub(crate) fn if_short(answer: Result<Vec<u8>, EncodeFault>) -> Result<Option<Vec<u8>>, OutOfMemory>
    ensures { (os : Option (List ℕ)) → Gives (λ v. v.items) refusal answer (or_too_long os)
        → IfOk result (λ o. option_map (λ v. v.items) o ≡ os) }
{
    match answer {
        Ok(octets) => Ok(Some(octets)),
        Err(EncodeFault::TooLong) => Ok(None),
        Err(EncodeFault::OutOfMemory) => Err(OutOfMemory),
    }
}
