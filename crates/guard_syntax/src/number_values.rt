//! The integers that are written.
ghost use Rattle.std.specs.Prelude.{◌≡◌, if◌then◌else◌, Some, None};
ghost use Rattle.guard_model.specs.Limits.{fits_128_bits};
ghost use Rattle.guard_syntax.specs.Numbers.{number_of};
ghost use Rattle.guard_syntax.specs.Views.{number_view};

use crate::tree::NumberTree;
use guard_lexer::magnitude;

/// 2^127, the magnitude of the least integer.
const MOST_BELOW_ZERO: u128 = 170141183460469231731687303715884105728;

impl NumberTree<'_> {
    /// The integer that is written (X.680 clause 19); None where it is below -2^127 or above 2^127-1.
    pub fn integer(&self) -> Option<i128>
        ensures { result ≡ (if fits_128_bits (number_of (number_view self.now)) then Some
            (number_of (number_view self.now)) else None) }
    {
        let size = magnitude(self.digits)?;
        if !self.minus {
            return i128::try_from(size).ok();
        }
        if size == 0 {
            Some(0)
        } else if size <= MOST_BELOW_ZERO {
            Some(-1 - (size - 1) as i128)
        } else {
            None
        }
    }
}
