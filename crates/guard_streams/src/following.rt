//! What follows the frames of a piece.

use crate::counted::Counted;
use crate::counts::Counts;
use guard_frames::{Totals, Watch, Why};

/// Counts the reasons for notes, and beside them what is counted, where that is.
#[derive(Drop)]
pub struct Following {
    pub counts: Counts,
    pub counted: Option<Counted>,
}

impl Watch for Following {
    ghost use Rattle.guard_streams.specs.inside.Following.{Follows};

    ghost notes = { λ old told new. Follows old told new };

    fn pauses(&mut self, _totals: Totals) {}

    fn reads(&mut self, _octets: usize) {}

    fn goes(&mut self, frames: usize, octets: usize, rule: usize) {
        if let Some(counted) = &mut self.counted {
            counted.goes(frames, octets, rule);
        }
    }

    fn stays(&mut self, why: Why) {
        self.counts.stays(why);
        if let Some(counted) = &mut self.counted {
            counted.stays(why);
        }
    }
}
