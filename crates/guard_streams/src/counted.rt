//! What is counted of frames under the policy in force.

use crate::rule_counts::InForce;
use crate::tally::Tally;
use guard_frames::{LinkFault, Totals, Watch, Why};

/// What is counted: how often each rule of the policy in force decided, and all else.
#[derive(Drop)]
pub struct Counted {
    pub force: InForce,
    pub tally: Tally,
}

impl Counted {
    ghost use Rattle.std.specs.Prelude.{◌≡◌};
    ghost use Rattle.guard_streams.specs.Counters.{counted_view, force_view, nothing_counted};
    ghost use Rattle.guard_streams.specs.inside.Following.{with_piece};
    ghost use Rattle.guard_streams.specs.LinksCounted.{with_force};

    /// Nothing yet, under this policy.
    pub fn nothing(force: InForce) -> Counted
        ensures { counted_view result ≡ nothing_counted (force_view force) }
    {
        Counted {
            force,
            tally: Tally::nothing(),
        }
    }

    /// A piece of so many octets was taken and answered so; these are the totals after it.
    pub fn piece(&mut self, totals: Totals, octets: usize, answer: Result<(), LinkFault>)
        ensures { counted_view self.new ≡ with_piece (counted_view self.old) totals octets answer }
    {
        self.tally.totals = totals;
        self.tally.came = self.tally.came.saturating_add(octets as u64);
        self.tally.faults.answered(answer);
    }

    /// This policy comes into force in place of another.
    pub fn renewed(&mut self, force: InForce)
        ensures { counted_view self.new ≡ with_force (counted_view self.old) (force_view force) }
    {
        self.force = force;
        self.tally.reloads = self.tally.reloads.saturating_add(1);
    }
}

impl Watch for Counted {
    ghost use Rattle.std.specs.Prelude.{◌≡◌};
    ghost use Rattle.guard_streams.specs.Counters.{counted_view, counted_one};

    ghost notes = { λ old told new. counted_view new ≡ counted_one (counted_view old) told };

    fn pauses(&mut self, totals: Totals) {
        self.tally.totals = totals;
    }

    fn reads(&mut self, octets: usize) {
        self.tally.came = self.tally.came.saturating_add(octets as u64);
    }

    fn goes(&mut self, frames: usize, octets: usize, rule: usize) {
        self.tally.went = self.tally.went.saturating_add(octets as u64);
        self.force.goes(rule, frames);
    }

    fn stays(&mut self, why: Why) {
        self.tally.counts.stays(why);
        self.force.stays(why);
    }
}
