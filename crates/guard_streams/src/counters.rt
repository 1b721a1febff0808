//! Counts what becomes of frames, and shows it.
ghost use Rattle.std.specs.Prelude.{◌≡◌, option_map};
ghost use Rattle.guard_streams.specs.Counters.{counted_view, counters_text};
ghost use Rattle.guard_streams.specs.Counting.{ShowsLast};

use crate::board::Board;
use crate::counted::Counted;
use crate::counters_text::counters_text;
use crate::counts::Counts;
use crate::faults::Faults;
use crate::rule_counts::InForce;
use guard_frames::{Totals, Watch, Why};
use std::alloc::Global;

/// What is counted under the policy in force, and the board on which it is shown, where there is a path for that.
#[derive(Drop)]
pub struct Counters<B> {
    alloc: Global,
    board: B,
    path: Option<String>,
    counted: Counted,
    /// Whether what was to be shown last was shown.
    is_shown: bool,
}

impl<B: Board> Counters<B> {
    ghost use Rattle.std.specs.Prelude.{◌≡◌, option_map, string_bytes};
    ghost use Rattle.guard_streams.specs.Counters.{force_view};
    ghost use Rattle.guard_streams.specs.Counting.{counters_view, ended, fresh_counters, IsShowing};
    ghost use Rattle.guard_streams.specs.CountingLinks.{MayShowCounted, ShowsCounted};
    ghost use Rattle.guard_streams.specs.LinksCounted.{maybe_counted};

    /// Nothing is counted yet, and nothing shown.
    pub fn over(alloc: Global, board: B) -> Counters<B>
        ensures { result.board ≡ board }
    {
        Counters {
            alloc,
            board,
            path: None,
            counted: Counted::nothing(InForce::none(alloc)),
            is_shown: false,
        }
    }

    /// The board.
    pub fn board(&self) -> &B
        ensures { result.now ≡ self.now.board }
    {
        &self.board
    }

    /// Whether what was to be shown last was shown.
    pub(crate) fn is_shown(&self) -> bool
        ensures { result ≡ self.now.is_shown }
    {
        self.is_shown
    }

    /// How often each reason is reported so far.
    pub(crate) fn counts(&self) -> Counts
        ensures { result ≡ self.now.counted.tally.counts }
    {
        self.counted.tally.counts
    }

    /// Begins to count under this policy, and shows that at the path, where there is one.
    pub(crate) fn begin(&mut self, path: Option<String>, force: InForce)
        ensures begins { counters_view self.new ≡ fresh_counters (option_map string_bytes path) (force_view force) }
        ensures shows { IsShowing B.shown self.old self.new }
    {
        self.path = path;
        self.counted = Counted::nothing(force);
        self.show();
    }

    /// Shows what is counted up to the end, with these totals and faults.
    pub(crate) fn end(&mut self, totals: Totals, faults: Faults)
        ensures ends { counters_view self.new ≡ ended (counters_view self.old) totals faults }
        ensures shows { IsShowing B.shown self.old self.new }
    {
        self.counted.tally.totals = totals;
        self.counted.tally.faults = faults;
        self.show();
    }

    /// Shows what is counted, where there is a path. Where there is no memory for that, or the board fails, what was
    /// shown before stays.
    fn show(&mut self)
        ensures shows { IsShowing B.shown self.old self.new }
        ensures same { counters_view self.new ≡ counters_view self.old }
    {
        self.is_shown = put(
            self.alloc,
            &mut self.board,
            self.path.as_deref(),
            &self.counted,
        );
    }

    /// The next record may have to be waited for. What is counted elsewhere may be shown at the place, where there is
    /// one.
    pub(crate) fn waits(&mut self, place: Option<&str>, counted: &Option<Counted>)
        ensures { MayShowCounted (option_map (λ p. p.now) place.entry) (maybe_counted counted.now)
            (B.shown self.old.board) (B.shown self.new.board) }
    {
        if place.is_some() && self.board.is_due() {
            self.show_at(place, counted);
        }
    }

    /// Shows at the place what is counted elsewhere, where that is, as `show` does.
    pub(crate) fn show_at(&mut self, place: Option<&str>, counted: &Option<Counted>)
        ensures { ShowsCounted (option_map (λ p. p.now) place.entry) (maybe_counted counted.now) self.new.is_shown
            (B.shown self.old.board) (B.shown self.new.board) }
    {
        let Some(counted) = counted else {
            self.is_shown = false;
            return;
        };
        self.is_shown = put(self.alloc, &mut self.board, place, counted);
    }
}

/// Shows what is counted at the place, and answers whether that worked, as a board does. It doesn't where there is no
/// place, or no memory for that.
fn put<B: Board>(alloc: Global, board: &mut B, place: Option<&str>, counted: &Counted) -> bool
    ensures { ShowsLast (λ text. text ≡ counters_text (counted_view counted.now)) (option_map (λ p. p.now) place.entry)
        result (B.shown board.old) (B.shown board.new) }
{
    let Some(place) = place else {
        return false;
    };
    match counters_text(alloc, counted) {
        Ok(text) => board.show(alloc, place, text.as_slice()),
        Err(_) => false,
    }
}

impl<B: Board> Watch for Counters<B> {
    ghost use Rattle.guard_streams.specs.Counting.{IsTelling};

    ghost notes = { λ old told new. IsTelling B.shown old told new };

    fn pauses(&mut self, totals: Totals) {
        self.counted.pauses(totals);
        if self.path.is_some() && self.board.is_due() {
            self.show();
        }
    }

    fn reads(&mut self, octets: usize) {
        self.counted.reads(octets);
    }

    fn goes(&mut self, frames: usize, octets: usize, rule: usize) {
        self.counted.goes(frames, octets, rule);
    }

    fn stays(&mut self, why: Why) {
        self.counted.stays(why);
    }
}
