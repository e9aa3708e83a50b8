//! How quick the iterations are that are followed, until that is known well enough for a trial of the plan.
use crate::pace::{Pace, Stopwatch};
use crate::terms::Terms;

/// The clock is looked at behind each so many iterations that are followed, and behind the first ones each time that they are twice
/// as many.
const LOOK: u32 = 32;

/// All that is timed has so many windows.
const WINDOWS: u64 = 8;

/// What was followed since the last trial.
#[derive(Clone, Copy)]
pub(crate) struct Timed {
    /// How much of it is enough, and whether that is by what iterations weigh.
    terms: Terms,
    weighs: bool,
    /// How many iterations were followed in epochs that are over, and how quickly.
    before: u32,
    pace: Pace,
    /// How many in the epoch under way, since when that is, whether it has settled, and since when it is timed.
    here: u32,
    begun: Stopwatch,
    settled: bool,
    watch: Stopwatch,
    /// The quickest window of all, and the one under way.
    quickest: Pace,
    window: Stopwatch,
}

impl Timed {
    /// Nothing.
    pub(crate) fn nothing() -> Timed {
        let start = Stopwatch::start(0, 0);
        Timed {
            terms: Terms::usual(),
            weighs: true,
            before: 0,
            pace: Pace::unknown(),
            here: 0,
            begun: start,
            settled: false,
            watch: start,
            quickest: Pace::unknown(),
            window: start,
        }
    }

    /// Nothing, behind a trial that failed: so many nanoseconds are enough.
    pub(crate) fn resting(nanoseconds: u64) -> Timed {
        Timed {
            terms: Terms::resting(nanoseconds),
            weighs: false,
            ..Timed::nothing()
        }
    }

    /// An epoch begins now, where so many steps were made.
    pub(crate) fn begin(&mut self, now: u64, steps: u64) {
        let start = Stopwatch::start(now, steps);
        self.here = 0;
        self.begun = start;
        self.settled = false;
        self.watch = start;
        self.window = start;
    }

    /// One more iteration was followed.
    pub(crate) fn follow(&mut self) {
        self.here = self.here.saturating_add(1);
    }

    /// How many were in the epoch under way.
    pub(crate) fn here(&self) -> u32 {
        self.here
    }

    /// Whether the clock is to be looked at.
    pub(crate) fn looks(&self) -> bool {
        self.here % LOOK == 0 || self.here.is_power_of_two()
    }

    /// What is followed is timed once it has settled, unless it has taken long by then.
    pub(crate) fn look(&mut self, now: u64, steps: u64, has_workers: bool) {
        if self.weighs {
            self.terms = Terms::of(self.begun.made(steps), self.here, has_workers);
        }
        let passed = self.watch.passed(now);
        if !self.settled && passed >= self.terms.settling {
            self.settled = true;
            if passed < self.terms.nanoseconds {
                self.watch = Stopwatch::start(now, steps);
                self.window = self.watch;
            }
        }
        if self.settled && self.window.passed(now) >= self.terms.nanoseconds / WINDOWS {
            self.quickest = self.window.pace(now, steps).or_quicker(self.quickest);
            self.window = Stopwatch::start(now, steps);
        }
    }

    /// Whether it is enough now.
    pub(crate) fn is_enough(&self, now: u64, steps: u64) -> bool {
        let followed = self.before.saturating_add(self.here);
        let long = self.so_far(now, steps).nanoseconds() >= self.terms.nanoseconds;
        followed >= self.terms.iterations || (long && followed >= self.terms.some)
    }

    fn so_far(&self, now: u64, steps: u64) -> Pace {
        self.pace.and(self.watch.pace(now, steps))
    }

    /// The epoch under way is over now.
    pub(crate) fn end(&mut self, now: u64, steps: u64) {
        self.pace = self.so_far(now, steps);
        self.before = self.before.saturating_add(self.here);
    }

    /// A step of the plan has to take so many parts of a hundred of a followed one's time.
    pub(crate) fn percent(&self) -> u64 {
        self.terms.percent
    }

    /// How quick it was in its quickest window, since other programs may have run in the others; or in all, where no window was over.
    pub(crate) fn pace(&self) -> Pace {
        if self.quickest.nanoseconds() > 0 {
            self.quickest
        } else {
            self.pace
        }
    }
}
