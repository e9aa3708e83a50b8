//! A trial of a region's plan, timed beside how quick following was.

use crate::pace::{Pace, Stopwatch};

/// A window lasts so many nanoseconds, and until some verdicts came, or many.
const WINDOW: u64 = 1_000_000;

const SOME: u32 = 32;

const MANY: u32 = 1_024;

/// The plan isn't quicker where no two windows show it within so many verdicts, or so many windows and nanoseconds. The first windows
/// are slow in any case: threads are started, and the pipeline is filled.
const MOST: u32 = 3_072;

const WINDOWS: u32 = 4;

const LONGEST: u64 = 16_000_000;

/// Nor is it where, behind so many windows, a followed step took less than so many parts of a hundred of the time that one took in
/// the last two.
const CLEARLY: u64 = 80;

/// Nor is it where, behind many verdicts or so many nanoseconds, a followed step took less than so many parts of a hundred of the
/// time that one took in a window.
const STARTED: u64 = 6_000_000;

const HOPELESS: u64 = 33;

/// What a trial has shown by now.
#[derive(Clone, Copy)]
pub(crate) enum Shown {
    Nothing,
    /// The plan is quicker.
    Quicker,
    /// It wasn't.
    Slower,
}

/// How many windows are over, how many verdicts of a trial came, and how many in the window under way.
#[derive(Clone, Copy)]
pub(crate) struct Trial {
    /// The plan is quicker where in two windows a step took so many parts of a hundred of a followed one's time.
    percent: u64,
    windows: u32,
    tried: u32,
    within: u32,
    watch: Stopwatch,
    window: Stopwatch,
    /// How quick the window before was.
    last: Pace,
}

impl Trial {
    /// It begins now, where so many steps were made.
    pub(crate) fn begin(now: u64, steps: u64, percent: u64) -> Trial {
        let watch = Stopwatch::start(now, steps);
        Trial {
            percent,
            windows: 0,
            tried: 0,
            within: 0,
            watch,
            window: watch,
            last: Pace::unknown(),
        }
    }

    /// For how long it has been going on.
    pub(crate) fn passed(&self, now: u64) -> u64 {
        self.watch.passed(now)
    }

    /// One more verdict came now, with which so many steps were made. What is shown beside this pace of following.
    pub(crate) fn take(&mut self, now: u64, steps: u64, alone: Pace) -> Shown {
        self.tried = self.tried.saturating_add(1);
        self.within = self.within.saturating_add(1);
        let long = self.window.passed(now) >= WINDOW && self.within >= SOME;
        if long || self.within >= MANY {
            self.end_window(now, steps, alone)
        } else {
            Shown::Nothing
        }
    }

    /// A window is over, and another one begins.
    fn end_window(&mut self, now: u64, steps: u64, alone: Pace) -> Shown {
        let pace = self.window.pace(now, steps);
        let both = self.last.and(pace);
        let first = self.windows == 0;
        self.within = 0;
        self.windows = self.windows.saturating_add(1);
        self.window = Stopwatch::start(now, steps);
        self.last = pace;
        if first {
            Shown::Nothing
        } else if both.takes_less(self.percent, alone) {
            Shown::Quicker
        } else if self.is_over(now) || self.is_slower(now, pace, both, alone) {
            Shown::Slower
        } else {
            Shown::Nothing
        }
    }

    /// Whether following was quicker than the last window, or the last two.
    fn is_slower(&self, now: u64, last: Pace, both: Pace, alone: Pace) -> bool {
        (self.windows >= WINDOWS && alone.takes_less(CLEARLY, both))
            || (self.is_started(now) && alone.takes_less(HOPELESS, last))
    }

    fn is_started(&self, now: u64) -> bool {
        self.tried >= MANY || self.passed(now) >= STARTED
    }

    fn is_over(&self, now: u64) -> bool {
        self.tried >= MOST || (self.windows >= WINDOWS && self.passed(now) >= LONGEST)
    }
}
