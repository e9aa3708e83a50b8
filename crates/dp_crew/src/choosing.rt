//! Whether a region's iterations are followed by its run plan, or go by the plan itself: by the clock.

use crate::pace::{Pace, Stopwatch};
use crate::timed::Timed;
use crate::trial::{Shown, Trial};

/// What was quicker goes on for so many verdicts, and for twice as many each time that it is again, up to a limit.
const SPAN: u32 = 65_536;

const LONGEST_SPAN: u32 = 16_777_216;

/// Behind each so many of them the clock is looked at, and behind so many nanoseconds a step may not have taken more than so
/// many parts of a hundred of a followed one's time.
const REVIEW: u32 = 256;

const DOUBT: u64 = 32_000_000;

const SLOWER: u64 = 125;

/// Behind a trial that failed, iterations are followed for so many times as long before the next one, twice as long each time.
const REST: u64 = 8;

/// Fewer iterations aren't worth a pipeline of the run plan.
const FEW: u32 = 16;

/// Behind such ones the plan goes on for twice as many verdicts as the last time, and for so many at most.
const LONGEST: u32 = 4_096;

/// How a region's iterations are followed.
#[derive(Clone, Copy, PartialEq, Eq)]
pub(crate) enum Way {
    /// By the one-stage form of its plan.
    OneStage,
    /// By a plan that keeps inner loops whole.
    WholeLoops,
}

/// What is known of a region's speed, and what comes of it: iterations are followed for a while, then so many verdicts of the
/// plan come, and so on. Where the plan's units may have threads, following is timed at first, and the plan is tried behind it.
#[derive(Drop)]
pub(crate) struct Choice {
    /// Whether the plan may be quicker: its units have threads. Whether one of its stages has workers.
    may_try: bool,
    has_workers: bool,
    /// So many verdicts of the plan come before iterations are followed.
    to_take: u32,
    /// So many come behind the next epoch that is left early.
    next_take: u32,
    /// What was followed since the last trial, and whether that was enough.
    timed: Timed,
    enough: bool,
    /// How quick that was, by which the plan is judged.
    alone: Pace,
    /// The plan is tried, or was found quicker, and how quick it is since then.
    trial: Option<Trial>,
    quicker: bool,
    watch: Stopwatch,
    /// For how many verdicts it goes on where it is found quicker, and how long iterations are followed where it isn't.
    span: u32,
    rest: u64,
}

impl Choice {
    /// Of a region of which nothing is known.
    pub(crate) fn new(may_try: bool, has_workers: bool) -> Choice {
        Choice {
            may_try,
            has_workers,
            to_take: 0,
            next_take: 1,
            timed: Timed::nothing(),
            enough: false,
            alone: Pace::unknown(),
            trial: None,
            quicker: false,
            watch: Stopwatch::start(0, 0),
            span: SPAN,
            rest: REST,
        }
    }

    /// Whether iterations are followed in this way now.
    pub(crate) fn follows(&self, way: Way) -> bool {
        match way {
            Way::OneStage => self.to_take == 0,
            Way::WholeLoops => self.to_take > 1,
        }
    }

    /// Whether the plan is tried now, by the clock.
    pub(crate) fn is_trying(&self) -> bool {
        self.trial.is_some()
    }

    /// An epoch begins now, in this way of following or by the region's own plan, where so many steps were made. One of the
    /// run plan is timed: anew, where what was quicker went on for long enough.
    pub(crate) fn begin(&mut self, way: Option<Way>, now: u64, steps: u64) {
        if let Some(Way::OneStage) = way {
            if self.quicker {
                self.quicker = false;
                self.timed = Timed::nothing();
            }
            self.enough = false;
            self.timed.begin(now, steps);
        }
    }

    /// One more iteration was followed.
    pub(crate) fn follow(&mut self) {
        self.timed.follow();
    }

    /// Whether the clock is to be looked at.
    pub(crate) fn looks(&self) -> bool {
        self.may_try && self.timed.looks()
    }

    /// Looks whether the plan is to be tried.
    pub(crate) fn look(&mut self, now: u64, steps: u64) {
        self.timed.look(now, steps, self.has_workers);
        self.enough = self.is_enough(now, steps);
    }

    fn is_enough(&self, now: u64, steps: u64) -> bool {
        self.may_try && self.timed.is_enough(now, steps)
    }

    /// Whether the next iteration is followed.
    pub(crate) fn follows_on(&self) -> bool {
        !self.enough
    }

    /// The epoch is over now. Behind one of the run plan at least one verdict of the plan comes.
    pub(crate) fn end(&mut self, way: Option<Way>, now: u64, steps: u64) {
        if let Some(Way::OneStage) = way {
            let enough = self.is_enough(now, steps);
            self.timed.end(now, steps);
            if enough {
                self.alone = self.timed.pace();
                self.trial = Some(Trial::begin(now, steps, self.timed.percent()));
                self.next_take = 1;
                self.to_take = self.span;
            } else {
                self.end_early();
            }
        }
    }

    /// An epoch of the run plan ended before it was long enough.
    fn end_early(&mut self) {
        self.to_take = 1;
        if self.timed.here() < FEW {
            self.to_take = self.next_take;
            self.next_take = self.next_take.saturating_mul(2).min(LONGEST);
        } else {
            self.next_take = 1;
        }
    }

    /// One more verdict of the plan came. Whether its epoch goes on.
    pub(crate) fn takes_on(&mut self) -> bool {
        self.to_take = self.to_take.saturating_sub(1);
        self.to_take > 0
    }

    /// Whether it is to be looked whether the plan is quicker still.
    pub(crate) fn doubts(&self) -> bool {
        self.quicker && self.to_take % REVIEW == 0
    }

    /// Looks whether the plan was quicker for long enough.
    pub(crate) fn review(&mut self, now: u64, steps: u64) {
        let passed = self.watch.passed(now);
        if passed < DOUBT {
            return;
        }
        if self.watch.pace(now, steps).takes_less(SLOWER, self.alone) {
            self.watch = Stopwatch::start(now, steps);
        } else {
            self.fail(passed);
        }
    }

    /// One more verdict of a trial came now. Whether its epoch goes on.
    pub(crate) fn tries_on(&mut self, now: u64, steps: u64) -> bool {
        if let Some(trial) = &mut self.trial {
            let shown = trial.take(now, steps, self.alone);
            let passed = trial.passed(now);
            match shown {
                Shown::Nothing => {}
                Shown::Quicker => self.succeed(now, steps),
                Shown::Slower => self.fail(passed),
            }
        }
        self.takes_on()
    }

    /// The plan is quicker, and goes on.
    fn succeed(&mut self, now: u64, steps: u64) {
        self.trial = None;
        self.quicker = true;
        self.watch = Stopwatch::start(now, steps);
        self.span = self.span.saturating_mul(2).min(LONGEST_SPAN);
        self.rest = REST;
    }

    /// The plan wasn't quicker, in so many nanoseconds: iterations are followed for a while.
    fn fail(&mut self, tried: u64) {
        self.trial = None;
        self.quicker = false;
        self.timed = Timed::resting(tried.saturating_mul(self.rest));
        self.to_take = 1;
        self.span = SPAN;
        self.rest = self.rest.saturating_mul(2);
    }
}
