//! How quick something is, by the source's steps: iterations may differ in what they do.

/// So many steps were made in so many nanoseconds.
#[derive(Clone, Copy)]
pub(crate) struct Pace {
    steps: u64,
    nanoseconds: u64,
}

impl Pace {
    /// Nothing was timed.
    pub(crate) fn unknown() -> Pace {
        Pace {
            steps: 0,
            nanoseconds: 0,
        }
    }

    /// Both together.
    pub(crate) fn and(self, more: Pace) -> Pace {
        Pace {
            steps: self.steps.saturating_add(more.steps),
            nanoseconds: self.nanoseconds.saturating_add(more.nanoseconds),
        }
    }

    /// Whether a step took less than so many parts of a hundred of the other's time. That isn't so of an unknown pace, nor beside one.
    pub(crate) fn takes_less(self, percent: u64, other: Pace) -> bool {
        let own = self.nanoseconds.saturating_mul(other.steps);
        own.saturating_mul(100)
            < other
                .nanoseconds
                .saturating_mul(self.steps)
                .saturating_mul(percent)
    }

    /// This or the other one, whichever is quicker; this where the other is unknown.
    pub(crate) fn or_quicker(self, other: Pace) -> Pace {
        if other.takes_less(100, self) {
            other
        } else {
            self
        }
    }

    /// How long it took.
    pub(crate) fn nanoseconds(self) -> u64 {
        self.nanoseconds
    }
}

/// Times what is run from some moment on.
#[derive(Clone, Copy)]
pub(crate) struct Stopwatch {
    since: u64,
    steps: u64,
}

impl Stopwatch {
    /// From now on, where so many steps were made.
    pub(crate) fn start(now: u64, steps: u64) -> Stopwatch {
        Stopwatch { since: now, steps }
    }

    /// What was run until now, where so many steps were made.
    pub(crate) fn pace(self, now: u64, steps: u64) -> Pace {
        Pace {
            steps: self.made(steps),
            nanoseconds: now.saturating_sub(self.since),
        }
    }

    /// How many steps were made since then, where so many are by now.
    pub(crate) fn made(self, steps: u64) -> u64 {
        steps.saturating_sub(self.steps)
    }

    /// For how long it has been running.
    pub(crate) fn passed(self, now: u64) -> u64 {
        now.saturating_sub(self.since)
    }
}
