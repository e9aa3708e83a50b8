//! How long the caller awaits an epoch's verdicts alone.
use crate::choosing::Way;
use crate::clock::nanoseconds;
use std::time::Clock;

/// So many verdicts of an epoch the caller awaits alone: an epoch that breaks early isn't worth waking threads for.
const ALONE: u32 = 256;

/// .. and for so many nanoseconds at most, by a clock that is looked at behind the first few, and each time that they are twice as many.
const PATIENCE: u64 = 200_000;

const FEW: u32 = 4;

/// In one stage they are more: where iterations are heavy, more stages are tried by then.
const IN_ONE_STAGE: u64 = 500_000;

/// The verdicts of the epoch under way that were awaited.
#[derive(Clone, Copy)]
pub(crate) struct Awaited {
    count: u32,
    since: u64,
    patience: u64,
}

impl Awaited {
    /// None, in no epoch.
    pub(crate) fn none() -> Awaited {
        Awaited {
            count: 0,
            since: 0,
            patience: PATIENCE,
        }
    }

    /// An epoch begins now, in this way of following or by the region's own plan. Where it is tried, its units go to the
    /// threads at once.
    pub(crate) fn begin(way: Option<Way>, is_trying: bool, now: u64) -> Awaited {
        let patience = match way {
            Some(Way::OneStage) => IN_ONE_STAGE,
            Some(Way::WholeLoops) | None => PATIENCE,
        };
        Awaited {
            count: if is_trying { ALONE } else { 0 },
            since: now,
            patience,
        }
    }

    /// One more verdict is awaited. Whether the caller was alone until now, and isn't from here on.
    pub(crate) fn hands_over<C: Clock>(&mut self, clock: &C) -> bool {
        if self.is_patient_no_more(clock) {
            self.count = ALONE;
        }
        let hands_over = self.count == ALONE;
        self.count = self.count.saturating_add(1);
        hands_over
    }

    /// The caller has awaited verdicts alone for long.
    fn is_patient_no_more<C: Clock>(&self, clock: &C) -> bool {
        let looks = self.count >= FEW && self.count < ALONE && self.count.is_power_of_two();
        looks && nanoseconds(clock).saturating_sub(self.since) >= self.patience
    }

    /// Whether the epoch's units went to the threads.
    pub(crate) fn is_handed_over(self) -> bool {
        self.count > ALONE
    }
}
