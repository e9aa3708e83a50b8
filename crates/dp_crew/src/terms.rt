//! On which terms a region's plan is tried: how long its iterations are followed before, by how heavy they are.

/// Iterations of so many steps are heavy, and ones of fewer than so many are light.
const HEAVY: u64 = 40;

const LIGHT: u64 = 20;

/// On which terms iterations are followed before the plan is tried.
#[derive(Clone, Copy)]
pub(crate) struct Terms {
    /// So many are, or fewer, but some, once they have taken so many nanoseconds.
    pub(crate) iterations: u32,
    pub(crate) some: u32,
    pub(crate) nanoseconds: u64,
    /// The first so many nanoseconds of an epoch aren't timed, unless it has taken long by then.
    pub(crate) settling: u64,
    /// The plan is quicker where a step takes less than so many parts of a hundred of a followed one's time.
    pub(crate) percent: u64,
}

/// Where a trial is likely to show that the plan is quicker. What is timed by then is little, so it has to be quicker by more.
const SOON: Terms = Terms {
    iterations: u32::MAX,
    some: 8,
    nanoseconds: 300_000,
    settling: 100_000,
    percent: 80,
};

const USUAL: Terms = Terms {
    iterations: 4_096,
    some: 1,
    nanoseconds: 5_000_000,
    settling: 500_000,
    percent: 90,
};

/// Where a trial takes longer than many iterations, and is likely to show nothing.
const LATE: Terms = Terms {
    iterations: 65_536,
    some: 1,
    nanoseconds: 20_000_000,
    settling: 500_000,
    percent: 90,
};

impl Terms {
    /// Before anything is known of them.
    pub(crate) fn usual() -> Terms {
        USUAL
    }

    /// Of so many iterations with so many steps together, by whether a stage of the plan has workers: without them, and where iterations
    /// are light, it is seldom quicker.
    pub(crate) fn of(steps: u64, iterations: u32, has_workers: bool) -> Terms {
        let each = steps.checked_div(u64::from(iterations)).unwrap_or(0);
        if !has_workers || each < LIGHT {
            LATE
        } else if each < HEAVY {
            USUAL
        } else {
            SOON
        }
    }

    /// Behind a trial that failed: so many nanoseconds have to pass, or the usual ones.
    pub(crate) fn resting(nanoseconds: u64) -> Terms {
        Terms {
            iterations: u32::MAX,
            nanoseconds: nanoseconds.max(USUAL.nanoseconds),
            ..USUAL
        }
    }
}
