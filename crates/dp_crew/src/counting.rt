//! By which plans a region's iterations are run, counted for those who ask. Nothing else depends on it.
use crate::choosing::Way;
use dp_commit::{Chosen, Ran, Tally, Watch};

/// What was run of a region so far.
#[derive(Drop)]
pub(crate) struct Counts {
    chosen: Chosen,
    /// What the tally had when the region began, and when that was.
    committed: u64,
    again: u64,
    begun: u64,
    /// By which plan the epoch under way is, or the last one was, if there was one: by its own with `None`.
    way: Option<Way>,
    any: bool,
    /// How many iterations of the epoch under way were followed, and since when it is.
    followed: u64,
    since: u64,
}

impl Counts {
    /// Of a region that begins now.
    pub(crate) fn new<W: Watch>(tally: &Tally<W>, now: u64) -> Counts {
        Counts {
            chosen: Chosen::nothing(),
            committed: tally.count(),
            again: tally.executed_again(),
            begun: now,
            way: None,
            any: false,
            followed: 0,
            since: now,
        }
    }

    /// An epoch begins now, in this way of following or by the region's own plan.
    pub(crate) fn begin(&mut self, way: Option<Way>, now: u64) {
        if self.any && self.way != way {
            self.chosen.switches = self.chosen.switches.saturating_add(1);
        }
        self.way = way;
        self.any = true;
        self.followed = 0;
        self.since = now;
    }

    /// One more iteration was followed.
    pub(crate) fn follow(&mut self) {
        self.followed = self.followed.saturating_add(1);
    }

    /// The epoch is over now.
    pub(crate) fn end(&mut self, now: u64) {
        let ran = Ran {
            iterations: self.followed,
            epochs: 1,
            nanoseconds: now.saturating_sub(self.since),
        };
        match self.way {
            Some(Way::OneStage) => self.chosen.one_stage = self.chosen.one_stage.and(ran),
            Some(Way::WholeLoops) => self.chosen.whole_loops = self.chosen.whole_loops.and(ran),
            None => self.chosen.own = self.chosen.own.and(ran),
        }
    }

    /// What was run of the region, which is over now. What wasn't followed was committed by its own plan.
    pub(crate) fn all<W: Watch>(&self, tally: &Tally<W>, now: u64) -> Chosen {
        let mut chosen = self.chosen;
        let committed = tally.count().saturating_sub(self.committed);
        chosen.own.iterations = committed
            .saturating_sub(chosen.one_stage.iterations)
            .saturating_sub(chosen.whole_loops.iterations);
        chosen.again = tally.executed_again().saturating_sub(self.again);
        chosen.nanoseconds = now.saturating_sub(self.begun);
        chosen
    }
}
