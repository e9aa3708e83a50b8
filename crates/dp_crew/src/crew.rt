//! The threads that a region's units are handed to.
ghost use Rattle.std.specs.Prelude.{◌≡◌, true};

use crate::awaited::Awaited;
use crate::choosing::{Choice, Way};
use crate::clock::nanoseconds;
use crate::counting::Counts;
use crate::threads::start;
use crate::trays::{Tray, lay, to_hand};
use crate::work::Work;
use dp_commit::{Tally, Watch};
use dp_edge::Gate;
use dp_pipeline::LaneVerdicts;
use dp_stop::StopSetter;
use dp_waiting::{Bell, Pause, ring_all, ring_at};
use std::sync::Wait;
use std::thread::Scope;
use std::time::Clock;

/// A tray and a bell for each thread that a region may have, and the scope of these threads, which are started when units are
/// handed over for the first time.
pub(crate) struct Crew<'s, 'u, E, R, G> {
    scope: &'s Scope<'s, E>,
    rt: &'s R,
    gate: &'s G,
    trays: &'s [Tray<'u>],
    /// One for each tray, and one for the caller behind them; or none of these where the caller is alone.
    bells: &'u [Bell],
    /// How many of the first trays have no thread, and whether none can be started any more.
    alone: usize,
    refused: bool,
    /// How many verdicts of the epoch were awaited.
    awaited: Awaited,
    /// How many steps were made, as far as was told.
    steps: u64,
    /// Whether the region is run by a run plan, where it has one.
    choice: Choice,
    counts: Counts,
}

// By hand, so that it isn't proved again how all that is lent to it is dropped.
impl<'s, 'u, E, R, G> Drop for Crew<'s, 'u, E, R, G> {
    fn drop(self) {
        let Crew {
            scope: _,
            rt: _,
            gate: _,
            trays: _,
            bells: _,
            alone: _,
            refused: _,
            awaited: _,
            steps: _,
            choice: _,
            counts: _,
        } = self;
    }
}

impl<'s, 'u, E, R: Wait + Clock + Sync, G: Gate> Crew<'s, 'u, E, R, G> {
    /// A region begins. None of the threads is started.
    pub(crate) fn new<W: Watch>(
        work: Work<'u, '_>,
        scope: &'s Scope<'s, E>,
        rt: &'s R,
        gate: &'s G,
        trays: &'s [Tray<'u>],
        tally: &Tally<W>,
    ) -> Crew<'s, 'u, E, R, G> {
        Crew {
            scope,
            rt,
            gate,
            trays,
            bells: work.bells,
            alone: trays.len(),
            refused: false,
            awaited: Awaited::none(),
            steps: 0,
            choice: Choice::new(!work.bells.is_empty(), work.has_workers()),
            counts: Counts::new(tally, nanoseconds(rt)),
        }
    }

    /// What the threads run on.
    pub(crate) fn rt(&self) -> &'s R {
        self.rt
    }

    /// Whether the region's iterations are to be followed in this way now, if they may be.
    pub(crate) fn follows(&self, way: Way) -> bool {
        self.choice.follows(way)
    }

    /// An epoch of the region's own plan begins, or one in this way of following, where so many steps were made, and the
    /// caller is alone. Where the plan is tried, its units go to the threads at once.
    pub(crate) fn begin(&mut self, way: Option<Way>, steps: u64) {
        let now = nanoseconds(self.rt);
        self.steps = steps;
        self.counts.begin(way, now);
        self.choice.begin(way, now, steps);
        self.awaited = Awaited::begin(way, self.choice.is_trying(), now);
    }

    /// One more iteration was followed, and so many steps are made by now. Whether the next one is.
    pub(crate) fn follows_on(&mut self, way: Way, steps: u64) -> bool {
        self.steps = steps;
        self.counts.follow();
        match way {
            Way::OneStage => self.goes_on(),
            Way::WholeLoops => self.takes_on(),
        }
    }

    fn goes_on(&mut self) -> bool {
        self.choice.follow();
        if self.choice.looks() {
            self.choice.look(nanoseconds(self.rt), self.steps);
        }
        self.choice.follows_on()
    }

    /// One more iteration of the epoch is committed, and so many steps are made by now. Whether the epoch is left, if it may be.
    pub(crate) fn leaves(&mut self, may_leave: bool, steps: u64) -> bool
        ensures { result ≡ true → may_leave ≡ true }
    {
        self.steps = steps;
        may_leave && !self.takes_on()
    }

    fn takes_on(&mut self) -> bool {
        if self.choice.is_trying() {
            return self.choice.tries_on(nanoseconds(self.rt), self.steps);
        }
        if self.choice.doubts() {
            self.choice.review(nanoseconds(self.rt), self.steps);
        }
        self.choice.takes_on()
    }

    /// One more verdict of the epoch is awaited. Behind the first ones its units are handed to the threads.
    pub(crate) fn await_one(&mut self, verdicts: &mut LaneVerdicts<'u>)
        ensures { verdicts.new ≡ verdicts.old }
    {
        if self.awaited.hands_over(self.rt) {
            verdicts.wait_by(Pause::at(self.bells, self.trays.len()));
            self.hand_over(verdicts);
        }
    }

    /// Hands the units that have a thread over to it. The others stay with the verdicts, and so does the one that judges.
    fn hand_over(&mut self, verdicts: &mut LaneVerdicts<'u>)
        ensures { verdicts.new ≡ verdicts.old }
    {
        let handed = to_hand(verdicts);
        let alone = self.started(self.trays.len().saturating_sub(handed));
        self.hand_from(alone, verdicts);
    }

    /// Hands units to the threads of the trays from this one on, from the last one on.
    fn hand_from(&self, alone: usize, verdicts: &mut LaneVerdicts<'u>)
        ensures { verdicts.new ≡ verdicts.old }
    {
        let last = self.trays.len().saturating_sub(1);
        for done in alone..self.trays.len() {
            self.hand_last(last.saturating_sub(done.saturating_sub(alone)), verdicts);
        }
    }

    /// Starts the threads of the trays from this one on, as far as they aren't yet. Answers from which one on they have one.
    fn started(&mut self, first: usize) -> usize {
        for _ in first..self.alone {
            if self.refused {
                break;
            }
            let place = self.alone.saturating_sub(1);
            if start(
                self.scope, self.rt, self.trays, self.bells, place, self.gate,
            ) {
                self.alone = place;
            } else {
                self.refused = true;
            }
        }
        self.alone.max(first)
    }

    /// Hands the last unit over to the thread of its place. What lies in the tray still is of an epoch that is over, and is
    /// dropped.
    fn hand_last(&self, place: usize, verdicts: &mut LaneVerdicts<'u>)
        ensures { verdicts.new ≡ verdicts.old }
    {
        let Some(tray) = self.trays.get(place) else {
            return;
        };
        if let Some(unit) = verdicts.pop_unit() {
            drop(lay(self.rt, tray, Some(unit)));
            ring_at(self.bells, place);
        }
    }

    /// The epoch is over: its units that were handed over end.
    pub(crate) fn end(&mut self, way: Option<Way>, mut setter: StopSetter) {
        let now = nanoseconds(self.rt);
        self.counts.end(now);
        self.choice.end(way, now, self.steps);
        if self.awaited.is_handed_over() {
            setter.set(self.rt);
            ring_all(self.bells);
        }
    }

    /// Tells each thread that the region is over.
    pub(crate) fn dismiss(&self) {
        for bell in self.bells {
            bell.close();
        }
    }

    /// Tells by which plans the region was run.
    pub(crate) fn tell<W: Watch>(&self, region: u32, tally: &mut Tally<W>)
        ensures { tally.new ≡ tally.old }
    {
        let chosen = self.counts.all(tally, nanoseconds(self.rt));
        tally.chose(region, chosen);
    }
}
