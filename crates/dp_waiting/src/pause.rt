//! How a thread waits for the threads beside it.
ghost use Rattle.std.specs.Prelude.{◌≡◌, ◌<◌, ◌⊎◌};

use crate::bell::{Bell, ring_all};
use crate::beside::{after, before};
use crate::patience::Patience;
use crossbeam_utils::Backoff;
use std::sync::Wait;
use std::time::Clock;

/// So often a thread spins before it lets others run.
const SPINS: u32 = 4;

/// The threads beside are woken once for so many iterations.
const ITERATIONS: u32 = 32;

/// Workers of one stage take from one side of a ring together, so that each wakes the threads beside sooner.
const WORKERS_ITERATIONS: u32 = 16;

/// The waiting of one thread between two polls. A thread that waits long sleeps.
#[derive(Drop)]
pub struct Pause<'b> {
    /// What wakes the thread. Without it nobody does, and it never sleeps.
    own: Option<&'b Bell>,
    /// What wakes the threads that it takes from.
    before: &'b [Bell],
    /// What wakes the threads that it sends to.
    after: &'b [Bell],
    backoff: Backoff,
    patience: Patience,
    /// Its own bell is awaited.
    is_awaiting: bool,
    /// How often it spun since an item moved.
    pauses: u32,
    /// How many items moved since the threads beside were rung.
    items: u32,
    /// At so many they are rung.
    most: u32,
}

impl<'b> Pause<'b> {
    /// The waiting of the thread whose bell stands at this place.
    pub fn at(bells: &'b [Bell], place: usize) -> Pause<'b>
        ensures { (result.pauses ≡ 0) × (result.items ≡ 0) }
    {
        let own = bells.get(place);
        Pause {
            own,
            before: before(bells, place),
            after: after(bells, place),
            backoff: Backoff::new(),
            patience: Patience::new(together_in(own)),
            is_awaiting: false,
            pauses: 0,
            items: 0,
            most: most_of(own),
        }
    }

    /// An item moved.
    pub fn moved(&mut self)
        ensures pauses { self.new.pauses ≡ 0 }
        ensures items { (self.new.items ≡ 0) ⊎ (self.new.items < self.new.most) }
        ensures most { self.new.most ≡ self.old.most }
    {
        self.wake();
        self.patience.earn();
        self.items = self.items.saturating_add(1);
        if self.items >= self.most {
            self.ring();
        }
    }

    /// Nothing moved. At first the thread spins, a little longer each time, and then it lets others run, as long as that is
    /// quick. Then it lets one more poll pass with its bell awaited, so that it is rung for what comes behind that poll, and
    /// sleeps.
    pub fn wait<R: Wait + Clock>(&mut self, rt: &R)
        ensures items { self.new.items ≡ 0 }
        ensures most { self.new.most ≡ self.old.most }
    {
        self.tell();
        if let Some(bell) = self.idle(rt) {
            bell.sleep(rt);
            self.wake();
        }
    }

    /// Nothing is there to poll. It waits as above, but sleeps until it is rung: nothing comes to the thread without a ring.
    pub fn rest<R: Wait + Clock>(&mut self, rt: &R)
        ensures { (self.new.items ≡ self.old.items) × (self.new.most ≡ self.old.most) }
    {
        if let Some(bell) = self.idle(rt) {
            bell.rest(rt);
            self.wake();
        }
    }

    /// There is something to poll again.
    pub fn begin(&mut self)
        ensures pauses { self.new.pauses ≡ 0 }
        ensures items { (self.new.items ≡ self.old.items) × (self.new.most ≡ self.old.most) }
    {
        self.wake();
    }

    /// Wakes the threads beside.
    pub fn ring(&mut self)
        ensures items { self.new.items ≡ 0 }
        ensures rest { (self.new.pauses ≡ self.old.pauses) × (self.new.most ≡ self.old.most) }
    {
        self.items = 0;
        ring_all(self.before);
        ring_all(self.after);
    }

    /// Wakes the threads beside, if an item moved since they were rung.
    fn tell(&mut self)
        ensures items { self.new.items ≡ 0 }
        ensures most { self.new.most ≡ self.old.most }
    {
        if self.items > 0 {
            self.ring();
        }
    }

    /// One turn without work: it spins, or lets others run, or awaits its bell. The bell that it sleeps by, where it did all that.
    fn idle<C: Clock>(&mut self, clock: &C) -> Option<&'b Bell>
        ensures { (self.new.items ≡ self.old.items) × (self.new.most ≡ self.old.most) }
    {
        let Some(bell) = self.own else {
            self.backoff.snooze();
            return None;
        };
        if self.pauses < SPINS {
            self.pauses += 1;
            self.backoff.spin();
            None
        } else if self.patience.give_way(clock) {
            None
        } else if self.is_awaiting {
            Some(bell)
        } else {
            self.is_awaiting = true;
            self.patience.rest();
            bell.await_ring();
            None
        }
    }

    /// The thread is at work again.
    fn wake(&mut self)
        ensures pauses { self.new.pauses ≡ 0 }
        ensures items { (self.new.items ≡ self.old.items) × (self.new.most ≡ self.old.most) }
    {
        if self.pauses == 0 {
            return;
        }
        if self.is_awaiting {
            self.is_awaiting = false;
            if let Some(bell) = self.own {
                bell.leave();
            }
        }
        self.pauses = 0;
        self.backoff.reset();
    }
}

/// How many iterations go together in an item at most, where that is known.
fn together_in(own: Option<&Bell>) -> u32 {
    match own {
        Some(bell) => bell.together(),
        None => 1,
    }
}

/// How many items move until the threads beside are woken: one at least.
fn most_of(own: Option<&Bell>) -> u32 {
    let iterations = match own {
        Some(bell) if bell.is_workers() => WORKERS_ITERATIONS,
        Some(_) | None => ITERATIONS,
    };
    match iterations.checked_div(together_in(own)) {
        Some(items) => items.max(1),
        None => iterations,
    }
}
