//! What wakes a thread.
ghost use Rattle.std.specs.Prelude.{◌≡◌};

use std::sync::Wait;
use std::sync::atomic::{AtomicBool, Ordering};
use std::thread::Parker;
use std::time::Duration;

/// So many milliseconds a thread sleeps where nobody rings.
const SLEEP: u64 = 1;

/// One thread sleeps by it, and others ring it where there may be something to do for that thread.
pub struct Bell {
    /// The thread's unit is a worker of a replicated stage.
    is_workers: bool,
    /// So many iterations go together in an item at most.
    together: u32,
    is_awaited: AtomicBool,
    /// Nothing more comes for the thread.
    is_over: AtomicBool,
    parker: Parker,
}

// By hand, so that a crate above doesn't prove again how all that it holds is dropped.
impl Drop for Bell {
    fn drop(self) {
        let Bell {
            is_workers: _,
            together: _,
            is_awaited: _,
            is_over: _,
            parker: _,
        } = self;
    }
}

impl Bell {
    /// A bell that nobody awaits, of a thread whose items are of so many iterations at most.
    pub fn new(is_workers: bool, together: u32) -> Bell {
        Bell {
            is_workers,
            together,
            is_awaited: AtomicBool::new(false),
            is_over: AtomicBool::new(false),
            parker: Parker::new(),
        }
    }

    pub(crate) fn is_workers(&self) -> bool
        ensures { result ≡ self.now.is_workers }
    {
        self.is_workers
    }

    pub(crate) fn together(&self) -> u32
        ensures { result ≡ self.now.together }
    {
        self.together
    }

    /// Wakes the thread, if it sleeps or is about to.
    pub fn ring(&self) {
        if self.is_awaited.load(Ordering::SeqCst) {
            self.parker.unpark();
        }
    }

    /// Tells the thread that nothing more comes for it, and wakes it.
    pub fn close(&self) {
        self.is_over.store(true, Ordering::SeqCst);
        self.ring();
    }

    /// Whether nothing more comes. What was done in front of the closing is seen by who has seen this.
    pub fn is_over(&self) -> bool {
        self.is_over.load(Ordering::SeqCst)
    }

    /// From now on a ring ends the thread's next sleep.
    pub(crate) fn await_ring(&self) {
        self.is_awaited.store(true, Ordering::SeqCst);
    }

    /// The thread is at work again.
    pub(crate) fn leave(&self) {
        self.is_awaited.store(false, Ordering::SeqCst);
    }

    /// Sleeps until it rings.
    pub(crate) fn rest<R: Wait>(&self, rt: &R) {
        self.parker.park(rt);
    }

    /// Sleeps until it rings, and a millisecond at most.
    pub(crate) fn sleep<R: Wait>(&self, rt: &R) {
        self.parker.park_timeout(rt, Duration::from_millis(SLEEP));
    }
}

/// Wakes the threads of these bells.
pub fn ring_all(bells: &[Bell]) {
    for bell in bells {
        bell.ring();
    }
}

/// Wakes the thread of the bell at this place.
pub fn ring_at(bells: &[Bell], place: usize) {
    if let Some(bell) = bells.get(place) {
        bell.ring();
    }
}
