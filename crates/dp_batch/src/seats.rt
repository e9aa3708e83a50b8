//! How many runs go on at once.

use std::sync::{Condvar, Mutex, Wait};

/// So many runs may go on at once as there are seats: each takes one first, and gives it back at its end.
#[derive(Drop)]
pub(crate) struct Seats {
    free: Mutex<usize>,
    freed: Condvar,
}

impl Seats {
    /// So many, of which none is taken.
    pub(crate) fn new(count: usize) -> Seats {
        Seats {
            free: Mutex::new(count),
            freed: Condvar::new(),
        }
    }

    /// Takes a seat, once one is free.
    pub(crate) fn take<R: Wait>(&self, rt: &R) {
        let mut free = self
            .freed
            .wait_while(rt, self.free.lock(rt), |free| *free == 0);
        *free -= 1;
    }

    /// Gives a seat back.
    pub(crate) fn give_back<R: Wait>(&self, rt: &R) {
        let mut free = self.free.lock(rt);
        *free = free.saturating_add(1);
        drop(free);
        self.freed.notify_one();
    }
}
