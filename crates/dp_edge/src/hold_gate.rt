//! A gate for tests, which shows that stages overlap.
ghost use Rattle.std.specs.Prelude.{◌≡◌};

use crate::gate::Gate;
use std::sync::atomic::{AtomicBool, Ordering};
use std::thread;

/// Holds one entry until another one has come, for at most a stated number of turns, and notes whether it came.
#[derive(Drop)]
pub struct HoldGate {
    held: (u32, u64),
    awaited: (u32, u64),
    turns: u64,
    entered: AtomicBool,
    came: AtomicBool,
}

impl HoldGate {
    /// Entries are named by their stage, from 1, and their iteration, from 0. In each turn the held entry yields once.
    pub fn new(held: (u32, u64), awaited: (u32, u64), turns: u64) -> HoldGate
        ensures { (result.held ≡ held) × (result.awaited ≡ awaited) × (result.turns ≡ turns) }
    {
        HoldGate {
            held,
            awaited,
            turns,
            entered: AtomicBool::new(false),
            came: AtomicBool::new(false),
        }
    }

    /// Whether the held entry found that the awaited one had come.
    pub fn came(&self) -> bool {
        self.came.load(Ordering::SeqCst)
    }

    fn hold(&self) {
        for _ in 0..self.turns {
            if self.entered.load(Ordering::SeqCst) {
                self.came.store(true, Ordering::SeqCst);
                return;
            }
            thread::yield_now();
        }
    }
}

impl Gate for HoldGate {
    fn enter(&self, stage: u32, iteration: u64) {
        if (stage, iteration) == self.awaited {
            self.entered.store(true, Ordering::SeqCst);
        }
        if (stage, iteration) == self.held {
            self.hold();
        }
    }
}
