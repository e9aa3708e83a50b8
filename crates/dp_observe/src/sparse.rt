//! Lists that go on for ever.
ghost use Rattle.std.specs.Prelude.{◌≡◌, ℕ, if◌then◌else◌, ◌==◌, [], OnOk};

use dp_base::{NoMemory, Row};
use std::alloc::Global;

/// A list whose items are all the same from some place on. It keeps those before, so that it needs no more room than the
/// last item that was set.
#[derive(Drop)]
pub(crate) struct Sparse<T: Drop> {
    pub(crate) items: Row<T>,
    pub(crate) rest: T,
}

impl<T: Copy + Drop> Sparse<T> {
    ghost use Rattle.dp_observe.specs.Sparse.{at};

    /// The same item everywhere.
    pub(crate) fn new(alloc: Global, rest: T) -> Sparse<T>
        ensures { result ≡ record { items = []; rest = rest } }
    {
        Sparse {
            items: Row::new(alloc),
            rest,
        }
    }

    /// The item at a place, from 0.
    #[inline(always)]
    pub(crate) fn get(&self, place: usize) -> T
        ensures { result ≡ at self.now place }
    {
        match self.items.get(place) {
            Some(item) => *item,
            None => self.rest,
        }
    }

    /// Puts an item in the place of another.
    pub(crate) fn set(&mut self, place: usize, item: T) -> Result<(), NoMemory>
        ensures { OnOk result ((k : ℕ) → at self.new k ≡ (if k == place then item else at self.old k)) }
    {
        while self.items.len() <= place {
            self.items.push(self.rest)?;
        }
        self.items.set(place, item);
        Ok(())
    }
}
