//! What an iteration's judging collects, and what brings the memory back.
ghost use Rattle.std.specs.Prelude.{◌≡◌, ◌∷◌, [], get_or, map, pos, slice_set, true, OnOk, OnErr};
ghost use Rattle.dp_tree.specs.Step.{Stored};
ghost use Rattle.dp_columns.specs.Paired.{pairs_of, as_store};
ghost use Rattle.dp_lean_judge.specs.Collecting.{Grows, StoresDone, SameBefore, undone};

use dp_base::{CellId, Cells, NoMemory, Row, StoreOf};
use dp_engine::Memory;
use std::alloc::Global;

/// What is collected of iterations, one behind the other, and what brings back the memory before the last one. The rows keep their room.
pub struct Collected {
    /// The stores, in the source's order.
    pub stores: Row<StoreOf>,
    /// The printed numbers, in the source's order.
    pub prints: Row<i64>,
    /// What each stored cell held before, in order.
    pub before: Row<StoreOf>,
}

// By hand, so that a crate above doesn't prove again how its rows are dropped.
impl Drop for Collected {
    fn drop(self) {
        let Collected {
            stores: _,
            prints: _,
            before: _,
        } = self;
    }
}

/// A value is stored, and what the cell held before is noted.
#[inline(always)]
fn replace(
    cells: &mut Cells,
    before: &mut Row<StoreOf>,
    cell: u32,
    value: i64,
) -> Result<(), NoMemory>
    ensures memory { OnOk result (cells.new ≡ slice_set cells.old cell value) }
    ensures before { undone before.new cells.new ≡ undone before.old cells.old }
{
    before.push(StoreOf {
        cell: CellId(cell),
        value: cells.load(cell),
    })?;
    cells.set(CellId(cell), value);
    Ok(())
}

/// A value is stored, where something is compared with the memory.
#[inline(always)]
fn replace_compared(
    compares: bool,
    cells: &mut Cells,
    before: &mut Row<StoreOf>,
    cell: u32,
    value: i64,
) -> Result<(), NoMemory>
    ensures memory { OnOk result (compares ≡ true → cells.new ≡ slice_set cells.old cell value) }
    ensures before { undone before.new cells.new ≡ undone before.old cells.old }
{
    if compares {
        replace(cells, before, cell, value)
    } else {
        Ok(())
    }
}

impl Collected {
    /// Nothing. It takes no memory until something is collected.
    pub fn new(alloc: Global) -> Collected
        ensures { result ≡ record { stores = []; prints = []; before = [] } }
    {
        Collected {
            stores: Row::new(alloc),
            prints: Row::new(alloc),
            before: Row::new(alloc),
        }
    }

    /// Nothing. The room stays.
    pub fn clear(&mut self)
        ensures { self.new ≡ record { stores = []; prints = []; before = [] } }
    {
        self.stores.clear();
        self.prints.clear();
        self.before.clear();
    }

    /// An iteration begins: what is collected of it comes behind this, and the memory is brought back to what it is now.
    pub(crate) fn begin(&mut self)
        ensures { self.new ≡ record { stores = self.old.stores; prints = self.old.prints; before = [] } }
    {
        self.before.clear();
    }

    /// A store that a site told.
    #[inline(always)]
    pub(crate) fn store(
        &mut self,
        compares: bool,
        cells: &mut Cells,
        cell: u32,
        value: i64,
    ) -> Result<(), NoMemory>
        ensures stores { OnOk result (StoresDone compares (Stored cell value ∷ []) cells.old self.old cells.new self.new) }
        ensures before { SameBefore cells.old self.old cells.new self.new }
        ensures grows { Grows self.old self.new }
    {
        replace_compared(compares, cells, &mut self.before, cell, value)?;
        self.stores.push(StoreOf {
            cell: CellId(cell),
            value,
        })
    }

    /// The stores of a block, in cells and values.
    pub(crate) fn store_all(
        &mut self,
        compares: bool,
        cells: &mut Cells,
        stored: &[u32],
        values: &[i64],
    ) -> Result<(), NoMemory>
        ensures stores { OnOk result (StoresDone compares (map as_store (pairs_of stored.now values.now)) cells.old self.old cells.new self.new) }
        ensures before { SameBefore cells.old self.old cells.new self.new }
        ensures grows { Grows self.old self.new }
    {
        for (cell, value) in stored.iter().zip(values.iter()) {
            self.store(compares, cells, *cell, *value)?;
        }
        Ok(())
    }

    /// The memory is again what it was before the iteration.
    pub fn undo(&mut self, cells: &mut Cells)
        ensures cells { cells.new ≡ undone self.old.before cells.old }
        ensures stores { self.new.stores ≡ self.old.stores }
        ensures prints { self.new.prints ≡ self.old.prints }
        ensures before { self.new.before ≡ [] }
    {
        while let Some(store) = self.before.pop() {
            cells.set(store.cell, store.value);
        }
    }
}
