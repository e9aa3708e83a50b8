//! A copy of the committed memory, and what an iteration changed since.
ghost use Rattle.std.specs.Prelude.{◌≡◌, ◌<◌, ◌≤◌, ◌^◌, ◌++◌, ◌∷◌, [], ℕ, ℤ, pos, true, if◌then◌else◌, length, get_or, slice_set, IfOk, OnOk, OnErr};
ghost use Rattle.std.specs.List.{list_any};
ghost use Rattle.std.specs.List.Sorted.{IsNonDecreasing};
ghost use Rattle.dp_plan.specs.Written.{has};
ghost use Rattle.dp_semantics.specs.Seen.{is_local_cell};
ghost use Rattle.dp_log.specs.Changes.{set_from};
ghost use Rattle.dp_audit.specs.Copy.{IsCopy, changed_but, changes_but};

use crate::locals::locals_of;
use crate::order;
use dp_base::{CellId, Cells, NoMemory, Row};
use dp_log::SetOf;
use dp_tree::Program;
use std::alloc::Global;

/// A copy of the committed memory. The region's body locals, which no log lists, may differ in it.
#[derive(Drop)]
pub(crate) struct Known {
    /// The cells of the body locals, in ascending order.
    pub(crate) locals: Row<u32>,
    pub(crate) cells: Cells,
}

impl Known {
    /// A copy of this memory.
    pub(crate) fn begin(
        alloc: Global,
        p: &Program,
        region: u32,
        cells: &Cells,
    ) -> Result<Known, NoMemory>
        ensures ascending { IfOk result (λ known. IsNonDecreasing known.locals) }
        ensures locals { IfOk result (λ known. (c : ℕ) → has c known.locals ≡ list_any (is_local_cell region c) p.now.vars) }
        ensures cells { IfOk result (λ known. known.cells ≡ cells.now) }
    {
        let locals = locals_of(alloc, p, region)?;
        let cells = cells.copy()?;
        Ok(Known { locals, cells })
    }

    /// What an iteration changed that left this memory, where it changed no other cells than these. The copy becomes this
    /// memory.
    pub(crate) fn changes_among(
        &mut self,
        alloc: Global,
        now: &Cells,
        stored: Row<u32>,
    ) -> Result<Row<SetOf>, NoMemory>
        requires ascending { IsNonDecreasing self.old.locals }
        requires size { length self.old.cells ≡ length now.now }
        requires among { (c : ℕ) → changed_but self.old.locals self.old.cells now.now c ≡ true → has c stored ≡ true }
        ensures sets { IfOk result (λ sets. sets ≡ changes_but self.old.locals self.old.cells now.now) }
        ensures locals { OnOk result (self.new.locals ≡ self.old.locals) }
        ensures copy { OnOk result (IsCopy self.new now.now) }
    {
        let ordered = order::in_order(stored);
        let mut sets = Row::new(alloc);
        for cell in ordered.as_slice() {
            self.note(now, *cell, &mut sets)?;
        }
        Ok(sets)
    }

    /// What was changed where this memory was left. The copy becomes this memory.
    pub(crate) fn changes(&mut self, alloc: Global, now: &Cells) -> Result<Row<SetOf>, NoMemory>
        requires ascending { IsNonDecreasing self.old.locals }
        requires size { length self.old.cells ≡ length now.now }
        ensures sets { IfOk result (λ sets. sets ≡ changes_but self.old.locals self.old.cells now.now) }
        ensures locals { OnOk result (self.new.locals ≡ self.old.locals) }
        ensures copy { OnOk result (IsCopy self.new now.now) }
    {
        let count = cell_count(now)?;
        let mut sets = Row::new(alloc);
        for cell in 0..count {
            self.note(now, cell, &mut sets)?;
        }
        Ok(sets)
    }

    /// Appends the cell with its new value if it has changed, and changes the copy, too.
    fn note(&mut self, now: &Cells, cell: u32, sets: &mut Row<SetOf>) -> Result<(), NoMemory>
        requires ascending { IsNonDecreasing self.old.locals }
        ensures sets { OnOk result (sets.new ≡ (if changed_but self.old.locals self.old.cells now.now cell then sets.old ++ set_from now.now cell
            ∷ [] else sets.old)) }
        ensures cells { OnOk result (self.new.cells ≡ (if changed_but self.old.locals self.old.cells now.now cell then slice_set self.old.cells cell
            (get_or now.now cell (pos 0)) else self.old.cells)) }
        ensures locals { OnOk result (self.new.locals ≡ self.old.locals) }
    {
        if self.has_changed(now, cell) {
            let (cell, value) = (CellId(cell), value_at(now, cell));
            sets.push(SetOf { cell, value })?;
            self.cells.set(cell, value);
        }
        Ok(())
    }

    /// Whether the cell isn't that of a body local, and holds another value in this memory.
    fn has_changed(&self, now: &Cells, cell: u32) -> bool
        requires ascending { IsNonDecreasing self.now.locals }
        ensures { result ≡ changed_but self.now.locals self.now.cells now.now cell }
    {
        if value_at(&self.cells, cell) == value_at(now, cell) {
            return false;
        }
        !order::has(self.locals.as_slice(), cell)
    }
}

/// What the cell holds, or 0 where there is none.
fn value_at(cells: &Cells, cell: u32) -> i64
    ensures { result ≡ get_or cells.now cell (pos 0) }
{
    match cells.as_slice().get(cell as usize) {
        Some(value) => *value,
        None => 0,
    }
}

/// How many cells there are, or want of memory where that has more than 32 bits.
fn cell_count(cells: &Cells) -> Result<u32, NoMemory>
    ensures count { IfOk result (λ count. count ≡ length cells.now) }
    ensures wanting { OnErr result (2 ^ 32 ≤ length cells.now) }
{
    match u32::try_from(cells.len()) {
        Ok(count) => Ok(count),
        Err(_) => Err(NoMemory),
    }
}
