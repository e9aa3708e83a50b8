//! Some cells, each once.
ghost use Rattle.std.specs.Prelude.{◌≡◌, ℕ, [], false, replicate, slice_set, IfOk, OnErr, OnOk, IsPermutation};
ghost use Rattle.std.specs.List.Sorted.{IsNonDecreasing};
ghost use Rattle.dp_view.specs.Marked as definition;

use dp_base::{NoMemory, Row};
use dp_meaning::Effect;
use std::alloc::Global;
use std::marker::Model;

/// Some of a memory's cells, each once, with a flag for each cell of the memory.
#[derive(Drop)]
pub(crate) struct Marks {
    flags: Row<bool>,
    cells: Vec<usize>,
}

impl Model for Marks {
    ghost use Rattle.std.specs.Prelude.{◌≡◌, ℕ, false, get_or, length};
    ghost use Rattle.dp_plan.specs.Written.{has};
    ghost use Rattle.dp_view.specs.Marked.{Marked};

    ghost Value = { Marked };

    ghost view = { λ m. record { size = length m.flags; cells = m.cells.items } };

    ghost invariant = { λ m. (c : ℕ) → get_or m.flags c false ≡ has c m.cells.items };
}

/// A flag is set so, if there is one.
#[tactic(auto, using(dp_room::proofs::ListLemmas::stores))]
fn put(flags: &mut Row<bool>, cell: usize, flag: bool)
    ensures { flags.new ≡ slice_set flags.old cell flag }
{
    if cell < flags.len() {
        flags.set(cell, flag);
    }
}

/// The flags of these cells aren't set any more.
fn unset(flags: &mut Row<bool>, cells: &[usize])
    ensures { flags.new ≡ definition.unset cells.now flags.old }
{
    for cell in cells {
        put(flags, *cell, false);
    }
}

/// So many flags that aren't set.
fn flags(alloc: Global, size: usize) -> Result<Row<bool>, NoMemory>
    ensures { IfOk result (λ flags. flags ≡ replicate size false) }
{
    let mut flags = Vec::new(alloc);
    flags.resize(size, false)?;
    Ok(Row::from_vec(flags))
}

impl Marks {
    /// None of so many cells.
    pub(crate) fn none(alloc: Global, size: usize) -> Result<Marks, NoMemory>
        ensures { IfOk result (λ marks. marks ≡ definition.none_marked size) }
    {
        let flags = flags(alloc, size)?;
        Ok(Marks {
            flags,
            cells: Vec::new(alloc),
        })
    }

    /// Marks a cell, if there is one of that number.
    pub(crate) fn mark(&mut self, cell: usize) -> Result<(), NoMemory>
        ensures ok { OnOk result (self.new ≡ definition.with_mark cell self.old) }
        ensures err { OnErr result (self.new ≡ self.old) }
    {
        match self.flags.get(cell) {
            Some(flag) if !*flag => {
                self.cells.push(cell)?;
                put(&mut self.flags, cell, true);
                Ok(())
            }
            _ => Ok(()),
        }
    }

    /// Marks the cell that an effect stores into, if it stores.
    pub(crate) fn mark_effect(&mut self, effect: Effect) -> Result<(), NoMemory>
        ensures ok { OnOk result (self.new ≡ definition.with_effect effect self.old) }
        ensures err { OnErr result (self.new ≡ self.old) }
    {
        match effect {
            Effect::Stored { cell, .. } => self.mark(cell),
            Effect::Printed(_) | Effect::Decided(_) | Effect::Tried(_) => Ok(()),
        }
    }

    /// No cell is marked any more. It takes the time of those that were.
    pub(crate) fn clear(&mut self)
        ensures { self.new ≡ definition.none_marked self.old.size }
    {
        unset(&mut self.flags, self.cells.as_slice());
        self.cells.clear();
    }

    /// The cells that are marked.
    pub(crate) fn cells(&self) -> &[usize]
        ensures { result.now ≡ self.now.cells }
    {
        self.cells.as_slice()
    }

    /// Puts the marked cells in ascending order.
    pub(crate) fn sort(&mut self)
        ensures size { self.new.size ≡ self.old.size }
        ensures same { IsPermutation self.old.cells self.new.cells }
        ensures ascending { IsNonDecreasing self.new.cells }
    {
        self.cells.sort_unstable();
    }
}
