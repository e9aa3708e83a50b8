//! A program's memory.
ghost use Rattle.std.specs.Prelude.{◌≡◌, ℤ, pos, ◌<◌, length, replicate, slice_get, slice_set, ◌==◌, Some, IfOk};

use crate::{CellId, NoMemory};
use std::alloc::Global;
use std::marker::Model;

/// A program's memory: one number of 64 bits for each cell. Contracts see it as the list of these numbers.
#[derive(Drop)]
pub struct Cells {
    alloc: Global,
    values: Vec<i64>,
}

impl Model for Cells {
    ghost use Rattle.std.specs.Prelude.{ℤ, List};
    ghost use Rattle.std.specs.Coded.{coded_list, coded_ℤ};

    ghost Value = { List ℤ };

    ghost coded = { coded_list coded_ℤ };

    ghost view = { λ cells. cells.values.items };
}

impl Cells {
    /// `len` cells that are all 0.
    pub fn new(alloc: Global, len: u32) -> Result<Cells, NoMemory>
        ensures { IfOk result (λ cells. cells ≡ replicate len (pos 0)) }
    {
        let mut values = Vec::new(alloc);
        values.resize(len as usize, 0)?;
        Ok(Cells { alloc, values })
    }

    /// Cells that hold these numbers.
    pub fn from_values(alloc: Global, values: Vec<i64>) -> Cells
        ensures { result ≡ values.items }
    {
        Cells { alloc, values }
    }

    /// The number in a cell. It takes no memory.
    pub fn get(&self, cell: CellId) -> i64
        requires { cell.0 < length self.now }
        ensures { slice_get self.now cell.0 ≡ Some result }
    {
        self.values[cell.0 as usize]
    }

    /// Puts a number into a cell, if there is one. It takes no memory.
    #[inline(always)]
    #[tactic(auto, using(dp_room::proofs::ListLemmas::stores))]
    pub fn set(&mut self, cell: CellId, value: i64)
        ensures { self.new ≡ slice_set self.old cell.0 value }
    {
        let place = cell.0 as usize;
        if place < self.values.len() {
            self.values[place] = value;
        }
    }

    /// Another memory with the same numbers, from the same allocator.
    pub fn copy(&self) -> Result<Cells, NoMemory>
        ensures { IfOk result (λ cells. cells ≡ self.now) }
    {
        let values = Vec::from_slice(self.alloc, self.values.as_slice())?;
        Ok(Cells {
            alloc: self.alloc,
            values,
        })
    }

    /// How many cells there are.
    pub fn len(&self) -> usize
        ensures { result ≡ length self.now }
    {
        self.values.len()
    }

    /// Whether there is no cell.
    pub fn is_empty(&self) -> bool
        ensures { result ≡ (length self.now == 0) }
    {
        self.values.is_empty()
    }

    /// The numbers of all cells, in order.
    pub fn as_slice(&self) -> &[i64]
        ensures { result.now ≡ self.now }
    {
        self.values.as_slice()
    }
}
