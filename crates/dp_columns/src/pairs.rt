//! Cells with a value each, in two rows.
ghost use Rattle.std.specs.Prelude.{◌≡◌, ◌++◌, ◌∷◌, ◌<◌, ◌≤◌, [], List, length, map, ◌-◌, take, drop, slice_get, Some, MatchOption, OnOk, OnErr};
ghost use Rattle.dp_tree.specs.Eval.{Load};
ghost use Rattle.dp_columns.specs.Paired.{pairs_of, pair_load};
ghost use Rattle.dp_columns.specs.Lent.{IsPart};

use crate::Pair;
use dp_room::{NoMemory, Row};
use std::alloc::Global;
use std::marker::Model;

/// Cells with a value each. Contracts see them as loads.
#[derive(Drop)]
pub(crate) struct Pairs {
    cells: Row<u32>,
    values: Row<i64>,
}

/// Some of them, lent.
#[derive(Clone, Copy)]
pub(crate) struct Part<'p> {
    pub(crate) cells: &'p [u32],
    pub(crate) values: &'p [i64],
}

impl Model for Pairs {
    ghost use Rattle.std.specs.Prelude.{◌≡◌, List, length};
    ghost use Rattle.dp_tree.specs.Eval.{Load};
    ghost use Rattle.dp_columns.specs.Paired.{pairs_of};

    ghost Value = { List Load };

    ghost view = { λ pairs. pairs_of pairs.cells pairs.values };

    ghost invariant = { λ pairs. length pairs.cells ≡ length pairs.values };
}

/// The cells are so many again.
#[cold]
#[inline(never)]
fn shortened(cells: &mut Row<u32>, len: usize) -> Result<(), NoMemory>
    ensures fails { OnOk result ⊥ }
    ensures is { cells.new ≡ take len cells.old }
{
    cells.truncate(len);
    Err(NoMemory)
}

/// The value at a place.
#[inline(always)]
pub(crate) fn value_at(values: &[i64], at: usize) -> i64
    requires { at < length values.now }
    ensures { slice_get values.now at ≡ Some result }
{
    values[at]
}

/// The same places of both.
#[inline(always)]
fn part_of<'p>(cells: &'p [u32], values: &'p [i64], from: usize, to: usize) -> Part<'p>
    requires order { from ≤ to }
    requires cells { to ≤ length cells.now }
    requires values { to ≤ length values.now }
    ensures cells { result.cells.now ≡ take (to - from) (drop from cells.now) }
    ensures values { result.values.now ≡ take (to - from) (drop from values.now) }
{
    Part {
        cells: &cells[from..to],
        values: &values[from..to],
    }
}

impl Pairs {
    /// None. It takes no memory until one is put.
    pub(crate) fn new(alloc: Global) -> Pairs
        ensures { result ≡ [] }
    {
        Pairs {
            cells: Row::new(alloc),
            values: Row::new(alloc),
        }
    }

    /// One more.
    #[inline(always)]
    pub(crate) fn put(&mut self, cell: u32, value: i64) -> Result<(), NoMemory>
        ensures ok { OnOk result (self.new ≡ self.old ++ record { cell = cell; value = value } ∷ []) }
        ensures err { OnErr result (self.new ≡ self.old) }
    {
        let len = self.cells.len();
        self.cells.push(cell)?;
        match self.values.push(value) {
            Ok(()) => Ok(()),
            Err(NoMemory) => shortened(&mut self.cells, len),
        }
    }

    /// More, in this order. From the first one on that finds no room, they are left out.
    #[inline(always)]
    pub(crate) fn put_all(&mut self, pairs: &[Pair]) -> Result<(), NoMemory>
        ensures ok { OnOk result (self.new ≡ self.old ++ map pair_load pairs.now) }
        ensures more { (more : List Load) × (self.new ≡ self.old ++ more) }
    {
        for pair in pairs {
            self.put(pair.cell, pair.value)?;
        }
        Ok(())
    }

    /// How many there are.
    #[inline(always)]
    pub(crate) fn len(&self) -> usize
        ensures { result ≡ length self.now }
    {
        self.values.len()
    }

    /// The one at a place.
    #[inline(always)]
    pub(crate) fn get(&self, at: usize) -> Option<(u32, i64)>
        ensures { MatchOption result (length self.now ≤ at) (λ pair. slice_get self.now at ≡ Some (record { cell = pair.0; value = pair.1 })) }
    {
        let values = self.values.as_slice();
        if at >= values.len() {
            return None;
        }
        Some((self.cells.as_slice()[at], value_at(values, at)))
    }

    /// The ones from a place on up to another.
    #[inline(always)]
    pub(crate) fn part(&self, from: usize, to: usize) -> Part<'_>
        requires order { from ≤ to }
        requires within { to ≤ length self.now }
        ensures { IsPart (take (to - from) (drop from self.now)) result }
    {
        part_of(self.cells.as_slice(), self.values.as_slice(), from, to)
    }

    /// No pair. The room stays.
    pub(crate) fn clear(&mut self)
        ensures { self.new ≡ [] }
    {
        self.cells.clear();
        self.values.clear();
    }
}
