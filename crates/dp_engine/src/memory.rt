//! The memories that a turn runs on.
ghost use Rattle.std.specs.Prelude.{◌≡◌, ℤ, List, get_or, slice_set, pos, true, IfOk, OnOk, OnErr};

use dp_base::{CellId, Cells, NoMemory};
use dp_memory::{Version, VersionRoom};
use std::alloc::Global;
use std::marker::Model;

/// A memory, as the list of its cells. A cell that it doesn't have reads 0 and isn't stored.
pub trait Memory {
    ghost cells: { Self → List ℤ };

    fn load(&self, cell: u32) -> i64
        ensures { result ≡ get_or (cells self.now) cell (pos 0) };

    fn store(&mut self, cell: u32, value: i64) -> Result<(), NoMemory>
        ensures { OnOk result (cells self.new ≡ slice_set (cells self.old) cell value) };
}

impl Memory for Cells {
    ghost cells = { λ c. c };

    #[inline(always)]
    fn load(&self, cell: u32) -> i64 {
        match self.as_slice().get(cell as usize) {
            Some(value) => *value,
            None => 0,
        }
    }

    #[inline(always)]
    fn store(&mut self, cell: u32, value: i64) -> Result<(), NoMemory> {
        self.set(CellId(cell), value);
        Ok(())
    }
}

/// The cell holds this number.
#[inline(always)]
fn holds(cells: &[i64], cell: u32, value: i64) -> bool
    ensures { result ≡ true → slice_set cells.now cell value ≡ cells.now }
{
    match cells.get(cell as usize) {
        Some(held) => *held == value,
        None => false,
    }
}

impl Memory for Version {
    ghost cells = { λ v. v };

    #[inline(always)]
    fn load(&self, cell: u32) -> i64 {
        number(self, cell)
    }

    #[inline(always)]
    fn store(&mut self, cell: u32, value: i64) -> Result<(), NoMemory> {
        put_version(self, cell, value)
    }
}

/// The number in a cell, or 0 where there is none.
#[inline(always)]
fn number(version: &Version, cell: u32) -> i64
    ensures { result ≡ get_or version.now cell (pos 0) }
{
    match version.find(CellId(cell)) {
        Some(value) => value,
        None => 0,
    }
}

/// Puts a number into a cell, if there is one. At `Err` the version is as it was.
#[inline(always)]
fn put_version(version: &mut Version, cell: u32, value: i64) -> Result<(), NoMemory>
    ensures ok { OnOk result (version.new ≡ slice_set version.old cell value) }
    ensures err { OnErr result (version.new ≡ version.old) }
{
    match version.find(CellId(cell)) {
        Some(_) => version.set(CellId(cell), value),
        None => Ok(()),
    }
}

/// A memory whose loads are from a flat list, with a version of it beside.
#[derive(Drop)]
pub struct Versioned {
    cells: Cells,
    version: Version,
}

impl Model for Versioned {
    ghost use Rattle.std.specs.Prelude.{◌≡◌, ℤ, List};
    ghost use Rattle.std.specs.Coded.{coded_list, coded_ℤ};

    ghost Value = { List ℤ };

    ghost coded = { coded_list coded_ℤ };

    ghost view = { λ v. v.cells };

    ghost invariant = { λ v. v.version ≡ v.cells };
}

impl Versioned {
    /// A memory with these numbers.
    pub fn of(alloc: Global, cells: Cells) -> Result<Versioned, NoMemory>
        ensures { IfOk result (λ v. v ≡ cells) }
    {
        let version = Version::of(alloc, &cells)?;
        Ok(Versioned { cells, version })
    }

    /// A version of the memory as it is now, in the room of one that is spent, if there is one.
    pub fn snapshot(&mut self, room: Option<VersionRoom>) -> Result<Version, NoMemory>
        ensures ok { IfOk result (λ version. version ≡ self.old) }
        ensures same { self.new ≡ self.old }
    {
        self.version.snapshot(room)
    }

    /// Puts a number into a cell of both, if there is one. Where it holds that number already, as most body locals hold 0
    /// behind an iteration, there is nothing to do.
    fn put(&mut self, cell: u32, value: i64) -> Result<(), NoMemory>
        ensures { OnOk result (self.new ≡ slice_set self.old cell value) }
    {
        if holds(self.cells.as_slice(), cell, value) {
            return Ok(());
        }
        put_version(&mut self.version, cell, value)?;
        self.cells.set(CellId(cell), value);
        Ok(())
    }

    fn number(&self, cell: u32) -> i64
        ensures { result ≡ get_or self.now cell (pos 0) }
    {
        self.cells.load(cell)
    }
}

impl Memory for Versioned {
    ghost cells = { λ v. v };

    #[inline(always)]
    fn load(&self, cell: u32) -> i64 {
        self.number(cell)
    }

    #[inline(always)]
    fn store(&mut self, cell: u32, value: i64) -> Result<(), NoMemory> {
        self.put(cell, value)
    }
}
