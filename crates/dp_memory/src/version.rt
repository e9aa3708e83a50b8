//! A version of a program's memory.
ghost use Rattle.std.specs.Prelude.{◌≡◌, ◌+◌, ◌<◌, ◌≤◌, take, drop, length, slice_get, slice_set, Some, IfOk, OnOk, OnErr};
ghost use Rattle.dp_memory.specs.Pieces.{filled};

use crate::book::Book;
use crate::pages::Pages;
use dp_base::{CellId, Cells, NoMemory};
use std::alloc::Global;
use std::marker::Model;

/// A program's memory, one number of 64 bits for each cell, which shares pages with the versions that it was taken
/// from or that were taken from it. Contracts see it as the list of these numbers.
#[derive(Drop)]
pub struct Version {
    alloc: Global,
    book: Book,
}

impl Model for Version {
    ghost use Rattle.std.specs.Prelude.{ℤ, List};
    ghost use Rattle.std.specs.Coded.{coded_list, coded_ℤ};
    ghost use Rattle.dp_memory.specs.Pieces.{joined, InPieces};
    ghost use Rattle.dp_memory.specs.Book.{book_pages, IsBook};

    ghost Value = { List ℤ };

    ghost coded = { coded_list coded_ℤ };

    ghost view = { λ version. joined (book_pages version.book) };

    ghost invariant = { λ version. IsBook version.book × InPieces 256 (book_pages version.book) };
}

/// The number at a place, if there is one.
#[inline(always)]
fn at(page: &[i64], place: usize) -> Option<i64>
    ensures { result ≡ slice_get page.now place }
{
    page.get(place).copied()
}

/// The room of a version that is spent. What it holds means nothing.
#[derive(Drop)]
pub struct VersionRoom {
    page: Vec<i64>,
}

/// The room for a last page, if there is one.
fn page_room(alloc: Global, room: Option<VersionRoom>) -> Vec<i64> {
    match room {
        Some(room) => room.page,
        None => Vec::new(alloc),
    }
}

impl Version {
    /// A version that holds these numbers.
    pub fn of(alloc: Global, cells: &Cells) -> Result<Version, NoMemory>
        ensures { IfOk result (λ version. version ≡ cells.now) }
    {
        let book = Book::of(alloc, cells.as_slice())?;
        Ok(Version { alloc, book })
    }

    /// The number in a cell. It takes no memory.
    #[inline]
    pub fn get(&self, cell: CellId) -> i64
        requires { cell.0 < length self.now }
        ensures { slice_get self.now cell.0 ≡ Some result }
    {
        let page = self.book.page(cell.0 as usize / 256);
        page[cell.0 as usize % 256]
    }

    /// The number in a cell, if there is one. It takes no memory.
    #[inline(always)]
    pub fn find(&self, cell: CellId) -> Option<i64>
        ensures { result ≡ slice_get self.now cell.0 }
    {
        match self.book.find(cell.0 as usize / 256) {
            Some(page) => at(page, cell.0 as usize % 256),
            None => None,
        }
    }

    /// Lends `len` cells from `first` on, one slice for each page. It takes no memory.
    pub fn pages(&self, first: CellId, len: u32) -> Pages<'_>
        requires { first.0 + len ≤ length self.now }
        ensures { result ≡ (first.0, take len (drop first.0 self.now)) }
    {
        let start = first.0 as usize;
        Pages {
            book: &self.book,
            start,
            end: start + len as usize,
        }
    }

    /// Puts a number into a cell. At `Err` the version is as it was.
    #[inline(always)]
    pub fn set(&mut self, cell: CellId, value: i64) -> Result<(), NoMemory>
        requires { cell.0 < length self.old }
        ensures ok { OnOk result (self.new ≡ slice_set self.old cell.0 value) }
        ensures err { OnErr result (self.new ≡ self.old) }
    {
        self.put(cell.0 as usize, value)
    }

    /// The same, for a place from 0.
    #[inline(always)]
    fn put(&mut self, place: usize, value: i64) -> Result<(), NoMemory>
        requires { place < length self.old }
        ensures ok { OnOk result (self.new ≡ slice_set self.old place value) }
        ensures err { OnErr result (self.new ≡ self.old) }
    {
        self.book.set(self.alloc, place / 256, place % 256, value)?;
        Ok(())
    }

    /// The version with one number in `len` cells from `first` on. At `Err` the version is gone.
    pub fn filled(self, first: CellId, len: u32, value: i64) -> Result<Version, NoMemory>
        requires { first.0 + len ≤ length self }
        ensures { IfOk result (λ version. version ≡ filled self first.0 len value) }
    {
        let mut version = self;
        let start = first.0 as usize;
        for place in start..start + len as usize {
            version.put(place, value)?;
        }
        Ok(version)
    }

    /// The room of the version's last page, for another version. All else that it holds is given back.
    pub fn into_room(self) -> VersionRoom {
        VersionRoom {
            page: self.book.last,
        }
    }

    /// Another version with the same numbers, which shares the pages, in the room of one that is spent, if there is one. The
    /// version keeps its numbers, also at `Err`.
    pub fn snapshot(&mut self, room: Option<VersionRoom>) -> Result<Version, NoMemory>
        ensures ok { IfOk result (λ other. other ≡ self.old) }
        ensures same { self.new ≡ self.old }
    {
        let room = page_room(self.alloc, room);
        let book = self.book.share(self.alloc, room)?;
        Ok(Version {
            alloc: self.alloc,
            book,
        })
    }
}
