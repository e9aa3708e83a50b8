//! All pages of a version.
ghost use Rattle.std.specs.Prelude.{◌≡◌, ◌≤◌, ◌<◌, Some, length, slice_get, IfOk, MatchOption, OnOk, OnErr};

use crate::table::Table;
use dp_base::NoMemory;
use std::alloc::Global;

/// The pages of a version. The last one isn't shared: a program's locals stand there, and nearly every iteration writes
/// to them.
#[derive(Drop)]
pub(crate) struct Book {
    /// All pages but the last one.
    pub(crate) table: Table,
    /// How many they are.
    pub(crate) before: usize,
    pub(crate) last: Vec<i64>,
}

/// A vector of these items, in this room.
fn filled(room: Vec<i64>, items: &[i64]) -> Result<Vec<i64>, NoMemory>
    ensures { IfOk result (λ made. made.items ≡ items.now) }
{
    let mut made = room;
    made.clear();
    made.extend_from_slice(items)?;
    Ok(made)
}

impl Book {
    ghost use Rattle.dp_memory.specs.Pieces.{HasCell, with_cell, joined, InPieces};
    ghost use Rattle.dp_memory.specs.Book.{book_pages, IsBook};

    /// A book of pages of these cells.
    pub(crate) fn of(alloc: Global, cells: &[i64]) -> Result<Book, NoMemory>
        ensures { IfOk result (λ book. IsBook book × InPieces 256 (book_pages book) × (joined (book_pages book) ≡ cells.now)) }
    {
        let before = cells.len().saturating_sub(1) / 256;
        let (front, back) = cells.split_at(before * 256);
        let table = Table::of(alloc, front)?;
        let last = Vec::from_slice(alloc, back)?;
        Ok(Book {
            table,
            before,
            last,
        })
    }

    /// The cells of a page.
    #[inline(always)]
    pub(crate) fn page(&self, number: usize) -> &[i64]
        requires book { IsBook self.now }
        requires within { number < length (book_pages self.now) }
        ensures { slice_get (book_pages self.now) number ≡ Some result.now }
    {
        if number < self.before {
            self.table.page(number)
        } else {
            self.last.as_slice()
        }
    }

    /// The cells of a page, if there is one.
    #[inline(always)]
    pub(crate) fn find(&self, number: usize) -> Option<&[i64]>
        requires { IsBook self.now }
        ensures { MatchOption result (length (book_pages self.now) ≤ number) (λ page. slice_get (book_pages self.now) number ≡ Some page.now) }
    {
        if number > self.before {
            return None;
        }
        Some(self.page(number))
    }

    /// Puts a number into a cell of a page, after a copy of what other books share.
    #[inline(always)]
    pub(crate) fn set(
        &mut self,
        alloc: Global,
        number: usize,
        place: usize,
        value: i64,
    ) -> Result<(), NoMemory>
        requires book { IsBook self.old }
        requires cell { HasCell (book_pages self.old) number place }
        ensures book { IsBook self.new }
        ensures ok { OnOk result (book_pages self.new ≡ with_cell (book_pages self.old) number place value) }
        ensures err { OnErr result (book_pages self.new ≡ book_pages self.old) }
        ensures wanting { OnErr result (number < self.old.before) }
    {
        if number < self.before {
            return self.table.set(alloc, number, place, value);
        }
        self.last[place] = value;
        Ok(())
    }

    /// Another book with the same pages. Its last page takes over this room.
    pub(crate) fn share(&mut self, alloc: Global, room: Vec<i64>) -> Result<Book, NoMemory>
        requires { IsBook self.old }
        ensures ok { IfOk result (λ other. IsBook other × (book_pages other ≡ book_pages self.old)) }
        ensures book { IsBook self.new }
        ensures same { book_pages self.new ≡ book_pages self.old }
    {
        let table = self.table.share(alloc)?;
        let last = filled(room, self.last.as_slice())?;
        Ok(Book {
            table,
            before: self.before,
            last,
        })
    }
}
