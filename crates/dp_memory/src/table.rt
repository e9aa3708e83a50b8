//! The pages of a version but the last one.
ghost use Rattle.std.specs.Prelude.{◌≡◌, ◌<◌, Some, None, length, slice_get, IfOk, OnOk, OnErr};

use crate::group;
use crate::group::Group;
use crate::piece::Piece;
use dp_base::NoMemory;
use std::alloc::Global;

/// The groups in which the pages stand, sixteen in each but the last.
#[derive(Drop)]
pub(crate) struct Table {
    pub(crate) groups: Piece<Group>,
}

impl Table {
    ghost use Rattle.dp_memory.specs.Piece.{groups_of};
    ghost use Rattle.dp_memory.specs.Pieces.{HasCell, with_cell, ArePagesOf};
    ghost use Rattle.dp_memory.specs.Table.{table_pages, InGroups};

    /// A table of pages of these cells.
    pub(crate) fn of(alloc: Global, cells: &[i64]) -> Result<Table, NoMemory>
        ensures { IfOk result (λ table. InGroups table × ArePagesOf (table_pages table) cells.now) }
    {
        let mut groups = Vec::new(alloc);
        let mut rest = cells;
        while !rest.is_empty() {
            let (group, more) = rest.split_at(rest.len().min(4096));
            let group = Piece::of(group::pages(alloc, group)?);
            groups.push(group)?;
            rest = more;
        }
        Ok(Table {
            groups: Piece::of(groups),
        })
    }

    /// Makes the list of groups the table's own.
    fn unshare(&mut self, alloc: Global) -> Result<(), NoMemory>
        ensures ok { OnOk result (self.new.groups.shared ≡ None) }
        ensures same { groups_of self.new.groups ≡ groups_of self.old.groups }
    {
        if !self.groups.is_own() {
            let groups = group::copy_all(self.groups.as_slice(), alloc)?;
            self.groups.put(groups);
        }
        Ok(())
    }

    /// The cells of a page.
    #[inline]
    pub(crate) fn page(&self, number: usize) -> &[i64]
        requires groups { InGroups self.now }
        requires within { number < length (table_pages self.now) }
        ensures { slice_get (table_pages self.now) number ≡ Some result.now }
    {
        self.groups.as_slice()[number / 16].as_slice()[number % 16].as_slice()
    }

    /// Puts a number into a cell of a page, after a copy of what other tables share. It is out of line, since most stores are into
    /// a book's last page.
    #[inline(never)]
    pub(crate) fn set(
        &mut self,
        alloc: Global,
        number: usize,
        place: usize,
        value: i64,
    ) -> Result<(), NoMemory>
        requires groups { InGroups self.old }
        requires cell { HasCell (table_pages self.old) number place }
        ensures groups { InGroups self.new }
        ensures ok { OnOk result (table_pages self.new ≡ with_cell (table_pages self.old) number place value) }
        ensures err { OnErr result (table_pages self.new ≡ table_pages self.old) }
    {
        self.unshare(alloc)?;
        let group = &mut self.groups.own[number / 16];
        group::set(group, alloc, number % 16, place, value)?;
        Ok(())
    }

    /// Another table that shares the pages. Where there are none, as in a small program, it is an empty one of its own, so
    /// that no counter is shared.
    pub(crate) fn share(&mut self, alloc: Global) -> Result<Table, NoMemory>
        ensures ok { IfOk result (λ other. groups_of other.groups ≡ groups_of self.old.groups) }
        ensures same { groups_of self.new.groups ≡ groups_of self.old.groups }
    {
        if self.groups.as_slice().is_empty() {
            return Ok(Table {
                groups: Piece::of(Vec::new(alloc)),
            });
        }
        group::freeze_all(&mut self.groups.own, alloc)?;
        let groups = self.groups.share(alloc)?;
        Ok(Table { groups })
    }
}
