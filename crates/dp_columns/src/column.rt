//! What is told of one site.
ghost use Rattle.std.specs.Prelude.{◌≡◌, [], map};
ghost use Rattle.dp_columns.specs.Held.{IsEmpty};

use crate::ColumnKind;
use crate::events::Events;
use crate::pairs::Pairs;
use dp_room::Row;
use std::alloc::Global;

/// What a site did, each time, by its kind.
#[derive(Drop)]
pub(crate) struct Column {
    pub(crate) kind: ColumnKind,
    pub(crate) values: Row<i64>,
    pub(crate) elements: Pairs,
    pub(crate) blocks: Events,
}

impl Column {
    /// Nothing yet. It takes no memory until something is put.
    pub(crate) fn new(alloc: Global, kind: ColumnKind) -> Column
        ensures kind { result.kind ≡ kind }
        ensures empty { IsEmpty result }
    {
        Column {
            kind,
            values: Row::new(alloc),
            elements: Pairs::new(alloc),
            blocks: Events::new(alloc),
        }
    }

    /// Nothing again. The room stays.
    pub(crate) fn clear(&mut self)
        ensures kind { self.new.kind ≡ self.old.kind }
        ensures empty { IsEmpty self.new }
    {
        self.values.clear();
        self.elements.clear();
        self.blocks.clear();
    }
}
