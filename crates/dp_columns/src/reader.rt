//! How far columns were read.
ghost use Rattle.std.specs.Prelude.{◌≡◌, ◌<◌, length, slice_get, Some, replicate, IfOk, IfSome, OnOk};
ghost use Rattle.std.specs.Option.{option_map};
ghost use Rattle.dp_lean.specs.Queues.{Did};
ghost use Rattle.dp_columns.specs.Columned.{KeepsValues, KeepsElements, KeepsBlocks, value_cell};
ghost use Rattle.dp_columns.specs.Paired.{pairs_of, block_told};
ghost use Rattle.dp_columns.specs.Left.{TookTold, TookLoads};

use crate::Columns;
use crate::column::Column;
use crate::events::{Events, Mark};
use crate::pairs::value_at;
use dp_room::{NoMemory, Row};
use std::alloc::Global;
use std::marker::Model;

/// Columns, each from a place on. It copies none of them. Contracts see what is left of each queue.
#[derive(Drop)]
pub struct Reader<'c> {
    told: &'c [Column],
    loads: &'c [Events],
    told_marks: Row<Mark>,
    loads_marks: Row<Mark>,
}

/// The room that a reader works with.
#[derive(Drop)]
pub struct ReaderRoom {
    told_marks: Row<Mark>,
    loads_marks: Row<Mark>,
}

impl ReaderRoom {
    pub fn new(alloc: Global) -> ReaderRoom {
        ReaderRoom {
            told_marks: Row::new(alloc),
            loads_marks: Row::new(alloc),
        }
    }
}

impl<'c> Model for Reader<'c> {
    ghost use Rattle.dp_columns.specs.Left.{Left};
    ghost use Rattle.dp_columns.specs.Marked.{left_behind_marks, AreMarked};

    ghost Value = { Left };

    ghost view = { λ reader. left_behind_marks reader.told.now reader.loads.now reader.told_marks reader.loads_marks };

    ghost invariant = { λ reader. AreMarked reader.told.now reader.loads.now reader.told_marks reader.loads_marks };
}

/// So many marks at the start.
fn begin(marks: &mut Row<Mark>, places: usize) -> Result<(), NoMemory>
    ensures { OnOk result (marks.new ≡ replicate places (record { at = 0; from = 0 })) }
{
    marks.clear();
    marks.reserve(places)?;
    for _place in 0..places {
        marks.push(Mark { at: 0, from: 0 })?;
    }
    Ok(())
}

/// The mark of a place.
#[inline(always)]
fn mark_at(marks: &[Mark], place: usize) -> Mark
    requires { place < length marks.now }
    ensures { slice_get marks.now place ≡ Some result }
{
    marks[place]
}

/// The column of a place.
#[inline(always)]
fn column_at<'c>(told: &'c [Column], place: usize) -> &'c Column
    requires { place < length told.now }
    ensures { slice_get told.now place ≡ Some result.now }
{
    &told[place]
}

/// The loads of a place.
#[inline(always)]
fn events_at<'c>(loads: &'c [Events], place: usize) -> &'c Events
    requires { place < length loads.now }
    ensures { slice_get loads.now place ≡ Some result.now }
{
    &loads[place]
}

impl<'c> Reader<'c> {
    /// All of each queue, in this room.
    pub fn over(room: ReaderRoom, columns: &'c Columns) -> Result<Reader<'c>, NoMemory>
        ensures { IfOk result (λ reader. reader ≡ record { kinds = columns.now.kinds; told = columns.now.told; loads = columns.now.loads }) }
    {
        let ReaderRoom {
            mut told_marks,
            mut loads_marks,
        } = room;
        let told = columns.told.as_slice();
        let loads = columns.loads.as_slice();
        begin(&mut told_marks, told.len())?;
        begin(&mut loads_marks, loads.len())?;
        Ok(Reader {
            told,
            loads,
            told_marks,
            loads_marks,
        })
    }

    /// The room, for another reader.
    pub fn into_room(self) -> ReaderRoom {
        let Reader {
            told_marks,
            loads_marks,
            ..
        } = self;
        ReaderRoom {
            told_marks,
            loads_marks,
        }
    }

    /// The next value of a site of which values alone are kept.
    #[inline(always)]
    pub fn next_value(&mut self, place: usize) -> Option<i64>
        requires { KeepsValues (slice_get self.old.kinds place) }
        ensures { TookTold self.old place (option_map (Did (value_cell (slice_get self.old.kinds place))) result) self.new }
    {
        let mark = mark_at(self.told_marks.as_slice(), place);
        let values = column_at(self.told, place).values.as_slice();
        if mark.at >= values.len() {
            return None;
        }
        self.told_marks.set(
            place,
            Mark {
                at: mark.at + 1,
                from: mark.from,
            },
        );
        Some(value_at(values, mark.at))
    }

    /// The next cell and value of a site of which both are kept.
    #[inline(always)]
    pub fn next_element(&mut self, place: usize) -> Option<(u32, i64)>
        requires { KeepsElements (slice_get self.old.kinds place) }
        ensures { TookTold self.old place (option_map (λ pair. Did pair.0 pair.1) result) self.new }
    {
        let mark = mark_at(self.told_marks.as_slice(), place);
        let elements = &column_at(self.told, place).elements;
        if mark.at >= elements.len() {
            return None;
        }
        self.told_marks.set(
            place,
            Mark {
                at: mark.at + 1,
                from: mark.from,
            },
        );
        elements.get(mark.at)
    }

    /// The stores of the next block, as cells and values.
    #[inline(always)]
    pub fn next_block(&mut self, place: usize) -> Option<(&'c [u32], &'c [i64])>
        requires { KeepsBlocks (slice_get self.old.kinds place) }
        ensures took { TookTold self.old place (option_map (λ part. block_told (pairs_of part.0.now part.1.now)) result) self.new }
        ensures even { IfSome result (λ part. length part.0.now ≡ length part.1.now) }
    {
        let mark = mark_at(self.told_marks.as_slice(), place);
        match column_at(self.told, place).blocks.next(mark) {
            Some(next) => {
                self.told_marks.set(place, next.behind);
                Some((next.part.cells, next.part.values))
            }
            None => None,
        }
    }

    /// The loads of the site's next event, as cells and values.
    #[inline(always)]
    pub fn next_loads(&mut self, place: usize) -> Option<(&'c [u32], &'c [i64])>
        requires { place < length self.old.kinds }
        ensures took { TookLoads self.old place (option_map (λ part. pairs_of part.0.now part.1.now) result) self.new }
        ensures even { IfSome result (λ part. length part.0.now ≡ length part.1.now) }
    {
        let mark = mark_at(self.loads_marks.as_slice(), place);
        match events_at(self.loads, place).next(mark) {
            Some(next) => {
                self.loads_marks.set(place, next.behind);
                Some((next.part.cells, next.part.values))
            }
            None => None,
        }
    }
}
