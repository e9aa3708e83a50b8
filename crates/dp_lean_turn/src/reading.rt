//! The next of an earlier stage's site.
ghost use Rattle.std.specs.Prelude.{◌≡◌};
ghost use Rattle.dp_lean_turn.specs.Notes.{kind_at, kinds_of};
ghost use Rattle.dp_lean_turn.specs.Left.{TookNext, TookBlock, Took, TookStores, all_kinds};

use crate::Note;
use dp_columns::{ColumnKind, Reader};
use dp_room::Row;

/// The next of an earlier stage's site.
#[derive(Clone, Copy)]
pub(crate) enum Next {
    Did { cell: u32, value: i64 },
    Nothing,
    NoMemory,
}

/// .. of one where a block begins: the cells and the values of its stores.
#[derive(Clone, Copy)]
pub(crate) enum NextBlock<'c> {
    Did { cells: &'c [u32], values: &'c [i64] },
    Nothing,
    NoMemory,
}

/// The next of a place whose site isn't told in blocks.
#[inline(always)]
fn next_of<'c>(reader: &mut Reader<'c>, kind: ColumnKind, place: usize) -> Next
    requires kind { kind ≡ kind_at reader.old.kinds place }
    ensures took { TookNext reader.old place reader.new result }
    ensures kinds { reader.new.kinds ≡ reader.old.kinds }
{
    match kind {
        ColumnKind::Value { cell } => match reader.next_value(place) {
            Some(value) => Next::Did { cell, value },
            None => Next::Nothing,
        },
        ColumnKind::Element => match reader.next_element(place) {
            Some((cell, value)) => Next::Did { cell, value },
            None => Next::Nothing,
        },
        _ => Next::NoMemory,
    }
}

/// The next of a place where a block begins.
#[inline(always)]
fn block_of<'c>(reader: &mut Reader<'c>, kind: ColumnKind, place: usize) -> NextBlock<'c>
    requires kind { kind ≡ kind_at reader.old.kinds place }
    ensures took { TookBlock reader.old place reader.new result }
    ensures kinds { reader.new.kinds ≡ reader.old.kinds }
{
    match kind {
        ColumnKind::Block => match reader.next_block(place) {
            Some((cells, values)) => NextBlock::Did { cells, values },
            None => NextBlock::Nothing,
        },
        _ => NextBlock::NoMemory,
    }
}

/// The next of the note's site, in the reader of its stage.
#[inline(always)]
pub(crate) fn take_next<'c>(readers: &mut Row<Reader<'c>>, note: &Note) -> Next
    requires kind { note.now.kind ≡ kind_at (kinds_of (all_kinds readers.old) note.now.stage) note.now.place }
    ensures took { Took readers.old note.now readers.new result }
    ensures kinds { all_kinds readers.new ≡ all_kinds readers.old }
{
    if note.stage == 0 {
        return Next::NoMemory;
    }
    match readers.get_mut(note.stage as usize - 1) {
        Some(reader) => next_of(reader, note.kind, note.place as usize),
        None => Next::NoMemory,
    }
}

/// The next block of the note's site.
#[inline(always)]
pub(crate) fn take_block<'c>(readers: &mut Row<Reader<'c>>, note: &Note) -> NextBlock<'c>
    requires kind { note.now.kind ≡ kind_at (kinds_of (all_kinds readers.old) note.now.stage) note.now.place }
    ensures took { TookStores readers.old note.now readers.new result }
    ensures kinds { all_kinds readers.new ≡ all_kinds readers.old }
{
    if note.stage == 0 {
        return NextBlock::NoMemory;
    }
    match readers.get_mut(note.stage as usize - 1) {
        Some(reader) => block_of(reader, note.kind, note.place as usize),
        None => NextBlock::NoMemory,
    }
}
