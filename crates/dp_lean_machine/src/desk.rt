//! What a stage's turns work with.
ghost use Rattle.std.specs.Prelude.{◌≡◌, ◌<◌, [], length, map, slice_get, slice_set, Some, IfOk};
ghost use Rattle.dp_columns.specs.Columned.{nothing_kept};
ghost use Rattle.dp_lean_machine.specs.Within.{read_of};

use crate::StageColumns;
use dp_columns::{Columns, Reader, ReaderRoom};
use dp_lean_turn::{Loads, Log, NetLog};
use dp_room::{NoMemory, Row};
use std::alloc::Global;
use std::mem;

/// What a stage's turns work with. It stays from batch to batch.
#[derive(Drop)]
pub(crate) struct Desk {
    /// The columns of the batch that is run, and between two batches ones of which nothing is known.
    pub(crate) own: StageColumns,
    pub(crate) loads: Loads,
    pub(crate) log: Log,
    /// The rooms of readers.
    pub(crate) rooms: Row<ReaderRoom>,
}

/// These columns take the place of a stage's, which are answered.
fn exchanged(stages: &mut Row<StageColumns>, place: usize, columns: StageColumns) -> StageColumns
    requires { place < length stages.old }
    ensures was { slice_get stages.old place ≡ Some result }
    ensures now { stages.new ≡ slice_set stages.old place columns }
{
    match stages.get_mut(place) {
        Some(at) => mem::replace(at, columns),
        None => columns,
    }
}

impl Desk {
    /// Nothing. It takes no memory until a turn is run.
    pub(crate) fn new(alloc: Global) -> Result<Desk, NoMemory> {
        let columns = Columns::new(alloc, &[])?;
        Ok(Desk {
            own: StageColumns {
                columns,
                steps: Row::new(alloc),
            },
            loads: Loads {
                checked: false,
                entries: Row::new(alloc),
                wanting: false,
            },
            log: Log {
                running: false,
                place: 0,
                stores: NetLog::new(alloc),
            },
            rooms: Row::new(alloc),
        })
    }

    /// The desk's columns take the place of a stage's, which the desk has then.
    pub(crate) fn exchanged(self, stages: &mut Row<StageColumns>, place: usize) -> Desk
        requires { place < length stages.old }
        ensures was { slice_get stages.old place ≡ Some result.own }
        ensures now { stages.new ≡ slice_set stages.old place self.own }
    {
        let Desk {
            own,
            loads,
            log,
            rooms,
        } = self;
        let own = exchanged(stages, place, own);
        Desk {
            own,
            loads,
            log,
            rooms,
        }
    }
}

/// Nothing is told of the batch yet.
pub(crate) fn cleared(columns: StageColumns) -> StageColumns
    ensures columns { result.columns ≡ nothing_kept columns.columns.kinds }
    ensures steps { result.steps ≡ [] }
{
    let mut columns = columns;
    columns.columns.clear();
    columns.steps.clear();
    columns
}

/// A reader of all that each stage told.
pub fn readers_of<'c>(
    alloc: Global,
    stages: &'c [StageColumns],
    rooms: &mut Row<ReaderRoom>,
) -> Result<Row<Reader<'c>>, NoMemory>
    ensures { IfOk result (λ readers. readers ≡ map read_of stages.now) }
{
    let mut readers = Row::with_capacity(alloc, stages.len())?;
    for columns in stages {
        let room = match rooms.pop() {
            Some(room) => room,
            None => ReaderRoom::new(alloc),
        };
        let reader = Reader::over(room, &columns.columns)?;
        readers.push(reader)?;
    }
    Ok(readers)
}

/// The rooms of readers are kept for others.
pub fn keep_rooms<'c>(readers: Row<Reader<'c>>, rooms: &mut Row<ReaderRoom>) {
    for reader in readers {
        if rooms.push(reader.into_room()).is_err() {
            return;
        }
    }
}
