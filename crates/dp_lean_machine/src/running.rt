//! A batch, run by a stage.
ghost use Rattle.std.specs.Prelude.{◌≡◌, ◌<◌, ℕ, suc, map, get_or, [], true, false, length, IfSome};
ghost use Rattle.dp_plan.specs.Access.{is_replicated};
ghost use Rattle.dp_net.specs.NetPackets.{NetStatus};
ghost use Rattle.dp_lean_epoch.specs.Coming.{LeanStands};
ghost use Rattle.dp_lean_epoch.specs.LeanBatch.{IsVersion};
ghost use Rattle.dp_lean_region.specs.LeanEpoch.{LeanEpoch, epoch_marks, begin_in};
ghost use Rattle.dp_lean_region.specs.Line.{IsLineOf, RunsIn, line_kinds};
ghost use Rattle.dp_lean_region.specs.Ready.{CanRead, HasLocals, IsStageReady};
ghost use Rattle.dp_lean_machine.specs.Held.{kinds_in};
ghost use Rattle.dp_lean_machine.specs.Sent.{AsStatus, IsSent};
ghost use Rattle.dp_lean_machine.specs.Within.{IsCame, ComesWithColumns, IsDone};
ghost use Rattle.dp_lean_machine.specs.RanFrom.{RanFrom};

use crate::desk::{Desk, cleared, keep_rooms, readers_of};
use crate::turning::{Ran, run_all};
use crate::{BatchStatus, LeanBatch, StageColumns};
use dp_base::Row;
use dp_columns::{Columns, Reader, ReaderRoom};
use dp_engine::Memory;
use dp_lean_region::{Line, ReadyStage};
use dp_lean_turn::{Loads, Log, Teller, Turn};
use dp_memory::Version;
use std::alloc::Global;

/// What came of a batch's iterations, and what they were run on.
#[derive(Drop)]
pub(crate) struct Done<M: Drop> {
    pub(crate) ran: Ran,
    pub(crate) desk: Desk,
    pub(crate) memory: M,
}

/// Memory was wanting before the first iteration.
const NONE: Ran = Ran {
    iterations: 0,
    status: BatchStatus::NoMemory,
};

/// A turn that stands before its first site.
fn first_turn<'c, M: Memory + Drop>(
    memory: M,
    readers: Row<Reader<'c>>,
    own: Columns,
    loads: Loads,
    log: Log,
) -> Turn<'c, M>
    ensures { result ≡ record {
      memory = memory;
      readers = readers.entry;
      teller = record { own = own; loads = loads; log = log; used = 0; steps = 0 };
      place = 0;
      closing = false;
    } }
{
    Turn {
        memory,
        readers,
        teller: Teller {
            own,
            loads,
            log,
            used: 0,
            steps: 0,
        },
        place: 0,
        closing: false,
    }
}

/// What the turns of a batch leave.
fn left<'c, M: Memory + Drop>(
    turn: Turn<'c, M>,
    steps: Row<u32>,
    rooms: Row<ReaderRoom>,
    ran: Ran,
) -> Done<M>
    ensures ran { result.ran ≡ ran }
    ensures memory { result.memory ≡ turn.entry.memory }
    ensures own { result.desk.own ≡ record { columns = turn.entry.teller.own; steps = steps } }
{
    let mut rooms = rooms;
    let Turn {
        memory,
        readers,
        teller,
        ..
    } = turn;
    keep_rooms(readers, &mut rooms);
    let Teller {
        own: columns,
        loads,
        log,
        ..
    } = teller;
    Done {
        ran,
        desk: Desk {
            own: StageColumns { columns, steps },
            loads,
            log,
            rooms,
        },
        memory,
    }
}

/// The iterations of a batch that came, run over what earlier stages told, into the desk's columns.
fn run_over<'p, M: Memory + Drop>(
    alloc: Global,
    stage: ReadyStage<'p>,
    earlier: &[StageColumns],
    desk: Desk,
    memory: M,
    came: Ran,
) -> Done<M>
    requires can { CanRead stage desk.own.columns.kinds (map kinds_in earlier.now) }
    requires locals { HasLocals stage }
    ensures done { (e : LeanEpoch) (s b : ℕ) (ends : NetStatus) → AsStatus came.status ends →
        IsCame e s b (record { iterations = came.iterations; ends = ends }) → RunsIn e s stage.entry →
        ComesWithColumns e s b came.iterations earlier.now → LeanStands (epoch_marks e) e.key (suc s) (begin_in e b) (M.cells memory) →
        IsDone e s b M.cells result.ran result.desk.own result.memory }
    ensures kinds { result.desk.own.columns.kinds ≡ desk.own.columns.kinds }
{
    let mut desk = desk;
    let readers = match readers_of(alloc, earlier, &mut desk.rooms) {
        Ok(readers) => readers,
        Err(_) => {
            return Done {
                ran: NONE,
                desk,
                memory,
            };
        }
    };
    let Desk {
        own,
        loads,
        log,
        rooms,
    } = desk;
    let StageColumns { columns, mut steps } = cleared(own);
    let mut turn = first_turn(memory, readers, columns, loads, log);
    let ran = run_all(stage, &mut turn, &mut steps, came);
    left(turn, steps, rooms, ran)
}

/// The stage at this place, if it is one of so many.
fn stage_among<'p>(line: Line<'p>, place: usize, stages: usize) -> Option<ReadyStage<'p>>
    ensures ready { IfSome result (IsStageReady (line_kinds line.entry) place) }
    ensures runs { (e : LeanEpoch) → IsLineOf e line.entry → IfSome result (RunsIn e place) }
    ensures low { IfSome result (λ _. place < stages) }
{
    if place < stages {
        line.stage(place)
    } else {
        None
    }
}

/// What a stage runs a batch on.
#[derive(Drop)]
pub(crate) struct Workplace<M: Drop> {
    pub(crate) desk: Desk,
    pub(crate) memory: M,
}

/// A batch is run by the stage at this place, which begins it with this memory. The version is sent along.
pub(crate) fn run_batch<'p, M: Memory + Drop>(
    alloc: Global,
    place: usize,
    desk: Desk,
    memory: M,
    version: Option<Version>,
    batch: &mut LeanBatch<'p>,
) -> Workplace<M>
    ensures sent { (e : LeanEpoch) (b : ℕ) → RanFrom e place b M.cells memory version batch.old batch.new result.memory }
{
    let stage = match stage_among(batch.line, place, batch.stages.len()) {
        Some(stage) => stage,
        None => {
            batch.wanting();
            return Workplace { desk, memory };
        }
    };
    let taken = desk.exchanged(&mut batch.stages, place);
    let earlier = &batch.stages.as_slice()[..place];
    let came = Ran {
        iterations: batch.iterations,
        status: batch.status,
    };
    let done = run_over(alloc, stage, earlier, taken, memory, came);
    let Done { ran, desk, memory } = done;
    let given = desk.exchanged(&mut batch.stages, place);
    batch.iterations = ran.iterations;
    batch.status = ran.status;
    batch.version = version;
    Workplace {
        desk: given,
        memory,
    }
}
