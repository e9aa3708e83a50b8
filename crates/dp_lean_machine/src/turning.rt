//! The turns of a stage for the iterations of a batch.
ghost use Rattle.std.specs.Prelude.{◌≡◌, ◌<◌, ℕ, ◌++◌, ◌∷◌, [], OnOk};
ghost use Rattle.dp_tree.specs.Step.{clear_locals};
ghost use Rattle.dp_lean_judge.specs.Locals.{clear_cells};
ghost use Rattle.dp_lean_turn.specs.Ending.{CanTurn, TurnIs};
ghost use Rattle.dp_lean_turn.specs.Standing.{Keeps};
ghost use Rattle.dp_lean_epoch.specs.LeanBatch.{Stood};
ghost use Rattle.dp_lean_region.specs.LeanEpoch.{LeanEpoch};
ghost use Rattle.dp_net.specs.NetPackets.{NetStatus};
ghost use Rattle.dp_lean_region.specs.Line.{RunsIn};
ghost use Rattle.dp_lean_machine.specs.Sent.{AsStatus};
ghost use Rattle.dp_lean_region.specs.Ready.{HasLocals};
ghost use Rattle.dp_lean_machine.specs.Within.{IsCame, Within, ComesTo, IsRan};

use crate::BatchStatus;
use dp_base::{CellId, NoMemory, Row};
use dp_engine::Memory;
use dp_lean_region::ReadyStage;
use dp_lean_turn::{Turn, Turned};

/// How many iterations came to their end, and how the last one stands.
#[derive(Clone, Copy)]
pub(crate) struct Ran {
    pub(crate) iterations: usize,
    pub(crate) status: BatchStatus,
}

/// What a turn comes to.
#[derive(Clone, Copy)]
pub(crate) enum TurnEnd {
    /// The next iteration follows.
    Goes,
    /// It leaves the region.
    Closes,
    /// It broke off.
    Void,
    NoMemory,
}

/// These cells read 0.
#[inline(always)]
fn clear<M: Memory + Drop>(locals: &[CellId], memory: &mut M) -> Result<(), NoMemory>
    ensures { OnOk result (M.cells memory.new ≡ clear_cells locals.now (M.cells memory.old)) }
{
    for cell in locals {
        memory.store(cell.0, 0)?;
    }
    Ok(())
}

/// The number of a turn's steps is told, and the memory is made ready for the next iteration.
#[inline(always)]
fn settle<M: Memory + Drop>(
    locals: &[CellId],
    memory: &mut M,
    steps: &mut Row<u32>,
    count: u32,
) -> Result<(), NoMemory>
    ensures memory { OnOk result (M.cells memory.new ≡ clear_cells locals.now (M.cells memory.old)) }
    ensures steps { OnOk result (steps.new ≡ steps.old ++ count ∷ []) }
{
    steps.push(count)?;
    clear(locals, memory)
}

/// One iteration more.
#[inline(always)]
fn turn_once<'c, 'p, M: Memory + Drop>(
    stage: &ReadyStage<'p>,
    turn: &mut Turn<'c, M>,
    steps: &mut Row<u32>,
) -> TurnEnd
    requires can { CanTurn stage.now.frame stage.now.ready turn.old }
    requires locals { HasLocals stage.now }
    ensures steps { (e : LeanEpoch) (s b j : ℕ) (came : Stood) → IsCame e s b came → RunsIn e s stage.now → j < came.iterations →
        Within e s b M.cells came.iterations j turn.old steps.old → ComesTo e s b M.cells came j turn.new steps.new result }
    ensures keeps { Keeps turn.old turn.new }
{
    match turn.turn(&stage.frame, &stage.ready) {
        Turned::Done {
            closing,
            steps: count,
        } => match settle(stage.locals, &mut turn.memory, steps, count) {
            Ok(()) => {
                if closing {
                    TurnEnd::Closes
                } else {
                    TurnEnd::Goes
                }
            }
            Err(NoMemory) => TurnEnd::NoMemory,
        },
        Turned::Void => TurnEnd::Void,
        Turned::NoMemory => TurnEnd::NoMemory,
    }
}

/// All iterations that came, up to the first that doesn't go on.
pub(crate) fn run_all<'c, 'p, M: Memory + Drop>(
    stage: ReadyStage<'p>,
    turn: &mut Turn<'c, M>,
    steps: &mut Row<u32>,
    came: Ran,
) -> Ran
    requires can { CanTurn stage.frame stage.ready turn.old }
    requires locals { HasLocals stage }
    ensures ran { (e : LeanEpoch) (s b : ℕ) (ends : NetStatus) → AsStatus came.status ends →
        IsCame e s b (record { iterations = came.iterations; ends = ends }) → RunsIn e s stage.entry →
        Within e s b M.cells came.iterations 0 turn.old steps.old → IsRan e s b M.cells turn.new steps.new result }
    ensures keeps { Keeps turn.old turn.new }
{
    for done in 0..came.iterations {
        match turn_once(&stage, turn, steps) {
            TurnEnd::Goes => {}
            TurnEnd::Closes => {
                return Ran {
                    iterations: done + 1,
                    status: BatchStatus::Closing,
                };
            }
            TurnEnd::Void => {
                return Ran {
                    iterations: done,
                    status: BatchStatus::Void,
                };
            }
            TurnEnd::NoMemory => {
                return Ran {
                    iterations: done,
                    status: BatchStatus::NoMemory,
                };
            }
        }
    }
    came
}
