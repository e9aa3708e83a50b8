//! A program from start to end.
ghost use Rattle.std.specs.Prelude.{◌<◌, ◌≤◌, ◌-◌, ◌^◌, [], length};
ghost use Rattle.dp_edge.specs.Writing.{FaultsAfter};
ghost use Rattle.dp_run.specs.Given.{AreGiven};
ghost use Rattle.dp_drive.specs.steps.Runs.{Runs};

use crate::others::run_plans;
use dp_base::Row;
use dp_edge::{Gate, Sink, WriteFail};
use dp_plan::Plan;
use dp_refusal::end_status;
use dp_run::{NativeCode, PreparedProgram, RunOptions, Tally, Watch, run_program};
use dp_tree::Program;
use std::alloc::Global;
use std::sync::Wait;
use std::thread::Threads;
use std::time::Clock;

/// Runs the program to its end, and gives the status of that. `chooses` says whether regions may be run under other plans.
pub fn run_to_end<R: Threads + Wait + Clock + Sync, N: NativeCode, K: Sink, G: Gate, W: Watch>(
    rt: &R,
    alloc: Global,
    native: &N,
    program: &Program,
    plans: &Row<Plan>,
    input: &Row<i64>,
    options: RunOptions,
    chooses: bool,
    sink: &mut K,
    gate: &G,
    tally: &mut Tally<W>,
) -> Result<u8, WriteFail>
    requires given { AreGiven program.now plans.now }
    requires words { length input.now ≤ 65536 }
    requires fuel { options.fuel ≤ 1000000000 }
    requires sink { K.faults sink.old < 2 ^ 64 - 1 }
    requires tally { tally.old < 2 ^ 63 }
    ensures faults { FaultsAfter result (K.faults sink.old) (K.faults sink.new) }
    ensures runs { Runs [] program.now plans.now input.now options.fuel options.why (K.written sink.old) (K.written sink.new) tally.old tally.new result }
{
    let plans = plans.as_slice();
    let others = run_plans(alloc, program, plans, chooses)?;
    let prepared = PreparedProgram::new(alloc, program, plans, &others)?;
    let end = run_program(
        rt,
        alloc,
        native,
        &prepared,
        input.as_slice(),
        options,
        sink,
        gate,
        tally,
    )?;
    Ok(end_status(end))
}
