//! A run that goes on from a checkpoint.
ghost use Rattle.std.specs.Prelude.{◌≡◌, ◌<◌, ◌≤◌, ◌-◌, ◌^◌, length, IfOk, OnErr};
ghost use Rattle.dp_edge.specs.Sink.{appended};
ghost use Rattle.dp_edge.specs.Writing.{FaultsAfter, WritesFront};
ghost use Rattle.dp_save.specs.Fits.{Fits};
ghost use Rattle.dp_resume.specs.Resumed.{resumed_bytes, resumed_run};

use crate::merge::merged;
use crate::regions::regions_behind;
use dp_base::{End, Row};
use dp_commit::{Tally, Watch};
use dp_edge::{Gate, Sink, WriteFail};
use dp_epoch::CrewSize;
use dp_meaning::Machine;
use dp_run::{NoNativeCode, PreparedProgram, end_of, run_parts, write_end};
use dp_save::Checkpoint;
use std::alloc::Global;
use std::sync::Wait;
use std::thread::Threads;
use std::time::Clock;

/// Goes on from a checkpoint to the end of the run or of the checkpoint's fuel, each region under its plan, and writes the prints from there on and what
/// follows them. The reports of the regions before are those of the checkpoint.
pub fn resume_program<R: Threads + Wait + Clock + Sync, K: Sink, G: Gate, W: Watch>(
    rt: &R,
    alloc: Global,
    prepared: &PreparedProgram<'_>,
    input: &[i64],
    size: CrewSize,
    checkpoint: Checkpoint,
    sink: &mut K,
    gate: &G,
    tally: &mut Tally<W>,
) -> Result<End, WriteFail>
    requires fits { Fits prepared.now.program checkpoint }
    requires words { length input.now ≤ 65536 }
    requires sink { K.faults sink.old < 2 ^ 64 - 1 }
    requires room { tally.old < 2 ^ 63 }
    ensures faults { FaultsAfter result (K.faults sink.old) (K.faults sink.new) }
    ensures ok { IfOk result (λ end. (end ≡ (resumed_run prepared.now.program input.now checkpoint).end)
        × (K.written sink.new ≡ appended (resumed_bytes prepared.now.program prepared.now.plans input.now checkpoint) (K.written sink.old))) }
    ensures err { OnErr result (WritesFront (resumed_bytes prepared.now.program prepared.now.plans input.now checkpoint) (K.written sink.old)
        (K.written sink.new)) }
{
    let (region, fuel, steps) = (checkpoint.region, checkpoint.fuel, checkpoint.steps);
    let (cells, saved) = checkpoint.into_parts();
    let program = prepared.program();
    let left = regions_behind(prepared, region - 1);
    let machine = Machine::at_region(alloc, program, input, fuel, region, cells, steps)?;
    let native = NoNativeCode;
    let mut told = Row::new(alloc);
    let (machine, end) = run_parts(
        rt, alloc, &native, left, input, machine, size, false, &mut told, sink, gate, tally,
    )?;
    let end = end_of(end);
    let reports = merged(saved, told)?;
    let cells = machine.cells();
    write_end(alloc, program, cells, &reports, end, false, sink)?;
    Ok(end)
}
