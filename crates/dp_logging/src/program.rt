//! A whole run with its log.
ghost use Rattle.std.specs.Prelude.{◌≡◌, ◌<◌, ◌≤◌, ◌-◌, ◌^◌, IfOk, OnErr};
ghost use Rattle.dp_edge.specs.Sink.{appended};
ghost use Rattle.dp_edge.specs.Writing.{FaultsAfter, WritesFront};
ghost use Rattle.dp_log.specs.LogText.{log_bytes};
ghost use Rattle.dp_run.specs.RunText.{source_run};

use crate::parts::log_parts;
use crate::pouring::pour;
use dp_base::{End, Row};
use dp_edge::{Sink, WriteFail};
use dp_epoch::CrewSize;
use dp_log::put_first;
use dp_meaning::Machine;
use dp_report::put_end;
use dp_run::{PreparedProgram, end_of};
use std::alloc::Global;
use std::sync::Wait;
use std::time::Clock;

/// How a program is run for its log.
#[derive(Clone, Copy)]
pub struct LogOptions {
    /// The greatest number of steps.
    pub fuel: u64,
    /// The workers of a replicated stage, and the places of a lane.
    pub size: CrewSize,
}

/// Runs the program to its end or to the end of its fuel, each region under its plan, and writes the log of the run.
///
/// It is written as the run goes on, so that memory doesn't grow with it.
pub fn log_program<R: Wait + Clock, K: Sink>(
    rt: &R,
    alloc: Global,
    prepared: &PreparedProgram<'_>,
    input: &[i64],
    options: LogOptions,
    sink: &mut K,
) -> Result<End, WriteFail>
    requires fuel { options.fuel ≤ 1000000000 }
    requires sink { K.faults sink.old < 2 ^ 64 - 1 }
    ensures faults { FaultsAfter result (K.faults sink.old) (K.faults sink.new) }
    ensures ok { let run = source_run prepared.now.program input.now options.fuel in
        IfOk result (λ end. (end ≡ run.end) × (K.written sink.new ≡ appended (log_bytes prepared.now.program prepared.now.plans run) (K.written sink.old))) }
    ensures err { OnErr result (WritesFront (log_bytes prepared.now.program prepared.now.plans (source_run prepared.now.program input.now options.fuel))
        (K.written sink.old) (K.written sink.new)) }
{
    let mut out = Row::new(alloc);
    put_first(&mut out)?;
    let machine = Machine::new(alloc, prepared.program(), input, options.fuel)?;
    let (_machine, end) = log_parts(
        rt,
        alloc,
        prepared.regions(),
        input,
        machine,
        options.size,
        &mut out,
        sink,
    )?;
    let end = end_of(end);
    put_end(&mut out, end)?;
    pour(&mut out, sink)?;
    Ok(end)
}
