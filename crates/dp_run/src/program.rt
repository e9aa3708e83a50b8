//! A whole run, with its text.
ghost use Rattle.std.specs.Prelude.{◌≡◌, ◌<◌, ◌≤◌, ◌-◌, ◌+◌, ◌^◌, true, length, min, All, IfOk, OnOk, OnErr};
ghost use Rattle.dp_edge.specs.Sink.{appended};
ghost use Rattle.dp_report.specs.EndText.{end_bytes};
ghost use Rattle.dp_edge.specs.Writing.{FaultsAfter, WritesFront};
ghost use Rattle.dp_run.specs.RunText.{committed_in_all, source_run, trace_text};
ghost use Rattle.dp_run.specs.Stretches.{ended_by};

use crate::parts::run_parts;
use crate::prepared::PreparedProgram;
use dp_base::{Cells, End, RegionReport, Row};
use dp_commit::{Tally, Watch};
use dp_edge::{Gate, Sink, WriteFail, write};
use dp_epoch::CrewSize;
use dp_meaning::{Machine, NativeCode};
use dp_report::end_text;
use dp_tree::Program;
use std::alloc::Global;
use std::sync::Wait;
use std::thread::Threads;
use std::time::Clock;

/// How a program is run.
#[derive(Clone, Copy)]
pub struct RunOptions {
    /// The greatest number of steps.
    pub fuel: u64,
    /// The workers of a replicated stage, and the places of a lane.
    pub size: CrewSize,
    /// Whether the text says why iterations were executed again.
    pub why: bool,
}

/// Runs the program to its end or to the end of its fuel, each region under its plan, and writes the text of the run.
///
/// Prints are written as the run goes on, so that memory doesn't grow with them.
pub fn run_program<R: Threads + Wait + Clock + Sync, N: NativeCode, K: Sink, G: Gate, W: Watch>(
    rt: &R,
    alloc: Global,
    native: &N,
    prepared: &PreparedProgram<'_>,
    input: &[i64],
    options: RunOptions,
    sink: &mut K,
    gate: &G,
    tally: &mut Tally<W>,
) -> Result<End, WriteFail>
    requires words { length input.now ≤ 65536 }
    requires fuel { options.fuel ≤ 1000000000 }
    requires sink { K.faults sink.old < 2 ^ 64 - 1 }
    requires room { tally.old < 2 ^ 63 }
    ensures faults { FaultsAfter result (K.faults sink.old) (K.faults sink.new) }
    ensures ok { let run = source_run prepared.now.program input.now options.fuel in
        IfOk result (λ end. (end ≡ run.end) × (K.written sink.new ≡ appended (trace_text prepared.now.program prepared.now.plans run options.why)
        (K.written sink.old))) }
    ensures err { OnErr result (WritesFront (trace_text prepared.now.program prepared.now.plans (source_run prepared.now.program input.now options.fuel)
        options.why) (K.written sink.old) (K.written sink.new)) }
    ensures tally { OnOk result (tally.new ≡ tally.old + committed_in_all prepared.now.program prepared.now.plans
        (source_run prepared.now.program input.now options.fuel)) }
{
    let RunOptions { fuel, size, why } = options;
    let program = prepared.program();
    let regions = prepared.regions();
    let machine = Machine::new(alloc, program, input, fuel)?;
    let mut told = Row::new(alloc);
    let (machine, end) = run_parts(
        rt, alloc, native, regions, input, machine, size, why, &mut told, sink, gate, tally,
    )?;
    let end = end_of(end);
    let cells = machine.cells();
    write_end(alloc, program, cells, &told, end, why, sink)?;
    Ok(end)
}

/// How a run ended that went by all regions of its program, or to this end.
pub fn end_of(end: Option<End>) -> End
    ensures { result ≡ ended_by end }
{
    match end {
        Some(end) => end,
        None => End::Done,
    }
}

/// Writes what follows the prints: the variables, the regions and the end.
pub fn write_end<K: Sink>(
    alloc: Global,
    program: &Program,
    cells: &Cells,
    reports: &Row<RegionReport>,
    end: End,
    why: bool,
    sink: &mut K,
) -> Result<(), WriteFail>
    requires sink { K.faults sink.old < 2 ^ 64 - 1 }
    requires listed { All (λ report. length report.recovered ≡ min report.recovered_count 1000) reports.now }
    requires explained { why ≡ true → All (λ report. length report.causes ≡ length report.recovered) reports.now }
    ensures faults { FaultsAfter result (K.faults sink.old) (K.faults sink.new) }
    ensures ok { OnOk result (K.written sink.new ≡ appended (end_bytes program.now cells.now reports.now end why) (K.written sink.old)) }
    ensures err { OnErr result (WritesFront (end_bytes program.now cells.now reports.now end why) (K.written sink.old) (K.written sink.new)) }
{
    let text = end_text(alloc, program, cells, reports.as_slice(), end, why)?;
    write(text.as_slice(), sink)?;
    Ok(())
}
