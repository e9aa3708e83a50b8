//! The rest of a run that was to be saved, behind the region.
ghost use Rattle.std.specs.Prelude.{◌≡◌, ◌<◌, ◌≤◌, ◌-◌, ◌^◌, map, take, false, length, min, All, IfOk, OnErr};
ghost use Rattle.dp_edge.specs.Sink.{appended};
ghost use Rattle.dp_edge.specs.Writing.{FaultsAfter, WritesFront};
ghost use Rattle.dp_report.specs.EndText.{end_bytes};
ghost use Rattle.dp_run.specs.RunText.{source_run, told_reports};
ghost use Rattle.dp_run.specs.Stretches.{AfterRegion, Behind};
ghost use Rattle.dp_resume.specs.Saved.{uncaused};
ghost use Rattle.dp_resume.specs.steps.Saving.{ending_from};
ghost use Rattle.dp_resume.specs.declared.save.SaveEnd.TheVariants.{Ran as HasRun};

use crate::regions::regions_behind;
use crate::save::SaveEnd;
use dp_base::{End, RegionReport, Row};
use dp_commit::{Tally, Unwatched};
use dp_edge::{Gate, Sink, WriteFail};
use dp_epoch::{CrewSize, RegionEnd};
use dp_meaning::Machine;
use dp_run::{NoNativeCode, PreparedProgram, end_of, run_parts, write_end};
use dp_tree::Program;
use std::alloc::Global;
use std::sync::Wait;
use std::thread::Threads;
use std::time::Clock;

/// Writes what follows the prints of a run that ended so.
pub(crate) fn finish<K: Sink>(
    alloc: Global,
    program: &Program,
    machine: Machine<'_>,
    reports: Row<RegionReport>,
    end: End,
    sink: &mut K,
) -> Result<SaveEnd, WriteFail>
    requires sink { K.faults sink.old < 2 ^ 64 - 1 }
    requires listed { All (λ report. length report.recovered ≡ min report.recovered_count 1000) reports }
    ensures faults { FaultsAfter result (K.faults sink.old) (K.faults sink.new) }
    ensures ok { IfOk result (λ ended. (ended ≡ HasRun end)
        × (K.written sink.new ≡ appended (end_bytes program.now machine.entry.config.cells reports end false) (K.written sink.old))) }
    ensures err { OnErr result (WritesFront (end_bytes program.now machine.entry.config.cells reports end false) (K.written sink.old) (K.written sink.new)) }
{
    let cells = machine.cells();
    write_end(alloc, program, cells, &reports, end, false, sink)?;
    Ok(SaveEnd::Ran(end))
}

/// Runs on behind a region that was left, of which the run was to be saved.
fn run_behind<'p, R: Threads + Wait + Clock + Sync, K: Sink, G: Gate>(
    rt: &R,
    alloc: Global,
    prepared: &PreparedProgram<'_>,
    input: &'p [i64],
    machine: Machine<'p>,
    size: CrewSize,
    region: u32,
    reports: Row<RegionReport>,
    sink: &mut K,
    gate: &G,
) -> Result<SaveEnd, WriteFail>
    requires region { region ≤ length prepared.now.plans }
    requires behind { Behind prepared.now.program input.now machine.fuel (source_run prepared.now.program input.now machine.fuel) region machine }
    requires reports { map uncaused reports ≡ told_reports false prepared.now.program (take region prepared.now.plans)
        (source_run prepared.now.program input.now machine.fuel) }
    requires words { length input.now ≤ 65536 }
    requires fuel { machine.fuel ≤ 1000000000 }
    requires sink { K.faults sink.old < 2 ^ 64 - 1 }
    ensures faults { FaultsAfter result (K.faults sink.old) (K.faults sink.new) }
    ensures ok { IfOk result (λ ended. (ended ≡ HasRun (source_run prepared.now.program input.now machine.entry.fuel).end)
        × (K.written sink.new ≡ appended (ending_from prepared.now.program prepared.now.plans input.now machine.entry) (K.written sink.old))) }
    ensures err { OnErr result (WritesFront (ending_from prepared.now.program prepared.now.plans input.now machine.entry) (K.written sink.old)
        (K.written sink.new)) }
{
    let program = prepared.program();
    let left = regions_behind(prepared, region);
    let (mut told, mut tally) = (reports, Tally::new(Unwatched));
    let native = NoNativeCode;
    let (machine, end) = run_parts(
        rt, alloc, &native, left, input, machine, size, false, &mut told, sink, gate, &mut tally,
    )?;
    finish(alloc, program, machine, told, end_of(end), sink)
}

/// Runs on behind a region that has ended so, of which the run was to be saved.
pub(crate) fn run_on<'p, R: Threads + Wait + Clock + Sync, K: Sink, G: Gate>(
    rt: &R,
    alloc: Global,
    prepared: &PreparedProgram<'_>,
    input: &'p [i64],
    machine: Machine<'p>,
    size: CrewSize,
    region: u32,
    end: RegionEnd,
    reports: Row<RegionReport>,
    sink: &mut K,
    gate: &G,
) -> Result<SaveEnd, WriteFail>
    requires region { region ≤ length prepared.now.plans }
    requires after { AfterRegion prepared.now.program input.now machine.fuel (source_run prepared.now.program input.now machine.fuel) region machine end }
    requires reports { map uncaused reports ≡ told_reports false prepared.now.program (take region prepared.now.plans)
        (source_run prepared.now.program input.now machine.fuel) }
    requires words { length input.now ≤ 65536 }
    requires fuel { machine.fuel ≤ 1000000000 }
    requires sink { K.faults sink.old < 2 ^ 64 - 1 }
    ensures faults { FaultsAfter result (K.faults sink.old) (K.faults sink.new) }
    ensures ok { IfOk result (λ ended. (ended ≡ HasRun (source_run prepared.now.program input.now machine.entry.fuel).end)
        × (K.written sink.new ≡ appended (ending_from prepared.now.program prepared.now.plans input.now machine.entry) (K.written sink.old))) }
    ensures err { OnErr result (WritesFront (ending_from prepared.now.program prepared.now.plans input.now machine.entry) (K.written sink.old)
        (K.written sink.new)) }
{
    let program = prepared.program();
    match end {
        RegionEnd::Closed => run_behind(
            rt, alloc, prepared, input, machine, size, region, reports, sink, gate,
        ),
        RegionEnd::Fault(fault) => {
            finish(alloc, program, machine, reports, End::Fault(fault), sink)
        }
        RegionEnd::Fuel => finish(alloc, program, machine, reports, End::Fuel, sink),
    }
}
