//! A run that is saved before an iteration of a region.
ghost use Rattle.std.specs.Prelude.{◌≡◌, ◌<◌, ◌≤◌, ◌-◌, ◌^◌, take, false, length, IfOk, OnErr};
ghost use Rattle.dp_edge.specs.Sink.{appended};
ghost use Rattle.dp_edge.specs.Writing.{FaultsAfter, WritesFront};
ghost use Rattle.dp_run.specs.RunText.{source_run, told_reports, trace_text};
ghost use Rattle.dp_run.specs.Stretches.{Between};
ghost use Rattle.dp_save.specs.WrittenText.{checkpoint_bytes};
ghost use Rattle.dp_tree.specs.Iteration.{start};
ghost use Rattle.dp_resume.specs.Saved.{saved_bytes, saved_end};
ghost use Rattle.dp_resume.specs.steps.Saving.{left_from};
ghost use Rattle.dp_resume.specs.declared.save.SaveEnd.TheVariants.{Saved as WasSaved, Ran as HasRun};

use crate::reach::reach;
use crate::regions::{region_count, region_of, regions_before};
use crate::rest::{finish, run_on};
use dp_base::{End, NoMemory, RegionReport, Row};
use dp_commit::{Tally, Unwatched};
use dp_edge::{Gate, Sink, WriteFail, write};
use dp_epoch::CrewSize;
use dp_meaning::Machine;
use dp_run::{NoNativeCode, PreparedProgram, RunOptions, run_parts, run_program};
use dp_save::{Checkpoint, write_checkpoint};
use dp_tree::Program;
use std::alloc::Global;
use std::sync::Wait;
use std::thread::Threads;
use std::time::Clock;

/// Before which iteration of which region a run is saved.
#[derive(Clone, Copy)]
pub struct SavePlace {
    /// From 1.
    pub region: u32,
    /// How many iterations come before.
    pub after: u64,
}

/// How a run ends that was to be saved.
#[derive(Clone, Copy)]
pub enum SaveEnd {
    /// It was saved.
    Saved,
    /// The iteration wasn't reached, and the run ended so.
    Ran(End),
}

/// The checkpoint at which the machine stands.
fn checkpoint_of(
    place: SavePlace,
    machine: &Machine<'_>,
    reports: Row<RegionReport>,
) -> Result<Checkpoint, NoMemory>
    ensures within { machine.now.steps ≤ machine.now.fuel }
    ensures ok { IfOk result (λ made. made ≡ record {
      region = place.region;
      after = place.after;
      steps = machine.now.steps;
      fuel = machine.now.fuel;
      cells = machine.now.config.cells;
      reports = reports;
    }) }
{
    Ok(Checkpoint {
        region: place.region,
        after: place.after,
        steps: machine.steps(),
        fuel: machine.fuel(),
        cells: machine.cells().copy()?,
        reports,
    })
}

/// Writes the checkpoint at which the machine stands.
fn write_saved<K: Sink>(
    alloc: Global,
    program: &Program,
    place: SavePlace,
    machine: Machine<'_>,
    reports: Row<RegionReport>,
    sink: &mut K,
) -> Result<SaveEnd, WriteFail>
    requires sink { K.faults sink.old < 2 ^ 64 - 1 }
    ensures faults { FaultsAfter result (K.faults sink.old) (K.faults sink.new) }
    ensures within { machine.entry.steps ≤ machine.entry.fuel }
    ensures ok { IfOk result (λ end. (end ≡ WasSaved)
        × (K.written sink.new ≡ appended
        (checkpoint_bytes (record {
          region = place.region;
          after = place.after;
          steps = machine.entry.steps;
          fuel = machine.entry.fuel;
          cells = machine.entry.config.cells;
          reports = reports;
        })) (K.written sink.old))) }
    ensures err { OnErr result
        (WritesFront (checkpoint_bytes
        (record {
          region = place.region;
          after = place.after;
          steps = machine.entry.steps;
          fuel = machine.entry.fuel;
          cells = machine.entry.config.cells;
          reports = reports;
        })) (K.written sink.old) (K.written sink.new)) }
{
    let checkpoint = checkpoint_of(place, &machine, reports)?;
    let text = write_checkpoint(alloc, &checkpoint, program)?;
    write(text.as_slice(), sink)?;
    Ok(SaveEnd::Saved)
}

/// Brings the region that comes next up to its iteration, and saves the run there, or runs on to its end.
fn save_in<'p, R: Threads + Wait + Clock + Sync, K: Sink, G: Gate>(
    rt: &R,
    alloc: Global,
    prepared: &PreparedProgram<'_>,
    input: &'p [i64],
    machine: Machine<'p>,
    size: CrewSize,
    place: SavePlace,
    reports: Row<RegionReport>,
    sink: &mut K,
    gate: &G,
) -> Result<SaveEnd, WriteFail>
    requires region { (1 ≤ place.region) × (place.region ≤ length prepared.now.plans) }
    requires between { Between prepared.now.program input.now machine.fuel (source_run prepared.now.program input.now machine.fuel) (place.region - 1) machine }
    requires reports { reports ≡ told_reports false prepared.now.program (take (place.region - 1) prepared.now.plans)
        (source_run prepared.now.program input.now machine.fuel) }
    requires words { length input.now ≤ 65536 }
    requires fuel { machine.fuel ≤ 1000000000 }
    requires sink { K.faults sink.old < 2 ^ 64 - 1 }
    ensures faults { FaultsAfter result (K.faults sink.old) (K.faults sink.new) }
    ensures ok { IfOk result (λ ended. (ended ≡ saved_end prepared.now.program input.now machine.entry.fuel place.region place.after)
        × (K.written sink.new ≡ appended (left_from prepared.now.program prepared.now.plans input.now place.region place.after machine.entry
        (start (source_run prepared.now.program input.now machine.entry.fuel) place.region place.after)) (K.written sink.old))) }
    ensures err { OnErr result (WritesFront (left_from prepared.now.program prepared.now.plans input.now place.region place.after machine.entry
        (start (source_run prepared.now.program input.now machine.entry.fuel) place.region place.after)) (K.written sink.old) (K.written sink.new)) }
{
    let program = prepared.program();
    let number = place.region;
    let region = region_of(prepared, number);
    let (machine, report, end) = reach(rt, alloc, region, input, machine, size, place.after, sink)?;
    let mut told = reports;
    told.push(report)?;
    match end {
        None => write_saved(alloc, program, place, machine, told, sink),
        Some(end) => run_on(
            rt, alloc, prepared, input, machine, size, number, end, told, sink, gate,
        ),
    }
}

/// Runs a program whose region isn't there to its end.
fn run_whole<R: Threads + Wait + Clock + Sync, K: Sink, G: Gate>(
    rt: &R,
    alloc: Global,
    prepared: &PreparedProgram<'_>,
    input: &[i64],
    fuel: u64,
    size: CrewSize,
    sink: &mut K,
    gate: &G,
) -> Result<SaveEnd, WriteFail>
    requires words { length input.now ≤ 65536 }
    requires fuel { fuel ≤ 1000000000 }
    requires sink { K.faults sink.old < 2 ^ 64 - 1 }
    ensures faults { FaultsAfter result (K.faults sink.old) (K.faults sink.new) }
    ensures ok { IfOk result (λ ended. (ended ≡ HasRun (source_run prepared.now.program input.now fuel).end)
        × (K.written sink.new ≡ appended (trace_text prepared.now.program prepared.now.plans (source_run prepared.now.program input.now fuel) false)
        (K.written sink.old))) }
    ensures err { OnErr result (WritesFront (trace_text prepared.now.program prepared.now.plans (source_run prepared.now.program input.now fuel) false)
        (K.written sink.old) (K.written sink.new)) }
{
    let options = RunOptions {
        fuel,
        size,
        why: false,
    };
    let mut tally = Tally::new(Unwatched);
    let end = run_program(
        rt,
        alloc,
        &NoNativeCode,
        prepared,
        input,
        options,
        sink,
        gate,
        &mut tally,
    )?;
    Ok(SaveEnd::Ran(end))
}

/// Runs the program up to an iteration of a region and writes its prints and a checkpoint; where that iteration isn't reached, it runs on to its end and
/// writes its whole text.
pub fn save_program<R: Threads + Wait + Clock + Sync, K: Sink, G: Gate>(
    rt: &R,
    alloc: Global,
    prepared: &PreparedProgram<'_>,
    input: &[i64],
    fuel: u64,
    size: CrewSize,
    place: SavePlace,
    sink: &mut K,
    gate: &G,
) -> Result<SaveEnd, WriteFail>
    requires words { length input.now ≤ 65536 }
    requires fuel { fuel ≤ 1000000000 }
    requires region { 1 ≤ place.region }
    requires sink { K.faults sink.old < 2 ^ 64 - 1 }
    ensures faults { FaultsAfter result (K.faults sink.old) (K.faults sink.new) }
    ensures ok { IfOk result (λ end. (end ≡ saved_end prepared.now.program input.now fuel place.region place.after)
        × (K.written sink.new ≡ appended (saved_bytes prepared.now.program prepared.now.plans input.now fuel place.region place.after) (K.written sink.old))) }
    ensures err { OnErr result (WritesFront (saved_bytes prepared.now.program prepared.now.plans input.now fuel place.region place.after) (K.written sink.old)
        (K.written sink.new)) }
{
    let program = prepared.program();
    if place.region as usize > region_count(prepared) {
        return run_whole(rt, alloc, prepared, input, fuel, size, sink, gate);
    }
    let before = regions_before(prepared, place.region - 1);
    let machine = Machine::new(alloc, program, input, fuel)?;
    let native = NoNativeCode;
    let mut told = Row::new(alloc);
    let mut tally = Tally::new(Unwatched);
    let (machine, end) = run_parts(
        rt, alloc, &native, before, input, machine, size, false, &mut told, sink, gate, &mut tally,
    )?;
    match end {
        Some(end) => finish(alloc, program, machine, told, end, sink),
        None => save_in(
            rt, alloc, prepared, input, machine, size, place, told, sink, gate,
        ),
    }
}
