//! A region and the plain part behind it.
ghost use Rattle.std.specs.Prelude.{◌≡◌, ◌<◌, ◌≤◌, ◌-◌, ◌+◌, ◌^◌, ◌++◌, ◌∷◌, [], ℕ, ℤ, List, suc, length, IfOk, OnOk, OnErr};
ghost use Rattle.dp_tree.specs.declared.Program.{Program as Tree};
ghost use Rattle.dp_tree.specs.Trace.{Run};
ghost use Rattle.dp_report.specs.PrintsText.{prints_bytes};
ghost use Rattle.dp_semantics.specs.Reported.{region_report};
ghost use Rattle.dp_epoch.specs.Accounts.{told_when};
ghost use Rattle.dp_epoch.specs.declared.ends.RegionEnd.TheVariants.{Closed};
ghost use Rattle.dp_edge.specs.Writing.{FaultsAfter, WritesFront};
ghost use Rattle.dp_crew.specs.Output.{Emits};
ghost use Rattle.dp_run.specs.RunText.{committed_count};
ghost use Rattle.dp_run.specs.Stretches.{AfterRegion, Between, FrontBefore, Leads, to_come};

use crate::plain::run_plain;
use dp_base::{End, RegionReport, Row};
use dp_commit::{Tally, Watch};
use dp_crew::run_region;
use dp_edge::{Gate, Sink, WriteFail};
use dp_epoch::{CrewSize, RegionEnd, nothing_counted};
use dp_meaning::{Machine, NativeCode};
use dp_run_plan::RunRegion;
use std::alloc::Global;
use std::sync::Wait;
use std::thread::Threads;
use std::time::Clock;

/// Runs the plan's region, which comes next, and the plain part behind it. Answers the run's end if that comes in them.
pub fn run_stretch<'p, R: Threads + Wait + Clock + Sync, N: NativeCode, K: Sink, G: Gate, W: Watch>(
    rt: &R,
    alloc: Global,
    native: &N,
    region: &RunRegion<'_>,
    input: &'p [i64],
    machine: Machine<'p>,
    size: CrewSize,
    why: bool,
    reports: &mut Row<RegionReport>,
    sink: &mut K,
    gate: &G,
    tally: &mut Tally<W>,
) -> Result<(Machine<'p>, Option<End>), WriteFail>
    requires between { (run : Run) × (n : ℕ) × (region.now.plan.region ≡ suc n) × Between region.now.program input.now machine.fuel run n machine }
    requires words { length input.now ≤ 65536 }
    requires fuel { machine.fuel ≤ 1000000000 }
    requires sink { K.faults sink.old < 2 ^ 64 - 1 }
    requires room { tally.old + (machine.fuel - machine.steps) < 2 ^ 64 }
    ensures faults { FaultsAfter result (K.faults sink.old) (K.faults sink.new) }
    ensures ok { IfOk result (λ ran. (run : Run) (n : ℕ) → region.now.plan.region ≡ suc n →
        Between region.now.program input.now machine.entry.fuel run n machine.entry →
        Leads region.now.program input.now machine.entry.fuel run (suc n) ran.0 ran.1) }
    ensures report { OnOk result ((run : Run) (n : ℕ) → region.now.plan.region ≡ suc n →
        Between region.now.program input.now machine.entry.fuel run n machine.entry →
        reports.new ≡ reports.old ++ told_when why (region_report region.now.program region.now.plan run) ∷ []) }
    ensures written { IfOk result (λ ran. Emits (to_come machine.entry) (to_come ran.0) (K.written sink.old) (K.written sink.new)) }
    ensures front { OnErr result (WritesFront (prints_bytes (to_come machine.entry)) (K.written sink.old) (K.written sink.new)) }
    ensures before { OnErr result (FrontBefore (suc region.now.plan.region) [] machine.entry (K.written sink.old) (K.written sink.new)) }
    ensures tally { OnOk result ((run : Run) (n : ℕ) → region.now.plan.region ≡ suc n →
        Between region.now.program input.now machine.entry.fuel run n machine.entry →
        tally.new ≡ tally.old + committed_count region.now.program region.now.plan run) }
{
    let mut told = nothing_counted(alloc, region.number());
    let (next, end) = run_region(
        rt, alloc, region, input, machine, size, why, &mut told, sink, gate, tally,
    )?;
    reports.push(told)?;
    finish_stretch(alloc, native, next, end, sink, tally)
}

/// Runs the plain part behind a region that ended so.
fn finish_stretch<'p, N: NativeCode, K: Sink, W: Watch>(
    alloc: Global,
    native: &N,
    machine: Machine<'p>,
    end: RegionEnd,
    sink: &mut K,
    tally: &mut Tally<W>,
) -> Result<(Machine<'p>, Option<End>), WriteFail>
    requires sink { K.faults sink.old < 2 ^ 64 - 1 }
    ensures faults { FaultsAfter result (K.faults sink.old) (K.faults sink.new) }
    ensures ok { IfOk result (λ ran. (p : Tree) (input : List ℤ) (fuel : ℕ) (run : Run) (n : ℕ) → AfterRegion p input fuel run n machine.entry end →
        Leads p input fuel run n ran.0 ran.1) }
    ensures tally { tally.new ≡ tally.old }
    ensures closed { OnErr result (end ≡ Closed) }
    ensures written { IfOk result (λ ran. Emits (to_come machine.entry) (to_come ran.0) (K.written sink.old) (K.written sink.new)) }
    ensures front { OnErr result (WritesFront (prints_bytes (to_come machine.entry)) (K.written sink.old) (K.written sink.new)) }
    ensures before { OnErr result (FrontBefore 0 [] machine.entry (K.written sink.old) (K.written sink.new)) }
{
    let mut machine = machine;
    let end = match end {
        RegionEnd::Closed => run_plain(alloc, native, &mut machine, sink, tally)?,
        RegionEnd::Fault(fault) => Some(End::Fault(fault)),
        RegionEnd::Fuel => Some(End::Fuel),
    };
    Ok((machine, end))
}
