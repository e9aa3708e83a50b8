//! A region from start to end: epoch after epoch, with the iteration that breaks each executed again.
ghost use Rattle.std.specs.Prelude.{◌≡◌, ◌<◌, ◌≤◌, ◌+◌, ◌-◌, ◌^◌, [], IfOk, OnErr, OnOk};
ghost use Rattle.dp_edge.specs.Sink.{appended};
ghost use Rattle.dp_report.specs.PrintsText.{prints_bytes};
ghost use Rattle.dp_semantics.specs.Reported.{region_report};
ghost use Rattle.dp_edge.specs.Writing.{FaultsAfter, WritesFront};
ghost use Rattle.dp_epoch.specs.Accounts.{told_when};
ghost use Rattle.dp_epoch.specs.RegionRun.{RegionRan, RegionStart, region_prints, region_run};

use crate::settling::settle;
use crate::together::run_together;
use crate::work::Work;
use dp_base::{NoMemory, RegionReport};
use dp_commit::{Tally, Watch};
use dp_edge::{Gate, Sink, WriteFail};
use dp_epoch::{CrewSize, Ledger, RegionEnd};
use dp_meaning::Machine;
use dp_pipeline::bells_for;
use dp_run_plan::RunRegion;
use dp_waiting::Bell;
use std::alloc::Global;
use std::sync::Wait;
use std::thread::Threads;
use std::time::Clock;

/// Runs the prepared region, which comes next: writes its prints, and fills its report, with causes where `why` asks for them.
pub fn run_region<'p, R: Threads + Wait + Clock + Sync, K: Sink, G: Gate, W: Watch>(
    rt: &R,
    alloc: Global,
    region: &RunRegion<'_>,
    input: &'p [i64],
    machine: Machine<'p>,
    size: CrewSize,
    why: bool,
    report: &mut RegionReport,
    sink: &mut K,
    gate: &G,
    tally: &mut Tally<W>,
) -> Result<(Machine<'p>, RegionEnd), WriteFail>
    requires start { RegionStart region.now.program region.now.plan input.now machine }
    requires fuel { machine.fuel ≤ 1000000000 }
    requires report { report.old ≡ record { region = region.now.plan.region; iterations = 0; recovered_count = 0; recovered = []; causes = [] } }
    requires sink { K.faults sink.old < 2 ^ 64 - 1 }
    requires room { tally.old + (machine.fuel - machine.steps) < 2 ^ 64 }
    ensures faults { FaultsAfter result (K.faults sink.old) (K.faults sink.new) }
    ensures ran { IfOk result (λ ran. RegionRan region.now.program region.now.plan machine.entry ran.0 ran.1) }
    ensures report { OnOk result (report.new ≡ told_when why (region_report region.now.program region.now.plan (region_run machine.entry))) }
    ensures written { OnOk result (K.written sink.new ≡ appended (prints_bytes (region_prints (region_run machine.entry) region.now.plan.region))
        (K.written sink.old)) }
    ensures front { OnErr result (WritesFront (prints_bytes (region_prints (region_run machine.entry) region.now.plan.region)) (K.written sink.old)
        (K.written sink.new)) }
    ensures tally { OnOk result (tally.new + report.new.recovered_count ≡ tally.old + report.new.iterations) }
{
    let plan = region.plan();
    let made = bells_of(alloc, region, size)?;
    let begun = Ledger::begin(alloc, machine, region.program(), plan, why)?;
    let work = Work::new(alloc, region, input, size, made.as_slice());
    let (ledger, end) = run_together(rt, gate, work, begun, sink, tally)?;
    let machine = settle(ledger, alloc, report, sink)?;
    Ok((machine, end))
}

/// The bells of the threads that an epoch's units may have, if they may, and of the caller.
fn bells_of(alloc: Global, region: &RunRegion<'_>, size: CrewSize) -> Result<Vec<Bell>, NoMemory> {
    if !size.threads {
        return Ok(Vec::new(alloc));
    }
    bells_for(alloc, region.region(), size)
}
