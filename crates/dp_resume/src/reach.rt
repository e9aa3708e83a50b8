//! A region that is brought up to an iteration.
ghost use Rattle.std.specs.Prelude.{◌≡◌, ◌<◌, ◌≤◌, ◌-◌, ◌^◌, ◌++◌, List, ℤ, ℕ, IfOk, OnErr};
ghost use Rattle.dp_tree.specs.declared.Program.{Program as Tree};
ghost use Rattle.dp_tree.specs.Trace.{prints};
ghost use Rattle.dp_tree.specs.Iteration.{iteration, start};
ghost use Rattle.dp_plan.specs.declared.Plan.{Plan as PlanValue};
ghost use Rattle.dp_meaning.specs.MachineState.{MachineState};
ghost use Rattle.dp_edge.specs.Writing.{FaultsAfter, WritesFront};
ghost use Rattle.dp_report.specs.PrintsText.{prints_bytes};
ghost use Rattle.dp_crew.specs.Output.{Emits};
ghost use Rattle.dp_epoch.specs.RegionRun.{RegionStart, region_run};
ghost use Rattle.dp_audit.specs.Runs.{RegionStands};
ghost use Rattle.dp_run.specs.Stretches.{to_come};
ghost use Rattle.dp_resume.specs.steps.Reaching as spec;

use dp_audit::Runner;
use dp_base::{RegionReport, Row};
use dp_crew::{flush, flush_if_many};
use dp_edge::{Sink, WriteFail};
use dp_epoch::{CrewSize, RegionEnd};
use dp_meaning::{IterEnd, Machine};
use dp_run_plan::RunRegion;
use std::alloc::Global;
use std::sync::Wait;
use std::time::Clock;

/// How a region ended by an iteration that ended so, if it did.
fn ended_so(end: IterEnd) -> Option<RegionEnd>
    ensures { result ≡ spec.ended_so end }
{
    match end {
        IterEnd::Next => None,
        IterEnd::Closed => Some(RegionEnd::Closed),
        IterEnd::Fault(fault) => Some(RegionEnd::Fault(fault)),
        IterEnd::Fuel | IterEnd::Going => Some(RegionEnd::Fuel),
    }
}

/// Makes the next iteration. Its prints wait behind the others, and are written where many wait. Answers how the region
/// ended, if it did.
fn step<'s, 'q, 'p, R: Wait + Clock, K: Sink>(
    rt: &R,
    alloc: Global,
    runner: &mut Runner<'s, 'q, 'p>,
    waiting: &mut Row<i64>,
    sink: &mut K,
) -> Result<Option<RegionEnd>, WriteFail>
where
    'p: 's,
    requires stands { (p : Tree) × (plan : PlanValue) × (input : List ℤ) × (first : MachineState) × (n : ℕ) × RegionStands p plan input first n runner.old }
    requires sink { K.faults sink.old < 2 ^ 64 - 1 }
    ensures faults { FaultsAfter result (K.faults sink.old) (K.faults sink.new) }
    ensures made { IfOk result (λ end. (p : Tree) (plan : PlanValue) (input : List ℤ) (first : MachineState) (n : ℕ) →
        RegionStands p plan input first n runner.old → spec.Steps p plan input first n runner.new end) }
    ensures emits { IfOk result (λ _. Emits (waiting.old ++ to_come (spec.machine_of runner.old)) (waiting.new ++ to_come (spec.machine_of runner.new))
        (K.written sink.old) (K.written sink.new)) }
    ensures front { OnErr result ((p : Tree) (plan : PlanValue) (input : List ℤ) (first : MachineState) (n : ℕ) → RegionStands p plan input first n runner.old →
        WritesFront (prints_bytes (waiting.old ++ prints (iteration (region_run first) plan.region n))) (K.written sink.old) (K.written sink.new)) }
{
    match runner.next(rt)? {
        None => Ok(Some(RegionEnd::Fuel)),
        Some(group) => {
            let end = group.end;
            waiting.append(group.prints)?;
            flush_if_many(alloc, waiting, sink)?;
            Ok(ended_so(end))
        }
    }
}

/// Makes iterations up to so many, or up to the region's end, and writes their prints.
fn make<'s, 'q, 'p, R: Wait + Clock, K: Sink>(
    rt: &R,
    alloc: Global,
    runner: &mut Runner<'s, 'q, 'p>,
    after: u64,
    sink: &mut K,
) -> Result<Option<RegionEnd>, WriteFail>
where
    'p: 's,
    requires stands { (p : Tree) × (plan : PlanValue) × (input : List ℤ) × (first : MachineState) × RegionStands p plan input first 0 runner.old }
    requires sink { K.faults sink.old < 2 ^ 64 - 1 }
    ensures faults { FaultsAfter result (K.faults sink.old) (K.faults sink.new) }
    ensures stops { IfOk result (λ end. (p : Tree) (plan : PlanValue) (input : List ℤ) (first : MachineState) → RegionStands p plan input first 0 runner.old →
        spec.Stops p plan first after (spec.machine_of runner.new) runner.new.ledger.account.report end) }
    ensures emits { IfOk result (λ _. Emits (to_come (spec.machine_of runner.old)) (to_come (spec.machine_of runner.new)) (K.written sink.old)
        (K.written sink.new)) }
    ensures front { OnErr result ((p : Tree) (plan : PlanValue) (input : List ℤ) (first : MachineState) → RegionStands p plan input first 0 runner.old →
        WritesFront (prints_bytes (spec.prints_until (region_run first) (start (region_run first) plan.region after))) (K.written sink.old)
        (K.written sink.new)) }
{
    let mut waiting = Row::new(alloc);
    let mut end = None;
    let mut made = 0;
    while made < after && end.is_none() {
        end = step(rt, alloc, runner, &mut waiting, sink)?;
        made += 1;
    }
    flush(alloc, &mut waiting, sink)?;
    Ok(end)
}

/// Runs the plan's region, which comes next, up to its iteration `after`, from 0, or to its end, and writes the prints. Answers the machine, the report of
/// the iterations that were made, and how the region ended, if that iteration isn't reached.
pub(crate) fn reach<'p, R: Wait + Clock, K: Sink>(
    rt: &R,
    alloc: Global,
    region: &RunRegion<'_>,
    input: &'p [i64],
    machine: Machine<'p>,
    size: CrewSize,
    after: u64,
    sink: &mut K,
) -> Result<(Machine<'p>, RegionReport, Option<RegionEnd>), WriteFail>
    requires start { RegionStart region.now.program region.now.plan input.now machine }
    requires fuel { machine.fuel ≤ 1000000000 }
    requires sink { K.faults sink.old < 2 ^ 64 - 1 }
    ensures faults { FaultsAfter result (K.faults sink.old) (K.faults sink.new) }
    ensures stops { IfOk result (λ ran. spec.Stops region.now.program region.now.plan machine.entry after ran.0 ran.1 ran.2) }
    ensures written { IfOk result (λ ran. Emits (to_come machine.entry) (to_come ran.0) (K.written sink.old) (K.written sink.new)) }
    ensures front { OnErr result
        (WritesFront (prints_bytes (spec.prints_until (region_run machine.entry) (start (region_run machine.entry) region.now.plan.region after)))
        (K.written sink.old) (K.written sink.new)) }
{
    let mut runner = Runner::begin(alloc, region.region(), input, machine, size)?;
    let end = make(rt, alloc, &mut runner, after, sink)?;
    let (machine, report) = runner.settle();
    Ok((machine, report, end))
}
