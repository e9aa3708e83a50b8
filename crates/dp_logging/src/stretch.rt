//! A region with its log, and the plain part behind it.
ghost use Rattle.std.specs.Prelude.{◌≡◌, ◌<◌, ◌≤◌, ◌-◌, ◌^◌, ◌++◌, List, ℤ, ℕ, suc, IfOk};
ghost use Rattle.dp_tree.specs.declared.Program.{Program as Tree};
ghost use Rattle.dp_tree.specs.Trace.{Run};
ghost use Rattle.dp_log.specs.LogText.{region_bytes};
ghost use Rattle.dp_edge.specs.Writing.{FaultsAfter};
ghost use Rattle.dp_run.specs.Stretches.{AfterRegion, Between, Leads};
ghost use Rattle.dp_logging.specs.Pouring.{StreamsText};

use crate::plain::skip_plain;
use crate::region::log_runner;
use dp_audit::Runner;
use dp_base::{End, NoMemory, Row};
use dp_edge::{Sink, WriteFail};
use dp_epoch::{CrewSize, RegionEnd};
use dp_meaning::Machine;
use dp_run_plan::RunRegion;
use std::alloc::Global;
use std::sync::Wait;
use std::time::Clock;

/// Runs the plan's region, which comes next, with its log, and the plain part behind it. Answers the run's end if that comes
/// in them.
pub(crate) fn log_stretch<'p, R: Wait + Clock, K: Sink>(
    rt: &R,
    alloc: Global,
    region: &RunRegion<'_>,
    input: &'p [i64],
    machine: Machine<'p>,
    size: CrewSize,
    out: &mut Row<u8>,
    sink: &mut K,
) -> Result<(Machine<'p>, Option<End>), WriteFail>
    requires between { (run : Run) × (n : ℕ) × (region.now.plan.region ≡ suc n) × Between region.now.program input.now machine.fuel run n machine }
    requires fuel { machine.fuel ≤ 1000000000 }
    requires sink { K.faults sink.old < 2 ^ 64 - 1 }
    ensures faults { FaultsAfter result (K.faults sink.old) (K.faults sink.new) }
    ensures ok { IfOk result (λ ran. (run : Run) (n : ℕ) → region.now.plan.region ≡ suc n →
        Between region.now.program input.now machine.entry.fuel run n machine.entry →
        Leads region.now.program input.now machine.entry.fuel run (suc n) ran.0 ran.1) }
    ensures streams { (run : Run) (n : ℕ) → region.now.plan.region ≡ suc n → Between region.now.program input.now machine.entry.fuel run n machine.entry →
        StreamsText result (out.old ++ region_bytes region.now.program region.now.plan run) (λ _. out.new) (K.written sink.old) (K.written sink.new) }
{
    let number = region.number();
    let runner = Runner::begin(alloc, region.region(), input, machine, size)?;
    let (next, end) = log_runner(rt, runner, number, out, sink)?;
    let passed = pass_plain(alloc, next, end)?;
    Ok(passed)
}

/// Runs the plain part behind a region that ended so.
fn pass_plain<'p>(
    alloc: Global,
    machine: Machine<'p>,
    end: RegionEnd,
) -> Result<(Machine<'p>, Option<End>), NoMemory>
    ensures { IfOk result (λ ran. (p : Tree) (input : List ℤ) (fuel : ℕ) (run : Run) (n : ℕ) → AfterRegion p input fuel run n machine.entry end →
        Leads p input fuel run n ran.0 ran.1) }
{
    let mut machine = machine;
    let end = match end {
        RegionEnd::Closed => skip_plain(alloc, &mut machine)?,
        RegionEnd::Fault(fault) => Some(End::Fault(fault)),
        RegionEnd::Fuel => Some(End::Fuel),
    };
    Ok((machine, end))
}
