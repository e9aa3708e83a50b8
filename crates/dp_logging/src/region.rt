//! The log of a region.
ghost use Rattle.std.specs.Prelude.{◌≡◌, ◌<◌, ◌-◌, ◌^◌, ◌++◌, List, ℤ, ℕ, None, IfOk};
ghost use Rattle.dp_tree.specs.declared.Program.{Program as Tree};
ghost use Rattle.dp_plan.specs.declared.Plan.{Plan as PlanValue};
ghost use Rattle.dp_log.specs.LogText.{region_bytes};
ghost use Rattle.dp_meaning.specs.MachineState.{MachineState};
ghost use Rattle.dp_edge.specs.Writing.{FaultsAfter};
ghost use Rattle.dp_epoch.specs.Applied.{steps_left};
ghost use Rattle.dp_epoch.specs.RegionRun.{RegionRan, region_run};
ghost use Rattle.dp_audit.specs.Runs.{RegionStands};
ghost use Rattle.dp_logging.specs.Lines.{left_lines, left_then};
ghost use Rattle.dp_logging.specs.Logged.{Logged};
ghost use Rattle.dp_logging.specs.Pouring.{StreamsText};

use crate::lines::{put_lines, region_end};
use crate::pouring::pour_if_many;
use dp_audit::Runner;
use dp_base::Row;
use dp_edge::{Sink, WriteFail};
use dp_epoch::RegionEnd;
use dp_meaning::Machine;
use std::sync::Wait;
use std::time::Clock;

/// Brings the region to its end, and lets its lines wait or writes them.
pub(crate) fn log_runner<'s, 'q, 'p, R: Wait + Clock, K: Sink>(
    rt: &R,
    mut runner: Runner<'s, 'q, 'p>,
    region: u32,
    out: &mut Row<u8>,
    sink: &mut K,
) -> Result<(Machine<'p>, RegionEnd), WriteFail>
where
    'p: 's,
    requires stands { (p : Tree) × (plan : PlanValue) × (input : List ℤ) × (first : MachineState) × (plan.region ≡ region)
        × RegionStands p plan input first 0 runner }
    requires sink { K.faults sink.old < 2 ^ 64 - 1 }
    ensures faults { FaultsAfter result (K.faults sink.old) (K.faults sink.new) }
    ensures ran { IfOk result (λ ran. (p : Tree) (plan : PlanValue) (input : List ℤ) (first : MachineState) → plan.region ≡ region →
        RegionStands p plan input first 0 runner.entry → RegionRan p plan first ran.0 ran.1) }
    ensures streams { (p : Tree) (plan : PlanValue) (input : List ℤ) (first : MachineState) → plan.region ≡ region →
        RegionStands p plan input first 0 runner.entry →
        StreamsText result (out.old ++ region_bytes p plan (region_run first)) (λ _. out.new) (K.written sink.old) (K.written sink.new) }
{
    'iterations: loop {
        match log_next(rt, &mut runner, region, out, sink)? {
            None => {}
            Some(end) => return Ok((runner.finish(), end)),
        }
    }
}

/// Makes the next iteration. Answers the region's end if it comes with it.
fn log_next<'s, 'q, 'p, R: Wait + Clock, K: Sink>(
    rt: &R,
    runner: &mut Runner<'s, 'q, 'p>,
    region: u32,
    out: &mut Row<u8>,
    sink: &mut K,
) -> Result<Option<RegionEnd>, WriteFail>
where
    'p: 's,
    requires stands { (p : Tree) × (plan : PlanValue) × (input : List ℤ) × (first : MachineState) × (n : ℕ) × (plan.region ≡ region)
        × RegionStands p plan input first n runner.old }
    requires sink { K.faults sink.old < 2 ^ 64 - 1 }
    ensures faults { FaultsAfter result (K.faults sink.old) (K.faults sink.new) }
    ensures ok { IfOk result (λ end. (p : Tree) (plan : PlanValue) (input : List ℤ) (first : MachineState) (n : ℕ) →
        RegionStands p plan input first n runner.old → Logged p plan input first n runner.new end) }
    ensures streams { (p : Tree) (plan : PlanValue) (input : List ℤ) (first : MachineState) (n : ℕ) → plan.region ≡ region →
        RegionStands p plan input first n runner.old →
        StreamsText result (out.old ++ left_lines p plan (region_run first) n) (λ end. out.new ++ left_then p plan (region_run first) n end)
        (K.written sink.old) (K.written sink.new) }
    ensures left { IfOk result (λ end. end ≡ None → steps_left runner.new.ledger.committed < steps_left runner.old.ledger.committed) }
{
    match runner.next(rt)? {
        Some(group) => {
            put_lines(out, region, &group)?;
            pour_if_many(out, sink)?;
            Ok(region_end(group.end))
        }
        None => Ok(Some(RegionEnd::Fuel)),
    }
}
