//! The parts of `main`, one after the other.
ghost use Rattle.std.specs.Prelude.{◌<◌, ◌≤◌, ◌-◌, ◌^◌, ◌++◌, ℕ, IfOk};
ghost use Rattle.dp_tree.specs.Trace.{Run};
ghost use Rattle.dp_log.specs.LogText.{logged_regions};
ghost use Rattle.dp_edge.specs.Writing.{FaultsAfter};
ghost use Rattle.dp_run.specs.Prepared.{AreOf, plans_in};
ghost use Rattle.dp_run.specs.Stretches.{Ahead};
ghost use Rattle.dp_logging.specs.Parts.{WentBy};
ghost use Rattle.dp_logging.specs.Pouring.{StreamsText};

use crate::plain::skip_plain;
use crate::stretch::log_stretch;
use dp_base::{End, Row};
use dp_edge::{Sink, WriteFail};
use dp_epoch::CrewSize;
use dp_meaning::Machine;
use dp_run_plan::RunRegion;
use std::alloc::Global;
use std::sync::Wait;
use std::time::Clock;

/// Runs the plain part that comes next, if one does, and then the region of each plan with its log, and the plain part behind
/// it, up to the run's end. Without an end the run stands behind all of them.
pub(crate) fn log_parts<'p, R: Wait + Clock, K: Sink>(
    rt: &R,
    alloc: Global,
    regions: &[RunRegion<'_>],
    input: &'p [i64],
    mut machine: Machine<'p>,
    size: CrewSize,
    out: &mut Row<u8>,
    sink: &mut K,
) -> Result<(Machine<'p>, Option<End>), WriteFail>
    requires ahead { (run : Run) × (n : ℕ) × Ahead machine.program (plans_in regions.now) input.now machine.fuel run n machine }
    requires regions { AreOf machine.program regions.now }
    requires fuel { machine.fuel ≤ 1000000000 }
    requires sink { K.faults sink.old < 2 ^ 64 - 1 }
    ensures faults { FaultsAfter result (K.faults sink.old) (K.faults sink.new) }
    ensures ok { IfOk result (λ ran. (run : Run) (n : ℕ) → Ahead machine.entry.program (plans_in regions.now) input.now machine.entry.fuel run n machine.entry →
        WentBy machine.entry.program (plans_in regions.now) input.now machine.entry.fuel run n ran.0 ran.1) }
    ensures streams { (run : Run) (n : ℕ) → Ahead machine.entry.program (plans_in regions.now) input.now machine.entry.fuel run n machine.entry →
        StreamsText result (out.old ++ logged_regions machine.entry.program (plans_in regions.now) run) (λ _. out.new) (K.written sink.old)
        (K.written sink.new) }
{
    if let Some(end) = skip_plain(alloc, &mut machine)? {
        return Ok((machine, Some(end)));
    }
    for region in regions {
        let (next, end) = log_stretch(rt, alloc, region, input, machine, size, out, sink)?;
        machine = next;
        if let Some(end) = end {
            return Ok((machine, Some(end)));
        }
    }
    Ok((machine, None))
}
