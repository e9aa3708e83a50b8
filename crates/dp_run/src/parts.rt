//! The parts of `main`, one after the other.
ghost use Rattle.std.specs.Prelude.{◌≡◌, ◌<◌, ◌≤◌, ◌-◌, ◌+◌, ◌^◌, [], ℕ, suc, length, IfOk, OnErr};
ghost use Rattle.dp_tree.specs.Trace.{Run};
ghost use Rattle.dp_report.specs.PrintsText.{prints_bytes};
ghost use Rattle.dp_edge.specs.Writing.{FaultsAfter, WritesFront};
ghost use Rattle.dp_crew.specs.Output.{Emits};
ghost use Rattle.dp_run.specs.Prepared.{AreOf, plans_in};
ghost use Rattle.dp_run.specs.Stretches.{Ahead, FrontBefore, Went, to_come};

use crate::plain::run_plain;
use crate::stretch::run_stretch;
use dp_base::{End, RegionReport, Row};
use dp_commit::{Tally, Watch};
use dp_edge::{Gate, Sink, WriteFail};
use dp_epoch::CrewSize;
use dp_meaning::{Machine, NativeCode};
use dp_run_plan::RunRegion;
use std::alloc::Global;
use std::sync::Wait;
use std::thread::Threads;
use std::time::Clock;

/// Runs the plain part that comes next, if one does, and then the region of each plan with the plain part behind it, up to
/// the run's end. Reports of the regions that are reached are appended, with causes where `why` asks for them. Without an
/// end the run stands behind all of them: at the end of `main`, or before the next region.
pub fn run_parts<'p, R: Threads + Wait + Clock + Sync, N: NativeCode, K: Sink, G: Gate, W: Watch>(
    rt: &R,
    alloc: Global,
    native: &N,
    regions: &[RunRegion<'_>],
    input: &'p [i64],
    mut machine: Machine<'p>,
    size: CrewSize,
    why: bool,
    reports: &mut Row<RegionReport>,
    sink: &mut K,
    gate: &G,
    tally: &mut Tally<W>,
) -> Result<(Machine<'p>, Option<End>), WriteFail>
    requires ahead { (run : Run) × (n : ℕ) × Ahead machine.program (plans_in regions.now) input.now machine.fuel run n machine }
    requires regions { AreOf machine.program regions.now }
    requires words { length input.now ≤ 65536 }
    requires fuel { machine.fuel ≤ 1000000000 }
    requires sink { K.faults sink.old < 2 ^ 64 - 1 }
    requires room { tally.old < 2 ^ 63 }
    ensures faults { FaultsAfter result (K.faults sink.old) (K.faults sink.new) }
    ensures ok { IfOk result (λ ran. (run : Run) (n : ℕ) → Ahead machine.entry.program (plans_in regions.now) input.now machine.entry.fuel run n machine.entry →
        Went why machine.entry.program (plans_in regions.now) input.now machine.entry.fuel run n ran.0 ran.1 reports.old reports.new tally.old tally.new) }
    ensures written { IfOk result (λ ran. Emits (to_come machine.entry) (to_come ran.0) (K.written sink.old) (K.written sink.new)) }
    ensures front { OnErr result (WritesFront (prints_bytes (to_come machine.entry)) (K.written sink.old) (K.written sink.new)) }
    ensures before { OnErr result ((run : Run) (n : ℕ) → Ahead machine.entry.program (plans_in regions.now) input.now machine.entry.fuel run n machine.entry →
        FrontBefore (suc (n + length regions.now)) [] machine.entry (K.written sink.old) (K.written sink.new)) }
{
    if let Some(end) = run_plain(alloc, native, &mut machine, sink, tally)? {
        return Ok((machine, Some(end)));
    }
    for region in regions {
        let (next, end) = run_stretch(
            rt, alloc, native, region, input, machine, size, why, reports, sink, gate, tally,
        )?;
        machine = next;
        if let Some(end) = end {
            return Ok((machine, Some(end)));
        }
    }
    Ok((machine, None))
}
