//! What wakes the threads of an epoch's units.
ghost use Rattle.std.specs.Prelude.{◌≡◌, ◌+◌, length, IfOk, OnOk};
ghost use Rattle.dp_pipeline.specs.UnitCount.{unit_count, unit_count_of};

use crate::size::CrewSize;
use dp_base::NoMemory;
use dp_plan::{Plan, StageKind};
use dp_prepared::PreparedRegion;
use dp_waiting::Bell;
use std::alloc::Global;

/// A bell for the thread of each unit that an epoch of the region has, in the order of the units, but of the last: the caller judges,
/// and has the bell behind them.
pub fn bells_for(
    alloc: Global,
    region: &PreparedRegion<'_>,
    size: CrewSize,
) -> Result<Vec<Bell>, NoMemory>
    ensures { IfOk result (λ bells. length bells.items ≡ unit_count size.workers region.now.plan) }
{
    bells_of(alloc, region.plan(), size, region.cap() as u32)
}

/// The same, of units of a plan whose items are of so many iterations at most.
fn bells_of(
    alloc: Global,
    plan: &Plan,
    size: CrewSize,
    together: u32,
) -> Result<Vec<Bell>, NoMemory>
    ensures { IfOk result (λ bells. length bells.items ≡ unit_count size.workers plan.now) }
{
    let mut bells = Vec::new(alloc);
    for kind in plan.stages.as_slice() {
        add_bells(&mut bells, *kind, size.workers, together)?;
    }
    bells.push(Bell::new(false, together))?;
    Ok(bells)
}

/// Adds the bells of a stage's units.
fn add_bells(
    bells: &mut Vec<Bell>,
    kind: StageKind,
    workers: u32,
    together: u32,
) -> Result<(), NoMemory>
    ensures { OnOk result (length bells.new.items ≡ length bells.old.items + unit_count_of workers kind) }
{
    match kind {
        StageKind::Seq => bells.push(Bell::new(false, together))?,
        StageKind::Par => add_workers_bells(bells, workers, together)?,
    }
    Ok(())
}

/// Adds the bells of so many workers.
fn add_workers_bells(bells: &mut Vec<Bell>, workers: u32, together: u32) -> Result<(), NoMemory>
    ensures { OnOk result (length bells.new.items ≡ length bells.old.items + workers) }
{
    for _ in 0..workers {
        bells.push(Bell::new(true, together))?;
    }
    Ok(())
}
