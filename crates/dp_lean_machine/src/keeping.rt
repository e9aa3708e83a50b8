//! What a stage keeps where an epoch begins.
ghost use Rattle.std.specs.Prelude.{◌≡◌, suc, IfOk};
ghost use Rattle.dp_plan.specs.Access.{is_replicated};
ghost use Rattle.dp_lean_machine.specs.Kept.{KeepsBase};

use crate::Kept;
use dp_base::{Cells, NoMemory};
use dp_engine::Versioned;
use dp_plan::{Plan, StageKind};
use std::alloc::Global;

/// Whether a stage is replicated; stages count from 1.
fn is_par(plan: &Plan, stage: usize) -> bool
    ensures { result ≡ is_replicated plan.now stage }
{
    if stage == 0 {
        return false;
    }
    match plan.stages.get(stage - 1) {
        Some(StageKind::Par) => true,
        Some(StageKind::Seq) | None => false,
    }
}

/// Whether the stage behind is replicated.
fn next_is_par(plan: &Plan, stage: usize) -> bool
    ensures { result ≡ is_replicated plan.now (suc stage) }
{
    match plan.stages.get(stage) {
        Some(StageKind::Par) => true,
        Some(StageKind::Seq) | None => false,
    }
}

/// What a stage keeps where an epoch begins.
pub(crate) fn kept_at_base(
    alloc: Global,
    plan: &Plan,
    stage: usize,
    base: &Cells,
) -> Result<Kept, NoMemory>
    ensures { IfOk result (λ k. KeepsBase plan.now stage base.now k) }
{
    if is_par(plan, stage) {
        return Ok(Kept::Nothing);
    }
    let cells = base.copy()?;
    if next_is_par(plan, stage) {
        let both = Versioned::of(alloc, cells)?;
        return Ok(Kept::Versioned(both));
    }
    Ok(Kept::Cells(cells))
}
