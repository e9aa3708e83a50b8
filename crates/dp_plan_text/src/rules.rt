//! The nine rules of a valid plan, tested on a plan as it is written.

ghost use Rattle.std.specs.Prelude.{◌≡◌, IfOk};
ghost use Rattle.dp_plan.specs.Valid as spec;

mod assumptions;
mod lists;
mod stages;

use dp_base::NoMemory;
use dp_plan::{BrokenRule, WrittenPlan};
use dp_tree::Program;
pub use stages::written_stage;
use std::alloc::Global;

/// The first rule that a region's plan breaks.
pub fn first_broken(
    alloc: Global,
    p: &Program,
    w: &WrittenPlan,
) -> Result<Option<BrokenRule>, NoMemory>
    ensures { IfOk result (λ broken. broken ≡ spec.first_broken p.now w.now) }
{
    if let Some(broken) = lists::broken(alloc, p, w)? {
        return Ok(Some(broken));
    }
    if let Some(broken) = stages::broken(alloc, p, w)? {
        return Ok(Some(broken));
    }
    assumptions::broken(alloc, p, w)
}

/// The first rule that the plans break, region by region.
pub fn first_fault(
    alloc: Global,
    p: &Program,
    all: &[WrittenPlan],
) -> Result<Option<BrokenRule>, NoMemory>
    ensures { IfOk result (λ fault. fault ≡ spec.first_fault p.now all.now) }
{
    for written in all {
        if let Some(broken) = first_broken(alloc, p, written)? {
            return Ok(Some(broken));
        }
    }
    Ok(None)
}
