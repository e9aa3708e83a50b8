//! All regions of a program, made ready.
ghost use Rattle.std.specs.Prelude.{◌≡◌, IfOk, map};
ghost use Rattle.dp_tree.specs.Inlined.{IsInlined};
ghost use Rattle.dp_plan.specs.Each.{Each};
ghost use Rattle.dp_plan.specs.GivenPlans.{IsPlan};
ghost use Rattle.dp_prepared.specs.Planned.{prepared_of};

use crate::region::PreparedRegion;
use dp_base::{NoMemory, Row};
use dp_plan::Plan;
use dp_tree::Program;
use std::alloc::Global;

/// The regions of these plans, each made ready.
pub fn prepare<'p>(
    alloc: Global,
    program: &'p Program,
    plans: &'p [Plan],
) -> Result<Row<PreparedRegion<'p>>, NoMemory>
    requires inlined { IsInlined program.now }
    requires plans { Each (IsPlan program.now) plans.now }
    ensures { IfOk result (λ regions. regions ≡ map (prepared_of program.now) plans.now) }
{
    let mut regions = Row::with_capacity(alloc, plans.len())?;
    for plan in plans {
        let region = PreparedRegion::new(alloc, program, plan)?;
        regions.push(region)?;
    }
    Ok(regions)
}
