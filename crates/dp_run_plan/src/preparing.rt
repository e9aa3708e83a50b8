//! All regions of a program, made ready, each with the other plan that it may be run under.
ghost use Rattle.std.specs.Prelude.{◌≡◌, IfOk, map};
ghost use Rattle.dp_tree.specs.Inlined.{IsInlined};
ghost use Rattle.dp_plan.specs.Each.{Each};
ghost use Rattle.dp_plan.specs.GivenPlans.{IsPlan};
ghost use Rattle.dp_prepared.specs.Planned.{prepared_of};
ghost use Rattle.dp_run_plan.specs.Others.{AreOthers};

use crate::fitting::fitting;
use crate::plans::RunPlans;
use crate::region::RunRegion;
use dp_base::{NoMemory, Row};
use dp_plan::Plan;
use dp_tree::Program;
use std::alloc::Global;

/// The regions of these plans, each made ready.
pub fn prepare<'p>(
    alloc: Global,
    program: &'p Program,
    plans: &'p [Plan],
    others: &'p RunPlans,
) -> Result<Row<RunRegion<'p>>, NoMemory>
    requires inlined { IsInlined program.now }
    requires plans { Each (IsPlan program.now) plans.now }
    requires others { AreOthers program.now plans.now others.now }
    ensures { IfOk result (λ regions. regions ≡ map (prepared_of program.now) plans.now) }
{
    let mut regions = Row::with_capacity(alloc, plans.len())?;
    for plan in plans {
        let other = others.at(regions.len());
        let whole = fitting(plan, others.whole_at(regions.len()));
        let region = RunRegion::new(alloc, program, plan, other, whole)?;
        regions.push(region)?;
    }
    Ok(regions)
}
