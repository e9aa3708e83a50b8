//! The plans under which regions may be run in place of their own.
ghost use Rattle.std.specs.Prelude.{IfOk};
ghost use Rattle.dp_tree.specs.Inlined.{IsInlined};
ghost use Rattle.dp_plan.specs.Each.{Each};
ghost use Rattle.dp_plan.specs.GivenPlans.{IsPlan};
ghost use Rattle.dp_run.specs.Given.{AreGiven};
ghost use Rattle.dp_run_plan.specs.Others.{AreOthers};

use dp_base::{NoMemory, Row};
use dp_plan::Plan;
use dp_run_plan::RunPlans;
use dp_tree::Program;
use dp_whole_plan::whole_plans;
use std::alloc::Global;

/// A plan that keeps inner loops whole is made for so many workers.
const WORKERS: u32 = 3;

/// Plans that keep inner loops whole, one for each region, or none. Where there is no memory for them, regions are run without.
fn wholes_of(alloc: Global, program: &Program) -> Row<Plan>
    requires inlined { IsInlined program.now }
    ensures { Each (IsPlan program.now) result }
{
    match whole_plans(alloc, program, WORKERS) {
        Ok(Some(plans)) => plans,
        Ok(None) => Row::new(alloc),
        Err(NoMemory) => Row::new(alloc),
    }
}

/// The run plans of these, where regions may be run under others.
pub(crate) fn run_plans(
    alloc: Global,
    program: &Program,
    plans: &[Plan],
    chooses: bool,
) -> Result<RunPlans, NoMemory>
    requires given { AreGiven program.now plans.now }
    ensures { IfOk result (AreOthers program.now plans.now) }
{
    let wholes = if chooses {
        wholes_of(alloc, program)
    } else {
        Row::new(alloc)
    };
    RunPlans::of(alloc, plans, wholes, chooses)
}
