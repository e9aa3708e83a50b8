//! The one-stage form of a plan.
ghost use Rattle.std.specs.Prelude.{◌≡◌, IfOk, false, map, not};
ghost use Rattle.std.specs.List.{list_any};
ghost use Rattle.dp_tree.specs.Inlined.{IsInlined};
ghost use Rattle.dp_tree.specs.declared.Program.{Program};
ghost use Rattle.dp_plan.specs.GivenPlans.{IsPlan};
ghost use Rattle.dp_run_plan.specs.Others.{checks_nothing};
ghost use Rattle.dp_run_plan.specs.RunPlan as spec;

use dp_base::{NoMemory, Row};
use dp_plan::{Plan, StageKind};
use std::alloc::Global;

/// Whether the table says yes of none.
fn says_no(table: &[bool]) -> bool
    ensures { result ≡ not (list_any (λ checked. checked) table.now) }
{
    for checked in table {
        if *checked {
            return false;
        }
    }
    true
}

/// Whether no site of the region is checked, so that each stage sees what the source has.
pub fn hides_nothing(plan: &Plan) -> bool
    ensures table { result ≡ checks_nothing plan.now }
    ensures given { (p : Program) → IsInlined p → IsPlan p plan.now → result ≡ spec.hides_nothing p plan.now }
{
    says_no(plan.checked_at.as_slice())
}

/// Stage 1 for each of these sites.
fn first_stages(alloc: Global, stages: &[u32]) -> Result<Row<u32>, NoMemory>
    ensures { IfOk result (λ made. made ≡ map (λ _. 1) stages.now) }
{
    let mut made = Row::with_capacity(alloc, stages.len())?;
    for _stage in stages {
        made.push(1)?;
    }
    Ok(made)
}

/// A table that says no of each of these sites.
fn unchecked(alloc: Global, checked: &[bool]) -> Result<Row<bool>, NoMemory>
    ensures { IfOk result (λ made. made ≡ map (λ _. false) checked.now) }
{
    let mut made = Row::with_capacity(alloc, checked.len())?;
    for _checked in checked {
        made.push(false)?;
    }
    Ok(made)
}

/// The plan with all sites of its region in one sequential stage.
pub fn one_stage(alloc: Global, plan: &Plan) -> Result<Plan, NoMemory>
    ensures { IfOk result (λ made. made ≡ spec.one_stage plan.now) }
{
    let mut stages = Row::with_capacity(alloc, 1)?;
    stages.push(StageKind::Seq)?;
    let stage_of = first_stages(alloc, plan.stage_of.as_slice())?;
    let assume = Row::from_slice(alloc, plan.assume.as_slice())?;
    let checked_at = unchecked(alloc, plan.checked_at.as_slice())?;
    Ok(Plan {
        region: plan.region,
        words: plan.words,
        stages,
        stage_of,
        assume,
        proved: plan.proved,
        checked_at,
    })
}
