//! The plans that a text stands for.

ghost use Rattle.std.specs.Prelude.{◌≡◌, ◌≤◌, ◌^◌, IfOk, MatchResult, map, filter_map};
ghost use Rattle.dp_plan.specs.Written as written;
ghost use Rattle.dp_plan_text.specs.Refused.{ReadsAsPlans};

use crate::PlanFail;
use crate::rules::{first_fault, written_stage};
use crate::text::read_text;
use dp_base::{NoMemory, Row, SiteId};
use dp_plan::{Plan, StageKind, WrittenPlan, WrittenStage};
use dp_sites::{sites_of, tabled};
use dp_tree::{Assume, Program};
use std::alloc::Global;

fn kinds(alloc: Global, lines: &[WrittenStage]) -> Result<Row<StageKind>, NoMemory>
    ensures { IfOk result (λ kinds. kinds ≡ map written.kind_in lines.now) }
{
    let mut kinds = Row::new(alloc);
    for line in lines {
        kinds.push(line.kind)?;
    }
    Ok(kinds)
}

/// The number of a site's stage. One that has more than 32 bits answers want of memory.
fn stage(w: &WrittenPlan, site: u32) -> Result<u32, NoMemory>
    ensures { MatchResult result (λ stage. stage ≡ written.written_stage w.now site) (λ _. 2 ^ 32 ≤ written.written_stage w.now site) }
{
    u32::try_from(written_stage(w, site)).map_err(|_| NoMemory)
}

/// The stage of each of the sites.
fn stages_at(alloc: Global, w: &WrittenPlan, sites: &[u32]) -> Result<Row<u32>, NoMemory>
    ensures { IfOk result (λ stages. stages ≡ map (written.written_stage w.now) sites.now) }
{
    let mut stages = Row::new(alloc);
    for site in sites {
        stages.push(stage(w, *site)?)?;
    }
    Ok(stages)
}

/// The first assumption of a site.
fn assumption_at(all: &[Assume], site: u32) -> Option<Assume>
    ensures { result ≡ written.assumption_at all.now site }
{
    for assumption in all {
        if assumption.site.0 == site {
            return Some(*assumption);
        }
    }
    None
}

/// The assumptions in the order of the sites.
fn assumptions_at(alloc: Global, all: &[Assume], sites: &[u32]) -> Result<Row<Assume>, NoMemory>
    ensures { IfOk result (λ assume. assume ≡ filter_map (written.assumption_at all.now) sites.now) }
{
    let mut assume = Row::new(alloc);
    for site in sites {
        if let Some(assumption) = assumption_at(all, *site) {
            assume.push(assumption)?;
        }
    }
    Ok(assume)
}

/// The plan, but for its table, that a valid written plan stands for.
fn plan_before_table(
    alloc: Global,
    p: &Program,
    proved: bool,
    w: &WrittenPlan,
) -> Result<Plan, NoMemory>
    ensures { IfOk result (λ plan. plan ≡ written.plan_before_table p.now proved w.now) }
{
    let sites = sites_of(alloc, p, w.region)?;
    Ok(Plan {
        region: w.region,
        words: w.words,
        stages: kinds(alloc, w.stages.as_slice())?,
        stage_of: stages_at(alloc, w, sites.as_slice())?,
        assume: assumptions_at(alloc, w.assume.as_slice(), sites.as_slice())?,
        proved,
        checked_at: Row::new(alloc),
    })
}

fn plan_of(alloc: Global, p: &Program, proved: bool, w: &WrittenPlan) -> Result<Plan, NoMemory>
    ensures { IfOk result (λ plan. plan ≡ written.plan_of p.now proved w.now) }
{
    tabled(alloc, p, plan_before_table(alloc, p, proved, w)?)
}

/// The plans that valid written plans stand for.
fn plans_of(
    alloc: Global,
    p: &Program,
    proved: bool,
    all: &[WrittenPlan],
) -> Result<Row<Plan>, NoMemory>
    ensures { IfOk result (λ plans. plans ≡ map (written.plan_of p.now proved) all.now) }
{
    let mut plans = Row::new(alloc);
    for written in all {
        plans.push(plan_of(alloc, p, proved, written)?)?;
    }
    Ok(plans)
}

/// The plans of a text, or why it gives none.
///
/// The lines are judged first, then the rules, region by region.
pub fn read_plans(alloc: Global, bytes: &[u8], p: &Program) -> Result<Row<Plan>, PlanFail>
    ensures { ReadsAsPlans p.now bytes.now result }
{
    let text = read_text(alloc, bytes, p)?;
    let written = text.plans.as_slice();
    if let Some(broken) = first_fault(alloc, p, written)? {
        return Err(PlanFail::Invalid {
            rule: broken.rule,
            site: SiteId(broken.site),
        });
    }
    let plans = plans_of(alloc, p, text.proved, written)?;
    Ok(plans)
}
