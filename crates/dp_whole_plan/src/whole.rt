//! The plans of all regions.
ghost use Rattle.std.specs.Prelude.{◌<◌, IfOk, IfSome};
ghost use Rattle.dp_tree.specs.Inlined.{IsInlined};
ghost use Rattle.dp_plan.specs.GivenPlans.{ArePlans};

use crate::joined::Sites;
use dp_base::{NoMemory, Row};
use dp_cut::{cut, few, light_weights};
use dp_depend::{Graph, nodes_of};
use dp_plan::{Plan, first_of};
use dp_plan_text::{PlanFail, read_plans, read_plans_are_plans, write_plans};
use dp_tree::Program;
use dp_units::units;
use std::alloc::Global;

/// So many stages at most: one before the loops, one of them, one behind.
const STAGES: u32 = 3;

/// The cut of a region's units, where each outermost inner loop is of one.
fn whole_plan(alloc: Global, p: &Program, region: u32, workers: u32) -> Result<Plan, NoMemory>
    requires workers { 0 < workers }
    requires few_workers { workers < 9 }
{
    let weights = light_weights(alloc, p, region, None)?;
    let count = few(weights.len())?;
    let graph = Graph::build(alloc, p, region, None, 0)?;
    let nodes = nodes_of(alloc, p, region)?;
    let sites = Sites {
        first: first_of(p, region),
        count,
    };
    let pairs = sites.joined(alloc, graph.edges(), nodes.as_slice())?;
    let units = units(alloc, count, pairs.as_slice())?;
    let _units = few(units.order().len())?;
    cut(
        alloc,
        p,
        region,
        &graph,
        &units,
        weights.as_slice(),
        STAGES,
        workers,
    )
}

/// Whether a region has an inner loop.
fn has_loop(alloc: Global, p: &Program, region: u32) -> Result<bool, NoMemory> {
    let nodes = nodes_of(alloc, p, region)?;
    for node in nodes.as_slice() {
        if node.outer_loop.is_some() {
            return Ok(true);
        }
    }
    Ok(false)
}

/// Whether one of the regions has an inner loop.
fn has_loops(alloc: Global, p: &Program) -> Result<bool, NoMemory> {
    for place in 0..p.regions.len() {
        let region = few(place + 1)?;
        if has_loop(alloc, p, region)? {
            return Ok(true);
        }
    }
    Ok(false)
}

/// The plans of a text, unless it breaks a rule.
fn plans_in(alloc: Global, text: &[u8], p: &Program) -> Result<Option<Row<Plan>>, NoMemory>
    requires inlined { IsInlined p.now }
    ensures { IfOk result (λ plans. IfSome plans (λ plans. ArePlans p.now plans)) }
{
    read_plans_are_plans(p);
    match read_plans(alloc, text, p) {
        Ok(plans) => Ok(Some(plans)),
        Err(PlanFail::NoMemory) => Err(NoMemory),
        Err(_) => Ok(None),
    }
}

/// A plan for each region of an inlined program that keeps its inner loops whole, for a replicated stage with so many workers, from
/// 1 to 8. It is written as a text and read back, so the rules are tested as those of any text; none where one is broken, and none
/// where no region has an inner loop.
pub fn whole_plans(alloc: Global, p: &Program, workers: u32) -> Result<Option<Row<Plan>>, NoMemory>
    requires inlined { IsInlined p.now }
    requires workers { 0 < workers }
    requires few_workers { workers < 9 }
    ensures { IfOk result (λ plans. IfSome plans (λ plans. ArePlans p.now plans)) }
{
    if !has_loops(alloc, p)? {
        return Ok(None);
    }
    let mut made = Row::new(alloc);
    for place in 0..p.regions.len() {
        let region = few(place + 1)?;
        let plan = whole_plan(alloc, p, region, workers)?;
        made.push(plan)?;
    }
    let text = write_plans(alloc, made.as_slice(), p)?;
    plans_in(alloc, text.as_slice(), p)
}
