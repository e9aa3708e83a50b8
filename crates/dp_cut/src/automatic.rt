//! The automatic plans of a program.
ghost use Rattle.std.specs.Prelude.{◌≡◌, ◌≤◌, ◌<◌, ◌-◌, ◌⊎◌, ◌^◌, IfOk, OnErr, length, map, sum, true, false};
ghost use Rattle.std.specs.Option.{option_copied};
ghost use Rattle.dp_tree.specs.Inlined.{IsInlined};
ghost use Rattle.dp_plan.specs.GivenPlans.{ArePlans};
ghost use Rattle.dp_depend.specs.Edges.{first_in_region as first_site};
ghost use Rattle.dp_units.specs.Graph.{AreWithin};
ghost use Rattle.dp_units.specs.Order.{ArePlaces, IsOrder};
ghost use Rattle.dp_cut.specs.Automatic as spec;

use crate::plan::cut;
use crate::site_weights::{is_light, weights_of};
use dp_base::{NoMemory, Row};
use dp_depend::{Edge, Graph, nodes_of};
use dp_plan::{Plan, first_of};
use dp_profile::Profile;
use dp_tree::Program;
use dp_units::{Units, units};
use std::alloc::Global;

/// How an automatic plan is made.
#[derive(Clone, Copy)]
pub struct Wishes<'a> {
    pub profile: Option<&'a Profile>,
    /// Up to how many loads in a thousand runs are rare.
    pub rate: u32,
    /// The most stages, from 1 to 8.
    pub stages: u32,
    /// How many workers a replicated stage has, from 1 to 8.
    pub workers: u32,
}

/// The ends of an edge, where the first site has number 0. One outside of the region answers want of memory; the edges of an inlined program have none.
fn pair_of(first: u32, count: u32, edge: &Edge) -> Result<(u32, u32), NoMemory>
    ensures value { IfOk result (λ pair. pair ≡ spec.node_pair first edge.now) }
    ensures from { IfOk result (λ pair. pair.0 < count) }
    ensures to { IfOk result (λ pair. pair.1 < count) }
    ensures outside { OnErr result ((count ≤ edge.now.from.0 - first) ⊎ (count ≤ edge.now.to.0 - first)) }
{
    let from = edge.from.0.saturating_sub(first);
    let to = edge.to.0.saturating_sub(first);
    if from < count && to < count {
        Ok((from, to))
    } else {
        Err(NoMemory)
    }
}

fn pairs_of(
    alloc: Global,
    first: u32,
    count: u32,
    edges: &[Edge],
) -> Result<Row<(u32, u32)>, NoMemory>
    ensures value { IfOk result (λ pairs. pairs ≡ map (spec.node_pair first) edges.now) }
    ensures within { IfOk result (λ pairs. AreWithin count pairs) }
{
    let mut pairs = Row::new(alloc);
    for edge in edges {
        let pair = pair_of(first, count, edge)?;
        pairs.push(pair)?;
    }
    Ok(pairs)
}

/// The count, where 32 bits hold it.
pub fn few(count: usize) -> Result<u32, NoMemory>
    ensures value { IfOk result (λ few. few ≡ count) }
    ensures many { OnErr result (2 ^ 32 ≤ count) }
{
    u32::try_from(count).map_err(|_| NoMemory)
}

/// There are fewer than the numbers of 32 bits.
fn are_few(order: &[u32]) -> bool
    ensures few { result ≡ true → length order.now < 2 ^ 32 }
    ensures many { result ≡ false → 2 ^ 32 ≤ length order.now }
{
    order.len() < 1 << 32
}

/// The weights of a region's sites. Where the numbers don't hold their sum, it answers want of memory.
pub fn light_weights(
    alloc: Global,
    p: &Program,
    region: u32,
    profile: Option<&Profile>,
) -> Result<Row<u64>, NoMemory>
    ensures value { IfOk result (λ weights. weights ≡ spec.weights_of p.now region (option_copied profile.entry)) }
    ensures light { IfOk result (λ weights. sum weights < 2 ^ 63) }
{
    let nodes = nodes_of(alloc, p, region)?;
    let first = first_of(p, region);
    let weights = weights_of(alloc, profile, region, first, nodes.as_slice())?;
    if !is_light(weights.as_slice()) {
        return Err(NoMemory);
    }
    Ok(weights)
}

/// The units of a region with so many sites.
pub fn units_of(
    alloc: Global,
    p: &Program,
    region: u32,
    graph: &Graph,
    count: u32,
) -> Result<Units, NoMemory>
    ensures order { IfOk result (λ units. IsOrder count (map (spec.node_pair (first_site p.now region)) graph.now.edges) units.order) }
    ensures places { IfOk result (λ units. ArePlaces count (map (spec.node_pair (first_site p.now region)) graph.now.edges) units.order units.place_of) }
    ensures few { IfOk result (λ units. length units.order < 2 ^ 32) }
{
    let first = first_of(p, region);
    let pairs = pairs_of(alloc, first, count, graph.edges())?;
    let units = units(alloc, count, pairs.as_slice())?;
    if !are_few(units.order()) {
        return Err(NoMemory);
    }
    Ok(units)
}

/// The least plan of a region.
///
/// A region with more sites, or larger weights, than the numbers hold answers want of memory.
fn least_plan(alloc: Global, p: &Program, region: u32, wishes: Wishes<'_>) -> Result<Plan, NoMemory>
    requires stages { 0 < wishes.stages }
    requires few_stages { wishes.stages < 9 }
    requires workers { 0 < wishes.workers }
    requires few_workers { wishes.workers < 9 }
    ensures { IfOk result (λ plan. spec.IsAutomatic p.now region (option_copied wishes.entry.profile) wishes.entry.rate wishes.entry.stages
        wishes.entry.workers plan) }
{
    let weights = light_weights(alloc, p, region, wishes.profile)?;
    let loads = weights.as_slice();
    let count = few(loads.len())?;
    let graph = Graph::build(alloc, p, region, wishes.profile, wishes.rate)?;
    let units = units_of(alloc, p, region, &graph, count)?;
    let plan = cut(
        alloc,
        p,
        region,
        &graph,
        &units,
        loads,
        wishes.stages,
        wishes.workers,
    )?;
    Ok(plan)
}

/// The automatic plans of an inlined program: for each region, in order, the least plan of its units. They are valid plans.
pub fn least_plans(alloc: Global, p: &Program, wishes: Wishes<'_>) -> Result<Row<Plan>, NoMemory>
    requires inlined { IsInlined p.now }
    requires stages { 0 < wishes.stages }
    requires few_stages { wishes.stages < 9 }
    requires workers { 0 < wishes.workers }
    requires few_workers { wishes.workers < 9 }
    ensures least { IfOk result (λ plans. spec.AreAutomatic p.now (option_copied wishes.entry.profile) wishes.entry.rate wishes.entry.stages
        wishes.entry.workers plans) }
    ensures fit { IfOk result (λ plans. ArePlans p.now plans) }
{
    let mut plans = Row::new(alloc);
    for place in 0..p.regions.len() {
        let region = few(place + 1)?;
        let plan = least_plan(alloc, p, region, wishes)?;
        plans.push(plan)?;
    }
    Ok(plans)
}
