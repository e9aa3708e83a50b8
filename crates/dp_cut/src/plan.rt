//! The least cut as a plan.
ghost use Rattle.std.specs.Prelude.{◌≡◌, ◌<◌, ◌^◌, length, map, filter, sum, IfOk};
ghost use Rattle.dp_depend.specs.Edges.{first_in_region};
ghost use Rattle.dp_cut.specs.LeastPlan as spec;

use crate::sums::{at_site, carried_pairs, unit_weights};
use dp_base::limits::MOST_WORDS;
use dp_base::{NoMemory, Row};
use dp_depend::{Graph, Node, nodes_of};
use dp_least_cut::{Stretch, cut_units};
use dp_plan::{Plan, StageKind, first_of};
use dp_sites::tabled;
use dp_tree::{Assume, Program};
use dp_units::Units;
use std::alloc::Global;

fn kind_of(stretch: Stretch) -> StageKind
    ensures { result ≡ spec.stretch_kind stretch }
{
    if stretch.replicated {
        StageKind::Par
    } else {
        StageKind::Seq
    }
}

fn kinds_of(alloc: Global, cut: &[Stretch]) -> Result<Row<StageKind>, NoMemory>
    ensures { IfOk result (λ kinds. kinds ≡ map spec.stretch_kind cut.now) }
{
    let mut kinds = Row::new(alloc);
    for stretch in cut {
        kinds.push(kind_of(*stretch))?;
    }
    Ok(kinds)
}

/// The stage of the unit at a place.
fn stage_at(cut: &[Stretch], place: u32) -> u32
    requires { length cut.now < 9 }
    ensures { result ≡ spec.stage_of_unit 1 cut.now place }
{
    let mut left = place;
    let mut stage = 1;
    for stretch in cut {
        if left < stretch.units {
            return stage;
        }
        left -= stretch.units;
        stage += 1;
    }
    stage
}

/// The stages of the sites whose units have these places.
fn stages_of(alloc: Global, cut: &[Stretch], places: &[u32]) -> Result<Row<u32>, NoMemory>
    requires { length cut.now < 9 }
    ensures { IfOk result (λ stages. stages ≡ spec.stages_of cut.now places.now) }
{
    let mut stages = Row::new(alloc);
    for place in places {
        stages.push(stage_at(cut, *place))?;
    }
    Ok(stages)
}

/// The node stands inside the statement of this condition, and is in an earlier stage.
fn comes_late(stages: &[u32], first: u32, site: u32, node: &Node) -> bool
    ensures { result ≡ spec.stands_late stages.now first site node.now }
{
    node.around.as_slice().contains(&site)
        && at_site(stages, first, node.site.0) < at_site(stages, first, site)
}

/// The outcome has to be assumed.
fn is_needed(stages: &[u32], first: u32, nodes: &[Node], outcome: &Assume) -> bool
    ensures { result ≡ spec.must_assume stages.now first nodes.now outcome.now }
{
    for node in nodes {
        if comes_late(stages, first, outcome.site.0, node) {
            return true;
        }
    }
    false
}

/// The outcomes that have to be assumed.
fn needed(
    alloc: Global,
    stages: &[u32],
    first: u32,
    nodes: &[Node],
    chosen: &[Assume],
) -> Result<Row<Assume>, NoMemory>
    ensures { IfOk result (λ assume. assume ≡ filter (spec.must_assume stages.now first nodes.now) chosen.now) }
{
    let mut assume = Row::new(alloc);
    for outcome in chosen {
        if is_needed(stages, first, nodes, outcome) {
            assume.push(*outcome)?;
        }
    }
    Ok(assume)
}

/// The plan that a cut stands for.
fn plan_of_cut(
    alloc: Global,
    p: &Program,
    region: u32,
    places: &[u32],
    chosen: &[Assume],
    cut: &[Stretch],
) -> Result<Plan, NoMemory>
    requires { length cut.now < 9 }
    ensures { IfOk result (λ plan. plan ≡ spec.plan_of_cut p.now region places.now chosen.now cut.now) }
{
    let nodes = nodes_of(alloc, p, region)?;
    let stage_of = stages_of(alloc, cut, places)?;
    let assume = needed(
        alloc,
        stage_of.as_slice(),
        first_of(p, region),
        nodes.as_slice(),
        chosen,
    )?;
    let stages = kinds_of(alloc, cut)?;
    let plan = Plan {
        region,
        words: MOST_WORDS,
        stages,
        stage_of,
        assume,
        proved: true,
        checked_at: Row::new(alloc),
    };
    tabled(alloc, p, plan)
}

/// The least plan of a region: its units, in their order, are cut into at most so many stages. `weights` has one number
/// for each site of the region, from the first one on.
pub fn cut(
    alloc: Global,
    p: &Program,
    region: u32,
    graph: &Graph,
    units: &Units,
    weights: &[u64],
    stages: u32,
    workers: u32,
) -> Result<Plan, NoMemory>
    requires each { length units.now.place_of ≡ length weights.now }
    requires count { length units.now.order < 2 ^ 32 }
    requires total { sum weights.now < 2 ^ 63 }
    requires stages { 0 < stages }
    requires few_stages { stages < 9 }
    requires workers { 0 < workers }
    requires few_workers { workers < 9 }
    ensures { IfOk result (λ plan. spec.IsLeastPlan p.now region graph.now.edges graph.now.chosen units.now.order units.now.place_of weights.now
        stages workers plan) }
{
    let places = units.places();
    let count = units.order().len() as u32;
    let sums = unit_weights(alloc, count, places, weights)?;
    let carried = carried_pairs(alloc, places, first_of(p, region), graph.edges())?;
    let least = cut_units(alloc, sums.as_slice(), carried.as_slice(), stages, workers)?;
    plan_of_cut(alloc, p, region, places, graph.chosen(), least.as_slice())
}
