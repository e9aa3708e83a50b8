//! The text that explains plans.
ghost use Rattle.std.specs.Prelude.{◌≡◌, ◌<◌, ◌^◌, ◌++◌, length, sum, IfOk, OnOk};
ghost use Rattle.std.specs.Option.{option_copied};
ghost use Rattle.dp_profile.specs.Sites.{regions};
ghost use Rattle.dp_depend.specs.Node.{region_nodes};
ghost use Rattle.dp_depend.specs.Edges.{first_in_region as first_site};
ghost use Rattle.dp_explain.specs.Explanation.{IsExplanation, Reasons};
ghost use Rattle.dp_explain.specs.Reasons as spec;
ghost use Rattle.dp_explain.specs.steps.Added.{IsAdded};

use crate::checks::{put_checks, put_compared};
use crate::edges::put_edges;
use crate::forward::put_forwards;
use crate::shown::put_shown;
use crate::weighed::put_units;
use dp_base::{NoMemory, Row};
use dp_cut::{few, light_weights, units_of};
use dp_depend::{Edge, Graph, Node, nodes_of};
use dp_plan::{Plan, first_of};
use dp_plan_text::write_plans;
use dp_profile::{Profile, RegionSite, regions_of};
use dp_sites::compared_stores;
use dp_text::put_labelled;
use dp_tree::Program;
use dp_units::Units;
use std::alloc::Global;

/// The text of the plans, and behind it for each plan what it rests on; they were made by this profile, if there is one, at this rate.
pub fn explain(
    alloc: Global,
    plans: &[Plan],
    p: &Program,
    profile: Option<&Profile>,
    rate: u32,
) -> Result<Row<u8>, NoMemory>
    ensures { IfOk result (λ text. IsExplanation p.now (option_copied profile.entry) rate plans.now text) }
{
    let sites = regions_of(alloc, p)?;
    let reasons = reasons_of(alloc, plans, p, profile, rate, sites.as_slice())?;
    let mut out = write_plans(alloc, plans, p)?;
    out.extend_from_slice(reasons.as_slice())?;
    out.extend_from_slice(b"end\n")?;
    Ok(out)
}

/// What each of the plans rests on.
fn reasons_of(
    alloc: Global,
    plans: &[Plan],
    p: &Program,
    profile: Option<&Profile>,
    rate: u32,
    sites: &[Row<RegionSite>],
) -> Result<Row<u8>, NoMemory>
    requires { sites.now ≡ regions p.now }
    ensures { IfOk result (λ text. Reasons p.now (option_copied profile.entry) rate plans.now text) }
{
    let mut out = Row::new(alloc);
    for plan in plans {
        put_reason(alloc, &mut out, plan, p, profile, rate, sites)?;
    }
    Ok(out)
}

/// Appends what one plan rests on.
fn put_reason(
    alloc: Global,
    out: &mut Row<u8>,
    plan: &Plan,
    p: &Program,
    profile: Option<&Profile>,
    rate: u32,
    sites: &[Row<RegionSite>],
) -> Result<(), NoMemory>
    requires { sites.now ≡ regions p.now }
    ensures { OnOk result (IsAdded p.now (option_copied profile.entry) rate plan.now out.old out.new) }
{
    let found = nodes_of(alloc, p, plan.region)?;
    let nodes = found.as_slice();
    put_plain(alloc, out, plan, p, nodes)?;
    let graph = Graph::build(alloc, p, plan.region, profile, rate)?;
    let weights = light_weights(alloc, p, plan.region, profile)?;
    let loads = weights.as_slice();
    let count = few(loads.len())?;
    let units = units_of(alloc, p, plan.region, &graph, count)?;
    let edges = graph.edges();
    put_minded(alloc, out, plan, p, nodes, edges, loads, &units)?;
    put_shown(out, sites, plan.region, profile)?;
    Ok(())
}

/// Appends what the text alone gives.
fn put_plain(
    alloc: Global,
    out: &mut Row<u8>,
    plan: &Plan,
    p: &Program,
    nodes: &[Node],
) -> Result<(), NoMemory>
    requires { nodes.now ≡ region_nodes p.now plan.now.region }
    ensures { OnOk result (out.new ≡ out.old ++ spec.plain_text p.now plan.now) }
{
    let graph = Graph::build(alloc, p, plan.region, None, 0)?;
    put_labelled(out, b"region ", u64::from(plan.region))?;
    out.push(b'\n')?;
    let first = first_of(p, plan.region);
    put_edges(out, b"edge ", p, first, nodes, graph.edges())?;
    put_checks(out, p, plan, nodes)
}

/// Appends what follows from the dependences that the plan minds.
fn put_minded(
    alloc: Global,
    out: &mut Row<u8>,
    plan: &Plan,
    p: &Program,
    nodes: &[Node],
    edges: &[Edge],
    weights: &[u64],
    units: &Units,
) -> Result<(), NoMemory>
    requires each { length units.now.place_of ≡ length weights.now }
    requires total { sum weights.now < 2 ^ 63 }
    requires few { length units.now.order < 2 ^ 32 }
    ensures { OnOk result (out.new ≡ out.old ++ spec.minded_with p.now plan.now (first_site p.now plan.now.region) nodes.now edges.now weights.now units.now) }
{
    let first = first_of(p, plan.region);
    put_edges(out, b"minded ", p, first, nodes, edges)?;
    let count = units.order().len() as u32;
    put_units(out, units.places(), weights, first, nodes, count)?;
    let pairs = compared_stores(alloc, p, plan)?;
    put_compared(out, p, first, nodes, pairs.as_slice())?;
    put_forwards(out, p, plan, first, nodes, edges)
}
