//! What goes forward between stages.
ghost use Rattle.std.specs.Prelude.{◌≡◌, ◌++◌, OnOk};
ghost use Rattle.dp_explain.specs.ForwardText as spec;

use crate::edges::put_edge;
use dp_base::{NoMemory, Row};
use dp_depend::{Edge, Node};
use dp_plan::Plan;
use dp_text::put_labelled;
use dp_tree::Program;

/// The edge leads from this stage or an earlier one to a later one.
fn goes_forward(p: &Program, plan: &Plan, stage: u64, edge: &Edge) -> bool
    ensures { result ≡ spec.goes_forward p.now plan.now stage edge.now }
{
    u64::from(plan.stage(p, edge.from)) <= stage && stage < u64::from(plan.stage(p, edge.to))
}

/// Appends the edge, where it goes forward.
fn put_forward(
    out: &mut Row<u8>,
    p: &Program,
    plan: &Plan,
    first: u32,
    nodes: &[Node],
    stage: u64,
    edge: &Edge,
) -> Result<(), NoMemory>
    ensures { OnOk result (out.new ≡ out.old ++ spec.forward_line p.now plan.now first nodes.now stage edge.now) }
{
    if !goes_forward(p, plan, stage, edge) {
        return Ok(());
    }
    put_labelled(out, b"forward ", stage)?;
    put_edge(out, b" ", p, first, nodes, edge)
}

/// Appends what goes forward behind a stage.
fn put_behind(
    out: &mut Row<u8>,
    p: &Program,
    plan: &Plan,
    first: u32,
    nodes: &[Node],
    edges: &[Edge],
    stage: u64,
) -> Result<(), NoMemory>
    ensures { OnOk result (out.new ≡ out.old ++ spec.lines_behind p.now plan.now first nodes.now edges.now stage) }
{
    for edge in edges {
        put_forward(out, p, plan, first, nodes, stage, edge)?;
    }
    Ok(())
}

/// Appends what goes forward behind each stage.
pub fn put_forwards(
    out: &mut Row<u8>,
    p: &Program,
    plan: &Plan,
    first: u32,
    nodes: &[Node],
    edges: &[Edge],
) -> Result<(), NoMemory>
    ensures { OnOk result (out.new ≡ out.old ++ spec.forward_lines p.now plan.now first nodes.now edges.now) }
{
    for place in 0..plan.stages.len() {
        put_behind(out, p, plan, first, nodes, edges, place as u64 + 1)?;
    }
    Ok(())
}
