//! The edges between units.
ghost use Rattle.std.specs.Prelude.{◌≡◌, ◌≢◌, ◌++◌, ◌<◌, [], ◌∷◌, ℕ, length, replicate, slice_index, IfOk, OnOk};
ghost use Rattle.dp_units.specs.Graph.{AreWithin};
ghost use Rattle.dp_units.specs.steps.Leaders.{AreBetween};
ghost use Rattle.dp_units.specs.steps.Rows.{waits_for};

use dp_room::NoMemory;
use std::alloc::Global;

/// The edges that lead from one unit to another, each from leader to leader.
pub fn edges_between(
    alloc: Global,
    edges: &[(u32, u32)],
    leader_of: &[u32],
) -> Result<Vec<(u32, u32)>, NoMemory>
    requires { AreWithin (length leader_of.now) edges.now }
    ensures { IfOk result (λ between. AreBetween edges.now leader_of.now between.items) }
{
    let mut between = Vec::new(alloc);
    for (from, to) in edges {
        add_edge(
            &mut between,
            leader_of[*from as usize],
            leader_of[*to as usize],
        )?;
    }
    Ok(between)
}

/// Adds the edge, where it leads from one unit to another.
fn add_edge(between: &mut Vec<(u32, u32)>, from: u32, to: u32) -> Result<(), NoMemory>
    ensures same { OnOk result (from ≡ to → between.new.items ≡ between.old.items) }
    ensures apart { OnOk result (from ≢ to → between.new.items ≡ between.old.items ++ (from, to) ∷ []) }
{
    if from != to {
        between.push((from, to))?;
    }
    Ok(())
}

/// How many edges lead to each node.
pub fn entering(alloc: Global, count: u32, edges: &[(u32, u32)]) -> Result<Vec<usize>, NoMemory>
    requires { AreWithin count edges.now }
    ensures each { IfOk result (λ waits. length waits.items ≡ count) }
    ensures counts { IfOk result (λ waits. (node : ℕ) → node < count → slice_index waits.items node ≡ waits_for count (replicate count count) edges.now node) }
{
    let mut waits = vec![in alloc; 0usize; count as usize]?;
    for edge in edges {
        waits[edge.1 as usize] += 1;
    }
    Ok(waits)
}
