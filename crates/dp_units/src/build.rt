//! The units and their order.
ghost use Rattle.std.specs.Prelude.{◌≡◌, ◌<◌, ℕ, length, slice_index, IfOk};
ghost use Rattle.dp_units.specs.Graph.{AreWithin};
ghost use Rattle.dp_units.specs.steps.Leaders.{AreLeaders};
ghost use Rattle.dp_units.specs.Order.{IsOrder, ArePlaces};

use crate::between::{edges_between, entering};
use crate::classes::Units;
use crate::free::{first_free, release};
use crate::graph::{Graph, rows};
use crate::leaders::leaders;
use dp_room::{NoMemory, Row};
use std::alloc::Global;

/// The classes of nodes below `count` that reach each other along the edges, ordered by taking again and again, among
/// those whose predecessors are all taken, the one with the least node.
pub fn units(alloc: Global, count: u32, edges: &[(u32, u32)]) -> Result<Units, NoMemory>
    requires { AreWithin count edges.now }
    ensures order { IfOk result (λ u. IsOrder count edges.now u.order) }
    ensures places { IfOk result (λ u. ArePlaces count edges.now u.order u.place_of) }
{
    let rows = rows(alloc, count, edges)?;
    let graph = Graph {
        edges,
        rows: rows.as_slice(),
    };
    let leader_of = leaders(alloc, count, graph)?;
    in_order(alloc, count, graph, leader_of.as_slice())
}

/// The units, where each node's leader is known.
fn in_order(alloc: Global, count: u32, graph: Graph, leader_of: &[u32]) -> Result<Units, NoMemory>
    requires within { AreWithin count graph.edges.now }
    requires leaders { AreLeaders count graph.edges.now leader_of.now }
    ensures order { IfOk result (λ u. IsOrder count graph.entry.edges.now u.order) }
    ensures places { IfOk result (λ u. ArePlaces count graph.entry.edges.now u.order u.place_of) }
{
    let between = edges_between(alloc, graph.edges, leader_of)?;
    let rows = rows(alloc, count, between.as_slice())?;
    let mut waits = entering(alloc, count, between.as_slice())?;
    let mut free = first_free(alloc, count, leader_of, waits.as_slice())?;
    let mut place_of = vec![in alloc; count; count as usize]?;
    let mut order = Vec::with_capacity(alloc, count as usize)?;
    while let Some(node) = free.pop_first() {
        place_of[node as usize] = order.len() as u32;
        order.push(node)?;
        let row = rows[node as usize].as_slice();
        release(waits.as_mut_slice(), &mut free, row)?;
    }
    let place_of = places(alloc, leader_of, place_of.as_slice())?;
    Ok(Units {
        place_of: Row::from_vec(place_of),
        order: Row::from_vec(order),
    })
}

/// For each node the place of its leader.
fn places(alloc: Global, leader_of: &[u32], place_of: &[u32]) -> Result<Vec<u32>, NoMemory>
    requires { (node : ℕ) → node < length leader_of.now → slice_index leader_of.now node < length place_of.now }
    ensures each { IfOk result (λ places. length places.items ≡ length leader_of.now) }
    ensures made { IfOk result (λ places. (node : ℕ) → node < length leader_of.now → slice_index places.items node ≡ slice_index place_of.now
        (slice_index leader_of.now node)) }
{
    let mut places = Vec::with_capacity(alloc, leader_of.len())?;
    for leader in leader_of {
        places.push(place_of[*leader as usize])?;
    }
    Ok(places)
}
