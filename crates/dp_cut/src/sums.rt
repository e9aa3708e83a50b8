//! The units of a graph with their weights, and the pairs of them that carried edges join.
ghost use Rattle.std.specs.Prelude.{◌≡◌, ◌<◌, ◌==◌, if◌then◌else◌, ◌^◌, ◌++◌, length, sum, IfOk, OnOk};
ghost use Rattle.dp_cut.specs.LeastPlan as spec;

use dp_base::{NoMemory, Row};
use dp_depend::{Edge, EdgeKind};
use std::alloc::Global;

/// The sum of the weights of the nodes whose unit has this place.
pub fn weight_at(places: &[u32], weights: &[u64], place: u32) -> u64
    requires each { length places.now ≡ length weights.now }
    requires total { sum weights.now < 2 ^ 63 }
    ensures { result ≡ spec.unit_weight places.now weights.now place }
{
    let mut total = 0;
    for node in 0..places.len() {
        total += share(places[node], place, weights[node]);
    }
    total
}

/// The weight of a node, where its unit has this place.
fn share(at: u32, place: u32, weight: u64) -> u64
    ensures { result ≡ (if at == place then weight else 0) }
{
    if at == place { weight } else { 0 }
}

/// The weights of the units, in their order.
pub fn unit_weights(
    alloc: Global,
    count: u32,
    places: &[u32],
    weights: &[u64],
) -> Result<Row<u64>, NoMemory>
    requires each { length places.now ≡ length weights.now }
    requires total { sum weights.now < 2 ^ 63 }
    ensures { IfOk result (λ units. units ≡ spec.unit_weights count places.now weights.now) }
{
    let mut units = Row::new(alloc);
    for place in 0..count {
        units.push(weight_at(places, weights, place))?;
    }
    Ok(units)
}

/// What a list, from the region's first site on, has of a site.
pub fn at_site(list: &[u32], first: u32, site: u32) -> u32
    ensures { result ≡ spec.at_site list.now first site }
{
    match list.get(site.saturating_sub(first) as usize) {
        Some(number) => *number,
        None => 0,
    }
}

fn put_pair(
    out: &mut Row<(u32, u32)>,
    places: &[u32],
    first: u32,
    edge: &Edge,
) -> Result<(), NoMemory>
    ensures { OnOk result (out.new ≡ out.old ++ spec.carried_pair places.now first edge.now) }
{
    match edge.kind {
        EdgeKind::Control => Ok(()),
        EdgeKind::Intra => Ok(()),
        EdgeKind::Carried => {
            let from = at_site(places, first, edge.from.0);
            let to = at_site(places, first, edge.to.0);
            out.push((from, to))
        }
    }
}

/// The pairs of units that carried edges join.
pub fn carried_pairs(
    alloc: Global,
    places: &[u32],
    first: u32,
    edges: &[Edge],
) -> Result<Row<(u32, u32)>, NoMemory>
    ensures { IfOk result (λ pairs. pairs ≡ spec.carried_pairs places.now first edges.now) }
{
    let mut pairs = Row::new(alloc);
    for edge in edges {
        put_pair(&mut pairs, places, first, edge)?;
    }
    Ok(pairs)
}
