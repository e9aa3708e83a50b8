//! The leader of each node: the least node of its unit.
ghost use Rattle.std.specs.Prelude.{◌≡◌, ◌<◌, [], ℕ, length, slice_index, IfOk};
ghost use Rattle.dp_units.specs.steps.Entries.{At};
ghost use Rattle.dp_units.specs.declared.mark.Mark.{Mark};
ghost use Rattle.dp_units.specs.declared.mark.Mark.TheVariants.{Closed};
ghost use Rattle.dp_units.specs.steps.Leaders.{AreLeaders};
ghost use Rattle.dp_units.specs.steps.Rows.{IsGraph};
ghost use Rattle.dp_units.specs.steps.Search.{IsUnseen};
ghost use Rattle.dp_units.specs.steps.Steps.{IsGoing};

use crate::graph::Graph;
use crate::mark::Mark;
use crate::search::Search;
use dp_room::NoMemory;
use std::alloc::Global;

/// The least node of each node's unit.
pub fn leaders(alloc: Global, count: u32, graph: Graph) -> Result<Vec<u32>, NoMemory>
    requires graph { IsGraph graph.edges.now graph.rows.now }
    requires count { length graph.rows.now ≡ count }
    ensures { IfOk result (λ leader_of. AreLeaders count graph.entry.edges.now leader_of.items) }
{
    let search = searched(alloc, count, graph)?;
    leader_list(alloc, &search)
}

/// For each node the leader of its unit.
fn leader_list(alloc: Global, search: &Search) -> Result<Vec<u32>, NoMemory>
    requires { (node : ℕ) (mark : Mark) → At search.now.marks.items node mark → (unit : ℕ) × (mark ≡ Closed unit) × (unit < length search.now.leaders.items) }
    ensures count { IfOk result (λ leader_of. length leader_of.items ≡ length search.now.marks.items) }
    ensures made { IfOk result (λ leader_of. (node unit leader : ℕ) → At search.now.marks.items node (Closed unit) → At search.now.leaders.items unit leader →
        slice_index leader_of.items node ≡ leader) }
{
    let mut leader_of = Vec::with_capacity(alloc, search.marks.len())?;
    for mark in search.marks.as_slice() {
        let leader = leader_by(*mark, search.leaders.as_slice());
        leader_of.push(leader)?;
    }
    Ok(leader_of)
}

/// The search that has closed all nodes.
fn searched(alloc: Global, count: u32, graph: Graph) -> Result<Search, NoMemory>
    requires graph { IsGraph graph.edges.now graph.rows.now }
    requires count { length graph.rows.now ≡ count }
    ensures going { IfOk result (λ search. IsGoing graph.entry.edges.now graph.entry.rows.now search) }
    ensures path { IfOk result (λ search. search.path.items ≡ []) }
    ensures met { IfOk result (λ search. (node : ℕ) → node < count → ¬ IsUnseen search.marks.items node) }
{
    let mut search = Search::new(alloc, count as usize)?;
    for node in 0..count {
        search.start(node, graph)?;
    }
    Ok(search)
}

/// The leader of a closed node's unit.
fn leader_by(mark: Mark, leaders: &[u32]) -> u32
    requires { (unit : ℕ) × (mark ≡ Closed unit) × (unit < length leaders.now) }
    ensures { (unit : ℕ) → mark ≡ Closed unit → At leaders.now unit result }
{
    match mark {
        Mark::Closed(unit) => leaders[unit],
        _ => unreachable!(),
    }
}
