//! A search for the units of a graph, in one pass over its edges.
//!
//! It follows a path through the nodes. The path falls into groups, in each of which all nodes reach each other. An edge
//! from the last group to a node of the path makes one group of all that stand above that node. Where no edge of the
//! last group waits any more, it is a whole unit.
ghost use Rattle.std.specs.Prelude.{◌≡◌, ◌≢◌, ◌<◌, ◌≤◌, ◌-◌, ◌++◌, [], ◌∷◌, ℕ, List, Vec, length, take, drop, replicate, IfOk, OnOk, IfSome, IfNone};
ghost use Rattle.std.specs.declared.alloc.Global.{Global};
ghost use Rattle.std.specs.declared.option.Option.TheVariants.{Some};
ghost use Rattle.dp_units.specs.steps.Entries.{At, Has, Rises};
ghost use Rattle.dp_units.specs.declared.mark.Mark.TheVariants.{Unseen, Closed};
ghost use Rattle.dp_units.specs.steps.Rows.{IsGraph};
ghost use Rattle.dp_units.specs.steps.Search.{IsUnseen, IsMarked};
ghost use Rattle.dp_units.specs.steps.Steps.{edges_from, IsGoing, IsLastGroup, LeadsOn, IsDone, HasEntered, HasJoined, HasGone};

use crate::graph::Graph;
use crate::mark::Mark;
use dp_room::NoMemory;
use std::alloc::Global;

/// What a search knows.
#[derive(Drop)]
pub struct Search {
    /// Where each node stands.
    pub marks: Vec<Mark>,
    pub path: Vec<u32>,
    /// The places of the path at which its groups begin.
    pub bottoms: Vec<usize>,
    /// The edges that weren't looked at: the place of the path that each leads from, and its target.
    pub waiting: Vec<(usize, u32)>,
    /// The least node of each unit that is complete.
    pub leaders: Vec<u32>,
}

impl Search {
    /// The search that hasn't met a node.
    pub fn new(alloc: Global, count: usize) -> Result<Search, NoMemory>
        ensures marks { IfOk result (λ search. search.marks.items ≡ replicate count Unseen) }
        ensures path { IfOk result (λ search. search.path.items ≡ []) }
        ensures bottoms { IfOk result (λ search. search.bottoms.items ≡ []) }
        ensures waiting { IfOk result (λ search. search.waiting.items ≡ []) }
        ensures leaders { IfOk result (λ search. search.leaders.items ≡ []) }
    {
        Ok(Search {
            marks: vec![in alloc; Mark::Unseen; count]?,
            path: Vec::new(alloc),
            bottoms: Vec::new(alloc),
            waiting: Vec::new(alloc),
            leaders: Vec::new(alloc),
        })
    }

    /// Goes onto a node that wasn't met: it is a group of its own, and its edges wait.
    fn enter(&mut self, node: u32, row: &[u32]) -> Result<(), NoMemory>
        requires { node < length self.old.marks.items }
        ensures { OnOk result (HasEntered node row.now self.old self.new) }
    {
        let place = self.path.len();
        self.marks[node as usize] = Mark::OnPath(place);
        self.path.push(node)?;
        self.bottoms.push(place)?;
        add_edges(&mut self.waiting, place, row)
    }

    /// Looks at the last edge that waits, which leads from the last group to this node.
    fn look(&mut self, target: u32, graph: Graph) -> Result<(), NoMemory>
        requires graph { IsGraph graph.edges.now graph.rows.now }
        requires going { IsGoing graph.edges.now graph.rows.now self.old }
        requires last { LeadsOn self.old target }
        ensures { OnOk result (HasGone graph.entry.edges.now graph.entry.rows.now self.old self.new) }
    {
        let mark = self.marks[target as usize];
        if let Mark::Unseen = mark {
            return self.enter(target, graph.rows[target as usize].as_slice());
        }
        join(&mut self.bottoms, mark);
        self.waiting.pop();
        Ok(())
    }

    /// The last group, which begins at this place, is a whole unit.
    fn close(&mut self, bottom: usize) -> Result<(), NoMemory>
        requires going { (edges : List (ℕ × ℕ)) × (rows : List (Vec ℕ Global)) × IsGraph edges rows × IsGoing edges rows self.old }
        requires last { IsLastGroup self.old bottom }
        requires done { IsDone self.old bottom }
        ensures { OnOk result ((edges : List (ℕ × ℕ)) (rows : List (Vec ℕ Global)) → IsGraph edges rows → IsGoing edges rows self.old →
            HasGone edges rows self.old self.new) }
    {
        let unit = self.leaders.len();
        let members = behind(self.path.as_slice(), bottom);
        mark_closed(self.marks.as_mut_slice(), members, unit);
        self.leaders.push(least(members))?;
        self.path.truncate(bottom);
        self.bottoms.pop();
        Ok(())
    }

    /// Goes on until the path is empty.
    fn explore(&mut self, graph: Graph) -> Result<(), NoMemory>
        requires graph { IsGraph graph.edges.now graph.rows.now }
        requires going { IsGoing graph.edges.now graph.rows.now self.old }
        ensures going { OnOk result (IsGoing graph.entry.edges.now graph.entry.rows.now self.new) }
        ensures met { OnOk result ((node : ℕ) → IsUnseen self.new.marks.items node → IsUnseen self.old.marks.items node) }
        ensures ended { OnOk result (self.new.path.items ≡ []) }
    {
        while let Some(bottom) = last(self.bottoms.as_slice()) {
            match next_target(self.waiting.as_slice(), bottom) {
                Some(target) => self.look(target, graph)?,
                None => self.close(bottom)?,
            }
        }
        Ok(())
    }

    /// Searches from a node, where it wasn't met.
    pub fn start(&mut self, node: u32, graph: Graph) -> Result<(), NoMemory>
        requires graph { IsGraph graph.edges.now graph.rows.now }
        requires going { IsGoing graph.edges.now graph.rows.now self.old }
        requires path { self.old.path.items ≡ [] }
        requires within { node < length graph.rows.now }
        ensures going { OnOk result (IsGoing graph.entry.edges.now graph.entry.rows.now self.new) }
        ensures met { OnOk result ((other : ℕ) → IsUnseen self.new.marks.items other → IsUnseen self.old.marks.items other × (other ≢ node)) }
        ensures ended { OnOk result (self.new.path.items ≡ []) }
    {
        if let Mark::Unseen = self.marks[node as usize] {
            self.enter(node, graph.rows[node as usize].as_slice())?;
            self.explore(graph)?;
        }
        Ok(())
    }
}

/// The edges of a row wait, from this place of the path.
fn add_edges(waiting: &mut Vec<(usize, u32)>, place: usize, row: &[u32]) -> Result<(), NoMemory>
    ensures { OnOk result (waiting.new.items ≡ waiting.old.items ++ edges_from place row.now) }
{
    for target in row {
        waiting.push((place, *target))?;
    }
    Ok(())
}

/// The last entry.
fn last(bottoms: &[usize]) -> Option<usize>
    ensures some { IfSome result (λ bottom. bottoms.now ≡ take (length bottoms.now - 1) bottoms.now ++ bottom ∷ []) }
    ensures none { IfNone result (bottoms.now ≡ []) }
{
    bottoms.last().copied()
}

/// The target of the last edge that waits, where it leads from the last group.
fn next_target(waiting: &[(usize, u32)], bottom: usize) -> Option<u32>
    ensures some { IfSome result (λ target. (place : ℕ) × (bottom ≤ place)
        × (waiting.now ≡ take (length waiting.now - 1) waiting.now ++ (place, target) ∷ [])) }
    ensures none { IfNone result ((place target : ℕ) → At waiting.now (length waiting.now - 1) (place, target) → place < bottom) }
{
    match waiting.last() {
        Some((place, target)) if *place >= bottom => Some(*target),
        _ => None,
    }
}

/// Where the target of an edge from the last group is on the path, all groups above it become one.
fn join(bottoms: &mut Vec<usize>, target: Mark)
    requires { Rises bottoms.old.items }
    ensures { HasJoined target bottoms.old.items bottoms.new.items }
{
    match target {
        Mark::OnPath(place) => join_above(bottoms, place),
        _ => {}
    }
}

/// No group begins above this place.
fn join_above(bottoms: &mut Vec<usize>, place: usize)
    requires { Rises bottoms.old.items }
    ensures rising { Rises bottoms.new.items }
    ensures kept { (bottom : ℕ) → Has bottoms.new.items bottom → Has bottoms.old.items bottom × (bottom ≤ place) }
    ensures all { (bottom : ℕ) → Has bottoms.old.items bottom → bottom ≤ place → Has bottoms.new.items bottom }
{
    while let Some(bottom) = last(bottoms.as_slice()) {
        if bottom <= place {
            return;
        }
        bottoms.pop();
    }
}

/// What stands from this place on.
fn behind(path: &[u32], bottom: usize) -> &[u32]
    requires { bottom ≤ length path.now }
    ensures { result.now ≡ drop bottom path.now }
{
    path.split_at(bottom).1
}

/// The least of some nodes.
fn least(nodes: &[u32]) -> u32
    requires { 0 < length nodes.now }
    ensures member { Has nodes.now result }
    ensures least { (i node : ℕ) → At nodes.now i node → result ≤ node }
{
    let mut least = nodes[0];
    for node in nodes {
        least = least.min(*node);
    }
    least
}

/// These nodes are a unit.
fn mark_closed(marks: &mut [Mark], nodes: &[u32], unit: usize)
    requires { (i node : ℕ) → At nodes.now i node → node < length marks.old }
    ensures { IsMarked marks.old marks.new nodes.now unit }
{
    for node in nodes {
        marks[*node as usize] = Mark::Closed(unit);
    }
}
