//! The edges between a region's sites, and between those of each inner loop.
ghost use Rattle.std.specs.Prelude.{IfOk, OnOk};
ghost use Rattle.dp_units.specs.Graph.{AreWithin};

use dp_base::{NoMemory, Row};
use dp_depend::{Edge, Node};
use std::alloc::Global;

/// The sites of a region: the first one's number, and how many there are.
#[derive(Clone, Copy)]
pub(crate) struct Sites {
    pub(crate) first: u32,
    pub(crate) count: u32,
}

impl Sites {
    /// Appends an edge between two sites, unless one lies outside of the region.
    fn put(self, pairs: &mut Row<(u32, u32)>, from: u32, to: u32) -> Result<(), NoMemory>
        requires { AreWithin self.count pairs.old }
        ensures { OnOk result (AreWithin self.count pairs.new) }
    {
        let from = from.saturating_sub(self.first);
        let to = to.saturating_sub(self.first);
        if from < self.count && to < self.count {
            pairs.push((from, to))?;
        }
        Ok(())
    }

    /// Appends the edges between a site and the condition of the inner loop that it is of, if it is of one.
    fn put_loop(self, pairs: &mut Row<(u32, u32)>, node: &Node) -> Result<(), NoMemory>
        requires { AreWithin self.count pairs.old }
        ensures { OnOk result (AreWithin self.count pairs.new) }
    {
        if let Some(condition) = node.outer_loop {
            self.put(pairs, node.site.0, condition)?;
            self.put(pairs, condition, node.site.0)?;
        }
        Ok(())
    }

    /// The edges of the dependences, and those that make each outermost inner loop one unit.
    pub(crate) fn joined(
        self,
        alloc: Global,
        edges: &[Edge],
        nodes: &[Node],
    ) -> Result<Row<(u32, u32)>, NoMemory>
        ensures { IfOk result (λ pairs. AreWithin self.count pairs) }
    {
        let mut pairs = Row::new(alloc);
        for edge in edges {
            self.put(&mut pairs, edge.from.0, edge.to.0)?;
        }
        for node in nodes {
            self.put_loop(&mut pairs, node)?;
        }
        Ok(pairs)
    }
}
