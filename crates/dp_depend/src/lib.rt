//! Which sites of a region depend on which, by control and by the values that they pass on.
#![tactic(auto)]

use dp_base::{Row, SiteId};
use dp_tree::Assume;

mod build;
mod chosen;
mod edges;
mod kept;
mod loads;
mod nodes;

pub use nodes::{Node, nodes_of};

/// Why one site depends on another.
#[derive(Clone, Copy)]
pub enum EdgeKind {
    /// The first one's condition decides whether the second is evaluated.
    Control,
    /// The second loads what the first stored in the same iteration.
    Intra,
    /// The second loads what the first stored in an earlier iteration.
    Carried,
}

/// One site depends on another.
#[derive(Clone, Copy)]
pub struct Edge {
    pub from: SiteId,
    pub to: SiteId,
    pub kind: EdgeKind,
}

/// The dependences between the sites of one region.
#[derive(Drop)]
pub struct Graph {
    pub(crate) edges: Row<Edge>,
    pub(crate) chosen: Row<Assume>,
}

impl Graph {
    ghost use Rattle.std.specs.Prelude.{◌≡◌};

    /// The edges, ascending by `from`, `to` and kind.
    pub fn edges(&self) -> &[Edge]
        ensures { result.now ≡ self.now.edges }
    {
        self.edges.as_slice()
    }

    /// The outcomes that may be assumed, ascending by site.
    pub fn chosen(&self) -> &[Assume]
        ensures { result.now ≡ self.now.chosen }
    {
        self.chosen.as_slice()
    }
}
