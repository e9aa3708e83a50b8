//! Plans: how the sites of a region are spread over the stages of a pipeline.
//!
//! `specs/` says which plans are valid, and which sites a plan has checked.
#![tactic(auto)]

use dp_base::Row;
use dp_tree::Assume;

mod checked;
mod stage;

pub use checked::tables_are_right;
pub use stage::{first_of, is_region};

/// Whether one unit runs a stage's iterations in order, or several take different ones.
///
/// Sequential and replicated stages are those of Raman et al., CGO 2008.
#[derive(Clone, Copy)]
pub enum StageKind {
    Seq,
    Par,
}

/// The plan of one region.
#[derive(Drop)]
pub struct Plan {
    /// The region's number, from 1.
    pub region: u32,
    /// The most words that a stage may produce in one iteration.
    pub words: u32,
    /// The stages in order; they count from 1.
    pub stages: Row<StageKind>,
    /// The stage of each site of the region, beginning with its first site.
    pub stage_of: Row<u32>,
    /// The outcomes that are assumed, ascending by site.
    pub assume: Row<Assume>,
    /// Accesses that are known to lie apart aren't checked: version 2 of a plan.
    pub proved: bool,
    /// Whether each site of the region is checked, beginning with its first site.
    pub checked_at: Row<bool>,
}

/// A stage as a text has it: its kind, and the sites that its line lists.
#[derive(Drop)]
pub struct WrittenStage {
    pub kind: StageKind,
    pub sites: Row<u32>,
}

/// A region's plan as a text has it, which need not fit the program.
#[derive(Drop)]
pub struct WrittenPlan {
    pub region: u32,
    pub words: u32,
    pub stages: Row<WrittenStage>,
    /// The assumptions as they stand.
    pub assume: Row<Assume>,
}

/// A condition of a region, and the sites at any depth inside its statement.
#[derive(Drop)]
pub struct Enclosing {
    pub site: u32,
    pub inside: Row<u32>,
}

/// A rule that fails, from 1 to 9, and the site that it names.
#[derive(Clone, Copy)]
pub struct BrokenRule {
    pub rule: u32,
    pub site: u32,
}
