//! Who is told how a run goes on.
use crate::chosen::Chosen;

/// How far a run has come.
#[derive(Clone, Copy)]
pub struct Progress {
    /// How many iterations were committed from a pipeline.
    pub committed: u64,
    /// How many were executed again.
    pub again: u64,
    /// How many steps the run has made.
    pub steps: u64,
}

/// What is told of each iteration, of some steps between, and of each region. Nothing that is proved depends on it.
pub trait Watch {
    fn went_on(&mut self, progress: Progress);

    /// The region with this number was run, by these plans.
    fn chose(&mut self, region: u32, chosen: Chosen);
}

/// Nobody.
#[derive(Clone, Copy)]
pub struct Unwatched;

impl Watch for Unwatched {
    fn went_on(&mut self, _progress: Progress) {}

    fn chose(&mut self, _region: u32, _chosen: Chosen) {}
}
