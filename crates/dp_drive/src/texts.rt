//! The texts of a run, when they are read.
use dp_base::Row;
use dp_plan::Plan;
use dp_tree::Program;
use dp_words::{PlanSource, RunWords};

/// What a run was asked for with, and what its texts gave.
#[derive(Clone, Copy)]
pub struct RunTexts<'t> {
    pub run: RunWords<'t>,
    /// The program without calls.
    pub program: &'t Program,
    pub input: &'t Row<i64>,
    /// A plan for each of its regions.
    pub plans: &'t Row<Plan>,
}

/// Whether the run's regions may be run under other plans. Those whose plans were named are run under these.
pub fn may_choose(run: RunWords<'_>) -> bool {
    match run.source {
        PlanSource::Named(_) => false,
        PlanSource::Least(_) => true,
    }
}
