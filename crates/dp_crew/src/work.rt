//! What a crew works at.
ghost use Rattle.std.specs.Prelude.{◌≡◌, true};
ghost use Rattle.std.specs.Option.{IfSome};
ghost use Rattle.dp_run_plan.specs.Others.{RunsAs};
ghost use Rattle.dp_run_plan.specs.RunPlan.{hides_nothing};

use crate::choosing::Way;
use dp_epoch::CrewSize;
use dp_plan::{Plan, StageKind};
use dp_prepared::PreparedRegion;
use dp_run_plan::RunRegion;
use dp_waiting::Bell;
use std::alloc::Global;

/// A region that is run on an input, how large its crew is, and what wakes the threads.
#[derive(Clone, Copy)]
pub(crate) struct Work<'u, 'p> {
    pub(crate) alloc: Global,
    pub(crate) region: &'u RunRegion<'p>,
    pub(crate) input: &'u [i64],
    pub(crate) size: CrewSize,
    /// One for each unit's thread and one for the caller behind them, or none where the caller is alone.
    pub(crate) bells: &'u [Bell],
}

impl<'u, 'p> Work<'u, 'p> {
    pub(crate) fn new(
        alloc: Global,
        region: &'u RunRegion<'p>,
        input: &'u [i64],
        size: CrewSize,
        bells: &'u [Bell],
    ) -> Work<'u, 'p>
        ensures region { result.region.now ≡ region.entry.now }
        ensures input { result.input.now ≡ input.entry.now }
    {
        Work {
            alloc,
            region,
            input,
            size,
            bells,
        }
    }

    /// The region under the plan by which its iterations are followed in this way, if there is one.
    pub(crate) fn other(self, way: Way) -> Option<&'u PreparedRegion<'p>>
        ensures { IfSome result (λ other. RunsAs self.entry.region.now other.now) }
    {
        match way {
            Way::OneStage => self.region.other(),
            Way::WholeLoops => self.region.whole(),
        }
    }

    /// Whether a stage of the plan that is tried has several workers.
    pub(crate) fn has_workers(self) -> bool {
        let tried = match self.region.whole() {
            Some(whole) => whole.plan(),
            None => self.region.plan(),
        };
        self.size.workers > 1 && has_replicated(tried)
    }

    /// Whether an epoch of the region may be left anywhere.
    pub(crate) fn may_leave(self) -> bool
        ensures { result ≡ true → hides_nothing self.entry.region.now.program self.entry.region.now.plan ≡ true }
    {
        match self.region.other() {
            Some(_) => true,
            None => false,
        }
    }
}

/// Whether one of the plan's stages is replicated.
fn has_replicated(plan: &Plan) -> bool {
    for kind in plan.stages.as_slice() {
        match kind {
            StageKind::Par => return true,
            StageKind::Seq => {}
        }
    }
    false
}
