//! What the batches and the verdicts of an epoch depend on.
ghost use Rattle.std.specs.Prelude.{◌≡◌, IfOk};
ghost use Rattle.dp_prepared.specs.Planned.{prepared_of};
ghost use Rattle.dp_pipeline.specs.Begin.{units_key_at};
ghost use Rattle.dp_pipeline.specs.Keys.{key_of};
ghost use Rattle.dp_lean_region.specs.Line.{cap_of, line_plan, line_program};

use dp_base::{Cells, NoMemory};
use dp_lean_region::Line;
use dp_plan::Plan;
use dp_tree::Program;

/// Where an epoch of a region begins.
#[derive(Clone, Copy)]
pub struct Begin<'b> {
    /// Its first iteration.
    pub first: u64,
    /// The memory before it.
    pub base: &'b Cells,
    /// The steps made by then.
    pub steps: u64,
    pub fuel: u64,
}

/// An epoch: its first iteration, the memory in which it begins, the steps made by then, and the fuel; and how many iterations
/// go together.
pub struct EpochKey<'p> {
    pub p: &'p Program,
    pub plan: &'p Plan,
    pub input: &'p [i64],
    pub first: u64,
    pub base: Cells,
    pub steps: u64,
    pub fuel: u64,
    /// How many iterations go together at most.
    pub cap: u64,
}

// By hand, so that what holds a key doesn't prove again how all of it is dropped.
impl<'p> Drop for EpochKey<'p> {
    fn drop(self) {
        let EpochKey {
            p: _,
            plan: _,
            input: _,
            first: _,
            base: _,
            steps: _,
            fuel: _,
            cap: _,
        } = self;
    }
}

impl<'u> EpochKey<'u> {
    /// The key of the line's epoch that begins so, with a memory of its own.
    pub(crate) fn copied(line: Line<'u>, begin: Begin<'_>) -> Result<EpochKey<'u>, NoMemory>
        ensures program { IfOk result (λ key. key.p.now ≡ line_program line.entry) }
        ensures plan { IfOk result (λ key. key.plan.now ≡ line_plan line.entry) }
        ensures cap { IfOk result (λ key. key.cap ≡ cap_of line.entry) }
        ensures key { IfOk result (λ key. key_of key ≡ units_key_at (prepared_of (line_program line.entry) (line_plan line.entry)) line.entry.input.now
            begin.entry (cap_of line.entry)) }
    {
        Ok(EpochKey {
            p: line.program(),
            plan: line.plan(),
            input: line.input,
            first: begin.first,
            base: begin.base.copy()?,
            steps: begin.steps,
            fuel: begin.fuel,
            cap: line.cap(),
        })
    }

    /// The memory in which it begins.
    fn into_base(self) -> Cells
        ensures { result ≡ self.entry.base }
    {
        let EpochKey {
            p: _,
            plan: _,
            input: _,
            first: _,
            base,
            steps: _,
            fuel: _,
            cap: _,
        } = self;
        base
    }
}

/// What the stage of this number sends in an epoch. A lane or a ring is made for it.
pub struct LaneKey<'p> {
    pub epoch: EpochKey<'p>,
    /// From 1. The try-commit unit has the number after the last stage.
    pub stage: u32,
}

// By hand, as above.
impl<'p> Drop for LaneKey<'p> {
    fn drop(self) {
        let LaneKey { epoch: _, stage: _ } = self;
    }
}

impl<'p> LaneKey<'p> {
    /// The memory in which its epoch begins.
    pub(crate) fn into_base(self) -> Cells
        ensures { result ≡ self.entry.epoch.base }
    {
        let LaneKey { epoch, stage: _ } = self;
        epoch.into_base()
    }
}
