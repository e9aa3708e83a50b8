//! What the stages of an epoch and its judge are run on.
ghost use Rattle.std.specs.Prelude.{◌≡◌, ◌≤◌, length, IfNone, IfSome};
ghost use Rattle.dp_lean_region.specs.LeanEpoch.{LeanEpoch};
ghost use Rattle.dp_lean_region.specs.Region.{IsCap};
ghost use Rattle.dp_lean_region.specs.Ready.{IsStageReady};
ghost use Rattle.dp_lean_region.specs.Judging.{IsJudging};
ghost use Rattle.dp_lean_region.specs.Line.{IsLineOf, RunsIn, cap_of, line_kinds, line_plan, line_program};
ghost use Rattle.dp_lean_region.specs.Laws.{AreLawful};

use crate::RegionTables;
use dp_base::CellId;
use dp_columns::ColumnKind;
use dp_lean_turn::{Frame, Ready};
use dp_plan::Plan;
use dp_room::Row;
use dp_tree::Program;

/// A stage's code, which is ready.
#[derive(Clone, Copy)]
pub struct ReadyStage<'p> {
    pub frame: Frame<'p>,
    pub ready: Ready<'p>,
    /// The cells of the region's body locals.
    pub locals: &'p [CellId],
}

/// What iterations are judged by.
#[derive(Clone, Copy)]
pub struct JudgeTables<'p> {
    pub ready: &'p dp_lean_judge::Ready,
    /// The cells of the region's body locals.
    pub locals: &'p [CellId],
}

/// What the stages of an epoch and its judge are run on: the tables of its region, and its input.
#[derive(Clone, Copy)]
pub struct Line<'p> {
    pub region: &'p RegionTables<'p>,
    pub input: &'p [i64],
}

impl<'p> Line<'p> {
    /// The program.
    pub fn program(self) -> &'p Program
        ensures { result.now ≡ line_program self.entry }
    {
        self.region.program()
    }

    /// The region's plan.
    pub fn plan(self) -> &'p Plan
        ensures { result.now ≡ line_plan self.entry }
    {
        self.region.plan()
    }

    /// How many iterations go together at most.
    pub fn cap(self) -> u64
        ensures value { result ≡ cap_of self.entry }
        ensures cap { IsCap (line_program self.entry) (line_plan self.entry) result }
    {
        self.region.cap()
    }

    /// The stage at this place; the first one stands at 0.
    pub fn stage(self, place: usize) -> Option<ReadyStage<'p>>
        ensures ready { IfSome result (IsStageReady (line_kinds self.entry) place) }
        ensures runs { (e : LeanEpoch) → IsLineOf e self.entry → IfSome result (RunsIn e place) }
        ensures absent { IfNone result (length (line_plan self.entry).stages ≤ place) }
    {
        self.region.stage(place, self.input)
    }

    /// The kinds of each stage's columns.
    pub fn kinds(self) -> &'p [Row<ColumnKind>]
        ensures { result.now ≡ line_kinds self.entry }
    {
        self.region.kinds()
    }

    /// What iterations are judged by.
    pub fn judging(self) -> JudgeTables<'p>
        ensures { IsJudging (line_program self.entry) (line_plan self.entry) result }
    {
        self.region.judging()
    }

    /// The laws of the region's epochs.
    pub fn epochs_are_lawful(self)
        ensures { AreLawful (line_program self.entry) (line_plan self.entry) (cap_of self.entry) }
    {
        self.region.epochs_are_lawful()
    }
}
