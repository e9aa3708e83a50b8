//! What a region's stages and its judge run on, made once.
ghost use Rattle.std.specs.Prelude.{◌≡◌, ◌≤◌, length, IfNone, IfOk, IfSome};
ghost use Rattle.dp_tree.specs.Inlined.{IsInlined};
ghost use Rattle.dp_plan.specs.GivenPlans.{IsPlan};
ghost use Rattle.dp_lean_region.specs.LeanEpoch.{LeanEpoch};
ghost use Rattle.dp_lean_region.specs.Region.{IsCap, IsFitting, plan_kinds};
ghost use Rattle.dp_lean_region.specs.Ready.{IsStageReady};
ghost use Rattle.dp_lean_region.specs.Judging.{IsJudging};
ghost use Rattle.dp_lean_region.specs.Line.{IsEpochOf, RunsIn};
ghost use Rattle.dp_lean_region.specs.Laws.{AreLawful};

use crate::judging::{JudgeMade, judge_of};
use crate::kinds::plan_kinds;
use crate::law::{epochs_are_lawful, given_plans_fit};
use crate::locals::local_cells;
use crate::stages::{Lent, StageTables, stage_tables, staged};
use crate::{JudgeTables, Line, ReadyStage};
use dp_base::{CellId, NoMemory, Row};
use dp_columns::ColumnKind;
use dp_lean_code::LeanTables;
use dp_plan::Plan;
use dp_tree::Program;
use std::alloc::Global;
use std::marker::Model;

/// A program, a plan for one of its regions, and what the stages and the judge of that region run on.
pub struct RegionTables<'p> {
    program: &'p Program,
    plan: &'p Plan,
    /// The region's first site: its condition.
    first: u32,
    /// The kinds of each stage's columns.
    kinds: Row<Row<ColumnKind>>,
    /// One for each stage, from the first on.
    stages: Row<StageTables>,
    /// The cells of the region's body locals.
    locals: Row<CellId>,
    judge: JudgeMade,
}

// By hand, so that a crate above doesn't prove again how all that the tables hold is dropped.
impl<'p> Drop for RegionTables<'p> {
    fn drop(self) {
        let RegionTables {
            program: _,
            plan: _,
            first: _,
            kinds: _,
            stages: _,
            locals: _,
            judge: _,
        } = self;
    }
}

impl<'p> Model for RegionTables<'p> {
    ghost use Rattle.dp_tree.specs.contracts.Expr as expr;
    ghost use Rattle.dp_tree.specs.contracts.Stmt as stmt;
    ghost use Rattle.std.specs.Coded.{codes};
    ghost use Rattle.dp_lean_region.specs.Region.{LeanRegion};
    ghost use Rattle.dp_lean_region.specs.steps.Tables.{IsRegion};

    ghost Value = { LeanRegion };

    ghost coded = { Prim.hlevel (codes, expr.the_row.coded, stmt.the_row.coded) };

    ghost view = { λ r. record { program = r.program.now; plan = r.plan.now; cap = r.judge.cap } };

    ghost invariant = { λ r. IsRegion r.program.now r.plan.now r.first r.kinds r.stages r.locals r.judge };
}

impl<'p> RegionTables<'p> {
    /// The tables of a region under a plan that is given for the program.
    pub fn new(
        alloc: Global,
        program: &'p Program,
        plan: &'p Plan,
    ) -> Result<RegionTables<'p>, NoMemory>
        requires inlined { IsInlined program.now }
        requires is_plan { IsPlan program.now plan.now }
        ensures { IfOk result (λ r. (r.program ≡ program.now) × (r.plan ≡ plan.now)) }
    {
        given_plans_fit(program, plan);
        let tables = LeanTables::of(alloc, program, plan)?;
        let kinds = plan_kinds(alloc, program, plan, &tables)?;
        let stages = stage_tables(alloc, program, plan, &tables, kinds.as_slice())?;
        let judge = judge_of(alloc, program, plan, &tables)?;
        let locals = local_cells(alloc, plan.region, program.vars.as_slice())?;
        Ok(RegionTables {
            program,
            plan,
            first: plan.first_site(program),
            kinds,
            stages,
            locals,
            judge,
        })
    }

    /// The program.
    pub fn program(&self) -> &Program
        ensures value { result.now ≡ self.now.program }
        ensures fitting { IsFitting self.now.program self.now.plan }
    {
        self.program
    }

    /// The region's plan.
    pub fn plan(&self) -> &Plan
        ensures { result.now ≡ self.now.plan }
    {
        self.plan
    }

    /// How many iterations go together at most: the fewer, the longer the judge's code is, and one by one where it has an inner loop,
    /// or where a stage's workers can't go on with the memory that they left.
    pub fn cap(&self) -> u64
        ensures value { result ≡ self.now.cap }
        ensures cap { IsCap self.now.program self.now.plan result }
    {
        self.judge.cap
    }

    /// The line of the region's epochs, with this input.
    pub fn line<'u>(&'u self, input: &'u [i64]) -> Line<'u>
        ensures region { result.region.now ≡ self.entry.now }
        ensures input { result.input.now ≡ input.entry.now }
    {
        Line {
            region: self,
            input,
        }
    }

    /// The stage at this place, with an input; the first one stands at 0.
    pub(crate) fn stage<'u>(&'u self, place: usize, input: &'u [i64]) -> Option<ReadyStage<'u>>
        ensures ready { IfSome result (IsStageReady (plan_kinds self.now.program self.now.plan) place) }
        ensures runs { (e : LeanEpoch) → IsEpochOf e self.now.program self.now.plan input.now → IfSome result (RunsIn e place) }
        ensures absent { IfNone result (length self.now.plan.stages ≤ place) }
    {
        let lent = Lent {
            program: self.program(),
            plan: self.plan(),
            first: self.first,
            kinds: self.kinds.as_slice(),
            locals: self.locals.as_slice(),
            input,
        };
        match self.stages.get(place) {
            Some(stage) => Some(staged(lent, stage, place)),
            None => None,
        }
    }

    /// The kinds of each stage's columns.
    pub(crate) fn kinds(&self) -> &[Row<ColumnKind>]
        ensures { result.now ≡ plan_kinds self.now.program self.now.plan }
    {
        self.kinds.as_slice()
    }

    /// What iterations are judged by.
    pub(crate) fn judging<'u>(&'u self) -> JudgeTables<'u>
        ensures { IsJudging self.now.program self.now.plan result }
    {
        JudgeTables {
            ready: &self.judge.ready,
            locals: self.locals.as_slice(),
        }
    }

    /// The laws of the region's epochs.
    pub(crate) fn epochs_are_lawful(&self)
        ensures { AreLawful self.now.program self.now.plan self.now.cap }
    {
        epochs_are_lawful(self.program, self.plan);
    }
}
