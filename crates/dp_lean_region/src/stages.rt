//! What the turns of a region's stages run on, stage by stage.
ghost use Rattle.std.specs.Prelude.{◌≡◌, ◌<◌, ◌≤◌, ◌-◌, [], IfOk, get_or, length, take, true};
ghost use Rattle.dp_plan.specs.Access.{first_site};
ghost use Rattle.dp_lean_code.specs.Known.{AreTablesOf};
ghost use Rattle.dp_lean_region.specs.Region.{IsFitting, plan_kinds};
ghost use Rattle.dp_lean_region.specs.steps.Tables.{AreAllStages, IsStage, IsStaged};

use crate::ReadyStage;
use crate::counting::stage_count;
use dp_base::{CellId, NoMemory, Row};
use dp_columns::ColumnKind;
use dp_lean_code::{LeanProgram, LeanTables, lean_program};
use dp_lean_turn::{Frame, Kinds, TurnTables};
use dp_plan::Plan;
use dp_tree::Program;
use std::alloc::Global;

/// A stage's code, and what its turns run on.
pub(crate) struct StageTables {
    pub(crate) code: LeanProgram,
    pub(crate) turn: TurnTables,
}

// By hand, so that all above doesn't prove again how they are dropped.
impl Drop for StageTables {
    fn drop(self) {
        let StageTables { code: _, turn: _ } = self;
    }
}

/// The kinds of the columns of the stage at a place, and of those of all stages before it.
fn kinds_at<'k>(kinds: &'k [Row<ColumnKind>], place: usize) -> Kinds<'k>
    requires within { place ≤ length kinds.now }
    ensures own { result.own.now ≡ get_or kinds.entry.now place [] }
    ensures read { result.read.now ≡ take place kinds.entry.now }
{
    let own: &[ColumnKind] = match kinds.get(place) {
        Some(own) => own.as_slice(),
        None => &[],
    };
    Kinds {
        own,
        read: &kinds[..place],
    }
}

/// Those of the stage with this number.
fn tables_of(
    alloc: Global,
    program: &Program,
    plan: &Plan,
    tables: &LeanTables,
    kinds: &[Row<ColumnKind>],
    number: u32,
) -> Result<StageTables, NoMemory>
    requires fitting { IsFitting program.now plan.now }
    requires known { AreTablesOf program.now plan.now tables.now }
    requires kinds { kinds.now ≡ plan_kinds program.now plan.now }
    requires low { 0 < number }
    requires high { number ≤ length plan.now.stages }
    ensures { IfOk result (IsStage program.now plan.now kinds.now (number - 1)) }
{
    let code = lean_program(alloc, program, plan, tables, number)?;
    let columns = kinds_at(kinds, number as usize - 1);
    let ops = code.ops.as_slice();
    let turn = TurnTables::new(alloc, program, plan, tables, ops, columns, number)?;
    Ok(StageTables { code, turn })
}

/// Those of all stages of the plan, the first one's first.
pub(crate) fn stage_tables(
    alloc: Global,
    program: &Program,
    plan: &Plan,
    tables: &LeanTables,
    kinds: &[Row<ColumnKind>],
) -> Result<Row<StageTables>, NoMemory>
    requires fitting { IsFitting program.now plan.now }
    requires known { AreTablesOf program.now plan.now tables.now }
    requires kinds { kinds.now ≡ plan_kinds program.now plan.now }
    ensures { IfOk result (AreAllStages program.now plan.now kinds.now) }
{
    let count = stage_count(plan)?;
    let mut stages = Row::new(alloc);
    for place in 0..count {
        let made = tables_of(alloc, program, plan, tables, kinds, place + 1)?;
        stages.push(made)?;
    }
    Ok(stages)
}

/// What a region lends its stages.
#[derive(Clone, Copy)]
pub(crate) struct Lent<'u> {
    pub(crate) program: &'u Program,
    pub(crate) plan: &'u Plan,
    pub(crate) first: u32,
    pub(crate) kinds: &'u [Row<ColumnKind>],
    pub(crate) locals: &'u [CellId],
    pub(crate) input: &'u [i64],
}

/// The stage at a place, ready for an input.
pub(crate) fn staged<'u>(lent: Lent<'u>, stage: &'u StageTables, place: usize) -> ReadyStage<'u>
    requires stage { IsStage lent.program.now lent.plan.now lent.kinds.now place stage.now }
    requires within { place ≤ length lent.kinds.now }
    requires first { lent.first ≡ first_site lent.program.now lent.plan.now }
    ensures { IsStaged lent.entry.program.now lent.entry.plan.now lent.entry.kinds.now place lent.entry.input.now lent.entry.locals.now result }
{
    let frame = Frame {
        program: lent.program,
        plan: lent.plan,
        input: lent.input,
        code: stage.code.ops.as_slice(),
        kinds: kinds_at(lent.kinds, place),
        hidden: stage.turn.hidden(),
        first: lent.first,
    };
    ReadyStage {
        frame,
        ready: stage.turn.ready(lent.input),
        locals: lent.locals,
    }
}
