//! The code of each stage's lean text.

ghost use Rattle.std.specs.Prelude.{◌≡◌, ◌<◌, ◌≤◌, IfOk, true};
ghost use Rattle.dp_tree.specs.Inlined.{IsInlined};
ghost use Rattle.dp_plan.specs.CheckedTable.{IsTabled};
ghost use Rattle.dp_semantics.specs.Fits.{fits_plan};
ghost use Rattle.dp_semantics.specs.Judge.{last};
ghost use Rattle.dp_lean_code.specs.Known.{AreTablesOf, paying_marks};
ghost use Rattle.dp_lean_code.specs.LeanCode.{lean_code};

use crate::stage::LeanStage;
use crate::{LeanOp, LeanProgram, LeanTables};
use dp_base::{NoMemory, Row};
use dp_code::Op;
use dp_plan::{Plan, is_region};
use dp_tree::Program;
use std::alloc::Global;

/// The program of a stage's lean text, from 1 to the number of the plan's stages; the number behind them stands for the judge.
pub fn lean_program(
    alloc: Global,
    p: &Program,
    plan: &Plan,
    tables: &LeanTables,
    stage: u32,
) -> Result<LeanProgram, NoMemory>
    requires inlined { IsInlined p.now }
    requires fits { fits_plan p.now plan.now ≡ true }
    requires tabled { IsTabled p.now plan.now }
    requires known { AreTablesOf p.now plan.now tables.now }
    requires low { 0 < stage }
    requires high { stage ≤ last plan.now }
    ensures { IfOk result (λ program. program.ops ≡ lean_code p.now plan.now stage (paying_marks p.now plan.now)) }
{
    let made = LeanStage {
        alloc,
        program: p,
        plan,
        tables,
        number: stage,
    };
    let mut ops = Row::new(alloc);
    for statement in p.main.as_slice() {
        if is_region(plan.region, statement) {
            made.statement(&mut ops, statement)?;
        }
    }
    ops.push(LeanOp::Plain(Op::End))?;
    Ok(LeanProgram { ops })
}
