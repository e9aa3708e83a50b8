//! What the judge of a region's iterations runs on.
ghost use Rattle.std.specs.Prelude.{◌≡◌, IfOk};
ghost use Rattle.dp_semantics.specs.Judge.{last};
ghost use Rattle.dp_lean_code.specs.Known.{AreTablesOf, paying_marks};
ghost use Rattle.dp_lean_code.specs.LeanCode.{lean_code};
ghost use Rattle.dp_lean_region.specs.Region.{IsFitting};
ghost use Rattle.dp_lean_region.specs.steps.Tables.{IsJudgeMade};

use crate::capping::cap_of;
use dp_base::NoMemory;
use dp_lean_code::{LeanProgram, LeanTables, lean_program};
use dp_lean_judge::Ready;
use dp_plan::Plan;
use dp_tree::Program;
use std::alloc::Global;

/// The judge's code, made ready, and how many iterations go together at most.
pub(crate) struct JudgeMade {
    pub(crate) ready: Ready,
    pub(crate) cap: u64,
}

// By hand, so that all above doesn't prove again how it is dropped.
impl Drop for JudgeMade {
    fn drop(self) {
        let JudgeMade { ready: _, cap: _ } = self;
    }
}

/// The number that stands for the judge.
fn judge_number(plan: &Plan) -> Result<u32, NoMemory>
    ensures { IfOk result (λ number. number ≡ last plan.now) }
{
    match u32::try_from(plan.stages.len()) {
        Ok(count) if count < u32::MAX => Ok(count + 1),
        _ => Err(NoMemory),
    }
}

/// The judge's code.
fn judge_code(
    alloc: Global,
    program: &Program,
    plan: &Plan,
    tables: &LeanTables,
) -> Result<LeanProgram, NoMemory>
    requires fitting { IsFitting program.now plan.now }
    requires known { AreTablesOf program.now plan.now tables.now }
    ensures { IfOk result (λ code. code.ops ≡ lean_code program.now plan.now (last plan.now) (paying_marks program.now plan.now)) }
{
    let number = judge_number(plan)?;
    lean_program(alloc, program, plan, tables, number)
}

/// What the judge runs on.
pub(crate) fn judge_of(
    alloc: Global,
    program: &Program,
    plan: &Plan,
    tables: &LeanTables,
) -> Result<JudgeMade, NoMemory>
    requires fitting { IsFitting program.now plan.now }
    requires known { AreTablesOf program.now plan.now tables.now }
    ensures { IfOk result (IsJudgeMade program.now plan.now) }
{
    let code = judge_code(alloc, program, plan, tables)?;
    let ops = code.ops.as_slice();
    let ready = Ready::new(alloc, program, plan, ops)?;
    let cap = cap_of(alloc, program, plan, tables, ops)?;
    Ok(JudgeMade { ready, cap })
}
