//! How many iterations go together.
ghost use Rattle.std.specs.Prelude.{◌≡◌, ◌≤◌, IfOk, length, true};
ghost use Rattle.dp_tree.specs.Inlined.{IsInlined};
ghost use Rattle.dp_semantics.specs.Fits.{fits_plan};
ghost use Rattle.dp_lean_code.specs.Known.{AreTablesOf};
ghost use Rattle.dp_lean_region.specs.Region.{IsCap};

use crate::feeding::all_keep_memory;
use dp_base::NoMemory;
use dp_code::Op;
use dp_lean_code::{LeanOp, LeanTables};
use dp_plan::Plan;
use dp_tree::Program;
use std::alloc::Global;

/// The ops that a batch's iterations have together at most.
const OPS: u64 = 2_048;

/// How many iterations go together at most.
const MOST: u64 = 64;

/// .. and of a region with an inner loop: no text tells then how much is told in an iteration.
const LOOPED: u64 = 8;

/// Whether an op goes back to an earlier one, as those behind a loop's body do.
fn turns_back(code: &[LeanOp]) -> bool {
    for (place, op) in code.iter().enumerate() {
        if let LeanOp::Plain(Op::Jump(to)) = op {
            if *to as usize <= place {
                return true;
            }
        }
    }
    false
}

/// By the judge's code: the fewer, the longer it is, and a few where it has an inner loop.
fn cap_by(code: &[LeanOp]) -> u64
    ensures some { 1 ≤ result }
    ensures most { result ≤ 64 }
{
    let count = (code.len() as u64).max(1);
    let most = if turns_back(code) { LOOPED } else { MOST };
    (OPS / count).max(1).min(most)
}

/// How many iterations of the region go together at most, where this is the judge's code.
pub(crate) fn cap_of(
    alloc: Global,
    program: &Program,
    plan: &Plan,
    tables: &LeanTables,
    code: &[LeanOp],
) -> Result<u64, NoMemory>
    requires inlined { IsInlined program.now }
    requires fits { fits_plan program.now plan.now ≡ true }
    requires known { AreTablesOf program.now plan.now tables.now }
    ensures { IfOk result (IsCap program.now plan.now) }
{
    let all = all_keep_memory(alloc, program, plan, tables)?;
    if all { Ok(cap_by(code)) } else { Ok(1) }
}
