//! The audit of a log.
ghost use Rattle.std.specs.Prelude.{◌≤◌, length, IfOk};
ghost use Rattle.dp_tree.specs.Inlined.{IsInlined};
ghost use Rattle.dp_plan.specs.GivenPlans.{ArePlans};
ghost use Rattle.dp_semantics.specs.Verdict.{source_run};
ghost use Rattle.dp_log.specs.LogText.{log_bytes};
ghost use Rattle.dp_auditor.specs.Answered.{Answers};

use crate::AuditEnd;
use crate::comparing::Comparing;
use crate::parts::{Walked, compare_parts};
use dp_base::{NoMemory, Row};
use dp_log::put_first;
use dp_meaning::Machine;
use dp_plan::Plan;
use dp_report::put_end;
use dp_tree::Program;
use std::alloc::Global;

/// Whether the log is that of the run of the program on the input, within the fuel, each region under its plan.
///
/// Its memory follows from the program, and not from the length of the run or the log: it compares line by line, and stops at
/// the first that differs.
pub fn audit(
    alloc: Global,
    program: &Program,
    plans: &[Plan],
    input: &[i64],
    fuel: u64,
    log: &[u8],
) -> Result<AuditEnd, NoMemory>
    requires inlined { IsInlined program.now }
    requires plans { ArePlans program.now plans.now }
    requires words { length input.now ≤ 65536 }
    requires fuel { fuel ≤ 1000000000 }
    requires log { length log.now ≤ 16777216 }
    ensures { IfOk result (Answers log.now (log_bytes program.now plans.now (source_run program.now input.now fuel))) }
{
    let mut compared = Comparing::begin(log);
    let mut text = Row::new(alloc);
    put_first(&mut text)?;
    if let Some(line) = compared.take(text.as_slice()) {
        return Ok(AuditEnd::Differs { line });
    }
    let mut machine = Machine::new(alloc, program, input, fuel)?;
    match compare_parts(alloc, program, plans, input, &mut machine, &mut compared)? {
        Walked::Whole(end) => {
            text.clear();
            put_end(&mut text, end)?;
        }
        Walked::Differs(line) => return Ok(AuditEnd::Differs { line }),
    }
    match compared.take(text.as_slice()) {
        Some(line) => Ok(AuditEnd::Differs { line }),
        None => Ok(compared.end()),
    }
}
