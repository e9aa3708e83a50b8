//! The kinds of the stages' columns.
ghost use Rattle.std.specs.Prelude.{◌≡◌, IfOk, true};
ghost use Rattle.dp_tree.specs.Inlined.{IsInlined};
ghost use Rattle.dp_plan.specs.CheckedTable.{IsTabled};
ghost use Rattle.dp_semantics.specs.Fits.{fits_plan};
ghost use Rattle.dp_lean_code.specs.Known.{AreTablesOf};
ghost use Rattle.dp_lean_region.specs.Region as spec;

use crate::counting::stage_count;
use dp_base::{NoMemory, Row};
use dp_columns::ColumnKind;
use dp_lean_code::LeanTables;
use dp_lean_kinds::kinds;
use dp_plan::Plan;
use dp_tree::Program;
use std::alloc::Global;

/// The kinds of each stage's columns.
pub(crate) fn plan_kinds(
    alloc: Global,
    program: &Program,
    plan: &Plan,
    tables: &LeanTables,
) -> Result<Row<Row<ColumnKind>>, NoMemory>
    requires inlined { IsInlined program.now }
    requires fits { fits_plan program.now plan.now ≡ true }
    requires tabled { IsTabled program.now plan.now }
    requires known { AreTablesOf program.now plan.now tables.now }
    ensures { IfOk result (λ rows. rows ≡ spec.plan_kinds program.now plan.now) }
{
    let count = stage_count(plan)?;
    let mut rows = Row::new(alloc);
    for place in 0..count {
        let row = kinds(alloc, program, plan, tables, place + 1)?;
        rows.push(row)?;
    }
    Ok(rows)
}
