//! A tree with names becomes a program, or is refused.

ghost use Rattle.std.specs.Prelude.{◌≡◌, IfOk};
ghost use Rattle.dp_check.specs.Tables as tables;
ghost use Rattle.dp_check.specs.Answer.{GivesChecked};
ghost use Rattle.dp_check.specs.CheckAnswer.{check_answer};

use crate::CheckFail;
use crate::limits::within;
use crate::sites::Sites;
use crate::trees::resolve;
use crate::variables::Variables;
use dp_base::{NoMemory, Row};
use dp_tree::{Program, RawProgram, VarInfo};
use std::alloc::Global;

#[tactic(auto, using(crate::proofs::CheckAnswerLemmas::variable_tables))]
fn variables(alloc: Global, raw: &RawProgram) -> Result<Row<VarInfo>, NoMemory>
    ensures { IfOk result (λ rows. rows ≡ tables.variables raw.now) }
{
    let mut table = Variables::new(alloc);
    table.globals(raw.items.as_slice())?;
    table.main(raw.main.as_slice())?;
    table.functions(raw.items.as_slice())?;
    Ok(table.rows)
}

fn sites(alloc: Global, raw: &RawProgram) -> Result<Sites, NoMemory>
    ensures rows { IfOk result (λ table. table.rows ≡ tables.program_sites raw.now) }
    ensures regions { IfOk result (λ table. table.regions ≡ tables.regions_from 1 raw.now.main) }
{
    let mut table = Sites::new(alloc);
    table.main(raw.main.as_slice())?;
    table.functions(raw.items.as_slice())?;
    Ok(table)
}

/// The program that a lawful tree stands for. A tree of more than 4,294,967,295 sites or variables has none: its
/// answer is that memory is wanting.
#[tactic(auto, using(crate::proofs::CheckAnswerLemmas::check_answers))]
pub fn check(alloc: Global, raw: &RawProgram) -> Result<Program, CheckFail>
    ensures { GivesChecked (check_answer raw.now) result }
{
    let (functions, main) = resolve(alloc, raw)?;
    within(raw)?;
    let vars = variables(alloc, raw)?;
    let table = sites(alloc, raw)?;
    Ok(Program {
        vars,
        sites: table.rows,
        regions: table.regions,
        functions,
        main,
    })
}
