//! What is known of a region for its stages' codes, made once.

ghost use Rattle.std.specs.Prelude.{◌≡◌, ◌-◌, IfOk, slice_get, slice_index, true};
ghost use Rattle.dp_tree.specs.Inlined.{IsInlined};
ghost use Rattle.dp_plan.specs.CheckedTable.{IsTabled};
ghost use Rattle.dp_semantics.specs.Fits.{fits_plan};
ghost use Rattle.dp_lean_code.specs.Known.{AreTablesOf};
ghost use Rattle.dp_lean_code.specs.steps.Looked as spec;

use crate::access::accesses_of;
use crate::needs::Needs;
use crate::quiet::Runs;
use dp_base::{NoMemory, Row, VarId};
use dp_plan::Plan;
use dp_tree::Program;
use std::alloc::Global;

/// What is known of a region for its stages' codes.
#[derive(Drop)]
pub struct LeanTables {
    /// By site of the region, from its first one on: the number of the statements of the block that begins there, or 0.
    pub blocks: Row<u32>,
    /// By stage, from 1 to the judge's number, and by variable: whether a store to it is done.
    pub done: Row<Row<bool>>,
    /// By variable: the home of a private one.
    pub homes: Row<Option<u32>>,
}

impl LeanTables {
    /// The tables of the plan's region.
    pub fn of(alloc: Global, p: &Program, plan: &Plan) -> Result<LeanTables, NoMemory>
        requires inlined { IsInlined p.now }
        requires fits { fits_plan p.now plan.now ≡ true }
        requires tabled { IsTabled p.now plan.now }
        ensures { IfOk result (λ tables. AreTablesOf p.now plan.now tables) }
    {
        let accesses = accesses_of(alloc, p, plan.region)?;
        let needs = Needs {
            program: p,
            plan,
            accesses: accesses.as_slice(),
        };
        let done = needs.done(alloc)?;
        let homes = needs.homes(alloc)?;
        let runs = Runs {
            program: p,
            plan,
            homes: homes.as_slice(),
        };
        let blocks = runs.blocks(alloc)?;
        Ok(LeanTables {
            blocks,
            done,
            homes,
        })
    }

    /// The number of the statements of the block that begins at the site with this place in the region, or 0.
    pub fn block_at(&self, place: usize) -> u32
        ensures { result ≡ slice_index self.now.blocks place }
    {
        match self.blocks.as_slice().get(place) {
            Some(count) => *count,
            None => 0,
        }
    }

    /// Whether the stage does stores to the variable, where both are there.
    pub fn done_to(&self, stage: u32, var: VarId) -> Option<bool>
        ensures { result ≡ spec.entry_of var.0 (slice_get self.now.done (stage - 1)) }
    {
        let place = (stage as usize).saturating_sub(1);
        match self.done.get(place) {
            Some(row) => row.get(var.0 as usize).copied(),
            None => None,
        }
    }
}
