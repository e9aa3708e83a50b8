//! Whether a stage may load what it stored itself in an earlier iteration.
ghost use Rattle.std.specs.Prelude.{◌≡◌, ◌++◌, ◌∷◌, [], IfOk, OnOk, length, true};
ghost use Rattle.std.specs.List.{list_all};
ghost use Rattle.dp_tree.specs.Inlined.{IsInlined};
ghost use Rattle.dp_tree.specs.Numbering.{numbers_from};
ghost use Rattle.dp_semantics.specs.Fits.{fits_plan};
ghost use Rattle.dp_lean_code.specs.Known.{AreTablesOf};
ghost use Rattle.dp_lean_epoch.specs.Steps.{keeps_memory};
ghost use Rattle.dp_lean_region.specs.steps.Fed as spec;

use crate::counting::stage_count;
use dp_base::{NoMemory, Row, SiteId, VarId};
use dp_lean_code::{LeanStage, LeanTables};
use dp_plan::Plan;
use dp_sites::{Question, ask_region};
use dp_tree::{Program, Stmt};
use std::alloc::Global;

/// A site that stores, with its variable.
#[derive(Clone, Copy)]
pub(crate) struct SiteStore {
    pub(crate) site: SiteId,
    pub(crate) var: VarId,
}

/// Asks for each statement's store.
struct Stores;

fn put(out: &mut Row<SiteStore>, site: SiteId, var: VarId) -> Result<(), NoMemory>
    ensures { OnOk result (out.new ≡ out.old ++ record { site = site; var = var } ∷ []) }
{
    out.push(SiteStore { site, var })
}

impl Question<SiteStore> for Stores {
    ghost gives = { Rattle.dp_lean_region.specs.steps.Fed.stored_at };

    #[tactic(auto, using(crate::proofs::StoreForms::stored_forms))]
    fn ask(&self, out: &mut Row<SiteStore>, statement: &Stmt) -> Result<(), NoMemory> {
        match statement {
            Stmt::Assign { site, var, .. } => put(out, *site, *var),
            Stmt::Store { site, var, .. } => put(out, *site, *var),
            Stmt::Print { .. } => Ok(()),
            Stmt::If { .. } => Ok(()),
            Stmt::While { .. } => Ok(()),
            Stmt::Region { .. } => Ok(()),
            Stmt::Break { .. } => Ok(()),
            Stmt::Call { .. } => Ok(()),
        }
    }
}

/// The stage stores, among these, to a variable that it loads, and that outlives the iteration.
fn feeds_itself<'a>(stage: LeanStage<'a>, stores: &[SiteStore]) -> bool
    ensures { result ≡ spec.feeds_among stage.entry.program.now stage.entry.plan.now stage.entry.tables.now stage.entry.number stores.now }
{
    for store in stores {
        let outlives = !stage.plan.is_body_local(stage.program, store.var);
        if stage.owns(store.site) && stage.does(store.var) && outlives {
            return true;
        }
    }
    false
}

/// The stage may begin an iteration with the memory that it left.
fn keeps_memory<'a>(stage: LeanStage<'a>, stores: &[SiteStore]) -> bool
    ensures { result ≡ spec.keeps_among stage.entry.program.now stage.entry.plan.now stage.entry.tables.now stage.entry.number stores.now }
{
    !(stage.plan.is_replicated(stage.number) && feeds_itself(stage, stores))
}

/// Each of the plan's stages may.
pub(crate) fn all_keep_memory(
    alloc: Global,
    program: &Program,
    plan: &Plan,
    tables: &LeanTables,
) -> Result<bool, NoMemory>
    requires inlined { IsInlined program.now }
    requires fits { fits_plan program.now plan.now ≡ true }
    requires known { AreTablesOf program.now plan.now tables.now }
    ensures { IfOk result (λ all. all ≡ list_all (keeps_memory program.now plan.now) (numbers_from 1 (length plan.now.stages))) }
{
    let count = stage_count(plan)?;
    let stores = ask_region(alloc, &Stores, program, plan.region)?;
    for place in 0..count {
        let stage = LeanStage {
            alloc,
            program,
            plan,
            tables,
            number: place + 1,
        };
        if !keeps_memory(stage, stores.as_slice()) {
            return Ok(false);
        }
    }
    Ok(true)
}
