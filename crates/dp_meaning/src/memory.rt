//! Changes of a program's memory.
ghost use Rattle.std.specs.Prelude.{◌≡◌, length, ◌^◌, ◌<◌, IfOk};
ghost use Rattle.dp_semantics.specs.Told.{with_stores};
ghost use Rattle.dp_tree.specs.Trace as definition_of_runs;

use dp_base::{Cells, NoMemory, StoreOf};
use dp_tree::VarInfo;
use std::alloc::Global;

/// These stores, one after the other.
#[inline(always)]
#[tactic(auto, using(crate::proofs::MemoryLemmas::makes))]
pub(crate) fn make_stores(stores: &[StoreOf], cells: &mut Cells)
    ensures { cells.new ≡ with_stores stores.now cells.old }
{
    for store in stores {
        cells.set(store.cell, store.value);
    }
}

/// The cells of all variables, one variable after the other, at their start values. More of them than cells have numbers are
/// a want of memory.
#[tactic(auto, using(crate::proofs::MemoryLemmas::starts))]
pub(crate) fn start_cells(alloc: Global, vars: &[VarInfo]) -> Result<Cells, NoMemory>
    ensures cells { IfOk result (λ cells. cells ≡ definition_of_runs.start_cells vars.now) }
    ensures small { IfOk result (λ cells. length cells < 2 ^ 32) }
{
    let mut values = Vec::new(alloc);
    for info in vars {
        let len = values.len() + info.length as usize;
        if len > u32::MAX as usize {
            return Err(NoMemory);
        }
        values.resize(len, info.start)?;
    }
    Ok(Cells::from_values(alloc, values))
}
