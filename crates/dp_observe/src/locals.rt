//! The cells of a region's body locals.
ghost use Rattle.std.specs.Prelude.{◌≡◌, ℕ, ◌+◌, ◌||◌, ◌&&◌, nat_le, nat_lt, IfOk, OnOk};
ghost use Rattle.dp_profile.specs.Observed.{is_body_cell};
ghost use Rattle.dp_observe.specs.Sparse.{at};

use crate::sparse::Sparse;
use dp_base::NoMemory;
use dp_tree::Program;
use std::alloc::Global;

/// Marks so many cells, from the first on.
#[tactic(auto, using(crate::proofs::LocalLemmas::marks))]
fn mark(cells: &mut Sparse<bool>, first: u32, length: u32) -> Result<(), NoMemory>
    ensures { OnOk result ((k : ℕ) → at cells.new k ≡ (at cells.old k || (nat_le first k && nat_lt k (first + length)))) }
{
    let first = first as usize;
    for cell in first..first + length as usize {
        cells.set(cell, true)?;
    }
    Ok(())
}

/// Whether a cell is one of a body local of this region.
pub(crate) fn locals_of(
    alloc: Global,
    program: &Program,
    region: u32,
) -> Result<Sparse<bool>, NoMemory>
    ensures { IfOk result (λ locals. (k : ℕ) → at locals k ≡ is_body_cell program.now region k) }
{
    let mut locals = Sparse::new(alloc, false);
    for info in program.vars.as_slice() {
        if info.scope.is_local_of(region) {
            mark(&mut locals, info.first.0, info.length)?;
        }
    }
    Ok(locals)
}
