//! The cells of a region's body locals.
ghost use Rattle.std.specs.Prelude.{◌≡◌, ℕ, IfOk};
ghost use Rattle.std.specs.List.{list_any};
ghost use Rattle.std.specs.List.Sorted.{IsNonDecreasing};
ghost use Rattle.dp_plan.specs.Written.{has};
ghost use Rattle.dp_semantics.specs.Seen.{is_local_cell};

use crate::order::in_order;
use dp_base::{NoMemory, Row};
use dp_tree::Program;
use std::alloc::Global;

/// The cells of the region's body locals, in ascending order.
pub(crate) fn locals_of(alloc: Global, p: &Program, region: u32) -> Result<Row<u32>, NoMemory>
    ensures ascending { IfOk result IsNonDecreasing }
    ensures cells { IfOk result (λ locals. (c : ℕ) → has c locals ≡ list_any (is_local_cell region c) p.now.vars) }
{
    let locals = listed_locals(alloc, p, region)?;
    Ok(in_order(locals))
}

/// The cells of the region's body locals.
fn listed_locals(alloc: Global, p: &Program, region: u32) -> Result<Row<u32>, NoMemory>
    ensures { IfOk result (λ locals. (c : ℕ) → has c locals ≡ list_any (is_local_cell region c) p.now.vars) }
{
    let mut locals = Row::new(alloc);
    for info in p.vars.as_slice() {
        if info.scope.is_local_of(region) {
            locals.push(info.first.0)?;
        }
    }
    Ok(locals)
}
