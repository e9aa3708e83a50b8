//! The cells of a region's body locals.
ghost use Rattle.std.specs.Prelude.{◌≡◌, IfOk};
ghost use Rattle.dp_lean_judge.specs.Locals as definition;

use dp_base::{CellId, NoMemory, Row};
use dp_tree::VarInfo;
use std::alloc::Global;

/// The cells of the region's body locals.
pub(crate) fn local_cells(
    alloc: Global,
    region: u32,
    vars: &[VarInfo],
) -> Result<Row<CellId>, NoMemory>
    ensures { IfOk result (λ cells. cells ≡ definition.local_cells region vars.now) }
{
    let mut cells = Row::new(alloc);
    for info in vars {
        if info.scope.is_local_of(region) {
            cells.push(info.first)?;
        }
    }
    Ok(cells)
}
