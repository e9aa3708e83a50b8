//! The cells of a region's body locals, which read 0 where an iteration starts.
ghost use Rattle.std.specs.Prelude.{◌≡◌};
ghost use Rattle.dp_lean_judge.specs.Locals as definition;

use dp_base::{CellId, Cells};

/// These cells read 0.
pub fn clear(locals: &[CellId], cells: &mut Cells)
    ensures { cells.new ≡ definition.clear_cells locals.now cells.old }
{
    for cell in locals {
        cells.set(*cell, 0);
    }
}
