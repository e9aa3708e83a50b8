//! What a clean iteration stored.
ghost use Rattle.std.specs.Prelude.{◌≡◌, map, IfOk};
ghost use Rattle.dp_audit.specs.Stored.{stored_cell};

use dp_base::{NoMemory, Row, StoreOf};
use std::alloc::Global;

/// The cells of these stores.
pub(crate) fn cells_of(alloc: Global, stores: &[StoreOf]) -> Result<Row<u32>, NoMemory>
    ensures { IfOk result (λ cells. cells ≡ map stored_cell stores.now) }
{
    let mut cells = Row::new(alloc);
    for store in stores {
        cells.push(store.cell.0)?;
    }
    Ok(cells)
}
