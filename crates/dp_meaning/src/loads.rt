//! The loads of an evaluation.
use dp_base::Row;
use dp_engine::Watch;
use std::alloc::Global;

/// The cells that an evaluation loads, in order.
#[derive(Drop)]
pub struct Loads {
    pub cells: Row<usize>,
    /// Memory was wanting for one of them.
    pub wanting: bool,
}

impl Loads {
    ghost use Rattle.std.specs.Prelude.{◌≡◌, [], false};

    /// No cell.
    pub fn new(alloc: Global) -> Loads
        ensures { result ≡ record { cells = []; wanting = false } }
    {
        Loads {
            cells: Row::new(alloc),
            wanting: false,
        }
    }

    /// Forgets the cells. Their room stays.
    pub(crate) fn clear(&mut self)
        ensures { self.new ≡ record { cells = []; wanting = false } }
    {
        self.cells.clear();
        self.wanting = false;
    }
}

impl Watch for Loads {
    ghost use Rattle.dp_meaning.specs.Watched.{notes};

    ghost told = { notes };

    fn load(&mut self, cell: u32, _value: i64) {
        if self.cells.push(cell as usize).is_err() {
            self.wanting = true;
        }
    }
}
