//! Checkpoints: where a run was saved before an iteration of a region, and how that is read and written as a text.
#![tactic(auto)]

use dp_base::{Cells, NoMemory, RegionReport, Row};

mod law;
mod line;
mod memory;
mod read;
mod reader;
mod report;
mod write;

pub use law::{read_checkpoints_fit, written_checkpoints_are_read};
pub use read::read_checkpoint;
pub use write::write_checkpoint;

/// A run before an iteration of a region.
pub struct Checkpoint {
    /// The region, from 1.
    pub region: u32,
    /// How many of its iterations were made.
    pub after: u64,
    /// How many steps were made, of those that the fuel allows.
    pub steps: u64,
    pub fuel: u64,
    pub cells: Cells,
    /// The reports of the regions up to this one, without causes.
    pub reports: Row<RegionReport>,
}

impl Drop for Checkpoint {
    fn drop(self) {
        let Checkpoint {
            region: _,
            after: _,
            steps: _,
            fuel: _,
            cells: _,
            reports: _,
        } = self;
    }
}

impl Checkpoint {
    ghost use Rattle.std.specs.Prelude.{◌≡◌};

    /// The memory and the reports.
    pub fn into_parts(self) -> (Cells, Row<RegionReport>)
        ensures { (result.0 ≡ self.cells) × (result.1 ≡ self.reports) }
    {
        let Checkpoint {
            region: _,
            after: _,
            steps: _,
            fuel: _,
            cells,
            reports,
        } = self;
        (cells, reports)
    }
}

/// Why a text gives no checkpoint.
#[derive(Clone, Copy)]
pub enum CheckpointFail {
    /// It isn't in the grammar: the first line, from 1, up to which no text of the grammar begins so.
    Refused { line: u32 },
    /// Memory was wanting.
    NoMemory,
}

impl From<NoMemory> for CheckpointFail {
    ghost use Rattle.std.specs.Prelude.{◌≡◌};
    ghost use Rattle.dp_save.specs.declared.CheckpointFail.TheVariants.{NoMemory};

    ghost from_gives = { λ _ fail. fail ≡ NoMemory };

    fn from(_wanting: NoMemory) -> CheckpointFail {
        CheckpointFail::NoMemory
    }
}
