//! What goes from unit to unit for a batch of iterations.
ghost use Rattle.std.specs.Prelude.{◌≡◌, map};
ghost use Rattle.dp_lean_region.specs.Line.{line_kinds};
ghost use Rattle.dp_lean_machine.specs.Held.{kinds_in};

use dp_columns::Columns;
use dp_lean_region::Line;
use dp_memory::{Version, VersionRoom};
use dp_room::Row;

/// What a stage told of a batch.
#[derive(Drop)]
pub struct StageColumns {
    pub columns: Columns,
    /// How many of its sites were done, iteration by iteration.
    pub steps: Row<u32>,
}

/// How the last iteration of a batch stands.
#[derive(Clone, Copy)]
pub enum BatchStatus {
    Going,
    /// It leaves the region.
    Closing,
    /// A turn broke off: the one behind those that came to their end.
    Void,
    /// Memory was wanting. What else the batch says means nothing.
    NoMemory,
}

/// A batch of an epoch's iterations. The columns of stages to come mean nothing.
#[derive(Drop)]
pub struct LeanBatch<'p> {
    pub(crate) line: Line<'p>,
    /// The number of its first iteration.
    pub(crate) first: u64,
    /// How many iterations came to their end.
    pub(crate) iterations: usize,
    pub(crate) status: BatchStatus,
    /// For each stage of the line its columns.
    pub(crate) stages: Row<StageColumns>,
    /// The memory with which the workers of a replicated stage behind begin the batch.
    pub(crate) version: Option<Version>,
    /// The room of one that is spent.
    pub(crate) room: Option<VersionRoom>,
    ghost kinds: { map kinds_in stages ≡ line_kinds line },
}

impl<'p> LeanBatch<'p> {
    /// What the batch is run on.
    pub fn line(&self) -> Line<'p>
        ensures { result ≡ self.now.line }
    {
        self.line
    }

    /// The number of its first iteration.
    pub fn first(&self) -> u64
        ensures { result ≡ self.now.first }
    {
        self.first
    }

    /// How many of its iterations came to their end.
    pub fn iterations(&self) -> usize
        ensures { result ≡ self.now.iterations }
    {
        self.iterations
    }

    /// How the last of its iterations stands.
    pub fn status(&self) -> BatchStatus
        ensures { result ≡ self.now.status }
    {
        self.status
    }

    /// What each stage told of it.
    pub fn stages(&self) -> &[StageColumns]
        ensures value { result.now ≡ self.now.stages }
        ensures kinds { map kinds_in result.now ≡ line_kinds self.now.line }
    {
        self.stages.as_slice()
    }
}
