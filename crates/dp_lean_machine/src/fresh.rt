//! Batches of which nothing is told yet.
ghost use Rattle.std.specs.Prelude.{◌≡◌, map, IfOk};
ghost use Rattle.dp_lean_machine.specs.Held.{kinds_in};
ghost use Rattle.dp_lean_machine.specs.Fresh.{IsFresh};
ghost use Rattle.dp_lean_machine.specs.declared.batch.BatchStatus.TheVariants as wanting;

use crate::{BatchStatus, LeanBatch, StageColumns};
use dp_columns::{ColumnKind, Columns};
use dp_lean_region::Line;
use dp_room::{NoMemory, Row};
use std::alloc::Global;

/// Columns for each of these stages.
fn stage_columns(alloc: Global, kinds: &[Row<ColumnKind>]) -> Result<Row<StageColumns>, NoMemory>
    ensures { IfOk result (λ stages. map kinds_in stages ≡ kinds.now) }
{
    let mut stages = Row::with_capacity(alloc, kinds.len())?;
    for own in kinds {
        let columns = Columns::new(alloc, own.as_slice())?;
        stages.push(StageColumns {
            columns,
            steps: Row::new(alloc),
        })?;
    }
    Ok(stages)
}

impl<'p> LeanBatch<'p> {
    /// The batch of so many iterations from this one on.
    pub fn new(
        alloc: Global,
        line: Line<'p>,
        first: u64,
        size: usize,
    ) -> Result<LeanBatch<'p>, NoMemory>
        ensures fresh { IfOk result (λ batch. IsFresh line.entry first size batch) }
        ensures line { IfOk result (λ batch. batch.line ≡ line.entry) }
        ensures first { IfOk result (λ batch. batch.first ≡ first) }
    {
        let stages = stage_columns(alloc, line.kinds())?;
        Ok(LeanBatch {
            line,
            first,
            iterations: size,
            status: BatchStatus::Going,
            stages,
            version: None,
            room: None,
        })
    }

    /// It becomes the batch of so many iterations from this one on, in the room of one that was judged.
    pub fn renew(&mut self, first: u64, size: usize)
        ensures fresh { IsFresh self.old.line first size self.new }
        ensures line { self.new.line ≡ self.old.line }
        ensures first { self.new.first ≡ first }
    {
        if let Some(spent) = self.version.take() {
            self.room = Some(spent.into_room());
        }
        self.first = first;
        self.iterations = size;
        self.status = BatchStatus::Going;
    }

    /// Memory is wanting for the batch.
    pub fn wanting(&mut self)
        ensures status { self.new.status ≡ wanting.NoMemory }
        ensures line { self.new.line ≡ self.old.line }
        ensures first { self.new.first ≡ self.old.first }
    {
        self.status = BatchStatus::NoMemory;
    }
}
