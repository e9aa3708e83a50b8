//! What was counted at one site.
ghost use Rattle.std.specs.Prelude.{◌≡◌, ℕ, ◌+◌, ◌≤◌, ◌⊎◌, ◌^◌, true, IfOk, OnOk, OnErr};
ghost use Rattle.dp_room.specs.OneIf.{one_if};
ghost use Rattle.dp_observe.specs.steps.Frames as definition;
ghost use Rattle.dp_observe.specs.steps.Columns.{at_column};

use crate::columns::Columns;
use crate::frame::{Frame, Writer};
use crate::sparse::Sparse;
use dp_base::NoMemory;
use dp_meaning::Effect;
use dp_profile::SiteCount;
use std::alloc::Global;

/// The evaluations of a site, and its loads by the stores that they read.
#[derive(Drop)]
pub(crate) struct Tally {
    pub count: SiteCount,
    /// Two columns for each site of the region: stores of the same iteration, and of earlier ones.
    pub shown: Columns,
}

/// A number that would be too large counts as a want of memory.
fn one_more(n: u64) -> Result<u64, NoMemory>
    ensures value { IfOk result (λ more. more ≡ n + 1) }
    ensures full { OnErr result (2 ^ 64 ≤ n + 1) }
{
    n.checked_add(1).ok_or(NoMemory)
}

#[tactic(auto, unfolding(dp_base::specs::Arithmetic::is_zero))]
fn is_nonzero(effect: Effect) -> bool
    ensures { result ≡ definition.is_nonzero effect }
{
    match effect {
        Effect::Decided(value) => value != 0,
        Effect::Tried(value) => value != 0,
        Effect::Stored { .. } => false,
        Effect::Printed(_) => false,
    }
}

impl Tally {
    pub(crate) fn new(alloc: Global) -> Tally
        ensures { result ≡ definition.blank }
    {
        Tally {
            count: SiteCount {
                runs: 0,
                nonzero: 0,
            },
            shown: Columns::new(alloc),
        }
    }

    /// Counts an evaluation.
    pub(crate) fn evaluated(&mut self, effect: Effect) -> Result<(), NoMemory>
        ensures count { OnOk result (self.new ≡ record self.old { count = definition.counted self.old.count effect }) }
        ensures full { OnErr result ((2 ^ 64 ≤ self.old.count.runs + 1) ⊎ ((2 ^ 64 ≤ self.old.count.nonzero + 1) × (definition.is_nonzero effect ≡ true))) }
    {
        let runs = one_more(self.count.runs)?;
        let nonzero = if is_nonzero(effect) {
            one_more(self.count.nonzero)?
        } else {
            self.count.nonzero
        };
        self.count = SiteCount { runs, nonzero };
        Ok(())
    }

    /// Counts a load that reads a store of this column.
    fn loaded(&mut self, column: Option<usize>) -> Result<(), NoMemory>
        ensures count { OnOk result (self.new.count ≡ self.old.count) }
        ensures shown { OnOk result ((k : ℕ) → at_column self.new.shown k ≡ at_column self.old.shown k + one_if (definition.hits column k)) }
    {
        if let Some(column) = column {
            self.shown.add_one(column)?;
        }
        Ok(())
    }

    /// Counts the loads of these cells.
    pub(crate) fn load_all(
        &mut self,
        frame: Frame,
        writers: &Sparse<Writer>,
        locals: &Sparse<bool>,
        cells: &[usize],
    ) -> Result<(), NoMemory>
        ensures count { OnOk result (self.new.count ≡ self.old.count) }
        ensures shown { OnOk result ((k : ℕ) → at_column self.new.shown k ≡ at_column self.old.shown k + definition.loads_at frame writers.now
            locals.now k cells.now) }
    {
        for cell in cells {
            self.loaded(frame.column(writers.get(*cell), locals.get(*cell)))?;
        }
        Ok(())
    }
}
