//! What was counted in all regions.
ghost use Rattle.std.specs.Prelude.{◌≡◌, ℕ, ◌<◌, ◌≤◌, ◌+◌, ◌-◌, ◌^◌, [], IfOk, OnOk, OnErr};
ghost use Rattle.dp_observe.specs.steps.Counting.{BoardCounts, writer_after};
ghost use Rattle.dp_observe.specs.steps.Frames.{nobody};
ghost use Rattle.dp_observe.specs.steps.Owners.{owner_after};
ghost use Rattle.dp_observe.specs.Sparse.{at};
ghost use Rattle.dp_observe.specs.steps.Starting.{AllStart};

use crate::counter::Counter;
use crate::frame::{Seen, Writer};
use crate::owners::owners_of;
use crate::sparse::Sparse;
use dp_base::{NoMemory, Row, SiteId};
use dp_meaning::Effect;
use dp_profile::RegionSite;
use dp_tree::Program;
use std::alloc::Global;

/// The counters of the regions, and for each cell who stored there last.
#[derive(Drop)]
pub(crate) struct Board {
    pub owners: Sparse<usize>,
    pub writers: Sparse<Writer>,
    pub counters: Row<Counter>,
}

/// A counter for each region.
fn counters(
    alloc: Global,
    program: &Program,
    regions: &[Row<RegionSite>],
) -> Result<Row<Counter>, NoMemory>
    ensures { IfOk result (AllStart program.now regions.now) }
{
    let mut all = Row::new(alloc);
    let mut region = 0;
    for sites in regions {
        region = one_more(region)?;
        all.push(Counter::new(alloc, program, region, sites.as_slice())?)?;
    }
    Ok(all)
}

fn one_more(n: u32) -> Result<u32, NoMemory>
    ensures value { IfOk result (λ more. more ≡ n + 1) }
    ensures small { IfOk result (λ more. more < 2 ^ 32) }
    ensures full { OnErr result (2 ^ 32 ≤ n + 1) }
{
    n.checked_add(1).ok_or(NoMemory)
}

impl Board {
    /// Before the run.
    pub(crate) fn new(
        alloc: Global,
        program: &Program,
        regions: &[Row<RegionSite>],
    ) -> Result<Board, NoMemory>
        ensures owners { IfOk result (λ board. (n : ℕ) → at board.owners n ≡ owner_after n 0 (2 ^ 64 - 1) regions.now) }
        ensures writers { IfOk result (λ board. board.writers ≡ record { items = []; rest = nobody }) }
        ensures counters { IfOk result (λ board. AllStart program.now regions.now board.counters) }
    {
        let nobody = Writer {
            site: SiteId(0),
            after: 0,
        };
        let owners = owners_of(alloc, regions)?;
        let counters = counters(alloc, program, regions)?;
        Ok(Board {
            owners,
            writers: Sparse::new(alloc, nobody),
            counters,
        })
    }

    /// Counts an evaluation.
    pub(crate) fn note(&mut self, seen: Seen<'_>) -> Result<(), NoMemory>
        requires { 0 < seen.after }
        ensures { OnOk result (BoardCounts seen.entry.site seen.entry.effect seen.entry.cells.now seen.entry.after self.old self.new) }
    {
        let owner = self.owners.get(seen.site.0 as usize);
        if let Some(counter) = self.counters.get_mut(owner) {
            counter.count(&self.writers, seen)?;
        }
        self.store(seen)
    }

    /// Remembers who stored.
    fn store(&mut self, seen: Seen<'_>) -> Result<(), NoMemory>
        ensures owners { OnOk result (self.new.owners ≡ self.old.owners) }
        ensures counters { OnOk result (self.new.counters ≡ self.old.counters) }
        ensures writers { OnOk result ((k : ℕ) → at self.new.writers k ≡ writer_after seen.entry.site seen.entry.effect seen.entry.after k
            (at self.old.writers k)) }
    {
        if let Effect::Stored { cell, .. } = seen.effect {
            let writer = Writer {
                site: seen.site,
                after: seen.after,
            };
            self.writers.set(cell, writer)?;
        }
        Ok(())
    }
}
