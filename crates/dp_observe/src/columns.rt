//! Counts of columns, of which only few are ever counted.
use crate::rows::put_flow;
use dp_base::{NoMemory, Row};
use dp_profile::{Flow, RegionSite};
use std::alloc::Global;
use std::collections::BTreeMap;
use std::marker::Model;

/// The count of each column. One that wasn't counted takes no room, so a region takes room and time for the pairs of sites
/// that its loads show, and not for all.
#[derive(Drop)]
pub(crate) struct Columns {
    counts: BTreeMap<usize, u64>,
}

impl Model for Columns {
    ghost use Rattle.std.specs.Prelude.{ℕ, List};

    ghost Value = { List (ℕ × ℕ) };

    ghost view = { λ columns. columns.counts.entries };
}

ghost use Rattle.std.specs.Prelude.{◌≡◌, ℕ, ◌+◌, [], if◌then◌else◌, ◌==◌, OnOk};
ghost use Rattle.dp_observe.specs.steps.Columns.{at_column};
ghost use Rattle.dp_observe.specs.steps.Taken.{Grows};

/// Puts the flow of each column into the row of its first site.
fn put_counts(
    counts: &BTreeMap<usize, u64>,
    rows: &mut Row<Row<Flow>>,
    sites: &[RegionSite],
    to: RegionSite,
) -> Result<(), NoMemory>
    ensures { OnOk result (Grows sites.now to counts.now.entries rows.old rows.new) }
{
    for (column, shown) in counts {
        put_flow(rows, sites, to, *column, *shown)?;
    }
    Ok(())
}

impl Columns {
    pub(crate) fn new(alloc: Global) -> Columns
        ensures { result ≡ [] }
    {
        Columns {
            counts: BTreeMap::new(alloc),
        }
    }

    /// Counts a column once more. A number that would be too large counts as a want of memory.
    pub(crate) fn add_one(&mut self, column: usize) -> Result<(), NoMemory>
        ensures { OnOk result ((k : ℕ) → at_column self.new k ≡ at_column self.old k + (if k == column then 1 else 0)) }
    {
        match self.counts.get_mut(&column) {
            Some(count) => *count = count.checked_add(1).ok_or(NoMemory)?,
            None => {
                self.counts.insert(column, 1)?;
            }
        }
        Ok(())
    }

    /// Puts the flows to a site into the rows of the sites that they come from.
    pub(crate) fn put(
        &self,
        rows: &mut Row<Row<Flow>>,
        sites: &[RegionSite],
        to: RegionSite,
    ) -> Result<(), NoMemory>
        ensures { OnOk result (Grows sites.now to self.now rows.old rows.new) }
    {
        put_counts(&self.counts, rows, sites, to)
    }
}
