//! The profile that was counted.
ghost use Rattle.std.specs.Prelude.{◌≡◌, map, IfOk};
ghost use Rattle.dp_observe.specs.steps.Taken as taken;

use crate::counter::Counter;
use crate::rows::{empty_rows, joined};
use crate::tally::Tally;
use dp_base::{NoMemory, Row};
use dp_profile::{Flow, RegionProfile, RegionSite, SiteCount};
use std::alloc::Global;

/// The flows between the region's sites, in order. Only those that a load showed are gone through: site by site of their
/// second ones, each into the row of its first.
fn flows(alloc: Global, sites: &[RegionSite], tallies: &[Tally]) -> Result<Row<Flow>, NoMemory>
    ensures { IfOk result (λ all. all ≡ taken.flows_taken 0 sites.now sites.now tallies.now) }
{
    let mut rows = empty_rows(alloc, sites)?;
    for (to, tally) in sites.iter().zip(tallies.iter()) {
        tally.shown.put(&mut rows, sites, *to)?;
    }
    joined(alloc, rows.as_slice())
}

fn counts(alloc: Global, tallies: &[Tally]) -> Result<Row<SiteCount>, NoMemory>
    ensures { IfOk result (λ all. all ≡ map (λ t. t.count) tallies.now) }
{
    let mut all = Row::new(alloc);
    for tally in tallies {
        all.push(tally.count)?;
    }
    Ok(all)
}

fn region_profile(
    alloc: Global,
    sites: &[RegionSite],
    counter: &Counter,
) -> Result<RegionProfile, NoMemory>
    ensures { IfOk result (λ r. r ≡ taken.region_taken sites.now counter.now) }
{
    let tallies = counter.tallies.as_slice();
    let flows = flows(alloc, sites, tallies)?;
    let sites = counts(alloc, tallies)?;
    Ok(RegionProfile { sites, flows })
}

/// What was counted in each region.
pub(crate) fn profiles(
    alloc: Global,
    regions: &[Row<RegionSite>],
    counters: &[Counter],
) -> Result<Row<RegionProfile>, NoMemory>
    ensures { IfOk result (λ all. all ≡ taken.regions_taken regions.now counters.now) }
{
    let mut all = Row::new(alloc);
    for (sites, counter) in regions.iter().zip(counters.iter()) {
        all.push(region_profile(alloc, sites.as_slice(), counter)?)?;
    }
    Ok(all)
}
