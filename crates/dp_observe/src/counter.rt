//! What was counted in one region.
ghost use Rattle.std.specs.Prelude.{◌≡◌, ◌<◌, map, IfOk, OnOk};
ghost use Rattle.dp_observe.specs.steps.Counting.{Counts};
ghost use Rattle.dp_observe.specs.steps.Frames.{blank};
ghost use Rattle.dp_observe.specs.steps.Starting as starting;
ghost use Rattle.dp_observe.specs.steps.Starting.{Starts};

use crate::frame::{Frame, Seen, Writer};
use crate::locals::locals_of;
use crate::sparse::Sparse;
use crate::tally::Tally;
use dp_base::{NoMemory, Row, SiteId};
use dp_profile::RegionSite;
use dp_tree::Program;
use std::alloc::Global;

/// The counts of a region's sites, and where the run stands in it.
#[derive(Drop)]
pub(crate) struct Counter {
    pub frame: Frame,
    /// Whether a cell is one of a body local.
    pub locals: Sparse<bool>,
    /// One for each site, in order.
    pub tallies: Row<Tally>,
}

/// A tally for each site.
fn tallies(alloc: Global, sites: &[RegionSite]) -> Result<Row<Tally>, NoMemory>
    ensures { IfOk result (λ all. all ≡ map (λ _. blank) sites.now) }
{
    let mut all = Row::new(alloc);
    for _site in sites {
        all.push(Tally::new(alloc))?;
    }
    Ok(all)
}

fn first_of(sites: &[RegionSite]) -> SiteId
    ensures { result ≡ starting.first_of sites.now }
{
    match sites.first() {
        Some(site) => site.site,
        None => SiteId(0),
    }
}

impl Counter {
    /// The counter of a region with these sites, before the run.
    pub(crate) fn new(
        alloc: Global,
        program: &Program,
        region: u32,
        sites: &[RegionSite],
    ) -> Result<Counter, NoMemory>
        ensures { IfOk result (Starts program.now region sites.now) }
    {
        let frame = Frame {
            first: first_of(sites),
            since: 0,
            begun: 0,
            last: 0,
        };
        let locals = locals_of(alloc, program, region)?;
        let tallies = tallies(alloc, sites)?;
        Ok(Counter {
            frame,
            locals,
            tallies,
        })
    }

    /// Counts an evaluation of one of the region's sites.
    pub(crate) fn count(&mut self, writers: &Sparse<Writer>, seen: Seen<'_>) -> Result<(), NoMemory>
        requires { 0 < seen.after }
        ensures { OnOk result (Counts seen.entry.site.0 seen.entry.effect seen.entry.cells.now seen.entry.after writers.now self.old self.new) }
    {
        let frame = self.frame.moved(seen.site, seen.after);
        self.frame = frame;
        let place = seen.site.0.saturating_sub(frame.first.0) as usize;
        if let Some(tally) = self.tallies.get_mut(place) {
            tally.evaluated(seen.effect)?;
            tally.load_all(frame, writers, &self.locals, seen.cells)?;
        }
        Ok(())
    }
}
