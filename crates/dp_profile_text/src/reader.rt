//! What the lines of a text say so far, and what each line adds.

ghost use Rattle.std.specs.Prelude.{◌≡◌, ◌<◌, [], IfOk, OnErr};
ghost use Rattle.dp_profile.specs.Sites as region;

mod lines;

use dp_base::{NoMemory, Row, SiteId};
use dp_profile::{Flow, RegionProfile, RegionSite, SiteCount};
use std::alloc::Global;

/// How far a text has come.
#[derive(Clone, Copy)]
pub enum Phase {
    /// Before its first line.
    Start,
    /// Behind it, before the first region.
    Headed,
    Region,
    /// Behind its last line.
    Over,
}

/// What the lines so far say.
#[derive(Drop)]
pub struct Reader {
    pub phase: Phase,
    /// The regions before the last one, and all of them at the end.
    pub done: Row<RegionProfile>,
    pub last: RegionProfile,
}

/// A region without a line but the first.
fn opened(alloc: Global) -> RegionProfile
    ensures { result ≡ record { sites = []; flows = [] } }
{
    RegionProfile {
        sites: Row::new(alloc),
        flows: Row::new(alloc),
    }
}

/// One of the sites has this number.
fn has_site(site: SiteId, sites: &[RegionSite]) -> bool
    ensures { result ≡ region.has_numbered_site site.0 sites.now }
{
    sites.iter().any(|s| s.site.0 == site.0)
}

impl Reader {
    ghost use Rattle.std.specs.Prelude.{Some, length, slice_get, true, ◌==◌};
    ghost use Rattle.std.specs.Option.{option_copied};
    ghost use Rattle.dp_profile_text.specs.steps.Reading as spec;

    pub(crate) fn new(alloc: Global) -> Reader
        ensures { result ≡ spec.begun }
    {
        Reader {
            phase: Phase::Start,
            done: Row::new(alloc),
            last: opened(alloc),
        }
    }

    fn in_region(&self) -> bool
        ensures { result ≡ spec.in_region self.now.phase }
    {
        matches!(self.phase, Phase::Region)
    }

    fn is_headed(&self) -> bool
        ensures { result ≡ spec.is_headed self.now.phase }
    {
        matches!(self.phase, Phase::Headed)
    }

    /// The sites of the last region.
    fn last_sites<'a>(&self, all: &'a [Row<RegionSite>]) -> &'a [RegionSite]
        ensures { result.now ≡ spec.last_sites all.now self.now }
    {
        match all.get(self.done.len()) {
            Some(sites) => sites.as_slice(),
            None => &[],
        }
    }

    /// The last region has a line for each of its sites.
    fn is_counted(&self, all: &[Row<RegionSite>]) -> bool
        ensures { result ≡ spec.is_counted all.now self.now }
    {
        self.in_region() && self.last.sites.len() == self.last_sites(all).len()
    }

    /// No region's line has been read, or the last region's sites are counted.
    fn is_between(&self, all: &[Row<RegionSite>]) -> bool
        ensures { result ≡ spec.is_between all.now self.now }
    {
        self.is_headed() || self.is_counted(all)
    }

    /// So many regions have a line.
    fn has_regions(&self, count: usize) -> bool
        ensures { result ≡ (length (spec.closed self.now) == count) }
    {
        if self.in_region() {
            0 < count && self.done.len() == count - 1
        } else {
            self.done.len() == count
        }
    }

    /// The region's number comes next.
    fn region_next(&self, all: &[Row<RegionSite>], region: u32) -> bool
        ensures { result ≡ spec.region_next all.now self.now region }
    {
        0 < region && region as usize <= all.len() && self.has_regions(region as usize - 1)
    }

    /// The regions with the last one. Memory is asked for where a region is open.
    fn closed(self) -> Result<Row<RegionProfile>, NoMemory>
        ensures wanting { OnErr result (spec.in_region self.phase ≡ true) }
        ensures closed { IfOk result (λ regions. regions ≡ spec.closed self) }
    {
        let is_open = self.in_region();
        let Reader { mut done, last, .. } = self;
        if is_open {
            done.push(last)?;
        }
        Ok(done)
    }

    /// The site whose line comes next has this number, and a condition where it has a value other than 0.
    fn counts_next(&self, all: &[Row<RegionSite>], site: SiteId, count: SiteCount) -> bool
        ensures { result ≡ spec.counts_at site count (slice_get (spec.last_sites all.now self.now) (length self.now.last.sites)) }
    {
        match self.last_sites(all).get(self.last.sites.len()) {
            Some(next) => next.site.0 == site.0 && (next.condition || count.nonzero == 0),
            None => false,
        }
    }

    /// The flow comes behind those that were read.
    fn is_behind(&self, flow: Flow) -> bool
        ensures { result ≡ spec.is_behind (spec.last_flow self.now.last.flows) flow }
    {
        match self.last.flows.last() {
            Some(last) => last.is_before(flow),
            None => true,
        }
    }

    /// The flow may come next.
    fn flows_next(&self, all: &[Row<RegionSite>], flow: Flow) -> bool
        ensures { result ≡ spec.flows_next all.now self.now flow }
    {
        let sites = self.last_sites(all);
        has_site(flow.from, sites) && has_site(flow.to, sites) && self.is_behind(flow)
    }
}
