//! What each line adds to those that were read.

ghost use Rattle.std.specs.Prelude.{◌≡◌, true, is_some, IfOk, OnErr};

use super::{Phase, Reader, opened};
use crate::line::Line;
use dp_base::{NoMemory, Row, SiteId};
use dp_profile::{Flow, RegionSite, SiteCount};
use std::alloc::Global;

impl Reader {
    ghost use Rattle.dp_profile_text.specs.declared.line.Line.TheVariants as line;
    ghost use Rattle.dp_profile_text.specs.steps.Reading as spec;

    #[tactic(auto, unfolding(crate::specs::steps::Reading::next))]
    fn head(self, all: &[Row<RegionSite>]) -> Option<Reader>
        ensures { result ≡ spec.next all.now self line.Head }
    {
        if !matches!(self.phase, Phase::Start) {
            return None;
        }
        let Reader { done, last, .. } = self;
        Some(Reader {
            phase: Phase::Headed,
            done,
            last,
        })
    }

    #[tactic(auto, unfolding(crate::specs::steps::Reading::next))]
    fn region(
        self,
        alloc: Global,
        all: &[Row<RegionSite>],
        region: u32,
    ) -> Result<Option<Reader>, NoMemory>
        ensures next { IfOk result (λ reader. reader ≡ spec.next all.now self (line.Region region)) }
        ensures wanting { OnErr result (is_some (spec.next all.now self (line.Region region)) ≡ true) }
    {
        if !self.is_between(all) || !self.region_next(all, region) {
            return Ok(None);
        }
        Ok(Some(Reader {
            phase: Phase::Region,
            done: self.closed()?,
            last: opened(alloc),
        }))
    }

    #[tactic(auto, unfolding(crate::specs::steps::Reading::next))]
    fn runs(
        self,
        all: &[Row<RegionSite>],
        site: SiteId,
        count: SiteCount,
    ) -> Result<Option<Reader>, NoMemory>
        ensures next { IfOk result (λ reader. reader ≡ spec.next all.now self (line.Runs site count)) }
        ensures wanting { OnErr result (is_some (spec.next all.now self (line.Runs site count)) ≡ true) }
    {
        if !self.in_region() || !self.counts_next(all, site, count) {
            return Ok(None);
        }
        let mut reader = self;
        reader.last.sites.push(count)?;
        Ok(Some(reader))
    }

    #[tactic(auto, unfolding(crate::specs::steps::Reading::next))]
    fn flow(self, all: &[Row<RegionSite>], flow: Flow) -> Result<Option<Reader>, NoMemory>
        ensures next { IfOk result (λ reader. reader ≡ spec.next all.now self (line.Flow flow)) }
        ensures wanting { OnErr result (is_some (spec.next all.now self (line.Flow flow)) ≡ true) }
    {
        if !self.is_counted(all) || !self.flows_next(all, flow) {
            return Ok(None);
        }
        let mut reader = self;
        reader.last.flows.push(flow)?;
        Ok(Some(reader))
    }

    #[tactic(auto, unfolding(crate::specs::steps::Reading::next))]
    fn end(self, alloc: Global, all: &[Row<RegionSite>]) -> Result<Option<Reader>, NoMemory>
        ensures next { IfOk result (λ reader. reader ≡ spec.next all.now self line.End) }
        ensures wanting { OnErr result (is_some (spec.next all.now self line.End) ≡ true) }
    {
        if !self.is_between(all) || !self.has_regions(all.len()) {
            return Ok(None);
        }
        Ok(Some(Reader {
            phase: Phase::Over,
            done: self.closed()?,
            last: opened(alloc),
        }))
    }

    /// What is known after one more line, if it may stand here. Memory is asked for only where it may.
    #[tactic(auto, unfolding(crate::specs::steps::Reading::next_by))]
    pub(crate) fn after(
        self,
        alloc: Global,
        all: &[Row<RegionSite>],
        line: Option<Line>,
    ) -> Result<Option<Reader>, NoMemory>
        ensures next { IfOk result (λ reader. reader ≡ spec.next_by all.now self line) }
        ensures wanting { OnErr result (is_some (spec.next_by all.now self line) ≡ true) }
    {
        match line {
            None => Ok(None),
            Some(Line::Head) => Ok(self.head(all)),
            Some(Line::Region(region)) => self.region(alloc, all, region),
            Some(Line::Runs(site, count)) => self.runs(all, site, count),
            Some(Line::Flow(flow)) => self.flow(all, flow),
            Some(Line::End) => self.end(alloc, all),
        }
    }
}
