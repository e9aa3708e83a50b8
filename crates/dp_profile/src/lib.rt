//! What a sequential run showed of a program's regions: how often each site ran, and which stores its loads read.
//!
//! `specs/` says what a profile counts, and what its numbers have to be.
#![tactic(auto)]

use dp_base::{End, Row, SiteId};

mod order;
mod sites;

pub use sites::{RegionSite, regions_of};

/// What was counted in one run, region by region.
pub struct Profile {
    pub regions: Row<RegionProfile>,
}

// By hand, as the others below, so that a crate above does not prove again how all that they hold is dropped.
impl Drop for Profile {
    fn drop(self) {
        let Profile { regions: _ } = self;
    }
}

/// What a run showed, and how it ended.
pub struct Observed {
    pub profile: Profile,
    pub end: End,
}

impl Drop for Observed {
    fn drop(self) {
        let Observed { profile: _, end: _ } = self;
    }
}

/// What was counted in one region.
pub struct RegionProfile {
    /// The counts of each site of the region, beginning with its first site.
    pub sites: Row<SiteCount>,
    /// The pairs of sites of which one read what the other had stored, ascending by `from`, `to` and `carried`.
    pub flows: Row<Flow>,
}

impl Drop for RegionProfile {
    fn drop(self) {
        let RegionProfile { sites: _, flows: _ } = self;
    }
}

/// How often a site was evaluated without a fault, and how often its condition was other than 0.
#[derive(Clone, Copy)]
pub struct SiteCount {
    pub runs: u64,
    /// At most `runs`, and 0 at a site that has no condition.
    pub nonzero: u64,
}

/// How many loads at one site read a cell that another site had stored last.
#[derive(Clone, Copy)]
pub struct Flow {
    /// The site that stored.
    pub from: SiteId,
    /// The site that loaded.
    pub to: SiteId,
    /// Whether the store was of an earlier iteration.
    pub carried: bool,
    /// How many loads there were, at least one.
    pub shown: u64,
}
