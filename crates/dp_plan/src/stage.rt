//! The stages of a plan: which one a site is of, and which are replicated.

ghost use Rattle.std.specs.Prelude.{◌≡◌, ◌-◌, slice_get, slice_index};
ghost use Rattle.dp_plan.specs.Stage as stages;
ghost use Rattle.dp_plan.specs.Walks.{is_region_of};

use crate::{Plan, StageKind};
use dp_base::{SiteId, VarId};
use dp_tree::{Program, Stmt};

/// The statement is the region of this number.
#[tactic(auto, using(crate::proofs::WalkLemmas::region_forms))]
pub fn is_region(region: u32, statement: &Stmt) -> bool
    ensures { result ≡ is_region_of region statement.now }
{
    match statement {
        Stmt::Region { region: number, .. } => *number == region,
        Stmt::Assign { .. }
        | Stmt::Store { .. }
        | Stmt::Print { .. }
        | Stmt::Break { .. }
        | Stmt::If { .. }
        | Stmt::While { .. }
        | Stmt::Call { .. } => false,
    }
}

/// The number of the region's first site, and 0 where there is no such region.
pub fn first_of(p: &Program, region: u32) -> u32
    ensures { result ≡ stages.first_site_of (slice_get p.now.regions (region - 1)) }
{
    let place = (region as usize).saturating_sub(1);
    match p.regions.get(place) {
        Some(info) => info.first.0,
        None => 0,
    }
}

impl Plan {
    /// The stage of a site, and 0 for a site before the region.
    pub fn stage(&self, p: &Program, site: SiteId) -> u32
        ensures { result ≡ stages.stage_of p.now self.now site.0 }
    {
        let first = self.first_site(p);
        if first <= site.0 {
            self.stage_at((site.0 - first) as usize)
        } else {
            0
        }
    }

    /// The first site of the plan's region.
    pub fn first_site(&self, p: &Program) -> u32
        ensures { result ≡ stages.first_site p.now self.now }
    {
        first_of(p, self.region)
    }

    fn stage_at(&self, place: usize) -> u32
        ensures { result ≡ slice_index self.now.stage_of place }
    {
        match self.stage_of.as_slice().get(place) {
            Some(stage) => *stage,
            None => 0,
        }
    }

    /// The stage is there and is replicated.
    pub fn is_replicated(&self, stage: u32) -> bool
        ensures { result ≡ stages.is_replicated self.now stage }
    {
        if stage == 0 {
            return false;
        }
        match self.stages.get(stage as usize - 1) {
            Some(StageKind::Par) => true,
            Some(StageKind::Seq) | None => false,
        }
    }

    /// The variable is a body local of the plan's region.
    pub fn is_body_local(&self, p: &Program, var: VarId) -> bool
        ensures { result ≡ stages.is_body_local p.now self.now var.0 }
    {
        match p.vars.get(var.0 as usize) {
            Some(info) => info.scope.is_local_of(self.region),
            None => false,
        }
    }
}
