//! Which stores of a region are known to lie apart from what its sites load.

ghost use Rattle.std.specs.Prelude.{◌≡◌, ◌-◌, IfOk, map};
ghost use Rattle.std.specs.Option.{option_copied};
ghost use Rattle.dp_sites.specs.Apart as spec;
ghost use Rattle.dp_sites.specs.Storings as stored;
ghost use Rattle.dp_sites.specs.declared.place.Gap.TheVariants as gap;

use crate::differing::lies_apart;
use crate::moving::{Storing, storing_at};
use crate::part::{Part, parts_of};
use crate::place::Gap;
use crate::table::{body_of, goes_up, only_region};
use dp_base::{NoMemory, Row, SiteId};
use dp_plan::Plan;
use dp_tree::{Program, Stmt};
use std::alloc::Global;

/// The sites of a region, and what each stores.
#[derive(Drop)]
pub struct Apart {
    pub(crate) first: u32,
    pub(crate) parts: Row<Part>,
    pub(crate) stores: Row<Option<Storing>>,
}

fn bare_plan(alloc: Global, region: u32) -> Plan
    ensures { result ≡ spec.bare_plan region }
{
    Plan {
        region,
        words: 0,
        stages: Row::new(alloc),
        stage_of: Row::new(alloc),
        assume: Row::new(alloc),
        proved: true,
        checked_at: Row::new(alloc),
    }
}

/// What each of the sites stores.
fn stores_of(
    alloc: Global,
    p: &Program,
    plan: &Plan,
    parts: &[Part],
    body: &[Stmt],
) -> Result<Row<Option<Storing>>, NoMemory>
    ensures { IfOk result (λ stores. stores ≡ map (stored.storing_at p.now plan.now parts.now body.now) parts.now) }
{
    let mut stores = Row::new(alloc);
    for part in parts {
        stores.push(storing_at(p, plan, parts, body, part))?;
    }
    Ok(stores)
}

fn passes(test: Gap, part: &Part, storing: Option<Storing>) -> bool
    ensures { result ≡ spec.passes_or test part.now storing }
{
    match storing {
        None => false,
        Some(storing) => lies_apart(test, part, storing),
    }
}

fn passes_at(test: Gap, part: &Part, storing: Option<&Option<Storing>>) -> bool
    ensures { result ≡ spec.store_apart_at test part.now (option_copied storing.entry) }
{
    match storing {
        None => false,
        Some(storing) => passes(test, part, *storing),
    }
}

impl Apart {
    /// The table of a region.
    ///
    /// A region that doesn't stand once, or whose sites don't go up one by one, answers want of memory; an inlined program has none.
    pub fn of_region(alloc: Global, p: &Program, region: u32) -> Result<Apart, NoMemory>
        ensures { IfOk result (λ table. spec.TellsApart p.now region table) }
    {
        let plan = bare_plan(alloc, region);
        let statement = only_region(p, region)?;
        let parts = parts_of(alloc, statement)?;
        let first = plan.first_site(p);
        if !goes_up(first, parts.as_slice()) {
            return Err(NoMemory);
        }
        let stores = stores_of(alloc, p, &plan, parts.as_slice(), body_of(statement))?;
        Ok(Apart {
            first,
            parts,
            stores,
        })
    }

    fn tells(&self, test: Gap, d: SiteId, u: SiteId) -> bool
        ensures { result ≡ spec.tells test self.now d.0 u.0 }
    {
        let storing = self.stores.get(d.0.saturating_sub(self.first) as usize);
        match self.parts.get(u.0.saturating_sub(self.first) as usize) {
            None => false,
            Some(part) => passes_at(test, part, storing),
        }
    }

    /// No store at d in an earlier iteration is to what u loads.
    pub fn is_far(&self, d: SiteId, u: SiteId) -> bool
        ensures { result ≡ spec.tells gap.Strides self.now d.0 u.0 }
    {
        self.tells(Gap::Strides, d, u)
    }

    /// No store at d in the same iteration is to what u loads.
    pub fn is_far_within(&self, d: SiteId, u: SiteId) -> bool
        ensures { result ≡ spec.tells gap.Whole self.now d.0 u.0 }
    {
        self.tells(Gap::Whole, d, u)
    }
}
