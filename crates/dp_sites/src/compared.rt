//! The stores because of which sites are checked.

ghost use Rattle.std.specs.Prelude.{◌≡◌, ◌==◌, ◌++◌, ℕ, IfOk, OnOk};
ghost use Rattle.std.specs.List.{list_any};
ghost use Rattle.dp_plan.specs.Checked.{is_checked};
ghost use Rattle.dp_sites.specs.Compared as pairs;
ghost use Rattle.dp_sites.specs.steps.Comparing as spec;

use crate::differing::stores_otherwise;
use crate::moving::{Storing, storings};
use crate::part::{Part, parts_of};
use crate::table::{body_of, goes_up, only_region};
use dp_base::{NoMemory, Row, SiteId};
use dp_plan::Plan;
use dp_tree::Program;
use std::alloc::Global;

/// A checked site, and a store because of which its loads are compared with the source's.
#[derive(Clone, Copy)]
pub struct Compared {
    pub site: SiteId,
    pub store: SiteId,
}

/// By this store what some load of the site sees may differ.
fn differs_by_store(p: &Program, plan: &Plan, part: &Part, storing: Storing) -> bool
    ensures { result ≡ spec.differs_by_store p.now plan.now part.now storing }
{
    let loads = part.loads.as_slice();
    for load in loads {
        if stores_otherwise(p, plan, part, load.var, storing) {
            return true;
        }
    }
    false
}

/// Appends the pair, where the site is compared.
fn put_when(out: &mut Row<Compared>, compared: bool, site: u32, store: u32) -> Result<(), NoMemory>
    ensures { OnOk result (out.new ≡ out.old ++ pairs.when_compared compared site store) }
{
    if !compared {
        return Ok(());
    }
    out.push(Compared {
        site: SiteId(site),
        store: SiteId(store),
    })
}

/// Appends the pairs of a site.
fn put_pairs_of(
    out: &mut Row<Compared>,
    p: &Program,
    plan: &Plan,
    stores: &[Storing],
    part: &Part,
) -> Result<(), NoMemory>
    ensures { OnOk result (out.new ≡ out.old ++ spec.pairs_of p.now plan.now stores.now part.now) }
{
    for storing in stores {
        let compared = differs_by_store(p, plan, part, *storing);
        put_when(out, compared, part.site, storing.site)?;
    }
    Ok(())
}

/// Appends the pairs of these sites.
fn put_pairs(
    out: &mut Row<Compared>,
    p: &Program,
    plan: &Plan,
    stores: &[Storing],
    parts: &[Part],
) -> Result<(), NoMemory>
    ensures { OnOk result (out.new ≡ out.old ++ spec.pairs_among p.now plan.now stores.now parts.now) }
{
    for part in parts {
        put_pairs_of(out, p, plan, stores, part)?;
    }
    Ok(())
}

/// Each checked site of the plan's region with each store because of which it is checked, in the order of the text.
///
/// A region that doesn't stand once, or whose sites don't go up one by one, answers want of memory; an inlined program has none.
pub fn compared_stores(alloc: Global, p: &Program, plan: &Plan) -> Result<Row<Compared>, NoMemory>
    ensures { IfOk result (λ found. found ≡ pairs.compared_stores p.now plan.now) }
{
    let statement = only_region(p, plan.region)?;
    let parts = parts_of(alloc, statement)?;
    if !goes_up(plan.first_site(p), parts.as_slice()) {
        return Err(NoMemory);
    }
    let stores = storings(alloc, p, plan, parts.as_slice(), body_of(statement))?;
    let mut found = Row::new(alloc);
    put_pairs(&mut found, p, plan, stores.as_slice(), parts.as_slice())?;
    Ok(found)
}

/// A site is checked exactly where there is a store because of which it is.
#[tactic(auto, using(crate::proofs::ComparedLaw::checked_by_stores))]
pub fn checked_sites_have_stores(p: &Program, plan: &Plan)
    ensures { (site : ℕ) → is_checked p.now plan.now site ≡ list_any (λ c. c.site.0 == site) (pairs.compared_stores p.now plan.now) }
{}
