//! Rules 1 to 3: each site of the region is listed once, and no other site is.

ghost use Rattle.std.specs.Prelude.{◌≡◌, ◌∷◌, [], IfOk};
ghost use Rattle.dp_plan.specs.Written as written;
ghost use Rattle.dp_plan.specs.Rules.{not_listed, listed_twice, foreign};
ghost use Rattle.dp_plan.specs.Valid.{broken_from};

use crate::least::{in_order, least_outside, least_repeated};
use dp_base::{NoMemory, Row};
use dp_plan::{BrokenRule, WrittenPlan};
use dp_sites::sites_of;
use dp_tree::Program;
use std::alloc::Global;

/// The sites that the lines list, as often as they stand.
fn listed(alloc: Global, w: &WrittenPlan) -> Result<Row<u32>, NoMemory>
    ensures { IfOk result (λ sites. sites ≡ written.listed_sites w.now) }
{
    let mut sites = Row::new(alloc);
    let lines = w.stages.as_slice();
    for line in lines {
        sites.extend_from_slice(line.sites.as_slice())?;
    }
    Ok(sites)
}

/// The first of the three rules that the plan breaks.
pub fn broken(alloc: Global, p: &Program, w: &WrittenPlan) -> Result<Option<BrokenRule>, NoMemory>
    ensures { IfOk result (λ broken. broken ≡ broken_from 1 (not_listed p.now w.now ∷ listed_twice w.now ∷ foreign p.now w.now ∷ [])) }
{
    let sites = sites_of(alloc, p, w.region)?;
    let listed = in_order(listed(alloc, w)?);
    if let Some(site) = least_outside(sites.as_slice(), listed.as_slice()) {
        return Ok(Some(BrokenRule { rule: 1, site }));
    }
    if let Some(site) = least_repeated(listed.as_slice()) {
        return Ok(Some(BrokenRule { rule: 2, site }));
    }
    let own = in_order(sites);
    if let Some(site) = least_outside(listed.as_slice(), own.as_slice()) {
        return Ok(Some(BrokenRule { rule: 3, site }));
    }
    Ok(None)
}
