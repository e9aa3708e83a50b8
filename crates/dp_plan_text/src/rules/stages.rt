//! Rules 4 to 6: the region's condition is in a sequential stage 1, and no two neighbouring stages are replicated.

ghost use Rattle.std.specs.Prelude.{◌≡◌, ◌∷◌, [], IfOk};
ghost use Rattle.dp_plan.specs.Written as written;
ghost use Rattle.dp_plan.specs.Rules as rules;
ghost use Rattle.dp_plan.specs.Valid.{broken_from};

use crate::least::least;
use dp_base::NoMemory;
use dp_plan::{BrokenRule, StageKind, WrittenPlan, WrittenStage};
use dp_sites::sites_of;
use dp_tree::Program;
use std::alloc::Global;

/// The number of the first stage that lists the site, and 0 where none does.
pub fn written_stage(w: &WrittenPlan, site: u32) -> usize
    ensures { result ≡ written.written_stage w.now site }
{
    let lines = w.stages.as_slice();
    for place in 0..lines.len() {
        if lines[place].sites.as_slice().contains(&site) {
            return place + 1;
        }
    }
    0
}

/// The region's condition, which is its first site.
fn condition(alloc: Global, p: &Program, region: u32) -> Result<u32, NoMemory>
    ensures { IfOk result (λ site. site ≡ rules.first_in (written.region_sites p.now region)) }
{
    let sites = sites_of(alloc, p, region)?;
    match sites.first() {
        Some(site) => Ok(*site),
        None => Ok(0),
    }
}

fn is_replicated(kind: StageKind) -> bool
    ensures { result ≡ rules.is_replicated_kind kind }
{
    matches!(kind, StageKind::Par)
}

/// Stage 1 is sequential.
fn begins_sequential(lines: &[WrittenStage]) -> bool
    ensures { result ≡ rules.begins_sequential lines.now }
{
    match lines {
        [] => true,
        [first, ..] => !is_replicated(first.kind),
    }
}

/// The least site of the later stage of the first two neighbours that are both replicated.
fn neighbours_replicated(lines: &[WrittenStage]) -> Option<u32>
    ensures { result ≡ rules.least_site_in (rules.second_neighbour lines.now) }
{
    for later in 1..lines.len() {
        if is_replicated(lines[later - 1].kind) && is_replicated(lines[later].kind) {
            return least(lines[later].sites.as_slice());
        }
    }
    None
}

/// The first of the three rules that the plan breaks.
pub fn broken(alloc: Global, p: &Program, w: &WrittenPlan) -> Result<Option<BrokenRule>, NoMemory>
    ensures { IfOk result (λ broken. broken ≡ broken_from 4 (rules.condition_later p.now w.now ∷ rules.first_replicated p.now w.now
        ∷ rules.neighbours_replicated w.now ∷ [])) }
{
    let site = condition(alloc, p, w.region)?;
    if written_stage(w, site) != 1 {
        return Ok(Some(BrokenRule { rule: 4, site }));
    }
    if !begins_sequential(w.stages.as_slice()) {
        return Ok(Some(BrokenRule { rule: 5, site }));
    }
    if let Some(site) = neighbours_replicated(w.stages.as_slice()) {
        return Ok(Some(BrokenRule { rule: 6, site }));
    }
    Ok(None)
}
