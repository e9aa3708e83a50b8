//! The weights of a region's sites.
ghost use Rattle.std.specs.Prelude.{◌≡◌, ◌<◌, ◌≤◌, ◌^◌, IfOk, map, sum, true, false, Some};
ghost use Rattle.std.specs.Option.{option_copied};
ghost use Rattle.dp_depend.specs.Shown as shown;
ghost use Rattle.dp_cut.specs.Automatic as spec;

use dp_base::{NoMemory, Row};
use dp_depend::Node;
use dp_profile::{Profile, SiteCount};
use std::alloc::Global;

/// The counts that a profile has of a region's sites.
fn counts_of(profile: &Profile, region: u32) -> &[SiteCount]
    ensures { result.now ≡ (shown.region_profile (Some profile.now) region).sites }
{
    let place = (region as usize).saturating_sub(1);
    match profile.regions.get(place) {
        Some(found) => found.sites.as_slice(),
        None => &[],
    }
}

fn runs_of(count: Option<&SiteCount>) -> u64
    ensures { result ≡ (shown.or_none (option_copied count.entry)).runs }
{
    match count {
        Some(count) => count.runs,
        None => 0,
    }
}

/// How often the site ran.
fn runs_at(counts: &[SiteCount], first: u32, node: &Node) -> u64
    ensures { result ≡ (shown.counts_at counts.now first node.now.site.0).runs }
{
    if first <= node.site.0 {
        runs_of(counts.get((node.site.0 - first) as usize))
    } else {
        0
    }
}

/// The runs of the site, or 1 without a profile.
fn weight_of(profile: Option<&Profile>, region: u32, first: u32, node: &Node) -> u64
    ensures { result ≡ spec.site_weight (option_copied profile.entry) region first node.now }
{
    match profile {
        None => 1,
        Some(profile) => runs_at(counts_of(profile, region), first, node),
    }
}

/// The weights of the sites.
pub fn weights_of(
    alloc: Global,
    profile: Option<&Profile>,
    region: u32,
    first: u32,
    nodes: &[Node],
) -> Result<Row<u64>, NoMemory>
    ensures { IfOk result (λ weights. weights ≡ map (spec.site_weight (option_copied profile.entry) region first) nodes.now) }
{
    let mut weights = Row::new(alloc);
    for node in nodes {
        weights.push(weight_of(profile, region, first, node))?;
    }
    Ok(weights)
}

/// The sum has 63 bits.
#[tactic(auto, using(crate::proofs::AutomaticPlans::sum_next))]
pub fn is_light(weights: &[u64]) -> bool
    ensures light { result ≡ true → sum weights.now < 2 ^ 63 }
    ensures heavy { result ≡ false → 2 ^ 63 ≤ sum weights.now }
{
    let most: u64 = 1 << 63;
    let mut left = most;
    for weight in weights {
        if left <= *weight {
            return false;
        }
        left -= *weight;
    }
    true
}
