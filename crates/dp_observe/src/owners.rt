//! The regions of sites.
ghost use Rattle.std.specs.Prelude.{◌≡◌, ℕ, ◌^◌, ◌-◌, if◌then◌else◌, IfOk, OnOk};
ghost use Rattle.dp_profile.specs.Sites.{has_numbered_site};
ghost use Rattle.dp_observe.specs.Sparse.{at};
ghost use Rattle.dp_observe.specs.steps.Owners.{owner_after};

use crate::sparse::Sparse;
use dp_base::{NoMemory, Row};
use dp_profile::RegionSite;
use std::alloc::Global;

/// Gives these sites to the region at a place.
#[tactic(auto, using(crate::proofs::OwnerLemmas::gives))]
fn give(owners: &mut Sparse<usize>, sites: &[RegionSite], place: usize) -> Result<(), NoMemory>
    ensures { OnOk result ((n : ℕ) → at owners.new n ≡ (if has_numbered_site n sites.now then place else at owners.old n)) }
{
    for site in sites {
        owners.set(site.site.0 as usize, place)?;
    }
    Ok(())
}

/// The place of each site's region, from 0. For a site outside all regions it is past all places.
pub(crate) fn owners_of(
    alloc: Global,
    regions: &[Row<RegionSite>],
) -> Result<Sparse<usize>, NoMemory>
    ensures { IfOk result (λ owners. (n : ℕ) → at owners n ≡ owner_after n 0 (2 ^ 64 - 1) regions.now) }
{
    let mut owners = Sparse::new(alloc, usize::MAX);
    for (place, sites) in regions.iter().enumerate() {
        give(&mut owners, sites.as_slice(), place)?;
    }
    Ok(owners)
}
