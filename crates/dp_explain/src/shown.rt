//! What a profile saw of a region.
ghost use Rattle.std.specs.Prelude.{◌≡◌, ◌-◌, ◌++◌, OnOk, slice_get};
ghost use Rattle.std.specs.Option.{option_copied};
ghost use Rattle.dp_depend.specs.Shown as counted;
ghost use Rattle.dp_explain.specs.ShownText as spec;

use dp_base::{NoMemory, Row};
use dp_profile::{Profile, RegionProfile, RegionSite};
use dp_profile_text::{put_counts, put_flows};

/// What a profile has of a region.
fn region_profile(profile: Option<&Profile>, region: u32) -> Option<&RegionProfile>
    ensures { counted.or_nothing (option_copied result) ≡ counted.region_profile (option_copied profile.entry) region }
{
    let place = (region as usize).saturating_sub(1);
    profile?.regions.get(place)
}

/// The sites of a region, among those of all.
fn sites_of(all: &[Row<RegionSite>], region: u32) -> &[RegionSite]
    ensures { result.now ≡ spec.or_no_sites (slice_get all.now (region - 1)) }
{
    match all.get((region as usize).saturating_sub(1)) {
        Some(sites) => sites.as_slice(),
        None => &[],
    }
}

fn put_text(
    out: &mut Row<u8>,
    sites: &[RegionSite],
    shown: Option<&RegionProfile>,
) -> Result<(), NoMemory>
    ensures { OnOk result (out.new ≡ out.old ++ spec.shown_text sites.now (counted.or_nothing (option_copied shown.entry))) }
{
    match shown {
        None => Ok(()),
        Some(shown) => {
            put_counts(out, sites, shown.sites.as_slice())?;
            put_flows(out, shown.flows.as_slice())
        }
    }
}

/// Appends what the profile saw of the region, if there is one.
pub fn put_shown(
    out: &mut Row<u8>,
    all: &[Row<RegionSite>],
    region: u32,
    profile: Option<&Profile>,
) -> Result<(), NoMemory>
    ensures { OnOk result (out.new ≡ out.old ++ spec.shown_lines all.now region (option_copied profile.entry)) }
{
    put_text(out, sites_of(all, region), region_profile(profile, region))
}
