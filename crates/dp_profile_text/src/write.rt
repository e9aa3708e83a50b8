//! A profile as a text.

ghost use Rattle.std.specs.Prelude.{◌≡◌, ◌<◌, ◌++◌, length, OnOk, OnErr, IfOk};
ghost use Rattle.dp_profile_text.specs.declared.line.Line.TheVariants as line;
ghost use Rattle.dp_profile_text.specs.ProfileText as profile_text;
ghost use Rattle.dp_profile_text.specs.WrittenText as text;

use dp_base::{NoMemory, Row, SiteId};
use dp_profile::{Flow, Profile, RegionProfile, RegionSite, SiteCount, regions_of};
use dp_text::put_labelled;
use dp_tree::Program;
use std::alloc::Global;

/// The text of a profile. What it writes of an observed profile is read back as this profile.
pub fn write_profile(alloc: Global, profile: &Profile, p: &Program) -> Result<Row<u8>, NoMemory>
    ensures { IfOk result (λ bytes. bytes ≡ text.profile_text p.now profile.now) }
{
    let all = regions_of(alloc, p)?;
    let mut out = Row::new(alloc);
    out.extend_from_slice(b"profile 1\n")?;
    put_regions(&mut out, all.as_slice(), profile.regions.as_slice())?;
    out.extend_from_slice(b"end\n")?;
    Ok(out)
}

fn put_regions(
    out: &mut Row<u8>,
    all: &[Row<RegionSite>],
    shown: &[RegionProfile],
) -> Result<(), NoMemory>
    ensures text { OnOk result (out.new ≡ out.old ++ text.regions_text 1 all.now shown.now) }
    ensures wanting { OnErr result ((0 < length all.now) × (0 < length shown.now)) }
{
    for (place, (sites, shown)) in all.iter().zip(shown.iter()).enumerate() {
        put_region(out, place as u64 + 1, sites.as_slice(), shown)?;
    }
    Ok(())
}

fn put_region(
    out: &mut Row<u8>,
    number: u64,
    sites: &[RegionSite],
    shown: &RegionProfile,
) -> Result<(), NoMemory>
    ensures { OnOk result (out.new ≡ out.old ++ text.profile_region_text number sites.now shown.now) }
{
    put_head(out, number)?;
    put_counts(out, sites, shown.sites.as_slice())?;
    put_flows(out, shown.flows.as_slice())?;
    Ok(())
}

fn put_head(out: &mut Row<u8>, number: u64) -> Result<(), NoMemory>
    ensures { OnOk result (out.new ≡ out.old ++ text.profile_line_text (line.Region number)) }
{
    put_labelled(out, b"region ", number)?;
    out.push(b'\n')
}

/// Appends the lines of sites with their counts.
pub fn put_counts(
    out: &mut Row<u8>,
    sites: &[RegionSite],
    counts: &[SiteCount],
) -> Result<(), NoMemory>
    ensures text { OnOk result (out.new ≡ out.old ++ text.runs_text sites.now counts.now) }
    ensures wanting { OnErr result ((0 < length sites.now) × (0 < length counts.now)) }
{
    for (site, count) in sites.iter().zip(counts.iter()) {
        put_count(out, site.site, *count)?;
    }
    Ok(())
}

fn put_count(out: &mut Row<u8>, site: SiteId, count: SiteCount) -> Result<(), NoMemory>
    ensures { OnOk result (out.new ≡ out.old ++ text.profile_line_text (line.Runs site count)) }
{
    put_labelled(out, b"runs ", u64::from(site.0))?;
    put_labelled(out, b" ", count.runs)?;
    put_labelled(out, b" ", count.nonzero)?;
    out.push(b'\n')
}

/// Appends the lines of flows.
pub fn put_flows(out: &mut Row<u8>, flows: &[Flow]) -> Result<(), NoMemory>
    ensures text { OnOk result (out.new ≡ out.old ++ text.flows_text flows.now) }
    ensures wanting { OnErr result (0 < length flows.now) }
{
    for flow in flows {
        put_flow(out, *flow)?;
    }
    Ok(())
}

fn put_flow(out: &mut Row<u8>, flow: Flow) -> Result<(), NoMemory>
    ensures { OnOk result (out.new ≡ out.old ++ text.profile_line_text (line.Flow flow)) }
{
    put_labelled(out, b"flow ", u64::from(flow.from.0))?;
    put_labelled(out, b" ", u64::from(flow.to.0))?;
    out.push(b' ')?;
    out.extend_from_slice(kind_word(flow.carried))?;
    put_labelled(out, b" ", flow.shown)?;
    out.push(b'\n')
}

fn kind_word(carried: bool) -> &'static [u8]
    ensures { result.now ≡ profile_text.flow_word carried }
{
    if carried { b"carried" } else { b"intra" }
}
