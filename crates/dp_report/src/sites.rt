//! The list of a program's sites.

ghost use Rattle.std.specs.Prelude.{◌≡◌, ◌++◌, OnOk, IfOk};
ghost use Rattle.dp_report.specs.Lines.{numbered};
ghost use Rattle.dp_report.specs.SiteText.{kind_name, region_sites_line, site_line, site_bytes};

use dp_base::{NoMemory, Row};
use dp_text::put_labelled;
use dp_tree::{Program, RegionInfo, SiteInfo, SiteKind};
use std::alloc::Global;

/// `ok`, a line for each region and a line for each site, in order.
pub fn site_text(alloc: Global, p: &Program) -> Result<Row<u8>, NoMemory>
    ensures { IfOk result (λ text. text ≡ site_bytes p.now) }
{
    let mut out = Row::new(alloc);
    out.extend_from_slice(b"ok\n")?;
    put_regions(&mut out, p.regions.as_slice())?;
    put_sites(&mut out, p.sites.as_slice())?;
    Ok(out)
}

fn put_regions(out: &mut Row<u8>, regions: &[RegionInfo]) -> Result<(), NoMemory>
    ensures { OnOk result (out.new ≡ out.old ++ numbered region_sites_line 1 regions.now) }
{
    for (place, region) in regions.iter().enumerate() {
        put_region(out, place as u64 + 1, region)?;
    }
    Ok(())
}

fn put_region(out: &mut Row<u8>, number: u64, region: &RegionInfo) -> Result<(), NoMemory>
    ensures { OnOk result (out.new ≡ out.old ++ region_sites_line number region.now) }
{
    put_labelled(out, b"region ", number)?;
    put_labelled(out, b" line ", u64::from(region.line))?;
    put_labelled(out, b" sites ", u64::from(region.first.0))?;
    put_labelled(out, b" to ", u64::from(region.last.0))?;
    out.push(b'\n')
}

fn put_sites(out: &mut Row<u8>, sites: &[SiteInfo]) -> Result<(), NoMemory>
    ensures { OnOk result (out.new ≡ out.old ++ numbered site_line 1 sites.now) }
{
    for (place, site) in sites.iter().enumerate() {
        put_site(out, place as u64 + 1, site)?;
    }
    Ok(())
}

fn put_site(out: &mut Row<u8>, number: u64, site: &SiteInfo) -> Result<(), NoMemory>
    ensures { OnOk result (out.new ≡ out.old ++ site_line number site.now) }
{
    put_labelled(out, b"site ", number)?;
    put_labelled(out, b" line ", u64::from(site.line))?;
    out.push(b' ')?;
    out.extend_from_slice(kind_name(site.kind))?;
    out.push(b'\n')
}

fn kind_name(kind: SiteKind) -> &'static [u8]
    ensures { result.now ≡ kind_name kind }
{
    match kind {
        SiteKind::Assign => b"assign",
        SiteKind::Print => b"print",
        SiteKind::If => b"if",
        SiteKind::While => b"while",
        SiteKind::Break => b"break",
    }
}
