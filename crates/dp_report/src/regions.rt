//! The regions of a run.

ghost use Rattle.std.specs.Prelude.{◌≡◌, ◌++◌, OnOk};
ghost use Rattle.dp_report.specs.RegionText.{numbers_listed, counts_line, causes_if, report_lines, regions_bytes};

use crate::causes::put_causes;
use crate::decimal::put_spaced;
use dp_base::{NoMemory, RegionReport, Row};
use dp_text::put_labelled;

/// A line for each region with a begun iteration, and behind it the causes, where they are wanted.
pub fn put_regions(out: &mut Row<u8>, reports: &[RegionReport], why: bool) -> Result<(), NoMemory>
    ensures { OnOk result (out.new ≡ out.old ++ regions_bytes why reports.now) }
{
    for report in reports {
        put_report(out, report, why)?;
    }
    Ok(())
}

fn put_report(out: &mut Row<u8>, report: &RegionReport, why: bool) -> Result<(), NoMemory>
    ensures { OnOk result (out.new ≡ out.old ++ report_lines why report.now) }
{
    if report.iterations == 0 {
        return Ok(());
    }
    put_counts(out, report)?;
    put_causes_if(out, report, why)
}

fn put_causes_if(out: &mut Row<u8>, report: &RegionReport, why: bool) -> Result<(), NoMemory>
    ensures { OnOk result (out.new ≡ out.old ++ causes_if why report.now) }
{
    if !why {
        return Ok(());
    }
    put_causes(out, report.recovered.as_slice(), report.causes.as_slice())
}

fn put_counts(out: &mut Row<u8>, report: &RegionReport) -> Result<(), NoMemory>
    ensures { let r = report.now in OnOk result (out.new ≡ out.old ++ counts_line r.region r.iterations r.recovered_count r.recovered) }
{
    put_labelled(out, b"region ", u64::from(report.region))?;
    put_labelled(out, b" iterations ", report.iterations)?;
    put_labelled(out, b" recovered ", report.recovered_count)?;
    put_listed(out, report.recovered_count, report.recovered.as_slice())?;
    out.push(b'\n')
}

/// A colon and the numbers, where there are any.
#[tactic(auto, unfolding(crate::specs::RegionText::numbers_listed))]
fn put_listed(out: &mut Row<u8>, count: u64, numbers: &[u64]) -> Result<(), NoMemory>
    ensures { OnOk result (out.new ≡ out.old ++ numbers_listed count numbers.now) }
{
    if count == 0 {
        return Ok(());
    }
    out.push(b':')?;
    put_spaced(out, numbers)
}
