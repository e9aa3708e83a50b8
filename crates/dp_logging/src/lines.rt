//! The lines of an iteration, with those of its region that stand beside them.
ghost use Rattle.std.specs.Prelude.{◌≡◌, ◌++◌, OnOk};
ghost use Rattle.dp_logging.specs.Lines.{group_lines, last_lines, region_end_of};

use dp_audit::Group;
use dp_base::{NoMemory, Row};
use dp_epoch::RegionEnd;
use dp_log::{put_closed, put_group, put_region};
use dp_meaning::IterEnd;

/// The lines of an iteration. The first one has its region's first line in front, and the closing one its last line behind.
pub(crate) fn put_lines(out: &mut Row<u8>, region: u32, group: &Group) -> Result<(), NoMemory>
    ensures { OnOk result (out.new ≡ out.old ++ group_lines region group.now) }
{
    if group.iteration == 0 {
        put_region(out, region)?;
    }
    let (sets, prints) = (group.sets.as_slice(), group.prints.as_slice());
    put_group(out, group.iteration, group.again, sets, prints)?;
    put_last(out, region, group.end)
}

/// The last line of the region, if the iteration left it.
fn put_last(out: &mut Row<u8>, region: u32, end: IterEnd) -> Result<(), NoMemory>
    ensures { OnOk result (out.new ≡ out.old ++ last_lines region end) }
{
    match end {
        IterEnd::Closed => put_closed(out, region),
        IterEnd::Next => Ok(()),
        IterEnd::Fault(_) => Ok(()),
        IterEnd::Fuel => Ok(()),
        IterEnd::Going => Ok(()),
    }
}

/// How the region ended with an iteration that ended so, if it did.
pub(crate) fn region_end(end: IterEnd) -> Option<RegionEnd>
    ensures { result ≡ region_end_of end }
{
    match end {
        IterEnd::Next => None,
        IterEnd::Closed => Some(RegionEnd::Closed),
        IterEnd::Fault(fault) => Some(RegionEnd::Fault(fault)),
        IterEnd::Fuel => Some(RegionEnd::Fuel),
        IterEnd::Going => None,
    }
}
