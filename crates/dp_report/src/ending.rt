//! The end of a run's text.

ghost use Rattle.std.specs.Prelude.{◌≡◌, ◌++◌, length, min, true, All, OnOk, IfOk};
ghost use Rattle.dp_report.specs.EndText.{end_line, end_bytes};

use crate::fault::put_fault;
use crate::regions::put_regions;
use crate::state::put_state;
use dp_base::{Cells, End, NoMemory, RegionReport, Row};
use dp_tree::Program;
use std::alloc::Global;

/// The text of a run from `state` on: the file-scope variables, a line for each region with a begun iteration, in
/// the order of the reports, and how the run ended. Where `why` holds, a region's line is followed by a line for each
/// number in it, with the cause for which the iteration was executed again.
pub fn end_text(
    alloc: Global,
    p: &Program,
    cells: &Cells,
    reports: &[RegionReport],
    end: End,
    why: bool,
) -> Result<Row<u8>, NoMemory>
    requires listed { All (λ report. length report.recovered ≡ min report.recovered_count 1000) reports.now }
    requires explained { why ≡ true → All (λ report. length report.causes ≡ length report.recovered) reports.now }
    ensures { IfOk result (λ text. text ≡ end_bytes p.now cells.now reports.now end why) }
{
    let mut out = Row::new(alloc);
    put_state(&mut out, p.vars.as_slice(), cells.as_slice())?;
    put_regions(&mut out, reports, why)?;
    put_end(&mut out, end)?;
    Ok(out)
}

/// The last line of a text alone: how the run ended. It goes behind what `out` has.
pub fn put_end(out: &mut Row<u8>, end: End) -> Result<(), NoMemory>
    ensures { OnOk result (out.new ≡ out.old ++ end_line end) }
{
    match end {
        End::Done => out.extend_from_slice(b"end done\n"),
        End::Fault(fault) => {
            out.extend_from_slice(b"end")?;
            put_fault(out, fault)?;
            out.push(b'\n')
        }
        End::Fuel => out.extend_from_slice(b"end fuel\n"),
    }
}
